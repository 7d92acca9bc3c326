//! What follows of the definitions: functions that do nothing, whose contracts are laws.
ghost use Rattle.repo_loader.specs.Laws.{SelectsTheTree, OneRepository, SpelledIsARepository, OneLoadFault, SpelledHasNoLoadFault, OneOfBoth};

/// What is read by the events of a tree is what is read of the tree.
pub fn events_and_tree_agree()
    ensures { SelectsTheTree }
{}

/// Bytes spell at most one repository.
pub fn one_repository()
    ensures { OneRepository }
{}

/// What bytes spell is a repository: no two objects have one id, and all texts are UTF-8 of characters of XML.
pub fn spelled_is_a_repository()
    ensures { SpelledIsARepository }
{}

/// Bytes have at most one first fault.
pub fn one_load_fault()
    ensures { OneLoadFault }
{}

/// Bytes that spell a repository have no fault.
pub fn spelled_has_none()
    ensures { SpelledHasNoLoadFault }
{}

/// No input neither spells a repository nor has a first fault.
pub fn one_of_both()
    ensures { OneOfBoth }
{
    markup::laws::whole_or_faulty();
}
