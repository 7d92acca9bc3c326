//! What follows of the definitions: functions that do nothing, whose contracts are laws.
ghost use Rattle.repo_objects.specs.Laws.{NamesOneObject};

/// The objects of a repository that have the same id are the same.
pub fn an_id_names_one_object()
    ensures { NamesOneObject }
{}
