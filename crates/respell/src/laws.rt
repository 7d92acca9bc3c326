//! Laws of fragments, each the contract of a function with an empty body.
ghost use Rattle.respell.specs.Laws.{OneTree, NoProperFront, ReadBack, FragmentWithin, EventsArePlain, TreeIsPlain, WholeIsPlain};

/// A fragment is that of one tree.
pub fn one_tree()
    ensures { OneTree }
{}

/// No fragment is a proper front of another.
pub fn no_proper_front()
    ensures { NoProperFront }
{}

/// A fragment is read back as its tree.
pub fn read_back()
    ensures { ReadBack }
{}

/// A fragment stands inside a document as it stands by itself.
pub fn fragment_within()
    ensures { FragmentWithin }
{}

/// The events of tokens that break no rule are those that a plain tree has: their attributes are sorted, no two alike.
pub fn events_are_plain()
    ensures { EventsArePlain }
{}

/// A tree is plain whose events all speak of a plain one, those that are skipped aside.
pub fn tree_is_plain()
    ensures { TreeIsPlain }
{}

/// The tree of whole bytes, in which nothing breaks a rule, is plain.
pub fn whole_is_plain()
    ensures { WholeIsPlain }
{}
