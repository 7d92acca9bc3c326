//! What follows of the definitions: functions that do nothing, whose contracts are laws.
ghost use Rattle.code_sets.specs.Laws.{JoinedHasNone, JoinedIsARepository, JoinsOrHasFault, OneCodesFault, OneJoined, OneReadFault, OneReading, ReadHasNone, ReadsOrHasFault};

/// Bytes say one list of codes.
pub fn one_reading()
    ensures { OneReading }
{}

/// Bytes have one first fault.
pub fn one_read_fault()
    ensures { OneReadFault }
{}

/// Bytes that say codes have no fault.
pub fn read_has_none()
    ensures { ReadHasNone }
{}

/// All bytes say codes or have a fault.
pub fn reads_or_has_fault()
    ensures { ReadsOrHasFault }
{}

/// Bytes and a repository make one repository.
pub fn one_joined()
    ensures { OneJoined }
{}

/// Bytes and a repository have one first fault.
pub fn one_codes_fault()
    ensures { OneCodesFault }
{}

/// Bytes and a repository that make one have no fault.
pub fn joined_has_none()
    ensures { JoinedHasNone }
{}

/// All bytes make a repository of one, or have a fault.
pub fn joins_or_has_fault()
    ensures { JoinsOrHasFault }
{}

/// What bytes make of a repository is a repository: no two objects have one id, and all texts are UTF-8 of characters
/// of XML.
pub fn joined_is_a_repository()
    ensures { JoinedIsARepository }
{}
