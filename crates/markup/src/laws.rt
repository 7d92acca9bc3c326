//! Laws of the definitions, each the contract of a function with an empty body.
ghost use Rattle.markup.specs.Faults.{OneFault, WholeHasNone, WholeOrFaulty, FaultWithin};
ghost use Rattle.markup.specs.Marks.{OneToken, FrontsAgree, OneMarking};
ghost use Rattle.markup.specs.Reading.{NoFaultTaken};
ghost use Rattle.markup.specs.Chars.{AreClasses};
ghost use Rattle.markup.specs.Standing.{EventsStay, EventsAreAll, NothingAtClean, OneNext, NothingBehindWhole, NoTokenBehindAll, TokensHaveBytes};

/// At one place of the bytes, with or without an open CDATA section, at most one token stands.
pub fn one_token()
    ensures { OneToken }
{}

/// Two lists of tokens from the front of one input agree as far as both go.
pub fn fronts_agree()
    ensures { FrontsAgree }
{}

/// A text has at most one first markup fault.
pub fn one_fault()
    ensures { OneFault }
{}

/// A fault stands within the bytes or at their end.
pub fn fault_within()
    ensures { FaultWithin }
{}

/// A text that is whole, and in which nothing breaks a rule, has no markup fault.
pub fn whole_has_none()
    ensures { WholeHasNone }
{}

/// Every text is whole, or has a first markup fault.
pub fn whole_or_faulty()
    ensures { WholeOrFaulty }
{}

/// Bytes are at most one list of tokens.
pub fn one_marking()
    ensures { OneMarking }
{}

/// What a reader has taken has no fault but that it may end too early.
pub fn no_fault_taken()
    ensures { NoFaultTaken }
{}

/// The tests on characters are the classes of XML 1.0 §2.2 and §2.3.
pub fn characters()
    ensures { AreClasses }
{}

/// Whatever follows what a reader has taken, the events that it told are those of tokens at the front.
pub fn events_stay()
    ensures { EventsStay }
{}

/// They are those of the longest list of tokens at the front of the bytes.
pub fn events_are_all()
    ensures { EventsAreAll }
{}

/// Where a token stands that breaks no rule, nothing else is wrong.
pub fn nothing_at_clean()
    ensures { NothingAtClean }
{}

/// At one place one rule is broken first.
pub fn one_next()
    ensures { OneNext }
{}

/// Behind the whole of an input nothing is wrong.
pub fn nothing_behind_whole()
    ensures { NothingBehindWhole }
{}

/// Behind all bytes no token stands.
pub fn no_token_behind_all()
    ensures { NoTokenBehindAll }
{}

/// Each token has bytes.
pub fn tokens_have_bytes()
    ensures { TokensHaveBytes }
{}
