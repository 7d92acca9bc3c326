//! Laws on what a checker was given, and on where its faults are told: each is the contract of a function that does nothing.
ghost use Rattle.der_codec.specs.Laws.{OnlyDerCut, KeepsAFront};
ghost use Rattle.der_codec.specs.ReadyLaws.{ReadyDerTellsAtOnce, ReadyFedDerIsOpen, ReadyFaultIsAtPart};

/// What a checker was given has no fault but that it may end too early.
pub fn only_cut()
    ensures { OnlyDerCut }
{}

/// What a reader keeps is a front of the pieces of each instance whose DER begins with the bytes that it was given.
pub fn what_is_kept_is_a_front()
    ensures { KeepsAFront }
{}

/// In a message that breaks no rule of its repository a fault is told at its part: behind parts that break no rule, one
/// more breaks none exactly where the parts with it, lengths left aside, go on to those of an instance.
pub fn a_fault_is_told_at_its_part()
    ensures { ReadyDerTellsAtOnce }
{
    message_model::laws::compiled_are_sound();
    reference_check::laws::ready_are_finite();
    der_model::laws::tables_are_sound();
    crate::envelopes::fragments_apart();
    der_model::laws::part_is_open();
}

/// In such a message the first fault of bytes, where it is on values, stands at a part with which no instance goes on.
pub fn the_first_fault_ends_all_instances()
    ensures { ReadyFaultIsAtPart }
{
    message_model::laws::compiled_are_sound();
    reference_check::laws::ready_are_finite();
    der_model::laws::tables_are_sound();
    crate::envelopes::fragments_apart();
    der_model::laws::front_is_open();
    der_model::laws::broken_is_not_open();
}

/// In such a message the parts that a checker was given go on to those of an instance.
pub fn what_was_fed_goes_on()
    ensures { ReadyFedDerIsOpen }
{
    message_model::laws::compiled_are_sound();
    reference_check::laws::ready_are_finite();
    der_model::laws::tables_are_sound();
    crate::envelopes::fragments_apart();
    der_model::laws::front_is_open();
}
