//! The slots in which nothing has come: X.690 §8.10, a list of no items.
ghost use Rattle.std.specs.Prelude.{◌≡◌, ◌+◌, ◌-◌, ◌<◌, ◌≤◌, true, false, [], ◌++◌, take, drop, length, IfSome, IfNone};
ghost use Rattle.outside.specs.Pushes.{Pushes};
ghost use Rattle.reference_check.specs.Forms.{form_slots};
ghost use Rattle.message_model.specs.Tables.{types_of};
ghost use Rattle.der_writer.specs.inner.PieceOctets.{empty_slots, sequence_slots, slots_behind};
ghost use Rattle.der_writer.specs.inner.Heads.{head_octets, before_view};

use crate::head::Head;
use crate::heads::{head_size, push_head};
use crate::pieces::{Before, empty_head, next_slot};
use message_model::{Form, MOST_SLOTS, Model};
use outside::{Sink, SinkError};

/// Whether the type is a sequence.
pub(crate) fn is_sequence(model: &Model, number: u32) -> bool
    ensures yes { result ≡ true → form_slots (types_of model.now number) ≡ sequence_slots (types_of model.now number) }
    ensures no { result ≡ false → sequence_slots (types_of model.now number) ≡ [] }
{
    match model.form(number) {
        Some(Form::Sequence) => true,
        Some(Form::Choice) => false,
        Some(Form::Simple(_)) => false,
        Some(Form::Money { .. }) => false,
        Some(Form::Envelope) => false,
        None => false,
    }
}

/// A slot that is no option, and the head of its empty list; none where it has no list.
#[derive(Clone, Copy)]
struct Firm {
    at: u32,
    head: Option<Head>,
}

/// The first slot of a type from one on, and before another, that is no option. Where an option does not come, nothing
/// stands for it.
#[inline(always)]
fn firm_between(model: &Model, number: u32, from: u32, to: u32) -> Option<Firm>
    ensures within { IfSome result (λ firm. (from ≤ firm.at) × (firm.at < to) × (firm.at < 4096)) }
    ensures some { IfSome result (λ firm. empty_slots from (take (to - from) (drop from (form_slots (types_of model.now number))))
        ≡ head_octets firm.head 0 ++ empty_slots (firm.at + 1) (take (to - (firm.at + 1)) (drop (firm.at + 1) (form_slots (types_of model.now number))))) }
    ensures none { IfNone result (empty_slots from (take (to - from) (drop from (form_slots (types_of model.now number)))) ≡ []) }
{
    let _count = model.type_count();
    let Some(at) = model.first_firm(number, from) else {
        return None;
    };
    if at >= to {
        return None;
    }
    let slot = model.slot(number, at)?;
    Some(Firm {
        at,
        head: empty_head(at, slot.max),
    })
}

/// Pushes the slots of a type from one on and before another, in which nothing has come.
#[inline(never)]
fn push_empty<O: Sink>(
    model: &Model,
    number: u32,
    from: u64,
    to: u32,
    sink: &mut O,
) -> Result<(), SinkError>
    ensures { Pushes O.held O.faults O.room sink.old sink.new result (empty_slots from (take (to - from) (drop from (form_slots (types_of model.now number))))) }
{
    let mut next = from;
    while next < to as u64 {
        let Some(firm) = firm_between(model, number, next as u32, to) else {
            return Ok(());
        };
        if let Err(error) = push_head(firm.head, 0, sink) {
            return Err(error);
        }
        next = firm.at as u64 + 1;
    }
    Ok(())
}

/// How many octets that are.
#[inline(never)]
fn empty_size(model: &Model, number: u32, from: u64, to: u32) -> u64
    ensures size { result ≡ length (empty_slots from (take (to - from) (drop from (form_slots (types_of model.now number))))) }
    ensures most { result ≤ 49152 }
{
    let mut size = 0;
    let mut next = from;
    while next < to as u64 {
        let Some(firm) = firm_between(model, number, next as u32, to) else {
            return size;
        };
        size += head_size(firm.head, 0);
        next = firm.at as u64 + 1;
    }
    size
}

/// Pushes the slots of a sequence from one on and before another, in which nothing has come.
#[inline(always)]
pub(crate) fn push_slots<O: Sink>(
    model: &Model,
    number: u32,
    from: u64,
    to: u32,
    sink: &mut O,
) -> Result<(), SinkError>
    ensures { Pushes O.held O.faults O.room sink.old sink.new result (empty_slots from (take (to - from) (drop from (sequence_slots (types_of model.now number))))) }
{
    if from >= to as u64 {
        return Ok(());
    }
    if !is_sequence(model, number) {
        return Ok(());
    }
    push_empty(model, number, from, to, sink)
}

/// How many octets that are.
#[inline(always)]
pub(crate) fn slots_size(model: &Model, number: u32, from: u64, to: u32) -> u64
    ensures size { result ≡ length (empty_slots from (take (to - from) (drop from (sequence_slots (types_of model.now number))))) }
    ensures most { result ≤ 49152 }
{
    if from >= to as u64 {
        return 0;
    }
    if is_sequence(model, number) {
        empty_size(model, number, from, to)
    } else {
        0
    }
}

/// Pushes the slots of a sequence from one on, in which nothing has come. Mostly there is none.
#[inline(always)]
pub(crate) fn push_behind<O: Sink>(
    model: &Model,
    number: u32,
    from: u64,
    sink: &mut O,
) -> Result<(), SinkError>
    ensures { Pushes O.held O.faults O.room sink.old sink.new result (empty_slots from (drop from (sequence_slots (types_of model.now number)))) }
{
    let _count = model.type_count();
    if from >= MOST_SLOTS as u64 {
        return Ok(());
    }
    let Some(_) = model.slot(number, from as u32) else {
        return Ok(());
    };
    push_slots(model, number, from, MOST_SLOTS, sink)
}

/// How many octets the slots of a sequence have from one on, in which nothing has come. Mostly there is none.
#[inline(always)]
pub(crate) fn rest_size(model: &Model, number: u32, from: u64) -> u64
    ensures size { result ≡ length (empty_slots from (drop from (sequence_slots (types_of model.now number)))) }
    ensures most { result ≤ 49152 }
{
    let _count = model.type_count();
    if from >= MOST_SLOTS as u64 {
        return 0;
    }
    let Some(_) = model.slot(number, from as u32) else {
        return 0;
    };
    slots_size(model, number, from, MOST_SLOTS)
}

/// How many octets the slots of a sequence have behind a piece, in which nothing has come.
#[inline(always)]
pub(crate) fn behind_size(model: &Model, number: u32, before: Before) -> u64
    ensures size { result ≡ length (slots_behind (types_of model.now) number (before_view before)) }
    ensures most { result ≤ 49152 }
{
    rest_size(model, number, next_slot(before))
}
