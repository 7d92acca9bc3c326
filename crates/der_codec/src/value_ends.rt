//! What an end is where it stands.
ghost use Rattle.std.specs.Prelude.{◌≡◌, ℕ, List, length, slice_get, drop, Some, IfSome, IfNone, nat_lt};
ghost use Rattle.lexical_core.specs.Tree.{Tree};
ghost use Rattle.facets.specs.declared.simple.Simple.{Simple as SimpleType};
ghost use Rattle.reference_check.specs.Forms as graph;
ghost use Rattle.reference_check.specs.Forms.{Graph, form_slots};
ghost use Rattle.message_model.specs.Tables.{types_of, message_of};
ghost use Rattle.der_model.specs.DerMessage.{in_der};
ghost use Rattle.der_model.specs.Structures.{components, amount_components, structure};
ghost use Rattle.der_model.specs.Structures as structures;
ghost use Rattle.der_model.specs.States as states;
ghost use Rattle.der_model.specs.States.{field_end, one_end, item_end, next_number, end_answer};
ghost use Rattle.der_codec.specs.Levels.{IsLevel};
ghost use Rattle.der_codec.specs.Components.{IsEnded, NoneDue, IsDue};

use crate::components::Added;
use crate::level::{Level, Spot};
use lexical_core::Rule;
use message_model::{Form, Model};

/// What an end is.
#[derive(Clone, Copy, Debug)]
pub enum Ended {
    Fine,
    Breaks { rule: Rule, added: Added },
}

/// What the end is of an open value.
#[inline(always)]
pub fn end_of(model: &Model, level: &Level) -> Ended
    ensures { (fragment : Tree → List ℕ) (l : states.DerLevel ℕ) → IsLevel (types_of model.now) level.now l
        → IsEnded (types_of model.now) result (end_answer (structure (in_der fragment (message_of model.now)) l.spot) l.came) }
{
    match level.spot {
        Spot::Instance => end_of_type(model, 0, level.next),
        Spot::Value(number) => end_of_type(model, number, level.next),
        Spot::List { parent, slot } => end_of_list(model, parent, slot, level.count),
        Spot::Number(_) => Ended::Fine,
    }
}

/// The end of a list, in which so many items have come.
#[inline(always)]
fn end_of_list(model: &Model, parent: u32, slot: u32, count: u64) -> Ended
    ensures { (s : graph.Slot ℕ) → slice_get (form_slots (types_of model.now parent)) slot ≡ Some s → IsEnded (types_of model.now) result (item_end (nat_lt count s.min)) }
{
    match model.slot(parent, slot) {
        None => Ended::Fine,
        Some(slot) => {
            if count < u64::from(slot.min) {
                return Ended::Breaks {
                    rule: Rule::TooFew,
                    added: Added::Nothing,
                };
            }
            Ended::Fine
        }
    }
}

/// The end of a value of a type, whose next component would have this number.
#[inline(always)]
fn end_of_type(model: &Model, number: u32, next: u32) -> Ended
    ensures { (fragment : Tree → List ℕ) (came : List ℕ) → next ≡ next_number came → IsEnded (types_of model.now) result (end_answer (structure (in_der fragment (message_of model.now)) (structures.Value number)) came) }
{
    match model.form(number) {
        Some(Form::Sequence) => end_of_fields(model, number, next),
        Some(Form::Choice) => end_of_choice(next),
        Some(Form::Money { code: _, base: _ }) => end_of_amount(next),
        _ => Ended::Fine,
    }
}

/// The end of a sequence, whose next component would have this number.
#[inline(always)]
fn end_of_fields(model: &Model, number: u32, next: u32) -> Ended
    ensures { IsEnded (types_of model.now) result (field_end (drop next (components (types_of model.now) number 0 (form_slots (types_of model.now number))))) }
{
    match first_due_from(model, number, next) {
        None => Ended::Fine,
        Some(slot) => Ended::Breaks {
            rule: Rule::DerMissing,
            added: Added::Slot {
                parent: number,
                slot,
            },
        },
    }
}

/// The first slot from one on that has to come.
#[tactic(auto, using(crate::proofs::ComponentsFound::due_behind, crate::proofs::ComponentsFound::none_of_options))]
#[inline(always)]
fn first_due_from(model: &Model, number: u32, from: u32) -> Option<u32>
    ensures some { IfSome result (λ at. IsDue (form_slots (types_of model.now number)) from (length (form_slots (types_of model.now number))) at) }
    ensures none { IfNone result (NoneDue (form_slots (types_of model.now number)) from (length (form_slots (types_of model.now number)))) }
{
    model.first_firm(number, from)
}

/// The end of a choice, in which an alternative has come where the number is not 0.
fn end_of_choice(next: u32) -> Ended
    ensures { (types : Graph ℕ SimpleType) (came : List ℕ) → next ≡ next_number came → IsEnded types result (one_end came) }
{
    if next == 0 {
        return Ended::Breaks {
            rule: Rule::DerMissing,
            added: Added::Any,
        };
    }
    Ended::Fine
}

/// The end of an amount, whose next component would have this number.
fn end_of_amount(next: u32) -> Ended
    ensures { (types : Graph ℕ SimpleType) (number code : ℕ) → IsEnded types result (field_end (drop next (amount_components number code))) }
{
    if next == 0 {
        return Ended::Breaks {
            rule: Rule::DerMissing,
            added: Added::Currency,
        };
    }
    if next == 1 {
        return Ended::Breaks {
            rule: Rule::DerMissing,
            added: Added::Nothing,
        };
    }
    Ended::Fine
}
