//! What identifier octets are where they stand.
ghost use Rattle.std.specs.Prelude.{◌≡◌, ◌↔◌, ℕ, List, slice_get, drop, Some, IfSome, IfNone, IsTrue, IsFalse, true, if◌then◌else◌};
ghost use Rattle.lexical_core.specs.Tree.{Tree};
ghost use Rattle.facets.specs.declared.simple.Simple.{Simple as SimpleType};
ghost use Rattle.der_octets.specs.Octets.{context, universal};
ghost use Rattle.der_octets.specs.TagSteps.{tag_view};
ghost use Rattle.reference_check.specs.Forms as graph;
ghost use Rattle.reference_check.specs.Forms.{Graph, form_slots};
ghost use Rattle.reference_check.specs.Steps.{has_room};
ghost use Rattle.message_model.specs.Tables.{types_of, message_of};
ghost use Rattle.der_model.specs.DerMessage.{in_der};
ghost use Rattle.der_model.specs.Structures.{components, item_components, amount_components, is_once, is_constructed, component, universal_tag, structure};
ghost use Rattle.der_model.specs.Structures as structures;
ghost use Rattle.der_model.specs.States as states;
ghost use Rattle.der_model.specs.States.{field_answer, any_answer, one_answer, item_answer, next_number, level_answer};
ghost use Rattle.der_codec.specs.Levels.{IsLevel, IsSpot};
ghost use Rattle.der_codec.specs.Components.{IsFound, NoneDue, IsDue};

use crate::level::{Level, Spot};
use der_model::{comes_once, is_constructed, simple_number};
use der_octets::{Identifier, TagClass};
use lexical_core::Rule;
use message_model::{Form, Model};

/// What a fault adds to the path of what is open.
#[derive(Clone, Copy, Debug)]
pub enum Added {
    Nothing,
    /// The tag of a slot.
    Slot { parent: u32, slot: u32 },
    /// The attribute of an amount.
    Currency,
    /// Any alternative.
    Any,
}

/// What identifier octets are.
#[derive(Clone, Copy, Debug)]
pub enum Found {
    Begins { number: u16, spot: Spot },
    Breaks { rule: Rule, added: Added },
}

/// A slot of a type by its number, and what comes in it.
#[derive(Clone, Copy, Debug)]
pub(crate) struct Field {
    pub(crate) number: u16,
    pub(crate) spot: Spot,
}

/// A tag that may not stand here, which adds nothing to the path.
fn unexpected() -> Found
    ensures { result ≡ Found.Breaks Rule.UnexpectedTag Added.Nothing }
{
    Found::Breaks {
        rule: Rule::UnexpectedTag,
        added: Added::Nothing,
    }
}

/// In a sequence.
#[inline(always)]
fn in_fields(model: &Model, number: u32, next: u32, id: Identifier) -> Found
    ensures { IsFound (types_of model.now) result (field_answer next (drop next (components (types_of model.now) number 0 (form_slots (types_of model.now number)))) id.constructed (tag_view id)) }
{
    let Some(found) = field_at(model, number, id) else {
        return unexpected();
    };
    let at = u32::from(found.number);
    if at < next {
        return unexpected();
    }
    match first_due(model, number, next, at) {
        Some(slot) => missing(number, slot),
        None => Found::Begins {
            number: found.number,
            spot: found.spot,
        },
    }
}

/// This slot of the type has to come before; its tag is added to the path.
fn missing(parent: u32, slot: u32) -> Found
    ensures { result ≡ Found.Breaks Rule.DerMissing (Added.Slot parent slot) }
{
    Found::Breaks {
        rule: Rule::DerMissing,
        added: Added::Slot { parent, slot },
    }
}

/// The slot of the type under which the identifier is, if there is one, and what comes in it.
#[inline(always)]
fn field_at(model: &Model, number: u32, id: Identifier) -> Option<Field>
    ensures some { IfSome result (λ field. tag_view id ≡ context field.number) }
    ensures slot { IfSome result (λ field. (s : graph.Slot ℕ) × (slice_get (form_slots (types_of model.now number)) field.number ≡ Some s)
        × ((component (types_of model.now) number field.number s).constructed ≡ id.constructed)) }
    ensures spot { IfSome result (λ field. (s : graph.Slot ℕ) → slice_get (form_slots (types_of model.now number)) field.number ≡ Some s
        → IsSpot (types_of model.now) field.spot (component (types_of model.now) number field.number s).spot) }
    ensures none { IfNone result ((at : ℕ) (s : graph.Slot ℕ) → tag_view id ≡ context at → slice_get (form_slots (types_of model.now number)) at ≡ Some s
        → (component (types_of model.now) number at s).constructed ≡ id.constructed → ⊥) }
{
    if id.class != TagClass::Context {
        return None;
    }
    let at = u32::from(id.number);
    let slot = model.slot(number, at)?;
    if is_constructed_at(model, slot.max, slot.target) != id.constructed {
        return None;
    }
    Some(Field {
        number: id.number,
        spot: spot_at(number, at, slot.max, slot.target),
    })
}

/// Whether what comes under the tag of the slot is constructed.
fn is_constructed_at(model: &Model, max: Option<u32>, target: u32) -> bool
    ensures { result ≡ (if is_once max then is_constructed (types_of model.now target) else true) }
{
    if !comes_once(max) {
        return true;
    }
    is_constructed(model, target)
}

/// What comes in the slot of this number, of which so many may come.
fn spot_at(number: u32, at: u32, max: Option<u32>, target: u32) -> Spot
    ensures { (types : Graph ℕ SimpleType) (s : graph.Slot ℕ) → slice_get (form_slots (types number)) at ≡ Some s → s.max ≡ max → s.target ≡ target
        → IsSpot types result (component types number at s).spot }
{
    if comes_once(max) {
        return Spot::Value(target);
    }
    Spot::List {
        parent: number,
        slot: at,
    }
}

/// The first slot from one on, and before another, that has to come: in DER the first that is no option.
#[tactic(auto, using(crate::proofs::ComponentsFound::due_firm, crate::proofs::ComponentsFound::none_before, crate::proofs::ComponentsFound::none_of_options, crate::proofs::ComponentsFound::none_between))]
#[inline(always)]
fn first_due(model: &Model, number: u32, from: u32, to: u32) -> Option<u32>
    ensures some { IfSome result (λ at. IsDue (form_slots (types_of model.now number)) from to at) }
    ensures none { IfNone result (NoneDue (form_slots (types_of model.now number)) from to) }
{
    if from >= to {
        return None;
    }
    let at = model.first_firm(number, from)?;
    if at < to { Some(at) } else { None }
}

/// Any alternative.
#[inline(always)]
fn alternative(model: &Model, number: u32, id: Identifier) -> Found
    ensures { IsFound (types_of model.now) result (any_answer 0 (components (types_of model.now) number 0 (form_slots (types_of model.now number))) id.constructed (tag_view id)) }
{
    match field_at(model, number, id) {
        None => unexpected(),
        Some(found) => Found::Begins {
            number: found.number,
            spot: found.spot,
        },
    }
}

/// In a list, where so many items have come.
#[inline(always)]
fn in_list(model: &Model, parent: u32, slot: u32, count: u64, id: Identifier) -> Found
    ensures { (s : graph.Slot ℕ) → slice_get (form_slots (types_of model.now parent)) slot ≡ Some s
        → IsFound (types_of model.now) result (item_answer (has_room count s.max) (any_answer 0 (item_components (types_of model.now) s.target (types_of model.now s.target)) id.constructed (tag_view id))) }
{
    match model.slot(parent, slot) {
        None => unexpected(),
        Some(slot) => limited(is_open(count, slot.max), item(model, slot.target, id)),
    }
}

/// One more may come.
fn is_open(count: u64, max: Option<u32>) -> bool
    ensures { result ≡ has_room count max }
{
    match max {
        None => true,
        Some(most) => count < u64::from(most),
    }
}

/// One item more, where there may be one.
#[inline(always)]
fn limited(fits: bool, found: Found) -> Found
    ensures { (types : Graph ℕ SimpleType) (answer : states.IdentifierAnswer ℕ) → IsFound types found answer → IsFound types result (item_answer fits answer) }
{
    if fits {
        return found;
    }
    match found {
        Found::Begins { number: _, spot: _ } => Found::Breaks {
            rule: Rule::DerTooMany,
            added: Added::Nothing,
        },
        Found::Breaks { rule, added } => Found::Breaks { rule, added },
    }
}

/// An item of a list of the type: a value under its universal tag, or of a choice an alternative.
#[inline(always)]
fn item(model: &Model, number: u32, id: Identifier) -> Found
    ensures { IsFound (types_of model.now) result (any_answer 0 (item_components (types_of model.now) number (types_of model.now number)) id.constructed (tag_view id)) }
{
    if is_choice(model, number) {
        return alternative(model, number, id);
    }
    if id.class != TagClass::Universal
        || id.number != universal_number(model, number)
        || id.constructed != is_constructed(model, number)
    {
        return unexpected();
    }
    Found::Begins {
        number: 0,
        spot: Spot::Value(number),
    }
}

/// Whether the type is a choice.
pub(crate) fn is_choice(model: &Model, number: u32) -> bool
    ensures yes { IsTrue result → types_of model.now number ≡ graph.Choice (form_slots (types_of model.now number)) }
    ensures no { IsFalse result → (fs : List (graph.Slot ℕ)) → types_of model.now number ≡ graph.Choice fs → ⊥ }
{
    matches!(model.form(number), Some(Form::Choice))
}

/// The number of the type's universal tag.
fn universal_number(model: &Model, number: u32) -> u16
    ensures { universal_tag (types_of model.now number) ≡ universal result }
{
    match model.form(number) {
        Some(Form::Simple(simple)) => simple_number(simple),
        Some(Form::Envelope) => 12,
        _ => 16,
    }
}

/// In an amount of this code, whose next component has this number.
#[inline(always)]
fn in_amount(number: u32, code: u32, next: u32, id: Identifier) -> Found
    ensures { (types : Graph ℕ SimpleType) → IsFound types result (field_answer next (drop next (amount_components number code)) id.constructed (tag_view id)) }
{
    if !is_context(id.class) {
        return unexpected();
    }
    if id.constructed {
        return unexpected();
    }
    if next > 1 {
        return unexpected();
    }
    if id.number == 1 && next == 0 {
        return Found::Breaks {
            rule: Rule::DerMissing,
            added: Added::Currency,
        };
    }
    if u32::from(id.number) != next {
        return unexpected();
    }
    if next == 0 {
        return Found::Begins {
            number: 0,
            spot: Spot::Value(code),
        };
    }
    Found::Begins {
        number: 1,
        spot: Spot::Number(number),
    }
}

/// Whether the class is that of the tags in a value.
fn is_context(class: TagClass) -> bool
    ensures { IsTrue result ↔ (class ≡ TagClass.Context) }
{
    matches!(class, TagClass::Context)
}

/// What identifier octets are in an open value.
#[inline(always)]
pub fn identify(model: &Model, level: &Level, id: Identifier) -> Found
    ensures { (fragment : Tree → List ℕ) (l : states.DerLevel ℕ) → IsLevel (types_of model.now) level.now l
        → IsFound (types_of model.now) result (level_answer (in_der fragment (message_of model.now)) l id.constructed (tag_view id)) }
{
    match level.spot {
        Spot::Instance => in_type(model, 0, level.next, id),
        Spot::Value(number) => in_type(model, number, level.next, id),
        Spot::List { parent, slot } => in_list(model, parent, slot, level.count, id),
        Spot::Number(_) => unexpected(),
    }
}

/// The component of a sequence under this identifier, where it may come next; `None` where the open value is no sequence,
/// or a rule is broken.
#[inline(always)]
pub(crate) fn field_begun(model: &Model, level: &Level, id: Identifier) -> Option<Field>
    ensures { IfSome result (λ field. (fragment : Tree → List ℕ) (l : states.DerLevel ℕ) → IsLevel (types_of model.now) level.now l
        → IsFound (types_of model.now) (Found.Begins field.number field.spot) (level_answer (in_der fragment (message_of model.now)) l id.constructed (tag_view id))) }
{
    match level.spot {
        Spot::Value(number) => field_of_type(model, number, level.next, id),
        _ => None,
    }
}

/// The same in a value of a type, whose next component has this number.
#[inline(always)]
fn field_of_type(model: &Model, number: u32, next: u32, id: Identifier) -> Option<Field>
    ensures { IfSome result (λ field. (fragment : Tree → List ℕ) (came : List ℕ) → next ≡ next_number came
        → IsFound (types_of model.now) (Found.Begins field.number field.spot) (states.identifier_answer (structure (in_der fragment (message_of model.now)) (structures.Value number)) came id.constructed (tag_view id))) }
{
    match model.form(number) {
        Some(Form::Sequence) => field_of_sequence(model, number, next, id),
        _ => None,
    }
}

/// The same in a sequence.
#[inline(always)]
fn field_of_sequence(model: &Model, number: u32, next: u32, id: Identifier) -> Option<Field>
    ensures { IfSome result (λ field. IsFound (types_of model.now) (Found.Begins field.number field.spot) (field_answer next (drop next (components (types_of model.now) number 0 (form_slots (types_of model.now number)))) id.constructed (tag_view id))) }
{
    match in_fields(model, number, next, id) {
        Found::Begins { number, spot } => Some(Field { number, spot }),
        Found::Breaks { rule: _, added: _ } => None,
    }
}

/// In a value of a type, whose next component has this number.
#[inline(always)]
fn in_type(model: &Model, number: u32, next: u32, id: Identifier) -> Found
    ensures { (fragment : Tree → List ℕ) (came : List ℕ) → next ≡ next_number came
        → IsFound (types_of model.now) result (states.identifier_answer (structure (in_der fragment (message_of model.now)) (structures.Value number)) came id.constructed (tag_view id)) }
{
    match model.form(number) {
        Some(Form::Sequence) => in_fields(model, number, next, id),
        Some(Form::Choice) => in_choice(model, number, next, id),
        Some(Form::Money { code, base: _ }) => in_amount(number, code, next, id),
        _ => unexpected(),
    }
}

/// In a choice, in which an alternative has come where the number is not 0.
#[inline(always)]
fn in_choice(model: &Model, number: u32, next: u32, id: Identifier) -> Found
    ensures { (came : List ℕ) → next ≡ next_number came
        → IsFound (types_of model.now) result (one_answer came (any_answer 0 (components (types_of model.now) number 0 (form_slots (types_of model.now number))) id.constructed (tag_view id))) }
{
    if next != 0 {
        return unexpected();
    }
    alternative(model, number, id)
}
