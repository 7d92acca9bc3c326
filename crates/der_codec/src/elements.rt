//! The elements that begin and end with the components of open values.
ghost use Rattle.std.specs.Prelude.{◌≡◌, ◌++◌, ◌∷◌, [], ℕ, List, IsOk, OnOk, Some, slice_get, reverse};
ghost use Rattle.data_types.specs.LeafAnswers.{leaf_of};
ghost use Rattle.data_types.specs.Value.{Edge as EdgeOf, Holds};
ghost use Rattle.inst_pool.specs.Pieces.{open_in};
ghost use Rattle.reference_check.specs.Forms as graph;
ghost use Rattle.reference_check.specs.Forms.{form_slots};
ghost use Rattle.message_model.specs.Tables.{types_of};
ghost use Rattle.der_model.specs.DerMessage.{der_message};
ghost use Rattle.der_model.specs.OpenParts.{components_of};
ghost use Rattle.der_model.specs.Structures as structures;
ghost use Rattle.der_model.specs.Structures.{structure};
ghost use Rattle.der_model.specs.States as states;
ghost use Rattle.der_model.specs.States.{next_number};
ghost use Rattle.der_model.specs.ShownPieces.{begin_each, end_each, slot_elements, alternatives_of, component_elements, last_elements, elements_ended};
ghost use Rattle.der_model.specs.NestedPieces.{elements_around};
ghost use Rattle.der_codec.specs.Levels.{IsSpot, IsLevel, AreLevels, first_of};
ghost use Rattle.der_codec.specs.KeptPieces.{AreLast, IsLastOf, IsLastSpot, ShowsBegun, ShowsLeaf};
ghost use Rattle.der_codec.specs.Reserved.{GrowsRoom, HoldsMore, HoldsBegun, HoldsLeafWithin};
ghost use Rattle.der_codec.specs.inner.Elements.{edge_if, edges_of, has_slots};

use crate::components::is_choice;
use crate::level::{Level, Spot};
use data_types::LeafRef;
use der_model::comes_once;
use inst_pool::{Builder, Edge};
use message_model::{Form, Model};
use std::alloc::AllocError;

/// The elements that begin with a component. Of an item of a list that is a choice there are two: that of the
/// list's slot, and in it that of the alternative.
#[derive(Clone, Copy, Debug)]
struct Elements {
    outer: Option<Edge>,
    inner: Option<Edge>,
}

/// The element of the slot of the type; a list is none.
#[inline(always)]
fn slot_element(model: &Model, parent: u32, slot: u32) -> Option<Edge>
    ensures { edge_if result ≡ slot_elements parent slot (slice_get (form_slots (types_of model.now parent)) slot) }
{
    let Some(found) = model.slot(parent, slot) else {
        return None;
    };
    if !comes_once(found.max) {
        return None;
    }
    Some(Edge {
        slot,
        target: found.target,
        parent,
    })
}

/// The element of the alternative of the type, where it is a choice.
#[inline(always)]
fn alternative_element(model: &Model, number: u32, slot: u32) -> Option<Edge>
    ensures { edge_if result ≡ slot_elements number slot (slice_get (alternatives_of (types_of model.now number)) slot) }
{
    if !is_choice(model, number) {
        return None;
    }
    slot_element(model, number, slot)
}

/// The elements of an item of the list in a slot, which is the alternative of this number where it is a choice.
#[inline(always)]
fn item_elements(model: &Model, parent: u32, slot: u32, alternative: u32) -> Elements
    ensures { (s : graph.Slot ℕ) → slice_get (form_slots (types_of model.now parent)) slot ≡ Some s
        → edges_of result ≡ component_elements (der_message model.now) (structures.ListOf parent slot s) alternative }
{
    let Some(found) = model.slot(parent, slot) else {
        return one_element(None);
    };
    Elements {
        outer: Some(Edge {
            slot,
            target: found.target,
            parent,
        }),
        inner: alternative_element(model, found.target, alternative),
    }
}

/// At most one element.
#[inline(always)]
fn one_element(outer: Option<Edge>) -> Elements
    ensures { edges_of result ≡ edge_if outer }
{
    Elements { outer, inner: None }
}

/// The elements that begin with the component of this number in a value.
#[inline(always)]
fn elements_at(model: &Model, spot: Spot, number: u32) -> Elements
    ensures { (of : structures.Spot ℕ) → IsSpot (types_of model.now) spot of → edges_of result ≡ component_elements (der_message model.now) of number }
{
    match spot {
        Spot::Instance => one_element(slot_element(model, 0, number)),
        Spot::Value(parent) => one_element(slot_element(model, parent, number)),
        Spot::List { parent, slot } => item_elements(model, parent, slot, number),
        Spot::Number(_) => one_element(None),
    }
}

/// The elements that began with the component of an open value that came last.
#[inline(always)]
fn last_begun(model: &Model, level: &Level) -> Elements
    ensures { (l : states.DerLevel ℕ) → IsLevel (types_of model.now) level.now l → edges_of result ≡ last_elements (der_message model.now) l.spot l.came }
{
    if level.next == 0 {
        return one_element(None);
    }
    elements_at(model, level.spot, level.next - 1)
}

/// Whether what comes in a value of the type comes in slots.
fn has_slots(model: &Model, number: u32) -> bool
    ensures { result ≡ has_slots (types_of model.now number) }
{
    match model.form(number) {
        Some(Form::Sequence) => true,
        Some(Form::Choice) => true,
        _ => false,
    }
}

/// The element of a component that is a value of the target; the code of an amount is none.
#[inline(always)]
fn target_element(model: &Model, parent: u32, slot: u32, target: u32) -> Option<Edge>
    ensures { (c : structures.Component ℕ) → slice_get (components_of (structure (der_message model.now) (structures.Value parent))) slot ≡ Some c → c.spot ≡ structures.Value target
        → edge_if result ≡ component_elements (der_message model.now) (structures.Value parent) slot }
{
    if !has_slots(model, parent) {
        return None;
    }
    Some(Edge {
        slot,
        target,
        parent,
    })
}

/// The element of the value at the spot, which is the last component of a value of the type, where there is one.
#[inline(always)]
fn value_element(model: &Model, parent: u32, next: u32, spot: Spot) -> Option<Edge>
    ensures { (of : structures.Spot ℕ) (came : List ℕ) → IsSpot (types_of model.now) spot of → next ≡ next_number came → IsLastOf (components_of (structure (der_message model.now) (structures.Value parent))) came of
        → edge_if result ≡ last_elements (der_message model.now) (structures.Value parent) came }
{
    if next == 0 {
        return None;
    }
    match spot {
        Spot::Value(target) => target_element(model, parent, next - 1, target),
        Spot::Instance => None,
        Spot::List { parent: _, slot: _ } => None,
        Spot::Number(_) => None,
    }
}

/// The elements that began with the component of an open value that came last, which is the value at the spot.
#[inline(always)]
fn begun_with(model: &Model, level: &Level, spot: Spot) -> Elements
    requires { IsLastSpot (der_message model.now) level.now spot }
    ensures { AreLast (der_message model.now) level.now (edges_of result) }
{
    match level.spot {
        Spot::Value(parent) => one_element(value_element(model, parent, level.next, spot)),
        _ => last_begun(model, level),
    }
}

/// An element begins, where there is one.
#[inline(always)]
fn begin_one(builder: &mut Builder, element: Option<Edge>) -> Result<(), AllocError>
    ensures begun { OnOk result (builder.new.pieces ≡ builder.old.pieces ++ begin_each (edge_if element)) }
    ensures room { GrowsRoom (Some builder.old) (Some builder.new) }
    ensures within { HoldsMore builder.old (begin_each (edge_if element)) → IsOk result }
{
    match element {
        None => Ok(()),
        Some(edge) => builder.begin(edge),
    }
}

/// The elements begin, the outermost first.
#[inline(always)]
fn begin_elements(builder: &mut Builder, begun: &Elements) -> Result<(), AllocError>
    ensures begun { OnOk result (builder.new.pieces ≡ builder.old.pieces ++ begin_each (edges_of begun.now)) }
    ensures room { GrowsRoom (Some builder.old) (Some builder.new) }
    ensures within { HoldsMore builder.old (begin_each (edges_of begun.now)) → IsOk result }
{
    match begin_one(builder, begun.outer) {
        Err(error) => Err(error),
        Ok(()) => begin_one(builder, begun.inner),
    }
}

/// The elements begin that begin with the last component of a value; none where it is the instance itself that begins.
pub(crate) fn begin_component(
    builder: &mut Builder,
    model: &Model,
    around: Option<Level>,
) -> Result<(), AllocError>
    ensures begun { (xs : List Level) (ls : List (states.DerLevel ℕ)) → around ≡ first_of xs → AreLevels (types_of model.now) xs ls
        → OnOk result (builder.new.pieces ≡ builder.old.pieces ++ begin_each (elements_ended (der_message model.now) ls)) }
    ensures room { GrowsRoom (Some builder.old) (Some builder.new) }
    ensures within { (xs : List Level) (ls : List (states.DerLevel ℕ)) → around ≡ first_of xs → AreLevels (types_of model.now) xs ls → HoldsMore builder.old (begin_each (elements_ended (der_message model.now) ls)) → IsOk result }
{
    match around {
        None => Ok(()),
        Some(level) => begin_elements(builder, &last_begun(model, &level)),
    }
}

/// The elements begin that begin with the last component of a value, which is open.
pub(crate) fn begin_last(
    builder: &mut Builder,
    model: &Model,
    around: &Level,
    spot: Spot,
) -> Result<(), AllocError>
    requires { IsLastSpot (der_message model.now) around.now spot }
    ensures begun { OnOk result (ShowsBegun (der_message model.now) around.now builder.old.pieces builder.new.pieces) }
    ensures room { GrowsRoom (Some builder.old) (Some builder.new) }
    ensures within { HoldsBegun (der_message model.now) around.now builder.old → IsOk result }
{
    let begun = begun_with(model, around, spot);
    begin_elements(builder, &begun)
}

/// A leaf comes, which is the last component of a value, with the elements that begin and end with it.
#[inline(always)]
pub(crate) fn hold_last(
    builder: &mut Builder,
    model: &Model,
    around: &Level,
    spot: Spot,
    leaf: &LeafRef<'_>,
) -> Result<(), AllocError>
    requires { IsLastSpot (der_message model.now) around.now spot }
    ensures held { OnOk result (ShowsLeaf (der_message model.now) around.now (leaf_of leaf.now) builder.old.pieces builder.new.pieces) }
    ensures room { GrowsRoom (Some builder.old) (Some builder.new) }
    ensures within { HoldsLeafWithin (der_message model.now) around.now (leaf_of leaf.now) builder.old → IsOk result }
{
    let begun = begun_with(model, around, spot);
    hold_within(builder, &begun, leaf)
}

/// A leaf comes within elements that begin and end with it.
#[inline(always)]
fn hold_within(
    builder: &mut Builder,
    begun: &Elements,
    leaf: &LeafRef<'_>,
) -> Result<(), AllocError>
    ensures held { OnOk result (builder.new.pieces ≡ builder.old.pieces ++ (begin_each (edges_of begun.now) ++ Holds (leaf_of leaf.now) ∷ end_each (edges_of begun.now))) }
    ensures room { GrowsRoom (Some builder.old) (Some builder.new) }
    ensures within { HoldsMore builder.old (begin_each (edges_of begun.now) ++ Holds (leaf_of leaf.now) ∷ end_each (edges_of begun.now)) → IsOk result }
{
    match begun.inner {
        Some(_) => hold_parts(builder, begun, leaf),
        None => hold_in(builder, begun.outer, leaf),
    }
}

/// A leaf comes within an element that begins and ends with it, where there is one.
#[inline(always)]
fn hold_in(
    builder: &mut Builder,
    element: Option<Edge>,
    leaf: &LeafRef<'_>,
) -> Result<(), AllocError>
    ensures held { OnOk result (builder.new.pieces ≡ builder.old.pieces ++ (begin_each (edge_if element) ++ Holds (leaf_of leaf.now) ∷ end_each (edge_if element))) }
    ensures room { GrowsRoom (Some builder.old) (Some builder.new) }
    ensures within { HoldsMore builder.old (begin_each (edge_if element) ++ Holds (leaf_of leaf.now) ∷ end_each (edge_if element)) → IsOk result }
{
    match element {
        Some(edge) => builder.leaf_within(edge, leaf),
        None => append(builder, leaf),
    }
}

/// The same of any elements, one piece after the other.
#[inline(never)]
fn hold_parts(builder: &mut Builder, begun: &Elements, leaf: &LeafRef<'_>) -> Result<(), AllocError>
    ensures held { OnOk result (builder.new.pieces ≡ builder.old.pieces ++ (begin_each (edges_of begun.now) ++ Holds (leaf_of leaf.now) ∷ end_each (edges_of begun.now))) }
    ensures room { GrowsRoom (Some builder.old) (Some builder.new) }
    ensures within { HoldsMore builder.old (begin_each (edges_of begun.now) ++ Holds (leaf_of leaf.now) ∷ end_each (edges_of begun.now)) → IsOk result }
{
    if let Err(error) = begin_elements(builder, begun) {
        return Err(error);
    }
    if let Err(error) = append(builder, leaf) {
        return Err(error);
    }
    end_elements(builder, begun)
}

/// A leaf comes.
#[inline(always)]
pub(crate) fn append(builder: &mut Builder, leaf: &LeafRef<'_>) -> Result<(), AllocError>
    ensures held { OnOk result (builder.new.pieces ≡ builder.old.pieces ++ Holds (leaf_of leaf.now) ∷ []) }
    ensures room { GrowsRoom (Some builder.old) (Some builder.new) }
    ensures within { HoldsMore builder.old (Holds (leaf_of leaf.now) ∷ []) → IsOk result }
{
    builder.leaf_from(leaf)
}

/// An element ends, where there is one.
#[inline(always)]
fn end_one(builder: &mut Builder, element: Option<Edge>) -> Result<(), AllocError>
    requires { (around : List EdgeOf) × (open_in builder.old.pieces ≡ edge_if element ++ around) }
    ensures ended { (around : List EdgeOf) → open_in builder.old.pieces ≡ edge_if element ++ around → OnOk result (builder.new.pieces ≡ builder.old.pieces ++ end_each (edge_if element)) }
    ensures open { (around : List EdgeOf) → open_in builder.old.pieces ≡ edge_if element ++ around → OnOk result (open_in builder.new.pieces ≡ around) }
    ensures room { GrowsRoom (Some builder.old) (Some builder.new) }
    ensures within { HoldsMore builder.old (end_each (edge_if element)) → IsOk result }
{
    match element {
        None => Ok(()),
        Some(_) => builder.close(),
    }
}

/// The elements end, the innermost first.
#[inline(always)]
fn end_elements(builder: &mut Builder, ended: &Elements) -> Result<(), AllocError>
    requires { (around : List EdgeOf) × (open_in builder.old.pieces ≡ reverse (edges_of ended.now) ++ around) }
    ensures ended { (around : List EdgeOf) → open_in builder.old.pieces ≡ reverse (edges_of ended.now) ++ around → OnOk result (builder.new.pieces ≡ builder.old.pieces ++ end_each (edges_of ended.now)) }
    ensures room { GrowsRoom (Some builder.old) (Some builder.new) }
    ensures within { HoldsMore builder.old (end_each (edges_of ended.now)) → IsOk result }
{
    match end_one(builder, ended.inner) {
        Err(error) => Err(error),
        Ok(()) => end_one(builder, ended.outer),
    }
}

/// The elements end that ended with a value, which is the last component of this one; none where it is the
/// instance itself.
#[inline(always)]
pub(crate) fn end_component(
    builder: &mut Builder,
    model: &Model,
    around: Option<Level>,
) -> Result<(), AllocError>
    requires { (xs : List Level) × (ls : List (states.DerLevel ℕ)) × (around ≡ first_of xs) × AreLevels (types_of model.now) xs ls × (open_in builder.old.pieces ≡ elements_around (der_message model.now) ls) }
    ensures ended { (xs : List Level) (ls : List (states.DerLevel ℕ)) → around ≡ first_of xs → AreLevels (types_of model.now) xs ls → open_in builder.old.pieces ≡ elements_around (der_message model.now) ls
        → OnOk result (builder.new.pieces ≡ builder.old.pieces ++ end_each (elements_ended (der_message model.now) ls)) }
    ensures room { GrowsRoom (Some builder.old) (Some builder.new) }
    ensures within { (xs : List Level) (ls : List (states.DerLevel ℕ)) → around ≡ first_of xs → AreLevels (types_of model.now) xs ls → HoldsMore builder.old (end_each (elements_ended (der_message model.now) ls)) → IsOk result }
{
    match around {
        None => Ok(()),
        Some(level) => end_elements(builder, &last_begun(model, &level)),
    }
}

/// The elements end that ended with a value at this spot, which is the last component of the innermost one.
#[inline(always)]
pub(crate) fn end_last(
    builder: &mut Builder,
    model: &Model,
    around: &Level,
    spot: Spot,
) -> Result<(), AllocError>
    requires last { IsLastSpot (der_message model.now) around.now spot }
    requires around { (xs : List Level) × (ls : List (states.DerLevel ℕ)) × (Some around.now ≡ first_of xs) × AreLevels (types_of model.now) xs ls × (open_in builder.old.pieces ≡ elements_around (der_message model.now) ls) }
    ensures ended { (xs : List Level) (ls : List (states.DerLevel ℕ)) → Some around.now ≡ first_of xs → AreLevels (types_of model.now) xs ls → open_in builder.old.pieces ≡ elements_around (der_message model.now) ls
        → OnOk result (builder.new.pieces ≡ builder.old.pieces ++ end_each (elements_ended (der_message model.now) ls)) }
    ensures room { GrowsRoom (Some builder.old) (Some builder.new) }
    ensures within { (xs : List Level) (ls : List (states.DerLevel ℕ)) → Some around.now ≡ first_of xs → AreLevels (types_of model.now) xs ls → HoldsMore builder.old (end_each (elements_ended (der_message model.now) ls)) → IsOk result }
{
    let begun = begun_with(model, around, spot);
    end_elements(builder, &begun)
}
