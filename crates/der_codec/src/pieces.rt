//! The pieces of an instance, where they are kept as its parts come.
ghost use Rattle.std.specs.Prelude.{◌≡◌, ◌∷◌, [], ℕ, List, IsOk, OnOk, Some};
ghost use Rattle.data_types.specs.LeafAnswers.{leaf_of};
ghost use Rattle.data_types.specs.Value.{Holds};
ghost use Rattle.message_model.specs.Tables.{types_of};
ghost use Rattle.der_model.specs.DerMessage.{der_message};
ghost use Rattle.der_model.specs.NestedPieces.{elements_around};
ghost use Rattle.der_model.specs.ShownPieces.{begin_each, end_each, elements_ended};
ghost use Rattle.der_model.specs.States as states;
ghost use Rattle.der_codec.specs.KeptPieces.{PiecesGoOn, GoOnByBegun, GoOnByLeaf, AreOpen, IsLastSpot, StaysAlone};
ghost use Rattle.der_codec.specs.Levels.{AreLevels, inwards, first_of};
ghost use Rattle.der_codec.specs.Reserved.{GrowsRoom, HoldMore, HoldBegun, HoldLeafWithin};

use crate::decoder::Decoder;
use crate::elements::{self, append, begin_component, end_component};
use crate::level::{Level, Spot};
use data_types::LeafRef;
use inst_pool::Builder;
use message_model::Model;
use std::alloc::AllocError;

/// The elements begin that begin with the last component of the innermost value.
#[inline(always)]
pub(crate) fn begin(
    pieces: &mut Option<Builder>,
    model: &Model,
    decoder: &Decoder,
) -> Result<(), AllocError>
    ensures begun { (ls : List (states.DerLevel ℕ)) → AreLevels (types_of model.now) (inwards decoder.now.levels.items) ls
        → OnOk result (PiecesGoOn pieces.old pieces.new (begin_each (elements_ended (der_message model.now) ls))) }
    ensures room { GrowsRoom pieces.old pieces.new }
    ensures alone { StaysAlone pieces.old pieces.new }
    ensures within { (ls : List (states.DerLevel ℕ)) → AreLevels (types_of model.now) (inwards decoder.now.levels.items) ls → HoldMore pieces.old (begin_each (elements_ended (der_message model.now) ls)) → IsOk result }
{
    match pieces {
        None => Ok(()),
        Some(builder) => begin_component(builder, model, decoder.innermost()),
    }
}

/// The elements end that end with the last component of the innermost value.
#[inline(always)]
pub(crate) fn end(
    pieces: &mut Option<Builder>,
    model: &Model,
    decoder: &Decoder,
) -> Result<(), AllocError>
    requires { (ls : List (states.DerLevel ℕ)) × AreLevels (types_of model.now) (inwards decoder.now.levels.items) ls × AreOpen pieces.old (elements_around (der_message model.now) ls) }
    ensures ended { (ls : List (states.DerLevel ℕ)) → AreLevels (types_of model.now) (inwards decoder.now.levels.items) ls → AreOpen pieces.old (elements_around (der_message model.now) ls)
        → OnOk result (PiecesGoOn pieces.old pieces.new (end_each (elements_ended (der_message model.now) ls))) }
    ensures room { GrowsRoom pieces.old pieces.new }
    ensures alone { StaysAlone pieces.old pieces.new }
    ensures within { (ls : List (states.DerLevel ℕ)) → AreLevels (types_of model.now) (inwards decoder.now.levels.items) ls → HoldMore pieces.old (end_each (elements_ended (der_message model.now) ls)) → IsOk result }
{
    match pieces {
        None => Ok(()),
        Some(builder) => end_component(builder, model, decoder.innermost()),
    }
}

/// The elements end that end with a value at this spot, which is the last component of the innermost one.
#[inline(always)]
pub(crate) fn end_last(
    pieces: &mut Option<Builder>,
    model: &Model,
    around: &Level,
    spot: Spot,
) -> Result<(), AllocError>
    requires last { IsLastSpot (der_message model.now) around.now spot }
    requires around { (xs : List Level) × (ls : List (states.DerLevel ℕ)) × (Some around.now ≡ first_of xs) × AreLevels (types_of model.now) xs ls × AreOpen pieces.old (elements_around (der_message model.now) ls) }
    ensures ended { (xs : List Level) (ls : List (states.DerLevel ℕ)) → Some around.now ≡ first_of xs → AreLevels (types_of model.now) xs ls → AreOpen pieces.old (elements_around (der_message model.now) ls)
        → OnOk result (PiecesGoOn pieces.old pieces.new (end_each (elements_ended (der_message model.now) ls))) }
    ensures room { GrowsRoom pieces.old pieces.new }
    ensures alone { StaysAlone pieces.old pieces.new }
    ensures within { (xs : List Level) (ls : List (states.DerLevel ℕ)) → Some around.now ≡ first_of xs → AreLevels (types_of model.now) xs ls → HoldMore pieces.old (end_each (elements_ended (der_message model.now) ls)) → IsOk result }
{
    match pieces {
        None => Ok(()),
        Some(builder) => elements::end_last(builder, model, around, spot),
    }
}

/// A leaf comes.
pub(crate) fn hold(pieces: &mut Option<Builder>, leaf: &LeafRef<'_>) -> Result<(), AllocError>
    ensures held { OnOk result (PiecesGoOn pieces.old pieces.new (Holds (leaf_of leaf.now) ∷ [])) }
    ensures room { GrowsRoom pieces.old pieces.new }
    ensures alone { StaysAlone pieces.old pieces.new }
    ensures within { HoldMore pieces.old (Holds (leaf_of leaf.now) ∷ []) → IsOk result }
{
    match pieces {
        None => Ok(()),
        Some(builder) => append(builder, leaf),
    }
}

/// The elements begin that begin with the last component of a value, which is open.
#[inline(always)]
pub(crate) fn begin_last(
    pieces: &mut Option<Builder>,
    model: &Model,
    around: &Level,
    spot: Spot,
) -> Result<(), AllocError>
    requires { IsLastSpot (der_message model.now) around.now spot }
    ensures begun { OnOk result (GoOnByBegun (der_message model.now) around.now pieces.old pieces.new) }
    ensures room { GrowsRoom pieces.old pieces.new }
    ensures alone { StaysAlone pieces.old pieces.new }
    ensures within { HoldBegun (der_message model.now) around.now pieces.old → IsOk result }
{
    match pieces {
        None => Ok(()),
        Some(builder) => elements::begin_last(builder, model, around, spot),
    }
}

/// A leaf comes, which is the last component of a value, with the elements that begin and end with it.
#[inline(always)]
pub(crate) fn hold_last(
    pieces: &mut Option<Builder>,
    model: &Model,
    around: &Level,
    spot: Spot,
    leaf: &LeafRef<'_>,
) -> Result<(), AllocError>
    requires { IsLastSpot (der_message model.now) around.now spot }
    ensures held { OnOk result (GoOnByLeaf (der_message model.now) around.now (leaf_of leaf.now) pieces.old pieces.new) }
    ensures room { GrowsRoom pieces.old pieces.new }
    ensures alone { StaysAlone pieces.old pieces.new }
    ensures within { HoldLeafWithin (der_message model.now) around.now (leaf_of leaf.now) pieces.old → IsOk result }
{
    match pieces {
        None => Ok(()),
        Some(builder) => elements::hold_last(builder, model, around, spot, leaf),
    }
}
