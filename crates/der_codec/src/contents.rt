//! The contents of primitive values: X.690 §8.1.4.
ghost use Rattle.std.specs.Prelude.{◌≡◌, ◌<◌, ◌≤◌, ◌^◌, ◌∷◌, [], ℕ, length, true, false, IsOk, IfOk, OnOk, IsErrOf};
ghost use Rattle.data_types.specs.Leaf.{Leaf};
ghost use Rattle.data_types.specs.LeafAnswers.{leaf_of};
ghost use Rattle.data_types.specs.Value.{Holds as HoldsPiece};
ghost use Rattle.fragments.specs.Fragment.{fragment};
ghost use Rattle.message_model.specs.Tables.{types_of};
ghost use Rattle.der_model.specs.DerMessage.{DerMessage, der_message};
ghost use Rattle.der_model.specs.Structures as structures;
ghost use Rattle.der_model.specs.Structures.{structure, Holds, Fragment};
ghost use Rattle.der_model.specs.OpenParts.{IsPrimitive};
ghost use Rattle.der_codec.specs.Checked.{CheckTypes};
ghost use Rattle.der_codec.specs.KeptPieces.{HoldsLeafAt, GoesOnByLeaf, GoesOnByLast, GoOnByLeaf, IsLastSpot, StaysAlone};
ghost use Rattle.der_codec.specs.Reserved.{HasChecks, GrowsRoom, HoldMore, HoldLeafWithin, IsPrimitiveType, IsPrimitiveAt};
ghost use Rattle.der_codec.specs.Rooms.{HasNoEnvelopes};
ghost use Rattle.der_codec.specs.Judging.{HoldsContents, IsJudgedAt, IsJudgedFor, IsVerdictFor};

use crate::checks::{Checks, Refusal};
use crate::known::{Known, is_amount, known_at};
use crate::leaves::judge_simple;
use crate::level::{Level, Spot};
use crate::pieces::{hold, hold_last};
use data_types::LeafRef;
use inst_pool::Builder;
use lexical_core::Rule;
use message_model::{Form, Model};
use respell::is_fragment;
use std::alloc::AllocError;

/// The leaf of the contents octets of a primitive value, or the rule that they break. A constructed value
/// has no contents octets: of one the answer is that there is no memory.
#[inline(always)]
pub fn judge<'a>(
    checks: &mut Checks,
    model: &Model,
    spot: Spot,
    octets: &'a [u8],
) -> Result<LeafRef<'a>, Refusal>
    requires short { length octets.now < 2 ^ 40 }
    requires made { CheckTypes (types_of model.now) checks.old }
    ensures made { CheckTypes (types_of model.now) checks.new }
    ensures judged { IsJudgedFor (der_message model.now) spot octets.now result }
    ensures room { (bytes : ℕ) → HasChecks (types_of model.now) bytes checks.old → HasChecks (types_of model.now) bytes checks.new }
    ensures within { (bytes : ℕ) → HasChecks (types_of model.now) bytes checks.old → HasNoEnvelopes (types_of model.now) → length octets.now ≤ bytes → IsPrimitiveAt model.now spot → IsErrOf result Refusal.Memory → ⊥ }
{
    let _ = model.type_count();
    match spot {
        Spot::Value(number) => judge_value(checks, model, number, octets),
        Spot::Number(number) => judge_number(checks, model, number, octets),
        Spot::Instance => Err(Refusal::Memory),
        Spot::List { parent: _, slot: _ } => Err(Refusal::Memory),
    }
}

/// Whether octets are contents of a primitive value, or the rule that they break. Where pieces are kept their leaf comes
/// behind them.
pub(crate) fn tell(
    checks: &mut Checks,
    pieces: &mut Option<Builder>,
    model: &Model,
    spot: Spot,
    octets: &[u8],
) -> Result<(), Refusal>
    requires short { length octets.now < 2 ^ 40 }
    requires made { CheckTypes (types_of model.now) checks.old }
    ensures made { CheckTypes (types_of model.now) checks.new }
    ensures judged { IsVerdictFor (der_message model.now) spot octets.now result }
    ensures shown { IfOk result (λ _. GoesOnByLeaf (der_message model.now) spot octets.now pieces.old pieces.new) }
    ensures room { (bytes : ℕ) → HasChecks (types_of model.now) bytes checks.old → HasChecks (types_of model.now) bytes checks.new }
    ensures grows { GrowsRoom pieces.old pieces.new }
    ensures alone { StaysAlone pieces.old pieces.new }
    ensures within { (bytes : ℕ) → HasChecks (types_of model.now) bytes checks.old → HasNoEnvelopes (types_of model.now) → length octets.now ≤ bytes → IsPrimitiveAt model.now spot
        → ((leaf : Leaf) → HoldsLeafAt (der_message model.now) spot octets.now leaf → HoldMore pieces.old (HoldsPiece leaf ∷ [])) → IsErrOf result Refusal.Memory → ⊥ }
{
    match judge(checks, model, spot, octets) {
        Ok(leaf) => match hold(pieces, &leaf) {
            Ok(()) => Ok(()),
            Err(_) => Err(Refusal::Memory),
        },
        Err(refusal) => Err(refusal),
    }
}

/// Whether octets are contents of a primitive value, which is the last component of an open one, and so break no rule.
/// Where they are, and pieces are kept, their leaf comes behind them, with the elements that begin and end with it.
#[inline(always)]
pub(crate) fn tell_last(
    checks: &mut Checks,
    pieces: &mut Option<Builder>,
    model: &Model,
    around: &Level,
    spot: Spot,
    octets: &[u8],
) -> Result<bool, AllocError>
    requires short { length octets.now < 2 ^ 40 }
    requires made { CheckTypes (types_of model.now) checks.old }
    requires last { IsLastSpot (der_message model.now) around.now spot }
    ensures made { CheckTypes (types_of model.now) checks.new }
    ensures same { IfOk result (λ told. told ≡ false → pieces.new ≡ pieces.old) }
    ensures held { IfOk result (λ told. told ≡ true → HoldsContents (der_message model.now) spot octets.now) }
    ensures shown { IfOk result (λ told. told ≡ true → GoesOnByLast (der_message model.now) around.now spot octets.now pieces.old pieces.new) }
    ensures room { (bytes : ℕ) → HasChecks (types_of model.now) bytes checks.old → HasChecks (types_of model.now) bytes checks.new }
    ensures grows { GrowsRoom pieces.old pieces.new }
    ensures alone { StaysAlone pieces.old pieces.new }
    ensures within { ((leaf : Leaf) → HoldsLeafAt (der_message model.now) spot octets.now leaf → HoldLeafWithin (der_message model.now) around.now leaf pieces.old) → IsOk result }
{
    match known_at(checks, model, spot, octets) {
        Known::Octets => hold_known(pieces, model, around, spot, &LeafRef::Bytes(octets)),
        Known::Code(place) => hold_known(pieces, model, around, spot, &LeafRef::Code(place)),
        Known::Nothing => tell_any_last(checks, pieces, model, around, spot, octets),
    }
}

/// The same of any contents.
#[inline(never)]
fn tell_any_last(
    checks: &mut Checks,
    pieces: &mut Option<Builder>,
    model: &Model,
    around: &Level,
    spot: Spot,
    octets: &[u8],
) -> Result<bool, AllocError>
    requires short { length octets.now < 2 ^ 40 }
    requires made { CheckTypes (types_of model.now) checks.old }
    requires last { IsLastSpot (der_message model.now) around.now spot }
    ensures made { CheckTypes (types_of model.now) checks.new }
    ensures same { IfOk result (λ told. told ≡ false → pieces.new ≡ pieces.old) }
    ensures held { IfOk result (λ told. told ≡ true → HoldsContents (der_message model.now) spot octets.now) }
    ensures shown { IfOk result (λ told. told ≡ true → GoesOnByLast (der_message model.now) around.now spot octets.now pieces.old pieces.new) }
    ensures room { (bytes : ℕ) → HasChecks (types_of model.now) bytes checks.old → HasChecks (types_of model.now) bytes checks.new }
    ensures grows { GrowsRoom pieces.old pieces.new }
    ensures alone { StaysAlone pieces.old pieces.new }
    ensures within { ((leaf : Leaf) → HoldsLeafAt (der_message model.now) spot octets.now leaf → HoldLeafWithin (der_message model.now) around.now leaf pieces.old) → IsOk result }
{
    match judge(checks, model, spot, octets) {
        Ok(leaf) => match hold_last(pieces, model, around, spot, &leaf) {
            Ok(()) => Ok(true),
            Err(error) => Err(error),
        },
        Err(_refusal) => Ok(false),
    }
}

/// A leaf that breaks no rule comes, which is the last component of an open value.
#[inline(always)]
fn hold_known(
    pieces: &mut Option<Builder>,
    model: &Model,
    around: &Level,
    spot: Spot,
    leaf: &LeafRef<'_>,
) -> Result<bool, AllocError>
    requires { IsLastSpot (der_message model.now) around.now spot }
    ensures told { IfOk result (λ told. told ≡ true) }
    ensures held { OnOk result (GoOnByLeaf (der_message model.now) around.now (leaf_of leaf.now) pieces.old pieces.new) }
    ensures room { GrowsRoom pieces.old pieces.new }
    ensures alone { StaysAlone pieces.old pieces.new }
    ensures within { HoldLeafWithin (der_message model.now) around.now (leaf_of leaf.now) pieces.old → IsOk result }
{
    match hold_last(pieces, model, around, spot, leaf) {
        Ok(()) => Ok(true),
        Err(error) => Err(error),
    }
}

/// Whether octets are contents of a primitive value, and so break no rule.
#[inline(always)]
pub(crate) fn are_contents(checks: &mut Checks, model: &Model, spot: Spot, octets: &[u8]) -> bool
    requires short { length octets.now < 2 ^ 40 }
    requires made { CheckTypes (types_of model.now) checks.old }
    ensures made { CheckTypes (types_of model.now) checks.new }
    ensures held { result ≡ true → HoldsContents (der_message model.now) spot octets.now }
{
    match known_at(checks, model, spot, octets) {
        Known::Octets => true,
        Known::Code(_place) => true,
        Known::Nothing => are_other_contents(checks, model, spot, octets),
    }
}

/// The same of octets that are not known at a look.
#[inline(never)]
fn are_other_contents(checks: &mut Checks, model: &Model, spot: Spot, octets: &[u8]) -> bool
    requires short { length octets.now < 2 ^ 40 }
    requires made { CheckTypes (types_of model.now) checks.old }
    ensures made { CheckTypes (types_of model.now) checks.new }
    ensures held { result ≡ true → HoldsContents (der_message model.now) spot octets.now }
{
    match spot {
        Spot::Number(number) => is_amount(model, number, octets),
        _ => are_any_contents(checks, model, spot, octets),
    }
}

/// The same of any octets.
#[inline(never)]
fn are_any_contents(checks: &mut Checks, model: &Model, spot: Spot, octets: &[u8]) -> bool
    requires short { length octets.now < 2 ^ 40 }
    requires made { CheckTypes (types_of model.now) checks.old }
    ensures made { CheckTypes (types_of model.now) checks.new }
    ensures held { result ≡ true → HoldsContents (der_message model.now) spot octets.now }
{
    match judge(checks, model, spot, octets) {
        Ok(_leaf) => true,
        Err(_refusal) => false,
    }
}

/// The contents of a value of a type.
#[inline(always)]
fn judge_value<'a>(
    checks: &mut Checks,
    model: &Model,
    number: u32,
    octets: &'a [u8],
) -> Result<LeafRef<'a>, Refusal>
    requires short { length octets.now < 2 ^ 40 }
    requires made { CheckTypes (types_of model.now) checks.old }
    ensures made { CheckTypes (types_of model.now) checks.new }
    ensures judged { IsJudgedAt (der_message model.now) (structure (der_message model.now) (structures.Value number)) octets.now result }
    ensures room { (bytes : ℕ) → HasChecks (types_of model.now) bytes checks.old → HasChecks (types_of model.now) bytes checks.new }
    ensures within { (bytes : ℕ) → HasChecks (types_of model.now) bytes checks.old → HasNoEnvelopes (types_of model.now) → length octets.now ≤ bytes → IsPrimitiveType model.now number → IsErrOf result Refusal.Memory → ⊥ }
{
    let _ = model.type_count();
    match model.form(number) {
        Some(Form::Simple(simple)) => judge_simple(checks, number, simple, octets),
        Some(Form::Envelope) => judge_envelope(checks, octets),
        _ => Err(Refusal::Memory),
    }
}

/// The contents of the number of an amount of a type.
#[inline(never)]
fn judge_number<'a>(
    checks: &mut Checks,
    model: &Model,
    number: u32,
    octets: &'a [u8],
) -> Result<LeafRef<'a>, Refusal>
    requires made { CheckTypes (types_of model.now) checks.old }
    ensures made { CheckTypes (types_of model.now) checks.new }
    ensures judged { IsJudgedAt (der_message model.now) (structure (der_message model.now) (structures.NumberOf number)) octets.now result }
    ensures room { (bytes : ℕ) → HasChecks (types_of model.now) bytes checks.old → HasChecks (types_of model.now) bytes checks.new }
    ensures within { (bytes : ℕ) → HasChecks (types_of model.now) bytes checks.old → HasNoEnvelopes (types_of model.now) → length octets.now ≤ bytes → IsPrimitive (structure (der_message model.now) (structures.NumberOf number)) → IsErrOf result Refusal.Memory → ⊥ }
{
    let _ = model.type_count();
    match model.form(number) {
        Some(Form::Money { code: _, base }) => judge_simple(checks, number, base, octets),
        _ => Err(Refusal::Memory),
    }
}

/// The contents of an envelope: the canonical fragment of its element.
#[inline(always)]
fn judge_envelope<'a>(checks: &Checks, octets: &'a [u8]) -> Result<LeafRef<'a>, Refusal>
    requires { length octets.now < 2 ^ 40 }
    ensures { (m : DerMessage ℕ) → (m.fragment ≡ fragment) → IsJudgedAt m (Holds Fragment) octets.now result }
{
    match is_fragment(checks.alloc, octets) {
        Ok(true) => Ok(LeafRef::Bytes(octets)),
        Ok(false) => Err(Refusal::Breaks(Rule::BadContents)),
        Err(_) => Err(Refusal::Memory),
    }
}
