//! How many octets are kept of contents that come in pieces: no more than tell what the contents are.
ghost use Rattle.std.specs.Prelude.{◌≡◌, ◌+◌, ◌-◌, ◌*◌, ◌<◌, ◌≤◌, ◌++◌, ◌∷◌, [], ℕ, List, length, drop, replicate, vec_capacity, IfSome, IfNone, IsTrue, IsFalse, Some, None};
ghost use Rattle.base64.specs.GeneralPurpose.{IsBytes};
ghost use Rattle.data_types.specs.declared.kind.Kind.TheVariants as kind;
ghost use Rattle.facets.specs.LeafChecks.{IsWithinLimits};
ghost use Rattle.facets.specs.LeafUnder.{HasSortedCodes};
ghost use Rattle.facets.specs.PatternChecks.{IsDateKind};
ghost use Rattle.reference_check.specs.Forms as graph;
ghost use Rattle.message_model.specs.Tables.{types_of};
ghost use Rattle.der_model.specs.DerMessage.{der_message};
ghost use Rattle.der_codec.specs.KeptOctets.{IsKeptUnder, IsKeptAt, IsLeafAt, HasNoLimit, IsShortForm, IsTextKept};

use crate::level::Spot;
use data_types::Kind;
use facets::Simple;
use lexical_core::xml_run;
use message_model::{Form, Model};

/// Cuts down the contents octets at the spot that have come, behind which more are due. What they are with those
/// is not changed.
pub(crate) fn shorten(model: &Model, spot: Spot, kept: &mut Vec<u8>)
    ensures kept { IsKeptAt (der_message model.now) spot kept.new.items kept.old.items }
    ensures room { vec_capacity kept.old ≤ vec_capacity kept.new }
{
    match simple_at(model, spot) {
        Some(simple) => shorten_leaf(simple, kept),
        None => {}
    }
}

/// The simple type of the leaf at the spot; `None` where there is no leaf.
fn simple_at(model: &Model, spot: Spot) -> Option<&Simple>
    ensures some { IfSome result (λ simple. IsLeafAt (der_message model.now) spot simple.now) }
    ensures none { IfNone result (HasNoLimit (der_message model.now) spot) }
{
    let _ = model.type_count();
    match spot {
        Spot::Instance => None,
        Spot::Value(number) => value_at(model, number),
        Spot::List { parent: _, slot: _ } => None,
        Spot::Number(number) => number_at(model, number),
    }
}

/// The simple type of a leaf that is the value of a type.
pub(crate) fn value_at(model: &Model, number: u32) -> Option<&Simple>
    ensures some { IfSome result (λ simple. IsLeafAt (der_message model.now) (Spot.Value number) simple.now) }
    ensures typed { IfSome result (λ simple. types_of model.now number ≡ graph.Simple simple.now) }
    ensures none { IfNone result (HasNoLimit (der_message model.now) (Spot.Value number)) }
{
    let _ = model.type_count();
    match model.form(number) {
        Some(Form::Simple(simple)) => Some(simple),
        _ => None,
    }
}

/// The simple type of the number of an amount.
fn number_at(model: &Model, number: u32) -> Option<&Simple>
    ensures some { IfSome result (λ simple. IsLeafAt (der_message model.now) (Spot.Number number) simple.now) }
    ensures none { IfNone result (HasNoLimit (der_message model.now) (Spot.Number number)) }
{
    let _ = model.type_count();
    match model.form(number) {
        Some(Form::Money { code: _, base }) => Some(base),
        _ => None,
    }
}

/// Cuts down the contents octets of a leaf.
fn shorten_leaf(simple: &Simple, kept: &mut Vec<u8>)
    requires limits { IsWithinLimits simple.now }
    requires sorted { HasSortedCodes simple.now }
    ensures kept { IsKeptUnder simple.now kept.new.items kept.old.items }
    ensures room { vec_capacity kept.old ≤ vec_capacity kept.new }
{
    match simple.kind {
        Kind::Text => match &simple.codes {
            Some(_) => cut_code(simple, kept),
            None => cut_text(simple, kept),
        },
        Kind::Binary => cut_octets(simple, kept),
        Kind::Decimal | Kind::Boolean | Kind::Envelope => cut_short(simple, kept),
        _ => cut_date(simple, kept),
    }
}

/// Of contents that are short, or are none, the first octets tell which.
fn cut_short(simple: &Simple, kept: &mut Vec<u8>)
    requires kind { IsShortForm simple.now.kind }
    requires sorted { HasSortedCodes simple.now }
    ensures kept { IsKeptUnder simple.now kept.new.items kept.old.items }
    ensures room { vec_capacity kept.old ≤ vec_capacity kept.new }
{
    let _ = simple;
    kept.truncate(64); // as many as any leaf may hold
}

/// Of the number of a code the first octets tell whether it is too great.
fn cut_code(simple: &Simple, kept: &mut Vec<u8>)
    requires kind { simple.now.kind ≡ kind.Text }
    requires codes { (codes : List (List ℕ)) × (simple.now.codes ≡ Some codes) }
    requires limits { IsWithinLimits simple.now }
    requires sorted { HasSortedCodes simple.now }
    ensures kept { IsKeptUnder simple.now kept.new.items kept.old.items }
    ensures room { vec_capacity kept.old ≤ vec_capacity kept.new }
{
    let _ = simple;
    kept.truncate(64);
}

/// Of a binary value only its length counts.
fn cut_octets(simple: &Simple, kept: &mut Vec<u8>)
    requires kind { simple.now.kind ≡ kind.Binary }
    requires sorted { HasSortedCodes simple.now }
    ensures kept { IsKeptUnder simple.now kept.new.items kept.old.items }
    ensures room { vec_capacity kept.old ≤ vec_capacity kept.new }
{
    are_octets(kept.as_slice());
    let Some(most) = simple.max else {
        return;
    };
    if kept.len() as u64 > most {
        kept.truncate(most as usize + 1);
    }
}

/// They are octets. It does nothing, and is called for its clause.
pub(crate) fn are_octets(octets: &[u8])
    ensures { IsBytes octets.now }
{
    let _ = octets;
}

/// Of a text that is too long only that it is one counts.
fn cut_text(simple: &Simple, kept: &mut Vec<u8>)
    requires kind { simple.now.kind ≡ kind.Text }
    requires codes { simple.now.codes ≡ None }
    requires sorted { HasSortedCodes simple.now }
    ensures kept { IsKeptUnder simple.now kept.new.items kept.old.items }
    ensures room { vec_capacity kept.old ≤ vec_capacity kept.new }
{
    let Some(most) = simple.max else {
        return;
    };
    shorten_text(most, kept);
}

/// The same of a text that is too long for a date or a time.
fn cut_date(simple: &Simple, kept: &mut Vec<u8>)
    requires kind { IsDateKind simple.now.kind }
    requires sorted { HasSortedCodes simple.now }
    ensures kept { IsKeptUnder simple.now kept.new.items kept.old.items }
    ensures room { vec_capacity kept.old ≤ vec_capacity kept.new }
{
    let _ = simple;
    shorten_text(64, kept);
}

/// Where a text has more characters than so many, these are cut down to one more.
fn shorten_text(most: u64, kept: &mut Vec<u8>)
    ensures kept { IsTextKept most kept.new.items kept.old.items }
    ensures room { vec_capacity kept.old ≤ vec_capacity kept.new }
{
    if is_held(kept.len(), most) {
        return;
    }
    let run = xml_run(kept.as_slice());
    // Behind the last whole character 3 octets may begin one; 4 that do not end one begin none.
    if kept.len() - run.bytes > 3 {
        no_text(kept);
        return;
    }
    spaces(most, run.bytes, kept);
}

/// Whether so many octets are few enough to be held of a text of so many characters.
fn is_held(count: usize, most: u64) -> bool
    ensures yes { IsTrue result → count ≤ 4 * most + 64 }
    ensures no { IsFalse result → 4 * most + 64 < count }
{
    // count - 61 ≤ 4 * most + 3, which overflows for no `most`
    count.saturating_sub(61) as u64 / 4 <= most
}

/// An octet that begins no text, in the place of octets of which no text comes.
fn no_text(kept: &mut Vec<u8>)
    requires { 0 < length kept.old.items }
    ensures kept { kept.new.items ≡ 0 ∷ [] }
    ensures room { vec_capacity kept.old ≤ vec_capacity kept.new }
{
    kept.clear();
    kept.push_reserved(0);
}

/// One space more than so many, in the place of the octets before the place.
fn spaces(most: u64, at: usize, kept: &mut Vec<u8>)
    requires within { at ≤ length kept.old.items }
    requires room { most + 1 ≤ at }
    ensures kept { kept.new.items ≡ replicate (most + 1) 32 ++ drop at kept.old.items }
    ensures room { vec_capacity kept.old ≤ vec_capacity kept.new }
{
    let behind = kept.len() - at;
    kept.rotate_left(at);
    kept.truncate(behind);
    pad(kept, behind + most as usize + 1);
    kept.rotate_left(behind);
}

/// Fills up with spaces to this length, where there is room.
fn pad(kept: &mut Vec<u8>, size: usize)
    requires more { length kept.old.items ≤ size }
    requires room { size ≤ vec_capacity kept.old }
    ensures kept { kept.new.items ≡ kept.old.items ++ replicate (size - length kept.old.items) 32 }
    ensures room { vec_capacity kept.old ≤ vec_capacity kept.new }
{
    match kept.resize(size, b' ') {
        Ok(()) => {}
        Err(_) => unreachable!(),
    }
}
