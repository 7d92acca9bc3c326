//! Leaves of the usual sorts, which are known at a look: the check of a type is asked, and takes no step (X.690 §8.3, §8.23).
ghost use Rattle.std.specs.Prelude.{◌≡◌, ◌∷◌, ℕ, [], Some, Ok, IfSome, IsTrue, true};
ghost use Rattle.lexical_core.specs.XmlRuns.{IsXmlRun};
ghost use Rattle.data_types.specs.Leaf.{Leaf};
ghost use Rattle.data_types.specs.declared.kind.Kind.TheVariants as kind;
ghost use Rattle.facets.specs.declared.simple.Simple.{Simple as SimpleType};
ghost use Rattle.facets.specs.LeafUnder.{GivesLeaf};
ghost use Rattle.facets.specs.LeafVerdicts.{IsFreeText};
ghost use Rattle.facets.specs.PatternChecks.{IsDateKind};
ghost use Rattle.reference_check.specs.Forms.{Graph, text_type};
ghost use Rattle.message_model.specs.Tables.{types_of};
ghost use Rattle.der_model.specs.DerMessage.{der_message};
ghost use Rattle.der_model.specs.Faults.{IsHeldIn};
ghost use Rattle.der_model.specs.LeafContents.{ContentsUnder, integer_octets};
ghost use Rattle.der_model.specs.Structures as structures;
ghost use Rattle.der_model.specs.Structures.{structure};
ghost use Rattle.der_codec.specs.Checked.{CheckTypes};
ghost use Rattle.der_codec.specs.inner.KnownLeaves.{IsKnownUnder, IsKnownAt, IsKnownFor};

use crate::checks::Checks;
use crate::leaves::{characters, is_code, judge_decimal};
use crate::level::Spot;
use data_types::{Kind, is_date_text};
use facets::{Codes, Simple, check_octets};
use message_model::{Form, Model};

/// What is known of contents octets at a look.
#[derive(Clone, Copy)]
pub(crate) enum Known {
    /// They are those of their leaf.
    Octets,
    /// They are the number of this code.
    Code(u32),
    /// Nothing: they may be those of a leaf, or break a rule.
    Nothing,
}

/// What is known of the contents octets at the spot.
#[inline(always)]
pub(crate) fn known_at(checks: &Checks, model: &Model, spot: Spot, octets: &[u8]) -> Known
    requires { CheckTypes (types_of model.now) checks.now }
    ensures { IsKnownFor (der_message model.now) spot octets.now result }
{
    match spot {
        Spot::Value(number) => known_value(checks, model, number, octets),
        _ => Known::Nothing,
    }
}

/// The same of a value of a type.
#[inline(always)]
fn known_value(checks: &Checks, model: &Model, number: u32, octets: &[u8]) -> Known
    requires { CheckTypes (types_of model.now) checks.now }
    ensures { IsKnownAt (der_message model.now) (structure (der_message model.now) (structures.Value number)) octets.now result }
{
    let _ = model.type_count();
    match model.form(number) {
        Some(Form::Simple(simple)) => known_simple(checks, number, simple, octets),
        _ => Known::Nothing,
    }
}

/// The same under the simple type of this number.
#[inline(always)]
fn known_simple(checks: &Checks, number: u32, simple: &Simple, octets: &[u8]) -> Known
    requires { (types : Graph ℕ SimpleType) × (text_type (types number) ≡ Some simple.now) × CheckTypes types checks.now }
    ensures { IsKnownUnder simple.now octets.now result }
{
    match simple.kind {
        Kind::Text => match &simple.codes {
            Some(codes) => known_code(simple, codes, octets),
            None => known_text(checks, number, simple, octets),
        },
        Kind::Decimal | Kind::Boolean | Kind::Binary | Kind::Envelope => Known::Nothing,
        _ => known_date(simple, octets),
    }
}

/// The same of a text without codes.
#[inline(always)]
fn known_text(checks: &Checks, number: u32, simple: &Simple, octets: &[u8]) -> Known
    requires free { IsFreeText simple.now }
    requires made { (types : Graph ℕ SimpleType) × (text_type (types number) ≡ Some simple.now) × CheckTypes types checks.now }
    ensures { IsKnownUnder simple.now octets.now result }
{
    let Some(count) = characters(octets) else {
        return Known::Nothing;
    };
    if is_known_text(checks, number, simple, octets, count) {
        return Known::Octets;
    }
    Known::Nothing
}

/// Whether it is known of a run of so many characters that it is a leaf under the simple type without codes.
#[inline(always)]
fn is_known_text(checks: &Checks, number: u32, simple: &Simple, run: &[u8], count: usize) -> bool
    requires run { IsXmlRun run.now count }
    requires free { IsFreeText simple.now }
    requires made { (types : Graph ℕ SimpleType) × (text_type (types number) ≡ Some simple.now) × CheckTypes types checks.now }
    ensures { (r : IsXmlRun run.now count) → IsTrue result → (leaf : Leaf) × GivesLeaf simple.now r.chars leaf }
{
    if simple.pattern.is_some() {
        return checks.knows(number, simple, run, count);
    }
    match check_octets(simple, count as u64) {
        Ok(()) => true,
        Err(_rule) => false,
    }
}

/// The same of the number of a code, of one octet.
#[inline(always)]
fn known_code(simple: &Simple, codes: &Codes, octets: &[u8]) -> Known
    requires kind { simple.now.kind ≡ kind.Text }
    requires codes { simple.now.codes ≡ Some codes.now }
    ensures { IsKnownUnder simple.now octets.now result }
{
    let _ = simple;
    let Some(place) = digit_of(octets) else {
        return Known::Nothing;
    };
    if is_code(codes, place) {
        return Known::Code(place);
    }
    Known::Nothing
}

/// The number of one octet that is not negative.
#[inline(always)]
fn digit_of(octets: &[u8]) -> Option<u32>
    ensures { IfSome result (λ n. octets.now ≡ integer_octets n) }
{
    let Some((first, behind)) = octets.split_first() else {
        return None;
    };
    if !behind.is_empty() {
        return None;
    }
    if *first >= 128 {
        return None;
    }
    Some(u32::from(*first))
}

/// The same of a date or a time whose type has no pattern.
#[inline(always)]
fn known_date(simple: &Simple, octets: &[u8]) -> Known
    requires { IsDateKind simple.now.kind }
    ensures { IsKnownUnder simple.now octets.now result }
{
    if simple.pattern.is_some() {
        return Known::Nothing;
    }
    if !is_date_text(simple.kind, octets) {
        return Known::Nothing;
    }
    Known::Octets
}

/// Whether octets are contents of the number of an amount of the type of this number. Where it is false they may still be some
/// if no decimal is asked for.
#[inline(always)]
pub(crate) fn is_amount(model: &Model, number: u32, octets: &[u8]) -> bool
    ensures { result ≡ true → IsHeldIn (der_message model.now) (structure (der_message model.now) (structures.NumberOf number)) octets.now }
{
    match model.form(number) {
        Some(Form::Money { code: _, base }) => is_decimal(base, octets),
        _ => false,
    }
}

/// The same under the simple type of a number.
#[inline(always)]
fn is_decimal(simple: &Simple, octets: &[u8]) -> bool
    ensures { result ≡ true → (leaf : Leaf) × ContentsUnder simple.now octets.now (Ok leaf) }
{
    if simple.kind != Kind::Decimal {
        return false;
    }
    match judge_decimal(simple, octets) {
        Ok(_leaf) => true,
        Err(_refusal) => false,
    }
}
