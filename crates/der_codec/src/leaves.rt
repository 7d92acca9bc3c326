//! The leaves of contents octets under simple types: X.690 §8.2, §8.3, §8.5, §8.7, §8.23 and §11.
ghost use Rattle.std.specs.Prelude.{◌≡◌, ◌↔◌, ◌<◌, ◌≤◌, ◌^◌, ◌∷◌, ℕ, Bool, [], length, Some, None, IfSome, IfNone, IsErrOf, IsTrue};
ghost use Rattle.std.specs.Int.Digits.{number_from_digits};
ghost use Rattle.lexical_core.specs.Characters.{IsXmlText};
ghost use Rattle.lexical_core.specs.XmlRuns.{IsXmlRun};
ghost use Rattle.data_types.specs.declared.kind.Kind.TheVariants as kind;
ghost use Rattle.facets.specs.declared.simple.Simple.{Simple as SimpleType};
ghost use Rattle.facets.specs.LeafChecks.{IsWithinLimits};
ghost use Rattle.facets.specs.PatternChecks.{IsDateKind};
ghost use Rattle.reference_check.specs.Forms.{Graph, text_type};
ghost use Rattle.der_model.specs.LeafContents.{integer_octets, IsInteger, flag_octet};
ghost use Rattle.der_codec.specs.Checked.{CheckTypes, IsToldOf};
ghost use Rattle.der_codec.specs.Reserved.{WantsCheck, HasCheckAt, HasChecks};
ghost use Rattle.der_codec.specs.Judging.{IsJudged, IsXmlCode, IsNoDate};

use crate::checks::{Checks, Refusal};
use crate::limits::are_octets;
use crate::plain_octets::are_plain;
use data_types::{Kind, LeafRef, is_date_text};
use facets::{Codes, Simple, check_number, check_octets};
use lexical_core::{Rule, read_nr3, xml_run};

/// The leaf of contents octets under the simple type of this number, or the rule that they break.
#[inline(always)]
pub(crate) fn judge_simple<'a>(
    checks: &mut Checks,
    number: u32,
    simple: &Simple,
    octets: &'a [u8],
) -> Result<LeafRef<'a>, Refusal>
    requires limits { IsWithinLimits simple.now }
    requires made { (types : Graph ℕ SimpleType) × (text_type (types number) ≡ Some simple.now) × CheckTypes types checks.old }
    ensures made { (types : Graph ℕ SimpleType) → text_type (types number) ≡ Some simple.now → CheckTypes types checks.old → CheckTypes types checks.new }
    ensures judged { IsJudged simple.now octets.now result }
    ensures room { (types : Graph ℕ SimpleType) (bytes : ℕ) → HasChecks types bytes checks.old → HasChecks types bytes checks.new }
    ensures within { (bytes : ℕ) → (WantsCheck simple.now → HasCheckAt bytes checks.old.entries.items number) → length octets.now ≤ bytes → IsErrOf result Refusal.Memory → ⊥ }
{
    match simple.kind {
        Kind::Decimal => judge_decimal(simple, octets),
        Kind::Boolean => judge_boolean(simple, octets),
        Kind::Binary => judge_binary(simple, octets),
        Kind::Envelope => Err(Refusal::Breaks(Rule::BadContents)),
        Kind::Text => match &simple.codes {
            Some(codes) => judge_code(simple, codes, octets),
            None => judge_text(checks, number, simple, octets),
        },
        _ => judge_date(checks, number, simple, octets),
    }
}

/// The octets of a binary value: §8.7.
#[inline(always)]
fn judge_binary<'a>(simple: &Simple, octets: &'a [u8]) -> Result<LeafRef<'a>, Refusal>
    requires { simple.now.kind ≡ kind.Binary }
    ensures judged { IsJudged simple.now octets.now result }
    ensures never { IsErrOf result Refusal.Memory → ⊥ }
{
    match check_octets(simple, octets.len() as u64) {
        Ok(()) => Ok(LeafRef::Bytes(octets)),
        Err(rule) => Err(Refusal::Breaks(rule)),
    }
}

/// A number: §8.5, §11.3.
#[inline(always)]
pub(crate) fn judge_decimal<'a>(simple: &Simple, octets: &'a [u8]) -> Result<LeafRef<'a>, Refusal>
    requires { simple.now.kind ≡ kind.Decimal }
    ensures judged { IsJudged simple.now octets.now result }
    ensures never { IsErrOf result Refusal.Memory → ⊥ }
{
    let Some(number) = read_nr3(octets) else {
        return Err(Refusal::Breaks(Rule::BadContents));
    };
    match check_number(simple, number) {
        Ok(()) => Ok(LeafRef::Number(number)),
        Err(rule) => Err(Refusal::Breaks(rule)),
    }
}

/// A truth value: §8.2, §11.1.
#[inline(always)]
fn judge_boolean<'a>(simple: &Simple, octets: &'a [u8]) -> Result<LeafRef<'a>, Refusal>
    requires { simple.now.kind ≡ kind.Boolean }
    ensures judged { IsJudged simple.now octets.now result }
    ensures never { IsErrOf result Refusal.Memory → ⊥ }
{
    let _ = simple;
    match flag_of(octets) {
        Some(flag) => Ok(LeafRef::Flag(flag)),
        None => Err(Refusal::Breaks(Rule::BadContents)),
    }
}

/// The truth value that the octets are.
fn flag_of(octets: &[u8]) -> Option<bool>
    ensures some { IfSome result (λ flag. octets.now ≡ flag_octet flag ∷ []) }
    ensures none { IfNone result ((flag : Bool) → octets.now ≡ flag_octet flag ∷ [] → ⊥) }
{
    let Some((first, behind)) = octets.split_first() else {
        return None;
    };
    if !behind.is_empty() {
        return None;
    }
    if *first == 0 {
        return Some(false);
    }
    if *first == 255 {
        return Some(true);
    }
    None
}

/// A text without codes: §8.23.
#[inline(always)]
fn judge_text<'a>(
    checks: &mut Checks,
    number: u32,
    simple: &Simple,
    octets: &'a [u8],
) -> Result<LeafRef<'a>, Refusal>
    requires kind { simple.now.kind ≡ kind.Text }
    requires codes { simple.now.codes ≡ None }
    requires limits { IsWithinLimits simple.now }
    requires made { (types : Graph ℕ SimpleType) × (text_type (types number) ≡ Some simple.now) × CheckTypes types checks.old }
    ensures made { (types : Graph ℕ SimpleType) → text_type (types number) ≡ Some simple.now → CheckTypes types checks.old → CheckTypes types checks.new }
    ensures judged { IsJudged simple.now octets.now result }
    ensures room { (types : Graph ℕ SimpleType) (bytes : ℕ) → HasChecks types bytes checks.old → HasChecks types bytes checks.new }
    ensures within { (bytes : ℕ) → (WantsCheck simple.now → HasCheckAt bytes checks.old.entries.items number) → length octets.now ≤ bytes → IsErrOf result Refusal.Memory → ⊥ }
{
    let Some(count) = characters(octets) else {
        return Err(Refusal::Breaks(Rule::BadContents));
    };
    match tell_text(checks, number, simple, octets, count) {
        Ok(()) => Ok(LeafRef::Bytes(octets)),
        Err(refusal) => Err(refusal),
    }
}

/// What a run of so many characters is under the simple type without codes, which is that of this number. Where there is
/// no pattern only how many characters they are counts, and there is no check to be kept.
#[inline(always)]
fn tell_text(
    checks: &mut Checks,
    number: u32,
    simple: &Simple,
    run: &[u8],
    count: usize,
) -> Result<(), Refusal>
    requires run { IsXmlRun run.now count }
    requires kind { simple.now.kind ≡ kind.Text }
    requires codes { simple.now.codes ≡ None }
    requires limits { IsWithinLimits simple.now }
    requires made { (types : Graph ℕ SimpleType) × (text_type (types number) ≡ Some simple.now) × CheckTypes types checks.old }
    ensures made { (types : Graph ℕ SimpleType) → text_type (types number) ≡ Some simple.now → CheckTypes types checks.old → CheckTypes types checks.new }
    ensures told { (r : IsXmlRun run.now count) → IsToldOf simple.now r.chars result }
    ensures room { (types : Graph ℕ SimpleType) (bytes : ℕ) → HasChecks types bytes checks.old → HasChecks types bytes checks.new }
    ensures within { (bytes : ℕ) → (WantsCheck simple.now → HasCheckAt bytes checks.old.entries.items number) → length run.now ≤ bytes → IsErrOf result Refusal.Memory → ⊥ }
{
    if simple.pattern.is_some() {
        return checks.tell(number, simple, run, count);
    }
    // A length is asked alike, in characters here.
    match check_octets(simple, count as u64) {
        Ok(()) => Ok(()),
        Err(rule) => Err(Refusal::Breaks(rule)),
    }
}

/// A date or a time, with no white space: §8.23, of ASCII alone.
#[inline(always)]
fn judge_date<'a>(
    checks: &mut Checks,
    number: u32,
    simple: &Simple,
    octets: &'a [u8],
) -> Result<LeafRef<'a>, Refusal>
    requires kind { IsDateKind simple.now.kind }
    requires limits { IsWithinLimits simple.now }
    requires made { (types : Graph ℕ SimpleType) × (text_type (types number) ≡ Some simple.now) × CheckTypes types checks.old }
    ensures made { (types : Graph ℕ SimpleType) → text_type (types number) ≡ Some simple.now → CheckTypes types checks.old → CheckTypes types checks.new }
    ensures judged { IsJudged simple.now octets.now result }
    ensures room { (types : Graph ℕ SimpleType) (bytes : ℕ) → HasChecks types bytes checks.old → HasChecks types bytes checks.new }
    ensures within { (bytes : ℕ) → (WantsCheck simple.now → HasCheckAt bytes checks.old.entries.items number) → length octets.now ≤ bytes → IsErrOf result Refusal.Memory → ⊥ }
{
    if !is_date_text(simple.kind, octets) {
        return Err(Refusal::Breaks(no_date(octets)));
    }
    match checks.tell(number, simple, octets, octets.len()) {
        Ok(()) => Ok(LeafRef::Bytes(octets)),
        Err(refusal) => Err(refusal),
    }
}

/// The rule that octets break which are no date.
fn no_date(octets: &[u8]) -> Rule
    ensures { IsNoDate octets.now result }
{
    if is_text(octets) {
        return Rule::BadText;
    }
    Rule::BadContents
}

/// How many characters of XML the octets are in UTF-8; `None` where they are something else. Mostly each is one by itself.
#[inline(always)]
pub(crate) fn characters(octets: &[u8]) -> Option<usize>
    ensures some { IfSome result (λ count. IsXmlRun octets.now count) }
    ensures none { IfNone result (IsXmlText octets.now → ⊥) }
{
    if are_plain(octets) {
        return Some(octets.len());
    }
    any_characters(octets)
}

/// The same of any octets.
#[inline(never)]
fn any_characters(octets: &[u8]) -> Option<usize>
    ensures some { IfSome result (λ count. IsXmlRun octets.now count) }
    ensures none { IfNone result (IsXmlText octets.now → ⊥) }
{
    let run = xml_run(octets);
    if run.bytes < octets.len() {
        return None;
    }
    Some(run.characters)
}

/// Whether the octets are characters of XML in UTF-8, found by runs.
#[tactic(auto, using(crate::proofs::LeavesJudged::run_text))]
fn is_text(octets: &[u8]) -> bool
    ensures { IsTrue result ↔ IsXmlText octets.now }
{
    match characters(octets) {
        Some(_count) => true,
        None => false,
    }
}

/// A code by its number: §8.3, §8.4.
#[inline(always)]
fn judge_code<'a>(simple: &Simple, codes: &Codes, octets: &'a [u8]) -> Result<LeafRef<'a>, Refusal>
    requires kind { simple.now.kind ≡ kind.Text }
    requires codes { simple.now.codes ≡ Some codes.now }
    requires limits { IsWithinLimits simple.now }
    ensures judged { IsJudged simple.now octets.now result }
    ensures never { IsErrOf result Refusal.Memory → ⊥ }
{
    let _ = simple;
    if !is_integer(octets) {
        return Err(Refusal::Breaks(Rule::BadContents));
    }
    let Some(place) = number_of(octets) else {
        return Err(Refusal::Breaks(Rule::NotACode));
    };
    if !is_code(codes, place) {
        return Err(Refusal::Breaks(Rule::NotACode));
    }
    Ok(LeafRef::Code(place))
}

/// Whether the code of this place is there, and a text of characters of XML.
pub(crate) fn is_code(codes: &Codes, place: u32) -> bool
    ensures { IsTrue result ↔ IsXmlCode codes.now place }
{
    let Some(text) = codes.get(place as usize) else {
        return false;
    };
    is_text(text.bytes())
}

/// Whether the octets are the two's complement of a number, as few as there can be: §8.3.2.
fn is_integer(octets: &[u8]) -> bool
    ensures { IsTrue result ↔ IsInteger octets.now }
{
    let Some((first, behind)) = octets.split_first() else {
        return false;
    };
    let Some((second, _)) = behind.split_first() else {
        return true;
    };
    may_lead(*first, *second)
}

/// Whether the first nine bits are not alike.
fn may_lead(first: u8, second: u8) -> bool
    ensures { IsTrue result ↔ ((first ≡ 0 → 128 ≤ second) × (first ≡ 255 → second < 128)) }
{
    if first == 0 {
        return second >= 128;
    }
    if first == 255 {
        return second < 128;
    }
    true
}

/// The number whose two's complement the octets are; `None` where it is negative, or 2^32 or more.
fn number_of(octets: &[u8]) -> Option<u32>
    requires { IsInteger octets.now }
    ensures some { IfSome result (λ n. octets.now ≡ integer_octets n) }
    ensures none { IfNone result ((n : ℕ) → n < 2 ^ 32 → octets.now ≡ integer_octets n → ⊥) }
{
    are_octets(octets);
    let Some((first, _)) = octets.split_first() else {
        return None;
    };
    if *first >= 128 {
        return None;
    }
    if octets.len() > 5 {
        return None;
    }
    let number = value_of(octets);
    if number >= 4_294_967_296 {
        return None;
    }
    Some(number as u32)
}

/// The number of at most five digits of the base 256.
#[tactic(auto, using(crate::proofs::CodeNumbers::four_small))]
fn value_of(digits: &[u8]) -> u64
    requires { length digits.now ≤ 5 }
    ensures { result ≡ number_from_digits 256 digits.now }
{
    are_octets(digits);
    let mut number = 0_u64;
    for digit in digits {
        number = number * 256 + u64::from(*digit);
    }
    number
}
