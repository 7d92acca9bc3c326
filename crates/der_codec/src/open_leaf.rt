//! A leaf that is judged as its octets come, where it is not wanted itself: a text without codes, a binary value or an
//! envelope.
ghost use Rattle.std.specs.Prelude.{◌≡◌, ◌+◌, ◌*◌, ◌<◌, ◌≤◌, ◌^◌, ◌++◌, ℕ, List, [], length, IfOk, Some};
ghost use Rattle.base64.specs.GeneralPurpose.{IsBytes};
ghost use Rattle.data_types.specs.declared.kind.Kind.TheVariants as kind;
ghost use Rattle.facets.specs.declared.simple.Simple.{Simple as SimpleType};
ghost use Rattle.facets.specs.LeafChecks.{IsWithinLimits};
ghost use Rattle.fragments.specs.Fragment.{fragment};
ghost use Rattle.reference_check.specs.Forms as graph;
ghost use Rattle.reference_check.specs.Forms.{Graph, text_type};
ghost use Rattle.message_model.specs.Tables.{types_of};
ghost use Rattle.der_model.specs.DerMessage.{DerMessage, der_message};
ghost use Rattle.der_model.specs.Structures as structures;
ghost use Rattle.der_model.specs.Structures.{structure, Holds, Fragment};
ghost use Rattle.respell.specs.FragmentChecks.{HasTakenBytes};
ghost use Rattle.der_codec.specs.Checked.{CheckTypes};
ghost use Rattle.der_codec.specs.OpenLeaves.{IsOpenLeaf, IsOpenEnvelope, IsOpenUnder, IsBegunUnder, IsBegunAt, IsToldUnder, IsToldIn, held_by_envelope};

use crate::checks::{Checks, Refusal};
use crate::level::Spot;
use crate::limits::{are_octets, value_at};
use crate::open_envelope::OpenEnvelope;
use crate::open_text::take_text;
use data_types::Kind;
use facets::{LeafVerdict, Simple, check_octets};
use lexical_core::Rule;
use message_model::{Form, Model};
use std::alloc::{AllocError, Global};

/// A leaf that is judged as its octets come.
#[derive(Drop)]
pub(crate) enum OpenLeaf {
    /// A text without codes, of which the check has taken the characters that are whole.
    Text(Box<LeafVerdict>),
    /// In the place of a text without codes octets of which none comes, whatever follows them.
    NoText,
    /// A binary value, of which only the length counts.
    Binary,
    /// An envelope, of which the check has taken all octets.
    Envelope(Box<OpenEnvelope>),
}

/// The leaf at the spot of which nothing has come, where it is judged as its octets come.
pub(crate) fn begin_leaf(
    checks: &mut Checks,
    model: &Model,
    spot: Spot,
) -> Result<Option<OpenLeaf>, AllocError>
    requires { CheckTypes (types_of model.now) checks.old }
    ensures made { CheckTypes (types_of model.now) checks.new }
    ensures begun { IfOk result (λ opened. IsBegunAt (der_message model.now) spot opened) }
{
    match spot {
        Spot::Value(number) => begin_value(checks, model, number),
        _ => Ok(None),
    }
}

/// The same of a value of the type of this number.
fn begin_value(
    checks: &mut Checks,
    model: &Model,
    number: u32,
) -> Result<Option<OpenLeaf>, AllocError>
    requires { CheckTypes (types_of model.now) checks.old }
    ensures made { CheckTypes (types_of model.now) checks.new }
    ensures begun { IfOk result (λ opened. IsBegunUnder (types_of model.now number) opened) }
{
    let _ = model.type_count();
    match model.form(number) {
        Some(Form::Simple(simple)) => begin_simple(checks, number, simple),
        Some(Form::Envelope) => begin_envelope(checks.alloc),
        _ => Ok(None),
    }
}

/// The same under the simple type, which is that of this number.
fn begin_simple(
    checks: &mut Checks,
    number: u32,
    simple: &Simple,
) -> Result<Option<OpenLeaf>, AllocError>
    requires limits { IsWithinLimits simple.now }
    requires made { (types : Graph ℕ SimpleType) × (text_type (types number) ≡ Some simple.now) × CheckTypes types checks.old }
    ensures made { (types : Graph ℕ SimpleType) → text_type (types number) ≡ Some simple.now → CheckTypes types checks.old → CheckTypes types checks.new }
    ensures begun { IfOk result (λ opened. IsBegunUnder (graph.Simple simple.now) opened) }
{
    match simple.kind {
        Kind::Binary => Ok(Some(OpenLeaf::Binary)),
        Kind::Text => begin_text(checks, number, simple),
        _ => Ok(None),
    }
}

/// The same of a text, where it has no codes.
fn begin_text(
    checks: &mut Checks,
    number: u32,
    simple: &Simple,
) -> Result<Option<OpenLeaf>, AllocError>
    requires kind { simple.now.kind ≡ kind.Text }
    requires limits { IsWithinLimits simple.now }
    requires made { (types : Graph ℕ SimpleType) × (text_type (types number) ≡ Some simple.now) × CheckTypes types checks.old }
    ensures made { (types : Graph ℕ SimpleType) → text_type (types number) ≡ Some simple.now → CheckTypes types checks.old → CheckTypes types checks.new }
    ensures begun { IfOk result (λ opened. IsBegunUnder (graph.Simple simple.now) opened) }
{
    if simple.codes.is_some() {
        return Ok(None);
    }
    match checks.begin(number, simple) {
        Ok(check) => Ok(Some(OpenLeaf::Text(check))),
        Err(error) => Err(error),
    }
}

/// The same of an envelope.
fn begin_envelope(alloc: Global) -> Result<Option<OpenLeaf>, AllocError>
    ensures { IfOk result (λ opened. IsBegunUnder graph.Envelope opened) }
{
    let check = Box::new(alloc, OpenEnvelope::new(alloc))?;
    Ok(Some(OpenLeaf::Envelope(check)))
}

impl OpenLeaf {
    /// The leaf, which is a value of the type of this number, behind more octets, of which those are left that its check
    /// has not taken.
    pub(crate) fn pass(
        self,
        rest: &mut Vec<u8>,
        model: &Model,
        number: u32,
        octets: &[u8],
    ) -> Result<OpenLeaf, AllocError>
        requires { (before : List ℕ) × IsOpenUnder (types_of model.now number) self rest.old.items before × (length before + length octets.now < 2 ^ 40) }
        ensures { (before : List ℕ) → IsOpenUnder (types_of model.now number) self rest.old.items before → IfOk result (λ now. IsOpenUnder (types_of model.now number) now rest.new.items (before ++ octets.now)) }
    {
        are_octets(octets);
        match self {
            OpenLeaf::Text(check) => match value_at(model, number) {
                Some(simple) => pass_text(check, rest, simple, octets),
                None => Err(AllocError),
            },
            OpenLeaf::NoText => Ok(OpenLeaf::NoText),
            OpenLeaf::Binary => Ok(OpenLeaf::Binary),
            OpenLeaf::Envelope(check) => pass_envelope(check, octets),
        }
    }

    /// What the leaf is, a value of the type of this number, of which all octets have come, so many, and the rest has not
    /// been taken.
    pub(crate) fn tell(
        self,
        checks: &mut Checks,
        model: &Model,
        number: u32,
        rest: &[u8],
        count: u64,
    ) -> Result<(), Refusal>
        requires made { CheckTypes (types_of model.now) checks.old }
        requires opened { (octets : List ℕ) × IsOpenUnder (types_of model.now number) self rest.now octets }
        ensures made { CheckTypes (types_of model.now) checks.new }
        ensures told { (octets : List ℕ) → IsOpenUnder (types_of model.now number) self rest.now octets → length octets ≡ count
            → IsToldIn (der_message model.now) (structure (der_message model.now) (structures.Value number)) octets result }
    {
        match self {
            OpenLeaf::Text(check) => tell_text(checks, check, model, number, rest),
            OpenLeaf::NoText => Err(Refusal::Breaks(Rule::BadContents)),
            OpenLeaf::Binary => tell_binary(model, number, count),
            OpenLeaf::Envelope(check) => tell_envelope(check),
        }
    }

    /// How many bytes the check of an envelope holds.
    pub(crate) fn held(&self) -> u64
        ensures count { result ≡ held_by_envelope (Some self.now) }
        ensures bound { (octets : List ℕ) → IsOpenEnvelope self.now octets → length octets < 2 ^ 40 → result ≤ 2 * length octets }
        ensures few { result ≤ 2 ^ 41 }
    {
        match self {
            OpenLeaf::Envelope(check) => check.held(),
            _ => 0,
        }
    }
}

/// The text behind more octets.
fn pass_text(
    check: Box<LeafVerdict>,
    rest: &mut Vec<u8>,
    simple: &Simple,
    octets: &[u8],
) -> Result<OpenLeaf, AllocError>
    requires { (before : List ℕ) × IsOpenLeaf simple.now (OpenLeaf.Text check) rest.old.items before }
    ensures { (before : List ℕ) → IsOpenLeaf simple.now (OpenLeaf.Text check) rest.old.items before → IfOk result (λ now. IsOpenLeaf simple.now now rest.new.items (before ++ octets.now)) }
{
    let mut check = check;
    match take_text(&mut check, rest, simple, octets) {
        Ok(()) => Ok(OpenLeaf::Text(check)),
        Err(Refusal::Breaks(_)) => {
            rest.clear();
            Ok(OpenLeaf::NoText)
        }
        Err(Refusal::Memory) => Err(AllocError),
    }
}

/// The envelope behind more octets.
fn pass_envelope(check: Box<OpenEnvelope>, octets: &[u8]) -> Result<OpenLeaf, AllocError>
    requires { (before : List ℕ) × HasTakenBytes check.value.check before × (length before + length octets.now < 2 ^ 40) }
    ensures { (before : List ℕ) → HasTakenBytes check.value.check before → IfOk result (λ now. IsOpenEnvelope now (before ++ octets.now)) }
{
    let mut check = check;
    match check.take(octets) {
        Ok(()) => Ok(OpenLeaf::Envelope(check)),
        Err(error) => Err(error),
    }
}

/// What the text is of which all octets have come, and the rest is no whole character.
fn tell_text(
    checks: &mut Checks,
    check: Box<LeafVerdict>,
    model: &Model,
    number: u32,
    rest: &[u8],
) -> Result<(), Refusal>
    requires made { CheckTypes (types_of model.now) checks.old }
    requires opened { (octets : List ℕ) × IsOpenUnder (types_of model.now number) (OpenLeaf.Text check) rest.now octets }
    ensures made { CheckTypes (types_of model.now) checks.new }
    ensures told { (octets : List ℕ) → IsOpenUnder (types_of model.now number) (OpenLeaf.Text check) rest.now octets
        → IsToldIn (der_message model.now) (structure (der_message model.now) (structures.Value number)) octets result }
{
    match value_at(model, number) {
        Some(simple) => end_text(checks, check, number, simple, rest),
        None => Err(Refusal::Memory),
    }
}

/// The same under the simple type, which is that of this number.
fn end_text(
    checks: &mut Checks,
    check: Box<LeafVerdict>,
    number: u32,
    simple: &Simple,
    rest: &[u8],
) -> Result<(), Refusal>
    requires made { (types : Graph ℕ SimpleType) × (text_type (types number) ≡ Some simple.now) × CheckTypes types checks.old }
    requires opened { (octets : List ℕ) × IsOpenLeaf simple.now (OpenLeaf.Text check) rest.now octets }
    ensures made { (types : Graph ℕ SimpleType) → text_type (types number) ≡ Some simple.now → CheckTypes types checks.old → CheckTypes types checks.new }
    ensures told { (octets : List ℕ) → IsOpenLeaf simple.now (OpenLeaf.Text check) rest.now octets → IsToldUnder simple.now octets result }
{
    let result = checks.end(number, simple, check);
    if !rest.is_empty() {
        return Err(Refusal::Breaks(Rule::BadContents));
    }
    result
}

/// What a binary value of so many octets is.
fn tell_binary(model: &Model, number: u32, count: u64) -> Result<(), Refusal>
    requires { (rest : List ℕ) × (octets : List ℕ) × IsOpenUnder (types_of model.now number) OpenLeaf.Binary rest octets }
    ensures { (rest octets : List ℕ) → IsOpenUnder (types_of model.now number) OpenLeaf.Binary rest octets → length octets ≡ count
        → IsToldIn (der_message model.now) (structure (der_message model.now) (structures.Value number)) octets result }
{
    match value_at(model, number) {
        Some(simple) => count_octets(simple, count),
        None => Err(Refusal::Memory),
    }
}

/// The same under the simple type.
fn count_octets(simple: &Simple, count: u64) -> Result<(), Refusal>
    requires { simple.now.kind ≡ kind.Binary }
    ensures { (octets : List ℕ) → IsBytes octets → length octets ≡ count → IsToldUnder simple.now octets result }
{
    match check_octets(simple, count) {
        Ok(()) => Ok(()),
        Err(rule) => Err(Refusal::Breaks(rule)),
    }
}

/// What the envelope is of which all octets have come.
fn tell_envelope(check: Box<OpenEnvelope>) -> Result<(), Refusal>
    ensures { (m : DerMessage ℕ) (octets : List ℕ) → m.fragment ≡ fragment → HasTakenBytes check.value.check octets → IsToldIn m (Holds Fragment) octets result }
{
    let mut check = check;
    if check.finish() {
        return Ok(());
    }
    Err(Refusal::Breaks(Rule::BadContents))
}
