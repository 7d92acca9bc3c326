//! What the types of a message are in a module.
ghost use Rattle.std.specs.Prelude.{◌≡◌, IfOk, map};
ghost use Rattle.message_model.specs.Sound.{AreSound};
ghost use Rattle.message_model.specs.Tables.{Tables, types_of};
ghost use Rattle.asn1_model.specs.Names.{asn_identifier};
ghost use Rattle.asn1_model.specs.ModuleOf.{code_names, asn_name_of, shape_of, simple_shape, step_of};
ghost use Rattle.asn1_model.specs.inner.TypeNames.{AreNames};

use crate::fields::fields_of;
use crate::given::given_names;
use crate::module::{AsnShape, Names};
use crate::names::identifier;
use crate::steps::step_of;
use crate::type_names::TypeNames;
use data_types::Kind;
use facets::{Codes, Simple};
use lexical_core::Text;
use message_model::{Form, Model};
use std::alloc::{AllocError, Global};

/// The shape of a type; `None` where there is no such type.
pub(crate) fn shape_of(
    alloc: Global,
    model: &Model,
    names: &TypeNames,
    number: u32,
) -> Result<Option<AsnShape>, AllocError>
    requires names { AreNames names.now model.now }
    requires sound { AreSound (types_of model.now) }
    ensures { IfOk result (λ shape. shape ≡ shape_of (asn_name_of model.now) (types_of model.now number)) }
{
    match model.form(number) {
        None => Ok(None),
        Some(Form::Sequence) => {
            let fields = fields_of(alloc, model, names, number)?;
            Ok(Some(AsnShape::Sequence(fields)))
        }
        Some(Form::Choice) => {
            let fields = fields_of(alloc, model, names, number)?;
            Ok(Some(AsnShape::Choice(fields)))
        }
        Some(Form::Simple(simple)) => {
            let shape = simple_shape(alloc, simple)?;
            Ok(Some(shape))
        }
        Some(Form::Money { code, base }) => {
            let shape = money(alloc, names, code, base)?;
            Ok(Some(shape))
        }
        Some(Form::Envelope) => Ok(Some(AsnShape::Fragment)),
    }
}

/// An amount: the type of its code, and its number.
fn money(alloc: Global, names: &TypeNames, code: u32, base: &Simple) -> Result<AsnShape, AllocError>
    ensures { (T : Tables) → AreNames names.now T → IfOk result (λ shape. shape ≡ AsnShape.Money (asn_name_of T code) (step_of base.now)) }
{
    let code = names.name(alloc, code)?;
    Ok(AsnShape::Money {
        code,
        base: step_of(alloc, base),
    })
}

/// What a simple type is: its codes, where it is a text with codes, or its kind and its facets.
fn simple_shape(alloc: Global, simple: &Simple) -> Result<AsnShape, AllocError>
    ensures { IfOk result (λ shape. shape ≡ simple_shape simple.now) }
{
    match &simple.codes {
        None => plain(alloc, simple),
        Some(codes) => match simple.kind {
            Kind::Text => enumerated(alloc, codes),
            _ => plain(alloc, simple),
        },
    }
}

/// The codes with their identifiers.
fn enumerated(alloc: Global, codes: &Codes) -> Result<AsnShape, AllocError>
    ensures { IfOk result (λ shape. shape ≡ AsnShape.Enumerated codes.now (code_names codes.now)) }
{
    let names = code_names(alloc, codes)?;
    Ok(AsnShape::Enumerated(codes.copy(alloc)?, names))
}

/// The identifiers of the codes.
fn code_names(alloc: Global, codes: &Codes) -> Result<Names, AllocError>
    ensures { IfOk result (λ names. names ≡ code_names codes.now) }
{
    let identifiers = identifiers(alloc, codes)?;
    given_names(alloc, &identifiers)
}

/// The identifiers of the codes, before clashes.
fn identifiers(alloc: Global, codes: &Codes) -> Result<Vec<Text>, AllocError>
    ensures { IfOk result (λ names. names.items ≡ map asn_identifier codes.now) }
{
    let mut names = Vec::new(alloc);
    for at in 0..codes.len() {
        let Some(code) = codes.get(at) else {
            return Ok(names);
        };
        names.push(Text::from_vec(identifier(alloc, code.bytes())?))?;
    }
    Ok(names)
}

/// The kind with its facets, and the pattern.
fn plain(alloc: Global, simple: &Simple) -> Result<AsnShape, AllocError>
    ensures { IfOk result (λ shape. shape ≡ AsnShape.Plain simple.now.kind (step_of simple.now) simple.now.pattern) }
{
    let pattern = pattern_of(alloc, simple)?;
    Ok(AsnShape::Plain(simple.kind, step_of(alloc, simple), pattern))
}

/// The text of the pattern; `None` where there is none.
fn pattern_of(alloc: Global, simple: &Simple) -> Result<Option<Text>, AllocError>
    ensures { IfOk result (λ pattern. pattern ≡ simple.now.pattern) }
{
    match &simple.pattern {
        None => Ok(None),
        Some(pattern) => Ok(Some(Text::from_vec(Vec::from_slice(alloc, pattern.text())?))),
    }
}
