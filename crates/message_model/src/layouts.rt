//! The layouts of the types of objects.
ghost use Rattle.std.specs.Prelude.{◌≡◌, ℕ, List, Some, IfOk, slice_get};
ghost use Rattle.repo_objects.specs.declared.objects.ObjectKind.TheVariants.{Other};
ghost use Rattle.repo_objects.specs.Objects.{IsXmlTextIfAny};
ghost use Rattle.message_model.specs.Views.{layout_form};
ghost use Rattle.message_model.specs.FacetRules.{HasBadFacets};
ghost use Rattle.message_model.specs.inner.Numbers.{AreNumbers, IsCompilable, IsLayoutOf, IsSimpleLayout};

use crate::model::Layout;
use crate::numbers::number_of;
use crate::simple_types::simple_of;
use crate::slots::slots_of;
use facets::Simple;
use reference_check::CodeTexts;
use repo_objects::{Kinds, Object, ObjectKind, Repository};
use std::alloc::{AllocError, Global};

/// The layout of the object at that place, which has a form.
pub(crate) fn layout_of(
    alloc: Global,
    repository: &Repository,
    texts: &mut CodeTexts<'_>,
    numbers: &[u32],
    at: usize,
    object: &Object,
) -> Result<Layout, AllocError>
    requires same { texts.old ≡ repository.now }
    requires object { (id : List ℕ) × (slice_get repository.now.objects at ≡ Some (record { id = id; object = object.now })) }
    requires facets { HasBadFacets object.now → ⊥ }
    requires text { IsXmlTextIfAny object.now.facets.pattern }
    requires kind { object.now.kind ≡ Other → ⊥ }
    ensures stays { texts.new ≡ texts.old }
    ensures layout { (places : List ℕ) → AreNumbers places numbers.now → IsCompilable repository.now places object.now
        → IfOk result (λ layout. IsLayoutOf repository.now places object.now (layout_form layout)) }
{
    match object.kind {
        ObjectKind::Simple(kind) => {
            let base = simple_of(alloc, texts, at, object)?;
            Ok(simple_layout(repository, numbers, object, kind, base))
        }
        ObjectKind::Component => Ok(Layout::Sequence(slots_of(
            alloc,
            repository,
            numbers,
            object.elements.as_slice(),
        )?)),
        ObjectKind::Choice => Ok(Layout::Choice(slots_of(
            alloc,
            repository,
            numbers,
            object.elements.as_slice(),
        )?)),
        ObjectKind::External => Ok(Layout::Envelope),
        ObjectKind::Other => unreachable!(),
    }
}

/// The layout of a data type with this simple type: of an amount with a currency, that of money.
fn simple_layout(
    repository: &Repository,
    numbers: &[u32],
    object: &Object,
    kind: Kinds,
    base: Simple,
) -> Layout
    ensures { (places : List ℕ) → AreNumbers places numbers.now → IsCompilable repository.now places object.now → object.now.kind ≡ ObjectKind.Simple kind
        → IsSimpleLayout repository.now places object.now kind base (layout_form result) }
{
    if kind != Kinds::Amount {
        return Layout::Simple(base);
    }
    match &object.currency {
        Some(id) => Layout::Money {
            code: number_of(repository, numbers, id.bytes()),
            base,
        },
        None => Layout::Simple(base),
    }
}
