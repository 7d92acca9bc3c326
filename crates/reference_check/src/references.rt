//! What is asked of references to objects.
ghost use Rattle.std.specs.Prelude.{◌≡◌, ◌↔◌, IsTrue, Contains, length, Some};
ghost use Rattle.repo_objects.specs.declared.objects.ElementDef.{ElementDef};
ghost use Rattle.repo_objects.specs.declared.objects.Object.{Object};
ghost use Rattle.reference_check.specs.Graph.{references, given_id, find_entry};
ghost use Rattle.reference_check.specs.Rules.{HasNoEntry, IsTextKind};
ghost use Rattle.reference_check.specs.inner.Subjects.{subject_elements, subject_currency, NamesNoEntry, HasDangling, HasBadCurrency, NamesNotOne};

use crate::subject::Subject;
use lexical_core::Text;
use repo_objects::{ElementDef, Kinds, Object, ObjectKind, Repository};

/// Whether something names an object that is not there.
pub(crate) fn has_dangling(repository: &Repository, subject: &Subject<'_>) -> bool
    ensures { IsTrue result ↔ HasDangling repository.now (subject_elements subject.now) (subject_currency subject.now) }
{
    if let Some(currency) = subject.currency()
        && is_missing(repository, currency.bytes())
    {
        return true;
    }
    have_dangling(repository, subject.elements())
}

/// Whether an element names an object that is not there.
fn have_dangling(repository: &Repository, elements: &[ElementDef]) -> bool
    ensures { IsTrue result ↔ ((e : ElementDef) × Contains elements.now e × NamesNoEntry repository.now (references e)) }
{
    for element in elements {
        if is_dangling(repository, element) {
            return true;
        }
    }
    false
}

/// Whether the element names an object that is not there.
fn is_dangling(repository: &Repository, element: &ElementDef) -> bool
    ensures { IsTrue result ↔ NamesNoEntry repository.now (references element.now) }
{
    let simple = names_none(repository, &element.simple);
    let complex = names_none(repository, &element.complex);
    let plain = names_none(repository, &element.plain);
    simple | complex | plain
}

/// Whether the reference is there and its object is not.
fn names_none(repository: &Repository, reference: &Option<Text>) -> bool
    ensures { IsTrue result ↔ NamesNoEntry repository.now (given_id reference.now) }
{
    match reference {
        Some(id) => is_missing(repository, id.bytes()),
        None => false,
    }
}

/// Whether no object has the id.
fn is_missing(repository: &Repository, id: &[u8]) -> bool
    ensures { IsTrue result ↔ HasNoEntry repository.now id.now }
{
    match repository.place(id) {
        Some(_) => false,
        None => true,
    }
}

/// Whether the currencies are named by an object whose values are no texts.
pub(crate) fn has_bad_currency(repository: &Repository, subject: &Subject<'_>) -> bool
    ensures { IsTrue result ↔ HasBadCurrency repository.now (subject_currency subject.now) }
{
    match subject.currency() {
        Some(currency) => is_no_text_object(repository, currency.bytes()),
        None => false,
    }
}

/// Whether the object of that id is there and its values are no texts.
fn is_no_text_object(repository: &Repository, id: &[u8]) -> bool
    ensures { IsTrue result ↔ ((o : Object) × (find_entry id.now repository.now.objects ≡ Some o) × (IsTextKind o.kind → ⊥)) }
{
    match repository.object(id) {
        Some(object) => !is_text_kind(&object.kind),
        None => false,
    }
}

/// Whether the values are texts.
fn is_text_kind(kind: &ObjectKind) -> bool
    ensures { IsTrue result ↔ IsTextKind kind.now }
{
    matches!(
        kind,
        ObjectKind::Simple(Kinds::Text | Kinds::CodeSet | Kinds::IdentifierSet)
    )
}

/// Whether an element names no object, or more than one.
pub(crate) fn names_not_one(elements: &[ElementDef]) -> bool
    ensures { IsTrue result ↔ NamesNotOne elements.now }
{
    for element in elements {
        if reference_count(element) != 1 {
            return true;
        }
    }
    false
}

/// How many objects the element names.
fn reference_count(element: &ElementDef) -> usize
    ensures { result ≡ length (references element.now) }
{
    usize::from(element.simple.is_some())
        + usize::from(element.complex.is_some())
        + usize::from(element.plain.is_some())
}
