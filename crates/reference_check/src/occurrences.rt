//! What is asked of how often elements may stand.
ghost use Rattle.std.specs.Prelude.{◌≡◌, ◌↔◌, IsTrue, Contains};
ghost use Rattle.repo_objects.specs.declared.objects.ElementDef.{ElementDef};
ghost use Rattle.repo_objects.specs.declared.objects.ObjectKind.TheVariants.{Choice};
ghost use Rattle.reference_check.specs.Rules.{UpToMax};
ghost use Rattle.reference_check.specs.inner.Subjects.{OfEntry, HasBadElementBounds, IsOptionalChoice, IsEmptyChoice};

use crate::subject::Subject;
use repo_objects::{ElementDef, Object, ObjectKind};

/// Whether an element's minimum is above its maximum, or its maximum is 0.
pub(crate) fn has_bad_bounds(elements: &[ElementDef]) -> bool
    ensures { IsTrue result ↔ HasBadElementBounds elements.now }
{
    for element in elements {
        if !has_bounds(element) {
            return true;
        }
    }
    false
}

/// Whether the minimum is not above the maximum, which is not 0.
fn has_bounds(element: &ElementDef) -> bool
    ensures { IsTrue result ↔ UpToMax element.now.min element.now.max }
{
    match element.max {
        Some(max) => element.min <= max && 0 < max,
        None => true,
    }
}

/// Whether it is a choice with an alternative whose minimum is 0.
pub(crate) fn has_optional_alternative(subject: &Subject<'_>) -> bool
    ensures { IsTrue result ↔ OfEntry subject.now IsOptionalChoice }
{
    match subject {
        Subject::Entry(object) => is_choice(object) && has_optional(object.elements.as_slice()),
        Subject::Message(_) => false,
    }
}

/// Whether it is a choice without alternatives.
pub(crate) fn has_no_alternatives(subject: &Subject<'_>) -> bool
    ensures { IsTrue result ↔ OfEntry subject.now IsEmptyChoice }
{
    match subject {
        Subject::Entry(object) => is_choice(object) && object.elements.is_empty(),
        Subject::Message(_) => false,
    }
}

/// Whether the object is a choice.
fn is_choice(object: &Object) -> bool
    ensures { IsTrue result ↔ (object.now.kind ≡ Choice) }
{
    matches!(object.kind, ObjectKind::Choice)
}

/// Whether an element's minimum is 0.
fn has_optional(elements: &[ElementDef]) -> bool
    ensures { IsTrue result ↔ ((e : ElementDef) × Contains elements.now e × (e.min ≡ 0)) }
{
    for element in elements {
        if element.min == 0 {
            return true;
        }
    }
    false
}
