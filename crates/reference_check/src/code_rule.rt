//! The rule that each code of a code set has a text of its own.
ghost use Rattle.std.specs.Prelude.{◌≡◌, ℕ, List, IsTrue, ◌↔◌, IfOk};
ghost use Rattle.reference_check.specs.inner.First.{TellsFirst};
ghost use Rattle.reference_check.specs.Reached.{HasReach};
ghost use Rattle.reference_check.specs.Rules.{BadCodes, HasBadCodes};
ghost use Rattle.reference_check.specs.Rules as spec;

use crate::breaker::Breaker;
use crate::code_texts::CodeTexts;
use crate::reached::Reach;
use crate::tail_rules::object_in;
use repo_objects::{CodeDef, Kinds, Object, ObjectKind, Repository};
use std::alloc::{AllocError, Global};
use std::collections::HashSet;

/// The first code set that has a code without a text, or two codes with one text.
pub(crate) fn first_bad_codes(
    alloc: Global,
    repository: &Repository,
    reach: &Reach,
) -> Result<Option<Breaker>, AllocError>
    requires { (m : List ℕ) × HasReach repository.now m reach.now }
    ensures { (m : List ℕ) → HasReach repository.now m reach.now → IfOk result (TellsFirst repository.now m BadCodes) }
{
    let mut texts = CodeTexts::new(alloc, repository);
    for at in reach.objects.as_slice() {
        if has_bad_codes(alloc, &mut texts, object_in(repository, *at))? {
            return Ok(Some(Breaker::Object(*at)));
        }
    }
    Ok(None)
}

/// Whether a code of the object has no text, or the text of another.
fn has_bad_codes<'a>(
    alloc: Global,
    texts: &mut CodeTexts<'a>,
    object: &'a Object,
) -> Result<bool, AllocError>
    ensures stays { texts.new ≡ texts.old }
    ensures bad { IfOk result (λ b. IsTrue b ↔ HasBadCodes texts.old object.now) }
{
    let mut seen: HashSet<&[u8]> = HashSet::new(alloc);
    for code in set_codes(object) {
        let Some(text) = texts.text_of(object, code)? else {
            return Ok(true);
        };
        if !seen.insert(text)? {
            return Ok(true);
        }
    }
    Ok(false)
}

/// The codes of a code set.
pub(crate) fn set_codes(object: &Object) -> &[CodeDef]
    ensures { result.now ≡ spec.set_codes object.now }
{
    match object.kind {
        ObjectKind::Simple(Kinds::CodeSet) => object.codes.as_slice(),
        _ => &[],
    }
}
