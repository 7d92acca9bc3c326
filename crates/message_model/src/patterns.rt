//! The patterns of data types.
ghost use Rattle.std.specs.Prelude.{◌≡◌, ◌↔◌, IsTrue, IfOk, ℕ, List};
ghost use Rattle.std.specs.Str.{chars};
ghost use Rattle.lexical_core.specs.Characters.{IsXmlText};
ghost use Rattle.pattern_match.specs.Reading.{HasPositionsWithin, RefusesPattern};
ghost use Rattle.repo_objects.specs.Objects.{IsXmlTextIfAny};
ghost use Rattle.reference_check.specs.Rules.{HasPatterns};
ghost use Rattle.message_model.specs.Ready.{HasBadPattern, TellsBad};
ghost use Rattle.message_model.specs.SimpleTypes.{pattern_of as spec_pattern_of};

use crate::facet_rules::has_codes;
use lexical_core::Text;
use pattern_match::laws::one_tree;
use pattern_match::{Pattern, PatternError};
use repo_objects::{Kinds, Object, ObjectKind};
use std::alloc::{AllocError, Global};

/// Whether texts of the kind can have a pattern.
fn has_patterns(kind: ObjectKind) -> bool
    ensures { IsTrue result ↔ HasPatterns kind }
{
    match kind {
        ObjectKind::Simple(kind) => match kind {
            Kinds::Amount | Kinds::Rate | Kinds::Quantity | Kinds::Indicator | Kinds::Binary =>
                false,
            _ => true,
        },
        _ => false,
    }
}

/// The text.
fn text_of(text: &Text) -> &str
    requires { IsXmlText text.now }
    ensures { result.now ≡ text.now }
{
    match std::str::from_utf8(text.bytes()) {
        Ok(text) => text,
        Err(_) => unreachable!(),
    }
}

/// Whether the text is no pattern, or one of too many positions.
fn is_bad(alloc: Global, text: &Text) -> Result<bool, AllocError>
    requires { IsXmlText text.now }
    ensures { IfOk result (λ bad. TellsBad bad (HasPositionsWithin (chars text.now) 65536)) }
{
    match Pattern::read(alloc, text_of(text)) {
        Ok(_) => Ok(false),
        Err(error) => is_refusal(error),
    }
}

/// Whether the error says that a text is no pattern, or one of too many positions.
fn is_refusal(error: PatternError) -> Result<bool, AllocError>
    ensures { (text : List ℕ) → RefusesPattern text error → IfOk result (λ bad. TellsBad bad (HasPositionsWithin text 65536)) }
{
    match error {
        PatternError::Memory => Err(AllocError),
        PatternError::Refused { .. } => Ok(true),
        PatternError::TooLarge => {
            one_tree();
            Ok(true)
        }
    }
}

/// Whether the object is of a kind with patterns, without codes, and its pattern is bad.
pub(crate) fn has_bad_pattern(alloc: Global, object: &Object) -> Result<bool, AllocError>
    requires { IsXmlTextIfAny object.now.facets.pattern }
    ensures { IfOk result (λ bad. IsTrue bad ↔ HasBadPattern object.now) }
{
    if has_codes(object) || !has_patterns(object.kind) {
        return Ok(false);
    }
    match &object.facets.pattern {
        Some(text) => is_bad(alloc, text),
        None => Ok(false),
    }
}

/// The pattern of an object, of a kind that has patterns.
pub(crate) fn pattern_of(alloc: Global, object: &Object) -> Result<Option<Pattern>, AllocError>
    requires { IsXmlTextIfAny object.now.facets.pattern }
    ensures { IfOk result (λ p. p ≡ spec_pattern_of object.now.kind object.now.facets.pattern) }
{
    if !has_patterns(object.kind) {
        return Ok(None);
    }
    match &object.facets.pattern {
        Some(text) => match Pattern::read(alloc, text_of(text)) {
            Ok(pattern) => Ok(Some(pattern)),
            Err(_) => Err(AllocError),
        },
        None => Ok(None),
    }
}
