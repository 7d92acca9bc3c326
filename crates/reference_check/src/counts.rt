//! The rule on how many objects, elements and codes there are, and on how long texts are.
ghost use Rattle.std.specs.Prelude.{◌≡◌, ◌⊎◌, ◌<◌, ℕ, List, IsTrue, ◌↔◌, length, chars, IfOk};
ghost use Rattle.lexical_core.specs.Characters.{IsXmlText};
ghost use Rattle.repo_objects.specs.Objects.{HasCodeTexts, HasObjectTexts};
ghost use Rattle.repo_objects.specs.Repository.{IsRepository};
ghost use Rattle.reference_check.specs.CodeTexts.{text_of_code};
ghost use Rattle.reference_check.specs.inner.First.{TellsFirst};
ghost use Rattle.reference_check.specs.Reach.{kind_elements};
ghost use Rattle.reference_check.specs.Reached.{HasReach};
ghost use Rattle.reference_check.specs.Rules.{TooMany, HasPatterns, IsLong, IsLongIfAny};
ghost use Rattle.reference_check.specs.inner.Sizes.{IsTooLarge, IsTooLongObject, HasLongCode, HasLongPattern};

use crate::breaker::Breaker;
use crate::code_rule::set_codes;
use crate::code_texts::CodeTexts;
use crate::reached::Reach;
use crate::schema_names::message_in;
use crate::tail_rules::{has_no_patterns, object_in};
use repo_objects::{CodeDef, ElementDef, MessageDef, Object, ObjectKind, Repository};
use std::alloc::{AllocError, Global};
use std::str::from_utf8;

/// How many elements a list has at most.
const MOST_ELEMENTS: usize = 4096;

/// How many objects are reached, how many codes a set has, and how many characters a code or a
/// pattern has at most.
const MOST: usize = 65536;

/// The first object that has too many elements or codes, or a text that is too long; or the message,
/// where it has too many building blocks or reaches too many objects.
pub(crate) fn first_too_many(
    alloc: Global,
    repository: &Repository,
    reach: &Reach,
) -> Result<Option<Breaker>, AllocError>
    requires { (m : List ℕ) × HasReach repository.now m reach.now }
    ensures { (m : List ℕ) → HasReach repository.now m reach.now → IfOk result (TellsFirst repository.now m TooMany) }
{
    let mut texts = CodeTexts::new(alloc, repository);
    for at in reach.objects.as_slice() {
        if is_too_large(&mut texts, object_in(repository, *at))? {
            return Ok(Some(Breaker::Object(*at)));
        }
    }
    if is_message_too_large(message_in(repository, reach), reach) {
        return Ok(Some(Breaker::Message));
    }
    Ok(None)
}

/// Whether the message has too many building blocks, or reaches too many objects.
fn is_message_too_large(message: &MessageDef, reach: &Reach) -> bool
    ensures { IsTrue result ↔ ((4096 < length message.now.blocks) ⊎ (65536 < length reach.now.objects)) }
{
    message.blocks.len() > MOST_ELEMENTS || reach.objects.len() > MOST
}

/// Whether the object has too many elements or codes, or a text that is too long.
fn is_too_large<'a>(texts: &mut CodeTexts<'a>, object: &'a Object) -> Result<bool, AllocError>
    requires whole { IsRepository texts.old }
    requires texts { HasObjectTexts object.now }
    ensures stays { texts.new ≡ texts.old }
    ensures large { IfOk result (λ b. IsTrue b ↔ IsTooLarge texts.old object.now) }
{
    if is_too_long(object) {
        return Ok(true);
    }
    has_long_code(texts, object)
}

/// Whether the object has too many elements or codes, or a pattern that is too long.
fn is_too_long(object: &Object) -> bool
    requires { HasObjectTexts object.now }
    ensures { IsTrue result ↔ IsTooLongObject object.now }
{
    elements(object).len() > MOST_ELEMENTS
        || set_codes(object).len() > MOST
        || has_long_pattern(object)
}

/// The elements of a component or a choice.
fn elements(object: &Object) -> &[ElementDef]
    ensures { result.now ≡ kind_elements object.now.kind object.now.elements }
{
    match object.kind {
        ObjectKind::Component | ObjectKind::Choice => object.elements.as_slice(),
        _ => &[],
    }
}

/// Whether a code of the object has a text that is too long.
fn has_long_code<'a>(texts: &mut CodeTexts<'a>, object: &'a Object) -> Result<bool, AllocError>
    requires whole { IsRepository texts.old }
    requires texts { HasObjectTexts object.now }
    ensures stays { texts.new ≡ texts.old }
    ensures long { IfOk result (λ b. IsTrue b ↔ HasLongCode texts.old object.now) }
{
    for code in set_codes(object) {
        if has_long_text(texts, object, code)? {
            return Ok(true);
        }
    }
    Ok(false)
}

/// Whether the code of the object has a text that is too long.
fn has_long_text<'a>(
    texts: &mut CodeTexts<'a>,
    object: &'a Object,
    code: &'a CodeDef,
) -> Result<bool, AllocError>
    requires whole { IsRepository texts.old }
    requires texts { HasCodeTexts code.now }
    ensures stays { texts.new ≡ texts.old }
    ensures long { IfOk result (λ b. IsTrue b ↔ IsLongIfAny (text_of_code texts.old.objects object.now code.now)) }
{
    match texts.text_of(object, code)? {
        Some(text) => Ok(is_long(text)),
        None => Ok(false),
    }
}

/// Whether the object has no codes, and a pattern that is too long.
fn has_long_pattern(object: &Object) -> bool
    requires { HasObjectTexts object.now }
    ensures { IsTrue result ↔ HasLongPattern object.now }
{
    if !set_codes(object).is_empty() || !has_patterns(object.kind) {
        return false;
    }
    match &object.facets.pattern {
        Some(pattern) => is_long(pattern.bytes()),
        None => false,
    }
}

/// Whether a pattern of the kind is read.
fn has_patterns(kind: ObjectKind) -> bool
    ensures { IsTrue result ↔ HasPatterns kind }
{
    match kind {
        ObjectKind::Simple(kind) => !has_no_patterns(kind),
        _ => false,
    }
}

/// Whether the text has too many characters.
fn is_long(text: &[u8]) -> bool
    requires { IsXmlText text.now }
    ensures { IsTrue result ↔ IsLong text.now }
{
    if text.len() <= MOST {
        return false;
    }
    match from_utf8(text) {
        Ok(text) => character_count(text) > MOST,
        Err(_) => unreachable!(),
    }
}

/// The number of characters of the text.
fn character_count(text: &str) -> usize
    ensures { result ≡ length (chars text.now) }
{
    text.chars().count()
}
