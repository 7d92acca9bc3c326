//! What is asked of names and tags.
ghost use Rattle.std.specs.Prelude.{◌≡◌, ◌↔◌, ◌++◌, IsTrue, Contains, IfOk, map, false};
ghost use Rattle.std.specs.List.{list_all};
ghost use Rattle.repo_objects.specs.declared.objects.ElementDef.{ElementDef};
ghost use Rattle.reference_check.specs.Names.{is_profile_name, is_name_first, is_name_byte};
ghost use Rattle.reference_check.specs.Rules.{HasBadName};
ghost use Rattle.reference_check.specs.inner.Subjects.{subject_elements, subject_names, HasTagTwice};

use crate::subject::Subject;
use indexmap::IndexSet;
use repo_objects::ElementDef;
use std::alloc::{AllocError, Global};

/// Whether a name of its own, or a tag, has not the form of a name.
pub(crate) fn has_bad_name(subject: &Subject<'_>) -> bool
    ensures { IsTrue result ↔ HasBadName (subject_names subject.now ++ map (λ (e : ElementDef). e.tag) (subject_elements subject.now)) }
{
    let own = has_bad_own_name(subject);
    let tag = has_bad_tag(subject.elements());
    own | tag
}

/// Whether a name of its own has not the form of one.
fn has_bad_own_name(subject: &Subject<'_>) -> bool
    ensures { IsTrue result ↔ HasBadName (subject_names subject.now) }
{
    match subject {
        Subject::Entry(object) => !is_name(object.name.bytes()),
        Subject::Message(message) => !is_name(message.name.bytes())
            || !is_name(message.tag.bytes()),
    }
}

/// Whether a tag has not the form of a name.
fn has_bad_tag(elements: &[ElementDef]) -> bool
    ensures { IsTrue result ↔ ((e : ElementDef) × Contains elements.now e × (is_profile_name e.tag ≡ false)) }
{
    for element in elements {
        if !is_name(element.tag.bytes()) {
            return true;
        }
    }
    false
}

/// Whether the bytes have the form of a name: an ASCII letter or `_`, and then at most 255 ASCII letters,
/// digits, `_`, `-` or `.`.
fn is_name(bytes: &[u8]) -> bool
    ensures { result ≡ is_profile_name bytes.now }
{
    match bytes.split_first() {
        Some((first, rest)) => is_name_first(*first) && are_name_bytes(rest) && rest.len() <= 255,
        None => false,
    }
}

/// Whether each of the bytes may stand in a name behind the first.
fn are_name_bytes(bytes: &[u8]) -> bool
    ensures { result ≡ list_all is_name_byte bytes.now }
{
    bytes.iter().all(|byte| is_name_byte(*byte))
}

/// Whether the byte may begin a name: an ASCII letter or `_`.
fn is_name_first(byte: u8) -> bool
    ensures { result ≡ is_name_first byte }
{
    byte.is_ascii_alphabetic() || byte == b'_'
}

/// Whether the byte may stand in a name behind the first: an ASCII letter or digit, `_`, `-` or `.`.
fn is_name_byte(byte: u8) -> bool
    ensures { result ≡ is_name_byte byte }
{
    byte.is_ascii_alphanumeric() || byte == b'_' || byte == b'-' || byte == b'.'
}

/// Whether two elements have one tag.
pub(crate) fn has_tag_twice(alloc: Global, elements: &[ElementDef]) -> Result<bool, AllocError>
    ensures { IfOk result (λ twice. IsTrue twice ↔ HasTagTwice elements.now) }
{
    let mut tags: IndexSet<&[u8]> = IndexSet::new(alloc);
    for element in elements {
        if !tags.insert(element.tag.bytes())? {
            return Ok(true);
        }
    }
    Ok(false)
}
