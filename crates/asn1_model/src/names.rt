//! The names of a module, made from the names of message definitions: X.680 §12.2, §12.3.
ghost use Rattle.std.specs.Prelude.{◌≡◌, false, ◌++◌, IfOk, OnOk, not, ◌||◌};
ghost use Rattle.std.specs.List.{list_any};
ghost use Rattle.std.specs.Str.{bytes_eq};
ghost use Rattle.asn1_model.specs.Names.{is_lower, is_in_name, to_lower, to_upper, without_gap, with_hyphens, begun_with_letter, bare_name, first_lower, first_upper, is_name_among, reserved_names, with_one, asn_identifier, asn_type_name};
ghost use Rattle.asn1_model.specs.inner.Joined.{joined_byte};

use std::alloc::{AllocError, Global};

/// The names of types of the standard that a type name could have: X.680 §12.38.
const RESERVED: [&[u8]; 16] = [
    b"UTF8String",
    b"BMPString",
    b"GeneralString",
    b"GraphicString",
    b"IA5String",
    b"ISO646String",
    b"NumericString",
    b"PrintableString",
    b"TeletexString",
    b"T61String",
    b"UniversalString",
    b"VideotexString",
    b"VisibleString",
    b"GeneralizedTime",
    b"UTCTime",
    b"ObjectDescriptor",
];

/// The identifier of a tag or a code: X.680 §12.3.
#[tactic(auto, unfolding(crate::specs::Names::asn_identifier))]
pub(crate) fn identifier(alloc: Global, text: &[u8]) -> Result<Vec<u8>, AllocError>
    ensures { IfOk result (λ name. name.items ≡ asn_identifier text.now) }
{
    let mut name = bare_name(alloc, text)?;
    lower_first(&mut name);
    Ok(name)
}

/// The name of a type: X.680 §12.2.
#[tactic(auto, unfolding(crate::specs::Names::asn_type_name))]
pub(crate) fn type_name(alloc: Global, text: &[u8]) -> Result<Vec<u8>, AllocError>
    ensures { IfOk result (λ name. name.items ≡ asn_type_name text.now) }
{
    let mut name = bare_name(alloc, text)?;
    upper_first(&mut name);
    push_one(&mut name)?;
    Ok(name)
}

/// Whether the byte stands in names: a letter or a digit.
fn is_in_name(byte: u8) -> bool
    ensures { result ≡ is_in_name byte }
{
    byte.is_ascii_alphanumeric()
}

/// Appends a byte that stands in names, behind a hyphen where others stood before it.
fn push_joined(name: &mut Vec<u8>, gap: bool, byte: u8) -> Result<(), AllocError>
    ensures { OnOk result (name.new.items ≡ name.old.items ++ joined_byte name.old.items gap byte) }
{
    if gap && !name.is_empty() {
        name.push(b'-')?;
    }
    name.push(byte)?;
    Ok(())
}

/// The bytes that stand in names, with a hyphen for each run of others between two.
fn hyphenated(alloc: Global, text: &[u8]) -> Result<Vec<u8>, AllocError>
    ensures { IfOk result (λ name. name.items ≡ with_hyphens false (without_gap text.now)) }
{
    let mut name = Vec::new(alloc);
    let mut gap = false;
    for byte in text {
        if is_in_name(*byte) {
            push_joined(&mut name, gap, *byte)?;
            gap = false;
        } else {
            gap = true;
        }
    }
    Ok(name)
}

/// The name with a letter in front.
fn begun(alloc: Global, name: Vec<u8>) -> Result<Vec<u8>, AllocError>
    ensures { IfOk result (λ n. n.items ≡ begun_with_letter name.items) }
{
    if let Some(first) = name.first() {
        if !first.is_ascii_digit() {
            return Ok(name);
        }
    }
    let mut longer = Vec::from_slice(alloc, b"x")?;
    longer.extend_from_slice(&name)?;
    Ok(longer)
}

/// The name without what stands in none.
fn bare_name(alloc: Global, text: &[u8]) -> Result<Vec<u8>, AllocError>
    ensures { IfOk result (λ name. name.items ≡ bare_name text.now) }
{
    begun(alloc, hyphenated(alloc, text)?)
}

/// A letter as a small one.
fn to_lower(byte: u8) -> u8
    ensures { result ≡ to_lower byte }
{
    if byte.is_ascii_uppercase() {
        byte + 32
    } else {
        byte
    }
}

/// A letter as a capital.
fn to_upper(byte: u8) -> u8
    ensures { result ≡ to_upper byte }
{
    if byte.is_ascii_lowercase() {
        byte - 32
    } else {
        byte
    }
}

/// Makes the first letter a small one.
fn lower_first(name: &mut Vec<u8>)
    ensures { name.new.items ≡ first_lower name.old.items }
{
    if let Some(first) = name.first_mut() {
        *first = to_lower(*first);
    }
}

/// Makes the first letter a capital.
fn upper_first(name: &mut Vec<u8>)
    ensures { name.new.items ≡ first_upper name.old.items }
{
    if let Some(first) = name.first_mut() {
        *first = to_upper(*first);
    }
}

/// Whether the name has a small letter.
fn has_lower(name: &[u8]) -> bool
    ensures { result ≡ list_any is_lower name.now }
{
    name.iter().any(|byte| byte.is_ascii_lowercase())
}

/// Whether the name is one of these words.
fn is_among(words: &[&[u8]], name: &[u8]) -> bool
    ensures { result ≡ list_any (λ w. bytes_eq name.now w.now) words.now }
{
    words.iter().any(|word| name == *word)
}

/// Whether the name is that of a type of the standard.
fn is_reserved(name: &[u8]) -> bool
    ensures { result ≡ is_name_among reserved_names name.now }
{
    is_among(&RESERVED, name)
}

/// Whether a name of a type could be taken for a word of the standard.
fn is_like_reserved(name: &[u8]) -> bool
    ensures { result ≡ (not (list_any is_lower name.now) || is_name_among reserved_names name.now) }
{
    !has_lower(name) || is_reserved(name)
}

/// Appends an ending to a name that could be taken for a word of the standard.
fn push_one(name: &mut Vec<u8>) -> Result<(), AllocError>
    ensures { OnOk result (name.new.items ≡ with_one name.old.items) }
{
    if is_like_reserved(name) {
        name.extend_from_slice(b"-1")?;
    }
    Ok(())
}
