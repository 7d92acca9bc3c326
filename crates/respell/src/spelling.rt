//! The parts of tags, as a fragment spells them.
ghost use Rattle.std.specs.Prelude.{◌≡◌, ◌+◌, ◌<◌, ◌^◌, false, ◌++◌, OnOk, map};
ghost use Rattle.std.specs.List.{flat_map};
ghost use Rattle.lexical_core.specs.Names.{xmlns};
ghost use Rattle.markup.specs.EventItems.{entry_of};
ghost use Rattle.fragments.specs.Plain.{AreSortedEntries};
ghost use Rattle.fragments.specs.Fragment.{value_byte, written_text, spelling_text, prefix_of, numbered_declarations, namespaces_of, attribute_written, needs_none, is_xml};
ghost use Rattle.respell.specs.inner.Declaring.{is_new, number_behind, later, numbered_prefix, numbered_attribute};

use lexical_core::{Text, reference_to};
use markup::Attr;
use std::alloc::AllocError;

/// The namespace that the prefix `xml` is bound to (Namespaces in XML 1.0 §3).
const XML: &[u8] = b"http://www.w3.org/XML/1998/namespace";

/// Whether it is the namespace of `xml`.
pub(crate) fn is_xml(namespace: &[u8]) -> bool
    ensures { result ≡ is_xml namespace.now }
{
    namespace == XML
}

/// Whether an attribute of this namespace needs no declaration.
pub(crate) fn needs_none(namespace: &[u8]) -> bool
    ensures { result ≡ needs_none namespace.now }
{
    namespace.is_empty() || is_xml(namespace)
}

/// Pushes the bytes of a value, escaped.
pub(crate) fn push_value(text: &mut Text, value: &[u8]) -> Result<(), AllocError>
    ensures { OnOk result (text.new ≡ text.old ++ flat_map value_byte value.now) }
{
    for byte in value {
        push_byte(text, *byte)?;
    }
    Ok(())
}

/// Pushes a byte of a value, escaped.
fn push_byte(text: &mut Text, byte: u8) -> Result<(), AllocError>
    ensures { OnOk result (text.new ≡ text.old ++ value_byte byte) }
{
    match reference_to(byte as char, true) {
        Some(reference) => text.extend(reference),
        None => text.extend(&[byte]),
    }
}

/// Pushes a name.
pub(crate) fn push_name(text: &mut Text, prefix: &[u8], local: &[u8]) -> Result<(), AllocError>
    ensures { OnOk result (text.new ≡ text.old ++ spelling_text (record { prefix = prefix.now; local = local.now })) }
{
    if !prefix.is_empty() {
        text.extend(prefix)?;
        text.extend(b":")?;
    }
    text.extend(local)
}

/// Pushes a name with its value, as in a start tag.
pub(crate) fn push_written(
    text: &mut Text,
    prefix: &[u8],
    local: &[u8],
    value: &[u8],
) -> Result<(), AllocError>
    ensures { OnOk result (text.new ≡ text.old ++ written_text (record { name = record { prefix = prefix.now; local = local.now }; value = value.now })) }
{
    text.extend(b" ")?;
    push_name(text, prefix, local)?;
    text.extend(b"=\"")?;
    push_value(text, value)?;
    text.extend(b"\"")
}

/// Pushes the prefix with this number.
fn push_prefix(text: &mut Text, number: u64) -> Result<(), AllocError>
    requires { 0 < number }
    ensures { OnOk result (text.new ≡ text.old ++ prefix_of number) }
{
    let mut buffer = itoa::Buffer::new();
    text.extend(b"a")?;
    text.extend(buffer.format(number).as_bytes())?;
    Ok(())
}

/// Whether a namespace needs a declaration of its own, behind one of the last.
fn is_new(namespace: &[u8], last: &[u8]) -> bool
    ensures { result ≡ is_new last.now namespace.now }
{
    !needs_none(namespace) && namespace != last
}

/// Pushes the declarations of the namespaces of sorted attributes.
pub(crate) fn push_declarations(
    text: &mut Text,
    prefix: &mut Text,
    attrs: &[Attr],
) -> Result<(), AllocError>
    ensures { OnOk result (text.new ≡ text.old ++ flat_map written_text (numbered_declarations 1 (namespaces_of (map entry_of attrs.now)))) }
{
    let mut last: &[u8] = b"";
    let mut number: u64 = 0;
    let mut left = attrs;
    while let Some((attr, others)) = left.split_first() {
        let namespace = attr.ns.bytes();
        if is_new(namespace, last) {
            number += 1;
            push_declaration(text, prefix, number, namespace)?;
            last = namespace;
        }
        left = others;
    }
    Ok(())
}

/// Pushes the declaration of a namespace with this number.
fn push_declaration(
    text: &mut Text,
    prefix: &mut Text,
    number: u64,
    namespace: &[u8],
) -> Result<(), AllocError>
    requires { 0 < number }
    ensures { OnOk result (text.new ≡ text.old ++ written_text (record { name = record { prefix = xmlns; local = prefix_of number }; value = namespace.now })) }
{
    prefix.clear();
    push_prefix(prefix, number)?;
    push_written(text, b"xmlns", prefix.bytes(), namespace)
}

/// Pushes sorted attributes, with the prefixes that are declared for them.
pub(crate) fn push_attributes(
    text: &mut Text,
    prefix: &mut Text,
    attrs: &[Attr],
) -> Result<(), AllocError>
    ensures { AreSortedEntries (map entry_of attrs.now) → OnOk result (text.new ≡ text.old ++ flat_map written_text (map (attribute_written (namespaces_of (map entry_of attrs.now))) (map entry_of attrs.now))) }
{
    let mut last: &[u8] = b"";
    let mut number: u64 = 0;
    let mut left = attrs;
    while let Some((attr, others)) = left.split_first() {
        number = number_behind(number, last, attr.ns.bytes());
        last = later(last, attr.ns.bytes());
        push_attribute(text, prefix, number, attr)?;
        left = others;
    }
    Ok(())
}

/// The number of a namespace, behind one of the last.
fn number_behind(number: u64, last: &[u8], namespace: &[u8]) -> u64
    requires { number + 1 < 2 ^ 64 }
    ensures { result ≡ number_behind number last.now namespace.now }
{
    if is_new(namespace, last) {
        number + 1
    } else {
        number
    }
}

/// The last namespace that needs a declaration, of the last before and this one.
fn later<'a>(last: &'a [u8], namespace: &'a [u8]) -> &'a [u8]
    ensures { result.now ≡ later last.now namespace.now }
{
    if needs_none(namespace) {
        last
    } else {
        namespace
    }
}

/// Pushes an attribute; if its namespace needs a declaration, that has this number.
fn push_attribute(
    text: &mut Text,
    prefix: &mut Text,
    number: u64,
    attr: &Attr,
) -> Result<(), AllocError>
    requires { needs_none attr.now.ns ≡ false → 0 < number }
    ensures { OnOk result (text.new ≡ text.old ++ written_text (numbered_attribute number (entry_of attr.now))) }
{
    set_prefix(prefix, number, attr.ns.bytes())?;
    push_written(text, prefix.bytes(), attr.local.bytes(), attr.value.bytes())?;
    Ok(())
}

/// Makes the prefix that of an attribute.
fn set_prefix(prefix: &mut Text, number: u64, namespace: &[u8]) -> Result<(), AllocError>
    requires { needs_none namespace.now ≡ false → 0 < number }
    ensures { OnOk result (prefix.new ≡ numbered_prefix number namespace.now) }
{
    prefix.clear();
    if namespace.is_empty() {
        return Ok(());
    }
    if is_xml(namespace) {
        prefix.extend(b"xml")?;
        return Ok(());
    }
    push_prefix(prefix, number)?;
    Ok(())
}
