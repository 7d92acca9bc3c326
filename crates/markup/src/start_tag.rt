//! Start tags that stand whole at the front of a piece of the input, as slices of it.
ghost use Rattle.std.specs.Prelude.{◌≡◌, ◌<◌, ◌≤◌, ◌++◌, ℕ, List, [], length, take, drop, map, IfOk, OnOk, IfSome, IsSomeAnd, true, false};
ghost use Rattle.std.specs.List.{list_all, flat_map, prefix_len};
ghost use Rattle.markup.specs.Chars.{is_space};
ghost use Rattle.markup.specs.Marks.{tag_limit};
ghost use Rattle.markup.specs.PlainTags.{continues_plain, is_plain_name};
ghost use Rattle.markup.specs.PlainStarts.{is_quote, PlainAttribute, is_plain_attribute, plain_attribute_text, PlainStart, is_plain_start, plain_start_text};
ghost use Rattle.markup.specs.inner.WholeStarts.{named_by, goes_on_name, is_empty_kind, past_spaces, IsLocalAt, IsNameAt, IsValueAt, IsGapAt, IsEqualsAt, IsAttributeAt, BeginsNoAttribute, AreGiven, IsStartAt};
ghost use Rattle.markup.specs.inner.TagParts.{tag_given, spelled_opening};
ghost use Rattle.markup.specs.declared.tag.Spelled.{Spelled};

use crate::attributes::{TagAttribute, spelled};
use crate::classes::Blank;
use crate::inside::value_length;
use crate::namespace::Namespace;
use crate::plain_tag::{TagKind, begins_plain, closing, mark_count, name_length};
use crate::tag::Spelled;
use crate::tokenizer::TAG_LIMIT;
use lexical_core::{ByteClass, run_length};
use std::alloc::{AllocError, Global};

/// How many attributes there is room for at once.
const USUAL: usize = 8;

/// A start tag, with its names expanded (XML 1.0 §3.1; Namespaces in XML 1.0 §6).
#[derive(Drop)]
pub struct StartTag<'a> {
    /// The namespace of the element.
    pub ns: Namespace,
    /// Whether that is known to be the namespace of the element round it, as the prefix is the same and the tag
    /// declares nothing.
    pub has_same_ns: bool,
    /// The prefix as it stands in the piece, empty where there is none.
    pub prefix: &'a [u8],
    /// The local name as it stands in the piece.
    pub name: &'a [u8],
    /// Those that declare nothing, in the order of their expanded names: by namespace, then by local name, both by
    /// bytes.
    pub attributes: Vec<TagAttribute<'a>>,
    /// Whether it is the tag of an empty element.
    pub is_empty: bool,
    /// How many bytes the tag has.
    pub bytes: usize,
}

/// The plain name behind a colon at the front of bytes, and what is behind it.
#[derive(Clone, Copy)]
struct LocalAt<'a> {
    local: &'a [u8],
    behind: &'a [u8],
}

/// A name at the front of bytes, whose prefix is empty where it has none, and what is behind it.
#[derive(Clone, Copy)]
struct NameAt<'a> {
    prefix: &'a [u8],
    local: &'a [u8],
    behind: &'a [u8],
}

/// A value in quotes at the front of bytes, and what is behind it.
#[derive(Clone, Copy)]
struct ValueAt<'a> {
    value: &'a [u8],
    behind: &'a [u8],
}

/// An attribute as it stands at the front of bytes, and what is behind it.
#[derive(Clone, Copy)]
struct AttributeAt<'a> {
    prefix: &'a [u8],
    local: &'a [u8],
    value: &'a [u8],
    behind: &'a [u8],
}

/// How many bytes at the front are a plain name, 0 where they begin with none.
#[inline]
fn part_at(bytes: &[u8]) -> usize
    ensures within { result ≤ length bytes.now }
    ensures named { 0 < result → is_plain_name (take result bytes.now) ≡ true }
    ensures all { (name behind : List ℕ) → is_plain_name name ≡ true → bytes.now ≡ name ++ behind → prefix_len continues_plain behind ≡ 0 → result ≡ length name }
{
    let Some((first, _)) = bytes.split_first() else {
        return 0;
    };
    if !begins_plain(*first) {
        return 0;
    }
    name_length(bytes)
}

/// The plain name behind the colon at the front.
#[inline]
fn local_at<'a>(bytes: &'a [u8]) -> Option<LocalAt<'a>>
    ensures found { IfSome result (λ l. IsLocalAt bytes.now l.local.now l.behind.now) }
    ensures all { (local behind : List ℕ) → IsLocalAt bytes.now local behind → prefix_len continues_plain behind ≡ 0 → IsSomeAnd result (λ l. l.behind.now ≡ behind) }
{
    let Some((mark, named)) = bytes.split_first() else {
        return None;
    };
    if *mark != b':' {
        return None;
    }
    let count = part_at(named);
    if count == 0 {
        return None;
    }
    let (local, behind) = named.split_at(count);
    Some(LocalAt { local, behind })
}

/// The name at the front, whose parts are plain (Namespaces in XML 1.0 §4, QName).
#[inline]
fn name_at<'a>(bytes: &'a [u8]) -> Option<NameAt<'a>>
    ensures found { IfSome result (λ n. IsNameAt bytes.now (named_by n.prefix.now n.local.now) n.behind.now) }
    ensures all { (name : Spelled) (behind : List ℕ) → IsNameAt bytes.now name behind → prefix_len goes_on_name behind ≡ 0 → IsSomeAnd result (λ n. n.behind.now ≡ behind) }
{
    let count = part_at(bytes);
    if count == 0 {
        return None;
    }
    let (first, after) = bytes.split_at(count);
    let Some(LocalAt { local, behind }) = local_at(after) else {
        return Some(NameAt {
            prefix: &[],
            local: first,
            behind: after,
        });
    };
    Some(NameAt {
        prefix: first,
        local,
        behind,
    })
}

/// Whether the byte is one of the two kinds of quotes (XML 1.0 §2.3, AttValue).
#[inline]
fn is_quote(byte: u8) -> bool
    ensures { result ≡ is_quote byte }
{
    byte == b'"' || byte == b'\''
}

/// The value at the front, where it is one in quotes whose bytes stand for themselves.
#[inline]
fn value_at<'a>(bytes: &'a [u8]) -> Option<ValueAt<'a>>
    ensures found { IfSome result (λ v. IsValueAt bytes.now v.value.now v.behind.now) }
    ensures all { (value behind : List ℕ) → IsValueAt bytes.now value behind → IsSomeAnd result (λ v. v.behind.now ≡ behind) }
{
    let Some((quote, inside)) = bytes.split_first() else {
        return None;
    };
    if !is_quote(*quote) {
        return None;
    }
    let (value, ended) = inside.split_at(value_length(*quote as char, inside));
    let Some((last, behind)) = ended.split_first() else {
        return None;
    };
    if *last != *quote {
        return None;
    }
    Some(ValueAt { value, behind })
}

/// What is behind the white space at the front.
#[inline]
fn behind_spaces<'a>(bytes: &'a [u8]) -> &'a [u8]
    ensures { result.now ≡ past_spaces bytes.now }
{
    let Some((first, _)) = bytes.split_first() else {
        return bytes;
    };
    if *first > b' ' {
        return bytes;
    }
    behind_run(bytes)
}

/// The same, where some stands there.
#[cold]
#[inline(never)]
fn behind_run<'a>(bytes: &'a [u8]) -> &'a [u8]
    ensures { result.now ≡ past_spaces bytes.now }
{
    let (_, behind) = bytes.split_at(run_length(&Blank, bytes));
    behind
}

/// What is behind the white space at the front, where some stands there.
#[inline]
fn behind_gap<'a>(bytes: &'a [u8]) -> Option<&'a [u8]>
    ensures found { IfSome result (λ b. IsGapAt bytes.now b.now) }
    ensures all { (behind : List ℕ) → IsGapAt bytes.now behind → prefix_len is_space behind ≡ 0 → IsSomeAnd result (λ b. b.now ≡ behind) }
{
    let Some((first, after)) = bytes.split_first() else {
        return None;
    };
    if !Blank.has(*first) {
        return None;
    }
    Some(behind_spaces(after))
}

/// What is behind the `=` at the front, round which white space may stand (XML 1.0 §2.8, Eq).
#[inline]
fn behind_equals<'a>(bytes: &'a [u8]) -> Option<&'a [u8]>
    ensures found { IfSome result (λ b. IsEqualsAt bytes.now b.now) }
    ensures all { (behind : List ℕ) → IsEqualsAt bytes.now behind → prefix_len is_space behind ≡ 0 → IsSomeAnd result (λ b. b.now ≡ behind) }
{
    let marked = behind_spaces(bytes);
    let Some((mark, after)) = marked.split_first() else {
        return None;
    };
    if *mark != b'=' {
        return None;
    }
    let behind = behind_spaces(after);
    Some(behind)
}

/// The attribute at the front, behind white space, where the parts of its name are plain and the bytes of its
/// value stand for themselves.
#[inline]
fn attribute_at<'a>(bytes: &'a [u8]) -> Option<AttributeAt<'a>>
    ensures found { IfSome result (λ a. IsAttributeAt bytes.now (named_by a.prefix.now a.local.now) a.value.now a.behind.now) }
    ensures all { (name : Spelled) (value behind : List ℕ) → IsAttributeAt bytes.now name value behind → IsSomeAnd result (λ a. a.behind.now ≡ behind) }
{
    let Some(named) = behind_gap(bytes) else {
        return None;
    };
    let Some(name) = name_at(named) else {
        return None;
    };
    let Some(quoted) = behind_equals(name.behind) else {
        return None;
    };
    let Some(ValueAt { value, behind }) = value_at(quoted) else {
        return None;
    };
    Some(AttributeAt {
        prefix: name.prefix,
        local: name.local,
        value,
        behind,
    })
}

/// Makes room for as many attributes as most tags have, where one stands at the front: behind the white space of
/// `<a />` there is none.
#[inline]
fn make_room(bytes: &[u8], found: &mut Vec<TagAttribute<'_>>) -> Result<(), AllocError>
    ensures { OnOk result (found.new.items ≡ found.old.items) }
{
    let Some(named) = behind_gap(bytes) else {
        return Ok(());
    };
    match named.first() {
        Some(b'/') => Ok(()),
        Some(b'>') => Ok(()),
        _ => found.reserve(USUAL),
    }
}

/// Appends the attributes and declarations at the front that stand there so, and answers how many bytes they have.
fn attributes_at<'a>(
    bytes: &'a [u8],
    found: &mut Vec<TagAttribute<'a>>,
) -> Result<usize, AllocError>
    requires { found.old.items ≡ [] }
    ensures within { IfOk result (λ n. n ≤ length bytes.now) }
    ensures are { IfOk result (λ n. AreGiven bytes.now (map tag_given found.new.items) (drop n bytes.now)) }
    ensures all { (attributes : List PlainAttribute) (last : List ℕ) → list_all is_plain_attribute attributes ≡ true → BeginsNoAttribute last → bytes.now ≡ flat_map plain_attribute_text attributes ++ last →
        IfOk result (λ n. n ≡ length (flat_map plain_attribute_text attributes)) }
{
    make_room(bytes, found)?;
    let mut left = bytes;
    while let Some(attribute) = attribute_at(left) {
        found.push(spelled(attribute.prefix, attribute.local, attribute.value))?;
        left = attribute.behind;
    }
    Ok(bytes.len() - left.len())
}

/// Whether the tag is that of an empty element.
#[inline]
fn is_empty_kind(kind: TagKind) -> bool
    ensures { result ≡ is_empty_kind kind }
{
    matches!(kind, TagKind::Empty)
}

/// The start tag at the front of bytes that are no more than a tag may have.
fn start_in<'a>(front: &'a [u8], alloc: Global) -> Result<Option<StartTag<'a>>, AllocError>
    requires { length front.now ≤ tag_limit }
    ensures found { IfOk result (λ o. IfSome o (λ tag. IsStartAt front.now (spelled_opening tag.prefix.now tag.name.now tag.attributes.items tag.is_empty) tag.bytes)) }
    ensures all { (tag : PlainStart) (rest : List ℕ) → is_plain_start tag ≡ true → front.now ≡ plain_start_text tag ++ rest →
        IfOk result (λ o. IsSomeAnd o (λ start. start.bytes ≡ length (plain_start_text tag))) }
{
    let Some((first, named)) = front.split_first() else {
        return Ok(None);
    };
    if *first != b'<' {
        return Ok(None);
    }
    let Some(name) = name_at(named) else {
        return Ok(None);
    };
    let mut attributes = Vec::new(alloc);
    let size = attributes_at(name.behind, &mut attributes)?;
    let (_, after) = name.behind.split_at(size);
    let last = behind_spaces(after);
    let Some(kind) = closing(last) else {
        return Ok(None);
    };
    Ok(Some(StartTag {
        ns: Namespace::none(),
        has_same_ns: false,
        prefix: name.prefix,
        name: name.local,
        attributes,
        is_empty: is_empty_kind(kind),
        bytes: named.len() - last.len() + mark_count(kind),
    }))
}

/// How many of so many bytes a tag may have.
#[inline]
fn within_limit(count: usize) -> usize
    ensures within { result ≤ count }
    ensures short { result ≤ tag_limit }
    ensures all { (n : ℕ) → n ≤ count → n ≤ tag_limit → n ≤ result }
{
    if count as u64 <= TAG_LIMIT {
        count
    } else {
        TAG_LIMIT as usize
    }
}

/// The start tag that stands whole at the front of the piece, where the parts of its names are plain and the bytes
/// of its values stand for themselves. Its names are not expanded, and its declarations are among its attributes,
/// which are in the order of the tag.
pub(crate) fn start_at<'a>(
    piece: &'a [u8],
    alloc: Global,
) -> Result<Option<StartTag<'a>>, AllocError>
    ensures found { IfOk result (λ o. IfSome o (λ tag. IsStartAt piece.now (spelled_opening tag.prefix.now tag.name.now tag.attributes.items tag.is_empty) tag.bytes)) }
    ensures all { (tag : PlainStart) (rest : List ℕ) → is_plain_start tag ≡ true → length (plain_start_text tag) ≤ tag_limit → piece.now ≡ plain_start_text tag ++ rest →
        IfOk result (λ o. IsSomeAnd o (λ start. start.bytes ≡ length (plain_start_text tag))) }
{
    let (front, _) = piece.split_at(within_limit(piece.len()));
    start_in(front, alloc)
}
