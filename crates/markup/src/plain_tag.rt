//! Tags that stand whole at the front of a piece of the input.
ghost use Rattle.std.specs.Prelude.{◌≡◌, ◌==◌, ◌<◌, ◌≤◌, ◌+◌, ◌-◌, ◌∷◌, ◌++◌, List, ℕ, true, false, Some, length, take, drop, IfSome, IsSome, IsSomeAnd};
ghost use Rattle.std.specs.List.{prefix_len};
ghost use Rattle.markup.specs.Ascii.{slash, less_than, greater_than};
ghost use Rattle.markup.specs.Marks.{tag_limit, begins_with};
ghost use Rattle.markup.specs.declared.plain_tag.TagKind.{TagKind};
ghost use Rattle.markup.specs.declared.plain_tag.TagKind.TheVariants.{End};
ghost use Rattle.markup.specs.PlainTags.{begins_plain, continues_plain, is_plain_name, joined_text, tag_text, mark_count, may_be_named, IsTagAt, closing};

use crate::classes::PlainName;
use crate::tokenizer::TAG_LIMIT;
use lexical_core::{are_same, run_length};

/// What a tag does.
#[derive(Clone, Copy, Debug, PartialEq, Eq)]
pub enum TagKind {
    /// A start tag.
    Start,
    /// The tag of an empty element.
    Empty,
    /// An end tag.
    End,
}

/// A tag without attributes and white space.
#[derive(Clone, Copy)]
pub struct PlainTag<'a> {
    pub kind: TagKind,
    /// The prefix as it stands in the piece, empty where there is none.
    pub prefix: &'a [u8],
    /// The local name as it stands in the piece.
    pub name: &'a [u8],
    /// How many bytes the tag has.
    pub bytes: usize,
}

/// Whether a name may begin with the byte.
#[inline]
pub(crate) fn begins_plain(byte: u8) -> bool
    ensures { result ≡ begins_plain byte }
{
    byte.is_ascii_lowercase() || byte.is_ascii_uppercase() || byte == b'_'
}

/// How many bytes at the front of the piece a name may go on with.
#[inline]
pub(crate) fn name_length(piece: &[u8]) -> usize
    ensures within { result ≤ length piece.now }
    ensures count { result ≡ prefix_len continues_plain piece.now }
{
    run_length(&PlainName, piece)
}

/// The kind of start tag that ends with the bytes behind its name.
#[inline]
pub(crate) fn closing(behind: &[u8]) -> Option<TagKind>
    ensures { result ≡ closing behind.now }
{
    let Some((first, rest)) = behind.split_first() else {
        return None;
    };
    if *first == b'>' {
        return Some(TagKind::Start);
    }
    if *first != b'/' {
        return None;
    }
    let Some((second, _)) = rest.split_first() else {
        return None;
    };
    if *second == b'>' {
        Some(TagKind::Empty)
    } else {
        None
    }
}

/// How many bytes a tag has beside its name.
#[inline]
pub(crate) fn mark_count(kind: TagKind) -> usize
    ensures count { result ≡ mark_count kind }
    ensures few { result ≤ 3 }
{
    match kind {
        TagKind::Start => 2,
        TagKind::Empty => 3,
        TagKind::End => 3,
    }
}

/// The tag of the prefix and the local name, which have so many bytes together, where a tag may have as
/// many.
#[inline]
fn bounded<'a>(kind: TagKind, prefix: &'a [u8], name: &'a [u8], size: usize) -> Option<PlainTag<'a>>
    requires { size ≡ length (joined_text prefix.now name.now) }
    ensures tag { IfSome result (λ tag. (tag.kind ≡ kind) × (tag.prefix.now ≡ prefix.now) × (tag.name.now ≡ name.now) × (tag.bytes ≡ length (joined_text prefix.now name.now) + mark_count kind) × (tag.bytes ≤ tag_limit)) }
    ensures all { length (joined_text prefix.now name.now) + mark_count kind ≤ tag_limit → IsSome result }
{
    let marks = mark_count(kind);
    if size as u64 > TAG_LIMIT - marks as u64 {
        return None;
    }
    Some(PlainTag {
        kind,
        prefix,
        name,
        bytes: size + marks,
    })
}

/// How many bytes the prefix and its colon have at the front of bytes, 0 where they do not stand there.
#[inline(never)]
fn colon_size(bytes: &[u8], prefix: &[u8]) -> usize
    requires { (length prefix.now == 0) ≡ false }
    ensures within { result ≤ length bytes.now }
    ensures found { 0 < result → (take (result - 1) bytes.now ≡ prefix.now) × (bytes.now ≡ joined_text prefix.now (drop result bytes.now)) }
    ensures all { (local : List ℕ) → bytes.now ≡ joined_text prefix.now local → (0 < result) × (drop result bytes.now ≡ local) }
{
    if bytes.len() < prefix.len() {
        return 0;
    }
    let (front, rest) = bytes.split_at(prefix.len());
    if !are_same(front, prefix) {
        return 0;
    }
    let Some((mark, _)) = rest.split_first() else {
        return 0;
    };
    if *mark != b':' {
        return 0;
    }
    bytes.len() - rest.len() + 1
}

/// A prefix, and what stands behind its colon.
#[derive(Clone, Copy)]
struct BehindPrefix<'a> {
    prefix: &'a [u8],
    local: &'a [u8],
}

/// What is behind the prefix at the front of bytes, which may be empty and then has no colon.
#[inline]
fn behind_prefix<'a>(bytes: &'a [u8], prefix: &[u8]) -> Option<BehindPrefix<'a>>
    ensures found { IfSome result (λ b. (b.prefix.now ≡ prefix.now) × (bytes.now ≡ joined_text prefix.now b.local.now)) }
    ensures all { (local : List ℕ) → bytes.now ≡ joined_text prefix.now local → IsSomeAnd result (λ b. b.local.now ≡ local) }
{
    if prefix.is_empty() {
        return Some(BehindPrefix {
            prefix: &[],
            local: bytes,
        });
    }
    let size = colon_size(bytes, prefix);
    if size == 0 {
        return None;
    }
    let (found, _) = bytes.split_at(size - 1);
    let (_, local) = bytes.split_at(size);
    Some(BehindPrefix {
        prefix: found,
        local,
    })
}

/// The start tag of the prefix whose bytes stand behind a `<`.
#[inline]
fn start_tag<'a>(behind: &'a [u8], prefix: &[u8]) -> Option<PlainTag<'a>>
    ensures prefix { IfSome result (λ tag. tag.prefix.now ≡ prefix.now) }
    ensures only { (opened : List ℕ) → IfSome result (λ tag. IsTagAt (less_than ∷ behind.now) prefix.now opened tag.kind tag.name.now tag.bytes) }
    ensures all { (kind : TagKind) (name rest : List ℕ) → is_plain_name name ≡ true → behind.now ≡ joined_text prefix.now (name ++ rest) → closing rest ≡ Some kind → length (tag_text kind (joined_text prefix.now name)) ≤ tag_limit → IsSome result }
{
    let Some(named) = behind_prefix(behind, prefix) else {
        return None;
    };
    let Some((first, _)) = named.local.split_first() else {
        return None;
    };
    if !begins_plain(*first) {
        return None;
    }
    let (name, rest) = named.local.split_at(name_length(named.local));
    let Some(kind) = closing(rest) else {
        return None;
    };
    bounded(kind, named.prefix, name, behind.len() - rest.len())
}

/// The end tag of the prefix and the local name, whose bytes stand behind a `</`.
#[inline]
fn end_tag<'a>(behind: &'a [u8], prefix: &[u8], opened: &[u8]) -> Option<PlainTag<'a>>
    ensures prefix { IfSome result (λ tag. tag.prefix.now ≡ prefix.now) }
    ensures only { IfSome result (λ tag. IsTagAt (less_than ∷ slash ∷ behind.now) prefix.now opened.now tag.kind tag.name.now tag.bytes) }
    ensures all { (rest : List ℕ) → behind.now ≡ joined_text prefix.now (opened.now ++ greater_than ∷ rest) → length (tag_text End (joined_text prefix.now opened.now)) ≤ tag_limit → IsSome result }
{
    let Some(named) = behind_prefix(behind, prefix) else {
        return None;
    };
    if named.local.len() < opened.len() {
        return None;
    }
    let (name, rest) = named.local.split_at(opened.len());
    if !are_same(name, opened) {
        return None;
    }
    let Some((last, _)) = rest.split_first() else {
        return None;
    };
    if *last != b'>' {
        return None;
    }
    bounded(TagKind::End, named.prefix, name, behind.len() - rest.len())
}

/// The tag of the prefix at the front of the piece: a start tag, or the end tag of the local name.
#[inline]
pub(crate) fn tag_at<'a>(piece: &'a [u8], prefix: &[u8], opened: &[u8]) -> Option<PlainTag<'a>>
    ensures prefix { IfSome result (λ tag. tag.prefix.now ≡ prefix.now) }
    ensures only { IfSome result (λ tag. IsTagAt piece.now prefix.now opened.now tag.kind tag.name.now tag.bytes) }
    ensures all { (kind : TagKind) (name rest : List ℕ) → begins_with slash prefix.now ≡ false → may_be_named kind opened.now name → piece.now ≡ tag_text kind (joined_text prefix.now name) ++ rest → length (tag_text kind (joined_text prefix.now name)) ≤ tag_limit → IsSome result }
{
    let Some((first, behind)) = piece.split_first() else {
        return None;
    };
    if *first != b'<' {
        return None;
    }
    let Some((second, rest)) = behind.split_first() else {
        return None;
    };
    if *second == b'/' {
        end_tag(rest, prefix, opened)
    } else {
        start_tag(behind, prefix)
    }
}
