//! Whole comments and instructions and the ends of CDATA sections at the front of a piece (XML 1.0 §2.5, §2.6, §2.7).
ghost use Rattle.std.specs.Prelude.{◌≡◌, ◌++◌, ℕ, List, IfSome, IsSome, true, false};
ghost use Rattle.std.specs.List.{list_all};
ghost use Rattle.markup.specs.Ascii.{is_ascii};
ghost use Rattle.markup.specs.Asides.{is_aside_in, is_plain_aside};
ghost use Rattle.markup.specs.Token.{Token, Comment, is_comment, token_bytes};
ghost use Rattle.markup.specs.inner.AsideTexts.{IsAsideAt};

use crate::classes::Passed;
use crate::instructions::instruction_size;
use crate::passed_texts::text_size;
use crate::references::begins_with;
use crate::scan::Ended;

/// A token that tells only that something is skipped.
#[derive(Clone, Copy)]
pub(crate) struct Aside {
    /// How it ended.
    pub(crate) ended: Ended,
    /// How many bytes it has.
    pub(crate) bytes: usize,
}

/// The comment that stands whole at the front of the piece.
#[inline]
fn comment_at(piece: &[u8]) -> Option<Aside>
    ensures only { IfSome result (λ a. IsAsideAt false piece.now a.ended a.bytes) }
    ensures all { (text rest : List ℕ) → is_comment text ≡ true → list_all is_ascii text ≡ true → piece.now ≡ token_bytes (Comment text) ++ rest → IsSome result }
{
    if !begins_with(piece, b"<!--") {
        return None;
    }
    let (_, text) = piece.split_at(4);
    match text_size(Passed::Comment, text) {
        Some(size) => Some(Aside {
            ended: Ended::Passed,
            bytes: size + 4,
        }),
        None => None,
    }
}

/// The comment, the instruction or the beginning of a CDATA section that stands whole at the front of the piece.
#[inline]
fn aside_outside(piece: &[u8]) -> Option<Aside>
    ensures only { IfSome result (λ a. IsAsideAt false piece.now a.ended a.bytes) }
    ensures all { (t : Token) (rest : List ℕ) → is_aside_in false t ≡ true → is_plain_aside t ≡ true → piece.now ≡ token_bytes t ++ rest → IsSome result }
{
    if begins_with(piece, b"<![CDATA[") {
        return Some(Aside {
            ended: Ended::Opener,
            bytes: 9,
        });
    }
    match instruction_size(piece) {
        Some(bytes) => Some(Aside {
            ended: Ended::Passed,
            bytes,
        }),
        None => comment_at(piece),
    }
}

/// The end of a CDATA section that stands whole at the front of the piece.
#[inline]
fn closer_at(piece: &[u8]) -> Option<Aside>
    ensures only { IfSome result (λ a. IsAsideAt true piece.now a.ended a.bytes) }
    ensures all { (t : Token) (rest : List ℕ) → is_aside_in true t ≡ true → piece.now ≡ token_bytes t ++ rest → IsSome result }
{
    if begins_with(piece, b"]]>") {
        return Some(Aside {
            ended: Ended::Closer,
            bytes: 3,
        });
    }
    None
}

/// The token at the front of the piece that stands whole there and tells only that something is skipped, in a CDATA section
/// or outside.
pub(crate) fn aside_at(is_in_cdata: bool, piece: &[u8]) -> Option<Aside>
    ensures only { IfSome result (λ a. IsAsideAt is_in_cdata piece.now a.ended a.bytes) }
    ensures all { (t : Token) (rest : List ℕ) → is_aside_in is_in_cdata t ≡ true → is_plain_aside t ≡ true → piece.now ≡ token_bytes t ++ rest → IsSome result }
{
    if is_in_cdata {
        closer_at(piece)
    } else {
        aside_outside(piece)
    }
}
