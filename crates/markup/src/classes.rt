//! Classes of bytes that runs are made of.
ghost use Rattle.std.specs.Prelude.{◌≡◌};
ghost use Rattle.markup.specs.Chars.{is_space};
ghost use Rattle.markup.specs.PlainStarts.{is_literal_of};
ghost use Rattle.markup.specs.Literals.{is_still_literal, is_still_space};
ghost use Rattle.markup.specs.PlainTags.{continues_plain};
ghost use Rattle.markup.specs.inner.Inside.{is_passed, passed_end};

use lexical_core::ByteClass;
use std::simd::prelude::*;

/// Characters of an element's text wherever a token begins there (XML 1.0 §2.4, §2.7, §2.11): a tab,
/// an LF, and those from 0x20 to 0x7F that are not `<`, `&` or `]`; a `>` where it ends no `]]>`.
pub(crate) struct StillLiteral;

impl ByteClass for StillLiteral {
    ghost class = { λ _. is_still_literal };

    #[inline]
    fn has(&self, byte: u8) -> bool {
        if byte >= 0x20 {
            byte <= 0x7F && byte != b'<' && byte != b'&' && byte != b']'
        } else {
            byte == b'\n' || byte == b'\t'
        }
    }

    #[inline]
    fn others(&self, bytes: u8x16) -> u64 {
        ((bytes - u8x16::splat(0x20)).simd_ge(u8x16::splat(0x60))
            & bytes.simd_ne(u8x16::splat(b'\t'))
            & bytes.simd_ne(u8x16::splat(b'\n'))
            | bytes.simd_eq(u8x16::splat(b'<'))
            | bytes.simd_eq(u8x16::splat(b'&'))
            | bytes.simd_eq(u8x16::splat(b']'))).to_bitmask()
    }

    #[inline]
    fn others_of_eight(&self, bytes: u8x8) -> u64 {
        ((bytes - u8x8::splat(0x20)).simd_ge(u8x8::splat(0x60))
            & bytes.simd_ne(u8x8::splat(b'\t'))
            & bytes.simd_ne(u8x8::splat(b'\n'))
            | bytes.simd_eq(u8x8::splat(b'<'))
            | bytes.simd_eq(u8x8::splat(b'&'))
            | bytes.simd_eq(u8x8::splat(b']'))).to_bitmask()
    }
}

/// White space (XML 1.0 §2.3, S).
pub(crate) struct Blank;

impl ByteClass for Blank {
    ghost class = { λ _. is_space };

    #[inline]
    #[tactic(auto, unfolding(crate::specs::Chars::is_space))]
    fn has(&self, byte: u8) -> bool {
        byte == b' ' || byte == b'\t' || byte == b'\n' || byte == b'\r'
    }

    #[inline]
    fn others(&self, bytes: u8x16) -> u64 {
        (bytes.simd_ne(u8x16::splat(b' '))
            & bytes.simd_ne(u8x16::splat(b'\t'))
            & bytes.simd_ne(u8x16::splat(b'\n'))
            & bytes.simd_ne(u8x16::splat(b'\r'))).to_bitmask()
    }

    #[inline]
    fn others_of_eight(&self, bytes: u8x8) -> u64 {
        (bytes.simd_ne(u8x8::splat(b' '))
            & bytes.simd_ne(u8x8::splat(b'\t'))
            & bytes.simd_ne(u8x8::splat(b'\n'))
            & bytes.simd_ne(u8x8::splat(b'\r'))).to_bitmask()
    }
}

/// White space that stands by itself: spaces, tabs and LFs, and no CR, which an LF may join
/// (XML 1.0 §2.3, S; §2.11).
pub(crate) struct StillBlank;

impl ByteClass for StillBlank {
    ghost class = { λ _. is_still_space };

    #[inline]
    #[tactic(auto, unfolding(crate::specs::Chars::is_space))]
    fn has(&self, byte: u8) -> bool {
        byte == b' ' || byte == b'\t' || byte == b'\n'
    }

    #[inline]
    fn others(&self, bytes: u8x16) -> u64 {
        (bytes.simd_ne(u8x16::splat(b' '))
            & bytes.simd_ne(u8x16::splat(b'\t'))
            & bytes.simd_ne(u8x16::splat(b'\n'))).to_bitmask()
    }

    #[inline]
    fn others_of_eight(&self, bytes: u8x8) -> u64 {
        (bytes.simd_ne(u8x8::splat(b' '))
            & bytes.simd_ne(u8x8::splat(b'\t'))
            & bytes.simd_ne(u8x8::splat(b'\n'))).to_bitmask()
    }
}

/// What a plain name goes on with: ASCII letters, digits, `-`, `.` and `_`.
pub(crate) struct PlainName;

impl ByteClass for PlainName {
    ghost class = { λ _. continues_plain };

    #[inline]
    fn has(&self, byte: u8) -> bool {
        byte.is_ascii_lowercase()
            || byte.is_ascii_uppercase()
            || byte == b'_'
            || byte.is_ascii_digit()
            || byte == b'-'
            || byte == b'.'
    }

    #[inline]
    fn others(&self, bytes: u8x16) -> u64 {
        (((bytes | u8x16::splat(0x20)) - u8x16::splat(b'a')).simd_ge(u8x16::splat(26))
            & (bytes - u8x16::splat(b'0')).simd_ge(u8x16::splat(10))
            & bytes.simd_ne(u8x16::splat(b'_'))
            & bytes.simd_ne(u8x16::splat(b'-'))
            & bytes.simd_ne(u8x16::splat(b'.'))).to_bitmask()
    }

    #[inline]
    fn others_of_eight(&self, bytes: u8x8) -> u64 {
        (((bytes | u8x8::splat(0x20)) - u8x8::splat(b'a')).simd_ge(u8x8::splat(26))
            & (bytes - u8x8::splat(b'0')).simd_ge(u8x8::splat(10))
            & bytes.simd_ne(u8x8::splat(b'_'))
            & bytes.simd_ne(u8x8::splat(b'-'))
            & bytes.simd_ne(u8x8::splat(b'.'))).to_bitmask()
    }
}

/// Bytes that stand for themselves in a value in double quotes, and neither end it nor begin a reference:
/// those from 0x20 to 0x7F that are not `<`, `&` or the quote (XML 1.0 §2.3, §3.3.3).
pub(crate) struct DoubleQuoted;

impl ByteClass for DoubleQuoted {
    ghost class = { λ _. is_literal_of 34 };

    #[inline]
    fn has(&self, byte: u8) -> bool {
        byte >= 0x20 && byte <= 0x7F && byte != b'<' && byte != b'&' && byte != b'"'
    }

    #[inline]
    fn others(&self, bytes: u8x16) -> u64 {
        ((bytes - u8x16::splat(0x20)).simd_ge(u8x16::splat(0x60))
            | bytes.simd_eq(u8x16::splat(b'<'))
            | bytes.simd_eq(u8x16::splat(b'&'))
            | bytes.simd_eq(u8x16::splat(b'"'))).to_bitmask()
    }

    #[inline]
    fn others_of_eight(&self, bytes: u8x8) -> u64 {
        ((bytes - u8x8::splat(0x20)).simd_ge(u8x8::splat(0x60))
            | bytes.simd_eq(u8x8::splat(b'<'))
            | bytes.simd_eq(u8x8::splat(b'&'))
            | bytes.simd_eq(u8x8::splat(b'"'))).to_bitmask()
    }
}

/// Bytes that stand for themselves in a value in single quotes, and neither end it nor begin a reference:
/// those from 0x20 to 0x7F that are not `<`, `&` or the quote (XML 1.0 §2.3, §3.3.3).
pub(crate) struct SingleQuoted;

impl ByteClass for SingleQuoted {
    ghost class = { λ _. is_literal_of 39 };

    #[inline]
    fn has(&self, byte: u8) -> bool {
        byte >= 0x20 && byte <= 0x7F && byte != b'<' && byte != b'&' && byte != b'\''
    }

    #[inline]
    fn others(&self, bytes: u8x16) -> u64 {
        ((bytes - u8x16::splat(0x20)).simd_ge(u8x16::splat(0x60))
            | bytes.simd_eq(u8x16::splat(b'<'))
            | bytes.simd_eq(u8x16::splat(b'&'))
            | bytes.simd_eq(u8x16::splat(b'\''))).to_bitmask()
    }

    #[inline]
    fn others_of_eight(&self, bytes: u8x8) -> u64 {
        ((bytes - u8x8::splat(0x20)).simd_ge(u8x8::splat(0x60))
            | bytes.simd_eq(u8x8::splat(b'<'))
            | bytes.simd_eq(u8x8::splat(b'&'))
            | bytes.simd_eq(u8x8::splat(b'\''))).to_bitmask()
    }
}

/// A comment or an instruction.
#[derive(Clone, Copy)]
pub(crate) enum Passed {
    Comment,
    Instruction,
}

impl Passed {
    /// What its end begins with (XML 1.0 §2.5, §2.6).
    #[inline]
    pub(crate) fn end(&self) -> u8
        ensures { result ≡ passed_end self.now }
    {
        match self {
            Passed::Comment => b'-',
            Passed::Instruction => b'?',
        }
    }
}

/// Its characters that do not begin its end: a tab, a line end, and those from 0x20 to 0x7F but one.
impl ByteClass for Passed {
    ghost class = { λ p. is_passed (passed_end p) };

    #[inline]
    fn has(&self, byte: u8) -> bool {
        if byte >= 0x20 {
            byte <= 0x7F && byte != self.end()
        } else {
            byte == b'\n' || byte == b'\t' || byte == b'\r'
        }
    }

    #[inline]
    fn others(&self, bytes: u8x16) -> u64 {
        ((bytes - u8x16::splat(0x20)).simd_ge(u8x16::splat(0x60))
            & bytes.simd_ne(u8x16::splat(b'\t'))
            & bytes.simd_ne(u8x16::splat(b'\n'))
            & bytes.simd_ne(u8x16::splat(b'\r'))
            | bytes.simd_eq(u8x16::splat(self.end()))).to_bitmask()
    }

    #[inline]
    fn others_of_eight(&self, bytes: u8x8) -> u64 {
        ((bytes - u8x8::splat(0x20)).simd_ge(u8x8::splat(0x60))
            & bytes.simd_ne(u8x8::splat(b'\t'))
            & bytes.simd_ne(u8x8::splat(b'\n'))
            & bytes.simd_ne(u8x8::splat(b'\r'))
            | bytes.simd_eq(u8x8::splat(self.end()))).to_bitmask()
    }
}
