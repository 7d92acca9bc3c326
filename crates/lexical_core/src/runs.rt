//! Runs of whole characters of XML at the front of bytes.
ghost use Rattle.std.specs.Prelude.{◌≤◌, ℕ, IfSome, IfNone, length, take};
ghost use Rattle.std.specs.List.{AllByRecursion};
ghost use Rattle.lexical_core.specs.Characters.{IsXmlText};
ghost use Rattle.lexical_core.specs.XmlRuns.{IsXmlRun, IsPlainXmlByte, is_plain_xml_byte, IsCharAt, BeginsNoChar};

use crate::lanes::{ByteClass, run_length};
use crate::utf8::Utf8Step;
use crate::xml_text::takes_xml_char;
use std::simd::prelude::*;

/// A run of whole characters: how many bytes they have, and how many they are.
#[derive(Clone, Copy, Debug, PartialEq, Eq)]
pub struct Run {
    pub bytes: usize,
    pub characters: usize,
}

/// The longest front of the bytes that is whole characters of XML (XML 1.0 §2.2), in UTF-8. Behind it stands
/// nothing, a byte that begins no character of XML, or a character that is not whole.
pub fn xml_run(bytes: &[u8]) -> Run
    ensures within { result.bytes ≤ length bytes.now }
    ensures run { IsXmlRun (take result.bytes bytes.now) result.characters }
    ensures longest { (n : ℕ) → n ≤ length bytes.now → IsXmlText (take n bytes.now) → n ≤ result.bytes }
{
    let mut count = 0_usize;
    let mut characters = 0_usize;
    let mut rest = bytes;
    loop {
        let plain = plain_count(rest);
        let (_, behind) = rest.split_at(plain);
        count += plain;
        characters += plain;
        let Some(size) = first_size(behind) else {
            return Run {
                bytes: count,
                characters,
            };
        };
        let (_, after) = behind.split_at(size);
        count += size;
        characters += 1;
        rest = after;
    }
}

/// The bytes that are characters of XML by themselves.
struct Plain;

impl ByteClass for Plain {
    ghost class = { λ _. is_plain_xml_byte };

    #[inline]
    fn has(&self, byte: u8) -> bool {
        matches!(byte, 0x20..=0x7F | b'\t'..=b'\n' | b'\r')
    }

    #[inline]
    fn others(&self, bytes: u8x16) -> u64 {
        ((bytes - u8x16::splat(0x20)).simd_ge(u8x16::splat(0x60))
            & bytes.simd_ne(u8x16::splat(b'\t'))
            & bytes.simd_ne(u8x16::splat(b'\n'))
            & bytes.simd_ne(u8x16::splat(b'\r'))).to_bitmask()
    }

    #[inline]
    fn others_of_eight(&self, bytes: u8x8) -> u64 {
        ((bytes - u8x8::splat(0x20)).simd_ge(u8x8::splat(0x60))
            & bytes.simd_ne(u8x8::splat(b'\t'))
            & bytes.simd_ne(u8x8::splat(b'\n'))
            & bytes.simd_ne(u8x8::splat(b'\r'))).to_bitmask()
    }
}

/// How many bytes at the front are characters of XML by themselves.
fn plain_count(piece: &[u8]) -> usize
    ensures within { result ≤ length piece.now }
    ensures plain { AllByRecursion IsPlainXmlByte (take result piece.now) }
{
    run_length(&Plain, piece)
}

/// How many bytes the character at the front has; `None` where no character of XML stands there whole.
fn first_size(piece: &[u8]) -> Option<usize>
    ensures some { IfSome result (λ n. IsCharAt piece.now n) }
    ensures none { IfNone result (BeginsNoChar piece.now) }
{
    let mut step = Utf8Step::new();
    for (at, byte) in piece.iter().enumerate() {
        if !takes_xml_char(&mut step, *byte) {
            return None;
        }
        if step.is_whole() {
            return Some(at + 1);
        }
    }
    None
}
