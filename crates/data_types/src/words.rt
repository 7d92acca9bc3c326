//! How far white space goes, and how far a word: XML Schema part 2 §4.3.6.
ghost use Rattle.std.specs.Prelude.{◌≡◌, ◌+◌, ◌≤◌, ◌<◌, true, length, take, drop, slice_index};
ghost use Rattle.std.specs.List.{AllByRecursion};
ghost use Rattle.lexical_core.specs.Characters.{IsSpace};
ghost use Rattle.data_types.specs.inner.Words.{is_word_code};

use lexical_core::{ByteClass, is_space, run_length};
use std::simd::prelude::*;

/// The codes that are no white space.
struct WordCode;

impl ByteClass for WordCode {
    ghost class = { λ _. is_word_code };

    #[inline]
    fn has(&self, byte: u8) -> bool {
        byte != b' ' && byte != b'\t' && byte != b'\n' && byte != b'\r'
    }

    #[inline]
    fn others(&self, bytes: u8x16) -> u64 {
        (bytes.simd_eq(u8x16::splat(b' '))
            | bytes.simd_eq(u8x16::splat(b'\t'))
            | bytes.simd_eq(u8x16::splat(b'\n'))
            | bytes.simd_eq(u8x16::splat(b'\r'))).to_bitmask()
    }

    #[inline]
    fn others_of_eight(&self, bytes: u8x8) -> u64 {
        (bytes.simd_eq(u8x8::splat(b' '))
            | bytes.simd_eq(u8x8::splat(b'\t'))
            | bytes.simd_eq(u8x8::splat(b'\n'))
            | bytes.simd_eq(u8x8::splat(b'\r'))).to_bitmask()
    }
}

/// How many codes at the front are white space.
#[inline]
pub fn space_count(codes: &[u8]) -> usize
    ensures within { result ≤ length codes.now }
    ensures spaces { AllByRecursion IsSpace (take result codes.now) }
    ensures rest { result < length codes.now → IsSpace (slice_index codes.now result) → ⊥ }
{
    for (at, code) in codes.iter().enumerate() {
        if !is_space(*code as char) {
            return at;
        }
    }
    codes.len()
}

/// How many codes at the front are no white space.
#[inline]
pub fn word_count(codes: &[u8]) -> usize
    ensures within { result ≤ length codes.now }
    ensures word { AllByRecursion (λ c. IsSpace c → ⊥) (take result codes.now) }
    ensures some { 0 < length codes.now → (IsSpace (slice_index codes.now 0) → ⊥) → 0 < result }
{
    run_length(&WordCode, codes)
}

/// Whether codes are no white space, by their first and their last ones, which may overlap. Of very few or of many codes it
/// need not tell.
#[inline(always)]
pub(crate) fn is_short_word(codes: &[u8]) -> bool
    ensures { result ≡ true → AllByRecursion (λ c. IsSpace c → ⊥) codes.now }
{
    let length = codes.len();
    if length < 4 || length > 32 {
        false
    } else if length < 8 {
        are_ends_above(codes, length - 4)
    } else if length < 16 {
        are_long_ends_above(codes, length - 8)
    } else {
        are_longer_ends_above(codes, length - 16)
    }
}

/// Whether the first four codes and the last four are above white space.
#[inline(always)]
fn are_ends_above(codes: &[u8], last: usize) -> bool
    requires length { length codes.now ≡ last + 4 }
    requires last { last ≤ 4 }
    ensures { result ≡ true → AllByRecursion (λ c. IsSpace c → ⊥) codes.now }
{
    are_four_above(codes, 0) && are_four_above(codes, last)
}

/// The same by eight codes.
#[inline(always)]
fn are_long_ends_above(codes: &[u8], last: usize) -> bool
    requires length { length codes.now ≡ last + 8 }
    requires last { last ≤ 8 }
    ensures { result ≡ true → AllByRecursion (λ c. IsSpace c → ⊥) codes.now }
{
    are_eight_above(codes, 0) && are_eight_above(codes, last)
}

/// The same by sixteen codes.
#[inline(always)]
fn are_longer_ends_above(codes: &[u8], last: usize) -> bool
    requires length { length codes.now ≡ last + 16 }
    requires last { last ≤ 16 }
    ensures { result ≡ true → AllByRecursion (λ c. IsSpace c → ⊥) codes.now }
{
    are_sixteen_above(codes, 0) && are_sixteen_above(codes, last)
}

/// Whether the four codes from the place on are above white space.
#[inline(always)]
fn are_four_above(codes: &[u8], at: usize) -> bool
    requires { at + 4 ≤ length codes.now }
    ensures { result ≡ true → AllByRecursion (λ c. IsSpace c → ⊥) (take 4 (drop at codes.now)) }
{
    u8x4::from_slice(&codes[at..])
        .simd_le(u8x4::splat(b' '))
        .to_bitmask()
        == 0
}

/// Whether the eight codes from the place on are above white space.
#[inline(always)]
fn are_eight_above(codes: &[u8], at: usize) -> bool
    requires { at + 8 ≤ length codes.now }
    ensures { result ≡ true → AllByRecursion (λ c. IsSpace c → ⊥) (take 8 (drop at codes.now)) }
{
    u8x8::from_slice(&codes[at..])
        .simd_le(u8x8::splat(b' '))
        .to_bitmask()
        == 0
}

/// Whether the sixteen codes from the place on are above white space.
#[inline(always)]
fn are_sixteen_above(codes: &[u8], at: usize) -> bool
    requires { at + 16 ≤ length codes.now }
    ensures { result ≡ true → AllByRecursion (λ c. IsSpace c → ⊥) (take 16 (drop at codes.now)) }
{
    u8x16::from_slice(&codes[at..])
        .simd_le(u8x16::splat(b' '))
        .to_bitmask()
        == 0
}
