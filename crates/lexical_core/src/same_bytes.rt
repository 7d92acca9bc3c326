//! Whether two runs of bytes are the same, by words: quick on short ones, as names and tags are.
ghost use Rattle.std.specs.Prelude.{◌≡◌, ◌≤◌, ◌+◌, length, take, drop};
ghost use Rattle.std.specs.Bool.{Decides};
ghost use Rattle.std.specs.Str.{bytes_eq};

use std::simd::Simd;
use std::simd::prelude::*;

/// Whether the bytes are the same. Those of at most sixteen bytes are compared by two words, which may overlap.
#[inline(always)]
pub fn are_same(left: &[u8], right: &[u8]) -> bool
    ensures { result ≡ bytes_eq left.now right.now }
{
    let length = left.len();
    if length != right.len() {
        return false;
    }
    if length < 4 {
        are_same_by_one(left, right)
    } else if length < 8 {
        are_ends_same::<4>(left, right)
    } else if length <= 16 {
        are_ends_same::<8>(left, right)
    } else {
        are_long_same(left, right)
    }
}

/// The same, of any length.
#[inline(never)]
fn are_long_same(left: &[u8], right: &[u8]) -> bool
    ensures { result ≡ bytes_eq left.now right.now }
{
    left == right
}

/// The same, by the first bytes and the last ones, which may overlap.
#[inline(always)]
fn are_ends_same<const N: usize>(left: &[u8], right: &[u8]) -> bool
    requires lengths { length left.now ≡ length right.now }
    requires covers { (N ≤ length left.now) × (length left.now ≤ N + N) × (N ≤ 64) }
    ensures { Decides result (left.now ≡ right.now) }
{
    are_words_same::<N>(left, right, 0) && are_words_same::<N>(left, right, left.len() - N)
}

/// Whether the bytes of the words from the place on are the same.
#[inline(always)]
fn are_words_same<const N: usize>(left: &[u8], right: &[u8], at: usize) -> bool
    requires left { at + N ≤ length left.now }
    requires right { at + N ≤ length right.now }
    requires few { N ≤ 64 }
    ensures { Decides result (take N (drop at left.now) ≡ take N (drop at right.now)) }
{
    Simd::<u8, N>::from_slice(&left[at..]) == Simd::<u8, N>::from_slice(&right[at..])
}

/// The same, a byte at a time.
#[inline(always)]
fn are_same_by_one(left: &[u8], right: &[u8]) -> bool
    requires { length left.now ≡ length right.now }
    ensures { Decides result (left.now ≡ right.now) }
{
    for at in 0..left.len() {
        if left[at] != right[at] {
            return false;
        }
    }
    true
}
