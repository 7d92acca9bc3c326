//! Runs of bytes of one class, found sixteen at a time.
ghost use Rattle.std.specs.Prelude.{◌≡◌, ◌+◌, ◌≤◌, ℕ, Bool, not, map, length, drop};
ghost use Rattle.std.specs.List.{prefix_len};
ghost use Rattle.std.specs.Simd.Lanes.{mask_l};

use std::simd::prelude::*;

/// A class of bytes, which can be told of many at once.
pub trait ByteClass {
    ghost class: { Self → ℕ → Bool };

    /// Whether the byte is in the class.
    fn has(&self, byte: u8) -> bool
        ensures { result ≡ class self.now byte };

    /// Which of the bytes are not in it: a bit for each, the first byte's the lowest.
    fn others(&self, bytes: u8x16) -> u64
        ensures { result ≡ mask_l (map (λ byte. not (class self.now byte)) bytes) };

    /// The same, of eight bytes.
    fn others_of_eight(&self, bytes: u8x8) -> u64
        ensures { result ≡ mask_l (map (λ byte. not (class self.now byte)) bytes) };
}

/// How many bytes at the front are in the class.
#[inline]
pub fn run_length<C: ByteClass>(class: &C, bytes: &[u8]) -> usize
    ensures count { result ≡ prefix_len (C.class class.now) bytes.now }
    ensures within { result ≤ length bytes.now }
{
    let mut at = 0_usize;
    while bytes.len() - at >= 16 {
        let others = class.others(u8x16::from_slice(&bytes[at..]));
        if others != 0 {
            return at + others.trailing_zeros() as usize;
        }
        at += 16;
    }
    short_end(class, bytes, at)
}

/// Where the run goes to from the place on, which is followed by fewer than sixteen bytes.
fn short_end<C: ByteClass>(class: &C, bytes: &[u8], at: usize) -> usize
    requires { at ≤ length bytes.now }
    ensures count { result ≡ at + prefix_len (C.class class.now) (drop at bytes.now) }
    ensures within { result ≤ length bytes.now }
{
    if bytes.len() - at < 8 {
        return end_by_one(class, bytes, at);
    }
    let others = class.others_of_eight(u8x8::from_slice(&bytes[at..]));
    if others != 0 {
        return at + others.trailing_zeros() as usize;
    }
    end_by_one(class, bytes, at + 8)
}

/// The same, a byte at a time.
fn end_by_one<C: ByteClass>(class: &C, bytes: &[u8], from: usize) -> usize
    requires { from ≤ length bytes.now }
    ensures count { result ≡ from + prefix_len (C.class class.now) (drop from bytes.now) }
    ensures within { result ≤ length bytes.now }
{
    let mut at = from;
    while at < bytes.len() && class.has(bytes[at]) {
        at += 1;
    }
    at
}
