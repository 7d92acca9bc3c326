//! A run of characters, as a fragment spells it.
ghost use Rattle.std.specs.Prelude.{◌≡◌, ◌<◌, ◌≤◌, ◌++◌, codes, IfOk, OnOk, length, drop};
ghost use Rattle.respell.specs.inner.RunBytes.{stands_so, run_bytes};

use lexical_core::{ByteClass, Text, run_length};
use std::alloc::AllocError;
use std::simd::prelude::*;

/// The bytes of a run that stand for themselves: all do but `>` (XML 1.0 §2.4).
struct Standing;

impl ByteClass for Standing {
    ghost class = { λ _. stands_so };

    #[inline]
    fn has(&self, byte: u8) -> bool {
        byte != b'>'
    }

    #[inline]
    fn others(&self, bytes: u8x16) -> u64 {
        bytes.simd_eq(u8x16::splat(b'>')).to_bitmask()
    }

    #[inline]
    fn others_of_eight(&self, bytes: u8x8) -> u64 {
        bytes.simd_eq(u8x8::splat(b'>')).to_bitmask()
    }
}

/// Pushes the reference to `>`.
fn push_closer(text: &mut Text) -> Result<(), AllocError>
    ensures { OnOk result (text.new ≡ text.old ++ codes "&gt;") }
{
    text.extend(b"&gt;")
}

/// Pushes what stands before the first `>` of the bytes, and the reference to that one, and answers how many bytes
/// they are.
fn push_part(text: &mut Text, left: &[u8]) -> Result<usize, AllocError>
    requires { 0 < length left.now }
    ensures some { IfOk result (λ n. 0 < n) }
    ensures within { IfOk result (λ n. n ≤ length left.now) }
    ensures pushed { IfOk result (λ n. text.new ++ run_bytes (drop n left.now) ≡ text.old ++ run_bytes left.now) }
{
    let plain = run_length(&Standing, left);
    let (front, behind) = left.split_at(plain);
    text.extend(front)?;
    if behind.is_empty() {
        return Ok(plain);
    }
    push_closer(text)?;
    Ok(plain + 1)
}

/// Pushes a run of characters, with the reference to each `>` in its place.
pub(crate) fn push_run(text: &mut Text, run: &[u8]) -> Result<(), AllocError>
    ensures { OnOk result (text.new ≡ text.old ++ run_bytes run.now) }
{
    let mut left = run;
    while !left.is_empty() {
        let count = push_part(text, left)?;
        let (_, behind) = left.split_at(count);
        left = behind;
    }
    Ok(())
}
