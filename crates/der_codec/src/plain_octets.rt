//! Octets that are characters by themselves, as those of most texts are: RFC 3629 §3, XML 1.0 §2.2.
ghost use Rattle.std.specs.Prelude.{length, IsTrue};
ghost use Rattle.lexical_core.specs.XmlRuns.{IsXmlRun};
ghost use Rattle.der_codec.specs.inner.PlainOctets.{is_plain_octet};

use lexical_core::{ByteClass, run_length};
use std::simd::prelude::*;

/// The octets that are characters of XML by themselves, from U+0020 to U+007F.
struct Plain;

impl ByteClass for Plain {
    ghost class = { λ _. is_plain_octet };

    #[inline]
    fn has(&self, byte: u8) -> bool {
        matches!(byte, 0x20..=0x7F)
    }

    #[inline]
    fn others(&self, bytes: u8x16) -> u64 {
        (bytes - u8x16::splat(0x20))
            .simd_ge(u8x16::splat(0x60))
            .to_bitmask()
    }

    #[inline]
    fn others_of_eight(&self, bytes: u8x8) -> u64 {
        (bytes - u8x8::splat(0x20))
            .simd_ge(u8x8::splat(0x60))
            .to_bitmask()
    }
}

/// Whether each octet is a character by itself, from U+0020 to U+007F.
#[inline(always)]
pub(crate) fn are_plain(octets: &[u8]) -> bool
    ensures { IsTrue result → IsXmlRun octets.now (length octets.now) }
{
    run_length(&Plain, octets) == octets.len()
}
