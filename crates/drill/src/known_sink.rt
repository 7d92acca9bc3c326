//! A sink of bytes that are known before they come.
ghost use Rattle.std.specs.Prelude.{◌≡◌, ◌+◌, ◌<◌, ◌≤◌, ◌++◌, ◌↔◌, Some, [], length, take, IsTrue};

use outside::{Sink, SinkError, append};
use std::alloc::Global;
use std::marker::Model;

/// A sink that compares its bytes with a text as they come, and keeps none as long as they are those of the text. It never
/// answers `Failed`.
#[derive(Drop)]
pub(crate) struct KnownSink<'a> {
    text: &'a [u8],
    /// How many of its first bytes came.
    count: usize,
    /// The bytes that came from the first push on that was of others.
    others: Vec<u8>,
}

impl<'a> Model for KnownSink<'a> {
    ghost use Rattle.std.specs.Prelude.{◌≤◌, ◌++◌, ℕ, List, length, take};

    ghost Value = { List ℕ };

    ghost view = { λ s. take s.count s.text.now ++ s.others.items };

    ghost invariant = { λ s. s.count ≤ length s.text.now };
}

impl<'a> KnownSink<'a> {
    /// An empty sink that is to get this text.
    pub(crate) fn new(alloc: Global, text: &'a [u8]) -> KnownSink<'a>
        ensures { result ≡ [] }
    {
        KnownSink {
            text,
            count: 0,
            others: Vec::new(alloc),
        }
    }

    /// Whether it holds this text.
    pub(crate) fn holds(&self, text: &[u8]) -> bool
        ensures { IsTrue result ↔ (self.now ≡ text.now) }
    {
        are_parts(
            text,
            self.text.split_at(self.count).0,
            self.others.as_slice(),
        )
    }
}

impl<'a> Sink for KnownSink<'a> {
    ghost held = { λ s. Some s };

    ghost faults = { λ _. 0 };

    ghost room = { λ _. 0 };

    fn push(&mut self, bytes: &[u8]) -> Result<(), SinkError> {
        if come_next(self.text, self.count, self.others.as_slice(), bytes) {
            self.count += bytes.len();
            return Ok(());
        }
        append(&mut self.others, bytes)
    }
}

/// Whether the text is made of the two parts.
fn are_parts(text: &[u8], front: &[u8], behind: &[u8]) -> bool
    ensures { IsTrue result ↔ (front.now ++ behind.now ≡ text.now) }
{
    match text.strip_prefix(front) {
        Some(rest) => rest == behind,
        None => false,
    }
}

/// Whether the bytes are the next of the text behind its first, where no others came.
fn come_next(text: &[u8], count: usize, others: &[u8], bytes: &[u8]) -> bool
    requires { count ≤ length text.now }
    ensures within { IsTrue result → count + length bytes.now ≤ length text.now }
    ensures next { IsTrue result → take (count + length bytes.now) text.now ++ others.now ≡ (take count text.now ++ others.now) ++ bytes.now }
{
    others.is_empty() && text.split_at(count).1.starts_with(bytes)
}
