//! A source over bytes that are lent.
ghost use Rattle.std.specs.Prelude.{◌≡◌, Some, true, ◌<◌, IsTrue, length, min, drop, Ok, IfOk};
ghost use Rattle.std.specs.Io.{ReadsAtMost};
ghost use Rattle.std.specs.Io.KnownBytes.{ReadConsumes};
ghost use Rattle.outside.specs.Source.{HasCause};

use super::errors::Failed;
use super::serve::serve;
use super::source::Source;
use std::marker::Model;

/// A source that gives bytes that are lent to it, and never fails.
#[derive(Drop)]
pub struct LentSource<'a> {
    bytes: &'a [u8],
    /// How many of them were given.
    given: usize,
}

impl<'a> Model for LentSource<'a> {
    ghost use Rattle.std.specs.Prelude.{◌≤◌, ℕ, List, drop, length};

    ghost Value = { List ℕ };

    ghost view = { λ s. drop s.given s.bytes.now };

    ghost invariant = { λ s. s.given ≤ length s.bytes.now };
}

impl<'a> LentSource<'a> {
    /// All of the bytes are left.
    pub fn new(bytes: &'a [u8]) -> LentSource<'a>
        ensures { result ≡ bytes.now }
    {
        LentSource { bytes, given: 0 }
    }
}

impl<'a> Source for LentSource<'a> {
    ghost left = { λ s. Some s };

    ghost faults = { λ _. 0 };

    ghost may_be_pulled = { λ _. true };

    fn pull(&mut self, buf: &mut [u8]) -> Result<usize, Failed>
        ensures bound { ReadsAtMost result buf.new }
        ensures bytes { ReadConsumes (Some self.old) (Some self.new) result buf.new }
        ensures cause { HasCause 0 0 result }
        ensures more { IfOk result (λ n. 0 < n → IsTrue true) }
        ensures count { result ≡ Ok (min (length self.old) (length buf.old)) }
        ensures behind { IfOk result (λ n. drop n buf.new ≡ drop n buf.old) }
    {
        let count = serve(self.bytes.split_at(self.given).1, usize::MAX, buf);
        self.given += count;
        Ok(count)
    }
}
