//! Where bytes come from.
ghost use Rattle.std.specs.Prelude.{ℕ, Bool, ◌<◌, List, Option, length, IsTrue, IfOk};
ghost use Rattle.std.specs.Io.{ReadsAtMost};
ghost use Rattle.std.specs.Io.KnownBytes.{ReadConsumes};
ghost use Rattle.outside.specs.Source.{HasCause};

use super::errors::Failed;

/// Bytes that come from outside.
pub trait Source {
    /// The bytes that are left, where the source tells them.
    ghost left: { Self → Option (List ℕ) };

    /// How often the source has failed. It stands still at `u64::MAX`.
    ghost faults: { Self → ℕ };

    /// Whether it may be pulled. No clause says so of a source behind its end or behind a failure, so
    /// a function over any source pulls none again there.
    ghost may_be_pulled: { Self → Bool };

    /// Fills the front of `buf` with the next bytes and says how many. `Ok(0)` is the end, and comes
    /// only there. `Failed` comes only where the count of faults rose, and takes no bytes.
    fn pull(&mut self, buf: &mut [u8]) -> Result<usize, Failed>
        requires room { 0 < length buf.old }
        requires unended { IsTrue (may_be_pulled self.old) }
        ensures bound { ReadsAtMost result buf.new }
        ensures bytes { ReadConsumes (left self.old) (left self.new) result buf.new }
        ensures cause { HasCause (faults self.old) (faults self.new) result }
        ensures more { IfOk result (λ n. 0 < n → IsTrue (may_be_pulled self.new)) };
}
