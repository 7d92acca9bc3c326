//! One block of bytes, to whose end short names are written by words.
ghost use Rattle.std.specs.Prelude.{◌≡◌, ◌+◌, ◌≤◌, ◌++◌, [], length, take, OnOk};

use lexical_core::put_bytes;
use std::alloc::{AllocError, Global};
use std::marker::Model;

/// Bytes, with room behind them. What stands in the room says nothing.
#[derive(Drop)]
pub(crate) struct NameBlock {
    room: Vec<u8>,
    used: usize,
}

impl Model for NameBlock {
    ghost use Rattle.std.specs.Prelude.{List, ℕ, ◌≤◌, take, length};

    ghost Value = { List ℕ };

    ghost view = { λ b. take b.used b.room.items };

    ghost invariant = { λ b. b.used ≤ length b.room.items };
}

impl NameBlock {
    /// No bytes. It takes no memory.
    pub(crate) fn new(alloc: Global) -> NameBlock
        ensures { result ≡ [] }
    {
        NameBlock {
            room: Vec::new(alloc),
            used: 0,
        }
    }

    /// How many bytes there are.
    #[inline]
    pub(crate) fn len(&self) -> usize
        ensures { result ≡ length self.now }
    {
        self.used
    }

    /// The bytes.
    #[inline]
    pub(crate) fn bytes(&self) -> &[u8]
        ensures { result.now ≡ self.now }
    {
        self.room.as_slice().split_at(self.used).0
    }

    /// Leaves so many bytes.
    #[inline]
    pub(crate) fn truncate(&mut self, count: usize)
        ensures { self.new ≡ take count self.old }
    {
        if count < self.used {
            self.used = count;
        }
    }

    /// Appends bytes.
    #[inline(always)]
    pub(crate) fn append(&mut self, more: &[u8]) -> Result<(), AllocError>
        ensures { OnOk result (self.new ≡ self.old ++ more.now) }
    {
        if self.room.len() - self.used < more.len() {
            lengthen(&mut self.room, self.used, more.len())?;
        }
        self.used = put_bytes(self.room.as_mut_slice(), self.used, more);
        Ok(())
    }
}

/// Makes room for more bytes behind those that are used.
#[inline(never)]
fn lengthen(room: &mut Vec<u8>, used: usize, more: usize) -> Result<(), AllocError>
    requires { used ≤ length room.old.items }
    ensures kept { take used room.new.items ≡ take used room.old.items }
    ensures grown { length room.old.items ≤ length room.new.items }
    ensures fits { OnOk result (used + more ≤ length room.new.items) }
{
    room.reserve(more)?;
    room.resize(room.capacity(), 0)
}
