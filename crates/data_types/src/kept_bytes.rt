//! Bytes that are kept in memory, with the room that there is for more.
ghost use Rattle.std.specs.Prelude.{◌≡◌, ◌+◌, ◌≤◌, ◌<◌, ◌^◌, [], ◌∷◌, ◌++◌, length, OnOk, OnErr, IsOk};

use std::alloc::{AllocError, Global};
use std::marker::Model;

/// Bytes that grow at their end.
#[derive(Drop)]
pub struct KeptBytes {
    bytes: Vec<u8>,
}

impl Model for KeptBytes {
    ghost use Rattle.std.specs.Prelude.{vec_capacity};
    ghost use Rattle.data_types.specs.KeptBytes.{BytesWithRoom};

    ghost Value = { BytesWithRoom };

    ghost view = { λ b. record { held = b.bytes.items; room = vec_capacity b.bytes } };
}

impl KeptBytes {
    /// No bytes. It takes no memory.
    pub fn new(alloc: Global) -> KeptBytes
        ensures { result.held ≡ [] }
    {
        KeptBytes {
            bytes: Vec::new(alloc),
        }
    }

    /// Appends the bytes: one alone, as most are, by a way of its own. After want of memory all is as before.
    #[inline]
    pub fn extend(&mut self, bytes: &[u8]) -> Result<(), AllocError>
        ensures ok { OnOk result (self.new.held ≡ self.old.held ++ bytes.now) }
        ensures err { OnErr result (self.new ≡ self.old) }
        ensures within { length self.old.held + length bytes.now ≤ self.old.room → IsOk result }
        ensures none { length bytes.now ≡ 0 → IsOk result }
        ensures room { self.old.room ≤ self.new.room }
    {
        if bytes.len() == 1 {
            return self.push(bytes[0]);
        }
        self.bytes.reserve(bytes.len())?;
        match self.bytes.extend_from_slice(bytes) {
            Ok(()) => Ok(()),
            Err(_) => unreachable!(),
        }
    }

    /// Appends a byte. After want of memory all is as before.
    #[inline]
    fn push(&mut self, byte: u8) -> Result<(), AllocError>
        ensures ok { OnOk result (self.new.held ≡ self.old.held ++ byte ∷ []) }
        ensures err { OnErr result (self.new ≡ self.old) }
        ensures within { length self.old.held + 1 ≤ self.old.room → IsOk result }
        ensures room { self.old.room ≤ self.new.room }
    {
        self.bytes.reserve(1)?;
        match self.bytes.push(byte) {
            Ok(()) => Ok(()),
            Err(_) => unreachable!(),
        }
    }

    /// Makes room for so many more bytes.
    pub fn reserve(&mut self, count: usize) -> Result<(), AllocError>
        ensures ok { OnOk result (length self.new.held + count ≤ self.new.room) }
        ensures err { OnErr result (self.new ≡ self.old) }
        ensures within { length self.old.held + count ≤ self.old.room → IsOk result }
        ensures room { self.old.room ≤ self.new.room }
        ensures held { self.new.held ≡ self.old.held }
    {
        self.bytes.reserve(count)
    }

    /// Drops the bytes, and keeps the room.
    pub fn clear(&mut self)
        ensures held { self.new.held ≡ [] }
        ensures room { self.new.room ≡ self.old.room }
    {
        self.bytes.clear();
    }

    /// The bytes.
    pub fn bytes(&self) -> &[u8]
        ensures { result.now ≡ self.now.held }
    {
        self.bytes.as_slice()
    }

    /// How many bytes there are.
    pub fn len(&self) -> usize
        ensures count { result ≡ length self.now.held }
        ensures small { result < 2 ^ 63 }
    {
        self.bytes.as_slice().len()
    }
}
