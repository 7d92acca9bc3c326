//! Bytes that are kept as long as their size, in characters or octets, is within a limit.
ghost use Rattle.std.specs.Prelude.{◌≡◌, ◌+◌, ◌*◌, ◌^◌, ◌<◌, ◌≤◌, [], ◌++◌, length, Option, Some, List, ℕ, OnOk, OnErr, IsOk, IfSome, IfNone};
ghost use Rattle.data_types.specs.Limits.{IsWithin, IsPast};

use crate::kept_bytes::KeptBytes;
use std::alloc::{AllocError, Global};

/// Bytes that are kept as long as their size is within a limit, and else the fact that it is not.
#[derive(Drop)]
pub struct Kept {
    bytes: KeptBytes,
    most: Option<u64>,
    left: Option<u64>,
    longer: bool,
    ghost none: { most ≡ Some 0 → left ≡ Some 0 },
}

impl Kept {
    ghost use Rattle.data_types.specs.Kept.{Holds, kept_room};

    /// No bytes, of which there may be as many as have this size. It takes no memory.
    pub fn new(alloc: Global, most: Option<u64>) -> Kept
        ensures { Holds result most 0 [] }
    {
        Kept {
            bytes: KeptBytes::new(alloc),
            most,
            left: most,
            longer: false,
        }
    }

    /// Begins anew with the same limit and the memory that there is.
    pub fn restart(&mut self)
        ensures kept { (most : Option ℕ) (size : ℕ) (bytes : List ℕ) → Holds self.old most size bytes
            → Holds self.new most 0 [] }
        ensures held { self.new.bytes.held ≡ [] }
        ensures room { kept_room self.new ≡ kept_room self.old }
    {
        self.bytes.clear();
        self.left = self.most;
        self.longer = false;
    }

    /// Takes bytes of this size. After want of memory all is as before.
    #[inline]
    pub fn take(&mut self, bytes: &[u8], size: u64) -> Result<(), AllocError>
        requires { length bytes.now ≤ 4 * size }
        ensures ok { OnOk result ((most : Option ℕ) (before : ℕ) (all : List ℕ)
            → Holds self.old most before all → Holds self.new most (before + size) (all ++ bytes.now)) }
        ensures err { OnErr result (self.new ≡ self.old) }
        ensures within { length self.old.bytes.held + length bytes.now ≤ kept_room self.old → IsOk result }
        ensures room { kept_room self.old ≤ kept_room self.new }
        ensures count { length self.new.bytes.held ≤ length self.old.bytes.held + length bytes.now }
    {
        let Some(left) = self.left else {
            return self.bytes.extend(bytes);
        };
        if self.longer || left < size {
            self.longer = true;
            return Ok(());
        }
        self.bytes.extend(bytes)?;
        self.left = Some(left - size);
        Ok(())
    }

    /// Makes room for so many more bytes. Where none is kept there is room for any.
    pub fn reserve(&mut self, count: usize) -> Result<(), AllocError>
        ensures ok { OnOk result (length self.new.bytes.held + count ≤ kept_room self.new) }
        ensures err { OnErr result (self.new ≡ self.old) }
        ensures kept { (most : Option ℕ) (size : ℕ) (bytes : List ℕ) → Holds self.old most size bytes
            → Holds self.new most size bytes }
        ensures within { length self.old.bytes.held + count ≤ kept_room self.old → IsOk result }
        ensures room { kept_room self.old ≤ kept_room self.new }
        ensures held { self.new.bytes.held ≡ self.old.bytes.held }
    {
        if self.most == Some(0) {
            let _held = self.bytes.len(); // fewer than 2^63
            return Ok(());
        }
        self.bytes.reserve(count)
    }

    /// All of the bytes; `None` where their size is past the limit.
    pub fn whole(&self) -> Option<&[u8]>
        ensures some { IfSome result (λ kept. (most : Option ℕ) (size : ℕ) (bytes : List ℕ)
            → Holds self.now most size bytes → (kept.now ≡ bytes) × IsWithin most size) }
        ensures none { IfNone result ((most : Option ℕ) (size : ℕ) (bytes : List ℕ)
            → Holds self.now most size bytes → IsPast most size) }
    {
        if self.longer {
            return None;
        }
        Some(self.bytes.bytes())
    }

    /// How many bytes are kept.
    pub fn len(&self) -> usize
        ensures count { result ≡ length self.now.bytes.held }
        ensures small { result < 2 ^ 63 }
    {
        self.bytes.len()
    }
}
