//! Fragments told from other bytes, which come in pieces or at once.
ghost use Rattle.std.specs.Prelude.{◌≡◌, ◌+◌, ◌*◌, ◌<◌, ◌≤◌, ◌^◌, ◌↔◌, ℕ, List, [], ◌++◌, IsTrue, IfOk, length};
ghost use Rattle.lexical_core.specs.Tree.{Tree};
ghost use Rattle.fragments.specs.Plain.{IsPlain};
ghost use Rattle.fragments.specs.Fragment.{fragment};
ghost use Rattle.respell.specs.FragmentChecks.{HasTakenBytes, fragment_held, open_token_length};

use crate::fragment_reader::FragmentReader;
use std::alloc::{AllocError, Global};

/// Whether bytes that come in pieces are the canonical fragment of some element. Of the bytes it holds those of the tag,
/// the reference or the character that is open where the last piece ended, and nothing once no fragment begins with them.
#[derive(Drop)]
pub struct FragmentCheck {
    alloc: Global,
    /// How many bytes have come.
    place: u64,
    /// What has read the bytes so far; none where no fragment begins with them.
    reading: Option<FragmentReader>,
    /// The last of them, which are not compared with what is written of their events.
    waiting: Vec<u8>,
}

impl FragmentCheck {
    /// Nothing has come. It takes no memory.
    pub fn new(alloc: Global) -> FragmentCheck
        ensures taken { HasTakenBytes result [] }
        ensures none { fragment_held result ≡ 0 }
    {
        FragmentCheck {
            alloc,
            place: 0,
            reading: Some(FragmentReader::new(alloc)),
            waiting: Vec::new(alloc),
        }
    }

    /// Takes the next bytes; all must be fewer than 2^40. Behind want of memory it is of no more use.
    pub fn take(&mut self, bytes: &[u8]) -> Result<(), AllocError>
        requires { (before : List ℕ) × HasTakenBytes self.old before × (length before + length bytes.now < 2 ^ 40) }
        ensures { (before : List ℕ) → HasTakenBytes self.old before → IfOk result (λ _. HasTakenBytes self.new (before ++ bytes.now)) }
    {
        self.place += bytes.len() as u64;
        let goes_on = match &mut self.reading {
            Some(reader) => reader.read(&mut self.waiting, bytes)?,
            None => true,
        };
        if !goes_on {
            self.let_go();
        }
        Ok(())
    }

    /// Holds nothing any more, since no fragment begins with the bytes.
    fn let_go(&mut self)
        ensures reading { self.new.reading ≡ None }
        ensures waiting { self.new.waiting.items ≡ [] }
        ensures place { self.new.place ≡ self.old.place }
    {
        self.reading = None;
        self.waiting = Vec::new(self.alloc);
    }

    /// How many bytes are held of the open tag. It takes no memory.
    pub fn held(&self) -> u64
        ensures count { (bytes : List ℕ) → HasTakenBytes self.now bytes → length bytes < 2 ^ 40 → result ≡ fragment_held self.now }
        ensures bound { (bytes : List ℕ) → HasTakenBytes self.now bytes → length bytes < 2 ^ 40 → result ≤ 2 * length bytes }
        ensures within { (bytes : List ℕ) → HasTakenBytes self.now bytes → length bytes < 2 ^ 40 → result ≤ 2 * open_token_length self.now }
    {
        match &self.reading {
            Some(reader) => (self.waiting.len() as u64).saturating_add(reader.token()),
            None => 0,
        }
    }

    /// Whether the bytes are the canonical fragment of some element. It takes no memory.
    pub fn finish(&mut self) -> bool
        ensures { (bytes : List ℕ) → HasTakenBytes self.old bytes → IsTrue result ↔ ((t : Tree) × IsPlain t × (fragment t ≡ bytes)) }
    {
        match &mut self.reading {
            Some(reader) => reader.finish(self.waiting.as_slice()),
            None => false,
        }
    }
}

/// Whether the bytes are the canonical fragment of some element. They are read, written again, and compared as they come,
/// so that no more text is kept than one tag's, or 4,096 bytes of a run of characters. A tag may have any length.
pub fn is_fragment(alloc: Global, bytes: &[u8]) -> Result<bool, AllocError>
    requires { length bytes.now < 2 ^ 40 }
    ensures { IfOk result (λ b. IsTrue b ↔ ((t : Tree) × IsPlain t × (fragment t ≡ bytes.now))) }
{
    let mut check = FragmentCheck::new(alloc);
    check.take(bytes)?;
    Ok(check.finish())
}
