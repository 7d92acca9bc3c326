//! The check of a leaf's text against a simple type, a character or a run of characters at a time: XML Schema part 2 §4.3.
ghost use Rattle.std.specs.Prelude.{◌≡◌, ◌+◌, ◌*◌, ◌≤◌, ◌++◌, ◌∷◌, [], ℕ, List, length, Some, IsOk, IfOk, OnOk, OnErr};
ghost use Rattle.lexical_core.specs.Characters.{IsXmlChar};
ghost use Rattle.lexical_core.specs.XmlRuns.{IsXmlRun};
ghost use Rattle.facets.specs.LeafUnder.{IsAnswer};
ghost use Rattle.facets.specs.declared.simple.Simple.{Simple as SimpleType};
ghost use Rattle.facets.specs.LeafChecks.{HasCheckTaken, IsCheckMadeFor, IsWithinLimits, IsHeldWithin, keep_limit, leaf_limit, check_kept, check_in_place, check_room, check_spare};

use crate::progress::Progress;
use crate::simple::Simple;
use data_types::{Kind, LeafRef};
use lexical_core::Rule;
use std::alloc::{AllocError, Global};

/// A check of the text of a leaf that takes a character or a run of characters at a time, and gives the leaf. Of a
/// text, or of a binary value, no more is kept than its greatest length or its longest code allows.
#[derive(Drop)]
pub struct LeafCheck {
    progress: Progress,
}

impl LeafCheck {
    /// A check for the simple type before the first character. It has fewer than 2^32 codes, and a total of at most 18
    /// where its kind is decimal.
    pub fn new(alloc: Global, simple: &Simple) -> Result<LeafCheck, AllocError>
        requires { IsWithinLimits simple.now }
        ensures { IfOk result (λ check. HasCheckTaken check simple.now []) }
    {
        Ok(LeafCheck {
            progress: Progress::new(alloc, simple, limit(simple))?,
        })
    }

    /// Makes room for so many more bytes. Whatever the answer, the check goes on as before.
    pub fn reserve(&mut self, bytes: usize) -> Result<(), AllocError>
        ensures ok { OnOk result (bytes ≤ check_spare self.new) }
        ensures taken { (simple : SimpleType) (text : List ℕ) → HasCheckTaken self.old simple text
            → HasCheckTaken self.new simple text }
        ensures room { check_room self.old ≤ check_room self.new }
        ensures kept { check_kept self.new ≡ check_kept self.old }
    {
        self.progress.reserve(bytes)
    }

    /// Makes the check as it was when it was new, with all its room as spare. It takes no memory.
    pub fn restart(&mut self, simple: &Simple)
        requires { IsCheckMadeFor self.old simple.now }
        ensures taken { HasCheckTaken self.new simple.now [] }
        ensures spare { check_spare self.new ≡ check_room self.old }
        ensures room { check_room self.new ≡ check_room self.old }
    {
        self.progress.restart(simple);
    }

    /// Takes a character. After want of memory all is as before. It takes no memory while its spare is at least 4.
    pub fn take(&mut self, simple: &Simple, c: char) -> Result<(), AllocError>
        requires char { IsXmlChar c }
        requires made { IsCheckMadeFor self.old simple.now }
        ensures ok { OnOk result ((text : List ℕ) → HasCheckTaken self.old simple.now text
            → HasCheckTaken self.new simple.now (text ++ c ∷ [])) }
        ensures err { OnErr result (self.new ≡ self.old) }
        ensures within { 4 ≤ check_spare self.old → IsOk result }
        ensures spare { check_spare self.old ≤ check_spare self.new + 4 }
        ensures room { check_room self.old ≤ check_room self.new }
    {
        self.progress.take(simple, c)
    }

    /// Takes a run of so many characters. After want of memory all is as before. It takes no memory while its spare
    /// is at least the bytes of the run and 3.
    pub fn take_run(&mut self, simple: &Simple, run: &[u8], count: usize) -> Result<(), AllocError>
        requires run { IsXmlRun run.now count }
        requires made { IsCheckMadeFor self.old simple.now }
        ensures ok { OnOk result ((r : IsXmlRun run.now count) (text : List ℕ) → HasCheckTaken self.old simple.now text
            → HasCheckTaken self.new simple.now (text ++ r.chars)) }
        ensures err { OnErr result (self.new ≡ self.old) }
        ensures within { length run.now + 3 ≤ check_spare self.old → IsOk result }
        ensures spare { check_spare self.old ≤ check_spare self.new + (length run.now + 3) }
        ensures room { check_room self.old ≤ check_room self.new }
    {
        self.progress.take_run(simple, run, count)
    }

    /// How many bytes are kept: at most four to each character, and no more than those within the limit.
    pub fn kept(&self) -> usize
        ensures count { result ≡ check_kept self.now }
        ensures chars { (simple : SimpleType) (text : List ℕ) → HasCheckTaken self.now simple text
            → result ≤ 4 * length text }
        ensures most { (simple : SimpleType) (text : List ℕ) (most : ℕ) → HasCheckTaken self.now simple text
            → keep_limit simple ≡ Some most → result ≤ 4 * most }
    {
        self.progress.kept()
    }

    /// How many bytes are held for the leaf, in memory and in place: at most four to each character within the
    /// limit, and 64.
    pub fn scratch(&self) -> u64
        ensures count { result ≡ check_kept self.now + check_in_place self.now }
        ensures bound { (simple : SimpleType) (text : List ℕ) → HasCheckTaken self.now simple text
            → IsHeldWithin (leaf_limit simple) (length text) result }
    {
        self.progress.kept() as u64 + self.progress.in_place() as u64
    }

    /// The leaf that the characters spell under the simple type, or the least rule that they break: `BadText` where
    /// they have not the form of the kind, `BadLength`, `PatternFails`, `NotACode`, `Digits`, `OutOfRange`. It takes
    /// no memory.
    pub fn finish(&self, simple: &Simple) -> Result<LeafRef<'_>, Rule>
        requires { IsCheckMadeFor self.now simple.now }
        ensures { (text : List ℕ) → HasCheckTaken self.now simple.now text → IsAnswer simple.now text result }
    {
        self.progress.leaf(simple)
    }
}

/// The most characters of a text, or octets of a binary value, that may be asked for.
fn limit(simple: &Simple) -> Option<u64>
    ensures { result ≡ keep_limit simple.now }
{
    match simple.kind {
        Kind::Text => match &simple.codes {
            Some(codes) => Some(codes.longest() as u64),
            None => simple.max,
        },
        Kind::Binary => simple.max,
        _ => None,
    }
}
