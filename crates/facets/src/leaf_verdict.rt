//! The check of a leaf's text that tells no more than whether it spells a leaf: XML Schema part 2 §4.3.
ghost use Rattle.std.specs.Prelude.{◌≡◌, ◌↔◌, ◌+◌, ◌≤◌, ◌++◌, ◌∷◌, [], ℕ, List, length, IsTrue, IsOk, IfOk, OnOk, OnErr};
ghost use Rattle.lexical_core.specs.Characters.{IsXmlChar};
ghost use Rattle.lexical_core.specs.XmlRuns.{IsXmlRun};
ghost use Rattle.data_types.specs.declared.kind.Kind.TheVariants as kind;
ghost use Rattle.data_types.specs.Leaf.{Leaf};
ghost use Rattle.facets.specs.declared.simple.Simple.{Simple as SimpleType};
ghost use Rattle.facets.specs.LeafChecks.{IsWithinLimits, IsHeldWithin, leaf_limit};
ghost use Rattle.facets.specs.LeafUnder.{GivesLeaf};
ghost use Rattle.facets.specs.LeafVerdicts.{HasVerdictTaken, IsVerdictMadeFor, IsVerdict, IsFreeText, verdict_limit, verdict_kept, verdict_in_place, verdict_room, verdict_spare};

use crate::progress::Progress;
use crate::simple::Simple;
use data_types::Kind;
use lexical_core::Rule;
use std::alloc::{AllocError, Global};

/// A check of the text of a leaf that takes a character or a run of characters at a time, and tells whether they
/// spell a leaf. It keeps the bytes of a text only where there are codes, and as many as the longest of them allows;
/// the octets of a binary value it counts, and keeps none.
#[derive(Drop)]
pub struct LeafVerdict {
    progress: Progress,
}

impl LeafVerdict {
    /// A check for the simple type before the first character. It has fewer than 2^32 codes, and a total of at most 18
    /// where its kind is decimal.
    pub fn new(alloc: Global, simple: &Simple) -> Result<LeafVerdict, AllocError>
        requires { IsWithinLimits simple.now }
        ensures { IfOk result (λ check. HasVerdictTaken check simple.now []) }
    {
        Ok(LeafVerdict {
            progress: Progress::new(alloc, simple, verdict_limit(simple))?,
        })
    }

    /// Makes room for so many more bytes. Whatever the answer, the check goes on as before.
    pub fn reserve(&mut self, bytes: usize) -> Result<(), AllocError>
        ensures ok { OnOk result (bytes ≤ verdict_spare self.new) }
        ensures taken { (simple : SimpleType) (text : List ℕ) → HasVerdictTaken self.old simple text
            → HasVerdictTaken self.new simple text }
        ensures room { verdict_room self.old ≤ verdict_room self.new }
        ensures kept { verdict_kept self.new ≡ verdict_kept self.old }
    {
        self.progress.reserve(bytes)
    }

    /// Makes the check as it was when it was new, with all its room as spare. It takes no memory.
    pub fn restart(&mut self, simple: &Simple)
        requires { IsVerdictMadeFor self.old simple.now }
        ensures taken { HasVerdictTaken self.new simple.now [] }
        ensures spare { verdict_spare self.new ≡ verdict_room self.old }
        ensures room { verdict_room self.new ≡ verdict_room self.old }
    {
        self.progress.restart(simple);
    }

    /// Takes a character. After want of memory all is as before. It takes no memory while its spare is at least 4,
    /// and none for a text without codes or a binary value.
    pub fn take(&mut self, simple: &Simple, c: char) -> Result<(), AllocError>
        requires char { IsXmlChar c }
        requires made { IsVerdictMadeFor self.old simple.now }
        ensures ok { OnOk result ((text : List ℕ) → HasVerdictTaken self.old simple.now text
            → HasVerdictTaken self.new simple.now (text ++ c ∷ [])) }
        ensures err { OnErr result (self.new ≡ self.old) }
        ensures within { 4 ≤ verdict_spare self.old → IsOk result }
        ensures free { IsFreeText simple.now → IsOk result }
        ensures binary { simple.now.kind ≡ kind.Binary → IsOk result }
        ensures spare { verdict_spare self.old ≤ verdict_spare self.new + 4 }
        ensures room { verdict_room self.old ≤ verdict_room self.new }
    {
        self.progress.take(simple, c)
    }

    /// Takes a run of so many characters. After want of memory all is as before. It takes no memory while its spare
    /// is at least the bytes of the run and 3, and none for a text without codes or a binary value.
    pub fn take_run(&mut self, simple: &Simple, run: &[u8], count: usize) -> Result<(), AllocError>
        requires run { IsXmlRun run.now count }
        requires made { IsVerdictMadeFor self.old simple.now }
        ensures ok { OnOk result ((r : IsXmlRun run.now count) (text : List ℕ) → HasVerdictTaken self.old simple.now text
            → HasVerdictTaken self.new simple.now (text ++ r.chars)) }
        ensures err { OnErr result (self.new ≡ self.old) }
        ensures within { length run.now + 3 ≤ verdict_spare self.old → IsOk result }
        ensures free { IsFreeText simple.now → IsOk result }
        ensures binary { simple.now.kind ≡ kind.Binary → IsOk result }
        ensures spare { verdict_spare self.old ≤ verdict_spare self.new + (length run.now + 3) }
        ensures room { verdict_room self.old ≤ verdict_room self.new }
    {
        self.progress.take_run(simple, run, count)
    }

    /// Whether it is known without a step that a run of so many characters spells a leaf of a text without codes. The check
    /// stays as it is; where the answer is false they may still spell one, and `take_run` and `finish` tell. It takes no
    /// memory.
    #[inline]
    pub fn knows(&self, simple: &Simple, run: &[u8], count: usize) -> bool
        requires run { IsXmlRun run.now count }
        requires free { IsFreeText simple.now }
        requires made { IsVerdictMadeFor self.now simple.now }
        ensures { (r : IsXmlRun run.now count) → IsTrue result → (leaf : Leaf) × GivesLeaf simple.now r.chars leaf }
    {
        self.progress.knows(simple, run, count)
    }

    /// How many bytes are held for the leaf, in memory and in place: at most four to each character within the
    /// limit, and 64; of a text without codes none, and of a binary value none in memory.
    pub fn scratch(&self) -> u64
        ensures count { result ≡ verdict_kept self.now + verdict_in_place self.now }
        ensures bound { (simple : SimpleType) (text : List ℕ) → HasVerdictTaken self.now simple text
            → IsHeldWithin (leaf_limit simple) (length text) result }
        ensures none { (simple : SimpleType) (text : List ℕ) → HasVerdictTaken self.now simple text → IsFreeText simple → verdict_kept self.now ≡ 0 }
        ensures free { (simple : SimpleType) (text : List ℕ) → HasVerdictTaken self.now simple text → IsFreeText simple → result ≡ 0 }
        ensures binary { (simple : SimpleType) (text : List ℕ) → HasVerdictTaken self.now simple text → simple.kind ≡ kind.Binary → verdict_kept self.now ≡ 0 }
    {
        self.progress.kept() as u64 + self.progress.in_place() as u64
    }

    /// Whether the characters spell a leaf under the simple type, or the least rule that they break, as
    /// `LeafCheck::finish`. It takes no memory.
    pub fn finish(&self, simple: &Simple) -> Result<(), Rule>
        requires { IsVerdictMadeFor self.now simple.now }
        ensures { (text : List ℕ) → HasVerdictTaken self.now simple.now text → IsVerdict simple.now text result }
    {
        if is_free_text(simple) {
            return self.progress.check_text(simple);
        }
        if simple.kind == Kind::Binary {
            return self.progress.check_binary(simple);
        }
        match self.progress.leaf(simple) {
            Ok(_) => Ok(()),
            Err(rule) => Err(rule),
        }
    }
}

/// Whether the simple type has texts without codes.
fn is_free_text(simple: &Simple) -> bool
    ensures { IsTrue result ↔ IsFreeText simple.now }
{
    simple.kind == Kind::Text && simple.codes.is_none()
}

/// The most characters of a text, or octets of a binary value, that are needed to tell whether it is a leaf.
fn verdict_limit(simple: &Simple) -> Option<u64>
    ensures { result ≡ verdict_limit simple.now }
{
    match simple.kind {
        Kind::Text => match &simple.codes {
            Some(codes) => Some(codes.longest() as u64),
            None => Some(0),
        },
        Kind::Binary => Some(0),
        _ => None,
    }
}
