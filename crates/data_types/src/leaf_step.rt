//! The leaf that characters spell, taken one at a time: XML Schema part 2 §3.2.
ghost use Rattle.std.specs.Prelude.{◌≡◌, ◌+◌, ◌*◌, ◌^◌, ◌<◌, ◌≤◌, ◌++◌, ◌∷◌, [], length, Option, Some, List, ℕ, IsOk, OnOk, OnErr};
ghost use Rattle.lexical_core.specs.Characters.{IsXmlChar};
ghost use Rattle.lexical_core.specs.XmlRuns.{IsXmlRun};
ghost use Rattle.data_types.specs.Kept.{kept_room};
ghost use Rattle.data_types.specs.LeafAnswers.{IsLeafAnswer, IsOctetCount};
ghost use Rattle.data_types.specs.LeafSteps.{HasTakenLeaf, HasBody, IsText, kept_by_step, in_place, room, spare};

use crate::collapsed_step::CollapsedStep;
use crate::kept::Kept;
use crate::kind::Kind;
use crate::leaf::LeafRef;
use lexical_core::Rule;
use std::alloc::{AllocError, Global};

/// What is kept of the characters.
#[derive(Drop)]
enum Body {
    /// Of a text: as it is.
    Text(Kept),
    /// Of any other kind: with white space collapsed.
    Collapsed(CollapsedStep),
}

/// A reader of the text of a leaf that takes a character or a run of characters at a time. It takes memory for
/// the bytes of texts and the octets of binary values alone.
#[derive(Drop)]
pub struct LeafStep {
    kind: Kind,
    body: Body,
}

impl LeafStep {
    /// A reader for this kind before the first character. It takes no memory.
    pub fn new(alloc: Global, kind: Kind) -> LeafStep
        ensures { HasTakenLeaf result kind None [] }
    {
        LeafStep::limited(alloc, kind, None)
    }

    /// As `new`, and of a text longer than `most` characters, or a binary value longer than `most` octets,
    /// no more than these are kept.
    pub fn within(alloc: Global, kind: Kind, most: u64) -> LeafStep
        ensures { HasTakenLeaf result kind (Some most) [] }
    {
        LeafStep::limited(alloc, kind, Some(most))
    }

    /// As `new`, with the most characters or octets that are kept, where there is such a number.
    fn limited(alloc: Global, kind: Kind, most: Option<u64>) -> LeafStep
        ensures { HasTakenLeaf result kind most [] }
    {
        LeafStep {
            kind,
            body: Body::new(alloc, kind, most),
        }
    }

    /// Begins anew for the same kind and limit, with the memory that there is.
    pub fn restart(&mut self)
        ensures taken { (kind : Kind) (most : Option ℕ) (chars : List ℕ) → HasTakenLeaf self.old kind most chars
            → HasTakenLeaf self.new kind most [] }
        ensures spare { spare self.new ≡ room self.old }
        ensures room { room self.new ≡ room self.old }
    {
        match &mut self.body {
            Body::Text(text) => text.restart(),
            Body::Collapsed(step) => step.restart(),
        }
    }

    /// Makes room for so many more bytes of a text, or octets of a binary value. Whatever the answer, the
    /// reader goes on as before.
    pub fn reserve(&mut self, bytes: usize) -> Result<(), AllocError>
        ensures ok { OnOk result (bytes ≤ spare self.new) }
        ensures taken { (kind : Kind) (most : Option ℕ) (chars : List ℕ) → HasTakenLeaf self.old kind most chars
            → HasTakenLeaf self.new kind most chars }
        ensures room { room self.old ≤ room self.new }
        ensures kept { kept_by_step self.new ≡ kept_by_step self.old }
    {
        match &mut self.body {
            Body::Text(text) => text.reserve(bytes),
            Body::Collapsed(step) => step.reserve(bytes),
        }
    }

    /// Takes a character. After want of memory all is as before. Under a limit of 0 it takes no memory.
    pub fn take(&mut self, c: char) -> Result<(), AllocError>
        requires { IsXmlChar c }
        ensures ok { OnOk result ((kind : Kind) (most : Option ℕ) (chars : List ℕ)
            → HasTakenLeaf self.old kind most chars → HasTakenLeaf self.new kind most (chars ++ c ∷ [])) }
        ensures err { OnErr result (self.new ≡ self.old) }
        ensures within { 4 ≤ spare self.old → IsOk result }
        ensures none { (kind : Kind) (chars : List ℕ) → HasTakenLeaf self.old kind (Some 0) chars → IsOk result }
        ensures spare { spare self.old ≤ spare self.new + 4 }
        ensures room { room self.old ≤ room self.new }
    {
        match &mut self.body {
            Body::Text(text) => take_text(text, c),
            Body::Collapsed(step) => step.take(c),
        }
    }

    /// Takes a run of so many characters. After want of memory all is as before. It takes no memory while its
    /// spare is at least the bytes of the run and 3, and none under a limit of 0.
    pub fn take_run(&mut self, run: &[u8], count: usize) -> Result<(), AllocError>
        requires { IsXmlRun run.now count }
        ensures ok { OnOk result ((r : IsXmlRun run.now count) (kind : Kind) (most : Option ℕ) (chars : List ℕ)
            → HasTakenLeaf self.old kind most chars → HasTakenLeaf self.new kind most (chars ++ r.chars)) }
        ensures err { OnErr result (self.new ≡ self.old) }
        ensures within { length run.now + 3 ≤ spare self.old → IsOk result }
        ensures none { (kind : Kind) (chars : List ℕ) → HasTakenLeaf self.old kind (Some 0) chars → IsOk result }
        ensures spare { spare self.old ≤ spare self.new + (length run.now + 3) }
        ensures room { room self.old ≤ room self.new }
    {
        match &mut self.body {
            Body::Text(text) => take_text_run(text, run, count),
            Body::Collapsed(step) => step.take_run(run, count),
        }
    }

    /// How many bytes are kept: at most four to each character that was taken, and at most four to each
    /// character or octet that the limit allows.
    pub fn kept(&self) -> usize
        ensures count { result ≡ kept_by_step self.now }
        ensures small { result < 2 ^ 63 }
        ensures chars { (kind : Kind) (most : Option ℕ) (chars : List ℕ) → HasTakenLeaf self.now kind most chars
            → result ≤ 4 * length chars }
        ensures most { (kind : Kind) (most : ℕ) (chars : List ℕ)
            → HasTakenLeaf self.now kind (Some most) chars → result ≤ 4 * most }
    {
        match &self.body {
            Body::Text(text) => text.len(),
            Body::Collapsed(step) => step.kept(),
        }
    }

    /// How many bytes are held in place, in no memory of their own: those of a truth value, a date or a time, and of
    /// the group of a binary value that is begun.
    pub fn in_place(&self) -> usize
        ensures count { result ≡ in_place self.now }
        ensures few { result ≤ 35 }
    {
        match &self.body {
            Body::Text(_) => 0,
            Body::Collapsed(step) => step.in_place(),
        }
    }

    /// The leaf that the characters spell. `BadText` where they have not the form of the kind, `BadLength`
    /// where they spell a leaf that is longer than the limit, and `Digits` where they are a decimal of more
    /// than 18 digits or of more than 18 after the point. It takes no memory.
    #[inline(always)]
    pub fn finish(&self) -> Result<LeafRef<'_>, Rule>
        ensures { (kind : Kind) (most : Option ℕ) (chars : List ℕ) → HasTakenLeaf self.now kind most chars
            → IsLeafAnswer kind most chars result }
    {
        match &self.body {
            Body::Text(text) => text_leaf(text),
            Body::Collapsed(step) => step.finish(self.kind),
        }
    }

    /// How many octets the characters spell as a binary value, whatever the limit; `None` where `u64` has no such
    /// number. `BadText` where they spell none, and where the kind is another. It takes no memory.
    pub fn octet_count(&self) -> Result<Option<u64>, Rule>
        ensures { (kind : Kind) (most : Option ℕ) (chars : List ℕ) → HasTakenLeaf self.now kind most chars
            → IsOctetCount kind chars result }
    {
        match &self.body {
            Body::Text(_) => Err(Rule::BadText),
            Body::Collapsed(step) => step.octet_count(),
        }
    }
}

impl Body {
    /// What takes the characters of a leaf of the kind, before the first.
    fn new(alloc: Global, kind: Kind, most: Option<u64>) -> Body
        ensures { HasBody kind result most [] }
    {
        match kind {
            Kind::Text => Body::Text(Kept::new(alloc, most)),
            _ => Body::Collapsed(CollapsedStep::new(alloc, kind, most)),
        }
    }
}

/// Takes a character of a text.
fn take_text(text: &mut Kept, c: char) -> Result<(), AllocError>
    requires { IsXmlChar c }
    ensures ok { OnOk result ((most : Option ℕ) (chars : List ℕ) → IsText text.old most chars
        → IsText text.new most (chars ++ c ∷ [])) }
    ensures err { OnErr result (text.new ≡ text.old) }
    ensures within { length text.old.bytes.held + 4 ≤ kept_room text.old → IsOk result }
    ensures room { kept_room text.old ≤ kept_room text.new }
    ensures count { length text.new.bytes.held ≤ length text.old.bytes.held + 4 }
{
    if c.is_ascii() {
        return text.take(&[c as u8], 1);
    }
    text.take(c.encode_utf8(&mut [0; 4]).as_bytes(), 1)
}

/// Takes a run of characters of a text.
#[inline]
fn take_text_run(text: &mut Kept, run: &[u8], count: usize) -> Result<(), AllocError>
    requires { IsXmlRun run.now count }
    ensures ok { OnOk result ((r : IsXmlRun run.now count) (most : Option ℕ) (chars : List ℕ) → IsText text.old most chars
        → IsText text.new most (chars ++ r.chars)) }
    ensures err { OnErr result (text.new ≡ text.old) }
    ensures within { length text.old.bytes.held + length run.now ≤ kept_room text.old → IsOk result }
    ensures room { kept_room text.old ≤ kept_room text.new }
    ensures count { length text.new.bytes.held ≤ length text.old.bytes.held + length run.now }
{
    text.take(run, count as u64)
}

/// The leaf of a text's characters.
#[inline(always)]
fn text_leaf(text: &Kept) -> Result<LeafRef<'_>, Rule>
    ensures { (most : Option ℕ) (chars : List ℕ) → IsText text.now most chars
        → IsLeafAnswer Kind.Text most chars result }
{
    match text.whole() {
        Some(bytes) => Ok(LeafRef::Bytes(bytes)),
        None => Err(Rule::BadLength),
    }
}
