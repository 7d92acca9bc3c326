//! What is known of the characters of a leaf so far, as its simple type asks: XML Schema part 2 §4.3.
ghost use Rattle.std.specs.Prelude.{◌≡◌, ◌+◌, ◌*◌, ◌^◌, ◌<◌, ◌≤◌, ◌++◌, ◌∷◌, [], ℕ, List, Option, length, Some, None, IsOk, IfOk, IfSome, IfNone, OnOk, OnErr, IsTrue};
ghost use Rattle.std.specs.List.{AllByRecursion};
ghost use Rattle.lexical_core.specs.Characters.{IsXmlChar};
ghost use Rattle.lexical_core.specs.XmlRuns.{IsXmlRun};
ghost use Rattle.data_types.specs.declared.kind.Kind.TheVariants as kind;
ghost use Rattle.data_types.specs.LeafAnswers.{leaf_of};
ghost use Rattle.data_types.specs.LeafSteps.{HasTakenLeaf, IsShortKind, kept_by_step as kept_by, in_place as in_place_of, room as room_of, spare as spare_of};
ghost use Rattle.facets.specs.LeafUnder.{IsAnswer};
ghost use Rattle.facets.specs.CodeLists.{longest_of};
ghost use Rattle.facets.specs.LeafChecks.{IsCodeAnswer, IsByteCode, IsMeasuredKind, IsMeasureAnswer, IsTextAnswer, HasSeen, IsWithinLimits, keep_limit};
ghost use Rattle.facets.specs.LeafVerdicts.{IsVerdict};
ghost use Rattle.facets.specs.Facets.{HasLength};
ghost use Rattle.facets.specs.Rules.{BreaksPattern};
ghost use Rattle.facets.specs.declared.simple.Simple.{Simple as SimpleType};

use crate::asked::Asked;
use crate::codes::Codes;
use crate::count::Count;
use crate::digits::check_number;
use crate::lengths::{check_count, check_octets, has_length};
use crate::simple::Simple;
use data_types::{Kind, LeafRef, LeafStep, RunChars, run_chars};
use lexical_core::Rule;
use std::alloc::{AllocError, Global};

/// What is kept, counted and asked of the characters so far.
#[derive(Drop)]
pub(crate) struct Progress {
    step: LeafStep,
    count: Count,
    asked: Asked,
}

impl Progress {
    /// Before the first character; of a text, or of a binary value, no more is kept than the limit allows.
    pub(crate) fn new(
        alloc: Global,
        simple: &Simple,
        most: Option<u64>,
    ) -> Result<Progress, AllocError>
        requires { IsWithinLimits simple.now }
        ensures { IfOk result (λ progress. HasSeen progress most simple.now []) }
    {
        Ok(Progress {
            step: step_for(alloc, simple.kind, most),
            count: Count::new(),
            asked: Asked::new(alloc, simple)?,
        })
    }

    /// Makes room for so many more bytes.
    pub(crate) fn reserve(&mut self, bytes: usize) -> Result<(), AllocError>
        ensures ok { OnOk result (bytes ≤ spare_of self.new.step) }
        ensures taken { (simple : SimpleType) (most : Option ℕ) (text : List ℕ)
            → HasSeen self.old most simple text → HasSeen self.new most simple text }
        ensures room { room_of self.old.step ≤ room_of self.new.step }
        ensures kept { kept_by self.new.step ≡ kept_by self.old.step }
    {
        self.step.reserve(bytes)
    }

    /// Begins anew, with all its room as spare. It takes no memory.
    pub(crate) fn restart(&mut self, simple: &Simple)
        requires { (most : Option ℕ) × (text : List ℕ) × HasSeen self.old most simple.now text }
        ensures taken { (most : Option ℕ) (text : List ℕ)
            → HasSeen self.old most simple.now text → HasSeen self.new most simple.now [] }
        ensures spare { spare_of self.new.step ≡ room_of self.old.step }
        ensures room { room_of self.new.step ≡ room_of self.old.step }
    {
        self.step.restart();
        self.count = Count::new();
        self.asked.restart(simple);
    }

    /// Takes a character. After want of memory all is as before.
    pub(crate) fn take(&mut self, simple: &Simple, c: char) -> Result<(), AllocError>
        requires char { IsXmlChar c }
        requires made { (most : Option ℕ) × (text : List ℕ) × HasSeen self.old most simple.now text }
        ensures ok { OnOk result ((most : Option ℕ) (text : List ℕ) → HasSeen self.old most simple.now text
            → HasSeen self.new most simple.now (text ++ c ∷ [])) }
        ensures err { OnErr result (self.new ≡ self.old) }
        ensures within { 4 ≤ spare_of self.old.step → IsOk result }
        ensures none { (text : List ℕ) → HasSeen self.old (Some 0) simple.now text → IsOk result }
        ensures spare { spare_of self.old.step ≤ spare_of self.new.step + 4 }
        ensures room { room_of self.old.step ≤ room_of self.new.step }
    {
        self.step.take(c)?;
        self.count.add(1);
        self.asked.follow(simple, self.count, c);
        Ok(())
    }

    /// Takes a run of so many characters. After want of memory all is as before.
    pub(crate) fn take_run(
        &mut self,
        simple: &Simple,
        run: &[u8],
        count: usize,
    ) -> Result<(), AllocError>
        requires run { IsXmlRun run.now count }
        requires made { (most : Option ℕ) × (text : List ℕ) × HasSeen self.old most simple.now text }
        ensures ok { OnOk result ((r : IsXmlRun run.now count) (most : Option ℕ) (text : List ℕ)
            → HasSeen self.old most simple.now text → HasSeen self.new most simple.now (text ++ r.chars)) }
        ensures err { OnErr result (self.new ≡ self.old) }
        ensures within { length run.now + 3 ≤ spare_of self.old.step → IsOk result }
        ensures none { (text : List ℕ) → HasSeen self.old (Some 0) simple.now text → IsOk result }
        ensures spare { spare_of self.old.step ≤ spare_of self.new.step + (length run.now + 3) }
        ensures room { room_of self.old.step ≤ room_of self.new.step }
    {
        self.step.take_run(run, count)?;
        self.count.add(count as u64);
        self.asked.follow_run(simple, self.count, run, count);
        Ok(())
    }

    /// How many bytes are kept in memory.
    pub(crate) fn kept(&self) -> usize
        ensures count { result ≡ kept_by self.now.step }
        ensures small { result < 2 ^ 63 }
        ensures chars { (simple : SimpleType) (most : Option ℕ) (text : List ℕ)
            → HasSeen self.now most simple text → result ≤ 4 * length text }
        ensures most { (simple : SimpleType) (most : ℕ) (text : List ℕ)
            → HasSeen self.now (Some most) simple text → result ≤ 4 * most }
    {
        self.step.kept()
    }

    /// How many bytes are held in place.
    pub(crate) fn in_place(&self) -> usize
        ensures count { result ≡ in_place_of self.now.step }
        ensures few { result ≤ 35 }
    {
        self.step.in_place()
    }

    /// The leaf that the characters spell under the simple type, or the least rule that they break, where what was
    /// kept is within the limit of the simple type.
    pub(crate) fn leaf(&self, simple: &Simple) -> Result<LeafRef<'_>, Rule>
        requires { (text : List ℕ) × HasSeen self.now (keep_limit simple.now) simple.now text }
        ensures { (text : List ℕ) → HasSeen self.now (keep_limit simple.now) simple.now text → IsAnswer simple.now text result }
    {
        match simple.kind {
            Kind::Text => self.text_leaf(simple),
            Kind::Decimal | Kind::Binary => self.measured_leaf(simple),
            _ => self.short_leaf(simple),
        }
    }

    /// The answer where the kind is text.
    fn text_leaf(&self, simple: &Simple) -> Result<LeafRef<'_>, Rule>
        requires kind { simple.now.kind ≡ kind.Text }
        requires made { (text : List ℕ) × HasSeen self.now (keep_limit simple.now) simple.now text }
        ensures { (text : List ℕ) → HasSeen self.now (keep_limit simple.now) simple.now text → IsAnswer simple.now text result }
    {
        if let Some(codes) = &simple.codes {
            return self.code(codes);
        }
        match self.check_text(simple) {
            Ok(()) => self.step.finish(),
            Err(rule) => Err(rule),
        }
    }

    /// Whether a text without codes has its length and its pattern, or the first rule that it breaks.
    pub(crate) fn check_text(&self, simple: &Simple) -> Result<(), Rule>
        requires kind { simple.now.kind ≡ kind.Text }
        requires codes { simple.now.codes ≡ None }
        requires made { (most : Option ℕ) × (text : List ℕ) × HasSeen self.now most simple.now text }
        ensures { (most : Option ℕ) (text : List ℕ) → HasSeen self.now most simple.now text → IsTextAnswer simple.now text result }
    {
        if !self.count.is_length(simple) {
            return Err(Rule::BadLength);
        }
        if !self.asked.accepts(simple) {
            return Err(Rule::PatternFails);
        }
        Ok(())
    }

    /// Whether it is known without a step that a run of so many characters has the length and the pattern of a text without
    /// codes. Where it is false nothing is known.
    #[inline]
    pub(crate) fn knows(&self, simple: &Simple, run: &[u8], count: usize) -> bool
        requires run { IsXmlRun run.now count }
        requires made { (most : Option ℕ) × (text : List ℕ) × HasSeen self.now most simple.now text }
        ensures { (r : IsXmlRun run.now count) → IsTrue result → HasLength simple.now (length r.chars) × (BreaksPattern simple.now r.chars → ⊥) }
    {
        if !has_length(simple, count as u64) {
            return false;
        }
        match run_chars(run, count) {
            RunChars::Codes(codes) => self.asked.knows(simple, codes),
            RunChars::Text(_) => false,
        }
    }

    /// Whether a binary value has its form and its length, or the first rule that it breaks. Of its octets none need
    /// be kept.
    pub(crate) fn check_binary(&self, simple: &Simple) -> Result<(), Rule>
        requires { simple.now.kind ≡ kind.Binary }
        ensures { (most : Option ℕ) (text : List ℕ) → HasSeen self.now most simple.now text → IsVerdict simple.now text result }
    {
        match self.step.octet_count() {
            Ok(count) => check_count(simple, count),
            Err(rule) => Err(rule),
        }
    }

    /// The place of the text among the codes.
    fn code(&self, codes: &Codes) -> Result<LeafRef<'_>, Rule>
        requires { length codes.now < 2 ^ 32 }
        ensures { (text : List ℕ) → AllByRecursion IsXmlChar text
            → HasTakenLeaf self.now.step kind.Text (Some (longest_of codes.now)) text → IsCodeAnswer codes.now text result }
    {
        match self.step.finish() {
            Ok(leaf) => match place_of(codes, &leaf) {
                Some(place) => Ok(LeafRef::Code(place)),
                None => Err(Rule::NotACode),
            },
            Err(_) => Err(Rule::NotACode), // longer than each code
        }
    }

    /// The answer where the kind is decimal or binary.
    fn measured_leaf(&self, simple: &Simple) -> Result<LeafRef<'_>, Rule>
        requires made { (text : List ℕ) × HasSeen self.now (keep_limit simple.now) simple.now text }
        ensures { (text : List ℕ) → IsMeasuredKind simple.now.kind → HasSeen self.now (keep_limit simple.now) simple.now text
            → IsAnswer simple.now text result }
    {
        match self.step.finish() {
            Ok(leaf) => match check_leaf(simple, &leaf) {
                Ok(()) => Ok(leaf),
                Err(rule) => Err(rule),
            },
            Err(rule) => Err(rule),
        }
    }

    /// The answer where the kind is one of truth values, dates or times.
    fn short_leaf(&self, simple: &Simple) -> Result<LeafRef<'_>, Rule>
        requires { (text : List ℕ) × HasSeen self.now (keep_limit simple.now) simple.now text }
        ensures { (text : List ℕ) → IsShortKind simple.now.kind → HasSeen self.now (keep_limit simple.now) simple.now text
            → IsAnswer simple.now text result }
    {
        match self.step.finish() {
            Ok(leaf) => {
                if self.asked.accepts(simple) {
                    Ok(leaf)
                } else {
                    Err(Rule::PatternFails)
                }
            }
            Err(rule) => Err(rule),
        }
    }
}

/// The place of a text among the codes, counted from 0; `None` where it is none of them.
fn place_of(codes: &Codes, leaf: &LeafRef<'_>) -> Option<u32>
    requires { length codes.now < 2 ^ 32 }
    ensures some { IfSome result (λ at. IsByteCode codes.now at (leaf_of leaf.now)) }
    ensures none { IfNone result ((at : ℕ) → IsByteCode codes.now at (leaf_of leaf.now) → ⊥) }
{
    match leaf {
        LeafRef::Bytes(text) => match codes.place(text) {
            Some(at) => Some(at as u32),
            None => None,
        },
        LeafRef::Number(_) | LeafRef::Flag(_) | LeafRef::Code(_) => None,
    }
}

/// Whether a number has the digits of the simple type and is within its bounds, and a binary value has its length.
fn check_leaf(simple: &Simple, leaf: &LeafRef<'_>) -> Result<(), Rule>
    ensures { IsMeasureAnswer simple.now (leaf_of leaf.now) result }
{
    match leaf {
        LeafRef::Number(number) => check_number(simple, *number),
        LeafRef::Bytes(octets) => check_octets(simple, octets.len() as u64),
        LeafRef::Flag(_) | LeafRef::Code(_) => Ok(()),
    }
}

/// A reader of the text of a leaf that keeps no more than this.
fn step_for(alloc: Global, kind: Kind, most: Option<u64>) -> LeafStep
    ensures { HasTakenLeaf result kind most [] }
{
    match most {
        Some(most) => LeafStep::within(alloc, kind, most),
        None => LeafStep::new(alloc, kind),
    }
}
