//! What judges the text of a leaf, a character or a run of characters at a time.
ghost use Rattle.std.specs.Prelude.{◌≡◌, ◌++◌, ◌∷◌, [], ℕ, List, length, IfOk, OnOk, OnErr};
ghost use Rattle.lexical_core.specs.Characters.{IsXmlChar};
ghost use Rattle.lexical_core.specs.XmlRuns.{IsXmlRun};
ghost use Rattle.facets.specs.declared.simple.Simple.{Simple as SimpleType};
ghost use Rattle.facets.specs.LeafChecks.{IsWithinLimits, IsHeldWithin, leaf_limit};
ghost use Rattle.facets.specs.LeafVerdicts.{IsFreeText};
ghost use Rattle.xml_instances.specs.Judges.{HasJudgeTaken, IsJudgeMadeFor, held_by_judge};
ghost use Rattle.xml_instances.specs.Verdicts.{IsVerdictJudge};

use facets::{LeafCheck, LeafVerdict, Simple};
use std::alloc::{AllocError, Global};

/// What judges the text of a leaf.
#[derive(Drop)]
pub(crate) enum Judge {
    /// A check that gives the leaf, and keeps its bytes.
    Check(LeafCheck),
    /// One that tells no more than whether there is a leaf. Of a text without codes it keeps no bytes.
    Verdict(LeafVerdict),
}

impl Judge {
    /// One that gives the leaf, before the first character.
    pub(crate) fn check(alloc: Global, simple: &Simple) -> Result<Judge, AllocError>
        requires { IsWithinLimits simple.now }
        ensures { IfOk result (λ judge. HasJudgeTaken judge simple.now []) }
    {
        Ok(Judge::Check(LeafCheck::new(alloc, simple)?))
    }

    /// One that tells no more than whether there is a leaf, before the first character.
    pub(crate) fn verdict(alloc: Global, simple: &Simple) -> Result<Judge, AllocError>
        requires { IsWithinLimits simple.now }
        ensures taken { IfOk result (λ judge. HasJudgeTaken judge simple.now []) }
        ensures verdict { IfOk result (λ judge. IsVerdictJudge judge) }
    {
        Ok(Judge::Verdict(LeafVerdict::new(alloc, simple)?))
    }

    /// Makes it as it was when it was new. It takes no memory.
    pub(crate) fn restart(&mut self, simple: &Simple)
        requires { IsJudgeMadeFor self.old simple.now }
        ensures taken { HasJudgeTaken self.new simple.now [] }
        ensures verdict { IsVerdictJudge self.old → IsVerdictJudge self.new }
    {
        match self {
            Judge::Check(check) => check.restart(simple),
            Judge::Verdict(verdict) => verdict.restart(simple),
        }
    }

    /// Takes a character. After want of memory all is as before.
    pub(crate) fn take(&mut self, simple: &Simple, c: char) -> Result<(), AllocError>
        requires char { IsXmlChar c }
        requires made { IsJudgeMadeFor self.old simple.now }
        ensures ok { OnOk result ((text : List ℕ) → HasJudgeTaken self.old simple.now text → HasJudgeTaken self.new simple.now (text ++ c ∷ [])) }
        ensures err { OnErr result (self.new ≡ self.old) }
        ensures verdict { IsVerdictJudge self.old → IsVerdictJudge self.new }
    {
        match self {
            Judge::Check(check) => check.take(simple, c),
            Judge::Verdict(verdict) => verdict.take(simple, c),
        }
    }

    /// Takes a run of so many characters. After want of memory all is as before.
    pub(crate) fn take_run(
        &mut self,
        simple: &Simple,
        run: &[u8],
        count: usize,
    ) -> Result<(), AllocError>
        requires run { IsXmlRun run.now count }
        requires made { IsJudgeMadeFor self.old simple.now }
        ensures ok { OnOk result ((r : IsXmlRun run.now count) (text : List ℕ) → HasJudgeTaken self.old simple.now text → HasJudgeTaken self.new simple.now (text ++ r.chars)) }
        ensures err { OnErr result (self.new ≡ self.old) }
        ensures verdict { IsVerdictJudge self.old → IsVerdictJudge self.new }
    {
        match self {
            Judge::Check(check) => check.take_run(simple, run, count),
            Judge::Verdict(verdict) => verdict.take_run(simple, run, count),
        }
    }

    /// How many bytes are held for the leaf: at most four to each character within its limit, and 64; by one that
    /// gives no leaf none of a text without codes.
    pub(crate) fn scratch(&self) -> u64
        ensures count { result ≡ held_by_judge self.now }
        ensures bound { (simple : SimpleType) (text : List ℕ) → HasJudgeTaken self.now simple text → IsHeldWithin (leaf_limit simple) (length text) result }
        ensures free { (simple : SimpleType) (text : List ℕ) → HasJudgeTaken self.now simple text → IsVerdictJudge self.now → IsFreeText simple → result ≡ 0 }
    {
        match self {
            Judge::Check(check) => check.scratch(),
            Judge::Verdict(verdict) => verdict.scratch(),
        }
    }
}
