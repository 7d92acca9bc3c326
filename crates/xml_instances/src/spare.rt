//! Checks of leaves that are kept for the next leaf of their type.
ghost use Rattle.std.specs.Prelude.{◌≡◌, ◌<◌, [], ℕ, Some, IfSome, length};
ghost use Rattle.facets.specs.declared.simple.Simple.{Simple as SimpleType};
ghost use Rattle.reference_check.specs.Forms.{Graph, text_type};
ghost use Rattle.xml_instances.specs.Judges.{HasJudgeTaken, IsJudgeMadeFor};
ghost use Rattle.xml_instances.specs.Open.{AreKept, IsUnusedAt};
ghost use Rattle.xml_instances.specs.Verdicts.{IsVerdictJudge, IsGivenVerdict, AreVerdicts};

use crate::judge::Judge;
use facets::Simple;
use std::alloc::Global;

/// Checks by the number of their type, none of which holds a character.
#[derive(Drop)]
pub(crate) struct Checks {
    entries: Vec<Option<Box<Judge>>>,
}

impl Checks {
    /// No check. It takes no memory.
    pub(crate) fn new(alloc: Global) -> Checks
        ensures kept { (types : Graph ℕ SimpleType) → AreKept types result }
        ensures lean { AreVerdicts result }
        ensures none { result.entries.items ≡ [] }
    {
        Checks {
            entries: Vec::new(alloc),
        }
    }

    /// Takes the check of the type away; `None` where there is none.
    pub(crate) fn take(&mut self, number: u32) -> Option<Box<Judge>>
        ensures kept { (types : Graph ℕ SimpleType) → AreKept types self.old → AreKept types self.new }
        ensures unused { (types : Graph ℕ SimpleType) (simple : SimpleType) → AreKept types self.old → text_type (types number) ≡ Some simple → IfSome result (λ check. HasJudgeTaken check.value simple []) }
        ensures lean { AreVerdicts self.old → AreVerdicts self.new }
        ensures verdict { AreVerdicts self.old → IsGivenVerdict result }
    {
        let at = number as usize;
        if at < self.entries.len() {
            self.entries[at].take()
        } else {
            None
        }
    }

    /// Keeps a check of the type, which begins anew, unless there is no memory for it.
    pub(crate) fn keep(&mut self, number: u32, simple: &Simple, mut check: Box<Judge>)
        requires { IsJudgeMadeFor check.value simple.now }
        ensures kept { (types : Graph ℕ SimpleType) → AreKept types self.old → text_type (types number) ≡ Some simple.now → AreKept types self.new }
        ensures lean { AreVerdicts self.old → IsVerdictJudge check.value → AreVerdicts self.new }
    {
        check.restart(simple);
        if (number as usize) < self.entries.len() {
            self.put(number, check);
            return;
        }
        if !self.grow(number) {
            return;
        }
        if (number as usize) < self.entries.len() {
            self.put(number, check);
        }
    }

    /// Keeps a check of the type, for which there is room.
    #[inline]
    fn put(&mut self, number: u32, check: Box<Judge>)
        requires { number < length self.old.entries.items }
        ensures kept { (types : Graph ℕ SimpleType) → AreKept types self.old → IsUnusedAt types number check.value → AreKept types self.new }
        ensures lean { AreVerdicts self.old → IsVerdictJudge check.value → AreVerdicts self.new }
    {
        self.entries[number as usize] = Some(check);
    }

    /// Makes room for the check of the type; false where there is no memory.
    #[inline(never)]
    fn grow(&mut self, number: u32) -> bool
        ensures kept { (types : Graph ℕ SimpleType) → AreKept types self.old → AreKept types self.new }
        ensures lean { AreVerdicts self.old → AreVerdicts self.new }
    {
        for _at in self.entries.len()..number as usize + 1 {
            if self.entries.push(None).is_err() {
                return false;
            }
        }
        true
    }
}
