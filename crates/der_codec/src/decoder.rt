//! The reader of DER, an octet at a time: X.690 §8.1.
ghost use Rattle.std.specs.Prelude.{◌≡◌, ◌↔◌, ◌+◌, ◌-◌, ◌<◌, ◌≤◌, ◌^◌, ◌++◌, ◌∷◌, [], ℕ, List, IfOk, IfErr, IsErrOf, IsTrue, IsFalse, true, false, Some, None, length, drop, vec_capacity};
ghost use Rattle.lexical_core.specs.Tree.{Tree};
ghost use Rattle.message_model.specs.Tables.{message_of, types_of};
ghost use Rattle.der_model.specs.DerMessage.{DerMessage, in_der};
ghost use Rattle.der_model.specs.Paths.{path_of};
ghost use Rattle.der_model.specs.States.{State};
ghost use Rattle.der_codec.specs.Levels.{inwards, first_of, rest_of};
ghost use Rattle.der_codec.specs.Decoding.{HasReadParts, IsStopped, IsBelowEnd, IsPastEnd, end_of_levels, IsFresh, IsFreshOrOver, due_after, IsOver, IsWaiting, IsOpenState, IsNoCut, AwaitsValue, IsRefusedAs, due_depth, header_come};
ghost use Rattle.der_codec.specs.Components.{added_text};
ghost use Rattle.der_codec.specs.inner.OpenNames.{IsNamed};
ghost use Rattle.der_codec.specs.Judging.{HoldsContents};

use crate::checks::Refusal;
use crate::components::Added;
use crate::level::{Level, Spot};
use crate::paths::{path_outside, path_within};
use crate::value_ends::{Ended, end_of};
use der_octets::{LengthStep, TagStep};
use lexical_core::{Rule, Text};
use message_model::Model;
use std::alloc::{AllocError, Global};

/// What stands next.
#[derive(Clone, Copy, Debug)]
pub enum Due {
    Tag(TagStep),
    Length {
        constructed: bool,
        spot: Spot,
        step: LengthStep,
    },
    Contents {
        spot: Spot,
        left: u64,
    },
    Over,
}

/// Why the reader stops.
#[derive(Clone, Copy, Debug)]
pub enum Stop {
    Fault {
        rule: Rule,
        place: u64,
        added: Added,
    },
    Memory,
}

/// The reader of DER.
#[derive(Drop)]
pub struct Decoder {
    /// How many octets it has taken.
    pub(crate) place: u64,
    /// The place of the part that is due.
    pub(crate) start: u64,
    /// The open constructed values, the outermost first.
    pub(crate) levels: Vec<Level>,
    pub(crate) due: Due,
}

impl Decoder {
    /// Before the first octet. It takes no memory.
    #[tactic(auto, using(crate::proofs::InputEnds::begins_so))]
    pub fn new(alloc: Global) -> Decoder
        ensures read { (m : DerMessage ℕ) → HasReadParts m result [] }
        ensures waits { IsWaiting result.due result.place (end_of_levels result.levels.items) }
        ensures place { result.place ≡ 0 }
        ensures none { header_come result.due result.start result.place ≡ 0 }
        ensures open { result.levels.items ≡ [] }
    {
        Decoder {
            place: 0,
            start: 0,
            levels: Vec::new(alloc),
            due: Due::Tag(TagStep::new()),
        }
    }

    /// The innermost open value.
    #[tactic(auto, using(crate::proofs::Inwards::last_inwards, crate::proofs::Inwards::none_inwards))]
    pub(crate) fn innermost(&self) -> Option<Level>
        ensures { result ≡ first_of (inwards self.now.levels.items) }
    {
        let count = self.levels.len();
        if count == 0 {
            return None;
        }
        Some(self.levels[count - 1])
    }

    /// Puts another level in the place of the innermost one.
    #[tactic(auto, using(crate::proofs::Inwards::set_inwards))]
    pub(crate) fn set_innermost(&mut self, level: Level)
        requires { 0 < length self.old.levels.items }
        ensures levels { inwards self.new.levels.items ≡ level ∷ rest_of (inwards self.old.levels.items) }
        ensures place { self.new.place ≡ self.old.place }
        ensures start { self.new.start ≡ self.old.start }
        ensures due { self.new.due ≡ self.old.due }
        ensures room { vec_capacity self.old.levels ≤ vec_capacity self.new.levels }
        ensures size { length self.new.levels.items ≡ length self.old.levels.items }
    {
        let count = self.levels.len();
        self.levels[count - 1] = level;
    }

    /// A fault where the part begins that is due.
    pub(crate) fn fault(&self, rule: Rule) -> Stop
        ensures { result ≡ Stop.Fault rule self.now.start Added.Nothing }
    {
        Stop::Fault {
            rule,
            place: self.start,
            added: Added::Nothing,
        }
    }

    /// Where the innermost open value ends.
    #[tactic(auto, using(crate::proofs::Inwards::end_first, crate::proofs::Inwards::end_none))]
    pub(crate) fn limit(&self) -> Option<u64>
        ensures { result ≡ end_of_levels self.now.levels.items }
    {
        match self.innermost() {
            None => None,
            Some(level) => Some(level.end),
        }
    }

    /// An overrun where the value that is open ends here.
    pub(crate) fn within(&self) -> Result<(), Stop>
        ensures ok { IfOk result (λ _. IsBelowEnd self.now.place (end_of_levels self.now.levels.items)) }
        ensures err { IfErr result (λ stop. (stop ≡ Stop.Fault Rule.Overrun self.now.start Added.Nothing) × IsPastEnd self.now.place (end_of_levels self.now.levels.items)) }
    {
        match self.limit() {
            None => Ok(()),
            Some(end) => {
                if self.place < end {
                    return Ok(());
                }
                Err(self.fault(Rule::Overrun))
            }
        }
    }

    /// Whether the innermost value ends at this place.
    #[inline(always)]
    pub(crate) fn ends_here(&self) -> bool
        ensures no { result ≡ false → (m : DerMessage ℕ) (bytes : List ℕ) → HasReadParts m self.now bytes → IsFresh self.now.due → IsBelowEnd self.now.place (end_of_levels self.now.levels.items) }
    {
        match self.limit() {
            None => false,
            Some(end) => {
                if end != self.place {
                    return false;
                }
                true
            }
        }
    }

    /// Ends the innermost value where it ends at this place, and no identifier octet has come. It answers
    /// whether it has.
    #[inline(always)]
    pub fn end(&mut self, model: &Model) -> Result<bool, Stop>
        requires { IsFresh self.old.due }
        ensures ok { (fragment : Tree → List ℕ) (bytes : List ℕ) → HasReadParts (in_der fragment (message_of model.now)) self.old bytes → IfOk result (λ _. HasReadParts (in_der fragment (message_of model.now)) self.new bytes) }
        ensures err { (fragment : Tree → List ℕ) (bytes : List ℕ) → HasReadParts (in_der fragment (message_of model.now)) self.old bytes → IfErr result (λ stop. IsStopped (in_der fragment (message_of model.now)) self.new bytes stop) }
        ensures place { self.new.place ≡ self.old.place }
        ensures ended { IfOk result (λ ended. ended ≡ true → IsFreshOrOver self.new.due) }
        ensures less { IfOk result (λ ended. ended ≡ true → length self.new.levels.items < length self.old.levels.items) }
        ensures one { IfOk result (λ ended. ended ≡ true → length self.new.levels.items + 1 ≡ length self.old.levels.items) }
        ensures open { (fragment : Tree → List ℕ) (bytes : List ℕ) → HasReadParts (in_der fragment (message_of model.now)) self.old bytes → IfOk result (λ ended. ended ≡ false → (self.new ≡ self.old) × IsBelowEnd self.old.place (end_of_levels self.old.levels.items)) }
        ensures fault { IsErrOf result Stop.Memory → ⊥ }
        ensures same { IfOk result (λ ended. ended ≡ false → self.new ≡ self.old) }
        ensures kept { IfErr result (λ _. self.new ≡ self.old) }
        ensures due { IfOk result (λ ended. ended ≡ true → self.new.due ≡ due_after self.old.due self.new.levels.items) }
        ensures room { vec_capacity self.old.levels ≤ vec_capacity self.new.levels }
        ensures stays { (fragment : Tree → List ℕ) (bytes : List ℕ) → HasReadParts (in_der fragment (message_of model.now)) self.old bytes → IfErr result (λ stop. IsNoCut stop) }
    {
        let Some(level) = self.innermost() else {
            return Ok(false);
        };
        if level.end != self.place {
            return Ok(false);
        }
        match end_of(model, &level) {
            Ended::Breaks { rule, added } => Err(Stop::Fault {
                rule,
                place: self.place,
                added,
            }),
            Ended::Fine => {
                self.close();
                Ok(true)
            }
        }
    }

    /// Whether the instance has ended.
    pub fn is_over(&self) -> bool
        ensures yes { IsTrue result → IsOver self.now.due }
        ensures no { IsFalse result → IsFreshOrOver self.now.due → IsFresh self.now.due }
        ensures open { IsFalse result → IsOver self.now.due → ⊥ }
    {
        matches!(self.due, Due::Over)
    }

    /// What the bytes are where they end here, and the instance has not ended.
    pub(crate) fn truncated(&self) -> Stop
        ensures { (m : DerMessage ℕ) (bytes : List ℕ) → HasReadParts m self.now bytes → IsWaiting self.now.due self.now.place (end_of_levels self.now.levels.items) → (IsOver self.now.due → ⊥) → IsStopped m self.now bytes result }
    {
        Stop::Fault {
            rule: Rule::DerTruncated,
            place: self.place,
            added: Added::Nothing,
        }
    }

    /// How many values and lists are open.
    pub(crate) fn depth(&self) -> usize
        ensures { result ≡ length self.now.levels.items + due_depth self.now.due }
    {
        let around = self.levels.len();
        match self.due {
            Due::Length { .. } => around + 1,
            Due::Contents { .. } => around + 1,
            _ => around,
        }
    }

    /// How many identifier or length octets have come, where more of them are due.
    pub(crate) fn header_come(&self) -> u64
        ensures { result ≡ header_come self.now.due self.now.start self.now.place }
    {
        match self.due {
            Due::Tag(_) => self.place.saturating_sub(self.start),
            Due::Length { .. } => self.place.saturating_sub(self.start),
            _ => 0,
        }
    }

    /// Goes on with contents, of which so many octets more have come.
    pub(crate) fn pass(&mut self, spot: Spot, left: u64, count: u64)
        requires room { self.old.place + count < 2 ^ 63 }
        requires due { self.old.due ≡ Due.Contents spot left }
        requires count { count ≤ left }
        ensures read { (m : DerMessage ℕ) (bytes more : List ℕ) → HasReadParts m self.old bytes → length more ≡ count → HasReadParts m self.new (bytes ++ more) }
        ensures due { self.new.due ≡ Due.Contents spot (left - count) }
        ensures levels { self.new.levels ≡ self.old.levels }
        ensures start { self.new.start ≡ self.old.start }
        ensures place { self.new.place ≡ self.old.place + count }
    {
        self.place += count;
        self.due = Due::Contents {
            spot,
            left: left - count,
        };
    }

    /// Goes on behind contents that were judged, of which the last octets, so many, come now.
    pub(crate) fn end_contents(&mut self, spot: Spot, left: u64)
        requires room { self.old.place + left < 2 ^ 63 }
        requires due { self.old.due ≡ Due.Contents spot left }
        ensures read { (m : DerMessage ℕ) (bytes more : List ℕ) → HasReadParts m self.old bytes → length more ≡ left → HoldsContents m spot (drop self.old.start bytes ++ more) → HasReadParts m self.new (bytes ++ more) }
        ensures fresh { IsFresh self.new.due }
        ensures place { self.new.place ≡ self.old.place + left }
        ensures levels { self.new.levels ≡ self.old.levels }
    {
        let _ = spot;
        self.place += left;
        self.start = self.place;
        self.due = Due::Tag(TagStep::new());
    }

    /// The stop of contents that are refused.
    pub(crate) fn refused(&self, refusal: Refusal) -> Stop
        ensures { IsRefusedAs self.now.start refusal result }
    {
        match refusal {
            Refusal::Breaks(rule) => self.fault(rule),
            Refusal::Memory => Stop::Memory,
        }
    }

    /// The path of what is open, with more behind it.
    pub(crate) fn path(
        &self,
        alloc: Global,
        model: &Model,
        added: Added,
    ) -> Result<Text, AllocError>
        ensures { (fragment : Tree → List ℕ) (s : State ℕ) → IsOpenState (in_der fragment (message_of model.now)) (inwards self.now.levels.items) self.now.due s → IsNamed (in_der fragment (message_of model.now)) s
            → IfOk result (λ t. t ≡ path_of s ++ added_text (types_of model.now) added) }
    {
        if self.has_begun() {
            return path_within(alloc, model, self.levels.as_slice(), added);
        }
        let count = self.levels.len();
        if count == 0 {
            return path_outside(alloc, model, added);
        }
        path_within(alloc, model, &self.levels[..count - 1], added)
    }

    /// Whether a value has begun whose length or contents octets are due.
    fn has_begun(&self) -> bool
        ensures { IsTrue result ↔ AwaitsValue self.now.due }
    {
        matches!(self.due, Due::Length { .. } | Due::Contents { .. })
    }

    /// The fault of an octet behind the instance.
    #[tactic(auto, using(crate::proofs::InputEnds::is_trailing))]
    pub fn trailing(&self) -> Stop
        requires { IsOver self.now.due }
        ensures stopped { (m : DerMessage ℕ) (bytes : List ℕ) (octet : ℕ) → HasReadParts m self.now bytes → IsStopped m self.now (bytes ++ octet ∷ []) result }
        ensures stays { IsNoCut result }
        ensures memory { result ≡ Stop.Memory → ⊥ }
    {
        Stop::Fault {
            rule: Rule::Trailing,
            place: self.place,
            added: Added::Nothing,
        }
    }

    /// Whether identifier octets are due, and none have come.
    pub(crate) fn is_fresh(&self) -> bool
        ensures yes { IsTrue result → IsFresh self.now.due }
        ensures no { IsFalse result → IsFresh self.now.due → ⊥ }
    {
        match self.due {
            Due::Tag(step) => step.is_fresh(),
            _ => false,
        }
    }

    /// Closes the innermost value.
    #[tactic(auto, using(crate::proofs::Inwards::pop_inwards))]
    pub(crate) fn close(&mut self)
        requires { IsFresh self.old.due }
        ensures levels { inwards self.new.levels.items ≡ rest_of (inwards self.old.levels.items) }
        ensures place { self.new.place ≡ self.old.place }
        ensures start { self.new.start ≡ self.old.start }
        ensures due { self.new.due ≡ due_after self.old.due self.new.levels.items }
        ensures fresh { IsFreshOrOver self.new.due }
        ensures less { 0 < length self.old.levels.items → length self.new.levels.items < length self.old.levels.items }
        ensures one { 0 < length self.old.levels.items → length self.new.levels.items + 1 ≡ length self.old.levels.items }
        ensures room { vec_capacity self.old.levels ≤ vec_capacity self.new.levels }
    {
        let _ = self.levels.pop();
        if self.levels.is_empty() {
            self.due = Due::Over;
        }
    }
}
