//! Components of the usual form, taken at once: a header of one identifier octet and one length octet, and with it a leaf.
ghost use Rattle.std.specs.Prelude.{◌≡◌, ◌+◌, ◌<◌, ◌≤◌, ◌^◌, ◌++◌, ◌∷◌, [], ℕ, List, IfSome, IfNone, Some, true, false, length, take, vec_capacity};
ghost use Rattle.message_model.specs.Tables.{Tables, types_of};
ghost use Rattle.der_model.specs.DerMessage.{der_message};
ghost use Rattle.der_codec.specs.Checked.{CheckTypes};
ghost use Rattle.der_codec.specs.Levels.{inwards, first_of, rest_of};
ghost use Rattle.der_codec.specs.Decoding.{HasReadParts, IsFresh, IsWaiting, end_of_levels};
ghost use Rattle.der_codec.specs.inner.Runs.{RunReads, IsOneOctet, EntersRun, PassesInRun};

use crate::checks::Checks;
use crate::components::{Found, field_begun, identify};
use crate::contents::are_contents;
use crate::decoder::Decoder;
use crate::headers::advanced;
use crate::level::{Level, Spot};
use crate::value_ends::{Ended, end_of};
use der_octets::{Identifier, TagRead, TagStep};
use message_model::Model;

/// Where a run of components stands. The decoder is told of it at its end: until then the innermost of the decoder's
/// levels, and its place, are those of before.
#[derive(Clone, Copy, Debug)]
pub(crate) struct Run {
    /// The innermost open value.
    pub(crate) level: Level,
    /// How many octets have been taken.
    pub(crate) place: u64,
}

impl Decoder {
    /// Takes as many components of the usual form as stand at the front, and ends the values that end behind them. It
    /// answers how many octets that is. Where they are none, nothing of the decoder is changed; else values may still
    /// end at the place that it comes to, where one of them breaks a rule or is the last.
    pub(crate) fn take_run(&mut self, checks: &mut Checks, model: &Model, piece: &[u8]) -> usize
        requires room { self.old.place + length piece.now ≤ 2 ^ 40 }
        requires waits { IsWaiting self.old.due self.old.place (end_of_levels self.old.levels.items) }
        requires checks { CheckTypes (types_of model.now) checks.old }
        requires read { (bytes : List ℕ) × HasReadParts (der_message model.now) self.old bytes }
        ensures checks { CheckTypes (types_of model.now) checks.new }
        ensures ok { (bytes : List ℕ) → HasReadParts (der_message model.now) self.old bytes → HasReadParts (der_message model.now) self.new (bytes ++ take result piece.now) }
        ensures none { result ≡ 0 → self.new ≡ self.old }
        ensures within { result ≤ length piece.now }
        ensures fresh { 0 < result → IsFresh self.new.due }
    {
        match self.begun_run() {
            None => 0,
            Some(begun) => self.run_on(begun, checks, model, piece),
        }
    }

    /// The run that begins here, where identifier octets are due, none has come, and a value is open.
    #[inline(always)]
    pub(crate) fn begun_run(&self) -> Option<Run>
        ensures fresh { IfSome result (λ _. IsFresh self.now.due) }
        ensures level { IfSome result (λ run. Some run.level ≡ first_of (inwards self.now.levels.items)) }
        ensures place { IfSome result (λ run. run.place ≡ self.now.place) }
    {
        if !self.is_fresh() {
            return None;
        }
        match self.innermost() {
            None => None,
            Some(level) => Some(Run {
                level,
                place: self.place,
            }),
        }
    }

    /// Takes as many components as stand at the front, and ends the values that end behind them.
    #[inline(always)]
    fn run_on(&mut self, run: Run, checks: &mut Checks, model: &Model, piece: &[u8]) -> usize
        requires room { run.place + length piece.now ≤ 2 ^ 40 }
        requires some { 0 < length self.old.levels.items }
        requires fresh { IsFresh self.old.due }
        requires low { run.place < run.level.end }
        requires checks { CheckTypes (types_of model.now) checks.old }
        requires read { (bytes : List ℕ) × RunReads (der_message model.now) self.old run bytes }
        ensures checks { CheckTypes (types_of model.now) checks.new }
        ensures ok { 0 < result → (bytes : List ℕ) → RunReads (der_message model.now) self.old run bytes → HasReadParts (der_message model.now) self.new (bytes ++ take result piece.now) }
        ensures none { result ≡ 0 → self.new ≡ self.old }
        ensures within { result ≤ length piece.now }
        ensures fresh { IsFresh self.new.due }
    {
        let mut run = run;
        let mut rest = piece;
        loop {
            let count = match self.take_next(&mut run, checks, model, rest) {
                Some(count) => count,
                None => return self.leave(run, piece.len() - rest.len()),
            };
            let (_front, behind) = rest.split_at(count);
            rest = behind;
            if !self.end_usual(&mut run, model) {
                return self.leave(run, piece.len() - rest.len());
            }
        }
    }

    /// Puts the level and the place of the run back, where it has taken octets. It answers how many they are.
    #[inline(always)]
    pub(crate) fn leave(&mut self, run: Run, taken: usize) -> usize
        requires { 0 < length self.old.levels.items }
        ensures taken { result ≡ taken }
        ensures read { 0 < taken → (bytes : List ℕ) (model : Tables) → RunReads (der_message model) self.old run bytes → HasReadParts (der_message model) self.new bytes }
        ensures none { taken ≡ 0 → self.new ≡ self.old }
        ensures due { self.new.due ≡ self.old.due }
        ensures levels { 0 < taken → inwards self.new.levels.items ≡ run.level ∷ rest_of (inwards self.old.levels.items) }
        ensures place { 0 < taken → self.new.place ≡ run.place }
        ensures start { 0 < taken → self.new.start ≡ run.place }
        ensures room { vec_capacity self.old.levels ≤ vec_capacity self.new.levels }
    {
        if taken > 0 {
            self.set_innermost(run.level);
            self.place = run.place;
            self.start = run.place;
        }
        taken
    }

    /// Takes the component at the front, where it is of the usual form and nothing is refused. It answers how many octets
    /// it takes; where it takes none, nothing is changed.
    #[inline(always)]
    fn take_next(
        &mut self,
        run: &mut Run,
        checks: &mut Checks,
        model: &Model,
        piece: &[u8],
    ) -> Option<usize>
        requires room { run.old.place + length piece.now ≤ 2 ^ 40 }
        requires some { 0 < length self.old.levels.items }
        requires fresh { IsFresh self.old.due }
        requires low { run.old.place < run.old.level.end }
        requires checks { CheckTypes (types_of model.now) checks.old }
        requires read { (bytes : List ℕ) × RunReads (der_message model.now) self.old run.old bytes }
        ensures checks { CheckTypes (types_of model.now) checks.new }
        ensures ok { (bytes : List ℕ) → RunReads (der_message model.now) self.old run.old bytes → IfSome result (λ n. RunReads (der_message model.now) self.new run.new (bytes ++ take n piece.now)) }
        ensures kept { IfNone result (self.new ≡ self.old) }
        ensures stays { IfNone result (run.new ≡ run.old) }
        ensures some { IfSome result (λ n. 0 < n) }
        ensures within { IfSome result (λ n. n ≤ length piece.now) }
        ensures place { IfSome result (λ n. run.new.place ≡ run.old.place + n) }
        ensures due { self.new.due ≡ self.old.due }
        ensures open { 0 < length self.new.levels.items }
    {
        let Some((first, others)) = piece.split_first() else {
            return None;
        };
        let Some((second, behind)) = others.split_first() else {
            return None;
        };
        match self.take_usual(run, checks, model, *first, *second, behind) {
            Some(count) => Some(2 + count),
            None => None,
        }
    }

    /// Takes two octets, an identifier octet and a length octet of a component, where they are the last of their parts
    /// and nothing is refused; with them the contents of a leaf, where all of them stand behind, or the other octets of a
    /// length. It answers how many octets it takes of those behind. Where it takes none, nothing is changed.
    #[inline(always)]
    fn take_usual(
        &mut self,
        run: &mut Run,
        checks: &mut Checks,
        model: &Model,
        first: u8,
        second: u8,
        behind: &[u8],
    ) -> Option<usize>
        requires room { run.old.place + 2 + length behind.now ≤ 2 ^ 40 }
        requires some { 0 < length self.old.levels.items }
        requires fresh { IsFresh self.old.due }
        requires low { run.old.place < run.old.level.end }
        requires checks { CheckTypes (types_of model.now) checks.old }
        requires read { (bytes : List ℕ) × RunReads (der_message model.now) self.old run.old bytes }
        ensures checks { CheckTypes (types_of model.now) checks.new }
        ensures ok { (bytes : List ℕ) → RunReads (der_message model.now) self.old run.old bytes → IfSome result (λ n. RunReads (der_message model.now) self.new run.new (bytes ++ first ∷ second ∷ take n behind.now)) }
        ensures kept { IfNone result (self.new ≡ self.old) }
        ensures stays { IfNone result (run.new ≡ run.old) }
        ensures within { IfSome result (λ n. n ≤ length behind.now) }
        ensures place { IfSome result (λ n. run.new.place ≡ run.old.place + 2 + n) }
        ensures due { self.new.due ≡ self.old.due }
        ensures open { 0 < length self.new.levels.items }
    {
        if second >= 128 {
            return self.enter_wide(run, model, first, second, behind);
        }
        match one_octet(first) {
            Some(id) => self.begin_usual(run, checks, model, id, first, second, behind),
            None => None,
        }
    }

    /// Begins the component of this identifier, whose only octet is the first, and whose length is the second.
    #[inline(always)]
    fn begin_usual(
        &mut self,
        run: &mut Run,
        checks: &mut Checks,
        model: &Model,
        id: Identifier,
        first: u8,
        second: u8,
        behind: &[u8],
    ) -> Option<usize>
        requires room { run.old.place + 2 + length behind.now ≤ 2 ^ 40 }
        requires short { second < 128 }
        requires id { IsOneOctet first id }
        requires some { 0 < length self.old.levels.items }
        requires fresh { IsFresh self.old.due }
        requires low { run.old.place < run.old.level.end }
        requires checks { CheckTypes (types_of model.now) checks.old }
        requires read { (bytes : List ℕ) × RunReads (der_message model.now) self.old run.old bytes }
        ensures checks { CheckTypes (types_of model.now) checks.new }
        ensures ok { (bytes : List ℕ) → RunReads (der_message model.now) self.old run.old bytes → IfSome result (λ n. RunReads (der_message model.now) self.new run.new (bytes ++ first ∷ second ∷ take n behind.now)) }
        ensures kept { IfNone result (self.new ≡ self.old) }
        ensures stays { IfNone result (run.new ≡ run.old) }
        ensures within { IfSome result (λ n. n ≤ length behind.now) }
        ensures place { IfSome result (λ n. run.new.place ≡ run.old.place + 2 + n) }
        ensures due { self.new.due ≡ self.old.due }
        ensures open { 0 < length self.new.levels.items }
    {
        if id.constructed {
            return self.begin_inner(run, model, id, first, second);
        }
        self.begin_leaf(run, checks, model, id, first, second, behind)
    }

    /// The same of a constructed component, which is entered.
    #[inline(always)]
    fn begin_inner(
        &mut self,
        run: &mut Run,
        model: &Model,
        id: Identifier,
        first: u8,
        second: u8,
    ) -> Option<usize>
        requires room { run.old.place + 2 ≤ 2 ^ 40 }
        requires short { second < 128 }
        requires id { IsOneOctet first id }
        requires constructed { id.constructed ≡ true }
        requires some { 0 < length self.old.levels.items }
        requires fresh { IsFresh self.old.due }
        requires low { run.old.place < run.old.level.end }
        requires read { (bytes : List ℕ) × RunReads (der_message model.now) self.old run.old bytes }
        ensures ok { (bytes behind : List ℕ) → RunReads (der_message model.now) self.old run.old bytes → IfSome result (λ n. RunReads (der_message model.now) self.new run.new (bytes ++ first ∷ second ∷ take n behind)) }
        ensures kept { IfNone result (self.new ≡ self.old) }
        ensures stays { IfNone result (run.new ≡ run.old) }
        ensures none { IfSome result (λ n. n ≡ 0) }
        ensures place { IfSome result (λ n. run.new.place ≡ run.old.place + 2 + n) }
        ensures due { self.new.due ≡ self.old.due }
        ensures open { 0 < length self.new.levels.items }
    {
        let _ = first;
        let level = run.level;
        if let Some(field) = field_begun(model, &level, id) {
            return self.enter(run, field.number, field.spot, second);
        }
        match identify(model, &level, id) {
            Found::Breaks { rule: _, added: _ } => None,
            Found::Begins { number, spot } => self.enter(run, number, spot, second),
        }
    }

    /// The same of a leaf, which is passed.
    #[inline(always)]
    fn begin_leaf(
        &self,
        run: &mut Run,
        checks: &mut Checks,
        model: &Model,
        id: Identifier,
        first: u8,
        second: u8,
        behind: &[u8],
    ) -> Option<usize>
        requires room { run.old.place + 2 + length behind.now ≤ 2 ^ 40 }
        requires short { second < 128 }
        requires id { IsOneOctet first id }
        requires primitive { id.constructed ≡ false }
        requires fresh { IsFresh self.now.due }
        requires low { run.old.place < run.old.level.end }
        requires checks { CheckTypes (types_of model.now) checks.old }
        requires read { (bytes : List ℕ) × RunReads (der_message model.now) self.now run.old bytes }
        ensures checks { CheckTypes (types_of model.now) checks.new }
        ensures ok { (bytes : List ℕ) → RunReads (der_message model.now) self.now run.old bytes → IfSome result (λ n. RunReads (der_message model.now) self.now run.new (bytes ++ first ∷ second ∷ take n behind.now)) }
        ensures stays { IfNone result (run.new ≡ run.old) }
        ensures within { IfSome result (λ n. n ≤ length behind.now) }
        ensures place { IfSome result (λ n. run.new.place ≡ run.old.place + 2 + n) }
    {
        let _ = first;
        let level = run.level;
        if let Some(field) = field_begun(model, &level, id) {
            return pass_leaf(run, checks, model, field.number, field.spot, second, behind);
        }
        match identify(model, &level, id) {
            Found::Breaks { rule: _, added: _ } => None,
            Found::Begins { number, spot } => {
                pass_leaf(run, checks, model, number, spot, second, behind)
            }
        }
    }

    /// Goes into the component of this number of the innermost value, where so many contents octets fit into that, and
    /// no memory is wanted.
    #[inline(always)]
    fn enter(&mut self, run: &mut Run, number: u16, spot: Spot, count: u8) -> Option<usize>
        requires room { run.old.place + 2 ≤ 2 ^ 40 }
        requires some { 0 < length self.old.levels.items }
        requires few { run.old.level.count < 2 ^ 63 }
        ensures kept { IfNone result (self.new ≡ self.old) }
        ensures stays { IfNone result (run.new ≡ run.old) }
        ensures none { IfSome result (λ n. n ≡ 0) }
        ensures entered { IfSome result (λ _. EntersRun self.old self.new run.old run.new number spot 2 count) }
        ensures due { self.new.due ≡ self.old.due }
        ensures open { 0 < length self.new.levels.items }
    {
        if self.enter_behind(run, number, spot, 2, count as u64) {
            return Some(0);
        }
        None
    }

    /// The same behind a header of so many octets. It answers whether it has gone into it.
    #[inline(always)]
    pub(crate) fn enter_behind(
        &mut self,
        run: &mut Run,
        number: u16,
        spot: Spot,
        header: u64,
        count: u64,
    ) -> bool
        requires room { run.old.place + header ≤ 2 ^ 40 }
        requires short { count < 2 ^ 63 }
        requires some { 0 < length self.old.levels.items }
        requires few { run.old.level.count < 2 ^ 63 }
        ensures kept { result ≡ false → self.new ≡ self.old }
        ensures stays { result ≡ false → run.new ≡ run.old }
        ensures entered { result ≡ true → EntersRun self.old self.new run.old run.new number spot header count }
        ensures due { self.new.due ≡ self.old.due }
        ensures open { 0 < length self.new.levels.items }
    {
        let place = run.place + header;
        let end = place + count;
        if run.level.end < end {
            return false;
        }
        if !self.has_room() {
            return false;
        }
        let inner = Level {
            spot,
            next: 0,
            count: 0,
            end,
        };
        self.set_innermost(advanced(run.level, number));
        self.append(inner);
        *run = Run {
            level: inner,
            place,
        };
        true
    }

    /// Ends the values that end at this place. It answers whether an octet is awaited then: where an end breaks a rule, or
    /// is that of the instance, no more is ended.
    #[inline(always)]
    fn end_usual(&mut self, run: &mut Run, model: &Model) -> bool
        requires some { 0 < length self.old.levels.items }
        requires fresh { IsFresh self.old.due }
        ensures ok { (bytes : List ℕ) → RunReads (der_message model.now) self.old run.old bytes → RunReads (der_message model.now) self.new run.new bytes }
        ensures low { result ≡ true → (bytes : List ℕ) → RunReads (der_message model.now) self.old run.old bytes → run.new.place < run.new.level.end }
        ensures place { run.new.place ≡ run.old.place }
        ensures due { self.new.due ≡ self.old.due }
        ensures open { 0 < length self.new.levels.items }
    {
        loop {
            let ends = run.level.end == run.place;
            if !ends {
                return true;
            }
            if !self.end_inner(run, model) {
                return false;
            }
        }
    }

    /// Ends the innermost value, which ends at this place, where it breaks no rule so, and another is round it. It answers
    /// whether it has.
    #[inline(always)]
    pub(crate) fn end_inner(&mut self, run: &mut Run, model: &Model) -> bool
        requires some { 0 < length self.old.levels.items }
        requires fresh { IsFresh self.old.due }
        requires here { run.old.level.end ≡ run.old.place }
        ensures ok { (bytes : List ℕ) → RunReads (der_message model.now) self.old run.old bytes → RunReads (der_message model.now) self.new run.new bytes }
        ensures place { run.new.place ≡ run.old.place }
        ensures due { self.new.due ≡ self.old.due }
        ensures open { 0 < length self.new.levels.items }
        ensures less { result ≡ true → length self.new.levels.items < length self.old.levels.items }
        ensures one { result ≡ true → length self.new.levels.items + 1 ≡ length self.old.levels.items }
        ensures levels { result ≡ true → run.new.level ∷ rest_of (inwards self.new.levels.items) ≡ rest_of (inwards self.old.levels.items) }
        ensures kept { result ≡ false → self.new ≡ self.old }
        ensures stays { result ≡ false → run.new ≡ run.old }
        ensures room { vec_capacity self.old.levels ≤ vec_capacity self.new.levels }
    {
        let count = self.levels.len();
        if count < 2 {
            return false;
        }
        let level = run.level;
        match end_of(model, &level) {
            Ended::Breaks { rule: _, added: _ } => false,
            Ended::Fine => {
                self.go_out(run);
                true
            }
        }
    }

    /// Goes on with the value round the innermost one.
    #[tactic(auto, using(crate::proofs::Inwards::pop_inwards))]
    #[inline(always)]
    fn go_out(&mut self, run: &mut Run)
        requires { 2 ≤ length self.old.levels.items }
        ensures levels { run.new.level ∷ rest_of (inwards self.new.levels.items) ≡ rest_of (inwards self.old.levels.items) }
        ensures place { run.new.place ≡ run.old.place }
        ensures due { self.new.due ≡ self.old.due }
        ensures less { length self.new.levels.items + 1 ≡ length self.old.levels.items }
        ensures room { vec_capacity self.old.levels ≤ vec_capacity self.new.levels }
    {
        let _ = self.levels.pop();
        if let Some(level) = self.innermost() {
            run.level = level;
        }
    }
}

/// The identifier of which this is the only octet.
#[inline(always)]
pub(crate) fn one_octet(octet: u8) -> Option<Identifier>
    ensures { IfSome result (λ id. IsOneOctet octet id) }
{
    let mut step = TagStep::new();
    match step.take(octet) {
        TagRead::Done(id) => Some(id),
        _ => None,
    }
}

/// Passes the leaf of this number of the innermost value, of so many contents octets, where they fit into that, stand
/// here as a whole, and break no rule. It answers how many they are.
#[inline(always)]
fn pass_leaf(
    run: &mut Run,
    checks: &mut Checks,
    model: &Model,
    number: u16,
    spot: Spot,
    count: u8,
    behind: &[u8],
) -> Option<usize>
    requires room { run.old.place + 2 + length behind.now ≤ 2 ^ 40 }
    requires few { run.old.level.count < 2 ^ 63 }
    requires checks { CheckTypes (types_of model.now) checks.old }
    ensures checks { CheckTypes (types_of model.now) checks.new }
    ensures stays { IfNone result (run.new ≡ run.old) }
    ensures within { IfSome result (λ n. n ≤ length behind.now) }
    ensures count { IfSome result (λ n. n ≡ count) }
    ensures passed { IfSome result (λ n. PassesInRun (der_message model.now) run.old run.new number spot (take n behind.now)) }
{
    let end = run.place + 2 + count as u64;
    if run.level.end < end {
        return None;
    }
    let count = count as usize;
    if behind.len() < count {
        return None;
    }
    let (contents, _others) = behind.split_at(count);
    if !are_contents(checks, model, spot, contents) {
        return None;
    }
    *run = Run {
        level: advanced(run.level, number),
        place: end,
    };
    Some(count)
}
