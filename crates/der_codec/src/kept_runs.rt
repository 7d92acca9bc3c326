//! The steps of a run of components where pieces are kept: a component of the usual form, and the ends behind it.
ghost use Rattle.std.specs.Prelude.{◌≡◌, ◌+◌, ◌<◌, ◌≤◌, ◌^◌, ◌++◌, ◌∷◌, ℕ, List, IfOk, IsOk, true, false, length, take};
ghost use Rattle.message_model.specs.Tables.{types_of};
ghost use Rattle.der_model.specs.DerMessage.{der_message};
ghost use Rattle.der_codec.specs.Checked.{CheckTypes};
ghost use Rattle.der_codec.specs.Decoding.{IsFresh};
ghost use Rattle.der_codec.specs.Reserved.{HasEnough};
ghost use Rattle.der_codec.specs.inner.Entering.{StandsFirst};
ghost use Rattle.der_codec.specs.inner.KeptRuns.{RunKeeps, StaysInRun, EntersBy, decoder_at};

use crate::begun::Begun;
use crate::checker::DerChecker;
use crate::contents::tell_last;
use crate::level::Level;
use crate::pieces::{begin_last, end_last};
use crate::usual::Run;
use message_model::Model;
use std::alloc::AllocError;

impl DerChecker {
    /// Takes the component at the front, where it is of the usual form and nothing is refused. It answers how many octets
    /// it takes; where it takes none, only checks are changed.
    #[inline(always)]
    pub(crate) fn keep_next(
        &mut self,
        run: &mut Run,
        model: &Model,
        piece: &[u8],
    ) -> Result<usize, AllocError>
        requires room { run.old.place + length piece.now ≤ 2 ^ 40 }
        requires some { 0 < length self.old.decoder.levels.items }
        requires fresh { IsFresh self.old.decoder.due }
        requires low { run.old.place < run.old.level.end }
        requires checks { CheckTypes (types_of model.now) self.old.checks }
        requires given { (bytes : List ℕ) × RunKeeps model.now self.old run.old bytes }
        ensures checks { CheckTypes (types_of model.now) self.new.checks }
        ensures ok { (bytes : List ℕ) → RunKeeps model.now self.old run.old bytes → IfOk result (λ n. 0 < n → RunKeeps model.now self.new run.new (bytes ++ take n piece.now)) }
        ensures unchanged { IfOk result (λ n. n ≡ 0 → self.new.decoder ≡ self.old.decoder) }
        ensures same { IfOk result (λ n. n ≡ 0 → self.new.pieces ≡ self.old.pieces) }
        ensures run { IfOk result (λ n. n ≡ 0 → run.new ≡ run.old) }
        ensures within { IfOk result (λ n. n ≤ length piece.now) }
        ensures place { IfOk result (λ n. run.new.place ≡ run.old.place + n) }
        ensures open { 0 < length self.new.decoder.levels.items }
        ensures stays { StaysInRun model.now self.old self.new }
        ensures memory { (bytes : List ℕ) → RunKeeps model.now self.old run.old bytes → HasEnough self.old model.now (bytes ++ piece.now) → IsOk result }
    {
        let Some((first, others)) = piece.split_first() else {
            return Ok(0);
        };
        let Some((second, behind)) = others.split_first() else {
            return Ok(0);
        };
        if *second >= 128 {
            return self.keep_wide(run, model, *first, *second, behind, piece);
        }
        match self.decoder.begun(*run, model, *first, *second) {
            None => Ok(0),
            Some(begun) => {
                if begun.constructed {
                    return self.keep_inner(run, model, begun, 2, piece);
                }
                self.keep_leaf(run, model, begun, *second, behind, piece)
            }
        }
    }

    /// Goes into the component whose first two octets these are, where its length has more octets than one.
    #[inline(never)]
    fn keep_wide(
        &mut self,
        run: &mut Run,
        model: &Model,
        first: u8,
        second: u8,
        behind: &[u8],
        piece: &[u8],
    ) -> Result<usize, AllocError>
        requires room { run.old.place + length piece.now ≤ 2 ^ 40 }
        requires some { 0 < length self.old.decoder.levels.items }
        requires fresh { IsFresh self.old.decoder.due }
        requires low { run.old.place < run.old.level.end }
        requires checks { CheckTypes (types_of model.now) self.old.checks }
        requires given { (bytes : List ℕ) × RunKeeps model.now self.old run.old bytes }
        requires piece { piece.now ≡ first ∷ second ∷ behind.now }
        ensures checks { CheckTypes (types_of model.now) self.new.checks }
        ensures ok { (bytes : List ℕ) → RunKeeps model.now self.old run.old bytes → IfOk result (λ n. 0 < n → RunKeeps model.now self.new run.new (bytes ++ take n piece.now)) }
        ensures unchanged { IfOk result (λ n. n ≡ 0 → self.new.decoder ≡ self.old.decoder) }
        ensures same { IfOk result (λ n. n ≡ 0 → self.new.pieces ≡ self.old.pieces) }
        ensures run { IfOk result (λ n. n ≡ 0 → run.new ≡ run.old) }
        ensures within { IfOk result (λ n. n ≤ length piece.now) }
        ensures place { IfOk result (λ n. run.new.place ≡ run.old.place + n) }
        ensures open { 0 < length self.new.decoder.levels.items }
        ensures stays { StaysInRun model.now self.old self.new }
        ensures memory { (bytes : List ℕ) → RunKeeps model.now self.old run.old bytes → HasEnough self.old model.now (bytes ++ piece.now) → IsOk result }
    {
        match self.decoder.begun_wide(*run, model, first, second, behind) {
            None => Ok(0),
            Some(wide) => self.keep_inner(run, model, wide.begun, 2 + wide.more, piece),
        }
    }

    /// Goes into the component that stands first in the piece, behind its header of so many octets, where no memory is
    /// wanted for it.
    #[inline(always)]
    fn keep_inner(
        &mut self,
        run: &mut Run,
        model: &Model,
        begun: Begun,
        header: usize,
        piece: &[u8],
    ) -> Result<usize, AllocError>
        requires room { run.old.place + length piece.now ≤ 2 ^ 40 }
        requires some { 0 < length self.old.decoder.levels.items }
        requires fresh { IsFresh self.old.decoder.due }
        requires checks { CheckTypes (types_of model.now) self.old.checks }
        requires given { (bytes : List ℕ) × RunKeeps model.now self.old run.old bytes }
        requires header { 0 < header }
        requires enters { (bytes : List ℕ) → RunKeeps model.now self.old run.old bytes → EntersBy model.now self.old run.old bytes begun header piece.now }
        ensures checks { CheckTypes (types_of model.now) self.new.checks }
        ensures ok { (bytes : List ℕ) → RunKeeps model.now self.old run.old bytes → IfOk result (λ n. 0 < n → RunKeeps model.now self.new run.new (bytes ++ take n piece.now)) }
        ensures unchanged { IfOk result (λ n. n ≡ 0 → self.new.decoder ≡ self.old.decoder) }
        ensures same { IfOk result (λ n. n ≡ 0 → self.new.pieces ≡ self.old.pieces) }
        ensures run { IfOk result (λ n. n ≡ 0 → run.new ≡ run.old) }
        ensures within { IfOk result (λ n. n ≤ length piece.now) }
        ensures place { IfOk result (λ n. run.new.place ≡ run.old.place + n) }
        ensures open { 0 < length self.new.decoder.levels.items }
        ensures stays { StaysInRun model.now self.old self.new }
        ensures memory { (bytes : List ℕ) → RunKeeps model.now self.old run.old bytes → HasEnough self.old model.now (bytes ++ piece.now) → IsOk result }
    {
        let _ = piece;
        if !self.decoder.has_room() {
            return Ok(0);
        }
        let inner = Level {
            spot: begun.spot,
            next: 0,
            count: 0,
            end: begun.end,
        };
        self.decoder.go_into(begun.around, inner);
        match begin_last(&mut self.pieces, model, &begun.around, begun.spot) {
            Err(error) => Err(error),
            Ok(()) => {
                *run = Run {
                    level: inner,
                    place: run.place + header as u64,
                };
                Ok(header)
            }
        }
    }

    /// Passes the leaf that stands first in the piece, where all its contents stand there and break no rule.
    #[inline(always)]
    fn keep_leaf(
        &mut self,
        run: &mut Run,
        model: &Model,
        begun: Begun,
        second: u8,
        behind: &[u8],
        piece: &[u8],
    ) -> Result<usize, AllocError>
        requires room { run.old.place + length piece.now ≤ 2 ^ 40 }
        requires some { 0 < length self.old.decoder.levels.items }
        requires fresh { IsFresh self.old.decoder.due }
        requires checks { CheckTypes (types_of model.now) self.old.checks }
        requires given { (bytes : List ℕ) × RunKeeps model.now self.old run.old bytes }
        requires primitive { begun.constructed ≡ false }
        requires stands { (bytes : List ℕ) → RunKeeps model.now self.old run.old bytes → StandsFirst (der_message model.now) (decoder_at self.old.decoder run.old) bytes begun second behind.now piece.now }
        ensures checks { CheckTypes (types_of model.now) self.new.checks }
        ensures ok { (bytes : List ℕ) → RunKeeps model.now self.old run.old bytes → IfOk result (λ n. 0 < n → RunKeeps model.now self.new run.new (bytes ++ take n piece.now)) }
        ensures unchanged { IfOk result (λ n. n ≡ 0 → self.new.decoder ≡ self.old.decoder) }
        ensures same { IfOk result (λ n. n ≡ 0 → self.new.pieces ≡ self.old.pieces) }
        ensures run { IfOk result (λ n. n ≡ 0 → run.new ≡ run.old) }
        ensures within { IfOk result (λ n. n ≤ length piece.now) }
        ensures place { IfOk result (λ n. run.new.place ≡ run.old.place + n) }
        ensures open { 0 < length self.new.decoder.levels.items }
        ensures stays { StaysInRun model.now self.old self.new }
        ensures memory { (bytes : List ℕ) → RunKeeps model.now self.old run.old bytes → HasEnough self.old model.now (bytes ++ piece.now) → IsOk result }
    {
        let _ = piece;
        let count = second as usize;
        if behind.len() < count {
            return Ok(0);
        }
        let (contents, _others) = behind.split_at(count);
        let told = match tell_last(
            &mut self.checks,
            &mut self.pieces,
            model,
            &begun.around,
            begun.spot,
            contents,
        ) {
            Ok(told) => told,
            Err(error) => return Err(error),
        };
        if !told {
            return Ok(0);
        }
        *run = Run {
            level: begun.around,
            place: begun.end,
        };
        Ok(2 + count)
    }

    /// Ends the values that end at this place, with their elements. It answers whether an octet is awaited then: where an
    /// end breaks a rule, or is that of the instance, no more is ended.
    #[inline(always)]
    pub(crate) fn end_kept(&mut self, run: &mut Run, model: &Model) -> Result<bool, AllocError>
        requires some { 0 < length self.old.decoder.levels.items }
        requires fresh { IsFresh self.old.decoder.due }
        requires given { (bytes : List ℕ) × RunKeeps model.now self.old run.old bytes }
        ensures checks { self.new.checks ≡ self.old.checks }
        ensures ok { (bytes : List ℕ) → RunKeeps model.now self.old run.old bytes → IfOk result (λ _. RunKeeps model.now self.new run.new bytes) }
        ensures low { IfOk result (λ awaited. awaited ≡ true → run.new.place < run.new.level.end) }
        ensures place { run.new.place ≡ run.old.place }
        ensures open { 0 < length self.new.decoder.levels.items }
        ensures stays { StaysInRun model.now self.old self.new }
        ensures memory { (bytes : List ℕ) → RunKeeps model.now self.old run.old bytes → HasEnough self.old model.now bytes → IsOk result }
    {
        loop {
            let ends = run.level.end == run.place;
            if !ends {
                return Ok(true);
            }
            let ended = match self.end_within(run, model) {
                Ok(ended) => ended,
                Err(error) => return Err(error),
            };
            if !ended {
                return Ok(false);
            }
        }
    }

    /// Ends the innermost value, which ends at this place, with its elements, where it breaks no rule so, and another is
    /// round it. It answers whether it has.
    #[inline(always)]
    fn end_within(&mut self, run: &mut Run, model: &Model) -> Result<bool, AllocError>
        requires some { 0 < length self.old.decoder.levels.items }
        requires fresh { IsFresh self.old.decoder.due }
        requires here { run.old.level.end ≡ run.old.place }
        requires given { (bytes : List ℕ) × RunKeeps model.now self.old run.old bytes }
        ensures checks { self.new.checks ≡ self.old.checks }
        ensures ok { (bytes : List ℕ) → RunKeeps model.now self.old run.old bytes → IfOk result (λ _. RunKeeps model.now self.new run.new bytes) }
        ensures place { run.new.place ≡ run.old.place }
        ensures open { 0 < length self.new.decoder.levels.items }
        ensures less { IfOk result (λ ended. ended ≡ true → length self.new.decoder.levels.items < length self.old.decoder.levels.items) }
        ensures stays { StaysInRun model.now self.old self.new }
        ensures memory { (bytes : List ℕ) → RunKeeps model.now self.old run.old bytes → HasEnough self.old model.now bytes → IsOk result }
    {
        let ended = run.level;
        if !self.decoder.end_inner(run, model) {
            return Ok(false);
        }
        let around = run.level;
        match end_last(&mut self.pieces, model, &around, ended.spot) {
            Ok(()) => Ok(true),
            Err(error) => Err(error),
        }
    }
}
