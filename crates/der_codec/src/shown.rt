//! How a checker that keeps pieces takes components of the usual form at once, each with its leaf.
ghost use Rattle.std.specs.Prelude.{◌≡◌, ◌+◌, ◌<◌, ◌≤◌, ◌^◌, ◌++◌, ℕ, List, IfOk, IsOk, IsErrOf, length, take};
ghost use Rattle.message_model.specs.Tables.{types_of};
ghost use Rattle.der_model.specs.DerMessage.{der_message};
ghost use Rattle.der_codec.specs.KeptPieces.{KeepsShown, StaysAlone};
ghost use Rattle.der_codec.specs.Reserved.{IsKeeping, HasEnough};
ghost use Rattle.der_codec.specs.Checked.{CheckTypes};
ghost use Rattle.der_codec.specs.Checking.{HasFedDer, TakesDerFront, der_bytes_fed};
ghost use Rattle.der_codec.specs.Decoding.{HasReadParts, IsFresh, IsHeaderDue};
ghost use Rattle.der_codec.specs.inner.KeptRuns.{RunKeeps, StaysInRun};

use crate::checker::DerChecker;
use crate::decoder::Stop;
use crate::usual::Run;
use message_model::Model;
use std::alloc::AllocError;

impl DerChecker {
    /// Takes components of the usual form as long as they stand here, or else the first byte of a header; and ends the
    /// values that end behind them.
    #[inline(always)]
    pub(crate) fn take_kept(&mut self, model: &Model, piece: &[u8]) -> Result<usize, Stop>
        requires some { 0 < length piece.now }
        requires room { der_bytes_fed self.old + length piece.now ≤ 2 ^ 40 }
        requires due { IsHeaderDue self.old.decoder.due }
        requires checks { CheckTypes (types_of model.now) self.old.checks }
        requires given { (bytes : List ℕ) × HasFedDer self.old model.now bytes }
        ensures checks { CheckTypes (types_of model.now) self.new.checks }
        ensures front { TakesDerFront model.now self.old self.new piece.now result }
        ensures keeps { IsKeeping self.old model.now → IsKeeping self.new model.now }
        ensures same { self.new.room ≡ self.old.room }
        ensures alone { StaysAlone self.old.pieces self.new.pieces }
        ensures memory { (bytes : List ℕ) → HasFedDer self.old model.now bytes → HasEnough self.old model.now (bytes ++ piece.now) → IsErrOf result Stop.Memory → ⊥ }
        ensures some { IfOk result (λ n. 0 < n) }
    {
        let taken = match self.take_shown(model, piece) {
            Ok(taken) => taken,
            Err(stop) => return Err(stop),
        };
        if taken == 0 {
            return self.take_first(model, piece);
        }
        Ok(taken)
    }

    /// Takes components of the usual form as long as they stand here, and ends the values that end behind them. It answers
    /// how many bytes that are.
    #[inline(always)]
    fn take_shown(&mut self, model: &Model, piece: &[u8]) -> Result<usize, Stop>
        requires room { der_bytes_fed self.old + length piece.now ≤ 2 ^ 40 }
        requires checks { CheckTypes (types_of model.now) self.old.checks }
        requires given { (bytes : List ℕ) × HasFedDer self.old model.now bytes }
        ensures checks { CheckTypes (types_of model.now) self.new.checks }
        ensures front { TakesDerFront model.now self.old self.new piece.now result }
        ensures keeps { IsKeeping self.old model.now → IsKeeping self.new model.now }
        ensures same { self.new.room ≡ self.old.room }
        ensures alone { StaysAlone self.old.pieces self.new.pieces }
        ensures memory { (bytes : List ℕ) → HasFedDer self.old model.now bytes → HasEnough self.old model.now (bytes ++ piece.now) → IsErrOf result Stop.Memory → ⊥ }
        ensures unchanged { IfOk result (λ n. n ≡ 0 → self.new.decoder ≡ self.old.decoder) }
    {
        let Some(begun) = self.decoder.begun_run() else {
            return Ok(0);
        };
        let taken = match self.run_kept(begun, model, piece) {
            Ok(taken) => taken,
            Err(_) => return Err(Stop::Memory),
        };
        if taken == 0 {
            return Ok(0);
        }
        match self.end_here(model) {
            Ok(()) => Ok(taken),
            Err(stop) => Err(stop),
        }
    }

    /// Takes components of the usual form in a run as long as they stand here, and ends the values that end behind them. It
    /// answers how many bytes that are; where they are none, only checks are changed, else values may still end at the
    /// place that it comes to.
    #[inline(always)]
    fn run_kept(&mut self, run: Run, model: &Model, piece: &[u8]) -> Result<usize, AllocError>
        requires room { run.place + length piece.now ≤ 2 ^ 40 }
        requires some { 0 < length self.old.decoder.levels.items }
        requires fresh { IsFresh self.old.decoder.due }
        requires low { run.place < run.level.end }
        requires checks { CheckTypes (types_of model.now) self.old.checks }
        requires given { (bytes : List ℕ) × RunKeeps model.now self.old run bytes }
        ensures checks { CheckTypes (types_of model.now) self.new.checks }
        ensures ok { (bytes : List ℕ) → RunKeeps model.now self.old run bytes → IfOk result (λ n. 0 < n
            → HasReadParts (der_message model.now) self.new.decoder (bytes ++ take n piece.now) × KeepsShown (der_message model.now) self.new.decoder self.new.pieces (bytes ++ take n piece.now)) }
        ensures unchanged { IfOk result (λ n. n ≡ 0 → self.new.decoder ≡ self.old.decoder) }
        ensures pieces { IfOk result (λ n. n ≡ 0 → self.new.pieces ≡ self.old.pieces) }
        ensures within { IfOk result (λ n. n ≤ length piece.now) }
        ensures stays { StaysInRun model.now self.old self.new }
        ensures memory { (bytes : List ℕ) → RunKeeps model.now self.old run bytes → HasEnough self.old model.now (bytes ++ piece.now) → IsOk result }
    {
        let mut run = run;
        let mut rest = piece;
        loop {
            let count = match self.keep_next(&mut run, model, rest) {
                Ok(count) => count,
                Err(error) => return Err(error),
            };
            if count == 0 {
                return Ok(self.decoder.leave(run, piece.len() - rest.len()));
            }
            let (_front, behind) = rest.split_at(count);
            rest = behind;
            let awaited = match self.end_kept(&mut run, model) {
                Ok(awaited) => awaited,
                Err(error) => return Err(error),
            };
            if !awaited {
                return Ok(self.decoder.leave(run, piece.len() - rest.len()));
            }
        }
    }
}
