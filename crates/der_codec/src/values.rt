//! How a checker begins and ends values, and the elements of an instance with them.
ghost use Rattle.std.specs.Prelude.{◌≡◌, ◌<◌, ◌+◌, ◌^◌, ◌++◌, ◌∷◌, [], ℕ, List, IsOk, IfOk, IfErr, IsErrOf, OnOk, length, true, false};
ghost use Rattle.der_model.specs.DerMessage.{der_message};
ghost use Rattle.der_model.specs.NestedPieces.{elements_around};
ghost use Rattle.der_model.specs.ShownPieces.{end_each, elements_ended};
ghost use Rattle.der_model.specs.States.{State};
ghost use Rattle.der_codec.specs.Checking.{IsReading, IsNoContents, StopsWithin, der_bytes_fed};
ghost use Rattle.der_codec.specs.Decoding.{HasReadParts, IsStopped, IsSettled, IsBelowEnd, IsFresh, IsFreshOrOver, IsOctetAwaited, IsOpenState, IsNoCut, BeginsContents, IsHeaderDue, end_of_levels};
ghost use Rattle.der_codec.specs.KeptPieces.{KeepsShown, PiecesGoOn, AreOpen, EndsLeaf, around_of, begun_pieces, StaysAlone};
ghost use Rattle.der_codec.specs.Levels.{inwards};
ghost use Rattle.der_codec.specs.OpenLeaves.{HoldsNothing};
ghost use Rattle.der_codec.specs.ReadInstances.{IsSpelledDerAs};
ghost use Rattle.der_codec.specs.Reserved.{IsKeeping, HasEnough, HoldMore};

use crate::checker::DerChecker;
use crate::decoder::{Due, Stop};
use crate::envelopes::is_sound;
use crate::pieces::{begin, end};
use inst_pool::Instance;
use message_model::{InstanceError, Model};

impl DerChecker {
    /// Takes an octet of a header. Behind the last of identifier octets the elements of their component begin.
    pub(crate) fn take_octet(&mut self, model: &Model, octet: u8) -> Result<(), Stop>
        requires room { der_bytes_fed self.old < 2 ^ 63 }
        requires due { IsHeaderDue self.old.decoder.due }
        requires low { IsBelowEnd self.old.decoder.place (end_of_levels self.old.decoder.levels.items) }
        requires read { (bytes : List ℕ) × HasReadParts (der_message model.now) self.old.decoder bytes }
        ensures kept { self.new.kept ≡ self.old.kept }
        ensures checks { self.new.checks ≡ self.old.checks }
        ensures sound { self.new.failed ≡ self.old.failed }
        ensures ok { (bytes : List ℕ) → HasReadParts (der_message model.now) self.old.decoder bytes → IfOk result (λ _. HasReadParts (der_message model.now) self.new.decoder (bytes ++ octet ∷ [])) }
        ensures shown { (bytes : List ℕ) → HasReadParts (der_message model.now) self.old.decoder bytes → KeepsShown (der_message model.now) self.old.decoder self.old.pieces bytes → IfOk result (λ _. KeepsShown (der_message model.now) self.new.decoder self.new.pieces (bytes ++ octet ∷ [])) }
        ensures err { (bytes : List ℕ) → HasReadParts (der_message model.now) self.old.decoder bytes → IfErr result (λ stop. IsStopped (der_message model.now) self.new.decoder (bytes ++ octet ∷ []) stop) }
        ensures stays { (bytes : List ℕ) → HasReadParts (der_message model.now) self.old.decoder bytes → IfErr result (λ stop. IsNoCut stop) }
        ensures place { IfOk result (λ _. der_bytes_fed self.new ≡ der_bytes_fed self.old + 1) }
        ensures low { IfOk result (λ _. IsSettled self.new.decoder.due self.new.decoder.place (end_of_levels self.new.decoder.levels.items)) }
        ensures begun { IfOk result (λ _. BeginsContents self.new.decoder.due self.new.decoder.start self.new.decoder.place) }
        ensures keeps { IsKeeping self.old model.now → IsKeeping self.new model.now }
        ensures same { self.new.room ≡ self.old.room }
        ensures alone { StaysAlone self.old.pieces self.new.pieces }
        ensures memory { (bytes : List ℕ) → HasReadParts (der_message model.now) self.old.decoder bytes → KeepsShown (der_message model.now) self.old.decoder self.old.pieces bytes → HasEnough self.old model.now (bytes ++ octet ∷ []) → IsErrOf result Stop.Memory → ⊥ }
    {
        let due = self.decoder.due;
        match self.decoder.take_header(model, octet) {
            Ok(()) => match due {
                Due::Tag(_) => self.begin_component(model),
                _ => Ok(()),
            },
            Err(stop) => Err(stop),
        }
    }

    /// Where identifier octets have come as a whole, the elements of their component begin.
    fn begin_component(&mut self, model: &Model) -> Result<(), Stop>
        ensures decoder { self.new.decoder ≡ self.old.decoder }
        ensures kept { self.new.kept ≡ self.old.kept }
        ensures checks { self.new.checks ≡ self.old.checks }
        ensures sound { self.new.failed ≡ self.old.failed }
        ensures shown { (state : State ℕ) → IsOpenState (der_message model.now) (inwards self.old.decoder.levels.items) self.old.decoder.due state → OnOk result (PiecesGoOn self.old.pieces self.new.pieces (begun_pieces (der_message model.now) state)) }
        ensures err { IfErr result (λ stop. stop ≡ Stop.Memory) }
        ensures keeps { IsKeeping self.old model.now → IsKeeping self.new model.now }
        ensures same { self.new.room ≡ self.old.room }
        ensures alone { StaysAlone self.old.pieces self.new.pieces }
        ensures within { (state : State ℕ) → IsOpenState (der_message model.now) (inwards self.old.decoder.levels.items) self.old.decoder.due state → HoldMore self.old.pieces (begun_pieces (der_message model.now) state) → IsOk result }
    {
        match self.decoder.due {
            Due::Length { .. } => match begin(&mut self.pieces, model, &self.decoder) {
                Ok(()) => Ok(()),
                Err(_) => Err(Stop::Memory),
            },
            _ => Ok(()),
        }
    }

    /// The elements end that end with the component that came last.
    #[inline(always)]
    fn end_component(&mut self, model: &Model) -> Result<(), Stop>
        requires { (bytes : List ℕ) × (r : HasReadParts (der_message model.now) self.old.decoder bytes) × AreOpen self.old.pieces (elements_around (der_message model.now) (around_of r.state)) }
        ensures decoder { self.new.decoder ≡ self.old.decoder }
        ensures kept { self.new.kept ≡ self.old.kept }
        ensures checks { self.new.checks ≡ self.old.checks }
        ensures sound { self.new.failed ≡ self.old.failed }
        ensures shown { (bytes : List ℕ) (r : HasReadParts (der_message model.now) self.old.decoder bytes) → AreOpen self.old.pieces (elements_around (der_message model.now) (around_of r.state))
            → OnOk result (PiecesGoOn self.old.pieces self.new.pieces (end_each (elements_ended (der_message model.now) (around_of r.state)))) }
        ensures err { IfErr result (λ stop. stop ≡ Stop.Memory) }
        ensures keeps { IsKeeping self.old model.now → IsKeeping self.new model.now }
        ensures same { self.new.room ≡ self.old.room }
        ensures alone { StaysAlone self.old.pieces self.new.pieces }
        ensures within { (bytes : List ℕ) (r : HasReadParts (der_message model.now) self.old.decoder bytes) → HoldMore self.old.pieces (end_each (elements_ended (der_message model.now) (around_of r.state))) → IsOk result }
    {
        match end(&mut self.pieces, model, &self.decoder) {
            Ok(()) => Ok(()),
            Err(_) => Err(Stop::Memory),
        }
    }

    /// Ends the values that end here, where no identifier octet has come.
    #[inline(always)]
    pub(crate) fn end_open(&mut self, model: &Model) -> Result<(), Stop>
        requires settled { IsSettled self.old.decoder.due self.old.decoder.place (end_of_levels self.old.decoder.levels.items) }
        requires header { IsNoContents self.old.decoder.due }
        requires kept { HoldsNothing self.old.kept }
        requires given { (bytes : List ℕ) × HasReadParts (der_message model.now) self.old.decoder bytes × KeepsShown (der_message model.now) self.old.decoder self.old.pieces bytes }
        ensures checks { self.new.checks ≡ self.old.checks }
        ensures sound { self.new.failed ≡ self.old.failed }
        ensures ok { (bytes : List ℕ) → HasReadParts (der_message model.now) self.old.decoder bytes → KeepsShown (der_message model.now) self.old.decoder self.old.pieces bytes → IfOk result (λ _. IsReading model.now self.new.decoder self.new.kept self.new.pieces bytes) }
        ensures err { (bytes : List ℕ) → HasReadParts (der_message model.now) self.old.decoder bytes → IfErr result (λ stop. StopsWithin model.now self.new.decoder bytes stop) }
        ensures keeps { IsKeeping self.old model.now → IsKeeping self.new model.now }
        ensures same { self.new.room ≡ self.old.room }
        ensures alone { StaysAlone self.old.pieces self.new.pieces }
        ensures memory { (bytes : List ℕ) → HasReadParts (der_message model.now) self.old.decoder bytes → KeepsShown (der_message model.now) self.old.decoder self.old.pieces bytes → HasEnough self.old model.now (bytes) → IsErrOf result Stop.Memory → ⊥ }
    {
        if self.decoder.is_fresh() {
            return self.end_here(model);
        }
        Ok(())
    }

    /// Ends all values that end at this place, where no identifier octet has come. Mostly none does.
    #[inline(always)]
    pub(crate) fn end_here(&mut self, model: &Model) -> Result<(), Stop>
        requires fresh { IsFresh self.old.decoder.due }
        requires kept { HoldsNothing self.old.kept }
        requires given { (bytes : List ℕ) × HasReadParts (der_message model.now) self.old.decoder bytes × KeepsShown (der_message model.now) self.old.decoder self.old.pieces bytes }
        ensures checks { self.new.checks ≡ self.old.checks }
        ensures sound { self.new.failed ≡ self.old.failed }
        ensures ok { (bytes : List ℕ) → HasReadParts (der_message model.now) self.old.decoder bytes → KeepsShown (der_message model.now) self.old.decoder self.old.pieces bytes → IfOk result (λ _. IsReading model.now self.new.decoder self.new.kept self.new.pieces bytes) }
        ensures err { (bytes : List ℕ) → HasReadParts (der_message model.now) self.old.decoder bytes → IfErr result (λ stop. StopsWithin model.now self.new.decoder bytes stop) }
        ensures keeps { IsKeeping self.old model.now → IsKeeping self.new model.now }
        ensures same { self.new.room ≡ self.old.room }
        ensures alone { StaysAlone self.old.pieces self.new.pieces }
        ensures memory { (bytes : List ℕ) → HasReadParts (der_message model.now) self.old.decoder bytes → KeepsShown (der_message model.now) self.old.decoder self.old.pieces bytes → HasEnough self.old model.now (bytes) → IsErrOf result Stop.Memory → ⊥ }
    {
        if !self.decoder.ends_here() {
            return Ok(());
        }
        self.end_all(model)
    }

    /// Ends all values that end at this place, where no identifier octet has come.
    #[inline(never)]
    fn end_all(&mut self, model: &Model) -> Result<(), Stop>
        requires fresh { IsFresh self.old.decoder.due }
        requires kept { HoldsNothing self.old.kept }
        requires given { (bytes : List ℕ) × HasReadParts (der_message model.now) self.old.decoder bytes × KeepsShown (der_message model.now) self.old.decoder self.old.pieces bytes }
        ensures checks { self.new.checks ≡ self.old.checks }
        ensures sound { self.new.failed ≡ self.old.failed }
        ensures ok { (bytes : List ℕ) → HasReadParts (der_message model.now) self.old.decoder bytes → KeepsShown (der_message model.now) self.old.decoder self.old.pieces bytes → IfOk result (λ _. IsReading model.now self.new.decoder self.new.kept self.new.pieces bytes) }
        ensures err { (bytes : List ℕ) → HasReadParts (der_message model.now) self.old.decoder bytes → IfErr result (λ stop. StopsWithin model.now self.new.decoder bytes stop) }
        ensures keeps { IsKeeping self.old model.now → IsKeeping self.new model.now }
        ensures same { self.new.room ≡ self.old.room }
        ensures alone { StaysAlone self.old.pieces self.new.pieces }
        ensures memory { (bytes : List ℕ) → HasReadParts (der_message model.now) self.old.decoder bytes → KeepsShown (der_message model.now) self.old.decoder self.old.pieces bytes → HasEnough self.old model.now (bytes) → IsErrOf result Stop.Memory → ⊥ }
    {
        loop {
            let ended = match self.end_one(model) {
                Ok(ended) => ended,
                Err(stop) => return Err(stop),
            };
            if !ended {
                return Ok(());
            }
            if self.decoder.is_over() {
                return Ok(());
            }
        }
    }

    /// Ends the innermost value where it ends at this place, and no identifier octet has come. It answers whether it has.
    #[inline(always)]
    fn end_one(&mut self, model: &Model) -> Result<bool, Stop>
        requires fresh { IsFresh self.old.decoder.due }
        requires given { (bytes : List ℕ) × HasReadParts (der_message model.now) self.old.decoder bytes × KeepsShown (der_message model.now) self.old.decoder self.old.pieces bytes }
        ensures kept { self.new.kept ≡ self.old.kept }
        ensures checks { self.new.checks ≡ self.old.checks }
        ensures sound { self.new.failed ≡ self.old.failed }
        ensures ok { (bytes : List ℕ) → HasReadParts (der_message model.now) self.old.decoder bytes → IfOk result (λ _. HasReadParts (der_message model.now) self.new.decoder bytes) }
        ensures shown { (bytes : List ℕ) → HasReadParts (der_message model.now) self.old.decoder bytes → KeepsShown (der_message model.now) self.old.decoder self.old.pieces bytes → IfOk result (λ _. KeepsShown (der_message model.now) self.new.decoder self.new.pieces bytes) }
        ensures err { (bytes : List ℕ) → HasReadParts (der_message model.now) self.old.decoder bytes → IfErr result (λ stop. StopsWithin model.now self.new.decoder bytes stop) }
        ensures keeps { IsKeeping self.old model.now → IsKeeping self.new model.now }
        ensures same { self.new.room ≡ self.old.room }
        ensures alone { StaysAlone self.old.pieces self.new.pieces }
        ensures memory { (bytes : List ℕ) → HasReadParts (der_message model.now) self.old.decoder bytes → KeepsShown (der_message model.now) self.old.decoder self.old.pieces bytes → HasEnough self.old model.now (bytes) → IsErrOf result Stop.Memory → ⊥ }
        ensures ended { IfOk result (λ ended. ended ≡ true → IsFreshOrOver self.new.decoder.due) }
        ensures less { IfOk result (λ ended. ended ≡ true → length self.new.decoder.levels.items < length self.old.decoder.levels.items) }
        ensures open { (bytes : List ℕ) → HasReadParts (der_message model.now) self.old.decoder bytes → IfOk result (λ ended. ended ≡ false → IsOctetAwaited self.new.decoder.due self.new.decoder.place (end_of_levels self.new.decoder.levels.items)) }
    {
        let ended = match self.decoder.end(model) {
            Ok(ended) => ended,
            Err(stop) => return Err(stop),
        };
        if !ended {
            return Ok(false);
        }
        match self.end_component(model) {
            Ok(()) => Ok(true),
            Err(stop) => Err(stop),
        }
    }

    /// Ends the elements that end with a leaf, which is the last piece, and then the values that end behind it.
    #[inline(always)]
    pub(crate) fn end_leaf(&mut self, model: &Model) -> Result<(), Stop>
        requires fresh { IsFresh self.old.decoder.due }
        requires kept { HoldsNothing self.old.kept }
        requires given { (bytes : List ℕ) × EndsLeaf (der_message model.now) self.old.decoder self.old.pieces bytes }
        ensures checks { self.new.checks ≡ self.old.checks }
        ensures sound { self.new.failed ≡ self.old.failed }
        ensures ok { (bytes : List ℕ) → EndsLeaf (der_message model.now) self.old.decoder self.old.pieces bytes → IfOk result (λ _. IsReading model.now self.new.decoder self.new.kept self.new.pieces bytes) }
        ensures err { (bytes : List ℕ) → HasReadParts (der_message model.now) self.old.decoder bytes → IfErr result (λ stop. StopsWithin model.now self.new.decoder bytes stop) }
        ensures keeps { IsKeeping self.old model.now → IsKeeping self.new model.now }
        ensures same { self.new.room ≡ self.old.room }
        ensures alone { StaysAlone self.old.pieces self.new.pieces }
        ensures memory { (bytes : List ℕ) → EndsLeaf (der_message model.now) self.old.decoder self.old.pieces bytes → HasEnough self.old model.now (bytes) → IsErrOf result Stop.Memory → ⊥ }
    {
        match self.end_component(model) {
            Ok(()) => self.end_here(model),
            Err(stop) => Err(stop),
        }
    }

    /// The pieces of the instance, where the bytes are whole.
    pub(crate) fn instance(self, model: &Model) -> Result<Instance, InstanceError>
        requires given { (bytes : List ℕ) × HasReadParts (der_message model.now) self.decoder bytes × KeepsShown (der_message model.now) self.decoder self.pieces bytes }
        ensures ok { (bytes : List ℕ) → HasReadParts (der_message model.now) self.decoder bytes → KeepsShown (der_message model.now) self.decoder self.pieces bytes → IfOk result (λ i. IsSpelledDerAs model.now bytes i.region.pieces) }
        ensures err { IfErr result (λ e. e ≡ InstanceError.Memory) }
    {
        is_sound(model);
        if !self.decoder.is_over() {
            return Err(InstanceError::Memory);
        }
        let DerChecker { pieces, .. } = self;
        let builder = match pieces {
            Some(builder) => builder,
            None => return Err(InstanceError::Memory),
        };
        Ok(builder.finish())
    }
}
