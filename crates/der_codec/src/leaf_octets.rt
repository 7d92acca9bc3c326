//! How a checker takes the contents octets of leaves.
ghost use Rattle.std.specs.Prelude.{◌≡◌, ◌<◌, ◌+◌, ◌≤◌, ◌^◌, ◌++◌, ◌⊎◌, ℕ, List, [], IsOk, IfOk, IfErr, IsErrOf, OnOk, length, take, vec_capacity, Some, None};
ghost use Rattle.data_types.specs.Leaf.{Bytes};
ghost use Rattle.inst_pool.specs.Pieces.{Region};
ghost use Rattle.message_model.specs.Tables.{types_of};
ghost use Rattle.der_model.specs.DerMessage.{der_message};
ghost use Rattle.der_codec.specs.Reserved.{IsKeeping, HasEnough, HoldsWhole};
ghost use Rattle.der_codec.specs.Checked.{CheckTypes};
ghost use Rattle.der_codec.specs.Decoding.{HasReadParts};
ghost use Rattle.der_codec.specs.KeptPieces.{KeepsShown, HoldsLeafAt, GoesOnByLeaf, StaysAlone};
ghost use Rattle.der_codec.specs.Judging.{IsVerdictFor};
ghost use Rattle.der_codec.specs.KeptOctets.{IsKeptAt};
ghost use Rattle.der_codec.specs.OpenLeaves.{HoldsAt, HoldsAlone, HoldsNothing};
ghost use Rattle.der_codec.specs.Checking.{HasFedDer, HoldsAllOf, IsReading, KeepsRead, StopsWithin, TakesDerFront, der_bytes_fed};

use crate::checker::DerChecker;
use crate::checks::Refusal;
use crate::contents::tell;
use crate::decoder::{Due, Stop};
use crate::level::Spot;
use crate::limits::shorten;
use crate::open_leaf::{OpenLeaf, begin_leaf};
use message_model::Model;
use std::alloc::AllocError;

impl DerChecker {
    /// Judges contents octets of which none has come, where all of them stand here. It answers how many bytes are taken.
    #[inline(always)]
    pub(crate) fn begin_contents(
        &mut self,
        model: &Model,
        spot: Spot,
        left: u64,
        behind: &[u8],
    ) -> Result<usize, Stop>
        requires due { self.old.decoder.due ≡ Due.Contents spot left }
        requires begun { self.old.decoder.start ≡ self.old.decoder.place }
        requires kept { HoldsNothing self.old.kept }
        requires checks { CheckTypes (types_of model.now) self.old.checks }
        requires room { der_bytes_fed self.old + length behind.now ≤ 2 ^ 40 }
        requires given { (bytes : List ℕ) × HasReadParts (der_message model.now) self.old.decoder bytes × KeepsShown (der_message model.now) self.old.decoder self.old.pieces bytes }
        ensures checks { CheckTypes (types_of model.now) self.new.checks }
        ensures sound { self.new.failed ≡ self.old.failed }
        ensures within { IfOk result (λ n. n ≤ length behind.now) }
        ensures ok { (bytes : List ℕ) → HasReadParts (der_message model.now) self.old.decoder bytes → KeepsShown (der_message model.now) self.old.decoder self.old.pieces bytes → IfOk result (λ n. IsReading model.now self.new.decoder self.new.kept self.new.pieces (bytes ++ take n behind.now)) }
        ensures err { (bytes : List ℕ) → HasReadParts (der_message model.now) self.old.decoder bytes → IfErr result (λ stop. StopsWithin model.now self.new.decoder (bytes ++ behind.now) stop) }
        ensures keeps { IsKeeping self.old model.now → IsKeeping self.new model.now }
        ensures same { self.new.room ≡ self.old.room }
        ensures alone { StaysAlone self.old.pieces self.new.pieces }
        ensures memory { (bytes : List ℕ) → HasReadParts (der_message model.now) self.old.decoder bytes → KeepsShown (der_message model.now) self.old.decoder self.old.pieces bytes → HasEnough self.old model.now (bytes ++ behind.now) → IsErrOf result Stop.Memory → ⊥ }
    {
        if (behind.len() as u64) < left {
            return Ok(0);
        }
        let count = left as usize;
        let (front, _behind) = behind.split_at(count);
        match self.take_here(model, spot, left, front) {
            Ok(()) => Ok(count),
            Err(stop) => Err(stop),
        }
    }

    /// Judges contents octets that all stand here, where nothing is held, and ends the values that end behind them.
    #[inline(always)]
    fn take_here(&mut self, model: &Model, spot: Spot, left: u64, front: &[u8]) -> Result<(), Stop>
        requires due { self.old.decoder.due ≡ Due.Contents spot left }
        requires begun { self.old.decoder.start ≡ self.old.decoder.place }
        requires last { length front.now ≡ left }
        requires kept { HoldsNothing self.old.kept }
        requires checks { CheckTypes (types_of model.now) self.old.checks }
        requires room { der_bytes_fed self.old + length front.now ≤ 2 ^ 40 }
        requires given { (bytes : List ℕ) × HasReadParts (der_message model.now) self.old.decoder bytes × KeepsShown (der_message model.now) self.old.decoder self.old.pieces bytes }
        ensures checks { CheckTypes (types_of model.now) self.new.checks }
        ensures sound { self.new.failed ≡ self.old.failed }
        ensures ok { (bytes : List ℕ) → HasReadParts (der_message model.now) self.old.decoder bytes → KeepsShown (der_message model.now) self.old.decoder self.old.pieces bytes → IfOk result (λ _. IsReading model.now self.new.decoder self.new.kept self.new.pieces (bytes ++ front.now)) }
        ensures err { (bytes : List ℕ) → HasReadParts (der_message model.now) self.old.decoder bytes → IfErr result (λ stop. StopsWithin model.now self.new.decoder (bytes ++ front.now) stop) }
        ensures keeps { IsKeeping self.old model.now → IsKeeping self.new model.now }
        ensures same { self.new.room ≡ self.old.room }
        ensures alone { StaysAlone self.old.pieces self.new.pieces }
        ensures memory { (bytes : List ℕ) → HasReadParts (der_message model.now) self.old.decoder bytes → KeepsShown (der_message model.now) self.old.decoder self.old.pieces bytes → HasEnough self.old model.now (bytes ++ front.now) → IsErrOf result Stop.Memory → ⊥ }
    {
        match tell(&mut self.checks, &mut self.pieces, model, spot, front) {
            Ok(()) => {
                self.decoder.end_contents(spot, left);
                self.end_leaf(model)
            }
            Err(refusal) => Err(self.decoder.refused(refusal)),
        }
    }

    /// Takes as many contents octets as are due and the piece has, and answers how many bytes that are.
    #[cold]
    #[inline(never)]
    pub(crate) fn take_contents(
        &mut self,
        model: &Model,
        spot: Spot,
        left: u64,
        piece: &[u8],
    ) -> Result<usize, Stop>
        requires some { 0 < length piece.now }
        requires room { der_bytes_fed self.old + length piece.now ≤ 2 ^ 40 }
        requires due { self.old.decoder.due ≡ Due.Contents spot left }
        requires checks { CheckTypes (types_of model.now) self.old.checks }
        requires given { (bytes : List ℕ) × HasFedDer self.old model.now bytes }
        ensures checks { CheckTypes (types_of model.now) self.new.checks }
        ensures front { TakesDerFront model.now self.old self.new piece.now result }
        ensures keeps { IsKeeping self.old model.now → IsKeeping self.new model.now }
        ensures same { self.new.room ≡ self.old.room }
        ensures alone { StaysAlone self.old.pieces self.new.pieces }
        ensures memory { (bytes : List ℕ) → HasFedDer self.old model.now bytes → HasEnough self.old model.now (bytes ++ piece.now) → IsErrOf result Stop.Memory → ⊥ }
        ensures some { IfOk result (λ n. 0 < n) }
    {
        let count = fewer(piece.len(), left);
        let (front, _behind) = piece.split_at(count);
        if (count as u64) < left {
            return match self.keep(model, spot, left, front) {
                Ok(()) => Ok(count),
                Err(stop) => Err(stop),
            };
        }
        match self.take_last(model, spot, left, front) {
            Ok(()) => Ok(count),
            Err(stop) => Err(stop),
        }
    }

    /// Keeps contents octets, behind which more are due.
    fn keep(&mut self, model: &Model, spot: Spot, left: u64, front: &[u8]) -> Result<(), Stop>
        requires room { der_bytes_fed self.old + length front.now ≤ 2 ^ 40 }
        requires due { self.old.decoder.due ≡ Due.Contents spot left }
        requires more { length front.now < left }
        requires checks { CheckTypes (types_of model.now) self.old.checks }
        requires given { (bytes : List ℕ) × HasFedDer self.old model.now bytes }
        ensures checks { CheckTypes (types_of model.now) self.new.checks }
        ensures sound { self.new.failed ≡ self.old.failed }
        ensures ok { (bytes : List ℕ) → IsReading model.now self.old.decoder self.old.kept self.old.pieces bytes → IfOk result (λ _. IsReading model.now self.new.decoder self.new.kept self.new.pieces (bytes ++ front.now)) }
        ensures err { IfErr result (λ stop. stop ≡ Stop.Memory) }
        ensures keeps { IsKeeping self.old model.now → IsKeeping self.new model.now }
        ensures same { self.new.room ≡ self.old.room }
        ensures alone { StaysAlone self.old.pieces self.new.pieces }
        ensures memory { (bytes : List ℕ) → IsReading model.now self.old.decoder self.old.kept self.old.pieces bytes → HasEnough self.old model.now (bytes ++ front.now) → IsErrOf result Stop.Memory → ⊥ }
    {
        match self.hold(model, spot, front) {
            Ok(()) => {
                self.decoder.pass(spot, left, front.len() as u64);
                Ok(())
            }
            Err(_) => Err(Stop::Memory),
        }
    }

    /// Keeps contents octets; where no pieces are kept, and the leaf can be judged as they come, no more of them than is needed
    /// for that.
    fn hold(&mut self, model: &Model, spot: Spot, front: &[u8]) -> Result<(), AllocError>
        requires checks { CheckTypes (types_of model.now) self.old.checks }
        requires given { (octets : List ℕ) × HoldsAllOf (der_message model.now) spot self.old.decoder self.old.kept self.old.pieces octets × (length octets + length front.now < 2 ^ 40) }
        ensures kept { (octets : List ℕ) → HoldsAllOf (der_message model.now) spot self.old.decoder self.old.kept self.old.pieces octets
            → OnOk result (HoldsAt (der_message model.now) spot self.new.pieces self.new.kept.leaf self.new.kept.octets.items (octets ++ front.now)) }
        ensures checks { CheckTypes (types_of model.now) self.new.checks }
        ensures decoder { self.new.decoder ≡ self.old.decoder }
        ensures sound { self.new.failed ≡ self.old.failed }
        ensures pieces { self.new.pieces ≡ self.old.pieces }
        ensures same { self.new.room ≡ self.old.room }
        ensures keeps { IsKeeping self.old model.now → IsKeeping self.new model.now }
        ensures within { (region : Region) → self.old.pieces ≡ Some region → length self.old.kept.octets.items + length front.now ≤ vec_capacity self.old.kept.octets → IsOk result }
    {
        if self.pieces.is_some() {
            return self.hold_octets(model, spot, front);
        }
        self.hold_alone(model, spot, front)
    }

    /// Keeps contents octets, and of all that are kept no more than tell what they are.
    fn hold_octets(&mut self, model: &Model, spot: Spot, front: &[u8]) -> Result<(), AllocError>
        ensures kept { OnOk result (IsKeptAt (der_message model.now) spot self.new.kept.octets.items (self.old.kept.octets.items ++ front.now)) }
        ensures opened { self.new.kept.leaf ≡ self.old.kept.leaf }
        ensures decoder { self.new.decoder ≡ self.old.decoder }
        ensures checks { self.new.checks ≡ self.old.checks }
        ensures sound { self.new.failed ≡ self.old.failed }
        ensures pieces { self.new.pieces ≡ self.old.pieces }
        ensures same { self.new.room ≡ self.old.room }
        ensures room { vec_capacity self.old.kept.octets ≤ vec_capacity self.new.kept.octets }
        ensures within { length self.old.kept.octets.items + length front.now ≤ vec_capacity self.old.kept.octets → IsOk result }
    {
        if let Err(error) = self.kept.octets.extend_from_slice(front) {
            return Err(error);
        }
        shorten(model, spot, &mut self.kept.octets);
        Ok(())
    }

    /// Keeps contents octets where no pieces are kept.
    fn hold_alone(&mut self, model: &Model, spot: Spot, front: &[u8]) -> Result<(), AllocError>
        requires alone { self.old.pieces ≡ None }
        requires checks { CheckTypes (types_of model.now) self.old.checks }
        requires given { (octets : List ℕ) × HoldsAllOf (der_message model.now) spot self.old.decoder self.old.kept self.old.pieces octets × (length octets + length front.now < 2 ^ 40) }
        ensures kept { (octets : List ℕ) → HoldsAllOf (der_message model.now) spot self.old.decoder self.old.kept self.old.pieces octets
            → OnOk result (HoldsAlone (der_message model.now) spot self.new.kept.leaf self.new.kept.octets.items (octets ++ front.now)) }
        ensures checks { CheckTypes (types_of model.now) self.new.checks }
        ensures decoder { self.new.decoder ≡ self.old.decoder }
        ensures sound { self.new.failed ≡ self.old.failed }
        ensures pieces { self.new.pieces ≡ self.old.pieces }
        ensures same { self.new.room ≡ self.old.room }
    {
        if let Err(error) = self.begin_open(model, spot) {
            return Err(error);
        }
        if self.kept.leaf.is_some() {
            return self.kept.pass(model, spot, front);
        }
        self.hold_octets(model, spot, front)
    }

    /// Begins a leaf of which nothing has come, where no pieces are kept and it is judged as its octets come.
    fn begin_open(&mut self, model: &Model, spot: Spot) -> Result<(), AllocError>
        requires alone { self.old.pieces ≡ None }
        requires checks { CheckTypes (types_of model.now) self.old.checks }
        ensures kept { (octets : List ℕ) → HoldsAllOf (der_message model.now) spot self.old.decoder self.old.kept self.old.pieces octets
            → OnOk result (HoldsAlone (der_message model.now) spot self.new.kept.leaf self.new.kept.octets.items octets) }
        ensures checks { CheckTypes (types_of model.now) self.new.checks }
        ensures decoder { self.new.decoder ≡ self.old.decoder }
        ensures sound { self.new.failed ≡ self.old.failed }
        ensures pieces { self.new.pieces ≡ self.old.pieces }
        ensures same { self.new.room ≡ self.old.room }
    {
        if self.decoder.start != self.decoder.place {
            return Ok(());
        }
        match begin_leaf(&mut self.checks, model, spot) {
            Ok(leaf) => {
                self.kept.leaf = leaf;
                Ok(())
            }
            Err(error) => Err(error),
        }
    }

    /// Takes the last contents octets of a leaf, judges it, and ends the values that end behind it.
    fn take_last(&mut self, model: &Model, spot: Spot, left: u64, front: &[u8]) -> Result<(), Stop>
        requires room { der_bytes_fed self.old + length front.now ≤ 2 ^ 40 }
        requires due { self.old.decoder.due ≡ Due.Contents spot left }
        requires last { length front.now ≡ left }
        requires checks { CheckTypes (types_of model.now) self.old.checks }
        requires given { (bytes : List ℕ) × KeepsRead model.now self.old.decoder self.old.kept self.old.pieces bytes × KeepsShown (der_message model.now) self.old.decoder self.old.pieces bytes }
        ensures checks { CheckTypes (types_of model.now) self.new.checks }
        ensures sound { self.new.failed ≡ self.old.failed }
        ensures ok { (bytes : List ℕ) → KeepsRead model.now self.old.decoder self.old.kept self.old.pieces bytes → KeepsShown (der_message model.now) self.old.decoder self.old.pieces bytes
            → IfOk result (λ _. IsReading model.now self.new.decoder self.new.kept self.new.pieces (bytes ++ front.now)) }
        ensures err { (bytes : List ℕ) → KeepsRead model.now self.old.decoder self.old.kept self.old.pieces bytes → IfErr result (λ stop. StopsWithin model.now self.new.decoder (bytes ++ front.now) stop) }
        ensures keeps { IsKeeping self.old model.now → IsKeeping self.new model.now }
        ensures same { self.new.room ≡ self.old.room }
        ensures alone { StaysAlone self.old.pieces self.new.pieces }
        ensures memory { (bytes : List ℕ) → KeepsRead model.now self.old.decoder self.old.kept self.old.pieces bytes → KeepsShown (der_message model.now) self.old.decoder self.old.pieces bytes → HasEnough self.old model.now (bytes ++ front.now) → IsErrOf result Stop.Memory → ⊥ }
    {
        match self.judge_whole(model, spot, front) {
            Ok(()) => {
                self.decoder.end_contents(spot, left);
                self.end_leaf(model)
            }
            Err(refusal) => Err(self.decoder.refused(refusal)),
        }
    }

    /// Judges contents octets, of which these are the last.
    fn judge_whole(&mut self, model: &Model, spot: Spot, front: &[u8]) -> Result<(), Refusal>
        requires room { der_bytes_fed self.old + length front.now ≤ 2 ^ 40 }
        requires checks { CheckTypes (types_of model.now) self.old.checks }
        requires given { (octets : List ℕ) × (length octets < der_bytes_fed self.old) × HoldsAllOf (der_message model.now) spot self.old.decoder self.old.kept self.old.pieces octets }
        ensures checks { CheckTypes (types_of model.now) self.new.checks }
        ensures judged { (octets : List ℕ) → HoldsAllOf (der_message model.now) spot self.old.decoder self.old.kept self.old.pieces octets → IsVerdictFor (der_message model.now) spot (octets ++ front.now) result }
        ensures decoder { self.new.decoder ≡ self.old.decoder }
        ensures sound { self.new.failed ≡ self.old.failed }
        ensures kept { IfOk result (λ _. HoldsNothing self.new.kept) }
        ensures shown { (octets : List ℕ) → HoldsAllOf (der_message model.now) spot self.old.decoder self.old.kept self.old.pieces octets → IfOk result (λ _. GoesOnByLeaf (der_message model.now) spot (octets ++ front.now) self.old.pieces self.new.pieces) }
        ensures keeps { IsKeeping self.old model.now → IsKeeping self.new model.now }
        ensures same { self.new.room ≡ self.old.room }
        ensures alone { StaysAlone self.old.pieces self.new.pieces }
        ensures within { HoldsWhole self.old model.now spot front.now → IsErrOf result Refusal.Memory → ⊥ }
    {
        if self.kept.leaf.is_some() {
            return self.judge_open(model, spot, front);
        }
        self.judge_held(model, spot, front)
    }

    /// The same of a leaf that is open.
    fn judge_open(&mut self, model: &Model, spot: Spot, front: &[u8]) -> Result<(), Refusal>
        requires room { der_bytes_fed self.old + length front.now ≤ 2 ^ 40 }
        requires checks { CheckTypes (types_of model.now) self.old.checks }
        requires opened { (leaf : OpenLeaf) × (self.old.kept.leaf ≡ Some leaf) }
        requires given { (octets : List ℕ) × (length octets < der_bytes_fed self.old) × HoldsAllOf (der_message model.now) spot self.old.decoder self.old.kept self.old.pieces octets }
        ensures checks { CheckTypes (types_of model.now) self.new.checks }
        ensures judged { (octets : List ℕ) → HoldsAllOf (der_message model.now) spot self.old.decoder self.old.kept self.old.pieces octets → IsVerdictFor (der_message model.now) spot (octets ++ front.now) result }
        ensures leaf { (octets : List ℕ) → HoldsAllOf (der_message model.now) spot self.old.decoder self.old.kept self.old.pieces octets → IfOk result (λ _. HoldsLeafAt (der_message model.now) spot (octets ++ front.now) (Bytes (octets ++ front.now))) }
        ensures decoder { self.new.decoder ≡ self.old.decoder }
        ensures sound { self.new.failed ≡ self.old.failed }
        ensures pieces { self.new.pieces ≡ self.old.pieces }
        ensures kept { IfOk result (λ _. HoldsNothing self.new.kept) }
        ensures same { self.new.room ≡ self.old.room }
    {
        let count = self.decoder.place - self.decoder.start + front.len() as u64;
        self.kept
            .finish(&mut self.checks, model, spot, front, count)
    }

    /// The same of octets that stand for those that have come. Where none were kept they are judged where they lie.
    fn judge_held(&mut self, model: &Model, spot: Spot, front: &[u8]) -> Result<(), Refusal>
        requires short { length self.old.kept.octets.items + length front.now < 2 ^ 40 }
        requires opened { self.old.kept.leaf ≡ None }
        requires checks { CheckTypes (types_of model.now) self.old.checks }
        ensures checks { CheckTypes (types_of model.now) self.new.checks }
        ensures judged { IsVerdictFor (der_message model.now) spot (self.old.kept.octets.items ++ front.now) result }
        ensures decoder { self.new.decoder ≡ self.old.decoder }
        ensures sound { self.new.failed ≡ self.old.failed }
        ensures kept { IfOk result (λ _. HoldsNothing self.new.kept) }
        ensures shown { IfOk result (λ _. GoesOnByLeaf (der_message model.now) spot (self.old.kept.octets.items ++ front.now) self.old.pieces self.new.pieces) }
        ensures keeps { IsKeeping self.old model.now → IsKeeping self.new model.now }
        ensures same { self.new.room ≡ self.old.room }
        ensures alone { StaysAlone self.old.pieces self.new.pieces }
        ensures within { HoldsWhole self.old model.now spot front.now → IsErrOf result Refusal.Memory → ⊥ }
    {
        if self.kept.octets.is_empty() {
            return tell(&mut self.checks, &mut self.pieces, model, spot, front);
        }
        if let Err(_error) = self.kept.octets.extend_from_slice(front) {
            return Err(Refusal::Memory);
        }
        let result = tell(
            &mut self.checks,
            &mut self.pieces,
            model,
            spot,
            self.kept.octets.as_slice(),
        );
        self.kept.octets.clear();
        result
    }
}

/// The lesser of two counts.
fn fewer(have: usize, left: u64) -> usize
    ensures have { result ≤ have }
    ensures left { result ≤ left }
    ensures one { (result ≡ have) ⊎ (result ≡ left) }
{
    if have as u64 <= left {
        return have;
    }
    left as usize
}
