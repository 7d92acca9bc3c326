//! A checker of the DER of instances that takes their bytes in pieces.
ghost use Rattle.std.specs.Prelude.{◌≡◌, ◌<◌, ◌+◌, ◌≤◌, ◌^◌, ◌++◌, ℕ, List, [], IsOk, IfOk, IfErr, IsErrOf, Some, None, Err, length, take};
ghost use Rattle.facets.specs.LeafChecks.{IsHeldWithin};
ghost use Rattle.inst_pool.specs.Pieces.{Region};
ghost use Rattle.message_model.specs.Tables.{Tables, types_of};
ghost use Rattle.message_model.specs.Errors.{IsSameOrMemory, IsAgain};
ghost use Rattle.der_model.specs.DerMessage.{der_message};
ghost use Rattle.der_codec.specs.Checked.{CheckTypes};
ghost use Rattle.der_codec.specs.ReadInstances.{IsSpelledDerAs};
ghost use Rattle.der_codec.specs.Decoding.{HasReadParts, IsStopped, IsSettled, IsFresh, BeginsContents, IsHeaderDue, end_of_levels};
ghost use Rattle.der_codec.specs.KeptPieces.{KeepsShown, AreNone, StaysAlone};
ghost use Rattle.der_codec.specs.Reserved.{IsKeeping, HasEnough};
ghost use Rattle.der_codec.specs.OpenLeaves.{HoldsNothing};
ghost use Rattle.der_codec.specs.Limits.{OpensFreeText, OpensBinary, OpensEnvelope, open_limit, leaf_come, token_come};
ghost use Rattle.der_codec.specs.Moved.{ReadsFrom, DerStopsFrom, DerEndsFrom, IsWholeFrom};
ghost use Rattle.der_codec.specs.Checking.{HasFedDer, ChecksAlone, IsReading, IsDerCheckerFor, StopsWithin, TakesDerFront, DerStops, HaveDerFault, IsSpelledDer, DerEndsAs, IsFreed, IsHeldOfEnvelope, open_count, der_bytes_fed, der_failure, held_contents, held_by_check, token_held};

use crate::checks::Checks;
use crate::decoder::{Decoder, Due, Stop};
use crate::envelopes::fragments_apart;
use crate::held::Held;
use crate::room::Room;
use inst_pool::{Builder, Instance};
use message_model::{Fault, InstanceError, Model};
use std::alloc::{AllocError, Global};

/// A checker of an instance. It keeps the open values, of contents octets that are not whole no more than tell what
/// they are (of an envelope what the check of its fragment holds of an open tag), and nothing of what is closed; for a
/// reader the pieces of what has come, too.
#[derive(Drop)]
pub struct DerChecker {
    pub(crate) alloc: Global,
    pub(crate) decoder: Decoder,
    /// What is held of the contents octets that have come, where more of them are due.
    pub(crate) kept: Held,
    pub(crate) checks: Checks,
    /// The pieces of what has come, where they are kept.
    pub(crate) pieces: Option<Builder>,
    /// How much is reserved, where pieces are kept.
    pub(crate) room: Room,
    /// The answer that it gives for good, where there is one.
    failed: Option<InstanceError>,
}

impl DerChecker {
    /// A checker for the message before the first byte. It takes no memory.
    pub fn new(alloc: Global, model: &Model) -> Result<DerChecker, AllocError>
        ensures fed { IfOk result (λ c. HasFedDer c model.now []) }
        ensures made { IfOk result (λ c. IsDerCheckerFor c model.now) }
        ensures none { IfOk result (λ c. der_bytes_fed c ≡ 0) }
        ensures alone { IfOk result (λ c. ChecksAlone c) }
        ensures some { IsOk result }
    {
        let _ = model;
        Ok(DerChecker::start(alloc, None))
    }

    /// The same of one that keeps the pieces of what has come.
    pub(crate) fn with_pieces(alloc: Global, model: &Model) -> Result<DerChecker, AllocError>
        ensures fed { IfOk result (λ c. HasFedDer c model.now []) }
        ensures made { IfOk result (λ c. IsDerCheckerFor c model.now) }
        ensures keeping { IfOk result (λ c. IsKeeping c model.now) }
        ensures none { IfOk result (λ c. der_bytes_fed c ≡ 0) }
        ensures some { IsOk result }
    {
        let _ = model;
        Ok(DerChecker::start(alloc, Some(Builder::new(alloc))))
    }

    /// A checker before the first byte, with these pieces, of which there are none yet.
    fn start(alloc: Global, pieces: Option<Builder>) -> DerChecker
        requires { AreNone pieces }
        ensures fed { (T : Tables) → HasFedDer result T [] }
        ensures made { (T : Tables) → IsDerCheckerFor result T }
        ensures keeping { (T : Tables) (region : Region) → pieces ≡ Some region → IsKeeping result T }
        ensures none { der_bytes_fed result ≡ 0 }
        ensures pieces { result.pieces ≡ pieces }
    {
        DerChecker {
            alloc,
            decoder: Decoder::new(alloc),
            kept: Held::new(alloc),
            checks: Checks::new(alloc),
            pieces,
            room: Room {
                depth: 0,
                nodes: 0,
                bytes: 0,
            },
            failed: None,
        }
    }

    /// How many values and lists have begun and not ended.
    pub fn depth(&self) -> usize
        ensures { (T : Tables) (bytes : List ℕ) (h : HasFedDer self.now T bytes) → result ≡ open_count h.reading.read.state }
    {
        self.decoder.depth()
    }

    /// How many bytes are held of the leaf that is open: of its contents octets those that are kept, where more are
    /// due. At most four are held for each that has come, within the limit of the leaf, and 64. Where no pieces are
    /// kept they are those of the last character of a text without codes, where it is not whole, of a binary value none,
    /// and of an envelope those that the check of its fragment holds of an open tag. The check of such a text keeps no
    /// bytes; those of all other leaves begin when all octets have come. None are held after an error.
    pub fn scratch(&self) -> u64
        ensures count { result ≡ held_contents self.now }
        ensures bound { (T : Tables) (bytes : List ℕ) (h : HasFedDer self.now T bytes)
            → IsHeldWithin (open_limit (der_message T) h.reading.read.state) (leaf_come h.reading.read.state h.reading.read.rest) result }
        ensures free { (T : Tables) (bytes : List ℕ) (h : HasFedDer self.now T bytes) → ChecksAlone self.now → OpensFreeText (der_message T) h.reading.read.state → result ≤ 3 }
        ensures binary { (T : Tables) (bytes : List ℕ) (h : HasFedDer self.now T bytes) → ChecksAlone self.now → OpensBinary (der_message T) h.reading.read.state → result ≡ 0 }
        ensures envelope { (T : Tables) (bytes : List ℕ) (h : HasFedDer self.now T bytes) → ChecksAlone self.now → OpensEnvelope (der_message T) h.reading.read.state → IsHeldOfEnvelope self.now h.reading.read.rest result }
        ensures check { (T : Tables) (bytes : List ℕ) (h : HasFedDer self.now T bytes) → (OpensEnvelope (der_message T) h.reading.read.state → ⊥) → held_by_check self.now ≡ 0 }
    {
        self.kept.count()
    }

    /// How many bytes are held of identifier or length octets, where more of them are due: eight at most, and none
    /// after an error.
    pub fn token(&self) -> u64
        ensures count { result ≡ token_held self.now }
        ensures come { (T : Tables) (bytes : List ℕ) (h : HasFedDer self.now T bytes)
            → result ≡ token_come h.reading.read.state h.reading.read.rest }
        ensures bound { (T : Tables) (bytes : List ℕ) → HasFedDer self.now T bytes → result ≤ 8 }
    {
        self.decoder.header_come()
    }

    /// Takes the next bytes, of at most 2^40 in all. It answers the first fault at the byte that
    /// shows it, its place a byte number from 0: of a message that begins at another place the fault
    /// is that, as far on. After an error it gives the same answer to every later call, or that there
    /// is no memory for it, and holds nothing of what has come.
    pub fn feed(&mut self, model: &Model, piece: &[u8]) -> Result<(), InstanceError>
        requires room { der_failure self.old ≡ None → der_bytes_fed self.old + length piece.now ≤ 2 ^ 40 }
        requires made { IsDerCheckerFor self.old model.now }
        ensures made { IsDerCheckerFor self.new model.now }
        ensures ok { (bytes : List ℕ) → HasFedDer self.old model.now bytes → IfOk result (λ _. HasFedDer self.new model.now (bytes ++ piece.now)) }
        ensures err { (bytes : List ℕ) → HasFedDer self.old model.now bytes → IfErr result (λ e. DerStops model.now (bytes ++ piece.now) e) }
        ensures ok_from { (base : ℕ) (bytes : List ℕ) → HasFedDer self.old model.now bytes → IfOk result (λ _. ReadsFrom model.now base self.new.decoder (bytes ++ piece.now)) }
        ensures err_from { (base : ℕ) (bytes : List ℕ) → HasFedDer self.old model.now bytes → IfErr result (λ e. DerStopsFrom model.now base (bytes ++ piece.now) e) }
        ensures count { IfOk result (λ _. der_bytes_fed self.new ≡ der_bytes_fed self.old + length piece.now) }
        ensures failed { der_failure self.old ≡ None → IfErr result (λ e. der_failure self.new ≡ Some e) }
        ensures again { (e : InstanceError) → der_failure self.old ≡ Some e → IsAgain e result × (der_failure self.new ≡ der_failure self.old) }
        ensures freed { IfErr result (λ _. IsFreed self.new) }
        ensures keeps { IsKeeping self.old model.now → IfOk result (λ _. IsKeeping self.new model.now) }
        ensures room { IfOk result (λ _. self.new.room ≡ self.old.room) }
        ensures alone { ChecksAlone self.old → ChecksAlone self.new }
        ensures memory { (bytes : List ℕ) → HasFedDer self.old model.now bytes → HasEnough self.old model.now (bytes ++ piece.now) → IsErrOf result InstanceError.Memory → HaveDerFault model.now (bytes ++ piece.now) }
    {
        if let Some(error) = &self.failed {
            return Err(match error.copy(self.alloc) {
                Ok(error) => error,
                Err(_) => InstanceError::Memory,
            });
        }
        match self.feed_all(model, piece) {
            Ok(()) => Ok(()),
            Err(stop) => {
                let error = self.told(model, stop);
                Err(self.stop(error))
            }
        }
    }

    /// Goes on no more, holds nothing of what has come, and keeps why; where there is no memory for that, the error is that.
    fn stop(&mut self, error: InstanceError) -> InstanceError
        ensures same { IsSameOrMemory error result }
        ensures kept { der_failure self.new ≡ Some result }
        ensures checks { self.new.checks ≡ self.old.checks }
        ensures freed { IsFreed self.new }
    {
        self.free();
        match error.copy(self.alloc) {
            Ok(copy) => {
                self.failed = Some(copy);
                error
            }
            Err(_) => {
                self.failed = Some(InstanceError::Memory);
                InstanceError::Memory
            }
        }
    }

    /// Holds nothing more of what has come: neither octets nor open values nor pieces.
    fn free(&mut self)
        ensures freed { IsFreed self.new }
        ensures checks { self.new.checks ≡ self.old.checks }
    {
        self.kept = Held::new(self.alloc);
        self.decoder = Decoder::new(self.alloc);
        self.pieces = None;
    }

    /// Why the reader stops, as it is told.
    fn told(&self, model: &Model, stop: Stop) -> InstanceError
        ensures within { (bytes : List ℕ) → StopsWithin model.now self.now.decoder bytes stop → DerStops model.now bytes result }
        ensures end { (bytes : List ℕ) → IsStopped (der_message model.now) self.now.decoder bytes stop → DerEndsAs model.now bytes result }
    {
        match stop {
            Stop::Memory => InstanceError::Memory,
            Stop::Fault { rule, place, added } => {
                match self.decoder.path(self.alloc, model, added) {
                    Ok(path) => InstanceError::Refused(Fault { rule, place, path }),
                    Err(_) => InstanceError::Memory,
                }
            }
        }
    }

    /// Takes the next bytes, where nothing was refused.
    fn feed_all(&mut self, model: &Model, piece: &[u8]) -> Result<(), Stop>
        requires room { der_bytes_fed self.old + length piece.now ≤ 2 ^ 40 }
        requires checks { CheckTypes (types_of model.now) self.old.checks }
        requires given { (bytes : List ℕ) × HasFedDer self.old model.now bytes }
        ensures checks { CheckTypes (types_of model.now) self.new.checks }
        ensures ok { (bytes : List ℕ) → HasFedDer self.old model.now bytes → IfOk result (λ _. HasFedDer self.new model.now (bytes ++ piece.now)) }
        ensures err { (bytes : List ℕ) → HasFedDer self.old model.now bytes → IfErr result (λ stop. StopsWithin model.now self.new.decoder (bytes ++ piece.now) stop) }
        ensures keeps { IsKeeping self.old model.now → IsKeeping self.new model.now }
        ensures same { self.new.room ≡ self.old.room }
        ensures alone { StaysAlone self.old.pieces self.new.pieces }
        ensures memory { (bytes : List ℕ) → HasFedDer self.old model.now bytes → HasEnough self.old model.now (bytes ++ piece.now) → IsErrOf result Stop.Memory → ⊥ }
    {
        let mut rest = piece;
        while !rest.is_empty() {
            match self.take_front(model, rest) {
                Ok(count) => {
                    let (_, behind) = rest.split_at(count);
                    rest = behind;
                }
                Err(stop) => return Err(stop),
            }
        }
        Ok(())
    }

    /// Takes contents octets, or else a byte of a header and what can be taken with it, and answers how many bytes that
    /// are.
    fn take_front(&mut self, model: &Model, piece: &[u8]) -> Result<usize, Stop>
        requires some { 0 < length piece.now }
        requires room { der_bytes_fed self.old + length piece.now ≤ 2 ^ 40 }
        requires checks { CheckTypes (types_of model.now) self.old.checks }
        requires given { (bytes : List ℕ) × HasFedDer self.old model.now bytes }
        ensures checks { CheckTypes (types_of model.now) self.new.checks }
        ensures front { TakesDerFront model.now self.old self.new piece.now result }
        ensures keeps { IsKeeping self.old model.now → IsKeeping self.new model.now }
        ensures same { self.new.room ≡ self.old.room }
        ensures alone { StaysAlone self.old.pieces self.new.pieces }
        ensures memory { (bytes : List ℕ) → HasFedDer self.old model.now bytes → HasEnough self.old model.now (bytes ++ piece.now) → IsErrOf result Stop.Memory → ⊥ }
        ensures some { IfOk result (λ n. 0 < n) }
    {
        match self.decoder.due {
            Due::Over => Err(self.decoder.trailing()),
            Due::Contents { spot, left } => self.take_contents(model, spot, left, piece),
            _ => self.take_header(model, piece),
        }
    }

    /// Takes components of the usual form as long as they stand here, or else the first byte of a header; and ends the
    /// values that end behind it.
    #[inline(always)]
    fn take_header(&mut self, model: &Model, piece: &[u8]) -> Result<usize, Stop>
        requires some { 0 < length piece.now }
        requires room { der_bytes_fed self.old + length piece.now ≤ 2 ^ 40 }
        requires due { IsHeaderDue self.old.decoder.due }
        requires checks { CheckTypes (types_of model.now) self.old.checks }
        requires given { (bytes : List ℕ) × HasFedDer self.old model.now bytes }
        ensures checks { CheckTypes (types_of model.now) self.new.checks }
        ensures front { TakesDerFront model.now self.old self.new piece.now result }
        ensures keeps { IsKeeping self.old model.now → IsKeeping self.new model.now }
        ensures same { self.new.room ≡ self.old.room }
        ensures alone { StaysAlone self.old.pieces self.new.pieces }
        ensures memory { (bytes : List ℕ) → HasFedDer self.old model.now bytes → HasEnough self.old model.now (bytes ++ piece.now) → IsErrOf result Stop.Memory → ⊥ }
        ensures some { IfOk result (λ n. 0 < n) }
    {
        if self.pieces.is_some() {
            return self.take_kept(model, piece);
        }
        let taken = self.take_run(model, piece);
        if taken == 0 {
            return self.take_first(model, piece);
        }
        match self.end_here(model) {
            Ok(()) => Ok(taken),
            Err(stop) => Err(stop),
        }
    }

    /// Takes components of the usual form as long as they stand here, where no pieces are kept. It answers how many octets
    /// that are; where they are none, only checks are changed.
    #[inline(always)]
    fn take_run(&mut self, model: &Model, piece: &[u8]) -> usize
        requires alone { self.old.pieces ≡ None }
        requires room { der_bytes_fed self.old + length piece.now ≤ 2 ^ 40 }
        requires checks { CheckTypes (types_of model.now) self.old.checks }
        requires given { (bytes : List ℕ) × HasFedDer self.old model.now bytes }
        ensures checks { CheckTypes (types_of model.now) self.new.checks }
        ensures unchanged { result ≡ 0 → self.new.decoder ≡ self.old.decoder }
        ensures kept { self.new.kept ≡ self.old.kept }
        ensures pieces { self.new.pieces ≡ self.old.pieces }
        ensures same { self.new.room ≡ self.old.room }
        ensures sound { self.new.failed ≡ self.old.failed }
        ensures none { 0 < result → self.new.pieces ≡ None }
        ensures within { result ≤ length piece.now }
        ensures ok { (bytes : List ℕ) → HasReadParts (der_message model.now) self.old.decoder bytes → HasReadParts (der_message model.now) self.new.decoder (bytes ++ take result piece.now) }
        ensures fresh { 0 < result → IsFresh self.new.decoder.due }
    {
        self.decoder.take_run(&mut self.checks, model, piece)
    }

    /// Takes the first byte of the piece, which is one of a header, with it a length of one byte and the contents where
    /// all of them stand in the piece, and ends the values that end behind them.
    #[inline(never)]
    pub(crate) fn take_first(&mut self, model: &Model, piece: &[u8]) -> Result<usize, Stop>
        requires some { 0 < length piece.now }
        requires room { der_bytes_fed self.old + length piece.now ≤ 2 ^ 40 }
        requires due { IsHeaderDue self.old.decoder.due }
        requires checks { CheckTypes (types_of model.now) self.old.checks }
        requires given { (bytes : List ℕ) × HasFedDer self.old model.now bytes }
        ensures checks { CheckTypes (types_of model.now) self.new.checks }
        ensures front { TakesDerFront model.now self.old self.new piece.now result }
        ensures keeps { IsKeeping self.old model.now → IsKeeping self.new model.now }
        ensures same { self.new.room ≡ self.old.room }
        ensures alone { StaysAlone self.old.pieces self.new.pieces }
        ensures memory { (bytes : List ℕ) → HasFedDer self.old model.now bytes → HasEnough self.old model.now (bytes ++ piece.now) → IsErrOf result Stop.Memory → ⊥ }
        ensures some { IfOk result (λ n. 0 < n) }
    {
        let Some((byte, behind)) = piece.split_first() else {
            return Ok(0);
        };
        match self.take_octet(model, *byte) {
            Ok(()) => match self.take_behind(model, behind) {
                Ok(count) => Ok(1 + count),
                Err(stop) => Err(stop),
            },
            Err(stop) => Err(stop),
        }
    }

    /// Goes on behind a byte of a header: takes a length of one byte, where one is due, and contents that stand here as
    /// a whole, and ends the values that end behind them. It answers how many bytes more are taken.
    fn take_behind(&mut self, model: &Model, behind: &[u8]) -> Result<usize, Stop>
        requires room { der_bytes_fed self.old + length behind.now ≤ 2 ^ 40 }
        requires settled { IsSettled self.old.decoder.due self.old.decoder.place (end_of_levels self.old.decoder.levels.items) }
        requires begun { BeginsContents self.old.decoder.due self.old.decoder.start self.old.decoder.place }
        requires kept { HoldsNothing self.old.kept }
        requires checks { CheckTypes (types_of model.now) self.old.checks }
        requires given { (bytes : List ℕ) × HasReadParts (der_message model.now) self.old.decoder bytes × KeepsShown (der_message model.now) self.old.decoder self.old.pieces bytes }
        ensures checks { CheckTypes (types_of model.now) self.new.checks }
        ensures sound { self.new.failed ≡ self.old.failed }
        ensures within { IfOk result (λ n. n ≤ length behind.now) }
        ensures ok { (bytes : List ℕ) → HasReadParts (der_message model.now) self.old.decoder bytes → KeepsShown (der_message model.now) self.old.decoder self.old.pieces bytes → IfOk result (λ n. IsReading model.now self.new.decoder self.new.kept self.new.pieces (bytes ++ take n behind.now)) }
        ensures err { (bytes : List ℕ) → HasReadParts (der_message model.now) self.old.decoder bytes → IfErr result (λ stop. StopsWithin model.now self.new.decoder (bytes ++ behind.now) stop) }
        ensures keeps { IsKeeping self.old model.now → IsKeeping self.new model.now }
        ensures same { self.new.room ≡ self.old.room }
        ensures alone { StaysAlone self.old.pieces self.new.pieces }
        ensures memory { (bytes : List ℕ) → HasReadParts (der_message model.now) self.old.decoder bytes → KeepsShown (der_message model.now) self.old.decoder self.old.pieces bytes → HasEnough self.old model.now (bytes ++ behind.now) → IsErrOf result Stop.Memory → ⊥ }
    {
        match self.decoder.take_short(behind) {
            Ok(count) => {
                let (_front, left) = behind.split_at(count);
                match self.settle(model, left) {
                    Ok(more) => Ok(count + more),
                    Err(stop) => Err(stop),
                }
            }
            Err(stop) => Err(stop),
        }
    }

    /// Judges contents octets where all that are due stand here, and ends the values that end behind them. It answers
    /// how many bytes are taken.
    #[inline(always)]
    fn settle(&mut self, model: &Model, behind: &[u8]) -> Result<usize, Stop>
        requires settled { IsSettled self.old.decoder.due self.old.decoder.place (end_of_levels self.old.decoder.levels.items) }
        requires begun { BeginsContents self.old.decoder.due self.old.decoder.start self.old.decoder.place }
        requires kept { HoldsNothing self.old.kept }
        requires checks { CheckTypes (types_of model.now) self.old.checks }
        requires room { der_bytes_fed self.old + length behind.now ≤ 2 ^ 40 }
        requires given { (bytes : List ℕ) × HasReadParts (der_message model.now) self.old.decoder bytes × KeepsShown (der_message model.now) self.old.decoder self.old.pieces bytes }
        ensures checks { CheckTypes (types_of model.now) self.new.checks }
        ensures sound { self.new.failed ≡ self.old.failed }
        ensures within { IfOk result (λ n. n ≤ length behind.now) }
        ensures ok { (bytes : List ℕ) → HasReadParts (der_message model.now) self.old.decoder bytes → KeepsShown (der_message model.now) self.old.decoder self.old.pieces bytes → IfOk result (λ n. IsReading model.now self.new.decoder self.new.kept self.new.pieces (bytes ++ take n behind.now)) }
        ensures err { (bytes : List ℕ) → HasReadParts (der_message model.now) self.old.decoder bytes → IfErr result (λ stop. StopsWithin model.now self.new.decoder (bytes ++ behind.now) stop) }
        ensures keeps { IsKeeping self.old model.now → IsKeeping self.new model.now }
        ensures same { self.new.room ≡ self.old.room }
        ensures alone { StaysAlone self.old.pieces self.new.pieces }
        ensures memory { (bytes : List ℕ) → HasReadParts (der_message model.now) self.old.decoder bytes → KeepsShown (der_message model.now) self.old.decoder self.old.pieces bytes → HasEnough self.old model.now (bytes ++ behind.now) → IsErrOf result Stop.Memory → ⊥ }
    {
        match self.decoder.due {
            Due::Contents { spot, left } => self.begin_contents(model, spot, left, behind),
            _ => match self.end_open(model) {
                Ok(()) => Ok(0),
                Err(stop) => Err(stop),
            },
        }
    }

    /// The end of the bytes: they spell an instance, or have a first fault. After an error of `feed`
    /// it gives the same.
    pub fn finish(mut self, model: &Model) -> Result<(), InstanceError>
        ensures ok { (bytes : List ℕ) → HasFedDer self model.now bytes → IfOk result (λ _. IsSpelledDer model.now bytes) }
        ensures err { (bytes : List ℕ) → HasFedDer self model.now bytes → IfErr result (λ e. DerEndsAs model.now bytes e) }
        ensures ok_from { (base : ℕ) (bytes : List ℕ) → HasFedDer self model.now bytes → IfOk result (λ _. IsWholeFrom model.now base bytes) }
        ensures err_from { (base : ℕ) (bytes : List ℕ) → HasFedDer self model.now bytes → IfErr result (λ e. DerEndsFrom model.now base bytes e) }
        ensures again { (e : InstanceError) → der_failure self ≡ Some e → result ≡ Err e }
    {
        if let Some(error) = self.failed.take() {
            return Err(error);
        }
        self.finish_all(model)
    }

    /// The same of one that keeps pieces, which are those of the instance.
    pub(crate) fn finish_pieces(mut self, model: &Model) -> Result<Instance, InstanceError>
        requires made { IsDerCheckerFor self model.now }
        ensures ok { (bytes : List ℕ) → HasFedDer self model.now bytes → IfOk result (λ i. IsSpelledDerAs model.now bytes i.region.pieces) }
        ensures err { (bytes : List ℕ) → HasFedDer self model.now bytes → IfErr result (λ e. DerEndsAs model.now bytes e) }
        ensures ok_from { (base : ℕ) (bytes : List ℕ) → HasFedDer self model.now bytes → IfOk result (λ _. IsWholeFrom model.now base bytes) }
        ensures err_from { (base : ℕ) (bytes : List ℕ) → HasFedDer self model.now bytes → IfErr result (λ e. DerEndsFrom model.now base bytes e) }
        ensures again { (e : InstanceError) → der_failure self ≡ Some e → result ≡ Err e }
    {
        if let Some(error) = self.failed.take() {
            return Err(error);
        }
        match self.finish_all(model) {
            Ok(()) => self.instance(model),
            Err(error) => Err(error),
        }
    }

    /// The end of the bytes, where nothing was refused.
    fn finish_all(&self, model: &Model) -> Result<(), InstanceError>
        ensures ok { (bytes : List ℕ) → HasFedDer self.now model.now bytes → IfOk result (λ _. IsSpelledDer model.now bytes) }
        ensures err { (bytes : List ℕ) → HasFedDer self.now model.now bytes → IfErr result (λ e. DerEndsAs model.now bytes e) }
        ensures ok_from { (base : ℕ) (bytes : List ℕ) → HasFedDer self.now model.now bytes → IfOk result (λ _. IsWholeFrom model.now base bytes) }
        ensures err_from { (base : ℕ) (bytes : List ℕ) → HasFedDer self.now model.now bytes → IfErr result (λ e. DerEndsFrom model.now base bytes e) }
    {
        let _ = model.type_count();
        fragments_apart();
        if self.decoder.is_over() {
            return Ok(());
        }
        let stop = self.decoder.truncated();
        Err(self.told(model, stop))
    }
}
