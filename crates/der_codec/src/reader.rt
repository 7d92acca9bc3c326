//! A reader of the DER of instances that takes their bytes in pieces, and keeps the pieces of the instance.
ghost use Rattle.std.specs.Prelude.{◌≡◌, ◌+◌, ◌≤◌, ◌^◌, ◌++◌, ℕ, List, [], IsOk, IfOk, IfErr, IsErrOf, OnOk, OnErr, Some, None, Err, length};
ghost use Rattle.facets.specs.LeafChecks.{IsHeldWithin};
ghost use Rattle.message_model.specs.Tables.{Tables};
ghost use Rattle.message_model.specs.Errors.{IsAgain};
ghost use Rattle.der_model.specs.DerMessage.{der_message};
ghost use Rattle.der_codec.specs.Checking.{DerStops, HaveDerFault, DerEndsAs, open_count};
ghost use Rattle.der_codec.specs.Limits.{open_limit, leaf_come, token_come};
ghost use Rattle.der_codec.specs.Moved.{DerStopsFrom, DerEndsFrom, IsWholeFrom};
ghost use Rattle.der_codec.specs.ReadInstances.{HasKeptPieces, HasReadFrom, IsDerReaderFor, IsReaderFreed, IsSpelledDerAs, read_so_far, der_reader_failure, reserved_room, reader_held, reader_token_held};
ghost use Rattle.der_codec.specs.Rooms.{BeginsEnough, ShowsEnough};

use crate::checker::DerChecker;
use crate::envelopes::is_sound;
use crate::room::Room;
use inst_pool::Instance;
use message_model::{InstanceError, Model};
use std::alloc::{AllocError, Global};

/// A reader of an instance. Beside what `DerChecker` keeps it has the pieces of what has come.
#[derive(Drop)]
pub struct DerReader {
    checker: DerChecker,
}

impl DerReader {
    /// A reader for the message before the first byte. It takes no memory.
    pub fn new(alloc: Global, model: &Model) -> Result<DerReader, AllocError>
        ensures fed { IfOk result (λ r. HasKeptPieces r model.now []) }
        ensures made { IfOk result (λ r. IsDerReaderFor r model.now) }
        ensures none { IfOk result (λ r. read_so_far r ≡ 0) }
        ensures some { IsOk result }
    {
        match DerChecker::with_pieces(alloc, model) {
            Err(error) => Err(error),
            Ok(checker) => Ok(DerReader { checker }),
        }
    }

    /// Takes the memory for so much from the first byte on, in the place of what was reserved before: in a message without
    /// envelopes reading does not want any while the room is enough for what the bytes so far have shown, save for the
    /// path of a fault. Whatever the answer, what was read is as before.
    pub fn reserve(&mut self, model: &Model, room: Room) -> Result<(), AllocError>
        requires made { IsDerReaderFor self.old model.now }
        ensures made { IsDerReaderFor self.new model.now }
        ensures kept { (bytes : List ℕ) → HasKeptPieces self.old model.now bytes → HasKeptPieces self.new model.now bytes }
        ensures ok { OnOk result (reserved_room self.new ≡ room) }
        ensures err { OnErr result (reserved_room self.new ≡ reserved_room self.old) }
        ensures count { read_so_far self.new ≡ read_so_far self.old }
        ensures failed { der_reader_failure self.new ≡ der_reader_failure self.old }
    {
        self.checker.reserve(model, room)
    }

    /// How many values and lists have begun and not ended.
    pub fn depth(&self) -> usize
        ensures { (T : Tables) (bytes : List ℕ) (h : HasKeptPieces self.now T bytes) → result ≡ open_count h.given.reading.read.state }
    {
        self.checker.depth()
    }

    /// How many bytes are held of the leaf that is open, as by `DerChecker`.
    pub fn scratch(&self) -> u64
        ensures count { result ≡ reader_held self.now }
        ensures bound { (T : Tables) (bytes : List ℕ) (h : HasKeptPieces self.now T bytes)
            → IsHeldWithin (open_limit (der_message T) h.given.reading.read.state) (leaf_come h.given.reading.read.state h.given.reading.read.rest) result }
    {
        self.checker.scratch()
    }

    /// How many bytes are held of identifier or length octets, as by `DerChecker`.
    pub fn token(&self) -> u64
        ensures count { result ≡ reader_token_held self.now }
        ensures come { (T : Tables) (bytes : List ℕ) (h : HasKeptPieces self.now T bytes)
            → result ≡ token_come h.given.reading.read.state h.given.reading.read.rest }
        ensures bound { (T : Tables) (bytes : List ℕ) → HasKeptPieces self.now T bytes → result ≤ 8 }
    {
        self.checker.token()
    }

    /// Takes the next bytes, of at most 2^40 in all. It answers the first fault at the byte that
    /// shows it, its place a byte number from 0: of a message that begins at another place the fault
    /// is that, as far on. After an error it gives the same answer to every later call, or that there
    /// is no memory for it, and keeps nothing of what has come.
    pub fn feed(&mut self, model: &Model, piece: &[u8]) -> Result<(), InstanceError>
        requires room { der_reader_failure self.old ≡ None → read_so_far self.old + length piece.now ≤ 2 ^ 40 }
        requires made { IsDerReaderFor self.old model.now }
        ensures made { IsDerReaderFor self.new model.now }
        ensures ok { (bytes : List ℕ) → HasKeptPieces self.old model.now bytes → IfOk result (λ _. HasKeptPieces self.new model.now (bytes ++ piece.now)) }
        ensures err { (bytes : List ℕ) → HasKeptPieces self.old model.now bytes → IfErr result (λ e. DerStops model.now (bytes ++ piece.now) e) }
        ensures ok_from { (base : ℕ) (bytes : List ℕ) → HasKeptPieces self.old model.now bytes → IfOk result (λ _. HasReadFrom self.new model.now base (bytes ++ piece.now)) }
        ensures err_from { (base : ℕ) (bytes : List ℕ) → HasKeptPieces self.old model.now bytes → IfErr result (λ e. DerStopsFrom model.now base (bytes ++ piece.now) e) }
        ensures count { IfOk result (λ _. read_so_far self.new ≡ read_so_far self.old + length piece.now) }
        ensures failed { der_reader_failure self.old ≡ None → IfErr result (λ e. der_reader_failure self.new ≡ Some e) }
        ensures again { (e : InstanceError) → der_reader_failure self.old ≡ Some e → IsAgain e result × (der_reader_failure self.new ≡ der_reader_failure self.old) }
        ensures freed { IfErr result (λ _. IsReaderFreed self.new) }
        ensures room { IfOk result (λ _. reserved_room self.new ≡ reserved_room self.old) }
        ensures memory { (bytes : List ℕ) → HasKeptPieces self.old model.now bytes → ShowsEnough model.now (reserved_room self.old) (bytes ++ piece.now) → IsErrOf result InstanceError.Memory → HaveDerFault model.now (bytes ++ piece.now) }
        ensures fits { (bytes : List ℕ) → HasKeptPieces self.old model.now bytes → BeginsEnough model.now (reserved_room self.old) (bytes ++ piece.now) → IsOk result }
    {
        is_sound(model);
        self.checker.feed(model, piece)
    }

    /// The end of the bytes: the pieces of the instance that they spell, or their first fault. After
    /// an error of `feed` it gives the same.
    pub fn finish(self, model: &Model) -> Result<Instance, InstanceError>
        requires made { IsDerReaderFor self model.now }
        ensures ok { (bytes : List ℕ) → HasKeptPieces self model.now bytes → IfOk result (λ i. IsSpelledDerAs model.now bytes i.region.pieces) }
        ensures err { (bytes : List ℕ) → HasKeptPieces self model.now bytes → IfErr result (λ e. DerEndsAs model.now bytes e) }
        ensures ok_from { (base : ℕ) (bytes : List ℕ) → HasKeptPieces self model.now bytes → IfOk result (λ _. IsWholeFrom model.now base bytes) }
        ensures err_from { (base : ℕ) (bytes : List ℕ) → HasKeptPieces self model.now bytes → IfErr result (λ e. DerEndsFrom model.now base bytes e) }
        ensures again { (e : InstanceError) → der_reader_failure self ≡ Some e → result ≡ Err e }
    {
        self.checker.finish_pieces(model)
    }
}
