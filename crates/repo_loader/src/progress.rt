//! How far a repository file is read.
ghost use Rattle.std.specs.Prelude.{◌≡◌, ◌<◌, ◌≤◌, ◌^◌, ◌+◌, [], ◌∷◌, ◌++◌, ℕ, List, Some, IfOk, IfNone, length, take, map};
ghost use Rattle.markup.specs.Events.{Placed};
ghost use Rattle.markup.specs.EventItems.{placed_event};
ghost use Rattle.markup.specs.Reading.{bytes_taken, IsWholly};
ghost use Rattle.repo_loader.specs.Loaded.{file_limit, Spells};
ghost use Rattle.repo_loader.specs.inner.SelectionSteps.{HasLoaded, LoadsOn, HaveTexts};
ghost use Rattle.repo_loader.specs.inner.ProgressSteps.{HasReadFile, ReadsOn, ReadsFront, is_front, TakesFront, TakesSome, FileEndsAs, markup_fault, TellsFault};

use crate::fault::LoadFault;
use crate::selection::Selection;
use markup::{Events, MarkError, MarkFault, Reader};
use repo_objects::Repository;
use std::alloc::{AllocError, Global};

/// Reads the bytes of a repository file as XML, and what their events say.
#[derive(Drop)]
pub struct Progress {
    reader: Reader,
    /// The events of the last byte.
    events: Events,
    selection: Selection,
}

/// What the front of a piece is.
#[derive(Drop)]
pub enum Front {
    /// So many bytes are read.
    Read(usize),
    /// It shows this fault.
    Breaks(LoadFault),
}

/// Whether bytes are read, or a fault is shown.
fn is_front(front: &Front) -> bool
    ensures { result ≡ is_front front.now }
{
    match front {
        Front::Read(count) => *count > 0,
        Front::Breaks(_) => true,
    }
}

/// The fault of a file whose markup has this one.
fn fault_of_markup(fault: MarkFault) -> LoadFault
    ensures { result ≡ markup_fault fault }
{
    LoadFault {
        rule: 1,
        markup: Some(fault.rule),
        place: fault.place,
    }
}

impl Progress {
    /// Before the first byte. It takes no memory.
    pub fn new(alloc: Global) -> Progress
        ensures read { HasReadFile result [] }
        ensures none { bytes_taken result.reader ≡ 0 }
    {
        Progress {
            reader: Reader::new(alloc),
            events: Events::new(alloc),
            selection: Selection::new(alloc),
        }
    }

    /// Reads the events of the last byte. It answers the first fault of their elements.
    fn take_events(&mut self) -> Result<Option<LoadFault>, AllocError>
        requires loaded { (told : List Placed) × HasLoaded self.old.selection told }
        requires texts { HaveTexts self.old.events }
        ensures reader { self.new.reader ≡ self.old.reader }
        ensures none { self.new.events ≡ [] }
        ensures loaded { (told : List Placed) → HasLoaded self.old.selection told → IfOk result (λ o. LoadsOn self.new.selection (told ++ map placed_event self.old.events) o) }
    {
        let result = self.selection.take_events(self.events.as_slice());
        self.events.clear();
        result
    }

    /// The first fault, where the last byte shows this one of markup: an element before it may
    /// break a rule.
    fn first_fault(&mut self, fault: MarkFault) -> Result<LoadFault, AllocError>
        requires loaded { (told : List Placed) × HasLoaded self.old.selection told }
        requires texts { HaveTexts self.old.events }
        ensures { (told : List Placed) → HasLoaded self.old.selection told → IfOk result (λ f. TellsFault (told ++ map placed_event self.old.events) fault f) }
    {
        match self.take_events()? {
            Some(found) => Ok(found),
            None => Ok(fault_of_markup(fault)),
        }
    }

    /// Takes the next byte. It answers the fault that the byte shows.
    fn take(&mut self, byte: u8) -> Result<Option<LoadFault>, AllocError>
        requires count { bytes_taken self.old.reader < 2 ^ 40 }
        requires read { (bytes : List ℕ) × HasReadFile self.old bytes }
        ensures read { (bytes : List ℕ) → HasReadFile self.old bytes → IfOk result (λ o. ReadsOn self.new (bytes ++ byte ∷ []) o) }
        ensures count { IfOk result (λ o. IfNone o (bytes_taken self.new.reader ≡ bytes_taken self.old.reader + 1)) }
    {
        match self.reader.take(byte, &mut self.events) {
            Ok(()) => self.take_events(),
            Err(MarkError::Refused(fault)) => Ok(Some(self.first_fault(fault)?)),
            Err(MarkError::Memory) => Err(AllocError),
        }
    }

    /// Takes the characters at the front of the piece that the reader tells by their number alone:
    /// they say nothing.
    fn take_characters(&mut self, piece: &[u8]) -> usize
        requires { bytes_taken self.old.reader + length piece.now < 2 ^ 40 }
        ensures within { result ≤ length piece.now }
        ensures read { (bytes : List ℕ) → HasReadFile self.old bytes → HasReadFile self.new (bytes ++ take result piece.now) }
        ensures count { bytes_taken self.new.reader ≡ bytes_taken self.old.reader + result }
    {
        self.reader.take_characters(piece).bytes
    }

    /// Takes the bytes at the front of the piece that go on with a tag, a comment or an instruction:
    /// they say nothing yet.
    fn take_inside(&mut self, piece: &[u8]) -> Result<usize, AllocError>
        requires { bytes_taken self.old.reader + length piece.now < 2 ^ 40 }
        ensures within { IfOk result (λ n. n ≤ length piece.now) }
        ensures read { (bytes : List ℕ) → HasReadFile self.old bytes → IfOk result (λ n. HasReadFile self.new (bytes ++ take n piece.now)) }
        ensures count { IfOk result (λ n. bytes_taken self.new.reader ≡ bytes_taken self.old.reader + n) }
    {
        match self.reader.take_inside(piece) {
            Ok(count) => Ok(count),
            Err(_) => Err(AllocError),
        }
    }

    /// Takes the first byte of the piece.
    fn take_one(&mut self, piece: &[u8]) -> Result<Front, AllocError>
        requires some { 0 < length piece.now }
        requires count { bytes_taken self.old.reader + length piece.now < 2 ^ 40 }
        requires read { (bytes : List ℕ) × HasReadFile self.old bytes }
        ensures some { IfOk result (λ f. TakesSome self.old self.new piece.now f) }
        ensures read { (bytes : List ℕ) → HasReadFile self.old bytes → IfOk result (λ f. ReadsFront self.new bytes piece.now f) }
    {
        let Some((byte, _)) = piece.split_first() else {
            return Ok(Front::Read(0));
        };
        match self.take(*byte)? {
            Some(fault) => Ok(Front::Breaks(fault)),
            None => Ok(Front::Read(1)),
        }
    }

    /// Takes the start tag at the front of the piece, where one stands there that the reader takes as
    /// a whole; no bytes where none does.
    fn take_start_tag(&mut self, piece: &[u8]) -> Result<Front, AllocError>
        requires count { bytes_taken self.old.reader + length piece.now < 2 ^ 40 }
        requires read { (bytes : List ℕ) × HasReadFile self.old bytes }
        ensures count { IfOk result (λ f. TakesFront self.old self.new piece.now f) }
        ensures read { (bytes : List ℕ) → HasReadFile self.old bytes → IfOk result (λ f. ReadsFront self.new bytes piece.now f) }
    {
        let place = self.reader.place();
        let tag = match self.reader.take_start_tag(piece) {
            Ok(Some(tag)) => tag,
            Ok(None) => return Ok(Front::Read(0)),
            Err(MarkError::Refused(fault)) => return Ok(Front::Breaks(fault_of_markup(fault))),
            Err(MarkError::Memory) => return Err(AllocError),
        };
        match self.selection.take_tag(place, &tag)? {
            Some(fault) => Ok(Front::Breaks(fault)),
            None => Ok(Front::Read(tag.bytes)),
        }
    }

    /// Takes what stands at the front of the piece: characters, or what goes on with the open token,
    /// or a start tag, or else its first byte.
    fn take_front(&mut self, piece: &[u8]) -> Result<Front, AllocError>
        requires some { 0 < length piece.now }
        requires count { bytes_taken self.old.reader + length piece.now < 2 ^ 40 }
        requires read { (bytes : List ℕ) × HasReadFile self.old bytes }
        ensures some { IfOk result (λ f. TakesSome self.old self.new piece.now f) }
        ensures read { (bytes : List ℕ) → HasReadFile self.old bytes → IfOk result (λ f. ReadsFront self.new bytes piece.now f) }
    {
        let characters = self.take_characters(piece);
        if characters > 0 {
            return Ok(Front::Read(characters));
        }
        let inside = self.take_inside(piece)?;
        if inside > 0 {
            return Ok(Front::Read(inside));
        }
        let tag = self.take_start_tag(piece)?;
        if is_front(&tag) {
            return Ok(tag);
        }
        self.take_one(piece)
    }

    /// Takes the next bytes, as far as the first that shows a fault.
    pub fn take_all(&mut self, piece: &[u8]) -> Result<Option<LoadFault>, AllocError>
        requires count { bytes_taken self.old.reader + length piece.now < 2 ^ 40 }
        requires read { (bytes : List ℕ) × HasReadFile self.old bytes }
        ensures read { (bytes : List ℕ) → HasReadFile self.old bytes → IfOk result (λ o. ReadsOn self.new (bytes ++ piece.now) o) }
        ensures count { IfOk result (λ o. IfNone o (bytes_taken self.new.reader ≡ bytes_taken self.old.reader + length piece.now)) }
    {
        let mut rest = piece;
        while !rest.is_empty() {
            let count = match self.take_front(rest)? {
                Front::Read(count) => count,
                Front::Breaks(fault) => return Ok(Some(fault)),
            };
            let (_, behind) = rest.split_at(count);
            rest = behind;
        }
        Ok(None)
    }

    /// The end of the bytes. It answers the fault where they end too early.
    pub fn finish(&mut self) -> Result<Option<LoadFault>, AllocError>
        ensures { (bytes : List ℕ) → HasReadFile self.old bytes → IfOk result (λ o. FileEndsAs self.new bytes o) }
    {
        match self.reader.finish(&mut self.events) {
            Ok(()) => Ok(None),
            Err(MarkError::Refused(fault)) => Ok(Some(fault_of_markup(fault))),
            Err(MarkError::Memory) => Err(AllocError),
        }
    }

    /// The repository that the bytes spell, which are whole.
    pub fn take_repository(&mut self) -> Result<Repository, AllocError>
        requires { (told : List Placed) × HasLoaded self.old.selection told }
        ensures { (bytes : List ℕ) (told : List Placed) → HasLoaded self.old.selection told → IsWholly bytes told → length bytes ≤ file_limit → IfOk result (λ r. Spells bytes r) }
    {
        self.selection.take_repository()
    }
}
