//! A reader of XML instances that takes their bytes in pieces, and keeps the pieces of the instance.
ghost use Rattle.std.specs.Prelude.{◌≡◌, ◌+◌, ◌<◌, ◌≤◌, ◌^◌, ◌++◌, ℕ, List, [], IsOk, IfOk, IfErr, Some, None, Err, length};
ghost use Rattle.markup.specs.Marks.{tag_limit};
ghost use Rattle.message_model.specs.Tables.{Tables, message_of};
ghost use Rattle.message_model.specs.Errors.{IsAgain};
ghost use Rattle.xml_instances.specs.Levels.{levels_over};
ghost use Rattle.xml_instances.specs.XmlFaults.{items_told};
ghost use Rattle.xml_instances.specs.Checking.{XmlStops, XmlEndsAs, IsSpelledAs};
ghost use Rattle.xml_instances.specs.ReadInstances.{HasFedReader, IsXmlReaderFor, reader_fed, reader_failed, reader_scratch, reader_token, IsReaderBare, HoldsOpenLeafAlone, HasReaderLetGo};
ghost use Rattle.xml_instances.specs.Scratch.{IsScratchWithin};

use crate::checker::XmlChecker;
use inst_pool::Instance;
use message_model::{InstanceError, Model};
use std::alloc::{AllocError, Global};

/// A reader of an instance. Beside what `XmlChecker` keeps it has the bytes of the open leaf, the pieces of the elements
/// so far, and the canonical fragment so far of the element of an envelope.
#[derive(Drop)]
pub struct XmlReader {
    checker: XmlChecker,
}

impl XmlReader {
    /// A reader for the message before the first byte. It takes no memory.
    pub fn new(alloc: Global, model: &Model) -> Result<XmlReader, AllocError>
        ensures fed { IfOk result (λ r. HasFedReader r model.now []) }
        ensures made { IfOk result (λ r. IsXmlReaderFor r model.now) }
        ensures none { IfOk result (λ r. reader_fed r ≡ 0) }
        ensures leaves { IfOk result (λ r. HoldsOpenLeafAlone r) }
        ensures some { IsOk result }
    {
        Ok(XmlReader {
            checker: XmlChecker::with_pieces(alloc, model)?,
        })
    }

    /// How many elements are open, those in envelopes too.
    pub fn depth(&self) -> usize
        ensures { (T : Tables) (bytes : List ℕ) (h : HasFedReader self.now T bytes) → result ≡ length (levels_over (message_of T) [] (items_told h.told)) }
    {
        self.checker.depth()
    }

    /// How many bytes are held for leaves beside the pieces: those of the text of the open one, at most four
    /// to each of its characters so far, of which no more count than the limit of its type, and 64.
    pub fn scratch(&self) -> u64
        ensures count { result ≡ reader_scratch self.now }
        ensures bound { (T : Tables) (bytes : List ℕ) (h : HasFedReader self.now T bytes) → IsScratchWithin (levels_over (message_of T) [] (items_told h.told)) result }
    {
        self.checker.scratch()
    }

    /// How many bytes are held for the open token, as by `XmlChecker`.
    pub fn token(&self) -> u64
        ensures count { reader_token self.now < 2 ^ 64 → result ≡ reader_token self.now }
        ensures held { (T : Tables) (bytes : List ℕ) → HasFedReader self.now T bytes → result ≡ reader_token self.now }
        ensures bound { (T : Tables) (bytes : List ℕ) → HasFedReader self.now T bytes → result ≤ tag_limit }
    {
        self.checker.token()
    }

    /// Takes the next bytes, of at most 2^40 in all. It answers the first fault at the byte that
    /// shows it, its place a byte number from 0. Of leaves that have ended it holds the pieces alone.
    /// After an error it gives the same answer to every later call, or that there is no memory for it,
    /// and holds no bytes of a leaf or a token, no judge, no events and no pieces.
    pub fn feed(&mut self, model: &Model, piece: &[u8]) -> Result<(), InstanceError>
        requires room { reader_failed self.old ≡ None → reader_fed self.old + length piece.now ≤ 2 ^ 40 }
        requires made { IsXmlReaderFor self.old model.now }
        ensures made { IsXmlReaderFor self.new model.now }
        ensures ok { (bytes : List ℕ) → HasFedReader self.old model.now bytes → IfOk result (λ _. HasFedReader self.new model.now (bytes ++ piece.now)) }
        ensures err { (bytes : List ℕ) → HasFedReader self.old model.now bytes → IfErr result (λ e. XmlStops model.now (bytes ++ piece.now) e) }
        ensures count { IfOk result (λ _. reader_fed self.new ≡ reader_fed self.old + length piece.now) }
        ensures failed { reader_failed self.old ≡ None → IfErr result (λ e. reader_failed self.new ≡ Some e) }
        ensures again { (e : InstanceError) → reader_failed self.old ≡ Some e → IsAgain e result × (reader_failed self.new ≡ reader_failed self.old) }
        ensures still { (e : InstanceError) → reader_failed self.old ≡ Some e → self.new ≡ self.old }
        ensures leaves { HoldsOpenLeafAlone self.new }
        ensures freed { reader_failed self.old ≡ None → IfErr result (λ _. (reader_scratch self.new ≡ 0) × (reader_token self.new ≡ 0)) }
        ensures spent { reader_failed self.old ≡ None → IfErr result (λ _. HasReaderLetGo self.new) }
        ensures bare { reader_failed self.old ≡ None → IfErr result (λ _. IsReaderBare self.new) }
    {
        self.checker.feed(model, piece)
    }

    /// The end of the bytes: the pieces of the instance that they spell, or their first fault. After
    /// an error of `feed` it gives the same.
    pub fn finish(self, model: &Model) -> Result<Instance, InstanceError>
        ensures ok { (bytes : List ℕ) → HasFedReader self model.now bytes → IfOk result (λ i. IsSpelledAs model.now bytes i.region.pieces) }
        ensures err { (bytes : List ℕ) → HasFedReader self model.now bytes → IfErr result (λ e. XmlEndsAs model.now bytes e) }
        ensures again { (e : InstanceError) → reader_failed self ≡ Some e → result ≡ Err e }
    {
        self.checker.finish_pieces(model)
    }
}
