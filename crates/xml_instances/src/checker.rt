//! A checker of XML instances that takes their bytes in pieces.
ghost use Rattle.std.specs.Prelude.{◌≡◌, ◌<◌, ◌+◌, ◌≤◌, ◌^◌, ◌∷◌, ◌++◌, ℕ, List, [], IsOk, IfOk, OnOk, IfErr, Option, Some, None, Err, length};
ghost use Rattle.std.specs.List.{AllByRecursion};
ghost use Rattle.facets.specs.declared.simple.Simple.{Simple as SimpleType};
ghost use Rattle.markup.specs.Marks.{tag_limit};
ghost use Rattle.respell.specs.Respelling.{HasSortedAttributes};
ghost use Rattle.reference_check.specs.Forms.{Graph};
ghost use Rattle.message_model.specs.Tables.{Tables, message_of, types_of};
ghost use Rattle.message_model.specs.Errors.{IsSameOrMemory, IsAgain};
ghost use Rattle.xml_instances.specs.Levels.{Level, levels_over};
ghost use Rattle.xml_instances.specs.XmlFaults.{items_told};
ghost use Rattle.xml_instances.specs.Open.{IsOpen, AreMade};
ghost use Rattle.xml_instances.specs.Built.{EventsShow};
ghost use Rattle.xml_instances.specs.Keeping.{GoOn};
ghost use Rattle.xml_instances.specs.Checking.{items_in_events, HasFedXml, AreTaken, IsTold, IsMarkTold, XmlStops, IsSpelledXml, IsSpelledBy, XmlEndsAs, IsSpelledAs, IsXmlCheckerFor, xml_bytes_fed, xml_failure};
ghost use Rattle.xml_instances.specs.Scratch.{scratch, checker_token, KeepsNoLeaf, KeepsNoPieces, HoldsNoEndedLeaf, HasLetGo, IsScratchWithin};
ghost use Rattle.xml_instances.specs.Verdicts.{IsLean, HasFreeText};

mod fronts;
mod held;
mod references;

use crate::content::Content;
use crate::opened::Refusal;
use inst_pool::Instance;
use markup::{Event, Events, MarkError, MarkFault, Reader};
use message_model::{Fault, InstanceError, Model};
use std::alloc::{AllocError, Global};

/// A checker of an instance. It keeps the open token, the open elements and of the open leaf what tells whether it is
/// one, and nothing of what is closed.
#[derive(Drop)]
pub struct XmlChecker {
    alloc: Global,
    reader: Reader,
    /// The events of the last byte.
    events: Events,
    content: Content,
    /// How many bytes it was given.
    place: u64,
    /// The answer that it gives for good, where there is one.
    failed: Option<InstanceError>,
}

/// It goes on no more: why stands beside the answer, in what the caller lent for it.
#[derive(Clone, Copy, Debug)]
pub(crate) struct Stopped;

/// What an event at the place breaks, as it is told.
fn told(refusal: Refusal, place: u64) -> InstanceError
    ensures { IsTold refusal place result }
{
    match refusal {
        Refusal::Breaks(rule, path) => InstanceError::Refused(Fault { rule, place, path }),
        Refusal::Memory => InstanceError::Memory,
    }
}

/// Holds events that were told together to the message.
fn take_all(content: &mut Content, model: &Model, events: &[Event]) -> Result<(), InstanceError>
    requires { AreMade (types_of model.now) content.old }
    ensures made { AreMade (types_of model.now) content.new }
    ensures lean { IsLean content.old → IsLean content.new }
    ensures taken { (ls : List (Level ℕ)) → IsOpen content.old (message_of model.now) ls → AreTaken (message_of model.now) ls events.now content.new result }
    ensures shown { (ls : List (Level ℕ)) → IsOpen content.old (message_of model.now) ls → AllByRecursion HasSortedAttributes (items_in_events events.now) → OnOk result (GoOn content.old.pieces content.new.pieces (EventsShow model.now ls (items_in_events events.now))) }
{
    let mut rest = events;
    while let Some((event, after)) = rest.split_first() {
        match content.take(model, event) {
            Ok(()) => {}
            Err(refusal) => return Err(told(refusal, event.place)),
        }
        rest = after;
    }
    Ok(())
}

impl XmlChecker {
    /// A checker for the message before the first byte. It takes no memory.
    pub fn new(alloc: Global, model: &Model) -> Result<XmlChecker, AllocError>
        ensures fed { IfOk result (λ c. HasFedXml c model.now []) }
        ensures made { IfOk result (λ c. IsXmlCheckerFor c model.now) }
        ensures none { IfOk result (λ c. xml_bytes_fed c ≡ 0) }
        ensures lean { IfOk result (λ c. KeepsNoLeaf c) }
        ensures leaves { IfOk result (λ c. HoldsNoEndedLeaf c) }
        ensures some { IsOk result }
    {
        Ok(XmlChecker {
            alloc,
            reader: Reader::new(alloc),
            events: Events::new(alloc),
            content: Content::new(alloc, model),
            place: 0,
            failed: None,
        })
    }

    /// The same, keeping the pieces of the instance.
    pub(crate) fn with_pieces(alloc: Global, model: &Model) -> Result<XmlChecker, AllocError>
        ensures fed { IfOk result (λ c. HasFedXml c model.now []) }
        ensures made { IfOk result (λ c. IsXmlCheckerFor c model.now) }
        ensures none { IfOk result (λ c. xml_bytes_fed c ≡ 0) }
        ensures leaves { IfOk result (λ c. HoldsNoEndedLeaf c) }
        ensures some { IsOk result }
    {
        let mut content = Content::new(alloc, model);
        content.keep_pieces();
        Ok(XmlChecker {
            alloc,
            reader: Reader::new(alloc),
            events: Events::new(alloc),
            content,
            place: 0,
            failed: None,
        })
    }

    /// How many elements are open, those in envelopes too.
    pub fn depth(&self) -> usize
        ensures { (T : Tables) (bytes : List ℕ) (h : HasFedXml self.now T bytes) → result ≡ length (levels_over (message_of T) [] (items_told h.told)) }
    {
        self.content.depth()
    }

    /// How many bytes are held for leaves: those of the text of the open one, at most four to each of its
    /// characters so far, of which no more count than the limit of its type, and 64; none of a text without
    /// codes. The room of one that has ended is kept for the next of its type. It takes no memory.
    pub fn scratch(&self) -> u64
        ensures count { result ≡ scratch self.now }
        ensures free { (T : Tables) (bytes : List ℕ) (h : HasFedXml self.now T bytes) → KeepsNoLeaf self.now → HasFreeText (levels_over (message_of T) [] (items_told h.told)) → result ≡ 0 }
        ensures bound { (T : Tables) (bytes : List ℕ) (h : HasFedXml self.now T bytes) → IsScratchWithin (levels_over (message_of T) [] (items_told h.told)) result }
    {
        self.content.scratch()
    }

    /// How many bytes are held for the open token: those of the names and values that a tag has said so far.
    /// It takes no memory.
    pub fn token(&self) -> u64
        ensures count { checker_token self.now < 2 ^ 64 → result ≡ checker_token self.now }
        ensures held { (T : Tables) (bytes : List ℕ) → HasFedXml self.now T bytes → result ≡ checker_token self.now }
        ensures bound { (T : Tables) (bytes : List ℕ) → HasFedXml self.now T bytes → result ≤ tag_limit }
    {
        self.reader.token()
    }

    /// A fault of markup, with the path of the open elements.
    fn mark_error(&self, model: &Model, fault: MarkFault) -> InstanceError
        ensures { (ls : List (Level ℕ)) → IsOpen self.now.content (message_of model.now) ls → IsMarkTold fault ls result }
    {
        match self.content.path(self.alloc, model) {
            Ok(path) => InstanceError::Refused(Fault {
                rule: fault.rule,
                place: fault.place,
                path,
            }),
            Err(_) => InstanceError::Memory,
        }
    }

    /// Takes the next bytes, of at most 2^40 in all. It answers the first fault at the byte that
    /// shows it, its place a byte number from 0. Of leaves that have ended it holds no bytes. After an
    /// error it gives the same answer to every later call, or that there is no memory for it, and holds
    /// no bytes of a leaf or a token, no judge, no events and no pieces.
    pub fn feed(&mut self, model: &Model, piece: &[u8]) -> Result<(), InstanceError>
        requires room { xml_failure self.old ≡ None → xml_bytes_fed self.old + length piece.now ≤ 2 ^ 40 }
        requires made { IsXmlCheckerFor self.old model.now }
        ensures made { IsXmlCheckerFor self.new model.now }
        ensures lean { KeepsNoLeaf self.old → KeepsNoLeaf self.new }
        ensures ok { (bytes : List ℕ) → HasFedXml self.old model.now bytes → IfOk result (λ _. HasFedXml self.new model.now (bytes ++ piece.now)) }
        ensures err { (bytes : List ℕ) → HasFedXml self.old model.now bytes → IfErr result (λ e. XmlStops model.now (bytes ++ piece.now) e) }
        ensures count { IfOk result (λ _. xml_bytes_fed self.new ≡ xml_bytes_fed self.old + length piece.now) }
        ensures failed { xml_failure self.old ≡ None → IfErr result (λ e. xml_failure self.new ≡ Some e) }
        ensures again { (e : InstanceError) → xml_failure self.old ≡ Some e → IsAgain e result × (xml_failure self.new ≡ xml_failure self.old) }
        ensures still { (e : InstanceError) → xml_failure self.old ≡ Some e → self.new ≡ self.old }
        ensures leaves { HoldsNoEndedLeaf self.new }
        ensures freed { xml_failure self.old ≡ None → IfErr result (λ _. (scratch self.new ≡ 0) × (checker_token self.new ≡ 0)) }
        ensures spent { xml_failure self.old ≡ None → IfErr result (λ _. HasLetGo self.new) }
        ensures bare { xml_failure self.old ≡ None → IfErr result (λ _. KeepsNoPieces self.new) }
    {
        if let Some(error) = &self.failed {
            return Err(match error.copy(self.alloc) {
                Ok(error) => error,
                Err(_) => InstanceError::Memory,
            });
        }
        match self.feed_all(model, piece) {
            Ok(()) => Ok(()),
            Err(error) => Err(self.stop(error)),
        }
    }

    /// Goes on no more, and keeps why; where there is no memory for that, the error is that. What is open is
    /// let go, and what is kept for leaves and tags to come.
    fn stop(&mut self, error: InstanceError) -> InstanceError
        ensures same { IsSameOrMemory error result }
        ensures kept { xml_failure self.new ≡ Some result }
        ensures made { (types : Graph ℕ SimpleType) → AreMade types self.old.content → AreMade types self.new.content }
        ensures lean { KeepsNoLeaf self.old → KeepsNoLeaf self.new }
        ensures freed { (scratch self.new ≡ 0) × (checker_token self.new ≡ 0) }
        ensures spent { HasLetGo self.new }
        ensures bare { KeepsNoPieces self.new }
    {
        self.content.let_go();
        self.content.forget_pieces();
        self.reader.forget_token();
        self.events = Events::new(self.alloc);
        match error.copy(self.alloc) {
            Ok(copy) => {
                self.failed = Some(copy);
                error
            }
            Err(_) => {
                self.failed = Some(InstanceError::Memory);
                InstanceError::Memory
            }
        }
    }

    /// Takes the next bytes, where nothing was refused.
    #[tactic(auto, using(crate::proofs::Checks::none_fed, crate::proofs::Checks::all_fed))]
    fn feed_all(&mut self, model: &Model, piece: &[u8]) -> Result<(), InstanceError>
        requires room { xml_bytes_fed self.old + length piece.now ≤ 2 ^ 40 }
        requires made { IsXmlCheckerFor self.old model.now }
        ensures made { IsXmlCheckerFor self.new model.now }
        ensures lean { KeepsNoLeaf self.old → KeepsNoLeaf self.new }
        ensures ok { (bytes : List ℕ) → HasFedXml self.old model.now bytes → IfOk result (λ _. HasFedXml self.new model.now (bytes ++ piece.now)) }
        ensures err { (bytes : List ℕ) → HasFedXml self.old model.now bytes → IfErr result (λ e. XmlStops model.now (bytes ++ piece.now) e) }
        ensures count { IfOk result (λ _. xml_bytes_fed self.new ≡ xml_bytes_fed self.old + length piece.now) }
    {
        let mut stop = InstanceError::Memory;
        let mut rest = piece;
        while !rest.is_empty() {
            match self.take_front(model, rest, &mut stop) {
                Ok(count) => {
                    let (_, behind) = rest.split_at(count);
                    rest = behind;
                }
                Err(_) => return Err(stop),
            }
        }
        Ok(())
    }

    /// Takes the next byte.
    #[tactic(auto, using(crate::proofs::Checks::fed_on))]
    fn take(&mut self, model: &Model, byte: u8) -> Result<(), InstanceError>
        requires room { xml_bytes_fed self.old < 2 ^ 40 }
        requires made { IsXmlCheckerFor self.old model.now }
        ensures made { IsXmlCheckerFor self.new model.now }
        ensures lean { KeepsNoLeaf self.old → KeepsNoLeaf self.new }
        ensures ok { (bytes : List ℕ) → HasFedXml self.old model.now bytes → IfOk result (λ _. HasFedXml self.new model.now (bytes ++ byte ∷ [])) }
        ensures err { (bytes : List ℕ) → HasFedXml self.old model.now bytes → IfErr result (λ e. XmlStops model.now (bytes ++ byte ∷ []) e) }
        ensures count { IfOk result (λ _. xml_bytes_fed self.new ≡ xml_bytes_fed self.old + 1) }
    {
        markup::laws::one_token();
        markup::laws::fronts_agree();
        markup::laws::events_stay();
        markup::laws::nothing_at_clean();
        markup::laws::tokens_have_bytes();
        respell::laws::events_are_plain();
        match self.reader.take(byte, &mut self.events) {
            Ok(()) => {
                if let Err(error) = take_all(&mut self.content, model, self.events.as_slice()) {
                    return Err(error);
                }
                self.events.clear();
                self.place = self.place.saturating_add(1);
                Ok(())
            }
            Err(MarkError::Refused(fault)) => {
                if let Err(error) = take_all(&mut self.content, model, self.events.as_slice()) {
                    return Err(error);
                }
                Err(self.mark_error(model, fault))
            }
            Err(MarkError::Memory) => Err(InstanceError::Memory),
        }
    }

    /// The end of the bytes: they spell an instance, or have a first fault. After an error of `feed`
    /// it gives the same.
    pub fn finish(mut self, model: &Model) -> Result<(), InstanceError>
        ensures ok { (bytes : List ℕ) → HasFedXml self model.now bytes → IfOk result (λ _. IsSpelledXml model.now bytes) }
        ensures err { (bytes : List ℕ) → HasFedXml self model.now bytes → IfErr result (λ e. XmlEndsAs model.now bytes e) }
        ensures again { (e : InstanceError) → xml_failure self ≡ Some e → result ≡ Err e }
    {
        self.end(model)
    }

    /// The end of the bytes, as `finish`, with the pieces of the instance.
    pub(crate) fn finish_pieces(mut self, model: &Model) -> Result<Instance, InstanceError>
        ensures ok { (bytes : List ℕ) → HasFedXml self model.now bytes → IfOk result (λ i. IsSpelledAs model.now bytes i.region.pieces) }
        ensures err { (bytes : List ℕ) → HasFedXml self model.now bytes → IfErr result (λ e. XmlEndsAs model.now bytes e) }
        ensures again { (e : InstanceError) → xml_failure self ≡ Some e → result ≡ Err e }
    {
        self.end_with_pieces(model)
    }

    /// The end of the bytes, or what was refused before it.
    fn end(&mut self, model: &Model) -> Result<(), InstanceError>
        ensures ok { (bytes : List ℕ) → HasFedXml self.old model.now bytes → IfOk result (λ _. IsSpelledXml model.now bytes) }
        ensures spelled_by { (bytes : List ℕ) (h : HasFedXml self.old model.now bytes) → IfOk result (λ _. IsSpelledBy model.now bytes (items_told h.told)) }
        ensures content { self.new.content ≡ self.old.content }
        ensures err { (bytes : List ℕ) → HasFedXml self.old model.now bytes → IfErr result (λ e. XmlEndsAs model.now bytes e) }
        ensures again { (e : InstanceError) → xml_failure self.old ≡ Some e → result ≡ Err e }
    {
        if let Some(error) = self.failed.take() {
            return Err(error);
        }
        self.finish_all(model)
    }

    /// The end of the bytes, as `end`, with the pieces of the instance.
    fn end_with_pieces(&mut self, model: &Model) -> Result<Instance, InstanceError>
        ensures ok { (bytes : List ℕ) → HasFedXml self.old model.now bytes → IfOk result (λ i. IsSpelledAs model.now bytes i.region.pieces) }
        ensures err { (bytes : List ℕ) → HasFedXml self.old model.now bytes → IfErr result (λ e. XmlEndsAs model.now bytes e) }
        ensures again { (e : InstanceError) → xml_failure self.old ≡ Some e → result ≡ Err e }
    {
        crate::laws::pieces_are_shown();
        let _ = model.type_count();
        match self.end(model) {
            Ok(()) => match self.content.finish_pieces() {
                Some(instance) => Ok(instance),
                None => Err(InstanceError::Memory),
            },
            Err(error) => Err(error),
        }
    }

    /// The end of the bytes, where nothing was refused.
    fn finish_all(&mut self, model: &Model) -> Result<(), InstanceError>
        ensures ok { (bytes : List ℕ) → HasFedXml self.old model.now bytes → IfOk result (λ _. IsSpelledXml model.now bytes) }
        ensures spelled_by { (bytes : List ℕ) (h : HasFedXml self.old model.now bytes) → IfOk result (λ _. IsSpelledBy model.now bytes (items_told h.told)) }
        ensures content { self.new.content ≡ self.old.content }
        ensures err { (bytes : List ℕ) → HasFedXml self.old model.now bytes → IfErr result (λ e. XmlEndsAs model.now bytes e) }
    {
        markup::laws::one_token();
        markup::laws::events_are_all();
        markup::laws::nothing_at_clean();
        crate::laws::fine_is_spelled();
        let _ = model.type_count();
        match self.reader.finish(&mut self.events) {
            Ok(()) => Ok(()),
            Err(MarkError::Refused(fault)) => Err(self.mark_error(model, fault)),
            Err(MarkError::Memory) => Err(InstanceError::Memory),
        }
    }
}
