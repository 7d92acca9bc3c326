//! Fronts of a piece that a checker takes: whole tags, comments, instructions, references and line ends, runs of characters,
//! bytes inside tokens, single bytes.
ghost use Rattle.std.specs.Prelude.{◌≡◌, ◌<◌, ◌+◌, ◌≤◌, ◌^◌, ℕ, List, true, IfOk, Ok, length};
ghost use Rattle.markup.specs.declared.reader.Reader.{Reader};
ghost use Rattle.message_model.specs.Tables.{types_of};
ghost use Rattle.message_model.specs.declared.fault.InstanceError.TheVariants.{Memory};
ghost use Rattle.xml_instances.specs.Checking.{IsXmlCheckerFor, TakesXmlFront, xml_bytes_fed};
ghost use Rattle.xml_instances.specs.inner.Fronts.{because, HasTakenStart};
ghost use Rattle.xml_instances.specs.inner.Quick.{IsRoomIn, is_parent};
ghost use Rattle.xml_instances.specs.Scratch.{KeepsNoLeaf};
ghost use Rattle.xml_instances.specs.declared.content.quick.Room.TheVariants.{All as AllCharacters, Blanks as BlankCharacters};

use super::held::hold_tag;
use super::{Stopped, XmlChecker, take_all, told};
use crate::content::Room;
use markup::{MarkError, StartTag};
use message_model::{InstanceError, Model};
use std::alloc::AllocError;

/// Whether the piece begins as a comment, an instruction or a CDATA section does, and no tag.
#[inline]
fn begins_aside(piece: &[u8]) -> bool {
    piece.len() > 1 && (piece[1] == b'!' || piece[1] == b'?')
}

impl XmlChecker {
    /// Takes a whole tag, a whole reference or line end, a run of characters, bytes inside a token or else a byte from
    /// the front of the piece, and answers how many bytes that are.
    /// Where it stops it says why in `stop`, so that the answers of all that goes on are small.
    pub(crate) fn take_front(
        &mut self,
        model: &Model,
        piece: &[u8],
        stop: &mut InstanceError,
    ) -> Result<usize, Stopped>
        requires some { 0 < length piece.now }
        requires room { xml_bytes_fed self.old + length piece.now ≤ 2 ^ 40 }
        requires made { IsXmlCheckerFor self.old model.now }
        requires none { stop.old ≡ Memory }
        ensures made { IsXmlCheckerFor self.new model.now }
        ensures lean { KeepsNoLeaf self.old → KeepsNoLeaf self.new }
        ensures front { TakesXmlFront model.now self.old self.new piece.now (because stop.new result) }
        ensures some { IfOk result (λ n. 0 < n) }
        ensures none { IfOk result (λ _. stop.new ≡ Memory) }
    {
        let often = match self.take_often(model, piece, stop) {
            Ok(often) => often,
            Err(error) => return Err(error),
        };
        if often > 0 {
            return Ok(often);
        }
        self.take_otherwise(model, piece, stop)
    }

    /// Takes the whole tag without attributes or the run of characters at the front of the piece, if one stands there, as
    /// most of a message does. Its first byte says which is tried.
    fn take_often(
        &mut self,
        model: &Model,
        piece: &[u8],
        stop: &mut InstanceError,
    ) -> Result<usize, Stopped>
        requires some { 0 < length piece.now }
        requires room { xml_bytes_fed self.old + length piece.now ≤ 2 ^ 40 }
        requires made { IsXmlCheckerFor self.old model.now }
        requires none { stop.old ≡ Memory }
        ensures made { IsXmlCheckerFor self.new model.now }
        ensures lean { KeepsNoLeaf self.old → KeepsNoLeaf self.new }
        ensures front { TakesXmlFront model.now self.old self.new piece.now (because stop.new result) }
        ensures none { IfOk result (λ _. stop.new ≡ Memory) }
    {
        match piece[0] {
            b'<' => self.take_tag(model, piece, stop),
            b'&' | b'\r' => Ok(0),
            _ => match self.take_run(model, piece) {
                Ok(run) => Ok(run),
                Err(_) => Err(Stopped),
            },
        }
    }

    /// Takes what is neither a tag without attributes nor a run of characters from the front of the piece.
    #[inline(never)]
    fn take_otherwise(
        &mut self,
        model: &Model,
        piece: &[u8],
        stop: &mut InstanceError,
    ) -> Result<usize, Stopped>
        requires some { 0 < length piece.now }
        requires room { xml_bytes_fed self.old + length piece.now ≤ 2 ^ 40 }
        requires made { IsXmlCheckerFor self.old model.now }
        requires none { stop.old ≡ Memory }
        ensures made { IsXmlCheckerFor self.new model.now }
        ensures lean { KeepsNoLeaf self.old → KeepsNoLeaf self.new }
        ensures front { TakesXmlFront model.now self.old self.new piece.now (because stop.new result) }
        ensures some { IfOk result (λ n. 0 < n) }
        ensures none { IfOk result (λ _. stop.new ≡ Memory) }
    {
        match self.take_rare(model, piece) {
            Ok(count) => Ok(count),
            Err(error) => {
                *stop = error;
                Err(Stopped)
            }
        }
    }

    /// Takes a whole start tag, reference or line end, bytes inside a token or else a byte from the front of the piece.
    fn take_rare(&mut self, model: &Model, piece: &[u8]) -> Result<usize, InstanceError>
        requires some { 0 < length piece.now }
        requires room { xml_bytes_fed self.old + length piece.now ≤ 2 ^ 40 }
        requires made { IsXmlCheckerFor self.old model.now }
        ensures made { IsXmlCheckerFor self.new model.now }
        ensures lean { KeepsNoLeaf self.old → KeepsNoLeaf self.new }
        ensures front { TakesXmlFront model.now self.old self.new piece.now result }
        ensures some { IfOk result (λ n. 0 < n) }
    {
        let whole = match self.take_whole(model, piece) {
            Ok(whole) => whole,
            Err(error) => return Err(error),
        };
        if whole > 0 {
            return Ok(whole);
        }
        self.take_slowly(model, piece)
    }

    /// Takes the start tag, the comment, the instruction, the end of a CDATA section, the reference or the line end that stands
    /// whole at the front of the piece, if one does that the reader takes at once. Its first bytes say which is tried.
    fn take_whole(&mut self, model: &Model, piece: &[u8]) -> Result<usize, InstanceError>
        requires some { 0 < length piece.now }
        requires room { xml_bytes_fed self.old + length piece.now ≤ 2 ^ 40 }
        requires made { IsXmlCheckerFor self.old model.now }
        ensures made { IsXmlCheckerFor self.new model.now }
        ensures lean { KeepsNoLeaf self.old → KeepsNoLeaf self.new }
        ensures front { TakesXmlFront model.now self.old self.new piece.now result }
    {
        match piece[0] {
            b'<' => {
                if begins_aside(piece) {
                    Ok(self.take_aside(model, piece))
                } else {
                    self.take_start_tag(model, piece)
                }
            }
            b']' => Ok(self.take_aside(model, piece)),
            b'&' => self.take_reference(model, piece),
            b'\r' => self.take_line_end(model, piece),
            _ => Ok(0),
        }
    }

    /// Takes bytes inside a token or else a byte from the front of the piece.
    fn take_slowly(&mut self, model: &Model, piece: &[u8]) -> Result<usize, InstanceError>
        requires some { 0 < length piece.now }
        requires room { xml_bytes_fed self.old + length piece.now ≤ 2 ^ 40 }
        requires made { IsXmlCheckerFor self.old model.now }
        ensures made { IsXmlCheckerFor self.new model.now }
        ensures lean { KeepsNoLeaf self.old → KeepsNoLeaf self.new }
        ensures front { TakesXmlFront model.now self.old self.new piece.now result }
        ensures some { IfOk result (λ n. 0 < n) }
    {
        let inside = match self.take_inside(model, piece) {
            Ok(inside) => inside,
            Err(error) => return Err(error),
        };
        if inside > 0 {
            return Ok(inside);
        }
        self.take_first(model, piece)
    }

    /// Takes the run of characters at the front of the piece that may stand in the innermost element,
    /// if there is one.
    fn take_run(&mut self, model: &Model, piece: &[u8]) -> Result<usize, AllocError>
        requires room { xml_bytes_fed self.old + length piece.now ≤ 2 ^ 40 }
        requires made { IsXmlCheckerFor self.old model.now }
        ensures made { IsXmlCheckerFor self.new model.now }
        ensures lean { KeepsNoLeaf self.old → KeepsNoLeaf self.new }
        ensures front { TakesXmlFront model.now self.old self.new piece.now (because Memory result) }
    {
        match self.content.room(model) {
            Room::All => self.take_characters(model, piece),
            Room::Blanks => self.take_blanks(model, piece),
            Room::Nothing => Ok(0),
        }
    }

    /// Takes the run of characters at the front of the piece, where all may stand.
    fn take_characters(&mut self, model: &Model, piece: &[u8]) -> Result<usize, AllocError>
        requires room { xml_bytes_fed self.old + length piece.now ≤ 2 ^ 40 }
        requires made { IsXmlCheckerFor self.old model.now }
        requires fits { IsRoomIn (types_of model.now) self.old.content.innermost AllCharacters }
        ensures made { IsXmlCheckerFor self.new model.now }
        ensures lean { KeepsNoLeaf self.old → KeepsNoLeaf self.new }
        ensures front { TakesXmlFront model.now self.old self.new piece.now (because Memory result) }
    {
        let run = self.reader.take_characters(piece);
        if run.bytes == 0 {
            return Ok(0);
        }
        match self
            .content
            .take_run(model, &piece[..run.bytes], run.characters)
        {
            Ok(()) => {
                self.place = self.place.saturating_add(run.bytes as u64);
                Ok(run.bytes)
            }
            Err(error) => Err(error),
        }
    }

    /// Takes the white space at the front of the piece, where that may stand.
    fn take_blanks(&mut self, model: &Model, piece: &[u8]) -> Result<usize, AllocError>
        requires room { xml_bytes_fed self.old + length piece.now ≤ 2 ^ 40 }
        requires made { IsXmlCheckerFor self.old model.now }
        requires fits { IsRoomIn (types_of model.now) self.old.content.innermost BlankCharacters }
        ensures made { IsXmlCheckerFor self.new model.now }
        ensures lean { KeepsNoLeaf self.old → KeepsNoLeaf self.new }
        ensures front { TakesXmlFront model.now self.old self.new piece.now (because Memory result) }
    {
        let count = self.reader.take_blanks(piece);
        if count == 0 {
            return Ok(0);
        }
        self.place = self.place.saturating_add(count as u64);
        Ok(count)
    }

    /// Takes the whole tag at the front of the piece, if one stands there without attributes.
    fn take_tag(
        &mut self,
        model: &Model,
        piece: &[u8],
        stop: &mut InstanceError,
    ) -> Result<usize, Stopped>
        requires room { xml_bytes_fed self.old + length piece.now ≤ 2 ^ 40 }
        requires made { IsXmlCheckerFor self.old model.now }
        requires none { stop.old ≡ Memory }
        ensures made { IsXmlCheckerFor self.new model.now }
        ensures lean { KeepsNoLeaf self.old → KeepsNoLeaf self.new }
        ensures front { TakesXmlFront model.now self.old self.new piece.now (because stop.new result) }
        ensures none { IfOk result (λ _. stop.new ≡ Memory) }
    {
        markup::laws::events_stay();
        if self.content.keeps_names() {
            return Ok(0);
        }
        let place = self.place;
        let tag = match self.reader.take_tag(piece) {
            Ok(Some(tag)) => tag,
            Ok(None) => return Ok(0),
            Err(_) => return Err(Stopped),
        };
        match hold_tag(&mut self.content, model, tag.kind, tag.name, place, stop) {
            Ok(()) => {
                self.place = self.place.saturating_add(tag.bytes as u64);
                Ok(tag.bytes)
            }
            Err(error) => Err(error),
        }
    }

    /// Takes the start tag that stands whole at the front of the piece, if one does that the reader takes at once.
    fn take_start_tag(&mut self, model: &Model, piece: &[u8]) -> Result<usize, InstanceError>
        requires room { xml_bytes_fed self.old + length piece.now ≤ 2 ^ 40 }
        requires made { IsXmlCheckerFor self.old model.now }
        ensures made { IsXmlCheckerFor self.new model.now }
        ensures lean { KeepsNoLeaf self.old → KeepsNoLeaf self.new }
        ensures front { TakesXmlFront model.now self.old self.new piece.now result }
    {
        markup::laws::one_token();
        markup::laws::fronts_agree();
        markup::laws::nothing_at_clean();
        markup::laws::tokens_have_bytes();
        let tag = match self.reader.take_start_tag(piece) {
            Ok(Some(tag)) => tag,
            Ok(None) => return Ok(0),
            Err(MarkError::Refused(fault)) => return Err(self.mark_error(model, fault)),
            Err(MarkError::Memory) => return Err(InstanceError::Memory),
        };
        if tag.has_same_ns && self.content.is_in_parent() {
            self.take_inner_start(model, &tag)
        } else {
            self.take_other_start(model, &tag)
        }
    }

    /// Takes a start tag that the reader has taken, whose name is in the namespace of the innermost element. That is one
    /// with elements of the message.
    fn take_inner_start(
        &mut self,
        model: &Model,
        tag: &StartTag<'_>,
    ) -> Result<usize, InstanceError>
        requires made { IsXmlCheckerFor self.old model.now }
        requires inside { is_parent self.old.content.innermost ≡ true }
        requires same_ns { tag.now.has_same_ns ≡ true }
        ensures made { IsXmlCheckerFor self.new model.now }
        ensures lean { KeepsNoLeaf self.old → KeepsNoLeaf self.new }
        ensures front { (before : Reader) (piece : List ℕ) → HasTakenStart before self.old.reader piece tag.now → TakesXmlFront model.now (record self.old { reader = before }) self.new piece result }
    {
        markup::laws::events_stay();
        match self
            .content
            .take_start_tag(model, tag.name, tag.attributes.as_slice(), tag.is_empty)
        {
            Ok(()) => {
                self.place = self.place.saturating_add(tag.bytes as u64);
                Ok(tag.bytes)
            }
            Err(refusal) => Err(told(refusal, self.place)),
        }
    }

    /// Takes any start tag that the reader has taken: one in an envelope without its events, where it breaks no rule and no
    /// pieces are kept.
    fn take_other_start(
        &mut self,
        model: &Model,
        tag: &StartTag<'_>,
    ) -> Result<usize, InstanceError>
        requires made { IsXmlCheckerFor self.old model.now }
        ensures made { IsXmlCheckerFor self.new model.now }
        ensures lean { KeepsNoLeaf self.old → KeepsNoLeaf self.new }
        ensures front { (before : Reader) (piece : List ℕ) → HasTakenStart before self.old.reader piece tag.now → TakesXmlFront model.now (record self.old { reader = before }) self.new piece result }
    {
        match self.content.pass_foreign(tag.is_empty) {
            Ok(done) => {
                if done {
                    self.place = self.place.saturating_add(tag.bytes as u64);
                    return Ok(tag.bytes);
                }
                self.take_any_start(model, tag)
            }
            Err(_) => Err(InstanceError::Memory),
        }
    }

    /// Takes any start tag that the reader has taken, by its events.
    fn take_any_start(&mut self, model: &Model, tag: &StartTag<'_>) -> Result<usize, InstanceError>
        requires made { IsXmlCheckerFor self.old model.now }
        ensures made { IsXmlCheckerFor self.new model.now }
        ensures lean { KeepsNoLeaf self.old → KeepsNoLeaf self.new }
        ensures front { (before : Reader) (piece : List ℕ) → HasTakenStart before self.old.reader piece tag.now → TakesXmlFront model.now (record self.old { reader = before }) self.new piece result }
    {
        markup::laws::events_stay();
        respell::laws::events_are_plain();
        if let Err(_) = tag.tell(self.place, &mut self.events, self.alloc) {
            return Err(InstanceError::Memory);
        }
        if let Err(error) = take_all(&mut self.content, model, self.events.as_slice()) {
            return Err(error);
        }
        self.events.clear();
        self.place = self.place.saturating_add(tag.bytes as u64);
        Ok(tag.bytes)
    }

    /// Takes the comment, the instruction or the end of a CDATA section that stands whole at the front of the piece, if one
    /// does. It breaks no rule, and nothing of it is kept.
    fn take_aside(&mut self, model: &Model, piece: &[u8]) -> usize
        requires room { xml_bytes_fed self.old + length piece.now ≤ 2 ^ 40 }
        requires made { IsXmlCheckerFor self.old model.now }
        ensures made { IsXmlCheckerFor self.new model.now }
        ensures lean { KeepsNoLeaf self.old → KeepsNoLeaf self.new }
        ensures front { TakesXmlFront model.now self.old self.new piece.now (Ok result) }
    {
        let _ = model.type_count();
        let count = self.reader.take_aside(piece);
        if count == 0 {
            return 0;
        }
        self.place = self.place.saturating_add(count as u64);
        count
    }

    /// Takes the bytes at the front of the piece that go on with an open token and show no event, if there are some.
    fn take_inside(&mut self, model: &Model, piece: &[u8]) -> Result<usize, InstanceError>
        requires room { xml_bytes_fed self.old + length piece.now ≤ 2 ^ 40 }
        requires made { IsXmlCheckerFor self.old model.now }
        ensures made { IsXmlCheckerFor self.new model.now }
        ensures lean { KeepsNoLeaf self.old → KeepsNoLeaf self.new }
        ensures front { TakesXmlFront model.now self.old self.new piece.now result }
    {
        let _ = model.type_count();
        let count = match self.reader.take_inside(piece) {
            Ok(count) => count,
            Err(_) => return Err(InstanceError::Memory),
        };
        if count == 0 {
            return Ok(0);
        }
        self.place = self.place.saturating_add(count as u64);
        Ok(count)
    }

    /// Takes the first byte of the piece.
    fn take_first(&mut self, model: &Model, piece: &[u8]) -> Result<usize, InstanceError>
        requires some { 0 < length piece.now }
        requires room { xml_bytes_fed self.old + length piece.now ≤ 2 ^ 40 }
        requires made { IsXmlCheckerFor self.old model.now }
        ensures made { IsXmlCheckerFor self.new model.now }
        ensures lean { KeepsNoLeaf self.old → KeepsNoLeaf self.new }
        ensures front { TakesXmlFront model.now self.old self.new piece.now result }
        ensures some { IfOk result (λ n. 0 < n) }
    {
        let Some((byte, _behind)) = piece.split_first() else {
            return Ok(0);
        };
        match self.take(model, *byte) {
            Ok(()) => Ok(1),
            Err(error) => Err(error),
        }
    }
}
