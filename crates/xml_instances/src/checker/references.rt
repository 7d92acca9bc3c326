//! A whole reference, or a CR LF, that a checker takes at once.
ghost use Rattle.std.specs.Prelude.{◌+◌, ◌≤◌, ◌^◌, length};
ghost use Rattle.xml_instances.specs.Checking.{IsXmlCheckerFor, TakesXmlFront, xml_bytes_fed};
ghost use Rattle.xml_instances.specs.Scratch.{KeepsNoLeaf};

use super::{XmlChecker, told};
use message_model::{InstanceError, Model};

impl XmlChecker {
    /// Takes the reference at the front of the piece, if one stands there whole.
    pub(super) fn take_reference(
        &mut self,
        model: &Model,
        piece: &[u8],
    ) -> Result<usize, InstanceError>
        requires room { xml_bytes_fed self.old + length piece.now ≤ 2 ^ 40 }
        requires made { IsXmlCheckerFor self.old model.now }
        ensures made { IsXmlCheckerFor self.new model.now }
        ensures lean { KeepsNoLeaf self.old → KeepsNoLeaf self.new }
        ensures front { TakesXmlFront model.now self.old self.new piece.now result }
    {
        markup::laws::events_stay();
        let place = self.place;
        let found = match self.reader.take_reference(piece) {
            Some(found) => found,
            None => return Ok(0),
        };
        match self.content.take_single(model, found.character) {
            Ok(()) => {
                self.place = self.place.saturating_add(found.bytes as u64);
                Ok(found.bytes)
            }
            Err(refusal) => Err(told(refusal, place)),
        }
    }
    /// Takes the CR LF at the front of the piece, if one stands there.
    pub(super) fn take_line_end(
        &mut self,
        model: &Model,
        piece: &[u8],
    ) -> Result<usize, InstanceError>
        requires room { xml_bytes_fed self.old + length piece.now ≤ 2 ^ 40 }
        requires made { IsXmlCheckerFor self.old model.now }
        ensures made { IsXmlCheckerFor self.new model.now }
        ensures lean { KeepsNoLeaf self.old → KeepsNoLeaf self.new }
        ensures front { TakesXmlFront model.now self.old self.new piece.now result }
    {
        markup::laws::events_stay();
        let place = self.place;
        if !self.reader.take_line_end(piece) {
            return Ok(0);
        }
        match self.content.take_single(model, '\n') {
            Ok(()) => {
                self.place = self.place.saturating_add(2);
                Ok(2)
            }
            Err(refusal) => Err(told(refusal, place)),
        }
    }
}
