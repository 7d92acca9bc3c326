//! A single character, held to the types of the message.
ghost use Rattle.std.specs.Prelude.{ℕ, List, OnOk};
ghost use Rattle.lexical_core.specs.Tree.{Char};
ghost use Rattle.message_model.specs.Tables.{message_of, types_of};
ghost use Rattle.xml_instances.specs.Built.{EventShows};
ghost use Rattle.xml_instances.specs.Keeping.{GoOn};
ghost use Rattle.xml_instances.specs.Levels.{Level};
ghost use Rattle.xml_instances.specs.Open.{IsOpen, AreMade, IsItemTaken};
ghost use Rattle.xml_instances.specs.Verdicts.{IsLean};

use super::Content;
use crate::opened::Refusal;
use markup::{Event, What};
use message_model::Model;

impl Content {
    /// Takes a character, as its event at any place.
    pub(crate) fn take_single(&mut self, model: &Model, c: char) -> Result<(), Refusal>
        requires { AreMade (types_of model.now) self.old }
        ensures made { AreMade (types_of model.now) self.new }
        ensures lean { IsLean self.old → IsLean self.new }
        ensures taken { (ls : List (Level ℕ)) → IsOpen self.old (message_of model.now) ls → IsItemTaken (message_of model.now) ls (Char c) self.new result }
        ensures shown { (ls : List (Level ℕ)) → IsOpen self.old (message_of model.now) ls → OnOk result (GoOn self.old.pieces self.new.pieces (EventShows model.now ls (Char c))) }
    {
        let event = Event {
            place: 0,
            what: What::Char(c),
        };
        self.take(model, &event)
    }
}
