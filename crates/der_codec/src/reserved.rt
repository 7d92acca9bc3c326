//! How a checker that keeps pieces reserves what it grows while it reads.
ghost use Rattle.std.specs.Prelude.{◌≡◌, ◌≤◌, OnOk, OnErr, vec_capacity};
ghost use Rattle.message_model.specs.Tables.{types_of};
ghost use Rattle.der_codec.specs.Checked.{CheckTypes};
ghost use Rattle.der_codec.specs.Reserved.{IsKeeping, IsWidened, GrowsRoom, HoldsRoom, HasSamePieces, HasPieceRoom};

use crate::checker::DerChecker;
use crate::room::Room;
use inst_pool::Builder;
use message_model::Model;
use std::alloc::AllocError;

impl DerChecker {
    /// Takes the memory for so much, where pieces are kept: of the open values, of the contents octets that have come, of
    /// the pieces, and of a check for each type for which one is kept. Whatever the answer, what has come is as before.
    pub(crate) fn reserve(&mut self, model: &Model, room: Room) -> Result<(), AllocError>
        requires { CheckTypes (types_of model.now) self.old.checks }
        ensures widened { IsWidened self.old self.new }
        ensures checks { CheckTypes (types_of model.now) self.new.checks }
        ensures keeps { IsKeeping self.old model.now → IsKeeping self.new model.now }
        ensures ok { OnOk result (self.new.room ≡ room) }
        ensures err { OnErr result (self.new.room ≡ self.old.room) }
    {
        if let Err(error) = self.take_room(model, room) {
            return Err(error);
        }
        self.room = room;
        Ok(())
    }

    /// The same, with the room that was reserved as it is.
    fn take_room(&mut self, model: &Model, room: Room) -> Result<(), AllocError>
        requires { CheckTypes (types_of model.now) self.old.checks }
        ensures widened { IsWidened self.old self.new }
        ensures checks { CheckTypes (types_of model.now) self.new.checks }
        ensures keeps { IsKeeping self.old model.now → IsKeeping self.new model.now }
        ensures same { self.new.room ≡ self.old.room }
        ensures ok { IsKeeping self.old model.now → OnOk result (HoldsRoom self.new model.now room) }
    {
        if let Err(error) = widen_to(&mut self.decoder.levels, room.depth) {
            return Err(error);
        }
        if let Err(error) = widen_to(&mut self.kept.octets, room.bytes) {
            return Err(error);
        }
        if let Err(error) = widen(&mut self.pieces, room) {
            return Err(error);
        }
        self.checks.reserve(model, room.bytes)
    }
}

/// Takes the memory for so many pieces, and for so many bytes of leaves, where pieces are kept.
fn widen(pieces: &mut Option<Builder>, room: Room) -> Result<(), AllocError>
    ensures same { HasSamePieces pieces.old pieces.new }
    ensures grows { GrowsRoom pieces.old pieces.new }
    ensures ok { OnOk result (HasPieceRoom room pieces.new) }
{
    match pieces {
        None => Ok(()),
        Some(builder) => builder.reserve(room.nodes, room.bytes),
    }
}

/// Takes the memory for so many items in all.
fn widen_to<T>(block: &mut Vec<T>, room: usize) -> Result<(), AllocError>
    ensures items { block.new.items ≡ block.old.items }
    ensures room { vec_capacity block.old ≤ vec_capacity block.new }
    ensures ok { OnOk result (room ≤ vec_capacity block.new) }
{
    block.reserve_exact(room.saturating_sub(block.len()))
}
