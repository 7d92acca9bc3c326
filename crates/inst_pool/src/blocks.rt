//! The blocks of a region.
ghost use Rattle.std.specs.Prelude.{◌+◌, ◌<◌, ◌≤◌, length, OnOk, IsOk};
ghost use Rattle.inst_pool.specs.Blocks.{HasRoomInBlocks, SameItems};

use crate::contents::Contents;
use crate::numbers::Numbers;
use crate::piece::Edge;
use crate::room::{LIMIT, wanted_room, widen};
use std::alloc::{AllocError, Global};

/// Pieces and what is kept beside them.
#[derive(Debug, Drop)]
pub(crate) struct Blocks {
    pub(crate) contents: Contents,
    /// The bytes of leaves.
    pub(crate) bytes: Vec<u8>,
    /// The elements that are open, the innermost last.
    pub(crate) opened: Vec<Edge>,
    /// The first number beside each piece.
    pub(crate) lens: Numbers,
    /// The second number beside each piece.
    pub(crate) groups: Numbers,
    /// For so many pieces in all there is room in each block but that of the bytes.
    pub(crate) room: usize,
}

/// Makes room for so many more pieces.
#[inline(always)]
pub(crate) fn make_piece_room(blocks: &mut Blocks, count: usize) -> Result<(), AllocError>
    requires { HasRoomInBlocks blocks.old }
    ensures fits { HasRoomInBlocks blocks.new }
    ensures ok { OnOk result (length blocks.new.contents.items + count ≤ blocks.new.room) }
    ensures within { length blocks.old.contents.items + count ≤ blocks.old.room → IsOk result }
    ensures room { blocks.old.room ≤ blocks.new.room }
    ensures items { SameItems blocks.old blocks.new }
{
    let len = blocks.contents.len();
    if count <= blocks.room - len {
        return Ok(());
    }
    widen_blocks(blocks, count)
}

/// Makes room for so many more pieces, for which there is none.
#[cold]
#[inline(never)]
fn widen_blocks(blocks: &mut Blocks, count: usize) -> Result<(), AllocError>
    requires room { HasRoomInBlocks blocks.old }
    requires full { blocks.old.room < length blocks.old.contents.items + count }
    ensures fits { HasRoomInBlocks blocks.new }
    ensures ok { OnOk result (length blocks.new.contents.items + count ≤ blocks.new.room) }
    ensures room { blocks.old.room ≤ blocks.new.room }
    ensures items { SameItems blocks.old blocks.new }
{
    let len = blocks.contents.len();
    if LIMIT - len < count {
        return Err(AllocError);
    }
    let room = wanted_room(blocks.room, len, count);
    blocks.contents.widen(room)?;
    widen(&mut blocks.opened, room)?;
    blocks.lens.widen(room)?;
    blocks.groups.widen(room)?;
    blocks.room = room;
    Ok(())
}
