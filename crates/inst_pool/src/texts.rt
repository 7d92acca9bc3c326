//! Where short texts begin and end.
ghost use Rattle.std.specs.Prelude.{◌≡◌, ◌<◌, ◌≤◌, ◌^◌, ◌++◌, [], ◌∷◌, length, slice_index_or, IfSome, IfNone, OnOk};
ghost use Rattle.data_types.specs.Leaf.{Bytes as BytesLeaf};
ghost use Rattle.data_types.specs.Value.{Holds};
ghost use Rattle.inst_pool.specs.Contents.{piece_in, IsContentInside};
ghost use Rattle.inst_pool.specs.Pieces.{room_limit};
ghost use Rattle.inst_pool.specs.declared.content.Content.{Content};

use crate::room::lengthen;
use std::alloc::{AllocError, Global};
use std::marker::Model;

/// The greatest number of 32 bits.
const MOST: usize = 0xFFFF_FFFF;

/// So many texts have numbers of 29 bits.
const MOST_TEXTS: usize = 1 << 29;

/// Texts of which each begins where the one before ends, in 32 bits each.
#[derive(Debug, Drop)]
pub(crate) struct Texts {
    /// 0, once there is room for a text, and then the end of each.
    bounds: Vec<u32>,
}

impl Model for Texts {
    ghost use Rattle.std.specs.Prelude.{vec_capacity};
    ghost use Rattle.inst_pool.specs.inner.Packed.{Packed};
    ghost use Rattle.inst_pool.specs.inner.Texts.{texts_between, text_room};

    ghost Value = { Packed };

    ghost view = { λ t. record { items = texts_between t.bounds.items; room = text_room t.bounds.items (vec_capacity t.bounds) } };
}

impl Texts {
    /// No text. It takes no memory.
    pub(crate) fn new(alloc: Global) -> Texts
        ensures { result.items ≡ [] }
    {
        Texts {
            bounds: Vec::new(alloc),
        }
    }

    /// Makes room for so many in all.
    pub(crate) fn widen(&mut self, room: usize) -> Result<(), AllocError>
        requires { room ≤ room_limit }
        ensures ok { OnOk result (room ≤ self.new.room) }
        ensures room { self.old.room ≤ self.new.room }
        ensures items { self.new.items ≡ self.old.items }
    {
        lengthen(&mut self.bounds, room + 1)?;
        if self.bounds.is_empty() {
            self.bounds.push_reserved(0);
        }
        Ok(())
    }

    /// Appends a text, for which there is room, and tells its number; `None` where the text begins elsewhere than the one
    /// before ends, or a number is too great.
    #[inline(always)]
    pub(crate) fn add(&mut self, start: usize, end: usize) -> Option<u32>
        requires { length self.old.items < self.old.room }
        ensures number { IfSome result (λ number. number ≡ length self.old.items) }
        ensures fits { IfSome result (λ number. number < 2 ^ 29) }
        ensures some { IfSome result (λ number. self.new.items ≡ self.old.items ++ Content.Bytes start end ∷ []) }
        ensures none { IfNone result (self.new.items ≡ self.old.items) }
        ensures room { self.new.room ≡ self.old.room }
    {
        let number = self.bounds.len() - 1;
        if self.bounds[number] as usize != start {
            return None;
        }
        if end > MOST || number >= MOST_TEXTS {
            return None;
        }
        self.bounds.push_reserved(end as u32);
        Some(number as u32)
    }

    /// The text of that number, whose bytes stand in that block.
    #[inline(always)]
    pub(crate) fn text<'a>(&self, number: usize, bytes: &'a [u8]) -> &'a [u8]
        requires number { number < length self.now.items }
        requires fits { number < 2 ^ 29 }
        requires inside { IsContentInside (length bytes.now) (slice_index_or self.now.items number (Content.Code 0)) }
        ensures { Holds (BytesLeaf result.now) ≡ piece_in bytes.now (slice_index_or self.now.items number (Content.Code 0)) }
    {
        let start = self.bounds[number] as usize;
        let end = self.bounds[number + 1] as usize;
        part(bytes, start, end)
    }

    /// Leaves no text, and all the room.
    pub(crate) fn clear(&mut self)
        ensures items { self.new.items ≡ [] }
        ensures room { self.new.room ≡ self.old.room }
    {
        self.bounds.truncate(1);
    }
}

/// The bytes between two bounds.
#[inline(always)]
fn part<'a>(bytes: &'a [u8], start: usize, end: usize) -> &'a [u8]
    requires { IsContentInside (length bytes.now) (Content.Bytes start end) }
    ensures { Holds (BytesLeaf result.now) ≡ piece_in bytes.now (Content.Bytes start end) }
{
    &bytes[start..end]
}
