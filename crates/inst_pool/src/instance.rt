//! An instance in its region.
ghost use Rattle.std.specs.Prelude.{◌≡◌, ◌<◌, [], length, replicate, slice_get, slice_index, slice_set, IfSome};
ghost use Rattle.std.specs.Option.{option_map};
ghost use Rattle.data_types.specs.LeafAnswers.{leaf_of};
ghost use Rattle.inst_pool.specs.Blocks.{AreBuilding, region_of};
ghost use Rattle.inst_pool.specs.Pieces.{edge_of, piece_of, empty_region, IsLeafElement, IsRegionBounded};

use crate::blocks::Blocks;
use crate::builder::Builder;
use crate::piece::{LeafElement, Piece};
use crate::walk::Walk;
use std::marker::Model;

/// An instance: pieces in order, in one block, and in another the bytes of leaves.
#[derive(Debug, Drop)]
pub struct Instance {
    blocks: Blocks,
}

impl Model for Instance {
    ghost use Rattle.inst_pool.specs.Pieces.{Held};
    ghost use Rattle.inst_pool.specs.Blocks.{AreWhole, held_of};

    ghost Value = { Held };

    ghost view = { λ i. held_of i.blocks };

    ghost invariant = { λ i. AreWhole i.blocks };
}

impl Instance {
    /// The instance of these blocks.
    pub(crate) fn of(mut blocks: Blocks) -> Instance
        requires building { AreBuilding blocks }
        requires opened { blocks.opened.items ≡ [] }
        ensures region { result.region ≡ region_of blocks }
        ensures lens { result.lens ≡ replicate (length blocks.contents.items) 0 }
        ensures groups { result.groups ≡ replicate (length blocks.contents.items) 0 }
    {
        let count = blocks.contents.len();
        blocks.lens.begin(count);
        blocks.groups.begin(count);
        Instance { blocks }
    }

    /// The number of pieces, beside each of which there are two numbers.
    pub fn count(&self) -> usize
        ensures count { result ≡ length self.now.region.pieces }
        ensures lens { result ≡ length self.now.lens }
        ensures groups { result ≡ length self.now.groups }
        ensures bounded { IsRegionBounded self.now.region }
    {
        self.blocks.contents.len()
    }

    /// The piece at that place, from 0; `None` where there is none.
    #[inline(always)]
    pub fn piece(&self, at: usize) -> Option<Piece<'_>>
        ensures { option_map piece_of result ≡ slice_get self.now.region.pieces at }
    {
        if at >= self.blocks.contents.len() {
            return None;
        }
        let bytes = self.blocks.bytes.as_slice();
        Some(self.blocks.contents.piece(at, bytes))
    }

    /// The element that begins at that place, its one leaf and its end, where each of the three stands in four bytes, as most do.
    /// Where it is `None` nothing is known, and `piece` tells.
    #[inline(always)]
    pub fn leaf_element(&self, at: usize) -> Option<LeafElement<'_>>
        ensures { IfSome result (λ e. IsLeafElement self.now.region.pieces at (edge_of e.edge) (leaf_of e.leaf)) }
    {
        let bytes = self.blocks.bytes.as_slice();
        self.blocks.contents.leaf_element(at, bytes)
    }

    /// The pieces in order.
    pub fn walk(&self) -> Walk<'_>
        ensures { result ≡ self.now.region.pieces }
    {
        Walk::new(self)
    }

    /// The first number beside the piece at that place, 0 at first.
    pub fn len(&self, at: usize) -> u64
        requires { at < length self.now.region.pieces }
        ensures { result ≡ slice_index self.now.lens at }
    {
        self.blocks.lens.get(at)
    }

    /// The second number beside the piece at that place, 0 at first.
    pub fn group(&self, at: usize) -> u64
        requires { at < length self.now.region.pieces }
        ensures { result ≡ slice_index self.now.groups at }
    {
        self.blocks.groups.get(at)
    }

    /// Keeps the first number beside the piece at that place.
    pub fn set_len(&mut self, at: usize, len: u64)
        requires { at < length self.old.region.pieces }
        ensures lens { self.new.lens ≡ slice_set self.old.lens at len }
        ensures rest { (self.new.region ≡ self.old.region) × (self.new.groups ≡ self.old.groups) }
    {
        self.blocks.lens.set(at, len);
    }

    /// Keeps the second number beside the piece at that place.
    pub fn set_group(&mut self, at: usize, len: u64)
        requires { at < length self.old.region.pieces }
        ensures groups { self.new.groups ≡ slice_set self.old.groups at len }
        ensures rest { (self.new.region ≡ self.old.region) × (self.new.lens ≡ self.old.lens) }
    {
        self.blocks.groups.set(at, len);
    }

    /// An empty builder with all the room.
    pub fn reset(self) -> Builder
        ensures { result ≡ empty_region self.region.node_room self.region.byte_room }
    {
        let Instance { mut blocks } = self;
        blocks.contents.clear();
        blocks.bytes.clear();
        blocks.lens.begin(0);
        blocks.groups.begin(0);
        Builder::over(blocks)
    }
}
