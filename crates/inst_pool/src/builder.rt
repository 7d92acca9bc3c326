//! A builder of instances.
ghost use Rattle.std.specs.Prelude.{◌≡◌, ◌+◌, ◌<◌, ◌≤◌, List, [], ◌∷◌, ◌++◌, length, replicate, slice_get, Some, OnOk, OnErr, IfOk, IsOk, vec_capacity};
ghost use Rattle.std.specs.Option.{option_map};
ghost use Rattle.data_types.specs.Leaf.{Leaf, Bytes as BytesLeaf, octet_count};
ghost use Rattle.data_types.specs.LeafAnswers.{leaf_of};
ghost use Rattle.data_types.specs.Value.{Edge as EdgeOf, Begins, Holds, Ends};
ghost use Rattle.inst_pool.specs.Blocks.{AreBuilding, region_of};
ghost use Rattle.inst_pool.specs.Contents.{plain_leaf, room_of};
ghost use Rattle.inst_pool.specs.Pieces.{edge_of, open_in, spare_nodes, spare_bytes, room_limit};

use crate::blocks::{Blocks, make_piece_room};
use crate::content::Content;
use crate::contents::Contents;
use crate::instance::Instance;
use crate::numbers::Numbers;
use crate::piece::Edge;
use crate::room::make_room;
use data_types::LeafRef;
use std::alloc::{AllocError, Global};
use std::marker::Model;

/// An instance that is being made: pieces in order, in one block, and in another the bytes of leaves.
#[derive(Debug, Drop)]
pub struct Builder {
    blocks: Blocks,
}

impl Model for Builder {
    ghost use Rattle.inst_pool.specs.Pieces.{Region};
    ghost use Rattle.inst_pool.specs.Blocks.{AreBuilding, region_of};

    ghost Value = { Region };

    ghost view = { λ b. region_of b.blocks };

    ghost invariant = { λ b. AreBuilding b.blocks };
}

impl Builder {
    /// No piece. It takes no memory.
    pub fn new(alloc: Global) -> Builder
        ensures { result.pieces ≡ [] }
    {
        Builder::over(Blocks {
            contents: Contents::new(alloc),
            bytes: Vec::new(alloc),
            opened: Vec::new(alloc),
            lens: Numbers::new(alloc),
            groups: Numbers::new(alloc),
            room: 0,
        })
    }

    /// The builder of these blocks.
    pub(crate) fn over(blocks: Blocks) -> Builder
        requires { AreBuilding blocks }
        ensures { result ≡ region_of blocks }
    {
        Builder { blocks }
    }

    /// Makes room for so many more pieces, and so many more bytes of leaves.
    pub fn reserve(&mut self, nodes: usize, bytes: usize) -> Result<(), AllocError>
        ensures ok { OnOk result ((nodes ≤ spare_nodes self.new) × (bytes ≤ spare_bytes self.new)) }
        ensures within { nodes ≤ spare_nodes self.old → bytes ≤ spare_bytes self.old → IsOk result }
        ensures pieces { self.new.pieces ≡ self.old.pieces }
        ensures room { (self.old.node_room ≤ self.new.node_room) × (self.old.byte_room ≤ self.new.byte_room) }
    {
        make_piece_room(&mut self.blocks, nodes)?;
        make_room(&mut self.blocks.bytes, bytes)?;
        Ok(())
    }

    /// The innermost open element, where one is open.
    #[inline(always)]
    pub fn innermost(&self) -> Option<Edge>
        ensures { option_map edge_of result ≡ slice_get (open_in self.now.pieces) 0 }
    {
        match self.blocks.opened.last() {
            Some(edge) => Some(*edge),
            None => None,
        }
    }

    /// An element begins. After want of memory the pieces are as before.
    #[inline(always)]
    pub fn begin(&mut self, edge: Edge) -> Result<(), AllocError>
        ensures ok { OnOk result (self.new.pieces ≡ self.old.pieces ++ Begins (edge_of edge) ∷ []) }
        ensures err { OnErr result (self.new.pieces ≡ self.old.pieces) }
        ensures within { 0 < spare_nodes self.old → IsOk result }
        ensures room { (self.old.node_room ≤ self.new.node_room) × (self.old.byte_room ≤ self.new.byte_room) }
    {
        make_piece_room(&mut self.blocks, 1)?;
        self.blocks.opened.push_reserved(edge);
        self.blocks.contents.push(Content::Open(edge));
        Ok(())
    }

    /// The innermost open element ends. After want of memory the pieces are as before.
    #[inline(always)]
    pub fn close(&mut self) -> Result<(), AllocError>
        requires { 0 < length (open_in self.old.pieces) }
        ensures ok { (edge : EdgeOf) (outer : List EdgeOf) → open_in self.old.pieces ≡ edge ∷ outer → OnOk result (self.new.pieces ≡ self.old.pieces ++ Ends edge ∷ []) }
        ensures err { OnErr result (self.new.pieces ≡ self.old.pieces) }
        ensures within { 0 < spare_nodes self.old → IsOk result }
        ensures room { (self.old.node_room ≤ self.new.node_room) × (self.old.byte_room ≤ self.new.byte_room) }
    {
        make_piece_room(&mut self.blocks, 1)?;
        let Some(edge) = self.blocks.opened.pop() else {
            unreachable!()
        };
        self.blocks.contents.push(Content::Close(edge));
        Ok(())
    }

    /// The leaf of the innermost open element. After want of memory the pieces are as before.
    #[inline(always)]
    pub fn leaf(&mut self, leaf: LeafRef<'_>) -> Result<(), AllocError>
        ensures ok { OnOk result (self.new.pieces ≡ self.old.pieces ++ Holds (leaf_of leaf.entry) ∷ []) }
        ensures err { OnErr result (self.new.pieces ≡ self.old.pieces) }
        ensures within { 0 < spare_nodes self.old → octet_count (leaf_of leaf.entry) ≤ spare_bytes self.old → IsOk result }
        ensures room { (self.old.node_room ≤ self.new.node_room) × (self.old.byte_room ≤ self.new.byte_room) }
    {
        match leaf {
            LeafRef::Bytes(bytes) => self.hold_bytes(bytes),
            LeafRef::Number(number) => self.hold(Content::Number(number)),
            LeafRef::Flag(flag) => self.hold(Content::Flag(flag)),
            LeafRef::Code(place) => self.hold(Content::Code(place)),
        }
    }

    /// The same of a leaf that is lent.
    #[inline(always)]
    pub fn leaf_from(&mut self, leaf: &LeafRef<'_>) -> Result<(), AllocError>
        ensures ok { OnOk result (self.new.pieces ≡ self.old.pieces ++ Holds (leaf_of leaf.now) ∷ []) }
        ensures err { OnErr result (self.new.pieces ≡ self.old.pieces) }
        ensures within { 0 < spare_nodes self.old → octet_count (leaf_of leaf.now) ≤ spare_bytes self.old → IsOk result }
        ensures room { (self.old.node_room ≤ self.new.node_room) × (self.old.byte_room ≤ self.new.byte_room) }
    {
        match leaf {
            LeafRef::Bytes(bytes) => self.hold_bytes(bytes),
            LeafRef::Number(number) => self.hold(Content::Number(*number)),
            LeafRef::Flag(flag) => self.hold(Content::Flag(*flag)),
            LeafRef::Code(place) => self.hold(Content::Code(*place)),
        }
    }

    /// An element that begins, its leaf and its end. After want of memory the pieces are as before.
    #[inline(always)]
    pub fn leaf_within(&mut self, edge: Edge, leaf: &LeafRef<'_>) -> Result<(), AllocError>
        ensures ok { OnOk result (self.new.pieces ≡ self.old.pieces ++ Begins (edge_of edge) ∷ Holds (leaf_of leaf.now) ∷ Ends (edge_of edge) ∷ []) }
        ensures err { OnErr result (self.new.pieces ≡ self.old.pieces) }
        ensures within { 3 ≤ spare_nodes self.old → octet_count (leaf_of leaf.now) ≤ spare_bytes self.old → IsOk result }
        ensures room { (self.old.node_room ≤ self.new.node_room) × (self.old.byte_room ≤ self.new.byte_room) }
    {
        match leaf {
            LeafRef::Bytes(bytes) => self.hold_bytes_within(edge, bytes),
            LeafRef::Number(number) => self.hold_within(edge, Content::Number(*number)),
            LeafRef::Flag(flag) => self.hold_within(edge, Content::Flag(*flag)),
            LeafRef::Code(place) => self.hold_within(edge, Content::Code(*place)),
        }
    }

    /// A leaf without bytes, within its element.
    fn hold_within(&mut self, edge: Edge, content: Content) -> Result<(), AllocError>
        requires { (leaf : Leaf) × (plain_leaf content ≡ Some leaf) }
        ensures ok { (leaf : Leaf) → plain_leaf content ≡ Some leaf → OnOk result (self.new.pieces ≡ self.old.pieces ++ Begins (edge_of edge) ∷ Holds leaf ∷ Ends (edge_of edge) ∷ []) }
        ensures err { OnErr result (self.new.pieces ≡ self.old.pieces) }
        ensures within { 3 ≤ spare_nodes self.old → IsOk result }
        ensures room { (self.old.node_room ≤ self.new.node_room) × (self.old.byte_room ≤ self.new.byte_room) }
    {
        make_piece_room(&mut self.blocks, 3)?;
        self.blocks.contents.push_within(edge, content);
        Ok(())
    }

    /// A leaf of bytes, within its element.
    #[inline(always)]
    fn hold_bytes_within(&mut self, edge: Edge, bytes: &[u8]) -> Result<(), AllocError>
        ensures ok { OnOk result (self.new.pieces ≡ self.old.pieces ++ Begins (edge_of edge) ∷ Holds (BytesLeaf bytes.now) ∷ Ends (edge_of edge) ∷ []) }
        ensures err { OnErr result (self.new.pieces ≡ self.old.pieces) }
        ensures within { 3 ≤ spare_nodes self.old → length bytes.now ≤ spare_bytes self.old → IsOk result }
        ensures room { (self.old.node_room ≤ self.new.node_room) × (self.old.byte_room ≤ self.new.byte_room) }
    {
        make_piece_room(&mut self.blocks, 3)?;
        let start = add_bytes(&mut self.blocks.bytes, bytes)?;
        self.blocks
            .contents
            .push_within(edge, Content::Bytes(start, start + bytes.len()));
        Ok(())
    }

    /// A leaf without bytes.
    fn hold(&mut self, content: Content) -> Result<(), AllocError>
        requires { (leaf : Leaf) × (plain_leaf content ≡ Some leaf) }
        ensures ok { (leaf : Leaf) → plain_leaf content ≡ Some leaf → OnOk result (self.new.pieces ≡ self.old.pieces ++ Holds leaf ∷ []) }
        ensures err { OnErr result (self.new.pieces ≡ self.old.pieces) }
        ensures within { 0 < spare_nodes self.old → IsOk result }
        ensures room { (self.old.node_room ≤ self.new.node_room) × (self.old.byte_room ≤ self.new.byte_room) }
    {
        make_piece_room(&mut self.blocks, 1)?;
        self.blocks.contents.push(content);
        Ok(())
    }

    /// A leaf of bytes.
    #[inline(always)]
    fn hold_bytes(&mut self, bytes: &[u8]) -> Result<(), AllocError>
        ensures ok { OnOk result (self.new.pieces ≡ self.old.pieces ++ Holds (BytesLeaf bytes.now) ∷ []) }
        ensures err { OnErr result (self.new.pieces ≡ self.old.pieces) }
        ensures within { 0 < spare_nodes self.old → length bytes.now ≤ spare_bytes self.old → IsOk result }
        ensures room { (self.old.node_room ≤ self.new.node_room) × (self.old.byte_room ≤ self.new.byte_room) }
    {
        make_piece_room(&mut self.blocks, 1)?;
        let start = add_bytes(&mut self.blocks.bytes, bytes)?;
        self.blocks
            .contents
            .push(Content::Bytes(start, start + bytes.len()));
        Ok(())
    }

    /// The instance, where every element is closed. The numbers beside its pieces are 0.
    pub fn finish(self) -> Instance
        requires { open_in self.pieces ≡ [] }
        ensures region { result.region ≡ self }
        ensures lens { result.lens ≡ replicate (length self.pieces) 0 }
        ensures groups { result.groups ≡ replicate (length self.pieces) 0 }
    {
        Instance::of(self.blocks)
    }
}

/// Appends bytes to a block, and says where they begin.
#[inline(always)]
fn add_bytes(block: &mut Vec<u8>, bytes: &[u8]) -> Result<usize, AllocError>
    requires { length block.old.items ≤ room_limit }
    ensures ok { OnOk result ((block.new.items ≡ block.old.items ++ bytes.now) × (length block.old.items + length bytes.now ≤ room_limit)) }
    ensures start { IfOk result (λ start. start ≡ length block.old.items) }
    ensures err { OnErr result (block.new.items ≡ block.old.items) }
    ensures within { length block.old.items + length bytes.now ≤ room_of (vec_capacity block.old) → IsOk result }
    ensures room { vec_capacity block.old ≤ vec_capacity block.new }
{
    make_room(block, bytes.len())?;
    let start = block.len();
    match block.extend_from_slice(bytes) {
        Ok(()) => Ok(start),
        Err(_) => unreachable!(),
    }
}
