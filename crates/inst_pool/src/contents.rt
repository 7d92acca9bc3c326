//! A list of contents.
ghost use Rattle.std.specs.Prelude.{◌≡◌, ◌+◌, ◌<◌, ◌≤◌, ◌++◌, [], ◌∷◌, length, slice_get, Some, IfSome, OnOk, vec_len, vec_capacity};
ghost use Rattle.std.specs.Option.{option_map};
ghost use Rattle.data_types.specs.LeafAnswers.{leaf_of};
ghost use Rattle.inst_pool.specs.Contents.{piece_in, pieces_in, AreInside};
ghost use Rattle.inst_pool.specs.Pieces.{edge_of, piece_of, room_limit, IsLeafElement};

use crate::content::Content;
use crate::node::{Kind, Node, edge_between, piece_of, short_edge, shortened};
use crate::others::{Other, add_other};
use crate::piece::{Edge, LeafElement, Piece};
use crate::room::{lengthen, widen};
use crate::texts::Texts;
use std::alloc::{AllocError, Global};
use std::marker::Model;

/// A list of contents, most of them in four bytes, and texts in four more.
#[derive(Debug, Drop)]
pub(crate) struct Contents {
    nodes: Vec<Node>,
    texts: Texts,
    /// Those that do not fit in a node.
    others: Vec<Other>,
}

impl Model for Contents {
    ghost use Rattle.std.specs.Prelude.{min, vec_capacity};
    ghost use Rattle.inst_pool.specs.inner.Packed.{Packed};
    ghost use Rattle.inst_pool.specs.inner.Nodes.{contents_in, AreNodes};

    ghost Value = { Packed };

    ghost view = { λ c. record { items = contents_in c.texts.items c.others.items 0 c.nodes.items; room = min (min (vec_capacity c.nodes) (vec_capacity c.others)) c.texts.room } };

    ghost invariant = { λ c. AreNodes c.texts.items c.others.items c.nodes.items };
}

impl Contents {
    /// No content. It takes no memory.
    pub(crate) fn new(alloc: Global) -> Contents
        ensures { result.items ≡ [] }
    {
        Contents {
            nodes: Vec::new(alloc),
            texts: Texts::new(alloc),
            others: Vec::new(alloc),
        }
    }

    /// The number of contents.
    pub(crate) fn len(&self) -> usize
        ensures { result ≡ length self.now.items }
    {
        self.nodes.len()
    }

    /// The piece at that place, from 0, whose bytes stand in that block.
    #[inline(always)]
    pub(crate) fn piece<'a>(&self, at: usize, bytes: &'a [u8]) -> Piece<'a>
        requires place { at < length self.now.items }
        requires inside { AreInside (length bytes.now) self.now.items }
        ensures { option_map (piece_in bytes.now) (slice_get self.now.items at) ≡ Some (piece_of result) }
    {
        let others = self.others.as_slice();
        piece_of(self.nodes[at], at, &self.texts, others, bytes)
    }

    /// The element that begins at that place, its one leaf and its end, where the nodes tell each and its bytes stand in that block.
    #[inline(always)]
    pub(crate) fn leaf_element<'a>(&self, at: usize, bytes: &'a [u8]) -> Option<LeafElement<'a>>
        requires { AreInside (length bytes.now) self.now.items }
        ensures { IfSome result (λ e. IsLeafElement (pieces_in bytes.now self.now.items) at (edge_of e.edge) (leaf_of e.leaf)) }
    {
        let count = self.nodes.len();
        if count < 3 || at > count - 3 {
            return None;
        }
        let Some(edge) = edge_between(self.nodes[at], self.nodes[at + 2]) else {
            return None;
        };
        let Piece::Leaf(leaf) = self.piece(at + 1, bytes) else {
            return None;
        };
        Some(LeafElement { edge, leaf })
    }

    /// Makes room for so many in all.
    pub(crate) fn widen(&mut self, room: usize) -> Result<(), AllocError>
        requires { room ≤ room_limit }
        ensures ok { OnOk result (room ≤ self.new.room) }
        ensures room { self.old.room ≤ self.new.room }
        ensures items { self.new.items ≡ self.old.items }
    {
        lengthen(&mut self.nodes, room)?;
        widen(&mut self.others, room)?;
        self.texts.widen(room)?;
        Ok(())
    }

    /// Appends a content, for which there is room.
    #[inline(always)]
    pub(crate) fn push(&mut self, content: Content)
        requires room { length self.old.items < self.old.room }
        requires limit { length self.old.items < room_limit }
        ensures items { self.new.items ≡ self.old.items ++ content ∷ [] }
        ensures room { self.new.room ≡ self.old.room }
    {
        let Some(node) = shortened(&content, &mut self.texts) else {
            self.push_apart(content);
            return;
        };
        self.nodes.push_reserved(node);
    }

    /// Appends a content that does not fit in a node.
    #[inline(never)]
    fn push_apart(&mut self, content: Content)
        requires room { length self.old.items < self.old.room }
        requires limit { length self.old.items < room_limit }
        ensures items { self.new.items ≡ self.old.items ++ content ∷ [] }
        ensures room { self.new.room ≡ self.old.room }
    {
        let at = self.nodes.len();
        let hint = add_other(&mut self.others, at, content);
        self.nodes.push_reserved(Node::new(Kind::Apart, hint));
    }

    /// Appends an element that begins, a content and the end of the element, for which there is room.
    #[inline(always)]
    pub(crate) fn push_within(&mut self, edge: Edge, content: Content)
        requires room { length self.old.items + 3 ≤ self.old.room }
        requires limit { length self.old.items + 3 ≤ room_limit }
        ensures items { self.new.items ≡ self.old.items ++ Content.Open edge ∷ content ∷ Content.Close edge ∷ [] }
        ensures room { self.new.room ≡ self.old.room }
    {
        let Some(held) = short_edge(edge) else {
            self.push_each(edge, content);
            return;
        };
        let Some(node) = shortened(&content, &mut self.texts) else {
            self.push_each(edge, content);
            return;
        };
        let open = Node::new(Kind::Open, held);
        let close = Node::new(Kind::Close, held);
        add_three(&mut self.nodes, open, node, close);
    }

    /// The same, of what need not fit in nodes.
    #[cold]
    #[inline(never)]
    fn push_each(&mut self, edge: Edge, content: Content)
        requires room { length self.old.items + 3 ≤ self.old.room }
        requires limit { length self.old.items + 3 ≤ room_limit }
        ensures items { self.new.items ≡ self.old.items ++ Content.Open edge ∷ content ∷ Content.Close edge ∷ [] }
        ensures room { self.new.room ≡ self.old.room }
    {
        self.push(Content::Open(edge));
        self.push(content);
        self.push(Content::Close(edge));
    }

    /// Leaves no content, and all the room.
    pub(crate) fn clear(&mut self)
        ensures items { self.new.items ≡ [] }
        ensures room { self.new.room ≡ self.old.room }
    {
        self.nodes.clear();
        self.texts.clear();
        self.others.clear();
    }
}

/// Appends three nodes, for which there is room.
#[inline(always)]
fn add_three(nodes: &mut Vec<Node>, first: Node, second: Node, third: Node)
    requires { vec_len nodes.old + 3 ≤ vec_capacity nodes.old }
    ensures items { nodes.new.items ≡ nodes.old.items ++ first ∷ second ∷ third ∷ [] }
    ensures room { vec_capacity nodes.new ≡ vec_capacity nodes.old }
{
    nodes.push_reserved(first);
    nodes.push_reserved(second);
    nodes.push_reserved(third);
}
