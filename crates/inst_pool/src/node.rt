//! Contents in four bytes each. What does not fit stands in a block of its own.
ghost use Rattle.std.specs.Prelude.{◌≡◌, ◌<◌, ◌≤◌, ◌^◌, ℕ, List, true, length, IfSome, IfNone};
ghost use Rattle.lexical_core.specs.Decimals.{IsDecimal};
ghost use Rattle.inst_pool.specs.Contents.{piece_in, IsContentInside};
ghost use Rattle.inst_pool.specs.Pieces.{piece_of};
ghost use Rattle.inst_pool.specs.inner.Nodes.{kind_by_bits, node_kind, number_in, edge_in, decimal_of, decimal_in, amount_in, content_of, IsNodeWithin};
ghost use Rattle.inst_pool.specs.inner.Others.{AreBetween};
ghost use Rattle.inst_pool.specs.inner.Texts.{HasOneMore};
ghost use Rattle.inst_pool.specs.declared.others.Other.{Other};

use crate::content::{Content, piece_of as held_piece};
use crate::others::{Other, other_place};
use crate::piece::{Edge, Piece};
use crate::texts::Texts;
use data_types::LeafRef;
use lexical_core::Decimal;

/// Numbers below this have 29 bits.
const MOST_HELD: u32 = 1 << 29;

/// What kind of content a node stands for.
#[derive(Clone, Copy, Debug)]
pub(crate) enum Kind {
    /// An element begins.
    Open,
    /// Bytes: the number of a short text.
    Bytes,
    Number,
    Flag,
    Code,
    /// An element ends.
    Close,
    /// A number with two digits behind the point.
    Amount,
    /// Any other: it stands apart, and the number is a hint where.
    Apart,
}

/// A content in short: three bits tell its kind, and the others a number.
#[derive(Clone, Copy, Debug)]
pub(crate) struct Node {
    pub(crate) word: u32,
}

const _: () = prove!(size_of::<Node>() == 4);

impl Node {
    /// The node of this kind with this number.
    #[inline(always)]
    pub(crate) fn new(kind: Kind, held: u32) -> Node
        requires { held < 2 ^ 29 }
        ensures kind { node_kind result ≡ kind }
        ensures held { number_in result ≡ held }
    {
        Node {
            word: held * 8 + bits_of(kind),
        }
    }

    /// Its kind.
    #[inline(always)]
    fn kind(self) -> Kind
        ensures { result ≡ node_kind self }
    {
        match self.word % 8 {
            0 => Kind::Open,
            1 => Kind::Bytes,
            2 => Kind::Number,
            3 => Kind::Flag,
            4 => Kind::Code,
            5 => Kind::Close,
            6 => Kind::Amount,
            _ => Kind::Apart,
        }
    }

    /// The number that it holds.
    #[inline(always)]
    fn held(self) -> u32
        ensures held { result ≡ number_in self }
        ensures fits { result < 2 ^ 29 }
    {
        self.word / 8
    }
}

/// The three bits that tell a kind.
#[inline(always)]
fn bits_of(kind: Kind) -> u32
    ensures kind { kind_by_bits result ≡ kind }
    ensures fits { result < 8 }
{
    match kind {
        Kind::Open => 0,
        Kind::Bytes => 1,
        Kind::Number => 2,
        Kind::Flag => 3,
        Kind::Code => 4,
        Kind::Close => 5,
        Kind::Amount => 6,
        Kind::Apart => 7,
    }
}

/// Whether 7 bits say the slot of the edge, and 11 bits each type, which is one comparison.
#[inline(always)]
fn is_short(edge: Edge) -> bool
    ensures { result ≡ true → (edge.slot < 128) × (edge.target < 2048) × (edge.parent < 2048) }
{
    (edge.slot as u64 * 16 | edge.target as u64 | edge.parent as u64) < 2048
}

/// The number that tells an edge, where it has 29 bits.
#[inline(always)]
pub(crate) fn short_edge(edge: Edge) -> Option<u32>
    ensures edge { IfSome result (λ held. edge_in held ≡ edge) }
    ensures fits { IfSome result (λ held. held < 2 ^ 29) }
{
    if is_short(edge) {
        return Some(edge.slot + edge.target * 128 + edge.parent * 0x4_0000);
    }
    None
}

/// The whole part of a decimal without a sign and with scale 2, where it has 29 bits.
#[inline(always)]
fn short_amount(number: &Decimal) -> Option<u32>
    ensures number { IfSome result (λ held. amount_in held ≡ number.now) }
    ensures decimal { IfSome result (λ held. IsDecimal (amount_in held)) }
    ensures fits { IfSome result (λ held. held < 2 ^ 29) }
{
    let whole = number.whole();
    if whole < 0 || whole >= 0x2000_0000 || number.scale() != 2 {
        return None;
    }
    let size = whole as u64;
    Some(size as u32)
}

/// The number that tells a decimal without a sign, where 26 bits say its whole part and 3 its scale.
#[inline(always)]
fn short_decimal(number: &Decimal) -> Option<u32>
    ensures number { IfSome result (λ held. decimal_in held ≡ number.now) }
    ensures decimal { IfSome result (λ held. IsDecimal (decimal_in held)) }
    ensures fits { IfSome result (λ held. held < 2 ^ 29) }
{
    let whole = number.whole();
    let scale = number.scale();
    if whole < 0 || whole >= 0x400_0000 || scale >= 8 {
        return None;
    }
    let size = whole as u64;
    Some(size as u32 * 8 + scale as u32)
}

/// The content of the piece at a place in short, where it fits; bytes are then noted as a text.
#[inline(always)]
pub(crate) fn shortened(content: &Content, texts: &mut Texts) -> Option<Node>
    requires { length texts.old.items < texts.old.room }
    ensures content { IfSome result (λ node. (others : List Other) (at : ℕ) → content_of texts.new.items others at node ≡ content.now) }
    ensures within { IfSome result (λ node. (others : List Other) (at : ℕ) → IsNodeWithin texts.new.items others at node) }
    ensures more { HasOneMore texts.old.items texts.new.items }
    ensures none { IfNone result (texts.new.items ≡ texts.old.items) }
    ensures room { texts.new.room ≡ texts.old.room }
{
    match content {
        Content::Open(edge) => {
            let Some(held) = short_edge(*edge) else {
                return None;
            };
            Some(Node::new(Kind::Open, held))
        }
        Content::Bytes(start, end) => {
            let Some(number) = texts.add(*start, *end) else {
                return None;
            };
            Some(Node::new(Kind::Bytes, number))
        }
        Content::Number(number) => {
            if let Some(held) = short_amount(number) {
                return Some(Node::new(Kind::Amount, held));
            }
            let Some(held) = short_decimal(number) else {
                return None;
            };
            Some(Node::new(Kind::Number, held))
        }
        Content::Flag(flag) => {
            let held = if *flag { 1 } else { 0 };
            Some(Node::new(Kind::Flag, held))
        }
        Content::Code(place) => {
            let held = *place;
            if held >= MOST_HELD {
                return None;
            }
            Some(Node::new(Kind::Code, held))
        }
        Content::Close(edge) => {
            let Some(held) = short_edge(*edge) else {
                return None;
            };
            Some(Node::new(Kind::Close, held))
        }
    }
}

/// The piece that the node at that place stands for, whose bytes stand in a block.
#[inline(always)]
pub(crate) fn piece_of<'a>(
    node: Node,
    at: usize,
    texts: &Texts,
    others: &[Other],
    bytes: &'a [u8],
) -> Piece<'a>
    requires order { (high : ℕ) × AreBetween 0 high others.now }
    requires within { IsNodeWithin texts.now.items others.now at node }
    requires inside { IsContentInside (length bytes.now) (content_of texts.now.items others.now at node) }
    ensures { piece_of result ≡ piece_in bytes.now (content_of texts.now.items others.now at node) }
{
    let held = node.held();
    match node.kind() {
        Kind::Open => Piece::Open(edge_of(held)),
        Kind::Bytes => Piece::Leaf(LeafRef::Bytes(texts.text(held as usize, bytes))),
        Kind::Number => Piece::Leaf(LeafRef::Number(decimal_of(held / 8, held % 8))),
        Kind::Flag => Piece::Leaf(LeafRef::Flag(held == 1)),
        Kind::Code => Piece::Leaf(LeafRef::Code(held)),
        Kind::Close => Piece::Close(edge_of(held)),
        Kind::Amount => Piece::Leaf(LeafRef::Number(decimal_of(held, 2))),
        Kind::Apart => {
            let place = other_place(others, at, held as usize);
            held_piece(others[place].content, bytes)
        }
    }
}

/// The edge that a number tells.
#[inline(always)]
fn edge_of(held: u32) -> Edge
    ensures { result ≡ edge_in held }
{
    Edge {
        slot: held % 128,
        target: held / 128 % 2048,
        parent: held / 0x4_0000,
    }
}

/// The edge of an element that begins with the one node and ends with the other, which is one comparison.
#[inline(always)]
pub(crate) fn edge_between(begin: Node, end: Node) -> Option<Edge>
    ensures begins { IfSome result (λ edge. (texts : List Content) (others : List Other) (at : ℕ) → content_of texts others at begin ≡ Content.Open edge) }
    ensures ends { IfSome result (λ edge. (texts : List Content) (others : List Other) (at : ℕ) → content_of texts others at end ≡ Content.Close edge) }
{
    let Kind::Open = begin.kind() else {
        return None;
    };
    let held = begin.held();
    let last = Node::new(Kind::Close, held);
    if end.word != last.word {
        return None;
    }
    Some(edge_of(held))
}

/// The decimal without a sign of this whole part and scale.
#[inline(never)]
fn decimal_of(whole: u32, scale: u32) -> Decimal
    requires { IsDecimal (decimal_of whole scale) }
    ensures { result ≡ decimal_of whole scale }
{
    let Some(number) = Decimal::make(whole as i64, scale as u8) else {
        unreachable!()
    };
    number
}
