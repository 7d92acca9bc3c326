//! What is kept of a piece.
ghost use Rattle.std.specs.Prelude.{◌≡◌, length};
ghost use Rattle.inst_pool.specs.Contents.{piece_in, IsContentInside};
ghost use Rattle.inst_pool.specs.Pieces.{piece_of};

use crate::piece::{Edge, Piece};
use data_types::LeafRef;
use lexical_core::Decimal;

/// A piece, whose bytes stand in the block of bytes.
#[derive(Clone, Copy, Debug)]
pub(crate) enum Content {
    /// An element begins.
    Open(Edge),
    /// Bytes: where they begin and end.
    Bytes(usize, usize),
    Number(Decimal),
    Flag(bool),
    Code(u32),
    /// An element ends.
    Close(Edge),
}

/// The piece that is kept as a content.
pub(crate) fn piece_of<'a>(content: Content, bytes: &'a [u8]) -> Piece<'a>
    requires { IsContentInside (length bytes.now) content }
    ensures { piece_of result ≡ piece_in bytes.now content }
{
    match content {
        Content::Open(edge) => Piece::Open(edge),
        Content::Bytes(start, end) => Piece::Leaf(LeafRef::Bytes(&bytes[start..end])),
        Content::Number(number) => Piece::Leaf(LeafRef::Number(number)),
        Content::Flag(flag) => Piece::Leaf(LeafRef::Flag(flag)),
        Content::Code(place) => Piece::Leaf(LeafRef::Code(place)),
        Content::Close(edge) => Piece::Close(edge),
    }
}
