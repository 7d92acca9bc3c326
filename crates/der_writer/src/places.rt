//! What stands before a place.
ghost use Rattle.std.specs.Prelude.{◌≡◌, ◌≤◌, length};
ghost use Rattle.der_writer.specs.inner.PieceOctets.{Begun, document_edge, next_slot};
ghost use Rattle.der_writer.specs.inner.Heads.{before_view};
ghost use Rattle.der_writer.specs.inner.Measuring.{before_place};

use crate::pieces::Before;
use inst_pool::{Edge, Instance, Piece};

/// `Document`, which no piece begins or ends.
const DOCUMENT: Edge = Edge {
    slot: 0,
    target: 0,
    parent: 0,
};

/// Nothing has come in `Document`.
pub(crate) fn start() -> Before
    ensures { before_view result ≡ Begun document_edge }
{
    Before::Begun(DOCUMENT)
}

/// What stands before the piece at a place.
#[inline(always)]
pub(crate) fn before_at(instance: &Instance, at: usize) -> Before
    requires { at ≤ length instance.now.region.pieces }
    ensures { before_view result ≡ before_place instance.now.region.pieces at }
{
    let _count = instance.count();
    if at == 0 {
        return start();
    }
    match instance.piece(at - 1) {
        Some(Piece::Open(edge)) => Before::Begun(edge),
        Some(Piece::Leaf(_)) => Before::Filled,
        Some(Piece::Close(edge)) => Before::Ended(edge),
        None => unreachable!(),
    }
}

/// The first slot that may come at a place.
#[inline(always)]
pub(crate) fn next_at(instance: &Instance, at: usize) -> u64
    requires { at ≤ length instance.now.region.pieces }
    ensures { result ≡ next_slot (before_place instance.now.region.pieces at) }
{
    let _count = instance.count();
    if at == 0 {
        return 0;
    }
    match instance.piece(at - 1) {
        Some(Piece::Open(_)) => 0,
        Some(Piece::Leaf(_)) => 0,
        Some(Piece::Close(edge)) => edge.slot as u64 + 1,
        None => unreachable!(),
    }
}
