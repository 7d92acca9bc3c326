//! What the pieces of an instance write.
ghost use Rattle.std.specs.Prelude.{◌≡◌, ◌++◌, ◌≤◌, ℕ, List, IsTrue, false, length, drop, slice_get, Some};
ghost use Rattle.outside.specs.Pushes.{Pushes};
ghost use Rattle.outside.specs.Gathering.{Gathers};
ghost use Rattle.data_types.specs.Value.{Piece as OnePiece};
ghost use Rattle.inst_pool.specs.Pieces.{piece_of};
ghost use Rattle.message_model.specs.Tables.{types_of};
ghost use Rattle.xml_writer.specs.inner.PieceTexts.{innermost_begun, innermost_behind, IsPieceText, AreWritten, HasPut};

use crate::elements::put_element;
use crate::innermost::{Innermost, Place, innermost_begun, innermost_behind};
use crate::leaves::{push_held, put_plain};
use crate::tags::{push_begin, push_end, put_begin, put_end};
use data_types::LeafRef;
use inst_pool::{Instance, Piece};
use message_model::Model;
use outside::{Buffer, Sink, SinkError};

/// Pushes what the pieces of the instance write, one after the other, by way of a buffer.
pub(crate) fn push_pieces<O: Sink>(
    model: &Model,
    instance: &Instance,
    sink: &mut O,
) -> Result<(), SinkError>
    requires { (bytes : List ℕ) × AreWritten (types_of model.now) (innermost_begun (types_of model.now) 0) instance.now.region.pieces bytes }
    ensures { (bytes : List ℕ) → AreWritten (types_of model.now) (innermost_begun (types_of model.now) 0) instance.now.region.pieces bytes
        → Pushes O.held O.faults O.room sink.old sink.new result bytes }
{
    let mut buffer = Buffer::new();
    let count = instance.count();
    let begun = Place {
        at: 0,
        innermost: innermost_begun(model, 0),
    };
    let mut place = put_pieces(model, instance, begun, &mut buffer);
    while place.at < count {
        let Some(piece) = instance.piece(place.at) else {
            unreachable!()
        };
        let behind = innermost_behind(model, place.innermost, &piece);
        if let Err(error) = push_past(
            model,
            place.innermost,
            behind.unended,
            &piece,
            &mut buffer,
            sink,
        ) {
            return Err(error);
        }
        let next = Place {
            at: place.at + 1,
            innermost: behind,
        };
        place = put_pieces(model, instance, next, &mut buffer);
    }
    buffer.flush(sink)
}

/// Puts what the pieces from the place on write into the buffer, up to one for which it has not the room.
fn put_pieces(model: &Model, instance: &Instance, place: Place, buffer: &mut Buffer) -> Place
    requires within { place.at ≤ length instance.now.region.pieces }
    requires text { (rest : List ℕ) × AreWritten (types_of model.now) place.innermost (drop place.at instance.now.region.pieces) rest }
    ensures later { place.at ≤ result.at }
    ensures within { result.at ≤ length instance.now.region.pieces }
    ensures put { HasPut (types_of model.now) instance.now.region.pieces place.innermost place.at buffer.old result.innermost result.at buffer.new }
{
    let count = instance.count();
    let mut next = place;
    while next.at < count {
        if let Some(behind) = put_element(model, instance, next, buffer) {
            next = behind;
            continue;
        }
        let Some(piece) = instance.piece(next.at) else {
            unreachable!()
        };
        let behind = innermost_behind(model, next.innermost, &piece);
        if !put_at(model, instance, next, behind.unended, &piece, buffer) {
            return next;
        }
        next = Place {
            at: next.at + 1,
            innermost: behind,
        };
    }
    next
}

/// Puts what the piece at a place writes into the buffer. `false` where it has not the room; it is as before.
#[inline(always)]
fn put_at(
    model: &Model,
    instance: &Instance,
    place: Place,
    unended: bool,
    piece: &Piece<'_>,
    buffer: &mut Buffer,
) -> bool
    requires piece { slice_get instance.now.region.pieces place.at ≡ Some (piece_of piece.now) }
    requires behind { unended ≡ (innermost_behind (types_of model.now) place.innermost (piece_of piece.now)).unended }
    requires text { (bytes : List ℕ) × IsPieceText (types_of model.now) place.innermost (piece_of piece.now) bytes }
    ensures put { IsTrue result → (bytes : List ℕ) → IsPieceText (types_of model.now) place.innermost (piece_of piece.now) bytes → buffer.new ≡ buffer.old ++ bytes }
    ensures kept { result ≡ false → buffer.new ≡ buffer.old }
{
    if put_usual(model, place.innermost, unended, piece, buffer) {
        return true;
    }
    put_unusual(model, instance, place.at, place.innermost, buffer)
}

/// The same, where the piece is a tag, or a text of bytes that stand for themselves. `false` where it is another too.
#[inline(always)]
fn put_usual(
    model: &Model,
    innermost: Innermost,
    unended: bool,
    piece: &Piece<'_>,
    buffer: &mut Buffer,
) -> bool
    requires behind { unended ≡ (innermost_behind (types_of model.now) innermost (piece_of piece.now)).unended }
    requires text { (bytes : List ℕ) × IsPieceText (types_of model.now) innermost (piece_of piece.now) bytes }
    ensures put { IsTrue result → (bytes : List ℕ) → IsPieceText (types_of model.now) innermost (piece_of piece.now) bytes → buffer.new ≡ buffer.old ++ bytes }
    ensures kept { result ≡ false → buffer.new ≡ buffer.old }
{
    match piece {
        Piece::Open(edge) => put_begin(model, edge, unended, buffer),
        Piece::Leaf(leaf) => put_plain(model, innermost, leaf, buffer),
        Piece::Close(edge) => put_end(model, edge, buffer),
    }
}

/// Puts what the piece at a place writes into the buffer, whatever it is. `false` where it has not the room; it is as before.
#[inline(never)]
fn put_unusual(
    model: &Model,
    instance: &Instance,
    at: usize,
    innermost: Innermost,
    buffer: &mut Buffer,
) -> bool
    requires { (p : OnePiece) × (bytes : List ℕ) × (slice_get instance.now.region.pieces at ≡ Some p) × IsPieceText (types_of model.now) innermost p bytes }
    ensures put { IsTrue result → (p : OnePiece) (bytes : List ℕ) → slice_get instance.now.region.pieces at ≡ Some p → IsPieceText (types_of model.now) innermost p bytes
        → buffer.new ≡ buffer.old ++ bytes }
    ensures kept { result ≡ false → buffer.new ≡ buffer.old }
{
    let Some(piece) = instance.piece(at) else {
        unreachable!()
    };
    let behind = innermost_behind(model, innermost, &piece);
    put_piece(model, innermost, behind.unended, &piece, buffer)
}

/// Pushes what the buffer has; what a piece writes waits in it then, or is pushed too where it is too long for that.
#[cold]
#[inline(never)]
fn push_past<O: Sink>(
    model: &Model,
    innermost: Innermost,
    unended: bool,
    piece: &Piece<'_>,
    buffer: &mut Buffer,
    sink: &mut O,
) -> Result<(), SinkError>
    requires behind { unended ≡ (innermost_behind (types_of model.now) innermost (piece_of piece.now)).unended }
    requires text { (bytes : List ℕ) × IsPieceText (types_of model.now) innermost (piece_of piece.now) bytes }
    ensures { (bytes : List ℕ) → IsPieceText (types_of model.now) innermost (piece_of piece.now) bytes
        → Gathers O.held O.faults O.room sink.old sink.new buffer.old buffer.new result bytes }
{
    if let Err(error) = buffer.flush(sink) {
        return Err(error);
    }
    if put_piece(model, innermost, unended, piece, buffer) {
        return Ok(());
    }
    push_piece(model, innermost, unended, piece, sink)
}

/// Puts what a piece writes into the buffer. `false` where it has not the room; it is as before.
#[inline(always)]
fn put_piece(
    model: &Model,
    innermost: Innermost,
    unended: bool,
    piece: &Piece<'_>,
    buffer: &mut Buffer,
) -> bool
    requires behind { unended ≡ (innermost_behind (types_of model.now) innermost (piece_of piece.now)).unended }
    requires text { (bytes : List ℕ) × IsPieceText (types_of model.now) innermost (piece_of piece.now) bytes }
    ensures put { IsTrue result → (bytes : List ℕ) → IsPieceText (types_of model.now) innermost (piece_of piece.now) bytes → buffer.new ≡ buffer.old ++ bytes }
    ensures kept { result ≡ false → buffer.new ≡ buffer.old }
{
    if !is_within(piece, buffer.spare()) {
        return false;
    }
    let count = buffer.len();
    match push_piece(model, innermost, unended, piece, buffer) {
        Ok(()) => true,
        Err(_) => {
            buffer.truncate(count);
            false
        }
    }
}

/// Whether what the piece writes may have so few bytes.
fn is_within(piece: &Piece<'_>, spare: usize) -> bool {
    match piece {
        Piece::Leaf(LeafRef::Bytes(bytes)) => bytes.len() <= spare,
        _ => true,
    }
}

/// Pushes what a piece writes.
#[inline(always)]
fn push_piece<O: Sink>(
    model: &Model,
    innermost: Innermost,
    unended: bool,
    piece: &Piece<'_>,
    sink: &mut O,
) -> Result<(), SinkError>
    requires behind { unended ≡ (innermost_behind (types_of model.now) innermost (piece_of piece.now)).unended }
    requires text { (bytes : List ℕ) × IsPieceText (types_of model.now) innermost (piece_of piece.now) bytes }
    ensures { (bytes : List ℕ) → IsPieceText (types_of model.now) innermost (piece_of piece.now) bytes
        → Pushes O.held O.faults O.room sink.old sink.new result bytes }
{
    match piece {
        Piece::Open(edge) => push_begin(model, edge, unended, sink),
        Piece::Leaf(leaf) => push_held(model, innermost, leaf, sink),
        Piece::Close(edge) => push_end(model, edge, sink),
    }
}
