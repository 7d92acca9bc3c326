//! The DER of an instance, pushed piece by piece: X.690 §8.1, §10.1.
ghost use Rattle.std.specs.Prelude.{◌≡◌, ◌+◌, ◌++◌, ◌<◌, ◌≤◌, ◌-◌, true, false, [], drop, length, slice_get, slice_index, IfSome, IfNone, IfOk, if◌then◌else◌};
ghost use Rattle.outside.specs.Pushes.{Pushes, as_push};
ghost use Rattle.data_types.specs.LeafAnswers.{leaf_of};
ghost use Rattle.data_types.specs.Value.{Value, Begins};
ghost use Rattle.der_octets.specs.Octets.{context};
ghost use Rattle.fragments.specs.Fragment.{fragment};
ghost use Rattle.inst_pool.specs.Pieces.{edge_of};
ghost use Rattle.message_model.specs.Admits.{AdmitsAs};
ghost use Rattle.message_model.specs.Tables.{types_of, pieces_of};
ghost use Rattle.message_model.specs.Views.{slot_view};
ghost use Rattle.der_model.specs.DerMessage.{der_message};
ghost use Rattle.der_model.specs.Der.{der_of};
ghost use Rattle.der_model.specs.LeafContents.{leaf_contents};
ghost use Rattle.der_writer.specs.Measured.{IsMeasured};
ghost use Rattle.der_writer.specs.inner.PieceOctets.{Before, Begun, begin_octets, document_edge, empty_slots, goes_on, head, item_head, leaf_next, left_behind, len_kept, list_head, next_slot, own_slot, piece_octets, pieces_octets, sequence_slots, slots_behind, slots_between};
ghost use Rattle.der_writer.specs.inner.Measuring.{before_place, octets_at, pairs_kept};
ghost use Rattle.der_writer.specs.inner.Writing.{IsWritingPlace, IsNextPlace, HasPutOctets};

use crate::contents::push_leaf;
use crate::head::Head;
use crate::heads::{push_context, push_head};
use crate::pieces::{first_list, item_head, leaf_head};
use crate::places::{before_at, start};
use crate::simple::{is_plain, is_plain_in, leaf_size_at};
use crate::slots::{behind_size, is_sequence, push_behind, push_slots};
use data_types::LeafRef;
use der_model::{comes_once, is_constructed};
use inst_pool::{Edge, Instance, Piece};
use message_model::{Model, Slot};
use outside::{Buffer, Sink, SinkError, WriteError};

/// Where a writer is among the pieces of an instance.
#[derive(Clone, Copy, Debug)]
pub(crate) struct Place {
    /// How many pieces stand before it.
    pub(crate) at: usize,
    /// The first slot that may come there.
    pub(crate) next: u64,
    /// How many pairs of numbers are left.
    pub(crate) left: usize,
}

/// Pushes the heads with which an item of a list begins that has so many contents octets; so many octets of the list begin
/// with it.
#[inline(never)]
fn push_item<O: Sink>(
    model: &Model,
    next: u64,
    slot: u32,
    target: u32,
    group: u64,
    size: u64,
    sink: &mut O,
) -> Result<(), SinkError>
    requires { slot < 16384 }
    ensures { (before : Before) → next ≡ next_slot before → Pushes O.held O.faults O.room sink.old sink.new result ((if goes_on before slot then [] else head true (context slot) group) ++ item_head (types_of model.now target) size) }
{
    if let Err(error) = push_head(first_list(next, slot), group, sink) {
        return Err(error);
    }
    push_head(item_head(model, target), size, sink)
}

/// How many contents octets the element has that begins at a place, plain or not, where so many pairs of numbers are left.
#[inline(always)]
fn begun_size(instance: &Instance, plain: bool, at: usize, left: usize) -> u64
    requires at { at < length instance.now.region.pieces }
    requires left { left ≤ length instance.now.region.pieces }
    ensures { result ≡ (if plain then leaf_next (slice_get instance.now.region.pieces (at + 1)) else slice_index instance.now.lens (left - 1)) }
{
    let _count = instance.count();
    if plain {
        return leaf_size_at(instance, at + 1);
    }
    instance.len(last_place(left))
}

/// How many pairs of numbers are left where an element begins, of so many before it: a plain one has none.
#[inline(always)]
fn left_begun(plain: bool, left: usize) -> usize
    ensures left { result ≡ (if plain then left else left - 1) }
    ensures few { result ≤ left }
{
    if plain {
        return left;
    }
    last_place(left)
}

/// The place of the last of so many pairs of numbers.
#[inline(always)]
fn last_place(left: usize) -> usize
    ensures { result ≡ left - 1 }
{
    left.saturating_sub(1)
}

/// Pushes the heads with which an element of a slot begins that has so many contents octets.
#[inline(always)]
fn push_opening<O: Sink>(
    model: &Model,
    instance: &Instance,
    place: Place,
    edge: Edge,
    own: &Option<Slot<'_>>,
    size: u64,
    sink: &mut O,
) -> Result<(), SinkError>
    requires some { 0 < length instance.now.region.pieces }
    requires left { place.left ≤ length instance.now.region.pieces }
    requires own { slot_view own.now ≡ own_slot (types_of model.now) (edge_of edge) }
    ensures { (before : Before) → place.next ≡ next_slot before → Pushes O.held O.faults O.room sink.old sink.new result (list_head (own_slot (types_of model.now) (edge_of edge)) before edge.slot (slice_index instance.now.groups (place.left - 1)) ++ begin_octets (types_of model.now) (edge_of edge) size) }
{
    let _count = model.type_count();
    let Some(slot) = own else {
        return Ok(());
    };
    if !comes_once(slot.max) {
        let group = instance.group(last_place(place.left));
        return push_item(model, place.next, edge.slot, edge.target, group, size, sink);
    }
    let constructed = is_constructed(model, edge.target);
    push_context(constructed, edge.slot, size, sink)
}

/// Pushes what is written where an element begins, and tells the place behind that.
#[inline(always)]
fn push_begin<O: Sink>(
    model: &Model,
    instance: &Instance,
    edge: Edge,
    place: Place,
    sink: &mut O,
) -> Result<Place, SinkError>
    requires at { place.at < length instance.now.region.pieces }
    requires place { IsWritingPlace instance.now.region.pieces place }
    ensures pushed { Pushes O.held O.faults O.room sink.old sink.new result (piece_octets (types_of model.now) (before_place instance.now.region.pieces place.at) (Begins (edge_of edge)) (len_kept (types_of model.now) (Begins (edge_of edge)) (slice_get instance.now.region.pieces (place.at + 1)) instance.now.lens place.left) (slice_index instance.now.groups (place.left - 1))) }
    ensures place { IfOk result (λ behind. (behind.at ≡ place.at + 1) × (behind.next ≡ 0)) }
    ensures left { IfOk result (λ behind. behind.left ≡ left_behind (types_of model.now) (Begins (edge_of edge)) place.left) }
{
    let _count = instance.count();
    let own = model.slot(edge.parent, edge.slot);
    let plain = is_plain_in(model, &own, edge.target);
    let size = begun_size(instance, plain, place.at, place.left);
    let left = left_begun(plain, place.left);
    if let Err(error) = push_slots(model, edge.parent, place.next, edge.slot, sink) {
        return Err(error);
    }
    if let Err(error) = push_opening(model, instance, place, edge, &own, size, sink) {
        return Err(error);
    }
    Ok(Place {
        at: place.at + 1,
        next: 0,
        left,
    })
}

/// Pushes what is written where an element ends, behind which a slot may come first.
#[inline(always)]
fn push_end<O: Sink>(model: &Model, target: u32, next: u64, sink: &mut O) -> Result<(), SinkError>
    ensures { (before : Before) → next ≡ next_slot before → Pushes O.held O.faults O.room sink.old sink.new result (slots_behind (types_of model.now) target before) }
{
    if !is_sequence(model, target) {
        return Ok(());
    }
    push_behind(model, target, next, sink)
}

/// Pushes what is written at the piece at a place, and tells the place behind it.
#[inline(always)]
fn push_piece<O: Sink>(
    model: &Model,
    instance: &Instance,
    place: Place,
    sink: &mut O,
) -> Result<Place, SinkError>
    requires at { place.at < length instance.now.region.pieces }
    requires place { IsWritingPlace instance.now.region.pieces place }
    ensures pushed { Pushes O.held O.faults O.room sink.old sink.new result (octets_at (types_of model.now) instance.now place.at place.left) }
    ensures behind { IfOk result (λ behind. IsNextPlace (types_of model.now) instance.now.region.pieces place behind) }
{
    let _count = instance.count();
    match instance.piece(place.at) {
        Some(Piece::Open(edge)) => push_begin(model, instance, edge, place, sink),
        Some(Piece::Leaf(leaf)) => {
            match push_leaf(leaf_head(model, before_at(instance, place.at)), &leaf, sink) {
                Ok(()) => Ok(Place {
                    at: place.at + 1,
                    next: 0,
                    left: place.left,
                }),
                Err(error) => Err(error),
            }
        }
        Some(Piece::Close(edge)) => {
            match push_end(model, edge.target, place.next, sink) {
                Ok(()) => Ok(Place {
                    at: place.at + 1,
                    next: edge.slot as u64 + 1,
                    left: place.left,
                }),
                Err(error) => Err(error),
            }
        }
        None => unreachable!(),
    }
}

/// Pushes the three pieces of a plain element: the slots before it in which nothing has come, and its leaf under the tag of its
/// slot.
#[inline(always)]
fn push_plain<O: Sink>(
    model: &Model,
    next: u64,
    edge: Edge,
    leaf: &LeafRef<'_>,
    sink: &mut O,
) -> Result<(), SinkError>
    requires { edge.slot < 16384 }
    ensures { (before : Before) → next ≡ next_slot before → Pushes O.held O.faults O.room sink.old sink.new result (slots_between (types_of model.now) edge.parent before edge.slot ++ (head false (context edge.slot) (length (leaf_contents (leaf_of leaf.now))) ++ leaf_contents (leaf_of leaf.now))) }
{
    if let Err(error) = push_slots(model, edge.parent, next, edge.slot, sink) {
        return Err(error);
    }
    push_leaf(Some(Head::context(false, edge.slot)), leaf, sink)
}

/// Puts the plain element that begins at a place into the buffer, and tells the place behind it. `None` where none is known to
/// begin there, or the buffer has not the room; it is as before.
#[inline(always)]
fn put_plain(model: &Model, instance: &Instance, place: Place, buffer: &mut Buffer) -> Option<Place>
    requires place { IsWritingPlace instance.now.region.pieces place }
    ensures put { IfSome result (λ behind. HasPutOctets (types_of model.now) instance.now place buffer.old behind buffer.new) }
    ensures later { IfSome result (λ behind. place.at < behind.at) }
    ensures kept { IfNone result (buffer.new ≡ buffer.old) }
{
    let _count = instance.count();
    let _types = model.type_count();
    let Some(element) = instance.leaf_element(place.at) else {
        return None;
    };
    if !is_plain(model, element.edge) {
        return None;
    }
    let count = buffer.len();
    match push_plain(model, place.next, element.edge, &element.leaf, buffer) {
        Ok(()) => Some(Place {
            at: place.at + 3,
            next: element.edge.slot as u64 + 1,
            left: place.left,
        }),
        Err(_) => {
            buffer.truncate(count);
            None
        }
    }
}

/// Puts what is written at the piece at a place into the buffer, and tells the place behind it. `None` where the buffer has not
/// the room; it is as before.
#[inline(always)]
fn put_piece(model: &Model, instance: &Instance, place: Place, buffer: &mut Buffer) -> Option<Place>
    requires at { place.at < length instance.now.region.pieces }
    requires place { IsWritingPlace instance.now.region.pieces place }
    ensures put { IfSome result (λ behind. HasPutOctets (types_of model.now) instance.now place buffer.old behind buffer.new) }
    ensures later { IfSome result (λ behind. place.at < behind.at) }
    ensures kept { IfNone result (buffer.new ≡ buffer.old) }
{
    let count = buffer.len();
    match push_piece(model, instance, place, buffer) {
        Ok(behind) => Some(behind),
        Err(_) => {
            buffer.truncate(count);
            None
        }
    }
}

/// Puts what is written from a place on into the buffer, up to a piece for which it has not the room.
fn put_pieces(model: &Model, instance: &Instance, place: Place, buffer: &mut Buffer) -> Place
    requires { IsWritingPlace instance.now.region.pieces place }
    ensures { HasPutOctets (types_of model.now) instance.now place buffer.old result buffer.new }
{
    let count = instance.count();
    let mut next = place;
    while next.at < count {
        if let Some(behind) = put_plain(model, instance, next, buffer) {
            next = behind;
            continue;
        }
        let Some(behind) = put_piece(model, instance, next, buffer) else {
            return next;
        };
        next = behind;
    }
    next
}

/// Pushes the buffer, and then what is written at the piece at a place; tells the place behind it.
#[cold]
#[inline(never)]
fn push_past<O: Sink>(
    model: &Model,
    instance: &Instance,
    place: Place,
    buffer: &mut Buffer,
    sink: &mut O,
) -> Result<Place, SinkError>
    requires at { place.at < length instance.now.region.pieces }
    requires place { IsWritingPlace instance.now.region.pieces place }
    ensures pushed { Pushes O.held O.faults O.room sink.old sink.new result (buffer.old ++ octets_at (types_of model.now) instance.now place.at place.left) }
    ensures empty { IfOk result (λ _. buffer.new ≡ []) }
    ensures behind { IfOk result (λ behind. IsNextPlace (types_of model.now) instance.now.region.pieces place behind) }
{
    if let Err(error) = buffer.flush(sink) {
        return Err(error);
    }
    push_piece(model, instance, place, sink)
}

/// Pushes what is written at all pieces, by way of a buffer, and at the end of the whole, where so many pairs of numbers are
/// kept.
fn push_pieces<O: Sink>(
    model: &Model,
    instance: &Instance,
    kept: usize,
    sink: &mut O,
) -> Result<(), SinkError>
    requires { kept ≤ length instance.now.region.pieces }
    ensures { Pushes O.held O.faults O.room sink.old sink.new result (pieces_octets (types_of model.now) (Begun document_edge) instance.now.region.pieces instance.now.lens instance.now.groups kept) }
{
    let mut buffer = Buffer::new();
    let count = instance.count();
    let begun = Place {
        at: 0,
        next: 0,
        left: kept,
    };
    let mut place = put_pieces(model, instance, begun, &mut buffer);
    while place.at < count {
        let behind = match push_past(model, instance, place, &mut buffer, sink) {
            Ok(behind) => behind,
            Err(error) => return Err(error),
        };
        place = put_pieces(model, instance, behind, &mut buffer);
    }
    push_rest(model, place.next, buffer, sink)
}

/// Pushes the buffer, and what is written at the end of the whole.
fn push_rest<O: Sink>(
    model: &Model,
    next: u64,
    mut buffer: Buffer,
    sink: &mut O,
) -> Result<(), SinkError>
    ensures { Pushes O.held O.faults O.room sink.old sink.new result (buffer ++ empty_slots next (drop next (sequence_slots (types_of model.now 0)))) }
{
    if let Err(error) = buffer.flush(sink) {
        return Err(error);
    }
    push_behind(model, 0, next, sink)
}

/// The number of contents octets of the whole.
fn whole_len(model: &Model, instance: &Instance) -> u64
    ensures some { 0 < length instance.now.region.pieces → result ≡ slice_index instance.now.lens (length instance.now.region.pieces - 1) }
    ensures none { length instance.now.region.pieces ≡ 0 → result ≡ length (slots_behind (types_of model.now) 0 (Begun document_edge)) }
{
    let count = instance.count();
    if count > 0 {
        instance.len(count - 1)
    } else {
        behind_size(model, 0, start())
    }
}

/// How many pairs of numbers are kept, where the lengths have been filled in.
fn pairs_kept(instance: &Instance) -> usize
    requires { 0 < length instance.now.region.pieces → pairs_kept instance.now ≤ length instance.now.region.pieces }
    ensures some { 0 < length instance.now.region.pieces → result ≡ pairs_kept instance.now }
    ensures few { result ≤ length instance.now.region.pieces }
{
    let count = instance.count();
    if count == 0 {
        return 0;
    }
    instance.group(count - 1) as usize
}

/// Pushes the instance to a sink.
fn push_instance<O: Sink>(model: &Model, instance: &Instance, sink: &mut O) -> Result<(), SinkError>
    requires measured { IsMeasured model.now instance.now }
    requires held { (v : Value) × AdmitsAs (types_of model.now) (types_of model.now 0) v × (instance.now.region.pieces ≡ pieces_of fragment model.now v) }
    ensures { (v : Value) → AdmitsAs (types_of model.now) (types_of model.now 0) v → instance.now.region.pieces ≡ pieces_of fragment model.now v
        → Pushes O.held O.faults O.room sink.old sink.new result (der_of (der_message model.now) v) }
{
    let _count = model.type_count();
    let len = whole_len(model, instance);
    if let Err(error) = push_head(Some(Head::universal(true, 16)), len, sink) {
        return Err(error);
    }
    push_pieces(model, instance, pairs_kept(instance), sink)
}

/// Pushes the DER of the instance, whose lengths have been filled in by `measure`. After an error the sink holds a front
/// of it behind what it held. It takes no memory of its own.
pub fn write_der<O: Sink>(
    model: &Model,
    instance: &Instance,
    sink: &mut O,
) -> Result<(), WriteError>
    requires measured { IsMeasured model.now instance.now }
    requires held { (v : Value) × AdmitsAs (types_of model.now) (types_of model.now 0) v × (instance.now.region.pieces ≡ pieces_of fragment model.now v) }
    ensures { (v : Value) → AdmitsAs (types_of model.now) (types_of model.now 0) v → instance.now.region.pieces ≡ pieces_of fragment model.now v
        → Pushes O.held O.faults O.room sink.old sink.new (as_push result) (der_of (der_message model.now) v) }
{
    match push_instance(model, instance, sink) {
        Ok(()) => Ok(()),
        Err(SinkError::Failed) => Err(WriteError::WriteFault),
        Err(SinkError::Memory) => Err(WriteError::Memory),
    }
}
