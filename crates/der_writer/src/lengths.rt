//! The lengths of an instance, filled in from the last piece to the first. An element's contents are known where it begins:
//! they are what was added since it ended. The two numbers of an element are kept at the first free place, the first at 0, so
//! that few pages are touched: those of the first element stand last. What the pass has to know of elements that have ended and
//! not begun it keeps as a stack at the last places, so that it takes no memory. A piece adds less than 50,000 octets to its own
//! bytes, and a region has at most 2^48 pieces and bytes, so that no sum comes to 15 * 10^18.
ghost use Rattle.std.specs.Prelude.{◌≡◌, true, false, ◌+◌, ◌*◌, ◌<◌, ◌≤◌, List, length, drop, Some, slice_get, slice_set, ◌-◌};
ghost use Rattle.data_types.specs.Leaf.{Leaf};
ghost use Rattle.data_types.specs.Value.{Piece as PieceOf, Begins, Holds, Ends};
ghost use Rattle.inst_pool.specs.Pieces.{edge_of, piece_bytes, bytes_of};
ghost use Rattle.message_model.specs.Tables.{types_of};
ghost use Rattle.der_model.specs.LeafContents.{leaf_contents};
ghost use Rattle.der_writer.specs.Measured.{IsMeasured};
ghost use Rattle.der_writer.specs.inner.PieceOctets.{Before as BeforeOf, Begun, document_edge, leaf_octets, next_slot, plain_edge};
ghost use Rattle.der_writer.specs.inner.Passes.{Frame, Stage, innermost_frame, piece_step, stage};
ghost use Rattle.der_writer.specs.inner.Measuring.{AreBeside, AreAwaited, AreFramesWithin, Knows, IsSizeAt, IsSimpleAt, before_place, behind_piece, following_at};
ghost use Rattle.der_writer.specs.inner.Heads.{before_view};

use crate::contents::leaf_size;
use crate::heads::head_size;
use crate::openings::begin_sizes;
use crate::pieces::{Before, leaf_head};
use crate::places::{before_at, next_at};
use crate::simple::{SimpleElement, is_plain, simple_before};
use crate::slots::{behind_size, rest_size, slots_size};
use inst_pool::{Edge, Instance, Piece};
use message_model::Model;

/// What the pass knows in front of a piece.
#[derive(Clone, Copy)]
struct Pass {
    /// The number of octets from the piece on.
    sum: u64,
    /// How many elements have begun, whose numbers are kept.
    kept: usize,
    /// How many elements have ended and not begun.
    ended: usize,
}

/// What was kept of the innermost element that has ended.
#[derive(Clone, Copy)]
struct Innermost {
    /// The number of octets behind it.
    behind: u64,
    /// How many of them are of its slot and follow at once.
    following: u64,
}

/// What was read of a piece.
#[derive(Clone, Copy)]
struct Seen {
    /// What stands before the piece behind it.
    before: Before,
    /// How many contents octets it has, where it is a leaf.
    size: u64,
}

/// What is read of the piece at a place.
#[inline(always)]
fn read(instance: &Instance, at: usize) -> Seen
    requires { at < length instance.now.region.pieces }
    ensures before { before_view result.before ≡ behind_piece (slice_get instance.now.region.pieces at) }
    ensures size { IsSizeAt (slice_get instance.now.region.pieces at) result.size }
{
    let _count = instance.count();
    match instance.piece(at) {
        Some(Piece::Open(edge)) => Seen {
            before: Before::Begun(edge),
            size: 0,
        },
        Some(Piece::Leaf(leaf)) => Seen {
            before: Before::Filled,
            size: leaf_size(&leaf),
        },
        Some(Piece::Close(edge)) => Seen {
            before: Before::Ended(edge),
            size: 0,
        },
        None => unreachable!(),
    }
}

/// How many octets of a slot stand at a place, where an element of the slot begins there, whose numbers are the last of so
/// many that are kept.
#[inline(always)]
fn octets_following(model: &Model, instance: &Instance, at: usize, kept: usize, slot: u32) -> u64
    requires { kept ≤ length instance.now.region.pieces }
    ensures { result ≡ following_at (types_of model.now) instance.now at kept slot }
{
    let _count = instance.count();
    if kept == 0 {
        return 0;
    }
    let Some(Piece::Open(edge)) = instance.piece(at) else {
        return 0;
    };
    if edge.slot != slot {
        return 0;
    }
    if is_plain(model, edge) {
        return 0;
    }
    instance.group(kept - 1)
}

/// What was kept of the innermost of so many elements; nothing where there is none.
fn last_ended(instance: &Instance, ended: usize) -> Innermost
    requires { ended ≤ length instance.now.region.pieces }
    ensures { (frames : List Frame) → AreAwaited instance.now ended frames → (result.behind ≡ (innermost_frame frames).behind) × (result.following ≡ (innermost_frame frames).following) }
{
    if ended == 0 {
        return Innermost {
            behind: 0,
            following: 0,
        };
    }
    let place = instance.count() - ended;
    Innermost {
        behind: instance.len(place),
        following: instance.group(place),
    }
}

/// Where an element ends: what is known of it is kept.
fn end(model: &Model, instance: &mut Instance, next: u64, edge: Edge, at: usize, pass: Pass) -> Pass
    requires place { at < length instance.old.region.pieces }
    requires piece { slice_get instance.old.region.pieces at ≡ Some (Ends (edge_of edge)) }
    requires room { pass.sum < 15000000000000000000 }
    requires places { pass.kept + pass.ended + (at + 1) ≤ length instance.old.region.pieces }
    ensures region { instance.new.region ≡ instance.old.region }
    ensures known { (before : BeforeOf) → next ≡ next_slot before → (s : Stage) → Knows instance.old (at + 1) pass.kept pass.ended pass.sum s → AreBeside (types_of model.now) (drop (at + 1) instance.old.region.pieces) s.beside
        → Knows instance.new at result.kept result.ended result.sum (piece_step (types_of model.now) before (Ends (edge_of edge)) (drop (at + 1) instance.old.region.pieces) s) }
    ensures most { result.sum ≤ pass.sum + 50000 }
{
    let count = instance.count();
    let following = octets_following(model, instance, at + 1, pass.kept, edge.slot);
    let place = count - 1 - pass.ended;
    instance.set_len(place, pass.sum);
    instance.set_group(place, following);
    Pass {
        sum: pass.sum + rest_size(model, edge.target, next),
        kept: pass.kept,
        ended: pass.ended + 1,
    }
}

/// Where a leaf stands with so many contents octets.
fn fill(
    model: &Model,
    instance: &Instance,
    before: Before,
    size: u64,
    at: usize,
    pass: Pass,
) -> Pass
    requires room { pass.sum < 15000000000000000000 }
    requires place { at < length instance.now.region.pieces }
    requires size { IsSizeAt (slice_get instance.now.region.pieces at) size }
    ensures known { (l : Leaf) → slice_get instance.now.region.pieces at ≡ Some (Holds l) → (s : Stage) → Knows instance.now (at + 1) pass.kept pass.ended pass.sum s
        → Knows instance.now at result.kept result.ended result.sum (piece_step (types_of model.now) (before_view before) (Holds l) (drop (at + 1) instance.now.region.pieces) s) }
    ensures most { (p : PieceOf) → slice_get instance.now.region.pieces at ≡ Some p → result.sum ≤ pass.sum + 50000 + piece_bytes p }
{
    let _count = instance.count();
    let filled = filled_size(model, before, size);
    Pass {
        sum: pass.sum + filled,
        kept: pass.kept,
        ended: pass.ended,
    }
}

/// How many octets a leaf has, with its head.
fn filled_size(model: &Model, before: Before, size: u64) -> u64
    requires few { size ≤ 1000000000000000000 }
    ensures size { (l : Leaf) → size ≡ length (leaf_contents l) → result ≡ length (leaf_octets (types_of model.now) (before_view before) l) }
    ensures most { result ≤ size + 12 }
    ensures few { result ≤ 1000000000000000012 }
{
    head_size(leaf_head(model, before), size) + size
}

/// Where an element begins: its numbers are kept, where it is not plain.
fn begin(
    model: &Model,
    instance: &mut Instance,
    next: u64,
    edge: Edge,
    at: usize,
    pass: Pass,
) -> Pass
    requires place { at < length instance.old.region.pieces }
    requires room { pass.sum < 15000000000000000000 }
    requires known { (s : Stage) × Knows instance.old (at + 1) pass.kept pass.ended pass.sum s × AreFramesWithin s.sum s.frames }
    ensures region { instance.new.region ≡ instance.old.region }
    ensures known { (before : BeforeOf) → next ≡ next_slot before → (s : Stage) → Knows instance.old (at + 1) pass.kept pass.ended pass.sum s
        → Knows instance.new at result.kept result.ended result.sum (piece_step (types_of model.now) before (Begins (edge_of edge)) (drop (at + 1) instance.old.region.pieces) s) }
    ensures most { result.sum ≤ pass.sum + 50000 }
{
    let _count = instance.count();
    let inner = last_ended(instance, pass.ended);
    let len = pass.sum - inner.behind;
    let sizes = begin_sizes(model, next, edge, len, inner.following);
    let between = slots_size(model, edge.parent, next, edge.slot);
    let sum = pass.sum + between + sizes.list + sizes.head;
    let ended = pass.ended.saturating_sub(1);
    if is_plain(model, edge) {
        return Pass {
            sum,
            kept: pass.kept,
            ended,
        };
    }
    instance.set_len(pass.kept, len);
    instance.set_group(pass.kept, sizes.head + len + inner.following);
    Pass {
        sum,
        kept: pass.kept + 1,
        ended,
    }
}

/// The place to which the pass has come, and what it knows there.
#[derive(Clone, Copy)]
struct Reached {
    at: usize,
    pass: Pass,
}

/// A plain element in front of the pieces that were measured.
#[inline(always)]
fn measure_plain(
    model: &Model,
    instance: &Instance,
    element: SimpleElement,
    at: usize,
    pass: Pass,
) -> Pass
    requires place { at + 3 ≤ length instance.now.region.pieces }
    requires simple { IsSimpleAt (types_of model.now) instance.now.region.pieces at (edge_of element.edge) element.size }
    requires plain { plain_edge (types_of model.now) (edge_of element.edge) ≡ true }
    requires room { pass.sum < 14500000000000000000 }
    requires known { Knows instance.now (at + 3) pass.kept pass.ended pass.sum (stage (types_of model.now) (before_place instance.now.region.pieces (at + 3)) (drop (at + 3) instance.now.region.pieces)) }
    requires few { element.size ≤ 1000000000000000 }
    ensures known { Knows instance.now at result.kept result.ended result.sum (stage (types_of model.now) (before_place instance.now.region.pieces at) (drop at instance.now.region.pieces)) }
    ensures most { result.sum ≤ pass.sum + 50000 + element.size }
{
    let edge = element.edge;
    let next = next_at(instance, at);
    let sizes = begin_sizes(model, next, edge, element.size, 0);
    let between = slots_size(model, edge.parent, next, edge.slot);
    Pass {
        sum: pass.sum + element.size + between + sizes.list + sizes.head,
        kept: pass.kept,
        ended: pass.ended,
    }
}

/// An element of a simple type in front of the pieces that were measured, which is an item of a list.
#[inline(never)]
fn measure_simple(
    model: &Model,
    instance: &mut Instance,
    element: SimpleElement,
    at: usize,
    pass: Pass,
) -> Pass
    requires place { at + 3 ≤ length instance.old.region.pieces }
    requires simple { IsSimpleAt (types_of model.now) instance.old.region.pieces at (edge_of element.edge) element.size }
    requires paired { plain_edge (types_of model.now) (edge_of element.edge) ≡ false }
    requires room { pass.sum < 14500000000000000000 }
    requires known { Knows instance.old (at + 3) pass.kept pass.ended pass.sum (stage (types_of model.now) (before_place instance.old.region.pieces (at + 3)) (drop (at + 3) instance.old.region.pieces)) }
    requires few { element.size ≤ 1000000000000000 }
    ensures region { instance.new.region ≡ instance.old.region }
    ensures known { Knows instance.new at result.kept result.ended result.sum (stage (types_of model.now) (before_place instance.old.region.pieces at) (drop at instance.old.region.pieces)) }
    ensures most { result.sum ≤ pass.sum + 50000 + element.size }
{
    let _count = instance.count();
    let edge = element.edge;
    let next = next_at(instance, at);
    let following = octets_following(model, instance, at + 3, pass.kept, edge.slot);
    let sizes = begin_sizes(model, next, edge, element.size, following);
    instance.set_len(pass.kept, element.size);
    instance.set_group(pass.kept, sizes.head + element.size + following);
    let between = slots_size(model, edge.parent, next, edge.slot);
    Pass {
        sum: pass.sum + element.size + between + sizes.list + sizes.head,
        kept: pass.kept + 1,
        ended: pass.ended,
    }
}

/// An element of a simple type more in front of the pieces that were measured.
#[inline(always)]
fn measure_element(
    model: &Model,
    instance: &mut Instance,
    element: SimpleElement,
    at: usize,
    pass: Pass,
) -> Pass
    requires place { at + 3 ≤ length instance.old.region.pieces }
    requires simple { IsSimpleAt (types_of model.now) instance.old.region.pieces at (edge_of element.edge) element.size }
    requires room { pass.sum < 14500000000000000000 }
    requires known { Knows instance.old (at + 3) pass.kept pass.ended pass.sum (stage (types_of model.now) (before_place instance.old.region.pieces (at + 3)) (drop (at + 3) instance.old.region.pieces)) }
    ensures region { instance.new.region ≡ instance.old.region }
    ensures known { Knows instance.new at result.kept result.ended result.sum (stage (types_of model.now) (before_place instance.old.region.pieces at) (drop at instance.old.region.pieces)) }
    ensures most { result.sum + bytes_of (drop (at + 3) instance.old.region.pieces) ≤ pass.sum + 150000 + bytes_of (drop at instance.old.region.pieces) }
{
    let _count = instance.count();
    if is_plain(model, element.edge) {
        return measure_plain(model, instance, element, at, pass);
    }
    measure_simple(model, instance, element, at, pass)
}

/// One piece more in front of those that were measured.
#[inline(always)]
fn measure_piece(model: &Model, instance: &mut Instance, at: usize, pass: Pass) -> Pass
    requires place { at < length instance.old.region.pieces }
    requires room { pass.sum < 14500000000000000000 }
    requires known { Knows instance.old (at + 1) pass.kept pass.ended pass.sum (stage (types_of model.now) (before_place instance.old.region.pieces (at + 1)) (drop (at + 1) instance.old.region.pieces)) }
    ensures region { instance.new.region ≡ instance.old.region }
    ensures known { Knows instance.new at result.kept result.ended result.sum (stage (types_of model.now) (before_place instance.old.region.pieces at) (drop at instance.old.region.pieces)) }
    ensures most { result.sum + bytes_of (drop (at + 1) instance.old.region.pieces) ≤ pass.sum + 50000 + bytes_of (drop at instance.old.region.pieces) }
{
    let _count = instance.count();
    let seen = read(instance, at);
    match seen.before {
        Before::Begun(edge) => begin(model, instance, next_at(instance, at), edge, at, pass),
        Before::Filled => fill(
            model,
            instance,
            before_at(instance, at),
            seen.size,
            at,
            pass,
        ),
        Before::Ended(edge) => end(model, instance, next_at(instance, at), edge, at, pass),
    }
}

/// One piece more in front of those that were measured, or the three of an element of a simple type.
#[inline(always)]
fn measure_next(model: &Model, instance: &mut Instance, at: usize, pass: Pass) -> Reached
    requires place { at < length instance.old.region.pieces }
    requires room { pass.sum < 14500000000000000000 }
    requires known { Knows instance.old (at + 1) pass.kept pass.ended pass.sum (stage (types_of model.now) (before_place instance.old.region.pieces (at + 1)) (drop (at + 1) instance.old.region.pieces)) }
    ensures region { instance.new.region ≡ instance.old.region }
    ensures back { result.at ≤ at }
    ensures known { Knows instance.new result.at result.pass.kept result.pass.ended result.pass.sum (stage (types_of model.now) (before_place instance.old.region.pieces result.at) (drop result.at instance.old.region.pieces)) }
    ensures most { result.pass.sum + bytes_of (drop (at + 1) instance.old.region.pieces) ≤ pass.sum + (at + 1 - result.at) * 50000 + bytes_of (drop result.at instance.old.region.pieces) }
{
    if let Some(element) = simple_before(model, instance, at) {
        return Reached {
            at: at - 2,
            pass: measure_element(model, instance, element, at - 2, pass),
        };
    }
    Reached {
        at,
        pass: measure_piece(model, instance, at, pass),
    }
}

/// Fills in the lengths, and gives what the pass knows in front of the first piece.
fn measure_pieces(model: &Model, instance: &mut Instance) -> Pass
    ensures region { instance.new.region ≡ instance.old.region }
    ensures known { Knows instance.new 0 result.kept result.ended result.sum (stage (types_of model.now) (Begun document_edge) instance.old.region.pieces) }
{
    let count = instance.count();
    let mut reached = Reached {
        at: count,
        pass: Pass {
            sum: behind_size(model, 0, before_at(instance, count)),
            kept: 0,
            ended: 0,
        },
    };
    while reached.at > 0 {
        reached = measure_next(model, instance, reached.at - 1, reached.pass);
    }
    reached.pass
}

/// Keeps the number of contents octets of the whole, and how many pairs of numbers there are, at the place of the last piece.
fn keep_whole(instance: &mut Instance, whole: u64, kept: usize)
    ensures region { instance.new.region ≡ instance.old.region }
    ensures lens { 0 < length instance.old.region.pieces → instance.new.lens ≡ slice_set instance.old.lens (length instance.old.region.pieces - 1) whole }
    ensures groups { 0 < length instance.old.region.pieces → instance.new.groups ≡ slice_set instance.old.groups (length instance.old.region.pieces - 1) kept }
    ensures size { (length instance.old.lens ≡ length instance.old.region.pieces) × (length instance.old.groups ≡ length instance.old.region.pieces) }
{
    let count = instance.count();
    if count == 0 {
        return;
    }
    instance.set_len(count - 1, whole);
    instance.set_group(count - 1, kept as u64);
}

/// Fills in the lengths of the DER of the instance, for `write_der`. It takes no memory.
pub fn measure(model: &Model, instance: &mut Instance)
    ensures measured { IsMeasured model.now instance.new }
    ensures same { instance.new.region ≡ instance.old.region }
{
    let _types = model.type_count();
    let pass = measure_pieces(model, instance);
    keep_whole(instance, pass.sum, pass.kept);
}
