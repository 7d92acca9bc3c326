//! Elements of a simple type, as most are: three pieces, of which the second is the leaf.
ghost use Rattle.std.specs.Prelude.{◌≡◌, ◌-◌, ◌<◌, ◌≤◌, true, [], length, slice_get, IfSome};
ghost use Rattle.data_types.specs.Leaf.{Leaf};
ghost use Rattle.inst_pool.specs.Pieces.{edge_of};
ghost use Rattle.message_model.specs.Tables.{types_of};
ghost use Rattle.message_model.specs.Views.{slot_view};
ghost use Rattle.der_model.specs.LeafContents.{leaf_contents};
ghost use Rattle.der_writer.specs.Measured.{holds_leaf, is_plain};
ghost use Rattle.der_writer.specs.inner.PieceOctets.{first_leaf, leaf_next, plain_edge, sequence_slots};
ghost use Rattle.der_writer.specs.inner.Measuring.{IsSimpleAt};

use crate::contents::leaf_size;
use der_model::comes_once;
use inst_pool::{Edge, Instance, Piece};
use message_model::{Form, Model, Slot};

/// An element of a simple type.
#[derive(Clone, Copy)]
pub(crate) struct SimpleElement {
    pub(crate) edge: Edge,
    /// How many contents octets it has.
    pub(crate) size: u64,
}

/// Whether an element of the type holds one leaf, under the tag of the element.
#[inline(always)]
pub(crate) fn is_simple(model: &Model, number: u32) -> bool
    ensures is { result ≡ holds_leaf (types_of model.now number) }
    ensures leaf { result ≡ true → (leaf : Leaf) → first_leaf (types_of model.now number) leaf ≡ leaf_contents leaf }
    ensures slots { result ≡ true → sequence_slots (types_of model.now number) ≡ [] }
{
    match model.form(number) {
        Some(Form::Sequence) => false,
        Some(Form::Choice) => false,
        Some(Form::Simple(_)) => true,
        Some(Form::Money { .. }) => false,
        Some(Form::Envelope) => true,
        None => false,
    }
}

/// Whether an element of the type is plain in the slot: it holds one leaf, and its slot comes once. Then its length is that of
/// its leaf, no list begins with it, and no numbers of it are kept.
#[inline(always)]
pub(crate) fn is_plain_in(model: &Model, slot: &Option<Slot<'_>>, number: u32) -> bool
    ensures { result ≡ is_plain (slot_view slot.now) (types_of model.now number) }
{
    let Some(slot) = slot else {
        return false;
    };
    if !comes_once(slot.max) {
        return false;
    }
    is_simple(model, number)
}

/// Whether an element is plain in its slot.
#[inline(always)]
pub(crate) fn is_plain(model: &Model, edge: Edge) -> bool
    ensures { result ≡ plain_edge (types_of model.now) (edge_of edge) }
{
    is_plain_in(model, &model.slot(edge.parent, edge.slot), edge.target)
}

/// How many contents octets the leaf has that stands at a place.
#[inline(always)]
pub(crate) fn leaf_size_at(instance: &Instance, at: usize) -> u64
    ensures { result ≡ leaf_next (slice_get instance.now.region.pieces at) }
{
    let Some(Piece::Leaf(leaf)) = instance.piece(at) else {
        return 0;
    };
    leaf_size(&leaf)
}

/// The element of a simple type that ends at a place, where it is told at once.
#[inline(always)]
pub(crate) fn simple_before(model: &Model, instance: &Instance, at: usize) -> Option<SimpleElement>
    ensures place { IfSome result (λ element. 2 ≤ at) }
    ensures within { IfSome result (λ element. at < length instance.now.region.pieces) }
    ensures simple { IfSome result (λ element. IsSimpleAt (types_of model.now) instance.now.region.pieces (at - 2) (edge_of element.edge) element.size) }
{
    let _count = instance.count();
    if at < 2 {
        return None;
    }
    let Some(element) = instance.leaf_element(at - 2) else {
        return None;
    };
    if !is_simple(model, element.edge.target) {
        return None;
    }
    Some(SimpleElement {
        edge: element.edge,
        size: leaf_size(&element.leaf),
    })
}
