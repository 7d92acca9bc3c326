//! How many octets the heads have with which an element begins. They are counted with no head made, since neither the class
//! nor the form changes how many there are.
ghost use Rattle.std.specs.Prelude.{◌≡◌, ◌+◌, ◌<◌, ◌≤◌, true, [], length, if◌then◌else◌};
ghost use Rattle.der_octets.specs.Octets.{context};
ghost use Rattle.inst_pool.specs.Pieces.{edge_of};
ghost use Rattle.message_model.specs.Tables.{types_of};
ghost use Rattle.der_writer.specs.inner.PieceOctets.{Before as BeforeOf, begin_octets, goes_on, head, item_head, list_head, next_slot, own_slot};

use crate::heads::{context_size, head_size};
use crate::pieces::{first_list, item_head};
use der_model::comes_once;
use inst_pool::Edge;
use message_model::Model;

/// How many octets the heads have.
#[derive(Clone, Copy)]
pub(crate) struct Sizes {
    /// That of the list of its slot, where it is the first item.
    pub(crate) list: u64,
    /// Its own.
    pub(crate) head: u64,
}

/// How many octets the heads of an item have.
#[inline(never)]
fn item_sizes(model: &Model, next: u64, slot: u32, target: u32, len: u64, following: u64) -> Sizes
    requires slot { slot < 16384 }
    requires few { len + following < 15000000000000000000 }
    ensures head { result.head ≡ length (item_head (types_of model.now target) len) }
    ensures list { (before : BeforeOf) → next ≡ next_slot before → result.list ≡ length (if goes_on before slot then [] else head true (context slot) (result.head + len + following)) }
    ensures most { (result.list ≤ 12) × (result.head ≤ 12) }
{
    let head = head_size(item_head(model, target), len);
    Sizes {
        list: head_size(first_list(next, slot), head + len + following),
        head,
    }
}

/// How many octets the heads have with which an element begins.
#[inline(always)]
pub(crate) fn begin_sizes(model: &Model, next: u64, edge: Edge, len: u64, following: u64) -> Sizes
    requires { len + following < 15000000000000000000 }
    ensures head { result.head ≡ length (begin_octets (types_of model.now) (edge_of edge) len) }
    ensures list { (before : BeforeOf) → next ≡ next_slot before → result.list ≡ length (list_head (own_slot (types_of model.now) (edge_of edge)) before edge.slot (result.head + len + following)) }
    ensures most { (result.list ≤ 12) × (result.head ≤ 12) }
{
    let _count = model.type_count();
    let Some(slot) = model.slot(edge.parent, edge.slot) else {
        return Sizes { list: 0, head: 0 };
    };
    if comes_once(slot.max) {
        return Sizes {
            list: 0,
            head: context_size(edge.slot, len),
        };
    }
    item_sizes(model, next, edge.slot, edge.target, len, following)
}
