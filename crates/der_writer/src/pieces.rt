//! What stands before a piece, and the heads of elements, lists and leaves.
ghost use Rattle.std.specs.Prelude.{◌≡◌, ◌<◌, ℕ, true, false, [], ◌++◌, length, Some, ◌==◌, if◌then◌else◌};
ghost use Rattle.data_types.specs.Leaf.{Leaf};
ghost use Rattle.der_octets.specs.Octets.{context};
ghost use Rattle.message_model.specs.Tables.{types_of};
ghost use Rattle.der_model.specs.LeafContents.{leaf_contents};
ghost use Rattle.der_model.specs.Structures.{is_once};
ghost use Rattle.der_writer.specs.inner.PieceOctets.{Before as BeforeOf, next_slot, goes_on, head, first_leaf, item_head, leaf_octets};
ghost use Rattle.der_writer.specs.inner.Heads.{head_octets, before_view};

use crate::head::Head;
use der_model::{comes_once, simple_number};
use inst_pool::Edge;
use message_model::{Form, Model};

/// What stands before a piece: an element that has begun, a leaf, an element that has ended.
#[derive(Clone, Copy)]
pub(crate) enum Before {
    Begun(Edge),
    Filled,
    Ended(Edge),
}

/// The first slot that may come behind it.
pub(crate) fn next_slot(before: Before) -> u64
    ensures { result ≡ next_slot (before_view before) }
{
    match before {
        Before::Ended(edge) => edge.slot as u64 + 1,
        _ => 0,
    }
}

/// The head of an item of the type; a choice has none of its own.
pub(crate) fn item_head(model: &Model, number: u32) -> Option<Head>
    ensures { (len : ℕ) → head_octets result len ≡ item_head (types_of model.now number) len }
{
    match model.form(number) {
        Some(Form::Sequence) => Some(Head::universal(true, 16)),
        Some(Form::Choice) => None,
        Some(Form::Simple(simple)) => Some(Head::universal(false, simple_number(simple))),
        Some(Form::Money { .. }) => Some(Head::universal(true, 16)),
        Some(Form::Envelope) => Some(Head::universal(false, 12)),
        None => Some(Head::universal(false, 16)),
    }
}

/// The head of the list of a slot, where its first item begins.
pub(crate) fn first_list(next: u64, slot: u32) -> Option<Head>
    requires { slot < 16384 }
    ensures { (before : BeforeOf) → next ≡ next_slot before → (group : ℕ) → head_octets result group ≡ (if goes_on before slot then [] else head true (context slot) group) }
{
    if next == slot as u64 + 1 {
        return None;
    }
    Some(Head::context(true, slot))
}

/// The head of an empty list of a slot with this maximum.
pub(crate) fn empty_head(slot: u32, max: Option<u32>) -> Option<Head>
    requires { slot < 16384 }
    ensures { head_octets result 0 ≡ (if is_once max then [] else head true (context slot) 0) }
{
    if comes_once(max) {
        return None;
    }
    Some(Head::context(true, slot))
}

/// The head of the first leaf of an element of the type.
fn first_leaf_head(model: &Model, number: u32) -> Option<Head>
    ensures { (leaf : Leaf) → head_octets result (length (leaf_contents leaf)) ++ leaf_contents leaf ≡ first_leaf (types_of model.now number) leaf }
{
    let Some(Form::Money { .. }) = model.form(number) else {
        return None;
    };
    Some(Head::context(false, 0))
}

/// The head of a leaf: in an amount its own, and else none, since it is its element's.
pub(crate) fn leaf_head(model: &Model, before: Before) -> Option<Head>
    ensures { (leaf : Leaf) → head_octets result (length (leaf_contents leaf)) ++ leaf_contents leaf ≡ leaf_octets (types_of model.now) (before_view before) leaf }
{
    match before {
        Before::Begun(edge) => first_leaf_head(model, edge.target),
        Before::Filled => Some(Head::context(false, 1)),
        Before::Ended(_) => Some(Head::context(false, 1)),
    }
}
