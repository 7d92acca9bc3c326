//! Instances of messages, each kept as a list of pieces in one region of memory.
//!
//! A [`Builder`] takes the pieces in order: `begin` an element, `leaf` what it holds, `close` the innermost open one.
//! [`Builder::finish`] gives the [`Instance`], whose pieces are read by place (`piece`; `leaf_element` three at once) or in order
//! (`walk`, a [`Walk`]).
//! Beside each piece a writer may keep two numbers (`set_len`, `set_group`), 0 at first. [`Instance::reset`] gives an empty
//! builder with all the room.
//!
//! An element with a text of two bytes in it is three pieces, and wants two bytes beside them: behind `reserve(3, 2)`
//! neither `begin` nor `leaf` nor `close` asks for memory.
//!
//! A region has a block of pieces, of four bytes each, one of the ends of texts, one of those pieces that do not fit into
//! four bytes, one of the bytes of leaves, one of the elements that are open, and blocks for the two numbers, written to
//! only as far from either end as these are set. So an instance is walked and dropped without recursion, however deep its
//! elements stand. No block ever has room for more than 2^48 items; more is answered by want of memory, and the instance
//! is then what it was. Which pieces a message allows is no matter of this crate: it asks only that elements end in order.
#![tactic(auto)]

mod blocks;
mod builder;
mod content;
mod contents;
mod instance;
mod node;
mod numbers;
mod others;
mod piece;
mod room;
mod texts;
mod walk;

pub use builder::Builder;
pub use instance::Instance;
pub use piece::{Edge, LeafElement, Piece};
pub use walk::Walk;
