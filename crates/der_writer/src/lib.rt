//! The DER of an instance that is kept as pieces: X.690.
//!
//! A length stands before its contents, so an instance is gone over twice. [`measure`] goes from the last piece to the
//! first, and keeps of each element how many octets it holds, and how many the list that begins with it: the numbers of
//! one element after those of the other, and none of an element of one leaf in a slot that comes once. [`write_der`] then
//! goes from the first piece to the last, takes the numbers from the last back, and pushes the octets of one piece after
//! the other. Neither takes memory, however deep the instance is.
//!
//! A `Document` whose `Note` has two `Id`, `ab` and `c`, which are a list since there may be more than one, is
//!
//! ```text
//! 30 0B                   Document
//!    A0 09                   Note, slot 0 of Document
//!       A0 07                   the list of Id, slot 0 of Note
//!          0C 02 61 62             Id
//!          0C 01 63                Id
//! ```
//!
//! `write_der` asks that the pieces are those of an instance that the message admits. A list stands there also
//! where it is empty, so that an element with many slots and few children takes a step for each slot.
#![tactic(auto)]

mod contents;
mod head;
mod heads;
mod lengths;
mod openings;
mod pieces;
mod places;
mod simple;
mod slots;
mod write;

pub use lengths::measure;
pub use write::write_der;
