//! Octets under the Distinguished Encoding Rules (X.690): identifier octets, length octets, and the
//! values that octets are.
//!
//! `TagStep` and `LengthStep` take the octets of a header one at a time, and tell at the octet that shows
//! it that no header begins so: a length in more octets than it needs, or in the indefinite form. Behind
//! `82 01 00` a `LengthStep` answers `Done(256)`; of `82 00` it answers `Bad` at the second octet.
//!
//! Tag numbers are below 2^14, lengths below 2^63.
#![tactic(auto)]

pub mod laws;
mod length_step;
mod tag_step;

pub use length_step::{LengthRead, LengthStep};
pub use tag_step::{Identifier, TagClass, TagRead, TagStep};
