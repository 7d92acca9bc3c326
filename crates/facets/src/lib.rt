//! Simple types with their facets (XML Schema part 2 §4.3): `LeafCheck` gives the leaf that characters spell, or the first
//! rule that it breaks, `LeafVerdict` no more than whether there is one; `check_number` and `check_octets` judge a
//! leaf that is known.
//!
//! Where a `Simple` of the kind `Text` asks for one to four characters, `EUR` is a leaf, the empty text and `EUROS` break
//! `BadLength`. With the codes `EUR` and `USD` the first is the code 0, for codes are numbered in the order of their bytes,
//! and `GBP` breaks `NotACode`: lengths and pattern count nowhere then. Facets of another kind count nowhere either.
//!
//! Limits: a simple type has fewer than 2^32 codes, and a total of at most 18 digits. A verdict keeps, of a text
//! that may be a code, the bytes that the longest code has room for, and of other texts and of octets none.
#![tactic(auto)]

mod asked;
mod codes;
mod count;
mod digits;
pub mod laws;
mod leaf_check;
mod leaf_verdict;
mod lengths;
mod progress;
mod simple;
mod step;

pub use codes::Codes;
pub use digits::check_number;
pub use leaf_check::LeafCheck;
pub use leaf_verdict::LeafVerdict;
pub use lengths::check_octets;
pub use simple::{Bound, Simple};
pub use step::{Step, Texts, least_written, plain_step};
