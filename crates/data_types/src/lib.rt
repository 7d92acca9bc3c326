//! The kinds of data that elements without elements hold, and their texts (XML Schema part 2): `LeafStep` reads a leaf from
//! its characters, one at a time or by runs, `push_leaf` and `push_escaped` push its canonical text.
//!
//! Of the kind `Decimal` the characters of ` 01.50 ` spell the number 1.5, whose canonical text is `1.5`; those of `1,5` answer
//! the rule `BadText`. Of the kind `Text` each character counts, white space too.
//!
//! Limits: a decimal has at most 18 digits, and at most 18 after its point, else the rule is `Digits`. Years are 0001 to
//! 9999, time zones at most 14 hours. Of a text that is longer than it may be no more is kept than it may have.
#![tactic(auto)]

mod booleans;
mod canonical;
mod collapse;
mod collapsed_step;
mod dates;
mod kept;
mod kept_bytes;
mod kind;
pub mod laws;
mod leaf;
mod leaf_step;
mod octet_writer;
mod octets;
mod run;
mod short;
mod text_writer;
mod words;

pub use booleans::{boolean_of, boolean_text};
pub use canonical::push_leaf;
pub use collapse::{Collapse, Collapsed};
pub use dates::is_date_text;
pub use kind::Kind;
pub use leaf::LeafRef;
pub use leaf_step::LeafStep;
pub use run::{RunChars, run_chars};
pub use text_writer::push_escaped;
pub use words::{space_count, word_count};
