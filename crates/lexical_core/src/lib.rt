//! What every crate above reads and writes with: texts and lists, characters and UTF-8, runs of bytes, decimals, and the
//! rules of instance faults.
//!
//! `Text` and `Items` are bytes and lists that grow, and answer want of memory. `Utf8Step` takes UTF-8 a byte at a time;
//! `is_xml_char`, `is_name_start`, `is_name_char` and `is_space` are classes of characters (XML 1.0 §2.2, §2.3),
//! `is_xml_text` says whether bytes are a text of them, `escape` spells one in canonical XML, `reference_to` gives the
//! reference that it needs there, if any. `DecimalStep` reads a decimal text a character at a time, `read_nr3` the
//! contents of a REAL (X.690 §8.5). `Rule` names the rules, of which the least at one place is told.
//!
//! A `ByteClass` says of a byte, of eight and of sixteen at once which are in it, and `run_length` how many at the front
//! are: of `ab<c` and a class of letters 2. `xml_run` gives the longest front that is whole characters of XML. `are_same`
//! compares short runs of bytes, as names and tags are, by words, and `put_bytes` puts them into a buffer by words.
//!
//! Limits: a `Decimal` has at most 18 digits and a scale of at most 18. Nothing says that a `Text` is UTF-8.
#![tactic(auto)]

mod canonical;
pub mod characters;
pub mod decimal;
pub mod decimal_text;
mod digits;
pub mod escapes;
pub mod items;
pub mod lanes;
pub mod laws;
mod put;
pub mod real;
pub mod rule;
pub mod runs;
mod same_bytes;
pub mod text;
pub mod utf8;
pub mod xml_text;

pub use characters::{is_name_char, is_name_start, is_space, is_xml_char};
pub use decimal::Decimal;
pub use decimal_text::{DecimalStep, DecimalText};
pub use digits::digit_count;
pub use escapes::{escape, reference_to};
pub use items::Items;
pub use lanes::{ByteClass, run_length};
pub use put::put_bytes;
pub use real::read_nr3;
pub use rule::Rule;
pub use runs::{Run, xml_run};
pub use same_bytes::are_same;
pub use text::Text;
pub use utf8::{Utf8, Utf8Step};
pub use xml_text::is_xml_text;
