//! A simple type: a kind and its facets.
use crate::codes::Codes;
use data_types::Kind;
use lexical_core::Decimal;
use pattern_match::Pattern;

/// A bound of numbers: XML Schema part 2 §4.3.7 to §4.3.10.
#[derive(Clone, Copy, Debug)]
pub struct Bound {
    pub value: Decimal,
    /// Whether the value itself is out of bounds.
    pub strict: bool,
}

/// A simple type. A facet that its kind does not have counts nowhere in it: lengths are of texts (in characters) and
/// binary values (in octets), the pattern of texts, dates and times, the codes of texts, digits and bounds of
/// decimals. The pattern of dates and times is asked of the collapsed text. A text where there are codes is one of
/// them, and the lengths and the pattern count nowhere.
#[derive(Drop)]
pub struct Simple {
    pub kind: Kind,
    /// The least length: §4.3.2.
    pub min: u64,
    /// The greatest length: §4.3.3.
    pub max: Option<u64>,
    /// How many digits there may be in all: §4.3.11.
    pub total: u8,
    /// How many digits there may be after the point: §4.3.12.
    pub fraction: Option<u8>,
    /// The lower bound: §4.3.9, §4.3.10.
    pub low: Option<Bound>,
    /// The upper bound: §4.3.7, §4.3.8.
    pub high: Option<Bound>,
    /// §4.3.4.
    pub pattern: Option<Pattern>,
    /// The only texts that there may be: §4.3.5.
    pub codes: Option<Codes>,
}
