//! What an element without elements holds.
use lexical_core::Decimal;

/// A leaf of a message: the value of a text.
#[derive(Clone, Copy, Debug)]
pub enum LeafRef<'a> {
    /// A text, the octets of a binary value, a collapsed date text or a canonical fragment.
    Bytes(&'a [u8]),
    /// A number.
    Number(Decimal),
    /// A truth value.
    Flag(bool),
    /// A code, by its place among the codes of its set sorted by bytes, counted from 0.
    Code(u32),
}
