//! A schema as a value: its types by name (XML Schema parts 1 and 2).
use facets::Step;
use lexical_core::{Items, Text};

/// The elements of a sequence in order, or the alternatives of a choice.
pub type Parts = Items<Part>;

/// The steps of a simple type, the one with the base first.
pub type Steps = Items<Step>;

/// Types, sorted by name.
pub type SchemaTypes = Items<SchemaType>;

/// An element declaration in a content model: XML Schema part 1 §3.9.
#[derive(Drop)]
pub struct Part {
    /// The local name of the element.
    pub tag: Text,
    /// The name of its type.
    pub target: Text,
    /// How often it comes at least: `minOccurs`.
    pub min: u32,
    /// How often it comes at most, `maxOccurs`; `None` where it is unbounded.
    pub max: Option<u32>,
}

/// What a type of a schema is.
#[derive(Drop)]
pub enum SchemaShape {
    /// Part 1 §3.8, `sequence`.
    Sequence(Parts),
    /// Part 1 §3.8, `choice`.
    Choice(Parts),
    /// Part 2 §4.1, a simple type.
    Simple(Steps),
    /// Part 1 §3.4, simple content with the attribute `Ccy`.
    Money { base: Text, code: Text },
    /// Part 1 §3.10, one element of any name.
    Any,
}

/// A type with its name.
#[derive(Drop)]
pub struct SchemaType {
    pub name: Text,
    pub shape: SchemaShape,
}

/// A schema: its target namespace and its types.
#[derive(Drop)]
pub struct Schema {
    pub namespace: Text,
    pub types: SchemaTypes,
}
