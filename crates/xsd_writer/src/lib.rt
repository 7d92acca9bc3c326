//! The text of a schema (XML Schema parts 1 and 2).
//!
//! `write_schema` pushes it as it is made: nothing is built, and no memory is taken. What the text is, is a function of
//! the schema alone (`xsd_model/specs/SchemaText.antt`): an element `Id` of the type `Max35Text` that may be left out is
//! the line `<xs:element name="Id" type="Max35Text" minOccurs="0"/>`.
//!
//! Limits: any schema is written as it is, also one that no reader takes (a type that is not there, a step without a
//! base, codes that no base has).
#![tactic(auto)]

mod facet_lines;
mod segment;
mod step_lines;
mod type_contents;
mod writer;

pub use writer::write_schema;
