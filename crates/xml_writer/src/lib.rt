//! The canonical XML of an instance (XML 1.0 and Namespaces in XML 1.0; the escapes of Canonical XML 1.0 §2.3, but by decimal
//! references, and `>` escaped in attributes too).
//!
//! `write_xml` pushes it as it is made, in one pass over the pieces of the instance: nothing is built, and no memory is
//! taken. A message whose root has an element `Id` with the text `A&B` is the line `<?xml version="1.0" encoding="UTF-8"?>`
//! and the line `<Document xmlns="urn:iso:std:iso:20022:tech:xsd:..."><Id>A&amp;B</Id></Document>`.
//!
//! `specs/CanonXml` has the definition. Every value that the types admit has one canonical XML (`laws`).
//!
//! Limits: the instance is one that the types of the model admit.
#![tactic(auto)]

mod elements;
mod innermost;
pub mod laws;
mod leaves;
mod pieces;
mod tags;
mod texts;
mod writer;

pub use writer::write_xml;
