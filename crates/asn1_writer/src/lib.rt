//! The text of an ASN.1 module (X.680), pushed as it is made.
//!
//! `write_module` pushes a module to a sink, piece by piece: the text is never built. Of a module with one type that is
//! a text of 1 to 35 characters it is
//!
//! ```text
//! Demo-001-001-01 DEFINITIONS AUTOMATIC TAGS ::= BEGIN
//!
//! Max35Text ::= UTF8String (SIZE (1..35)) (CONSTRAINED BY {-- xml characters --})
//!
//! END
//! ```
//!
//! Names are pushed as they are: that they are those that X.680 has, each once, is up to who makes the module. So is that
//! an enumeration or a choice has lines.
#![tactic(auto)]

mod amount;
mod comment;
mod constraint;
mod enumeration;
mod fields;
mod lines;
mod segment;
mod shape;
mod within;
mod writer;

pub use writer::write_module;
