//! The ASN.1 module of a compiled message, as a value (X.680).
//!
//! `module_of` gives the types that the message's types are in a module under automatic tags, sorted by name, with
//! names that X.680 has: a name that would come twice gets an ending. What a module means, which values its types have
//! and the DER of these, is defined of the module alone (`specs/Values.antt`), and `laws` says that the bytes of its
//! `Document` are those of the instances that the message admits, and that its names are distinct and of the form that
//! X.680 asks (`specs/NameRules.antt`).
#![tactic(auto)]

mod fields;
mod given;
pub mod laws;
mod make;
pub mod module;
mod names;
mod order;
mod places;
mod shapes;
mod steps;
mod type_names;

pub use make::module_of;
pub use module::{AsnShape, AsnType, AsnTypes, Field, Fields, Mode, Module, Names};
