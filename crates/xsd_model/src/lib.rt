//! The schema of a compiled message, as a value (XML Schema parts 1 and 2).
//!
//! `schema_of` gives the types that the message's types are in a schema, sorted by name. What a schema means, which
//! trees it admits, is defined of the schema alone (`specs/Trees.antt`), and `laws` says that the schema of a message
//! admits exactly the trees that write a value which the message admits.
//!
//! Limits: what the subset of ISO 20022-4 writes, and no more. There are no groups, no substitution, no inclusion.
#![tactic(auto)]

pub mod laws;
mod message_schema;
mod names;
mod parts;
pub mod schema;
mod steps;
mod types;

pub use message_schema::schema_of;
pub use schema::{Part, Parts, Schema, SchemaShape, SchemaType, SchemaTypes, Steps};
