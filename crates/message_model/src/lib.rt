//! The types of a message, compiled: `Model::compile` gives them by number, or the lowest of the rules M1 to M17 that is
//! broken; `next` and `end` say which slot may come and what an end lacks, and `first_firm` which slot is the next that is no
//! option.
//!
//! Type 0 is `Document` and type 1 the message; an element of a type is a slot, which has a tag, how often it comes, and the
//! number of its own type. In a message with the one block `Id`, `next` of type 1 answers `Slot(0)` to the tag `Id` first,
//! `TooMany` to it once more, and `Unknown` to any other; `end` answers `Missing(0)` while none has come.
//!
//! `Fault` is what is first wrong in an instance, in whatever form it comes: a rule, a place, and the path of what is open
//! there. `specs/` has what a message admits (`Admits`) and how XML writes it (`Writes`).
//!
//! Limits: a message reaches at most 65,536 objects, and a type has at most 4,096 elements.
#![tactic(auto)]

mod compile;
mod facet_checks;
mod facet_rules;
pub mod fault;
pub mod laws;
mod layouts;
pub mod model;
mod numbers;
mod object_types;
mod options;
mod patterns;
mod simple_types;
mod slot_list;
mod slots;
mod sorted_codes;
mod tag_order;

pub use fault::{Fault, InstanceError};
pub use model::{End, Form, MOST_SLOTS, Model, Next, Slot};
pub use reference_check::ReadyError;
