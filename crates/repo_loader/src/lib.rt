//! The repository file (profile): the objects of its data dictionary and its messages, read as a
//! stream of XML, or the first fault of it.
//!
//! `load` reads a source to its end, and gives the repository that its bytes spell. Where they end within a tag it answers
//! the fault of rule 1, with the rule of markup that is broken, at the place of that tag; where two entries have one id, that
//! of rule 3 at the place of the later. docs/FORMATS.md has the six rules. `laws` says that bytes spell one repository or
//! have one first fault, and not both.
//!
//! Limits: a file has at most 2^31 bytes, and what it says of objects and messages is kept, nothing else.
#![tactic(auto)]

mod fault;
mod file;
mod kinds;
pub mod laws;
mod loading;
mod names;
mod part;
mod parts;
mod progress;
mod reading;
mod selection;
mod stop;
mod values;

pub use fault::{LoadError, LoadFault};
pub use file::load;
