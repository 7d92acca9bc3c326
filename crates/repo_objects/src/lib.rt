//! A repository in memory: its data dictionary by id in file order, its messages, and the form of
//! message identifiers.
//!
//! The first object that `add_object` puts under the id `_t` has the place 0; a second one under that id answers `Twice`, and
//! the repository is as it was. `MessageId::read` takes `demo.001.001.01`, and answers nothing to `demo.001.001.1`.
//!
//! Limits: texts are UTF-8 of characters of XML (XML 1.0 §2.2), which is asked of the caller. What refers to what is no matter
//! here: an object may name ids that none has.
#![tactic(auto)]

pub mod laws;
mod message_id;
mod objects;
mod repository;

pub use message_id::MessageId;
pub use objects::{
    CodeDef, CodeDefs, ElementDef, Elements, Kinds, MessageDef, Object, ObjectKind, RawFacets,
};
pub use repository::{AddError, Repository};
