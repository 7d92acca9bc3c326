//! Which objects of a repository a message reaches, and which rules they break.
//!
//! `reach` follows the references of a message, and gives the places of the objects that it reaches, in file order, or the
//! lowest of the rules M1 to M11 that is broken, with the first object in file order that breaks it; `tail` asks M14 to M17 of
//! what was reached. docs/FORMATS.md has the rules. Where an element names the id `_x`, which no entry has, `reach` answers
//! `Broken` with the rule 3 and the id of the object that has the element; what the message does not reach may break any rule.
//!
//! `laws` says which objects have a finite instance. Limits: a list of elements may have any length here, for M17 is asked
//! last; references are followed without recursion.
#![tactic(auto)]

mod breaker;
mod code_index;
mod code_rule;
mod code_texts;
mod counts;
mod finite;
pub mod laws;
mod marks;
mod messages;
mod names;
mod occurrences;
mod reached;
mod references;
mod refusal;
mod schema_names;
mod search;
mod structure;
mod subject;
mod tail_rules;
mod users;

pub use code_texts::{CodeTexts, code_text};
pub use reached::{Places, Reach, ReadyError};
pub use search::reach;
pub use tail_rules::tail;
