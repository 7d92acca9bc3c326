//! The commands of `isorepo`: from words and bytes to a status and what is written.
//!
//! `run` is the one call. It reads the sources that its words ask for, one after the other, pushes the text of the command
//! to `out` once all of them were accepted, and notes one line where it does not end with `Done`. Of the words
//! `check-xml P - demo.001.001.01`, the repository of a note, and a note without its block, it answers `Status::Instance`,
//! whose code is 5, and notes
//!
//! ```text
//! refused: instance Missing at 71 in /Document[1]/Note[1]/Id
//! ```
//!
//! No call gives a `Stop` or a `Refusal`: in these words the contract of `run` says how a command ends.
#![tactic(auto)]

mod asn1;
mod check;
mod command;
mod drilling;
mod engine;
pub mod laws;
mod list;
mod message;
mod note;
mod number;
mod perform;
mod refusal;
mod repository;
mod schema;
mod status;
mod transcode;
mod types;

pub use engine::run;
pub use refusal::{Refusal, Stop};
pub use status::Status;
