//! A large instance made from two numbers, written in both forms, brought from each into the other and compared.
//!
//! `drill` makes the instance of a message that is built in: nodes with names, one below the other as the words of a
//! `Pcg32` say (O'Neill, "PCG: a family of simple fast space-efficient statistically good algorithms for random number
//! generation"). It writes it as canonical XML and as DER, has `transcoder` bring each into the other form, and compares
//! what comes with what was written, as it comes. `Drilled` has the nodes, how many are one in the other, and both lengths.
//! `specs/BuiltIn` has the message, `specs/Growing` the instance, `specs/Drilled` what is told. That both forms come back
//! is proved (`laws`), so the comparison never fails: what a drill shows is that the program as it was compiled, on this
//! machine, does what was proved.
//!
//! Limits: at most 1,000,000 nodes beside the first. Both forms are kept, and the instance of the one that is read; what
//! is made again is not.
#![tactic(auto)]

mod built_in;
mod comparing;
mod compiled;
mod drilling;
mod growing;
mod known_sink;
pub mod laws;
mod name;
mod stem;
mod writing;

pub use drilling::{Drilled, drill};
