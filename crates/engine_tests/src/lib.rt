//! The tests of the engine, and of the checkers of instances and the writers of schemas and modules, which stand high as
//! well: what no clause says of their public calls.
//!
//! They stand apart from `tests`, which is checked while the crates that these stand on are still proved. A file is called
//! after the crate that it is about. What the program shows as a whole is in `cases/`.
#![tactic(auto)]

#[cfg(test)]
mod asn1_writer_tests;
#[cfg(test)]
mod checker_tests;
#[cfg(test)]
mod repo_engine_tests;
#[cfg(test)]
mod xsd_writer_tests;
