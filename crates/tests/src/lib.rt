//! The tests of the public calls of each library up to `message_model`, which say what no clause says: that the clauses
//! mean what the standards' own examples say, and that calls which may want memory succeed where there is some.
//!
//! They stand in a crate of their own, since a check of tests proves their crate anew. A file is called after the crate
//! that it is about; `made` has what several of them make. Those of what stands higher are in `engine_tests`, and what the
//! program shows as a whole is in `cases/`.
#![tactic(auto)]

#[cfg(test)]
mod code_sets_tests;
#[cfg(test)]
mod data_types_tests;
#[cfg(test)]
mod facets_tests;
#[cfg(test)]
mod inst_pool_tests;
#[cfg(test)]
mod lexical_core_tests;
#[cfg(test)]
mod made;
#[cfg(test)]
mod markup_tests;
#[cfg(test)]
mod message_model_tests;
#[cfg(test)]
mod outside_tests;
#[cfg(test)]
mod pattern_match_tests;
#[cfg(test)]
mod reference_check_tests;
#[cfg(test)]
mod repo_loader_tests;
#[cfg(test)]
mod repo_objects_tests;
#[cfg(test)]
mod respell_tests;
