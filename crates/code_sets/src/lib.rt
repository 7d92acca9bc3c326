//! External codes: records of comma-separated values (RFC 4180), each the name of a code set and a
//! code for it, which give the code sets of a repository the codes that they lack.
//!
//! [`pull_codes`] reads them from a source, or [`read_codes`] from bytes, and [`join`] puts them into a
//! repository. Bytes and a repository have one answer: the repository that they make, or one first
//! fault ([`laws`]).
//!
//! The two lines `Currency,EUR` and `Currency,USD` are two records, which give two codes to each code set of that name that
//! has none. Where one has codes of its own, `join` answers rule 4 with the record 1; the line `EUR` alone breaks rule 1.
//!
//! Limits: there are at most 2^28 bytes. Nothing is trimmed, and names that no code set has count for nothing.
#![tactic(auto)]

mod errors;
mod given;
mod joining;
pub mod laws;
mod pulling;
mod read;
mod record;

pub use errors::CodesError;
pub use joining::join;
pub use pulling::pull_codes;
pub use read::read_codes;
pub use record::{CodeLists, CodeRecord};
