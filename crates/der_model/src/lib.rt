//! The DER of a message's instances (X.690 §8, §10, §11; X.680 for the types), and the first fault of bytes
//! that are none.
//!
//! `specs/` has the definitions, in reading order in `Lib.antt`: what DER an admitted value has
//! (`Der`), which parts bytes are and what is open behind them (`States`, `Paths`), which pieces of the
//! instance the parts show (`ShownPieces`), and the rule, the place and the path of what is wrong first
//! (`Faults`), also with the places of a stream in which the message stands behind others (`MovedPlaces`). `laws` says that
//! these agree.
//!
//! Of a message `Note` with a text `Id` the value whose `Id` is `A1` has the DER `30 06 A0 04 80 02 41 31`: `Document` is a
//! sequence, and each slot has its number as a tag. Of `30 06 A0 04 80 02 41` the fault is `Truncated` at 7, of
//! `30 04 A0 02 81 00` it is `UnexpectedTag` at 4 in `/Document[1]/Note[1]`.
//!
//! Tag numbers are below 2^14, lengths below 2^63.
#![tactic(auto)]

pub mod laws;
mod structures;

pub use structures::{comes_once, is_constructed, simple_number};
