//! A checker of the DER of a message's instances (X.690 §8), which takes it in pieces.
//!
//! `DerChecker` tells the first fault of the bytes at the byte that shows it, whatever the pieces. Beneath it `Decoder`
//! takes the octets of headers (components of the usual form as a whole, `usual`, `wide`) and the ends of values, and
//! `contents` judges the contents octets of leaves, of which most are `known` at a look; of those that come in pieces
//! `limits` keeps no more than tell what they are, so that no length which is declared decides how much is held
//! (`scratch`, `token`). Where no pieces are kept a text without codes, a binary value and an envelope are judged as
//! their octets come (`open_leaf`, `open_text`, `open_envelope`). A fault's path is made of what is open (`paths`).
//! `Checking` of `specs/` says what a checker was given and what it answers, `Decoding` the same of the decoder,
//! `Limits` how many octets are held, `OpenLeaves` what is held of a leaf that is judged as they come. `DerReader`
//! answers the same, and gives the pieces of the instance: it is a checker that appends them as the parts come
//! (`values`, `pieces`, those of components of the usual form as a whole, `shown`, `begun`, `kept_runs`), and keeps no more
//! of its input (`KeptPieces`).
//!
//! Of a message `Note` with a text `Id`, `feed` of `30 04 A0 02 81` answers the rule `UnexpectedTag` at 4 in
//! `/Document[1]/Note[1]` with the last octet, whether they come at once or one by one: `Id` is the slot 0, and its tag 80.
//!
//! Tag numbers are below 2^14, lengths below 2^63.
#![tactic(auto)]

mod begun;
mod checker;
mod checks;
mod components;
mod contents;
mod decoder;
mod elements;
mod entering;
mod envelopes;
mod headers;
mod held;
mod kept_runs;
mod known;
pub mod laws;
mod leaf_octets;
mod leaves;
mod level;
mod limits;
mod open_envelope;
mod open_leaf;
mod open_text;
mod paths;
mod pieces;
mod plain_octets;
mod reader;
mod reserved;
mod room;
mod shown;
mod usual;
mod value_ends;
mod values;
mod wide;

pub use checker::DerChecker;
pub use reader::DerReader;
pub use room::Room;
