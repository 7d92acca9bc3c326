//! Canonical fragments, written and told. A canonical fragment is the one spelling of an element as XML that an envelope
//! holds in canonical XML and in DER (`fragments`; XML 1.0 §2 and §3, Namespaces in XML 1.0 §3 and §6).
//!
//! `Respell` takes the events of an element, as `markup`'s `Reader` tells them, and writes its fragment: the events of
//! `<q:X xmlns:q="u:a" b="1" p:c="2" xmlns:p="u:p"/>` are written as
//! `<X xmlns="u:a" xmlns:a1="u:p" b="1" a1:c="2"></X>`. `take` takes an event, `take_run` a run of characters, and `take_tag`
//! a tag without attributes in the default namespace so far, where `is_in_default` says that one is known. `is_whole` says
//! whether the events are all of an element, and `text` is then its fragment.
//!
//! `is_fragment` says whether bytes are a fragment, and `FragmentCheck` says it of bytes that come in pieces of any length:
//! they are read, written again and compared as they come. `laws` has what holds of fragments: one is that of one tree, none
//! is a proper front of another, and each is read back as its tree.
//!
//! Limits: a fragment's tags have any length, where those of a document in XML have at most 1,048,576 bytes. A
//! `FragmentCheck` and `is_fragment` take fewer than 2^40 bytes. `Respell` keeps the text, the defaults that open elements
//! declare, and whether each declares one. A `FragmentCheck` keeps of the bytes the tag, reference or character that is cut
//! by the end of a piece, and its names and values (`FragmentCheck::held`), of the text one tag's or 4,096 bytes of a run at
//! most while it takes them, and what a `Reader` keeps of open elements; once no fragment begins with the bytes it keeps
//! none of this. `is_fragment` keeps what a `FragmentCheck` does.
#![tactic(auto)]

mod fragment_check;
mod fragment_reader;
pub mod laws;
mod respell;
mod run_spelling;
mod spelling;

pub use fragment_check::{FragmentCheck, is_fragment};
pub use respell::Respell;
