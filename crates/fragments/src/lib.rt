//! Trees that XML can spell, and the canonical fragment of each: its one spelling as XML, which is what an
//! envelope holds in canonical XML and in DER (XML 1.0 §2, Namespaces in XML 1.0 §3 and §6; the order of
//! attributes as in Canonical XML 1.0 §2.2; the escapes as in its §2.3, but by decimal references, and `>` in a value, too).
//!
//! `specs/` has the definitions: `Plain` says which trees these are, `Fragment` what their text is. An element `X` in the
//! namespace `u:a`, with an attribute `b` in none and one `c` in `u:p`, is
//! `<X xmlns="u:a" xmlns:a1="u:p" b="1" a1:c="2"></X>`, whatever prefixes it was read with.
//!
//! Nothing here runs but the empty functions of `laws`: `respell` writes fragments, and tells them.
#![tactic(auto)]

pub mod laws;
