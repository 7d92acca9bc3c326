//! Instances checked, and brought from one form into another, as they come from a source.
//!
//! `check_xml` and `check_der` say whether the bytes of a source are an instance of a message; `xml_to_der`, `der_to_xml` and
//! `xml_to_xml` push it in its other form, or in canonical XML, once all of it was read and accepted. What a reader of
//! instances promises is the trait `Intake`; one loop feeds each of them from a source, to its end, to the first fault or
//! to the first byte beyond 2^40.
//!
//! Of a message `Note` with a text `Id`, `xml_to_der` brings a `Note` whose `Id` is `A1` into `30 06 A0 04 80 02 41 31`, and
//! `der_to_xml` brings that back into the one canonical XML of the instance. Where the XML ends before `</Document>`, the
//! answer is `Refused` with the rule `Truncated`, and nothing was pushed.
//!
//! Limits: an instance has at most 2^40 bytes. A check keeps no more than its checker does; the other calls keep the pieces of
//! the instance until all of it was pushed.
#![tactic(auto)]

pub mod check;
pub mod check_error;
mod der;
mod intake;
pub mod laws;
mod read;
mod reading;
pub mod trans_error;
pub mod transcode;
mod xml;

pub use check::{check_der, check_xml};
pub use check_error::CheckError;
pub use trans_error::TransError;
pub use transcode::{der_to_xml, xml_to_der, xml_to_xml};
