//! The patterns that facets use (XML Schema part 2, appendix F): `Pattern` reads one from its text, `Matcher` holds words
//! against it a character at a time, and by runs.
//!
//! Behind the `A` and the `B` of `AB` a `Matcher` for `[A-Z]{2,3}` accepts, as it does behind one more capital letter; behind
//! a fourth it does not, whatever follows. The text `[^]` is no pattern, and `PatternError` tells the place 2, that of its
//! last character. `Pattern::measure` counts the positions of a pattern, 3 here, and makes no code.
//!
//! Limits: a pattern has at most 65,536 positions, and none of `\d`, `\w`, `\i`, `\c`, `\p`, their negations and class
//! subtraction. A matcher never goes back in the text, and takes no memory after `new`.
#![tactic(auto)]

mod builder;
mod character;
mod control;
mod counter;
mod draft;
mod error;
mod flow;
mod gaps;
mod instruction;
pub mod laws;
mod lexer;
mod marks;
mod matcher;
mod pass;
mod pattern;
mod recall;
mod refusal;
mod token;

pub use error::PatternError;
pub use matcher::Matcher;
pub use pattern::Pattern;
