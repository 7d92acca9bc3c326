//! XML read as events, exactly as the profile has it (docs/FORMATS.md): XML 1.0, fifth edition, and Namespaces in XML 1.0,
//! in UTF-8, without document types.
//!
//! A `Reader` takes the bytes in order. `take` takes one, and appends the events that it shows; `finish` says that no
//! more come. Either refuses the first fault, with its rule and the place of its token. Eight calls take many bytes at
//! once, with the meaning of one after the other, and leave the rest to `take`: `take_characters` a run of characters
//! inside an element (`Run`), `take_blanks` one of white space alone, `take_reference` a whole reference
//! (`CharacterReference`), `take_line_end` a CR LF, `take_tag` a whole tag without attributes (`PlainTag`) with the
//! prefix of the innermost element or, as that, without one, `take_start_tag` any whole start tag with its prefixes,
//! declarations and attributes (`StartTag`), `take_aside` a whole comment or instruction or one of the two ends of a CDATA
//! section, `take_inside` bytes with which the open tag, comment or instruction goes on, and which show no event. They append
//! none: what they answer says which there are. `tag_attributes` hands on the attributes of an event as those of a
//! `StartTag`, and `value_of` finds one by its name. `place` says how many bytes were taken, `token` how many are held
//! of the names and values of the open tag, `depth` how many elements are open.
//!
//! Of `<q:a xmlns:q="u">x</q:a>` the events are the start of `a` in the namespace `u` at 0, the character `x` at 17 and the
//! end of `a` at 18. A `Namespace` is shared by all that stands in it: a copy takes no memory of its own. `laws` says that
//! every input is whole or has one first fault, and not both.
//!
//! Limits: a tag has at most 1,048,576 bytes, an input 2^40. A `Reader` made by `without_limit` takes tags of any length: it
//! is for bytes that are part of something other than a document in XML, and its clauses are stated for every limit. A
//! reader keeps the open token, and the names and declarations of the open elements.
#![tactic(auto)]

mod asides;
mod attributes;
mod bindings;
mod characters;
mod classes;
mod context;
mod draft;
pub mod event;
mod inside;
mod instructions;
pub mod laws;
mod literals;
mod name_block;
mod named_values;
mod names;
mod namespace;
mod open_bindings;
mod open_names;
mod origin;
mod passed_texts;
mod plain_tag;
pub mod reader;
mod reference;
mod references;
mod scan;
mod scope;
mod start_tag;
mod tag;
mod telling;
mod tokenizer;
mod word;

pub use attributes::TagAttribute;
pub use event::{Attr, Attrs, Event, Events, What};
pub use literals::Run;
pub use named_values::{tag_attributes, value_of};
pub use namespace::Namespace;
pub use plain_tag::{PlainTag, TagKind};
pub use reader::{MarkError, MarkFault, Reader};
pub use references::CharacterReference;
pub use start_tag::StartTag;
