//! What a reader tells: the events of a text, with their places.
use crate::namespace::Namespace;
use lexical_core::{Items, Text};

/// An attribute that is no declaration: its expanded name and its value as bytes of UTF-8
/// (Namespaces in XML 1.0 §2.1).
#[derive(Drop)]
pub struct Attr {
    pub ns: Namespace,
    pub local: Text,
    pub value: Text,
}

/// The attributes of an element, sorted by namespace and then by local name, both by bytes.
pub type Attrs = Items<Attr>;

/// What stands at a place, with names expanded: `ns` is the namespace, empty where there is none.
#[derive(Drop)]
pub enum What {
    /// An element starts.
    Start {
        ns: Namespace,
        local: Text,
        attrs: Attrs,
    },
    /// A character of the text, a literal one or one that a reference gives. A line end is an LF
    /// (XML 1.0 §2.11).
    Char(char),
    /// The innermost open element ends.
    End {
        ns: Namespace,
        local: Text,
    },
    /// Markup that says nothing of the tree: the byte order mark, the XML declaration, a comment, an instruction, the
    /// ends of a CDATA section.
    Skipped,
}

/// An event, with the place of its token's first byte, from 0.
#[derive(Drop)]
pub struct Event {
    pub place: u64,
    pub what: What,
}

/// Events in the order of the text.
pub type Events = Items<Event>;
