//! What a tag says, whatever its white space, quotes and references.
ghost use Rattle.std.specs.Prelude.{◌≡◌, ◌++◌, ◌<◌, ◌^◌, OnOk, encode_utf8};
ghost use Rattle.markup.specs.inner.Drafts.{no_name, add, held_name};

use crate::scan::NameScan;
use lexical_core::{Items, Text};
use std::alloc::{AllocError, Global};
use std::mem;

/// A name as bytes of UTF-8; the prefix is empty where there is none (Namespaces in XML 1.0 §4).
#[derive(Drop)]
pub struct Spelled {
    pub prefix: Text,
    pub local: Text,
}

/// An attribute, or a declaration of a namespace, as a start tag gives it (XML 1.0 §3.1).
#[derive(Drop)]
pub struct Given {
    pub name: Spelled,
    pub value: Text,
}

/// A start tag (XML 1.0 §3.1).
#[derive(Drop)]
pub struct Opening {
    pub name: Spelled,
    /// The attributes and declarations in the order of the tag.
    pub given: Items<Given>,
    /// Whether it is the tag of an empty element.
    pub is_empty: bool,
}

/// Appends the character's bytes.
pub(crate) fn push(text: &mut Text, c: char) -> Result<(), AllocError>
    ensures { OnOk result (text.new ≡ text.old ++ encode_utf8 c) }
{
    let mut buffer = [0; 4];
    text.extend(c.encode_utf8(&mut buffer).as_bytes())
}

impl Spelled {
    /// No name yet. It takes no memory.
    pub(crate) fn none(alloc: Global) -> Spelled
        ensures { result ≡ no_name }
    {
        Spelled {
            prefix: Text::new(alloc),
            local: Text::new(alloc),
        }
    }

    /// One more character of the name; at the colon what came before it is the prefix.
    pub(crate) fn add(&mut self, part: NameScan, c: char, alloc: Global) -> Result<(), AllocError>
        ensures { OnOk result (self.new ≡ add part c self.old) }
    {
        match part {
            NameScan::Colon => {
                self.prefix = mem::replace(&mut self.local, Text::new(alloc));
                Ok(())
            }
            _ => push(&mut self.local, c),
        }
    }

    /// How many bytes are held for the name.
    pub(crate) fn held(&self) -> u64
        ensures { held_name self.now < 2 ^ 64 → result ≡ held_name self.now }
    {
        let prefix = self.prefix.bytes().len() as u64;
        prefix.saturating_add(self.local.bytes().len() as u64)
    }
}
