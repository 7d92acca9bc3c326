//! What an open tag has said so far.
ghost use Rattle.std.specs.Prelude.{◌≡◌, ◌<◌, ◌^◌, OnOk};
ghost use Rattle.markup.specs.inner.Inside.{noted_all};
ghost use Rattle.markup.specs.inner.Drafts.{no_draft, literal_char, given_char, end_value, note_character, value_noted, add_value, held_all, draft_size};

use crate::characters::is_blank;
use crate::reference::{ReferenceScan, ReferenceTurn};
use crate::scan::Scan;
use crate::tag::{Given, Spelled, push};
use lexical_core::{Items, Text};
use std::alloc::{AllocError, Global};
use std::mem;

/// What an open tag has said so far: its name, the attributes that have ended, and the name and
/// value of the one that has not.
#[derive(Drop)]
pub(crate) struct Draft {
    pub(crate) name: Spelled,
    pub(crate) given: Items<Given>,
    pub(crate) attribute: Spelled,
    pub(crate) value: Text,
}

/// How many bytes are held for the attributes.
fn held_all(given: &[Given]) -> u64
    ensures { held_all given.now < 2 ^ 64 → result ≡ held_all given.now }
{
    let mut count = 0_u64;
    let mut rest = given;
    while let Some((first, behind)) = rest.split_first() {
        count = count
            .saturating_add(first.name.held())
            .saturating_add(first.value.bytes().len() as u64);
        rest = behind;
    }
    count
}

impl Draft {
    /// Nothing yet. It takes no memory.
    pub(crate) fn new(alloc: Global) -> Draft
        ensures { result ≡ no_draft }
    {
        Draft {
            name: Spelled::none(alloc),
            given: Items::new(alloc),
            attribute: Spelled::none(alloc),
            value: Text::new(alloc),
        }
    }

    /// How many bytes are held for the open tag.
    pub(crate) fn held(&self) -> u64
        ensures { draft_size self.now < 2 ^ 64 → result ≡ draft_size self.now }
    {
        let names = self.name.held().saturating_add(self.attribute.held());
        names
            .saturating_add(self.value.bytes().len() as u64)
            .saturating_add(held_all(self.given.as_slice()))
    }

    /// Notes what a character of an open token says, by the scans before it and behind it.
    #[inline]
    pub(crate) fn note(
        &mut self,
        from: Scan,
        to: Scan,
        c: char,
        alloc: Global,
    ) -> Result<(), AllocError>
        ensures { OnOk result (self.new ≡ note_character from to c self.old) }
    {
        match to {
            Scan::StartName(part) => self.name.add(part, c, alloc),
            Scan::EndName(part) => self.name.add(part, c, alloc),
            Scan::AttributeName(part) => self.attribute.add(part, c, alloc),
            Scan::Value(_, _) => self.note_value(from, c),
            Scan::AfterValue => self.end_value(alloc),
            _ => Ok(()),
        }
    }

    /// Notes what bytes of an open token say that leave its scan as it is.
    #[inline]
    pub(crate) fn note_all(&mut self, scan: Scan, bytes: &[u8]) -> Result<(), AllocError>
        ensures { OnOk result (self.new ≡ noted_all scan bytes.now self.old) }
    {
        match scan {
            Scan::StartName(_) => self.name.local.extend(bytes),
            Scan::EndName(_) => self.name.local.extend(bytes),
            Scan::AttributeName(_) => self.attribute.local.extend(bytes),
            Scan::Value(_, _) => self.value.extend(bytes),
            _ => Ok(()),
        }
    }

    /// A literal of the value, or the character of a reference that has ended.
    fn note_value(&mut self, from: Scan, c: char) -> Result<(), AllocError>
        ensures { OnOk result (self.new ≡ value_noted from c self.old) }
    {
        match from {
            Scan::Value(_, after_return) => self.note_literal(after_return, c),
            Scan::ValueReference(_, scan) => self.note_reference(scan, c),
            _ => Ok(()),
        }
    }

    /// White space is a space, and CR LF is one (XML 1.0 §2.11, §3.3.3).
    fn note_literal(&mut self, after_return: bool, c: char) -> Result<(), AllocError>
        ensures { OnOk result (self.new ≡ add_value (literal_char after_return c) self.old) }
    {
        if c == '\n' && after_return {
            Ok(())
        } else if is_blank(c) {
            push(&mut self.value, ' ')
        } else {
            push(&mut self.value, c)
        }
    }

    /// The character that a reference gives with its last one, as it is; before that nothing.
    fn note_reference(&mut self, scan: ReferenceScan, c: char) -> Result<(), AllocError>
        ensures { OnOk result (self.new ≡ add_value (given_char scan c) self.old) }
    {
        match scan.step(c) {
            ReferenceTurn::Gives(given) => push(&mut self.value, given),
            _ => Ok(()),
        }
    }

    /// The attribute has ended.
    fn end_value(&mut self, alloc: Global) -> Result<(), AllocError>
        ensures { OnOk result (self.new ≡ end_value self.old) }
    {
        let name = mem::replace(&mut self.attribute, Spelled::none(alloc));
        let value = mem::replace(&mut self.value, Text::new(alloc));
        self.given.push(Given { name, value })
    }
}
