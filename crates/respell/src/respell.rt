//! Events written again.
ghost use Rattle.std.specs.Prelude.{◌≡◌, ◌↔◌, ◌||◌, ℕ, List, [], ◌∷◌, ◌++◌, Option, IsTrue, IsFalse, OnOk, IsErr, map, drop, true, false};
ghost use Rattle.std.specs.List.{flat_map};
ghost use Rattle.lexical_core.specs.Tree.{Item, Tree, Char};
ghost use Rattle.lexical_core.specs.Escapes.{escape_of};
ghost use Rattle.lexical_core.specs.Names.{xmlns};
ghost use Rattle.markup.specs.EventItems.{item_of, entry_of};
ghost use Rattle.fragments.specs.Plain.{AreSortedEntries};
ghost use Rattle.fragments.specs.Fragment.{fragment, spelling_text, element_spelling, default_declaration, default_within, is_default, is_xml, start_text, end_text, written_text};
ghost use Rattle.respell.specs.Respelling.{AreFront, AreOf, HasSortedAttributes, nearest};
ghost use Rattle.respell.specs.Kept.{HasTakenItems, HasWritten, HasDefaults};
ghost use Rattle.respell.specs.inner.FragmentReading.{NoneForeign};

mod plain;

use crate::spelling::{is_xml, push_attributes, push_declarations, push_name, push_written};
use lexical_core::{Text, escape};
use markup::{Attr, Event, What};
use std::alloc::{AllocError, Global};

/// Writes the events of an element as its canonical fragment. It keeps the text, the defaults that open elements
/// declare, and whether each open element declares one.
#[derive(Drop)]
pub struct Respell {
    alloc: Global,
    text: Text,
    /// The prefix of an attribute.
    prefix: Text,
    defaults: Vec<Text>,
    declares: Vec<bool>,
    /// Whether an element has come that is written with a prefix, in the namespace of `xml`.
    prefixed: bool,
    failed: bool,
}

impl Respell {
    /// Nothing is taken. It takes no memory.
    pub fn new(alloc: Global) -> Respell
        ensures { HasTakenItems result [] }
    {
        Respell {
            alloc,
            text: Text::new(alloc),
            prefix: Text::new(alloc),
            defaults: Vec::new(alloc),
            declares: Vec::new(alloc),
            prefixed: false,
            failed: false,
        }
    }

    /// Takes the next event. The attributes of an element that starts have to be sorted, as those of a `Reader`'s
    /// events are (`laws::events_are_plain`). After want of memory it answers so for good.
    pub fn take(&mut self, event: &Event) -> Result<(), AllocError>
        ensures ok { (items : List Item) → HasTakenItems self.old items → HasSortedAttributes (item_of event.now.what) → OnOk result (HasTakenItems self.new (items ++ item_of event.now.what ∷ [])) }
        ensures again { self.old.failed ≡ true → IsErr result }
        ensures failed { IsErr result → self.new.failed ≡ true }
    {
        if self.failed {
            return Err(AllocError);
        }
        let result = self.step(&event.what);
        if result.is_err() {
            self.failed = true;
        }
        result
    }

    /// Whether the events are all of an element.
    pub fn is_whole(&self) -> bool
        ensures { (items : List Item) → HasTakenItems self.now items → AreFront items → IsTrue result ↔ ((t : Tree) × AreOf items t) }
    {
        self.declares.as_slice().is_empty() && !self.text.bytes().is_empty()
    }

    /// The fragment, where the events are all of an element.
    pub fn text(&self) -> &[u8]
        ensures { (items : List Item) (t : Tree) → HasTakenItems self.now items → AreOf items t → result.now ≡ fragment t }
    {
        self.text.bytes()
    }

    /// Whether no fragment has it there: a character outside the element, or what is skipped.
    pub(crate) fn is_foreign(&self, what: &What) -> bool
        ensures foreign { (forgotten : List ℕ) (items : List Item) → HasWritten self.now forgotten items → IsTrue result → NoneForeign 0 (items ++ item_of what.now ∷ []) → ⊥ }
        ensures own { (forgotten : List ℕ) (items : List Item) → HasWritten self.now forgotten items → NoneForeign 0 items → IsFalse result → NoneForeign 0 (items ++ item_of what.now ∷ []) }
    {
        match what {
            What::Char(_) => self.declares.as_slice().is_empty(),
            What::Skipped => true,
            _ => false,
        }
    }

    /// Whether no element is open.
    pub(crate) fn is_closed(&self) -> bool
        ensures { (forgotten : List ℕ) (items : List Item) (characters : List ℕ) → HasWritten self.now forgotten items → NoneForeign 0 items → IsFalse result → NoneForeign 0 (items ++ map (λ c. Char c) characters) }
    {
        self.declares.as_slice().is_empty()
    }

    /// The text so far, behind what was forgotten.
    pub(crate) fn so_far(&self) -> &[u8]
        ensures { result.now ≡ self.now.text }
    {
        self.text.bytes()
    }

    /// Forgets the text so far.
    pub(crate) fn forget(&mut self)
        ensures written { (forgotten : List ℕ) (items : List Item) → HasWritten self.old forgotten items → HasWritten self.new (forgotten ++ self.old.text) items }
        ensures text { self.new.text ≡ [] }
    {
        self.text.clear();
    }

    /// Takes what stands at a place.
    pub(crate) fn step(&mut self, what: &What) -> Result<(), AllocError>
        ensures { (forgotten : List ℕ) (items : List Item) → HasWritten self.old forgotten items → HasSortedAttributes (item_of what.now) → OnOk result (HasWritten self.new forgotten (items ++ item_of what.now ∷ [])) }
    {
        match what {
            What::Start { ns, local, attrs } => {
                self.start(ns.bytes(), local.bytes(), attrs.as_slice())?;
                Ok(())
            }
            What::Char(c) => {
                self.character(*c)?;
                Ok(())
            }
            What::End { ns, local } => {
                self.end(ns.bytes(), local.bytes())?;
                Ok(())
            }
            What::Skipped => Ok(()),
        }
    }

    /// Writes a start tag, and keeps the default within its element.
    fn start(&mut self, ns: &[u8], local: &[u8], attrs: &[Attr]) -> Result<(), AllocError>
        ensures text { (defaults : List (Option (List ℕ))) → HasDefaults self.old defaults → AreSortedEntries (map entry_of attrs.now) → OnOk result (self.new.text ≡ self.old.text ++ start_text (nearest defaults) (record { namespace = ns.now; local = local.now }) (map entry_of attrs.now)) }
        ensures kept { (defaults : List (Option (List ℕ))) → HasDefaults self.old defaults → OnOk result (HasDefaults self.new (default_within (nearest defaults) (record { namespace = ns.now; local = local.now }) ∷ defaults)) }
        ensures failed { self.new.failed ≡ self.old.failed }
        ensures prefixed { OnOk result (self.new.prefixed ≡ (self.old.prefixed || is_xml ns.now)) }
    {
        self.text.extend(b"<")?;
        self.name(ns, local)?;
        self.enter(ns)?;
        push_declarations(&mut self.text, &mut self.prefix, attrs)?;
        push_attributes(&mut self.text, &mut self.prefix, attrs)?;
        self.text.extend(b">")?;
        self.prefixed = self.is_prefixed(ns);
        Ok(())
    }

    /// Whether an element has come that is written with a prefix, with one of this namespace.
    fn is_prefixed(&self, ns: &[u8]) -> bool
        ensures { result ≡ (self.now.prefixed || is_xml ns.now) }
    {
        self.prefixed || is_xml(ns)
    }

    /// Writes the declaration of an element's default if it needs one, and keeps the default within it.
    fn enter(&mut self, ns: &[u8]) -> Result<(), AllocError>
        ensures text { (defaults : List (Option (List ℕ))) (local : List ℕ) → HasDefaults self.old defaults → OnOk result (self.new.text ≡ self.old.text ++ flat_map written_text (default_declaration (nearest defaults) (record { namespace = ns.now; local = local }))) }
        ensures kept { (defaults : List (Option (List ℕ))) (local : List ℕ) → HasDefaults self.old defaults → OnOk result (HasDefaults self.new (default_within (nearest defaults) (record { namespace = ns.now; local = local }) ∷ defaults)) }
        ensures failed { self.new.failed ≡ self.old.failed }
        ensures prefixed { self.new.prefixed ≡ self.old.prefixed }
    {
        if self.is_declared(ns) {
            self.declares.push(false)?;
            return Ok(());
        }
        self.declare(ns)?;
        self.declares.push(true)?;
        Ok(())
    }

    /// Whether an element of this namespace needs no declaration of a default.
    fn is_declared(&self, ns: &[u8]) -> bool
        ensures { (defaults : List (Option (List ℕ))) → HasDefaults self.now defaults → result ≡ (is_xml ns.now || is_default (nearest defaults) ns.now) }
    {
        is_xml(ns) || self.is_default(ns)
    }

    /// Whether this is the default namespace so far.
    fn is_default(&self, ns: &[u8]) -> bool
        ensures { (defaults : List (Option (List ℕ))) → HasDefaults self.now defaults → result ≡ is_default (nearest defaults) ns.now }
    {
        match self.defaults.as_slice().split_last() {
            Some((default, _)) => default.bytes() == ns,
            None => false,
        }
    }

    /// Writes the declaration of a default, and keeps it.
    fn declare(&mut self, ns: &[u8]) -> Result<(), AllocError>
        ensures text { OnOk result (self.new.text ≡ self.old.text ++ written_text (record { name = record { prefix = []; local = xmlns }; value = ns.now })) }
        ensures defaults { OnOk result (self.new.defaults.items ≡ self.old.defaults.items ++ ns.now ∷ []) }
        ensures rest { (self.new.declares ≡ self.old.declares) × (self.new.failed ≡ self.old.failed) }
        ensures prefixed { self.new.prefixed ≡ self.old.prefixed }
    {
        push_written(&mut self.text, b"", b"xmlns", ns)?;
        self.defaults
            .push(Text::from_vec(Vec::from_slice(self.alloc, ns)?))?;
        Ok(())
    }

    /// Writes the name of an element.
    fn name(&mut self, ns: &[u8], local: &[u8]) -> Result<(), AllocError>
        ensures text { OnOk result (self.new.text ≡ self.old.text ++ spelling_text (element_spelling (record { namespace = ns.now; local = local.now }))) }
        ensures rest { (self.new.defaults ≡ self.old.defaults) × (self.new.declares ≡ self.old.declares) × (self.new.failed ≡ self.old.failed) }
        ensures prefixed { self.new.prefixed ≡ self.old.prefixed }
    {
        if is_xml(ns) {
            push_name(&mut self.text, b"xml", local)
        } else {
            push_name(&mut self.text, b"", local)
        }
    }

    /// Writes a character of the content.
    fn character(&mut self, c: char) -> Result<(), AllocError>
        ensures text { OnOk result (self.new.text ≡ self.old.text ++ escape_of false c) }
        ensures rest { (self.new.defaults ≡ self.old.defaults) × (self.new.declares ≡ self.old.declares) × (self.new.failed ≡ self.old.failed) }
        ensures prefixed { self.new.prefixed ≡ self.old.prefixed }
    {
        let mut buf = [0; 8];
        let length = escape(c, false, &mut buf);
        self.text.extend(&buf[..length])
    }

    /// Writes an end tag, and forgets the default within its element.
    fn end(&mut self, ns: &[u8], local: &[u8]) -> Result<(), AllocError>
        ensures text { OnOk result (self.new.text ≡ self.old.text ++ end_text (record { namespace = ns.now; local = local.now })) }
        ensures kept { (defaults : List (Option (List ℕ))) → HasDefaults self.old defaults → OnOk result (HasDefaults self.new (drop 1 defaults)) }
        ensures failed { self.new.failed ≡ self.old.failed }
        ensures prefixed { self.new.prefixed ≡ self.old.prefixed }
    {
        self.text.extend(b"</")?;
        self.name(ns, local)?;
        self.text.extend(b">")?;
        self.leave();
        Ok(())
    }

    /// Forgets the default within the innermost open element.
    fn leave(&mut self)
        ensures kept { (defaults : List (Option (List ℕ))) → HasDefaults self.old defaults → HasDefaults self.new (drop 1 defaults) }
        ensures rest { (self.new.text ≡ self.old.text) × (self.new.failed ≡ self.old.failed) }
        ensures prefixed { self.new.prefixed ≡ self.old.prefixed }
    {
        let Some(declared) = self.declares.pop() else {
            return;
        };
        if declared {
            let _ = self.defaults.pop();
        }
    }
}
