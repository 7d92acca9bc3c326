//! Runs of characters and whole tags written again, as their events one after the other.
ghost use Rattle.std.specs.Prelude.{◌≡◌, ℕ, List, [], ◌∷◌, ◌++◌, IsTrue, OnOk, IsErr, map, true};
ghost use Rattle.lexical_core.specs.Tree.{Expanded, Item, Starts, Char, Ends};
ghost use Rattle.markup.specs.Literals.{IsRun};
ghost use Rattle.markup.specs.PlainTags.{tag_items, innermost_namespace};
ghost use Rattle.respell.specs.Kept.{HasTakenItems, HasWritten, IsInDefault, opened_by};

use super::Respell;
use crate::run_spelling::push_run;
use markup::TagKind;
use std::alloc::AllocError;

impl Respell {
    /// Takes a run of characters that stand by themselves, as `markup`'s `Reader` tells them, each as its event. After
    /// want of memory it answers so for good.
    pub fn take_run(&mut self, run: &[u8]) -> Result<(), AllocError>
        ensures ok { (items : List Item) (count : ℕ) (r : IsRun run.now count) → HasTakenItems self.old items → OnOk result (HasTakenItems self.new (items ++ map (λ c. Char c) r.characters)) }
        ensures again { self.old.failed ≡ true → IsErr result }
        ensures failed { IsErr result → self.new.failed ≡ true }
    {
        if self.failed {
            return Err(AllocError);
        }
        let result = self.run(run);
        if result.is_err() {
            self.failed = true;
        }
        result
    }

    /// Takes a tag without attributes, as its events: its name is in the default namespace so far. After want of memory
    /// it answers so for good.
    pub fn take_tag(&mut self, kind: TagKind, local: &[u8]) -> Result<(), AllocError>
        ensures ok { (items : List Item) (n : Expanded) → n.local ≡ local.now → HasTakenItems self.old items → IsInDefault self.old n.namespace → OnOk result (HasTakenItems self.new (items ++ tag_items kind n)) }
        ensures again { self.old.failed ≡ true → IsErr result }
        ensures failed { IsErr result → self.new.failed ≡ true }
    {
        if self.failed {
            return Err(AllocError);
        }
        let result = self.tag(kind, local);
        if result.is_err() {
            self.failed = true;
        }
        result
    }

    /// Whether some element is open whose namespace is known to be the default namespace so far.
    pub fn is_in_default(&self) -> bool
        ensures { (forgotten : List ℕ) (items : List Item) → HasWritten self.now forgotten items → IsTrue result → IsInDefault self.now (innermost_namespace (opened_by [] items)) }
    {
        !self.prefixed && !self.defaults.as_slice().is_empty()
    }

    /// Writes a run of characters, with the reference to each `>` in its place.
    pub(crate) fn run(&mut self, run: &[u8]) -> Result<(), AllocError>
        ensures { (forgotten : List ℕ) (items : List Item) (count : ℕ) (r : IsRun run.now count) → HasWritten self.old forgotten items → OnOk result (HasWritten self.new forgotten (items ++ map (λ c. Char c) r.characters)) }
    {
        push_run(&mut self.text, run)
    }

    /// Writes a tag.
    pub(crate) fn tag(&mut self, kind: TagKind, local: &[u8]) -> Result<(), AllocError>
        ensures { (forgotten : List ℕ) (items : List Item) (n : Expanded) → n.local ≡ local.now → HasWritten self.old forgotten items → IsInDefault self.old n.namespace → OnOk result (HasWritten self.new forgotten (items ++ tag_items kind n)) }
    {
        match kind {
            TagKind::Start => self.start_inside(local),
            TagKind::Empty => match self.start_inside(local) {
                Ok(()) => self.end_inside(local),
                Err(error) => Err(error),
            },
            TagKind::End => self.end_inside(local),
        }
    }

    /// Writes a start tag without attributes, in the default namespace so far.
    fn start_inside(&mut self, local: &[u8]) -> Result<(), AllocError>
        ensures written { (forgotten : List ℕ) (items : List Item) (n : Expanded) → n.local ≡ local.now → HasWritten self.old forgotten items → IsInDefault self.old n.namespace → OnOk result (HasWritten self.new forgotten (items ++ Starts n [] ∷ [])) }
        ensures defaults { self.new.defaults ≡ self.old.defaults }
    {
        self.text.extend(b"<")?;
        self.text.extend(local)?;
        self.text.extend(b">")?;
        self.declares.push(false)?;
        Ok(())
    }

    /// Writes the end tag of an element in the default namespace so far.
    fn end_inside(&mut self, local: &[u8]) -> Result<(), AllocError>
        ensures { (forgotten : List ℕ) (items : List Item) (n : Expanded) → n.local ≡ local.now → HasWritten self.old forgotten items → IsInDefault self.old n.namespace → OnOk result (HasWritten self.new forgotten (items ++ Ends n ∷ [])) }
    {
        self.text.extend(b"</")?;
        self.text.extend(local)?;
        self.text.extend(b">")?;
        self.leave();
        Ok(())
    }
}
