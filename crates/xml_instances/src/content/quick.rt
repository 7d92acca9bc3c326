//! Runs of characters and whole tags, held to the types of the message.
ghost use Rattle.std.specs.Prelude.{◌≡◌, ◌++◌, ℕ, List, Option, Some, None, OnOk, map, true};
ghost use Rattle.lexical_core.specs.Tree.{Expanded, Starts, Char};
ghost use Rattle.facets.specs.declared.simple.Simple.{Simple as SimpleType};
ghost use Rattle.markup.specs.Literals.{IsRun};
ghost use Rattle.markup.specs.PlainTags.{tag_items};
ghost use Rattle.message_model.specs.Tables.{message_of, types_of};
ghost use Rattle.xml_instances.specs.Levels.{Level};
ghost use Rattle.xml_instances.specs.Built.{EventsShow, ShowsBeside, StartShown};
ghost use Rattle.xml_instances.specs.Keeping.{GoOn, MayShowName, TagShowsBeside};
ghost use Rattle.xml_instances.specs.Open.{IsOpen, AreMade, IsPlaced, IsItemTaken, IsTextMade, IsTextInnermost, HoldsText};
ghost use Rattle.xml_instances.specs.inner.Quick.{MayTake, IsRoomIn, IsRunTaken, AreItemsTaken, IsOurs, is_parent, start_events};
ghost use Rattle.markup.specs.TagAttributes.{tag_entry};
ghost use Rattle.xml_instances.specs.Verdicts.{IsLean, IsTextVerdict};
ghost use Rattle.xml_instances.specs.declared.opened.Opened.{Opened as OpenedType};

use super::{Content, OpenText, is_bare, root};
use crate::opened::{Opened, Refusal};
use crate::pieces::inside_run;
use crate::texts::take_run;
use lexical_core::Rule;
use markup::{TagAttribute, TagKind};
use message_model::Model;
use std::alloc::AllocError;

/// Which characters may stand in an element.
#[derive(Clone, Copy)]
pub(crate) enum Room {
    /// All.
    All,
    /// White space.
    Blanks,
    /// None.
    Nothing,
}

impl Content {
    /// Which characters may stand in the innermost element.
    #[inline]
    pub(crate) fn room(&self, model: &Model) -> Room
        ensures { IsRoomIn (types_of model.now) self.now.innermost result }
    {
        match self.innermost {
            None | Some(Opened::Text | Opened::Foreign) => Room::All,
            Some(Opened::Envelope { .. }) => Room::Blanks,
            Some(Opened::Parent { number, .. }) => {
                if is_bare(model, number) {
                    Room::Nothing
                } else {
                    Room::Blanks
                }
            }
        }
    }

    /// Takes a run of so many characters.
    pub(crate) fn take_run(
        &mut self,
        model: &Model,
        run: &[u8],
        count: usize,
    ) -> Result<(), AllocError>
        requires made { AreMade (types_of model.now) self.old }
        requires run { IsRun run.now count }
        requires fits { MayTake (types_of model.now) self.old.innermost run.now }
        ensures made { AreMade (types_of model.now) self.new }
        ensures lean { IsLean self.old → IsLean self.new }
        ensures taken { OnOk result ((r : IsRun run.now count) (ls : List (Level ℕ)) → IsOpen self.old (message_of model.now) ls → IsRunTaken (message_of model.now) ls r.characters self.new) }
        ensures shown { (r : IsRun run.now count) (ls : List (Level ℕ)) → IsOpen self.old (message_of model.now) ls
            → OnOk result (GoOn self.old.pieces self.new.pieces (EventsShow model.now ls (map (λ c. Char c) r.characters))) }
    {
        match self.innermost {
            Some(Opened::Text) => self.text_run(model, run, count),
            None => Ok(()),
            Some(Opened::Foreign) => inside_run(&mut self.pieces, run),
            Some(Opened::Envelope { .. }) => Ok(()),
            Some(Opened::Parent { .. }) => Ok(()),
        }
    }

    /// A run of characters of the open text.
    fn text_run(&mut self, model: &Model, run: &[u8], count: usize) -> Result<(), AllocError>
        requires made { AreMade (types_of model.now) self.old }
        requires run { IsRun run.now count }
        ensures made { AreMade (types_of model.now) self.new }
        ensures lean { IsLean self.old → IsLean self.new }
        ensures kept { self.new.innermost ≡ self.old.innermost }
        ensures round { self.new.round ≡ self.old.round }
        ensures pieces { self.new.pieces ≡ self.old.pieces }
        ensures taken { (r : IsRun run.now count) (simple : SimpleType) (text : List ℕ) → HoldsText (message_of model.now) self.old.text simple text
            → OnOk result (HoldsText (message_of model.now) self.new.text simple (text ++ r.characters)) }
    {
        open_run(&mut self.text, model, run, count)
    }

    /// Takes a tag without attributes, whose name is in the namespace of the innermost element.
    pub(crate) fn take_any_tag(
        &mut self,
        model: &Model,
        kind: TagKind,
        name: &[u8],
    ) -> Result<(), Refusal>
        requires { AreMade (types_of model.now) self.old }
        ensures made { AreMade (types_of model.now) self.new }
        ensures lean { IsLean self.old → IsLean self.new }
        ensures taken { (ls : List (Level ℕ)) (n : Expanded) → n.local ≡ name.now → IsOurs (message_of model.now) ls n → IsOpen self.old (message_of model.now) ls
            → AreItemsTaken (message_of model.now) ls (tag_items kind n) self.new result }
        ensures shown { (ls : List (Level ℕ)) (n : Expanded) → n.local ≡ name.now → IsOurs (message_of model.now) ls n → IsOpen self.old (message_of model.now) ls
            → MayShowName self.old.pieces self.old.innermost n → OnOk result (GoOn self.old.pieces self.new.pieces (EventsShow model.now ls (tag_items kind n))) }
    {
        match self.keep_tag(kind, name) {
            Ok(()) => self.hold_tag(model, kind, name),
            Err(_) => Err(Refusal::Memory),
        }
    }

    /// Holds a tag without attributes to the message, whose name is in the namespace of the
    /// innermost element.
    fn hold_tag(&mut self, model: &Model, kind: TagKind, name: &[u8]) -> Result<(), Refusal>
        requires { AreMade (types_of model.now) self.old }
        ensures made { AreMade (types_of model.now) self.new }
        ensures lean { IsLean self.old → IsLean self.new }
        ensures taken { (ls : List (Level ℕ)) (n : Expanded) → n.local ≡ name.now → IsOurs (message_of model.now) ls n → IsOpen self.old (message_of model.now) ls
            → AreItemsTaken (message_of model.now) ls (tag_items kind n) self.new result }
        ensures shown { (ls : List (Level ℕ)) (n : Expanded) → n.local ≡ name.now → IsOurs (message_of model.now) ls n → IsOpen self.old (message_of model.now) ls
            → OnOk result (GoOn self.old.pieces self.new.pieces (TagShowsBeside model.now ls kind n)) }
    {
        match kind {
            TagKind::Start => self.start_inside(model, name, &[]),
            TagKind::Empty => match self.start_inside(model, name, &[]) {
                Ok(()) => self.end(model),
                Err(refusal) => Err(refusal),
            },
            TagKind::End => self.end(model),
        }
    }

    /// An element starts, whose name is in the namespace of the innermost one.
    fn start_inside(
        &mut self,
        model: &Model,
        local: &[u8],
        attrs: &[TagAttribute<'_>],
    ) -> Result<(), Refusal>
        requires { AreMade (types_of model.now) self.old }
        ensures made { AreMade (types_of model.now) self.new }
        ensures lean { IsLean self.old → IsLean self.new }
        ensures taken { (ls : List (Level ℕ)) (n : Expanded) → n.local ≡ local.now → IsOurs (message_of model.now) ls n → IsOpen self.old (message_of model.now) ls
            → IsItemTaken (message_of model.now) ls (Starts n (map tag_entry attrs.now)) self.new result }
        ensures shown { (ls : List (Level ℕ)) (n : Expanded) → n.local ≡ local.now → IsOpen self.old (message_of model.now) ls → IsOurs (message_of model.now) ls n
            → OnOk result (GoOn self.old.pieces self.new.pieces (ShowsBeside model.now ls (Starts n (map tag_entry attrs.now)))) }
    {
        match self.place_inside(model, local) {
            Ok(number) => self.enter(model, number, attrs),
            Err(refusal) => Err(refusal),
        }
    }

    /// Takes a start tag, whose name is in the namespace of the innermost element. That is one with elements of the message.
    pub(crate) fn take_start_tag(
        &mut self,
        model: &Model,
        name: &[u8],
        attrs: &[TagAttribute<'_>],
        is_empty: bool,
    ) -> Result<(), Refusal>
        requires made { AreMade (types_of model.now) self.old }
        requires inside { is_parent self.old.innermost ≡ true }
        ensures made { AreMade (types_of model.now) self.new }
        ensures lean { IsLean self.old → IsLean self.new }
        ensures taken { (ls : List (Level ℕ)) (n : Expanded) → n.local ≡ name.now → IsOurs (message_of model.now) ls n → IsOpen self.old (message_of model.now) ls
            → AreItemsTaken (message_of model.now) ls (start_events is_empty (map tag_entry attrs.now) n) self.new result }
        ensures shown { (ls : List (Level ℕ)) (n : Expanded) → n.local ≡ name.now → IsOurs (message_of model.now) ls n → IsOpen self.old (message_of model.now) ls
            → OnOk result (GoOn self.old.pieces self.new.pieces (EventsShow model.now ls (start_events is_empty (map tag_entry attrs.now) n))) }
    {
        match self.start_inside(model, name, attrs) {
            Ok(()) => { if is_empty { self.end(model) } else { Ok(()) } }
            Err(refusal) => Err(refusal),
        }
    }

    /// Whether the innermost element is one with elements of the message.
    pub(crate) fn is_in_parent(&self) -> bool
        ensures { result ≡ is_parent self.now.innermost }
    {
        matches!(self.innermost, Some(Opened::Parent { .. }))
    }

    /// Whether an element of the innermost one's namespace may stand here, and its type; none in
    /// an envelope.
    fn place_inside(&mut self, model: &Model, local: &[u8]) -> Result<Option<u32>, Refusal>
        requires { AreMade (types_of model.now) self.old }
        ensures made { AreMade (types_of model.now) self.new }
        ensures lean { IsLean self.old → IsLean self.new }
        ensures none { OnOk result (self.new.text ≡ None) }
        ensures taken { (ls : List (Level ℕ)) (n : Expanded) → n.local ≡ local.now → IsOurs (message_of model.now) ls n → IsOpen self.old (message_of model.now) ls
            → IsPlaced (message_of model.now) ls n self.new result }
        ensures shown { (ls : List (Level ℕ)) (n : Expanded) → n.local ≡ local.now → IsOpen self.old (message_of model.now) ls
            → OnOk result (GoOn self.old.pieces self.new.pieces (StartShown ls n.local)) }
    {
        match self.innermost {
            None => root(self.alloc, model, b"", local),
            Some(Opened::Foreign) => Ok(None),
            Some(Opened::Text) => Err(self.refused(model, Rule::ElementInSimple, b"")),
            Some(Opened::Envelope { filled }) => self.fill(model, filled),
            Some(
                Opened::Parent {
                    number,
                    last,
                    count,
                },
            ) => self.child(model, number, last, count, local),
        }
    }
}

/// A run of characters of the open text.
fn open_run(
    text: &mut Option<OpenText>,
    model: &Model,
    run: &[u8],
    count: usize,
) -> Result<(), AllocError>
    requires made { IsTextMade (types_of model.now) text.old }
    requires run { IsRun run.now count }
    ensures made { IsTextMade (types_of model.now) text.new }
    ensures verdict { IsTextVerdict text.old → IsTextVerdict text.new }
    ensures innermost { (innermost : Option OpenedType) → IsTextInnermost innermost text.old → IsTextInnermost innermost text.new }
    ensures taken { (r : IsRun run.now count) (simple : SimpleType) (taken : List ℕ) → HoldsText (message_of model.now) text.old simple taken
        → OnOk result (HoldsText (message_of model.now) text.new simple (taken ++ r.characters)) }
{
    match text {
        None => Err(AllocError),
        Some(open) => open.take_run(model, run, count),
    }
}

impl OpenText {
    /// Takes a run of characters.
    fn take_run(&mut self, model: &Model, run: &[u8], count: usize) -> Result<(), AllocError>
        requires made { IsTextMade (types_of model.now) (Some self.old) }
        requires run { IsRun run.now count }
        ensures made { IsTextMade (types_of model.now) (Some self.new) }
        ensures verdict { IsTextVerdict (Some self.old) → IsTextVerdict (Some self.new) }
        ensures taken { (r : IsRun run.now count) (simple : SimpleType) (taken : List ℕ) → HoldsText (message_of model.now) (Some self.old) simple taken
            → OnOk result (HoldsText (message_of model.now) (Some self.new) simple (taken ++ r.characters)) }
    {
        let Some(simple) = model.text_type(self.number) else {
            unreachable!()
        };
        take_run(&mut self.judge, simple, run, count)
    }
}
