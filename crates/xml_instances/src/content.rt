//! The elements of an instance that are open, held to the types of its message.
ghost use Rattle.std.specs.Prelude.{◌≡◌, ℕ, List, [], ◌++◌, Option, Some, None, IfOk, IfSome, OnOk, codes, length, map, not, ◌&&◌, option_to_list};
ghost use Rattle.lexical_core.specs.Tree.{Char, Starts};
ghost use Rattle.facets.specs.declared.simple.Simple.{Simple as SimpleType};
ghost use Rattle.markup.specs.EventItems.{item_of};
ghost use Rattle.respell.specs.Respelling.{HasSortedAttributes};
ghost use Rattle.reference_check.specs.Forms.{Graph};
ghost use Rattle.reference_check.specs.Steps.{Came, EndsWith, Slotted, next};
ghost use Rattle.message_model.specs.Message.{Message};
ghost use Rattle.message_model.specs.Sound.{count_with};
ghost use Rattle.message_model.specs.Tables.{message_of, types_of};
ghost use Rattle.message_model.specs.Writes.{name_in_namespace};
ghost use Rattle.xml_instances.specs.Built.{EventShows, ShowsBeside, StartShown, ChildShown, CodeShown};
ghost use Rattle.xml_instances.specs.Keeping.{GoOn};
ghost use Rattle.xml_instances.specs.Levels.{Level, levels_path};
ghost use Rattle.xml_instances.specs.EventFaults.{space_fault, is_bare};
ghost use Rattle.xml_instances.specs.Open.{IsOpen, IsTaken, IsItemTaken, AreMade, path_round, Says, RefusesWith, IsPlaced, IsEntered, IsRound, form_at, IsEnvelopeFilled, IsChild, IsStepped, IsElementBegun, IsRoot};
ghost use Rattle.xml_instances.specs.Scratch.{held_in};
ghost use Rattle.xml_instances.specs.Verdicts.{IsLean};
ghost use Rattle.markup.specs.TagAttributes.{tag_entry};

mod attributes;
mod endings;
mod leaves;
mod passing;
mod quick;
mod showing;
mod single;

use crate::judge::Judge;
use crate::opened::{Opened, Refusal, breaks, missing, names};
use crate::pieces::{Pieces, begin};
use crate::spare::Checks;
use crate::texts::is_space;
use lexical_core::{Rule, Text};
use markup::{Event, TagAttribute, What, tag_attributes};
use message_model::{Form, Model, Next};
pub(crate) use quick::Room;
use std::alloc::{AllocError, Global};

/// The tag of the root.
const DOCUMENT: &[u8] = b"Document";

/// A text that is open: the type of its element, and what judges it.
#[derive(Drop)]
pub(crate) struct OpenText {
    number: u32,
    judge: Box<Judge>,
}

/// The open elements.
#[derive(Drop)]
pub(crate) struct Content {
    alloc: Global,
    innermost: Option<Opened>,
    /// Those round the innermost, the outermost first.
    round: Vec<Opened>,
    /// The text of the innermost, where it has one.
    text: Option<OpenText>,
    /// Checks for the texts to come.
    checks: Checks,
    /// The pieces that events show, where they are kept.
    pieces: Option<Pieces>,
}

impl Content {
    /// No element is open, and no pieces are kept. It takes no memory.
    pub(crate) fn new(alloc: Global, model: &Model) -> Content
        ensures open { IsOpen result (message_of model.now) [] }
        ensures made { AreMade (types_of model.now) result }
        ensures bare { result.pieces ≡ None }
        ensures lean { IsLean result }
    {
        let _ = model.type_count();
        Content {
            alloc,
            innermost: None,
            round: Vec::new(alloc),
            text: None,
            checks: Checks::new(alloc),
            pieces: None,
        }
    }

    /// Holds the next event to the message: it breaks no rule, or the least that it breaks with the path that is told.
    pub(crate) fn take(&mut self, model: &Model, event: &Event) -> Result<(), Refusal>
        requires { AreMade (types_of model.now) self.old }
        ensures made { AreMade (types_of model.now) self.new }
        ensures lean { IsLean self.old → IsLean self.new }
        ensures taken { (ls : List (Level ℕ)) → IsOpen self.old (message_of model.now) ls → IsTaken (message_of model.now) ls event.now.what self.new result }
        ensures shown { (ls : List (Level ℕ)) → IsOpen self.old (message_of model.now) ls → HasSortedAttributes (item_of event.now.what)
            → OnOk result (GoOn self.old.pieces self.new.pieces (EventShows model.now ls (item_of event.now.what))) }
    {
        match self.keep_event(event) {
            Ok(()) => self.take_what(model, &event.what),
            Err(_) => Err(Refusal::Memory),
        }
    }

    /// Holds what stands at a place to the message.
    fn take_what(&mut self, model: &Model, what: &What) -> Result<(), Refusal>
        requires { AreMade (types_of model.now) self.old }
        ensures made { AreMade (types_of model.now) self.new }
        ensures lean { IsLean self.old → IsLean self.new }
        ensures taken { (ls : List (Level ℕ)) → IsOpen self.old (message_of model.now) ls → IsTaken (message_of model.now) ls what.now self.new result }
        ensures shown { (ls : List (Level ℕ)) → IsOpen self.old (message_of model.now) ls
            → OnOk result (GoOn self.old.pieces self.new.pieces (ShowsBeside model.now ls (item_of what.now))) }
    {
        match what {
            What::Start { ns, local, attrs } => {
                let Ok(attributes) = tag_attributes(attrs.as_slice(), self.alloc) else {
                    return Err(Refusal::Memory);
                };
                self.start(model, ns.bytes(), local.bytes(), attributes.as_slice())
            }
            What::Char(c) => self.character(model, *c),
            What::End { .. } => self.end(model),
            What::Skipped => Ok(()),
        }
    }

    /// Lets go of the pieces. It is for what takes no more events.
    pub(crate) fn forget_pieces(&mut self)
        ensures made { (types : Graph ℕ SimpleType) → AreMade types self.old → AreMade types self.new }
        ensures lean { IsLean self.old → IsLean self.new }
        ensures same { held_in self.new ≡ held_in self.old }
        ensures text { self.new.text ≡ self.old.text }
        ensures checks { self.new.checks ≡ self.old.checks }
        ensures bare { self.new.pieces ≡ None }
    {
        self.pieces = None;
    }

    /// The path of the open elements.
    pub(crate) fn path(&self, alloc: Global, model: &Model) -> Result<Text, AllocError>
        ensures { (ls : List (Level ℕ)) → IsOpen self.now (message_of model.now) ls → IfOk result (λ t. t ≡ levels_path ls) }
    {
        match self.innermost {
            None => slash(alloc),
            Some(_) => names(alloc, model, self.round.as_slice()),
        }
    }

    /// How many elements are open.
    pub(crate) fn depth(&self) -> usize
        ensures { (m : Message ℕ) (ls : List (Level ℕ)) → IsOpen self.now m ls → result ≡ length ls }
    {
        match self.innermost {
            None => 0,
            Some(_) => self.round.len() + 1,
        }
    }

    // ---- a character

    /// A character.
    fn character(&mut self, model: &Model, c: char) -> Result<(), Refusal>
        requires { AreMade (types_of model.now) self.old }
        ensures made { AreMade (types_of model.now) self.new }
        ensures lean { IsLean self.old → IsLean self.new }
        ensures taken { (ls : List (Level ℕ)) → IsOpen self.old (message_of model.now) ls → IsItemTaken (message_of model.now) ls (Char c) self.new result }
        ensures pieces { self.new.pieces ≡ self.old.pieces }
    {
        match self.innermost {
            None | Some(Opened::Foreign) => Ok(()),
            Some(Opened::Text) => match self.text_character(model, c) {
                Ok(()) => Ok(()),
                Err(_) => Err(Refusal::Memory),
            },
            Some(Opened::Envelope { .. }) => self.space(model, is_space(c)),
            Some(Opened::Parent { number, .. }) => {
                let bare = is_bare(model, number);
                self.space(model, may_stand(bare, is_space(c)))
            }
        }
    }

    /// A character between elements.
    fn space(&self, model: &Model, fits: bool) -> Result<(), Refusal>
        ensures { Says (λ o. o ≡ space_fault fits (path_round (types_of model.now) self.now.round.items)) result }
    {
        if fits {
            Ok(())
        } else {
            Err(self.refused(model, Rule::TextInComplex, b""))
        }
    }

    /// The rule, with the path of what is open, and more behind it.
    fn refused(&self, model: &Model, rule: Rule, behind: &[u8]) -> Refusal
        ensures { RefusesWith rule (path_round (types_of model.now) self.now.round.items ++ behind.now) result }
    {
        breaks(self.alloc, model, rule, self.round.as_slice(), behind)
    }

    // ---- the start of an element

    /// An element starts.
    fn start(
        &mut self,
        model: &Model,
        namespace: &[u8],
        local: &[u8],
        attrs: &[TagAttribute<'_>],
    ) -> Result<(), Refusal>
        requires { AreMade (types_of model.now) self.old }
        ensures made { AreMade (types_of model.now) self.new }
        ensures lean { IsLean self.old → IsLean self.new }
        ensures taken { (ls : List (Level ℕ)) → IsOpen self.old (message_of model.now) ls → IsItemTaken (message_of model.now) ls (Starts (name_in_namespace namespace.now local.now) (map tag_entry attrs.now)) self.new result }
        ensures shown { (ls : List (Level ℕ)) → IsOpen self.old (message_of model.now) ls
            → OnOk result (GoOn self.old.pieces self.new.pieces (ShowsBeside model.now ls (Starts (name_in_namespace namespace.now local.now) (map tag_entry attrs.now)))) }
    {
        match self.place(model, namespace, local) {
            Ok(number) => self.enter(model, number, attrs),
            Err(refusal) => Err(refusal),
        }
    }

    /// Whether an element may stand here, and its type; none in an envelope.
    fn place(
        &mut self,
        model: &Model,
        namespace: &[u8],
        local: &[u8],
    ) -> Result<Option<u32>, Refusal>
        requires { AreMade (types_of model.now) self.old }
        ensures made { AreMade (types_of model.now) self.new }
        ensures lean { IsLean self.old → IsLean self.new }
        ensures none { OnOk result (self.new.text ≡ None) }
        ensures taken { (ls : List (Level ℕ)) → IsOpen self.old (message_of model.now) ls → IsPlaced (message_of model.now) ls (name_in_namespace namespace.now local.now) self.new result }
        ensures shown { (ls : List (Level ℕ)) → IsOpen self.old (message_of model.now) ls
            → OnOk result (GoOn self.old.pieces self.new.pieces (StartShown ls local.now)) }
    {
        match self.innermost {
            None => root(self.alloc, model, namespace, local),
            Some(Opened::Foreign) => Ok(None),
            Some(Opened::Text) => Err(self.refused(model, Rule::ElementInSimple, b"")),
            Some(Opened::Envelope { filled }) => self.fill(model, filled),
            Some(
                Opened::Parent {
                    number,
                    last,
                    count,
                },
            ) => {
                if model.is_namespace(namespace) {
                    self.child(model, number, last, count, local)
                } else {
                    Err(self.refused(model, Rule::UnknownElement, b""))
                }
            }
        }
    }

    /// The element of an envelope.
    fn fill(&mut self, model: &Model, filled: bool) -> Result<Option<u32>, Refusal>
        ensures text { self.new.text ≡ self.old.text }
        ensures checks { self.new.checks ≡ self.old.checks }
        ensures round { self.new.round ≡ self.old.round }
        ensures pieces { self.new.pieces ≡ self.old.pieces }
        ensures taken { IsEnvelopeFilled filled (path_round (types_of model.now) self.old.round.items) self.new.innermost result }
    {
        if filled {
            return Err(self.refused(model, Rule::TooMany, b""));
        }
        self.innermost = Some(Opened::Envelope { filled: true });
        Ok(None)
    }

    /// An element in one with elements of the message.
    fn child(
        &mut self,
        model: &Model,
        number: u32,
        last: Option<u32>,
        count: u64,
        local: &[u8],
    ) -> Result<Option<u32>, Refusal>
        ensures text { self.new.text ≡ self.old.text }
        ensures checks { self.new.checks ≡ self.old.checks }
        ensures round { self.new.round ≡ self.old.round }
        ensures bare { self.old.pieces ≡ None → self.new.pieces ≡ None }
        ensures taken { (d : List ℕ) → Came (types_of model.now number) d → EndsWith d last count
            → IsChild (message_of model.now) (types_of model.now number) d (path_round (types_of model.now) self.old.round.items) local.now self.new.innermost result }
        ensures shown { (d : List ℕ) → Came (types_of model.now number) d → EndsWith d last count
            → OnOk result (GoOn self.old.pieces self.new.pieces (ChildShown (types_of model.now number) (next (types_of model.now number) d local.now))) }
    {
        let _ = model.type_count();
        message_model::laws::slot_comes();
        match model.next(number, last, count, local) {
            Next::Slot(at) => self.step(model, number, last, count, at),
            Next::Unknown => Err(self.refused(model, Rule::UnknownElement, b"")),
            Next::OutOfOrder => Err(self.refused(model, Rule::OutOfOrder, b"")),
            Next::TooMany => Err(self.refused(model, Rule::TooMany, b"")),
            Next::Missing(at) => Err(missing(self.alloc, model, self.round.as_slice(), number, at)),
            Next::Second => Err(self.refused(model, Rule::SecondAlternative, b"")),
        }
    }

    /// The slot comes.
    fn step(
        &mut self,
        model: &Model,
        number: u32,
        last: Option<u32>,
        count: u64,
        at: u32,
    ) -> Result<Option<u32>, Refusal>
        ensures text { self.new.text ≡ self.old.text }
        ensures checks { self.new.checks ≡ self.old.checks }
        ensures round { self.new.round ≡ self.old.round }
        ensures bare { self.old.pieces ≡ None → self.new.pieces ≡ None }
        ensures taken { IsStepped (types_of model.now) number last count at self.new.innermost result }
        ensures shown { OnOk result (GoOn self.old.pieces self.new.pieces (ChildShown (types_of model.now number) (Slotted at))) }
    {
        let Some(slot) = model.slot(number, at) else {
            return Err(Refusal::Memory);
        };
        let Some(count) = counted(last, count, at) else {
            return Err(Refusal::Memory);
        };
        if begin(&mut self.pieces, at, slot.target).is_err() {
            return Err(Refusal::Memory);
        }
        self.innermost = Some(Opened::Parent {
            number,
            last: Some(at),
            count,
        });
        Ok(Some(slot.target))
    }

    /// An element of the type, or in an envelope, with these attributes.
    fn enter(
        &mut self,
        model: &Model,
        number: Option<u32>,
        attrs: &[TagAttribute<'_>],
    ) -> Result<(), Refusal>
        requires made { AreMade (types_of model.now) self.old }
        requires none { self.old.text ≡ None }
        ensures made { AreMade (types_of model.now) self.new }
        ensures lean { IsLean self.old → IsLean self.new }
        ensures taken { (ls : List (Level ℕ)) → IsRound self.old (message_of model.now) ls
            → IsEntered (message_of model.now) ls (form_at (message_of model.now) number) (map tag_entry attrs.now) self.new result }
        ensures shown { OnOk result (GoOn self.old.pieces self.new.pieces (CodeShown model.now (form_at (message_of model.now) number) (map tag_entry attrs.now))) }
    {
        if self.go_in().is_err() {
            return Err(Refusal::Memory);
        }
        match number {
            None => {
                self.innermost = Some(Opened::Foreign);
                Ok(())
            }
            Some(number) => match self.attributes(model, number, attrs) {
                Ok(()) => match self.begin(model, number) {
                    Ok(()) => Ok(()),
                    Err(_) => Err(Refusal::Memory),
                },
                Err(refusal) => Err(refusal),
            },
        }
    }

    /// What is open stands round the next element.
    fn go_in(&mut self) -> Result<(), AllocError>
        ensures text { self.new.text ≡ self.old.text }
        ensures checks { self.new.checks ≡ self.old.checks }
        ensures round { OnOk result (self.new.round.items ≡ self.old.round.items ++ option_to_list self.old.innermost) }
        ensures pieces { self.new.pieces ≡ self.old.pieces }
    {
        match self.innermost.take() {
            None => Ok(()),
            Some(opened) => match self.round.push(opened) {
                Ok(()) => Ok(()),
                Err(_) => Err(AllocError),
            },
        }
    }

    /// The element of the type is open.
    #[inline(always)]
    fn begin(&mut self, model: &Model, number: u32) -> Result<(), AllocError>
        requires made { AreMade (types_of model.now) self.old }
        requires none { self.old.text ≡ None }
        ensures made { AreMade (types_of model.now) self.new }
        ensures lean { IsLean self.old → IsLean self.new }
        ensures round { self.new.round ≡ self.old.round }
        ensures pieces { self.new.pieces ≡ self.old.pieces }
        ensures taken { IsElementBegun (message_of model.now) (types_of model.now number) self.new result }
    {
        match model.form(number) {
            Some(Form::Simple(simple)) => self.begin_text(model, number, simple),
            Some(Form::Money { base, .. }) => self.begin_text(model, number, base),
            Some(Form::Envelope) => {
                self.innermost = Some(Opened::Envelope { filled: false });
                Ok(())
            }
            Some(Form::Sequence | Form::Choice) | None => {
                self.innermost = Some(Opened::Parent {
                    number,
                    last: None,
                    count: 0,
                });
                Ok(())
            }
        }
    }
}

/// The path of no element.
fn slash(alloc: Global) -> Result<Text, AllocError>
    ensures { IfOk result (λ t. t ≡ codes "/") }
{
    let mut text = Text::new(alloc);
    text.extend(b"/")?;
    Ok(text)
}

/// The root, which is `Document`.
fn root(
    alloc: Global,
    model: &Model,
    namespace: &[u8],
    local: &[u8],
) -> Result<Option<u32>, Refusal>
    ensures { IsRoot (message_of model.now) (name_in_namespace namespace.now local.now) result }
{
    if model.is_namespace(namespace) && local == DOCUMENT {
        return Ok(Some(0));
    }
    match slash(alloc) {
        Ok(path) => Err(Refusal::Breaks(Rule::WrongRoot, path)),
        Err(_) => Err(Refusal::Memory),
    }
}

/// Whether a character may stand between the elements of one: white space, unless there is no place for it.
fn may_stand(bare: bool, space: bool) -> bool
    ensures { result ≡ (not bare && space) }
{
    !bare && space
}

/// Whether elements of the type have no elements, and no white space.
fn is_bare(model: &Model, number: u32) -> bool
    ensures { result ≡ is_bare (types_of model.now number) }
{
    match model.form(number) {
        Some(Form::Sequence) => model.slot(number, 0).is_none(),
        _ => false,
    }
}

/// How often a slot has come, where it comes behind the last; `None` where it is more than can be counted.
fn counted(last: Option<u32>, count: u64, at: u32) -> Option<u64>
    ensures { IfSome result (λ n. n ≡ count_with last count at) }
{
    match last {
        Some(last) if last == at => count.checked_add(1),
        _ => Some(1),
    }
}
