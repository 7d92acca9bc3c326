//! What stands before a token: the open elements, whether the root has come, and the literal `]`
//! that stand last. It decides the rule that a token breaks and the events that it has.
ghost use Rattle.std.specs.Prelude.{◌≡◌, ◌==◌, ◌<◌, ◌^◌, false, reverse, length, List, [], ◌∷◌, ℕ, OnOk, OnErr, IsTrue};
ghost use Rattle.lexical_core.specs.Tree.{Char};
ghost use Rattle.markup.specs.Token.{Token, StartTag, Start, End, LineEnd, Line};
ghost use Rattle.markup.specs.Events.{opening, open_tags, spelled_name};
ghost use Rattle.markup.specs.EventItems.{Tells, TellsFront, item_of};
ghost use Rattle.markup.specs.inner.TokenRules.{inner_rule, inside_alone, brackets_by, one_more, ends_tag};
ghost use Rattle.markup.specs.inner.Contexts.{IsContext, TokenTaken, HasOpen, without_brackets, with_brackets};
ghost use Rattle.markup.specs.inner.TagParts.{spelled_opening};
ghost use Rattle.markup.specs.inner.StartTags.{StartTaken};
ghost use Rattle.markup.specs.inner.Inputs.{settled_tokens, settled_events};
ghost use Rattle.markup.specs.Marks.{in_cdata};
ghost use Rattle.markup.specs.PlainTags.{IsInsideOf, tags_behind};
ghost use Rattle.markup.specs.Scopes.{IsScope, placed_at};
ghost use Rattle.markup.specs.inner.ScanRuns.{ended_of, draft_of};
ghost use Rattle.markup.specs.Faults.{is_over, is_outside};
ghost use Rattle.markup.specs.Name.{Name};

use crate::attributes::TagAttribute;
use crate::characters::is_blank;
use crate::draft::Draft;
use crate::event::{Event, Events, What};
use crate::plain_tag::{PlainTag, TagKind};
use crate::scan::Ended;
use crate::scope::{Opened, Scope, Stop};
use crate::tag::{Opening, Spelled};
use crate::tokenizer::Settled;
use lexical_core::Rule;
use std::alloc::{AllocError, Global};

/// What stands before a token.
#[derive(Drop)]
pub(crate) struct Context {
    pub(crate) scope: Scope,
    /// Whether the root's start tag has come.
    has_root: bool,
    /// How many literal `]` stand last, 2 at most.
    brackets: u8,
}

/// Appends an event.
#[inline]
fn push_event(place: u64, what: What, out: &mut Events) -> Result<(), AllocError>
    ensures ok { OnOk result (Tells out.old out.new (record { place = place; item = item_of what } ∷ [])) }
    ensures err { OnErr result (out.new ≡ out.old) }
{
    out.push(Event { place, what })
}

impl Context {
    /// Nothing stands before. It takes no memory.
    pub(crate) fn new(alloc: Global) -> Context
        ensures { IsContext result [] }
    {
        Context {
            scope: Scope::new(alloc),
            has_root: false,
            brackets: 0,
        }
    }

    /// Whether the root has come and is closed.
    pub(crate) fn is_over(&self) -> bool
        ensures { (before : List Token) → IsContext self.now before → result ≡ is_over before }
    {
        self.has_root && self.scope.is_outside()
    }

    /// Whether an element is open.
    #[inline]
    pub(crate) fn has_open(&self) -> bool
        ensures open { IsTrue result → HasOpen self.now }
        ensures inside { (before : List Token) → IsContext self.now before → is_outside before ≡ false → IsTrue result }
    {
        !self.scope.is_outside()
    }

    /// How many elements are open.
    pub(crate) fn depth(&self) -> usize
        ensures { (before : List Token) → IsContext self.now before → result ≡ length (open_tags before) }
    {
        self.scope.depth()
    }

    /// Whether two literal `]` stand last.
    #[inline]
    pub(crate) fn is_behind_brackets(&self) -> bool
        ensures { result ≡ (self.now.brackets == 2) }
    {
        self.brackets == 2
    }

    /// Passes over characters none of which is `]`.
    #[inline]
    pub(crate) fn pass_characters(&mut self)
        ensures { self.new ≡ without_brackets self.old }
    {
        self.brackets = 0;
    }

    /// Passes over so many `]`, of which there is one.
    #[inline]
    pub(crate) fn pass_brackets(&mut self, count: usize)
        ensures { self.new ≡ with_brackets self.old count }
    {
        self.brackets = if self.brackets == 0 && count == 1 {
            1
        } else {
            2
        };
    }

    /// Takes a plain tag that breaks no rule, with the prefix of the innermost element. Where there is no
    /// memory the context is of no more use.
    #[inline]
    pub(crate) fn take_plain(
        &mut self,
        kind: TagKind,
        prefix: &[u8],
        name: &[u8],
    ) -> Result<(), AllocError>
        ensures scope { (tags : List Opening) (opened : List ℕ) → IsScope self.old.scope tags → IsInsideOf tags (record { prefix = prefix.now; local = opened }) → OnOk result (IsScope self.new.scope (tags_behind kind (record { prefix = prefix.now; local = name.now }) tags)) }
        ensures rest { OnOk result (self.new ≡ record { scope = self.new.scope; has_root = self.old.has_root; brackets = 0 }) }
    {
        self.scope.take_plain(kind, prefix, name)?;
        self.brackets = 0;
        Ok(())
    }

    /// Tells the event of a CR that may go on with an LF.
    pub(crate) fn tell_line_end(&self, place: u64, out: &mut Events) -> Result<(), AllocError>
        ensures ok { OnOk result (Tells out.old out.new (record { place = place; item = Char 10 } ∷ [])) }
        ensures err { OnErr result (out.new ≡ out.old) }
    {
        push_event(place, What::Char('\n'), out)
    }

    /// Takes a line end whose event was told.
    pub(crate) fn pass_line_end(&mut self)
        ensures { (before : List Token) (line : Line) → IsContext self.old before → IsContext self.new (LineEnd line ∷ before) }
    {
        self.brackets = 0;
    }

    /// Takes a `]` of a CDATA section.
    fn take_bracket(&mut self, place: u64, out: &mut Events) -> Result<(), AllocError>
        ensures ok { OnOk result ((self.new.scope ≡ self.old.scope) × (self.new.has_root ≡ self.old.has_root) × (self.new.brackets ≡ one_more self.old.brackets)) }
        ensures tells { OnOk result (Tells out.old out.new (placed_at place (Char 93 ∷ []))) }
        ensures err { OnErr result (out.new ≡ out.old) }
    {
        push_event(place, What::Char(']'), out)?;
        self.brackets = if self.brackets == 0 { 1 } else { 2 };
        Ok(())
    }

    /// Takes the tokens that a byte settles, of which the first stands at the place.
    pub(crate) fn settle(
        &mut self,
        settled: Settled,
        place: u64,
        out: &mut Events,
    ) -> Result<(), AllocError>
        ensures ok { (ts : List Token) → IsContext self.old (reverse ts) → OnOk result (IsContext self.new (reverse (settled_tokens settled ts))) }
        ensures tells { place < 2 ^ 40 → OnOk result (Tells out.old out.new (settled_events place settled)) }
        ensures err { place < 2 ^ 40 → OnErr result (TellsFront out.old out.new (settled_events place settled)) }
    {
        match settled {
            Settled::Nothing => Ok(()),
            Settled::Return => {
                self.brackets = 0;
                Ok(())
            }
            Settled::Bracket => self.take_bracket(place, out),
            Settled::Brackets => {
                self.take_bracket(place, out)?;
                self.take_bracket(place.saturating_add(1), out)
            }
        }
    }

    /// The rule of what stands inside the root alone.
    #[inline]
    fn inside_rule(&self) -> Option<Rule>
        ensures { (before : List Token) → IsContext self.now before → result ≡ inside_alone (is_outside before) }
    {
        if self.scope.is_outside() {
            Some(Rule::TextOutside)
        } else {
            None
        }
    }

    /// The rule that a token breaks which is no tag.
    #[inline]
    fn inner_rule(&self, ended: Ended, cdata: bool) -> Option<Rule>
        ensures { (before : List Token) → IsContext self.now before → result ≡ inner_rule cdata (is_outside before) (self.now.brackets == 2) ended }
    {
        match ended {
            Ended::Opener => self.inside_rule(),
            Ended::TypeDeclaration => Some(Rule::Doctype),
            Ended::Refer(_) => self.inside_rule(),
            Ended::Character(c) => {
                if c == '>' && !cdata && self.brackets == 2 {
                    Some(Rule::BadMarkup)
                } else if is_blank(c) {
                    None
                } else {
                    self.inside_rule()
                }
            }
            _ => None,
        }
    }

    /// How many literal `]` stand last behind one more token.
    #[inline]
    fn next_brackets(&self, ended: Ended) -> u8
        ensures { result ≡ brackets_by self.now.brackets ended }
    {
        match ended {
            Ended::Character(c) => {
                if c != ']' {
                    0
                } else if self.brackets == 0 {
                    1
                } else {
                    2
                }
            }
            _ => 0,
        }
    }

    /// Takes a token that is no tag.
    pub(crate) fn take_inner(
        &mut self,
        ended: Ended,
        cdata: bool,
        place: u64,
        out: &mut Events,
    ) -> Result<(), Stop>
        requires { ends_tag ended ≡ false }
        ensures { (before : List Token) (t : Token) → IsContext self.old before → ended_of t ≡ ended → in_cdata before ≡ cdata → TokenTaken before t place out.old out.new self.new result }
    {
        if let Some(rule) = self.inner_rule(ended, cdata) {
            return Err(Stop::Rule(rule));
        }
        if push_event(place, ended.what(), out).is_err() {
            return Err(Stop::Memory);
        }
        self.brackets = self.next_brackets(ended);
        Ok(())
    }

    /// Takes a start tag of this name, whose attributes and declarations are these as they are spelled: gives the
    /// element's namespace and, in their order, the attributes that declare nothing with their expanded names.
    pub(crate) fn open(
        &mut self,
        prefix: &[u8],
        name: &[u8],
        attributes: &mut Vec<TagAttribute<'_>>,
        is_empty: bool,
    ) -> Result<Opened, Stop>
        ensures { (before : List Token) (t : StartTag) → IsContext self.old before → opening t ≡ spelled_opening prefix.now name.now attributes.old.items is_empty → StartTaken before t name.now attributes.new.items is_empty self.new result }
    {
        let over = self.is_over();
        let opened = self.scope.open(prefix, name, attributes, is_empty, over)?;
        self.has_root = true;
        self.brackets = 0;
        Ok(opened)
    }

    /// Takes a start tag.
    pub(crate) fn take_start(
        &mut self,
        tag: Opening,
        place: u64,
        out: &mut Events,
    ) -> Result<(), Stop>
        ensures { (before : List Token) (t : StartTag) → IsContext self.old before → opening t ≡ tag → TokenTaken before (Start t) place out.old out.new self.new result }
    {
        let over = self.is_over();
        self.scope.begin(tag, over, place, out)?;
        self.has_root = true;
        self.brackets = 0;
        Ok(())
    }

    /// Takes an end tag.
    fn take_end(&mut self, name: Spelled, place: u64, out: &mut Events) -> Result<(), Stop>
        ensures { (before : List Token) (n : Name) (gap : List ℕ) → IsContext self.old before → spelled_name n ≡ name → TokenTaken before (End n gap) place out.old out.new self.new result }
    {
        self.scope.close(name, place, out)?;
        self.brackets = 0;
        Ok(())
    }

    /// Takes a token at the place: tells its events, or the least rule that it breaks. `cdata`: it
    /// stands in a CDATA section.
    pub(crate) fn take(
        &mut self,
        ended: Ended,
        draft: Draft,
        cdata: bool,
        place: u64,
        out: &mut Events,
    ) -> Result<(), Stop>
        ensures { (before : List Token) (t : Token) → IsContext self.old before → ended_of t ≡ ended → draft_of t ≡ draft → in_cdata before ≡ cdata → TokenTaken before t place out.old out.new self.new result }
    {
        match ended {
            Ended::Start(is_empty) => {
                let tag = Opening {
                    name: draft.name,
                    given: draft.given,
                    is_empty,
                };
                self.take_start(tag, place, out)
            }
            Ended::End => self.take_end(draft.name, place, out),
            _ => self.take_inner(ended, cdata, place, out),
        }
    }
}
