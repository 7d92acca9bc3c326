//! The text of an element: its characters, and its end.
ghost use Rattle.std.specs.Prelude.{◌≡◌, ℕ, List, [], ◌∷◌, ◌++◌, Some, None, IfOk, OnOk, length};
ghost use Rattle.facets.specs.declared.simple.Simple.{Simple as SimpleType};
ghost use Rattle.facets.specs.LeafChecks.{IsWithinLimits, IsHeldWithin, leaf_limit};
ghost use Rattle.facets.specs.LeafVerdicts.{IsFreeText};
ghost use Rattle.reference_check.specs.Forms.{Graph, text_type};
ghost use Rattle.message_model.specs.Tables.{message_of, types_of};
ghost use Rattle.message_model.specs.Message.{Message};
ghost use Rattle.xml_instances.specs.EventFaults.{LeafFault};
ghost use Rattle.xml_instances.specs.Built.{TextShown};
ghost use Rattle.xml_instances.specs.Judges.{HasJudgeTaken};
ghost use Rattle.xml_instances.specs.Levels.{Level};
ghost use Rattle.xml_instances.specs.Scratch.{held_by, held_in, IsScratchWithin};
ghost use Rattle.xml_instances.specs.Keeping.{GoOn};
ghost use Rattle.xml_instances.specs.Open.{IsOpen, AreMade, path_round, Says, HoldsText};
ghost use Rattle.xml_instances.specs.declared.opened.Opened.TheVariants.{Text as OpenedText};
ghost use Rattle.xml_instances.specs.Verdicts.{IsVerdictJudge, IsTextVerdict, IsLean, HasFreeText};

use super::{Content, OpenText};
use crate::judge::Judge;
use crate::opened::{Opened, Refusal};
use crate::pieces::Pieces;
use crate::spare::Checks;
use crate::texts::{ending_of, take_character};
use facets::Simple;
use message_model::Model;
use std::alloc::{AllocError, Global};

impl Content {
    /// A character of the open text.
    pub(crate) fn text_character(&mut self, model: &Model, c: char) -> Result<(), AllocError>
        requires { AreMade (types_of model.now) self.old }
        ensures made { AreMade (types_of model.now) self.new }
        ensures lean { IsLean self.old → IsLean self.new }
        ensures kept { self.new.innermost ≡ self.old.innermost }
        ensures round { self.new.round ≡ self.old.round }
        ensures taken { (simple : SimpleType) (text : List ℕ) → HoldsText (message_of model.now) self.old.text simple text
            → OnOk result (HoldsText (message_of model.now) self.new.text simple (text ++ c ∷ [])) }
        ensures pieces { self.new.pieces ≡ self.old.pieces }
    {
        let Some(mut open) = self.text.take() else {
            return Err(AllocError);
        };
        let Some(simple) = model.text_type(open.number) else {
            unreachable!()
        };
        let taken = take_character(&mut open.judge, simple, c);
        self.text = Some(open);
        taken
    }

    /// The end of the open text, whose judge is kept for the next one.
    pub(crate) fn text_ending(&mut self, model: &Model) -> Result<(), Refusal>
        requires { AreMade (types_of model.now) self.old }
        ensures made { AreMade (types_of model.now) self.new }
        ensures lean { IsLean self.old → IsLean self.new }
        ensures none { self.new.text ≡ None }
        ensures kept { self.new.innermost ≡ self.old.innermost }
        ensures round { self.new.round ≡ self.old.round }
        ensures taken { (simple : SimpleType) (text : List ℕ) → HoldsText (message_of model.now) self.old.text simple text
            → Says (LeafFault simple text (path_round (types_of model.now) self.old.round.items)) result }
        ensures shown { (simple : SimpleType) (text : List ℕ) → HoldsText (message_of model.now) self.old.text simple text
            → OnOk result (GoOn self.old.pieces self.new.pieces (TextShown simple text)) }
    {
        let Some(open) = self.text.take() else {
            return Err(Refusal::Memory);
        };
        let Some(simple) = model.text_type(open.number) else {
            unreachable!()
        };
        let ended = ending_of(&open.judge, simple, &mut self.pieces);
        self.checks.keep(open.number, simple, open.judge);
        match ended {
            Ok(rule) => self.answer(model, rule, b""),
            Err(_) => Err(Refusal::Memory),
        }
    }

    /// What judges a text of the type, before its first character.
    #[inline]
    pub(crate) fn check_for(
        &mut self,
        model: &Model,
        number: u32,
        simple: &Simple,
    ) -> Result<Box<Judge>, AllocError>
        requires made { AreMade (types_of model.now) self.old }
        requires simple { text_type (types_of model.now number) ≡ Some simple.now }
        ensures made { AreMade (types_of model.now) self.new }
        ensures lean { IsLean self.old → IsLean self.new }
        ensures kept { self.new.innermost ≡ self.old.innermost }
        ensures round { self.new.round ≡ self.old.round }
        ensures text { self.new.text ≡ self.old.text }
        ensures taken { IfOk result (λ judge. HasJudgeTaken judge.value simple.now []) }
        ensures verdict { IsLean self.old → IfOk result (λ judge. IsVerdictJudge judge.value) }
        ensures pieces { self.new.pieces ≡ self.old.pieces }
    {
        let _ = model.type_count();
        match self.checks.take(number) {
            Some(judge) => Ok(judge),
            None => fresh(self.alloc, simple, &self.pieces),
        }
    }

    /// How many bytes are held for the text of the innermost element; none where it has no text.
    pub(crate) fn scratch(&self) -> u64
        ensures count { result ≡ held_in self.now }
        ensures bound { (m : Message ℕ) (ls : List (Level ℕ)) → IsOpen self.now m ls → IsScratchWithin ls result }
        ensures free { (m : Message ℕ) (ls : List (Level ℕ)) → IsOpen self.now m ls → IsLean self.now → HasFreeText ls → result ≡ 0 }
    {
        match self.innermost {
            Some(Opened::Text) => text_scratch(&self.text),
            None => 0,
            Some(Opened::Foreign) => 0,
            Some(Opened::Envelope { .. }) => 0,
            Some(Opened::Parent { .. }) => 0,
        }
    }

    /// Lets go of the open text and of all judges. It is for what takes no more events.
    pub(crate) fn let_go(&mut self)
        ensures made { (types : Graph ℕ SimpleType) → AreMade types self.old → AreMade types self.new }
        ensures lean { IsLean self.old → IsLean self.new }
        ensures none { held_in self.new ≡ 0 }
        ensures text { self.new.text ≡ None }
        ensures checks { self.new.checks.entries.items ≡ [] }
    {
        self.innermost = None;
        self.text = None;
        self.checks = Checks::new(self.alloc);
    }

    /// A text of the type is open.
    #[inline]
    pub(crate) fn begin_text(
        &mut self,
        model: &Model,
        number: u32,
        simple: &Simple,
    ) -> Result<(), AllocError>
        requires made { AreMade (types_of model.now) self.old }
        requires simple { text_type (types_of model.now number) ≡ Some simple.now }
        ensures made { AreMade (types_of model.now) self.new }
        ensures lean { IsLean self.old → IsLean self.new }
        ensures round { self.new.round ≡ self.old.round }
        ensures pieces { self.new.pieces ≡ self.old.pieces }
        ensures taken { OnOk result ((self.new.innermost ≡ Some OpenedText) × HoldsText (message_of model.now) self.new.text simple.now []) }
    {
        match self.check_for(model, number, simple) {
            Ok(judge) => {
                self.text = Some(OpenText { number, judge });
                self.innermost = Some(Opened::Text);
                Ok(())
            }
            Err(error) => Err(error),
        }
    }
}

/// How many bytes are held for the open text.
fn text_scratch(text: &Option<OpenText>) -> u64
    ensures count { result ≡ held_by (Some OpenedText) text.now }
    ensures bound { (m : Message ℕ) (simple : SimpleType) (taken : List ℕ) → HoldsText m text.now simple taken → IsHeldWithin (leaf_limit simple) (length taken) result }
    ensures free { (m : Message ℕ) (simple : SimpleType) (taken : List ℕ) → HoldsText m text.now simple taken → IsTextVerdict text.now → IsFreeText simple → result ≡ 0 }
{
    match text {
        Some(open) => open.judge.scratch(),
        None => 0,
    }
}

/// What judges a text of the type, and was never used. It gives the leaf where pieces are kept.
#[inline(never)]
fn fresh(alloc: Global, simple: &Simple, pieces: &Option<Pieces>) -> Result<Box<Judge>, AllocError>
    requires { IsWithinLimits simple.now }
    ensures taken { IfOk result (λ judge. HasJudgeTaken judge.value simple.now []) }
    ensures verdict { pieces.now ≡ None → IfOk result (λ judge. IsVerdictJudge judge.value) }
{
    if pieces.is_none() {
        return Ok(Box::new(alloc, Judge::verdict(alloc, simple)?)?);
    }
    Ok(Box::new(alloc, Judge::check(alloc, simple)?)?)
}
