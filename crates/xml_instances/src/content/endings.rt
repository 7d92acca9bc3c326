//! The end of an element: what it breaks, and what it shows.
ghost use Rattle.std.specs.Prelude.{◌≡◌, ◌++◌, ℕ, List, Option, Some, None, OnOk, IsOk};
ghost use Rattle.lexical_core.specs.Tree.{Ends, Expanded};
ghost use Rattle.facets.specs.declared.simple.Simple.{Simple as SimpleType};
ghost use Rattle.reference_check.specs.Steps.{Came, EndsWith, end_after};
ghost use Rattle.message_model.specs.Tables.{message_of, types_of};
ghost use Rattle.xml_instances.specs.Levels.{Level};
ghost use Rattle.xml_instances.specs.EventFaults.{end_fault, EndFault, LeafFault};
ghost use Rattle.xml_instances.specs.Built.{ShowsBeside, EndShown, LeafShown};
ghost use Rattle.xml_instances.specs.Keeping.{GoOn};
ghost use Rattle.xml_instances.specs.Open.{IsOpen, IsItemTaken, AreMade, IsRuleOf, path_round, Says, StandsFor};
ghost use Rattle.xml_instances.specs.declared.opened.Opened.{Opened as OpenedType};
ghost use Rattle.xml_instances.specs.Verdicts.{IsLean};

use super::Content;
use crate::opened::{Opened, Refusal, missing};
use crate::pieces::envelope;
use lexical_core::Rule;
use message_model::{End, Model};

impl Content {
    /// The innermost element ends.
    pub(crate) fn end(&mut self, model: &Model) -> Result<(), Refusal>
        requires { AreMade (types_of model.now) self.old }
        ensures made { AreMade (types_of model.now) self.new }
        ensures lean { IsLean self.old → IsLean self.new }
        ensures taken { (ls : List (Level ℕ)) (n : Expanded) → IsOpen self.old (message_of model.now) ls → IsItemTaken (message_of model.now) ls (Ends n) self.new result }
        ensures shown { (ls : List (Level ℕ)) (n : Expanded) → IsOpen self.old (message_of model.now) ls
            → OnOk result (GoOn self.old.pieces self.new.pieces (ShowsBeside model.now ls (Ends n))) }
    {
        match self.ending(model) {
            Ok(()) => {
                self.innermost = self.round.pop();
                Ok(())
            }
            Err(refusal) => Err(refusal),
        }
    }

    /// What the end of the innermost element breaks; where it breaks nothing, its pieces end.
    fn ending(&mut self, model: &Model) -> Result<(), Refusal>
        requires { AreMade (types_of model.now) self.old }
        ensures made { AreMade (types_of model.now) self.new }
        ensures lean { IsLean self.old → IsLean self.new }
        ensures none { self.new.text ≡ None }
        ensures kept { self.new.innermost ≡ self.old.innermost }
        ensures round { self.new.round ≡ self.old.round }
        ensures out { self.old.innermost ≡ None → IsOk result × (self.new.pieces ≡ self.old.pieces) }
        ensures taken { (l : Level ℕ) (e : OpenedType) → self.old.innermost ≡ Some e → StandsFor (message_of model.now) self.old.text e l
            → Says (EndFault l (path_round (types_of model.now) self.old.round.items)) result }
        ensures shown { (l : Level ℕ) (e : OpenedType) → self.old.innermost ≡ Some e → StandsFor (message_of model.now) self.old.text e l
            → OnOk result (GoOn self.old.pieces self.new.pieces (EndShown l)) }
    {
        match self.leaf_ending(model) {
            Ok(()) => match self.close_innermost() {
                Ok(()) => Ok(()),
                Err(_) => Err(Refusal::Memory),
            },
            Err(refusal) => Err(refusal),
        }
    }

    /// What the end of the innermost element breaks; where it breaks nothing, its leaf is shown.
    fn leaf_ending(&mut self, model: &Model) -> Result<(), Refusal>
        requires { AreMade (types_of model.now) self.old }
        ensures made { AreMade (types_of model.now) self.new }
        ensures lean { IsLean self.old → IsLean self.new }
        ensures none { self.new.text ≡ None }
        ensures kept { self.new.innermost ≡ self.old.innermost }
        ensures round { self.new.round ≡ self.old.round }
        ensures out { self.old.innermost ≡ None → IsOk result × (self.new.pieces ≡ self.old.pieces) }
        ensures taken { (l : Level ℕ) (e : OpenedType) → self.old.innermost ≡ Some e → StandsFor (message_of model.now) self.old.text e l
            → Says (EndFault l (path_round (types_of model.now) self.old.round.items)) result }
        ensures shown { (l : Level ℕ) (e : OpenedType) → self.old.innermost ≡ Some e → StandsFor (message_of model.now) self.old.text e l
            → OnOk result (GoOn self.old.pieces self.new.pieces (LeafShown l)) }
    {
        match self.innermost {
            None | Some(Opened::Foreign) => Ok(()),
            Some(Opened::Text) => self.text_ending(model),
            Some(Opened::Envelope { filled }) => {
                if filled {
                    match envelope(&mut self.pieces) {
                        Ok(()) => Ok(()),
                        Err(_) => Err(Refusal::Memory),
                    }
                } else {
                    Err(self.refused(model, Rule::Missing, b"/*"))
                }
            }
            Some(
                Opened::Parent {
                    number,
                    last,
                    count,
                },
            ) => self.parent_ending(model, number, last, count),
        }
    }

    /// The end of an element with elements.
    fn parent_ending(
        &self,
        model: &Model,
        number: u32,
        last: Option<u32>,
        count: u64,
    ) -> Result<(), Refusal>
        ensures { (d : List ℕ) → Came (types_of model.now number) d → EndsWith d last count
            → Says (λ o. o ≡ end_fault (path_round (types_of model.now) self.now.round.items) (types_of model.now number) (end_after (types_of model.now number) d)) result }
    {
        match model.end(number, last, count) {
            End::Fine => Ok(()),
            End::Missing(at) => Err(missing(self.alloc, model, self.round.as_slice(), number, at)),
            End::NoAlternative => Err(self.refused(model, Rule::Missing, b"/*")),
        }
    }

    /// What a text breaks, as it is told.
    pub(crate) fn answer(
        &self,
        model: &Model,
        rule: Option<Rule>,
        behind: &[u8],
    ) -> Result<(), Refusal>
        ensures ok { OnOk result (rule ≡ None) }
        ensures said { (simple : SimpleType) (text : List ℕ) → IsRuleOf simple text rule
            → Says (LeafFault simple text (path_round (types_of model.now) self.now.round.items ++ behind.now)) result }
    {
        match rule {
            None => Ok(()),
            Some(rule) => Err(self.refused(model, rule, behind)),
        }
    }
}
