//! Tags that break no rule: taken without what a refusal needs.
ghost use Rattle.std.specs.Prelude.{◌≡◌, ◌++◌, ◌∷◌, ℕ, List, [], IfOk, OnOk, IfSome, None, Some, true, false};
ghost use Rattle.lexical_core.specs.Tree.{Expanded, Entry, Starts, Ends};
ghost use Rattle.facets.specs.declared.simple.Simple.{Simple as SimpleType};
ghost use Rattle.markup.specs.PlainTags.{tag_items};
ghost use Rattle.reference_check.specs.Forms.{Graph};
ghost use Rattle.reference_check.specs.Steps.{Came, EndsWith, Fine, end_after};
ghost use Rattle.message_model.specs.Message.{Message};
ghost use Rattle.message_model.specs.Tables.{message_of, types_of};
ghost use Rattle.xml_instances.specs.Built.{EventShows, EventsShow, TextShown};
ghost use Rattle.xml_instances.specs.Keeping.{GoOn};
ghost use Rattle.xml_instances.specs.Levels.{Level};
ghost use Rattle.xml_instances.specs.Open.{IsOpen, AreMade, IsRuleOf, HoldsText, IsTextMade};
ghost use Rattle.xml_instances.specs.EventFaults.{has_currency};
ghost use Rattle.xml_instances.specs.declared.opened.Opened.TheVariants.{Text as OpenedText, Parent as OpenedParent};
ghost use Rattle.xml_instances.specs.inner.Quick.{IsOurs, Passes, PassAll, IsTargetOf, IsTextTypeOf, IsRoundForeign, start_events};
ghost use Rattle.xml_instances.specs.Verdicts.{IsLean};

use super::attributes::is_money;
use super::{Content, OpenText, counted};
use crate::growth::make_room;
use crate::opened::Opened;
use crate::pieces::{Pieces, begin};
use crate::texts::pass_leaf;
use facets::Simple;
use markup::TagKind;
use message_model::{End, Model, Next};
use std::alloc::AllocError;

impl Content {
    /// Takes a tag without attributes of an element of the message, whose name is in the namespace of the innermost
    /// element, where it breaks no rule. Else it answers false, and nothing changes.
    pub(crate) fn pass_tag(
        &mut self,
        model: &Model,
        kind: TagKind,
        name: &[u8],
    ) -> Result<bool, AllocError>
        requires { AreMade (types_of model.now) self.old }
        ensures kept { IfOk result (λ done. done ≡ false → self.new ≡ self.old) }
        ensures made { AreMade (types_of model.now) self.new }
        ensures lean { IsLean self.old → IsLean self.new }
        ensures taken { (ls : List (Level ℕ)) (n : Expanded) → n.local ≡ name.now → IsOurs (message_of model.now) ls n → IsOpen self.old (message_of model.now) ls
            → IfOk result (λ done. done ≡ true → PassAll (message_of model.now) ls (tag_items kind n) self.new) }
        ensures shown { (ls : List (Level ℕ)) (n : Expanded) → n.local ≡ name.now → IsOurs (message_of model.now) ls n → IsOpen self.old (message_of model.now) ls
            → IfOk result (λ done. done ≡ true → GoOn self.old.pieces self.new.pieces (EventsShow model.now ls (tag_items kind n))) }
    {
        match kind {
            TagKind::Start => self.pass_start(model, name),
            TagKind::Empty => Ok(false),
            TagKind::End => self.pass_end(model),
        }
    }

    /// An element starts, as in `pass_tag`.
    fn pass_start(&mut self, model: &Model, local: &[u8]) -> Result<bool, AllocError>
        requires { AreMade (types_of model.now) self.old }
        ensures kept { IfOk result (λ done. done ≡ false → self.new ≡ self.old) }
        ensures made { AreMade (types_of model.now) self.new }
        ensures lean { IsLean self.old → IsLean self.new }
        ensures taken { (ls : List (Level ℕ)) (n : Expanded) → n.local ≡ local.now → IsOurs (message_of model.now) ls n → IsOpen self.old (message_of model.now) ls
            → IfOk result (λ done. done ≡ true → Passes (message_of model.now) ls (Starts n []) self.new) }
        ensures shown { (ls : List (Level ℕ)) (n : Expanded) → n.local ≡ local.now → IsOurs (message_of model.now) ls n → IsOpen self.old (message_of model.now) ls
            → IfOk result (λ done. done ≡ true → GoOn self.old.pieces self.new.pieces (EventShows model.now ls (Starts n []))) }
    {
        let _ = model.type_count();
        message_model::laws::slot_comes();
        let Some(
            Opened::Parent {
                number,
                last,
                count,
            },
        ) = self.innermost
        else {
            return Ok(false);
        };
        let Next::Slot(at) = model.next(number, last, count, local) else {
            return Ok(false);
        };
        let Some(target) = target_of(model, number, at) else {
            return Ok(false);
        };
        let Some(count) = counted(last, count, at) else {
            return Ok(false);
        };
        begin(&mut self.pieces, at, target)?;
        self.push_round(Opened::Parent {
            number,
            last: Some(at),
            count,
        })?;
        self.begin(model, target)?;
        Ok(true)
    }

    /// Takes a start tag of an element in an envelope, whatever its name and its attributes are, where it breaks no rule and
    /// no pieces are kept. Else it answers false, and nothing changes.
    pub(crate) fn pass_foreign(&mut self, is_empty: bool) -> Result<bool, AllocError>
        ensures kept { IfOk result (λ done. done ≡ false → self.new ≡ self.old) }
        ensures made { (types : Graph ℕ SimpleType) → AreMade types self.old → AreMade types self.new }
        ensures lean { IsLean self.old → IsLean self.new }
        ensures pieces { self.new.pieces ≡ self.old.pieces }
        ensures bare { IfOk result (λ done. done ≡ true → self.old.pieces ≡ None) }
        ensures taken { (m : Message ℕ) (ls : List (Level ℕ)) (n : Expanded) (attributes : List Entry) → IsOpen self.old m ls
            → IfOk result (λ done. done ≡ true → PassAll m ls (start_events is_empty attributes n) self.new) }
    {
        if self.pieces.is_some() {
            return Ok(false);
        }
        let Some(round) = round_foreign(self.innermost) else {
            return Ok(false);
        };
        if is_empty {
            self.innermost = Some(round);
            return Ok(true);
        }
        self.push_round(round)?;
        self.innermost = Some(Opened::Foreign);
        Ok(true)
    }

    /// One more element stands round the next.
    #[inline(always)]
    fn push_round(&mut self, opened: Opened) -> Result<(), AllocError>
        ensures innermost { self.new.innermost ≡ self.old.innermost }
        ensures text { self.new.text ≡ self.old.text }
        ensures checks { self.new.checks ≡ self.old.checks }
        ensures round { OnOk result (self.new.round.items ≡ self.old.round.items ++ opened ∷ []) }
        ensures pieces { self.new.pieces ≡ self.old.pieces }
    {
        make_room(&mut self.round)?;
        self.round.push_reserved(opened);
        Ok(())
    }

    /// The innermost element ends, as in `pass_tag`.
    fn pass_end(&mut self, model: &Model) -> Result<bool, AllocError>
        requires { AreMade (types_of model.now) self.old }
        ensures kept { IfOk result (λ done. done ≡ false → self.new ≡ self.old) }
        ensures made { AreMade (types_of model.now) self.new }
        ensures lean { IsLean self.old → IsLean self.new }
        ensures taken { (ls : List (Level ℕ)) (n : Expanded) → IsOpen self.old (message_of model.now) ls → IfOk result (λ done. done ≡ true → Passes (message_of model.now) ls (Ends n) self.new) }
        ensures shown { (ls : List (Level ℕ)) (n : Expanded) → IsOpen self.old (message_of model.now) ls
            → IfOk result (λ done. done ≡ true → GoOn self.old.pieces self.new.pieces (EventShows model.now ls (Ends n))) }
    {
        match self.innermost {
            Some(Opened::Text) => self.pass_text_end(model),
            Some(
                Opened::Parent {
                    number,
                    last,
                    count,
                },
            ) => self.pass_parent_end(model, number, last, count),
            _ => Ok(false),
        }
    }

    /// An element with a text ends, as in `pass_tag`.
    fn pass_text_end(&mut self, model: &Model) -> Result<bool, AllocError>
        requires made { AreMade (types_of model.now) self.old }
        requires text { self.old.innermost ≡ Some OpenedText }
        ensures kept { IfOk result (λ done. done ≡ false → self.new ≡ self.old) }
        ensures made { AreMade (types_of model.now) self.new }
        ensures lean { IsLean self.old → IsLean self.new }
        ensures taken { (ls : List (Level ℕ)) (n : Expanded) → IsOpen self.old (message_of model.now) ls → IfOk result (λ done. done ≡ true → Passes (message_of model.now) ls (Ends n) self.new) }
        ensures shown { (ls : List (Level ℕ)) (n : Expanded) → IsOpen self.old (message_of model.now) ls
            → IfOk result (λ done. done ≡ true → GoOn self.old.pieces self.new.pieces (EventShows model.now ls (Ends n))) }
    {
        let passed = self.pass_text(model)?;
        if !passed {
            return Ok(false);
        }
        self.close_innermost()?;
        self.innermost = self.round.pop();
        Ok(true)
    }

    /// An element with elements ends, as in `pass_tag`.
    fn pass_parent_end(
        &mut self,
        model: &Model,
        number: u32,
        last: Option<u32>,
        count: u64,
    ) -> Result<bool, AllocError>
        requires made { AreMade (types_of model.now) self.old }
        requires parent { self.old.innermost ≡ Some (OpenedParent number last count) }
        ensures kept { IfOk result (λ done. done ≡ false → self.new ≡ self.old) }
        ensures made { AreMade (types_of model.now) self.new }
        ensures lean { IsLean self.old → IsLean self.new }
        ensures taken { (ls : List (Level ℕ)) (n : Expanded) → IsOpen self.old (message_of model.now) ls → IfOk result (λ done. done ≡ true → Passes (message_of model.now) ls (Ends n) self.new) }
        ensures shown { (ls : List (Level ℕ)) (n : Expanded) → IsOpen self.old (message_of model.now) ls
            → IfOk result (λ done. done ≡ true → GoOn self.old.pieces self.new.pieces (EventShows model.now ls (Ends n))) }
    {
        if !is_complete(model, number, last, count) {
            return Ok(false);
        }
        self.close_innermost()?;
        self.innermost = self.round.pop();
        Ok(true)
    }

    /// The open text ends, its leaf is shown, and its judge is kept for the next one, where it is a leaf; else nothing changes.
    fn pass_text(&mut self, model: &Model) -> Result<bool, AllocError>
        requires { AreMade (types_of model.now) self.old }
        ensures kept { IfOk result (λ done. done ≡ false → self.new ≡ self.old) }
        ensures made { AreMade (types_of model.now) self.new }
        ensures lean { IsLean self.old → IsLean self.new }
        ensures innermost { self.new.innermost ≡ self.old.innermost }
        ensures round { self.new.round ≡ self.old.round }
        ensures none { IfOk result (λ done. done ≡ true → self.new.text ≡ None) }
        ensures taken { (simple : SimpleType) (text : List ℕ) → HoldsText (message_of model.now) self.old.text simple text → IfOk result (λ done. done ≡ true → IsRuleOf simple text None) }
        ensures shown { (simple : SimpleType) (text : List ℕ) → HoldsText (message_of model.now) self.old.text simple text
            → IfOk result (λ done. done ≡ true → GoOn self.old.pieces self.new.pieces (TextShown simple text)) }
    {
        let Some(simple) = pass_open(model, &self.text, &mut self.pieces)? else {
            return Ok(false);
        };
        if let Some(open) = self.text.take() {
            self.checks.keep(open.number, simple, open.judge);
        }
        Ok(true)
    }
}

/// What stands round an element that starts, where that is one in an envelope and may stand there.
fn round_foreign(innermost: Option<Opened>) -> Option<Opened>
    ensures { IfSome result (λ round. IsRoundForeign innermost round) }
{
    match innermost {
        Some(Opened::Foreign) => Some(Opened::Foreign),
        Some(Opened::Envelope { filled: false }) => Some(Opened::Envelope { filled: true }),
        None | Some(Opened::Text | Opened::Envelope { .. } | Opened::Parent { .. }) => None,
    }
}

/// Shows the leaf of the open text, where that is one, and tells its type; else nothing changes.
fn pass_open<'a>(
    model: &'a Model,
    text: &Option<OpenText>,
    pieces: &mut Option<Pieces>,
) -> Result<Option<&'a Simple>, AllocError>
    requires { IsTextMade (types_of model.now) text.now }
    ensures kept { IfOk result (λ told. told ≡ None → pieces.new ≡ pieces.old) }
    ensures bare { pieces.old ≡ None → pieces.new ≡ None }
    ensures told { IfOk result (λ told. IfSome told (λ simple. IsTextTypeOf (types_of model.now) text.now simple.now)) }
    ensures taken { (simple : SimpleType) (taken : List ℕ) → HoldsText (message_of model.now) text.now simple taken → IfOk result (λ told. IfSome told (λ _. IsRuleOf simple taken None)) }
    ensures shown { (simple : SimpleType) (taken : List ℕ) → HoldsText (message_of model.now) text.now simple taken
        → IfOk result (λ told. IfSome told (λ _. GoOn pieces.old pieces.new (TextShown simple taken))) }
{
    let Some(open) = text else {
        return Ok(None);
    };
    let Some(simple) = model.text_type(open.number) else {
        return Ok(None);
    };
    if pass_leaf(&open.judge, simple, pieces)? {
        Ok(Some(simple))
    } else {
        Ok(None)
    }
}

/// The type of a slot, where its elements may be without attributes.
fn target_of(model: &Model, number: u32, at: u32) -> Option<u32>
    ensures { IfSome result (λ target. IsTargetOf (types_of model.now) number at target) }
{
    let Some(slot) = model.slot(number, at) else {
        return None;
    };
    if is_amount(model, slot.target) {
        return None;
    }
    Some(slot.target)
}

/// Whether the type is that of amounts with a currency.
fn is_amount(model: &Model, number: u32) -> bool
    ensures { result ≡ has_currency (types_of model.now number) }
{
    is_money(&model.form(number))
}

/// Whether nothing is missing in an element of the type, whose last slot came so many times.
fn is_complete(model: &Model, number: u32, last: Option<u32>, count: u64) -> bool
    ensures { (d : List ℕ) → Came (types_of model.now number) d → EndsWith d last count → result ≡ true → end_after (types_of model.now number) d ≡ Fine }
{
    match model.end(number, last, count) {
        End::Fine => true,
        End::Missing(_) => false,
        End::NoAlternative => false,
    }
}
