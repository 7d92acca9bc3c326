//! The pieces that events show, where they are kept.
ghost use Rattle.std.specs.Prelude.{◌≡◌, ℕ, List, Option, Some, None, OnOk, IfSome, IsOk, false};
ghost use Rattle.lexical_core.specs.Tree.{Expanded};
ghost use Rattle.markup.specs.EventItems.{item_of};
ghost use Rattle.markup.specs.PlainTags.{tag_items};
ghost use Rattle.respell.specs.Respelling.{HasSortedAttributes};
ghost use Rattle.message_model.specs.Message.{Message};
ghost use Rattle.xml_instances.specs.Levels.{Level};
ghost use Rattle.xml_instances.specs.Built.{nothing_shown, with_event, with_end};
ghost use Rattle.xml_instances.specs.Open.{IsOpen, StandsFor};
ghost use Rattle.xml_instances.specs.Keeping.{GoOn, KeepsSomeShown, AreKeptPieces, MayShow, MayShowName, is_within, with_events};
ghost use Rattle.xml_instances.specs.declared.content.OpenText.{OpenText as OpenTextType};
ghost use Rattle.xml_instances.specs.declared.opened.Opened.{Opened as OpenedType};

use super::Content;
use crate::opened::Opened;
use crate::pieces::{Pieces, close, inside, inside_tag};
use inst_pool::Instance;
use markup::{Event, TagKind, What};
use std::alloc::AllocError;

impl Content {
    /// Keeps the pieces that events show from now on.
    pub(crate) fn keep_pieces(&mut self)
        ensures innermost { self.new.innermost ≡ self.old.innermost }
        ensures round { self.new.round ≡ self.old.round }
        ensures text { self.new.text ≡ self.old.text }
        ensures checks { self.new.checks ≡ self.old.checks }
        ensures shown { KeepsSomeShown self.new.pieces nothing_shown }
    {
        self.pieces = Some(Pieces::new(self.alloc));
    }

    /// The pieces, where they are kept and no element is open.
    pub(crate) fn finish_pieces(&mut self) -> Option<Instance>
        ensures { IfSome result (λ i. AreKeptPieces self.old.pieces i.region.pieces) }
    {
        match self.pieces.take() {
            None => None,
            Some(pieces) => pieces.finish(),
        }
    }

    /// Keeps an event of the element of an envelope, where pieces are kept.
    pub(crate) fn keep_event(&mut self, event: &Event) -> Result<(), AllocError>
        ensures innermost { self.new.innermost ≡ self.old.innermost }
        ensures round { self.new.round ≡ self.old.round }
        ensures text { self.new.text ≡ self.old.text }
        ensures checks { self.new.checks ≡ self.old.checks }
        ensures bare { self.old.pieces ≡ None → self.new.pieces ≡ None }
        ensures shown { (m : Message ℕ) (ls : List (Level ℕ)) → IsOpen self.old m ls → HasSortedAttributes (item_of event.now.what)
            → OnOk result (GoOn self.old.pieces self.new.pieces (λ s t. t ≡ with_event ls (item_of event.now.what) s)) }
    {
        if self.pieces.is_none() {
            return Ok(());
        }
        if !is_within(self.innermost, &event.what) {
            return Ok(());
        }
        inside(&mut self.pieces, event)
    }

    /// Whether the names of tags have to be known whole: where one may begin the element of an envelope, or is written
    /// in another namespace than the default so far.
    pub(crate) fn keeps_names(&self) -> bool
        ensures { result ≡ false → MayShow self.now.pieces self.now.innermost }
    {
        let Some(pieces) = &self.pieces else {
            return false;
        };
        match self.innermost {
            Some(Opened::Foreign) => !pieces.is_in_default(),
            Some(Opened::Envelope { .. }) => true,
            None | Some(Opened::Text | Opened::Parent { .. }) => false,
        }
    }

    /// Keeps a tag of an element in an envelope, where pieces are kept.
    pub(crate) fn keep_tag(&mut self, kind: TagKind, name: &[u8]) -> Result<(), AllocError>
        ensures innermost { self.new.innermost ≡ self.old.innermost }
        ensures round { self.new.round ≡ self.old.round }
        ensures text { self.new.text ≡ self.old.text }
        ensures checks { self.new.checks ≡ self.old.checks }
        ensures bare { self.old.pieces ≡ None → self.new.pieces ≡ None }
        ensures shown { (m : Message ℕ) (ls : List (Level ℕ)) (n : Expanded) → n.local ≡ name.now → IsOpen self.old m ls → MayShowName self.old.pieces self.old.innermost n
            → OnOk result (GoOn self.old.pieces self.new.pieces (λ s t. t ≡ with_events ls (tag_items kind n) s)) }
    {
        match self.innermost {
            Some(Opened::Foreign) => inside_tag(&mut self.pieces, kind, name),
            None | Some(Opened::Text | Opened::Envelope { .. } | Opened::Parent { .. }) => Ok(()),
        }
    }

    /// The innermost element ends, where pieces are kept.
    #[inline(always)]
    pub(crate) fn close_innermost(&mut self) -> Result<(), AllocError>
        ensures innermost { self.new.innermost ≡ self.old.innermost }
        ensures round { self.new.round ≡ self.old.round }
        ensures text { self.new.text ≡ self.old.text }
        ensures checks { self.new.checks ≡ self.old.checks }
        ensures bare { self.old.pieces ≡ None → self.new.pieces ≡ None }
        ensures out { self.old.innermost ≡ None → IsOk result × (self.new.pieces ≡ self.old.pieces) }
        ensures shown { (m : Message ℕ) (text : Option OpenTextType) (l : Level ℕ) (e : OpenedType) → self.old.innermost ≡ Some e → StandsFor m text e l
            → OnOk result (GoOn self.old.pieces self.new.pieces (λ s t. t ≡ with_end l s)) }
    {
        match self.innermost {
            None | Some(Opened::Foreign) => Ok(()),
            Some(Opened::Text | Opened::Envelope { .. } | Opened::Parent { .. }) => {
                close(&mut self.pieces)
            }
        }
    }
}

/// Whether an event is one of the element of an envelope.
fn is_within(innermost: Option<Opened>, what: &What) -> bool
    ensures { result ≡ is_within innermost (item_of what.now) }
{
    match innermost {
        Some(Opened::Foreign) => !matches!(what, What::Skipped),
        Some(Opened::Envelope { .. }) => matches!(what, What::Start { .. }),
        None | Some(Opened::Text | Opened::Parent { .. }) => false,
    }
}
