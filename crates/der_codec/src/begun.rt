//! The component that begins in a run, where it is of the usual form: a header of one identifier octet and one length octet.
ghost use Rattle.std.specs.Prelude.{◌≡◌, ◌+◌, ◌<◌, ◌≤◌, ◌^◌, ℕ, List, IfSome, length};
ghost use Rattle.lexical_core.specs.Tree.{Tree};
ghost use Rattle.der_octets.specs.TagSteps.{tag_view};
ghost use Rattle.message_model.specs.Tables.{types_of, message_of};
ghost use Rattle.der_model.specs.DerMessage.{der_message, in_der};
ghost use Rattle.der_model.specs.States as states;
ghost use Rattle.der_model.specs.States.{level_answer};
ghost use Rattle.der_codec.specs.Components.{IsFound};
ghost use Rattle.der_codec.specs.Levels.{IsLevel};
ghost use Rattle.der_codec.specs.Decoding.{HasReadParts, IsFresh};
ghost use Rattle.der_codec.specs.inner.Entering.{HasBegunComponent};
ghost use Rattle.der_codec.specs.inner.KeptRuns.{decoder_at};
ghost use Rattle.der_codec.specs.inner.Runs.{IsOneOctet};

use crate::components::{Field, Found, field_begun, identify};
use crate::decoder::Decoder;
use crate::headers::advanced;
use crate::level::{Level, Spot};
use crate::usual::{Run, one_octet};
use der_octets::Identifier;
use message_model::Model;

/// A component that begins, and fits into the innermost open value.
#[derive(Clone, Copy, Debug)]
pub(crate) struct Begun {
    /// The innermost open value, in which the component has come.
    pub(crate) around: Level,
    pub(crate) spot: Spot,
    pub(crate) constructed: bool,
    /// The place where its contents end.
    pub(crate) end: u64,
}

impl Decoder {
    /// The component of which these are the header, an identifier octet and a length octet, where they are the last of
    /// their parts and nothing is refused.
    #[inline(always)]
    pub(crate) fn begun(&self, run: Run, model: &Model, first: u8, second: u8) -> Option<Begun>
        requires room { run.place + 2 ≤ 2 ^ 40 }
        requires some { 0 < length self.now.levels.items }
        requires fresh { IsFresh self.now.due }
        requires low { run.place < run.level.end }
        requires read { (bytes : List ℕ) × HasReadParts (der_message model.now) (decoder_at self.now run) bytes }
        ensures begun { (bytes : List ℕ) → HasReadParts (der_message model.now) (decoder_at self.now run) bytes → IfSome result (λ b. HasBegunComponent (der_message model.now) (decoder_at self.now run) bytes first second b) }
    {
        if second >= 128 {
            return None;
        }
        match one_octet(first) {
            None => None,
            Some(id) => self.begun_as(run, model, id, first, second),
        }
    }

    /// The same of an identifier of which the first octet is the only one.
    #[inline(always)]
    fn begun_as(
        &self,
        run: Run,
        model: &Model,
        id: Identifier,
        first: u8,
        second: u8,
    ) -> Option<Begun>
        requires room { run.place + 2 ≤ 2 ^ 40 }
        requires short { second < 128 }
        requires id { IsOneOctet first id }
        requires some { 0 < length self.now.levels.items }
        requires fresh { IsFresh self.now.due }
        requires low { run.place < run.level.end }
        requires read { (bytes : List ℕ) × HasReadParts (der_message model.now) (decoder_at self.now run) bytes }
        ensures begun { (bytes : List ℕ) → HasReadParts (der_message model.now) (decoder_at self.now run) bytes → IfSome result (λ b. HasBegunComponent (der_message model.now) (decoder_at self.now run) bytes first second b) }
    {
        let _ = first;
        let level = run.level;
        match field_found(model, &level, id) {
            None => None,
            Some(field) => {
                let end = run.place + 2 + second as u64;
                if level.end < end {
                    return None;
                }
                Some(Begun {
                    around: advanced(level, field.number),
                    spot: field.spot,
                    constructed: id.constructed,
                    end,
                })
            }
        }
    }
}

/// What identifier octets are in an open value, where they break no rule.
#[inline(always)]
pub(crate) fn field_found(model: &Model, level: &Level, id: Identifier) -> Option<Field>
    ensures { IfSome result (λ field. (fragment : Tree → List ℕ) (l : states.DerLevel ℕ) → IsLevel (types_of model.now) level.now l
        → IsFound (types_of model.now) (Found.Begins field.number field.spot) (level_answer (in_der fragment (message_of model.now)) l id.constructed (tag_view id))) }
{
    if let Some(field) = field_begun(model, level, id) {
        return Some(field);
    }
    match identify(model, level, id) {
        Found::Breaks { rule: _, added: _ } => None,
        Found::Begins { number, spot } => Some(Field { number, spot }),
    }
}
