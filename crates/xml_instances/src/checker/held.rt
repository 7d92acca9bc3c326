//! A tag without attributes, held to the message; the refusal of one is told apart from the answer.
ghost use Rattle.std.specs.Prelude.{◌≡◌};
ghost use Rattle.message_model.specs.Tables.{types_of};
ghost use Rattle.message_model.specs.declared.fault.InstanceError.TheVariants.{Memory};
ghost use Rattle.xml_instances.specs.Open.{AreMade};
ghost use Rattle.xml_instances.specs.inner.Fronts.{HoldsTag};

use super::{Stopped, told};
use crate::content::Content;
use markup::TagKind;
use message_model::{InstanceError, Model};

/// Holds a tag to the message, whose name is in the namespace of the innermost element. Where it is
/// refused `stop` says why.
#[inline(always)]
pub(super) fn hold_tag(
    content: &mut Content,
    model: &Model,
    kind: TagKind,
    name: &[u8],
    place: u64,
    stop: &mut InstanceError,
) -> Result<(), Stopped>
    requires made { AreMade (types_of model.now) content.old }
    requires none { stop.old ≡ Memory }
    ensures { HoldsTag model.now content.old content.new kind name.now place result stop.new }
{
    match content.pass_tag(model, kind, name) {
        Ok(done) => {
            if done {
                return Ok(());
            }
            hold_any_tag(content, model, kind, name, place, stop)
        }
        Err(_) => Err(Stopped),
    }
}

/// The same of any tag.
#[inline(never)]
fn hold_any_tag(
    content: &mut Content,
    model: &Model,
    kind: TagKind,
    name: &[u8],
    place: u64,
    stop: &mut InstanceError,
) -> Result<(), Stopped>
    requires made { AreMade (types_of model.now) content.old }
    requires none { stop.old ≡ Memory }
    ensures { HoldsTag model.now content.old content.new kind name.now place result stop.new }
{
    match content.take_any_tag(model, kind, name) {
        Ok(()) => Ok(()),
        Err(refusal) => {
            *stop = told(refusal, place);
            Err(Stopped)
        }
    }
}
