//! What is told of a message that breaks a rule.
ghost use Rattle.std.specs.Prelude.{◌≡◌, None, OnOk, IfErr};
ghost use Rattle.reference_check.specs.inner.First.{IsPlaceOf, TellsFirst};
ghost use Rattle.reference_check.specs.Graph.{Place};
ghost use Rattle.reference_check.specs.Reached.{place_id};
ghost use Rattle.reference_check.specs.Rules.{Rule, object_rule_number};
ghost use Rattle.reference_check.specs.inner.Told.{IsRefusal, TellsRule};

use crate::breaker::Breaker;
use crate::reached::ReadyError;
use lexical_core::Text;
use repo_objects::Repository;
use std::alloc::Global;

/// The refusal by the rule of that number, for the object of that id or the message of that identifier.
pub(crate) fn refusal(alloc: Global, rule: u8, object: &[u8]) -> ReadyError
    ensures { IsRefusal rule object.now result }
{
    let mut copy = Text::new(alloc);
    match copy.extend(object) {
        Ok(()) => ReadyError::Broken { rule, object: copy },
        Err(_) => ReadyError::Memory,
    }
}

/// Refuses the message of that identifier where something breaks the rule of that number.
pub(crate) fn refuse_broken(
    alloc: Global,
    repository: &Repository,
    message: &[u8],
    rule: u8,
    first: Option<Breaker>,
) -> Result<(), ReadyError>
    ensures sound { (r : Rule) → TellsFirst repository.now message.now r first → OnOk result (TellsFirst repository.now message.now r None) }
    ensures told { (r : Rule) → rule ≡ object_rule_number r → TellsFirst repository.now message.now r first → IfErr result (TellsRule repository.now message.now r) }
{
    match first {
        Some(breaker) => Err(refusal(alloc, rule, id_of(repository, message, breaker))),
        None => Ok(()),
    }
}

/// The id of an object, or the identifier of the message.
fn id_of<'a>(repository: &'a Repository, message: &'a [u8], breaker: Breaker) -> &'a [u8]
    ensures { (p : Place) → IsPlaceOf repository.now breaker p → result.now ≡ place_id message.now p }
{
    match breaker {
        Breaker::Object(at) => match repository.object_at(at) {
            Some((id, _)) => id,
            None => message,
        },
        Breaker::Message => message,
    }
}
