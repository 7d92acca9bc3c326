//! The message of an identifier.
ghost use Rattle.std.specs.Prelude.{◌≡◌, IfSome, IfNone, IfOk, IfErr, OnOk, Some, None, true, false, slice_get, count_by};
ghost use Rattle.std.specs.Str.{bytes_eq};
ghost use Rattle.repo_objects.specs.declared.objects.MessageDef.{MessageDef};
ghost use Rattle.reference_check.specs.Graph.{find_message};
ghost use Rattle.reference_check.specs.Reached.{TellsBroken};
ghost use Rattle.reference_check.specs.Rules.{is_message_named, IsStructure};
ghost use Rattle.reference_check.specs.inner.Told.{IsSoundBelow};

use crate::reached::ReadyError;
use crate::refusal::refusal;
use repo_objects::{MessageDef, Repository};
use std::alloc::Global;

/// The message of that identifier and its place, where there is one and no other.
pub(crate) fn only_message<'a>(
    alloc: Global,
    repository: &'a Repository,
    id: &[u8],
) -> Result<(usize, &'a MessageDef), ReadyError>
    ensures message { IfOk result (λ r. (slice_get repository.now.messages r.0 ≡ Some r.1.now) × (find_message id.now repository.now.messages ≡ Some r.1.now)) }
    ensures sound { OnOk result (IsSoundBelow repository.now id.now 3) }
    ensures broken { IfErr result (TellsBroken repository.now id.now IsStructure) }
{
    let Some(found) = first_message(repository, id) else {
        return Err(refusal(alloc, 1, id));
    };
    if message_count(repository, id) >= 2 {
        return Err(refusal(alloc, 2, id));
    }
    Ok(found)
}

/// The first message of that identifier and its place.
fn first_message<'a>(repository: &'a Repository, id: &[u8]) -> Option<(usize, &'a MessageDef)>
    ensures some { IfSome result (λ r. (slice_get repository.now.messages r.0 ≡ Some r.1.now) × (find_message id.now repository.now.messages ≡ Some r.1.now)) }
    ensures none { IfNone result (find_message id.now repository.now.messages ≡ None) }
{
    for at in 0..repository.message_count() {
        if let Some(message) = named_at(repository, at, id) {
            return Some((at, message));
        }
    }
    None
}

/// How many messages have that identifier.
fn message_count(repository: &Repository, id: &[u8]) -> usize
    ensures { result ≡ count_by (is_message_named id.now) repository.now.messages }
{
    let mut count = 0;
    for at in 0..repository.message_count() {
        if named_at(repository, at, id).is_some() {
            count += 1;
        }
    }
    count
}

/// The message at that place, if it has that identifier.
fn named_at<'a>(repository: &'a Repository, at: usize, id: &[u8]) -> Option<&'a MessageDef>
    ensures some { IfSome result (λ d. (slice_get repository.now.messages at ≡ Some d.now) × (bytes_eq d.now.id id.now ≡ true)) }
    ensures none { IfNone result ((d : MessageDef) → slice_get repository.now.messages at ≡ Some d → bytes_eq d.id id.now ≡ false) }
{
    let message = repository.message_at(at)?;
    if message.id.bytes() == id {
        Some(message)
    } else {
        None
    }
}
