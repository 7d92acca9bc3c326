//! What a message reaches.
ghost use Rattle.std.specs.Prelude.{◌≡◌, ◌<◌, ◌↔◌, ℕ, List, [], Some, OnOk, IfOk, IfErr, AllPairs, Contains, slice_get, length};
ghost use Rattle.repo_objects.specs.declared.objects.MessageDef.{MessageDef};
ghost use Rattle.reference_check.specs.Graph.{message, find_message};
ghost use Rattle.reference_check.specs.inner.Marking.{IsObjectMarked, AreMarks, LeadsWithin};
ghost use Rattle.reference_check.specs.Reached.{HasReach, TellsBroken};
ghost use Rattle.reference_check.specs.Rules.{IsSound, IsStructure};

use crate::finite::first_endless;
use crate::marks::Marks;
use crate::messages::only_message;
use crate::reached::{Places, Reach, ReadyError};
use crate::refusal::refuse_broken;
use crate::structure::refuse_structure;
use crate::subject::Subject;
use repo_objects::{MessageDef, MessageId, Repository};
use std::alloc::{AllocError, Global};

/// What the message of that identifier reaches, as places from 0 in file order, where it breaks none of the
/// rules M1 to M11. `Broken` tells the lowest rule that is broken and the first object in file order that
/// breaks it, the message behind all objects; `Memory` that there was no memory to follow references.
pub fn reach(alloc: Global, repository: &Repository, id: &MessageId) -> Result<Reach, ReadyError>
    ensures reached { IfOk result (λ r. HasReach repository.now id.now r) }
    ensures sound { OnOk result (IsSound repository.now id.now IsStructure) }
    ensures broken { IfErr result (λ e. TellsBroken repository.now id.now IsStructure e) }
{
    let message = id.bytes();
    let (at, definition) = only_message(alloc, repository, message)?;
    let reach = reach_of(alloc, repository, at, definition)?;
    refuse_structure(alloc, repository, message, &reach)?;
    let endless = first_endless(alloc, repository, &reach)?;
    match refuse_broken(alloc, repository, message, 11, endless) {
        Ok(()) => Ok(reach),
        Err(error) => Err(error),
    }
}

/// What the message at that place reaches.
fn reach_of(
    alloc: Global,
    repository: &Repository,
    at: usize,
    definition: &MessageDef,
) -> Result<Reach, AllocError>
    ensures { (m : List ℕ) → slice_get repository.now.messages at ≡ Some definition.now → find_message m repository.now.messages ≡ Some definition.now → IfOk result (HasReach repository.now m) }
{
    let marks = marks_of(alloc, repository, definition)?;
    let objects = marked_places(alloc, marks.marked.as_slice())?;
    Ok(Reach {
        message: at,
        objects,
    })
}

/// The marks of what the message reaches.
fn marks_of(
    alloc: Global,
    repository: &Repository,
    definition: &MessageDef,
) -> Result<Marks, AllocError>
    ensures long { IfOk result (λ s. length s.marked.items ≡ length repository.now.objects) }
    ensures marks { (m : List ℕ) → find_message m repository.now.messages ≡ Some definition.now → IfOk result (λ s. AreMarks repository.now m [] s.marked.items [] × LeadsWithin repository.now m s.marked.items message) }
{
    let mut marks = Marks::new(alloc, repository.object_count())?;
    marks.mark_targets(repository, &Subject::Message(definition))?;
    marks.follow(repository)?;
    Ok(marks)
}

/// The places that are marked, in their order.
fn marked_places(alloc: Global, marked: &[bool]) -> Result<Places, AllocError>
    ensures rising { IfOk result (AllPairs (λ i j. i < j)) }
    ensures places { IfOk result (λ places. (k : ℕ) → Contains places k ↔ IsObjectMarked marked.now k) }
{
    let mut places = Places::new(alloc);
    for (at, is_marked) in marked.iter().enumerate() {
        if *is_marked {
            places.push(at)?;
        }
    }
    Ok(places)
}
