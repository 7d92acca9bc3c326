//! The compiled types of a message of a repository.
ghost use Rattle.std.specs.Prelude.{ℕ, List, IfOk, IfErr, OnOk};
ghost use Rattle.reference_check.specs.Reached.{HasReach};
ghost use Rattle.message_model.specs.Ready.{IsReady, TellsRefused};
ghost use Rattle.message_model.specs.Compiled.{IsReachedList, Compiles};

use crate::facet_checks::check_facets;
use crate::model::Model;
use crate::object_types::all_types;
use reference_check::{Reach, ReadyError, reach, tail};
use repo_objects::{MessageId, Repository};
use std::alloc::{AllocError, Global};

impl Model {
    /// The types of the message, or the lowest rule that it breaks, with the first object in file order that breaks it,
    /// the message behind all objects. Type 0 is `Document`, type 1 the message; the objects that it reaches follow in
    /// file order.
    pub fn compile(
        alloc: Global,
        repository: &Repository,
        id: &MessageId,
    ) -> Result<Model, ReadyError>
        ensures compiled { IfOk result (λ M. (ids : List (List ℕ)) × IsReachedList repository.now id.now ids × Compiles repository.now id.now ids M) }
        ensures ready { OnOk result (IsReady repository.now id.now) }
        ensures refused { IfErr result (λ e. TellsRefused repository.now id.now e) }
    {
        let reached = match reach(alloc, repository, id) {
            Ok(reached) => reached,
            Err(error) => return Err(error),
        };
        if let Err(error) = check_facets(alloc, repository, &reached) {
            return Err(error);
        }
        if let Err(error) = tail(alloc, repository, &reached) {
            return Err(error);
        }
        match build(alloc, repository, id, &reached) {
            Ok(model) => Ok(model),
            Err(_) => Err(ReadyError::Memory),
        }
    }
}

/// The types of a message that breaks no rule.
fn build(
    alloc: Global,
    repository: &Repository,
    id: &MessageId,
    reached: &Reach,
) -> Result<Model, AllocError>
    requires reached { HasReach repository.now id.now reached.now }
    requires ready { IsReady repository.now id.now }
    ensures { IfOk result (λ M. (ids : List (List ℕ)) × IsReachedList repository.now id.now ids × Compiles repository.now id.now ids M) }
{
    Ok(Model {
        id: *id,
        types: all_types(alloc, repository, reached)?,
    })
}
