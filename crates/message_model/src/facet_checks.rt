//! Which reached object breaks a rule on facets or patterns first.
ghost use Rattle.std.specs.Prelude.{◌<◌, ℕ, List, IfOk, IfErr, OnOk};
ghost use Rattle.reference_check.specs.Reached.{IsReachFor};
ghost use Rattle.message_model.specs.FacetRules.{HasBadFacets};
ghost use Rattle.message_model.specs.Ready.{HasBadPattern, TellsRefused, HasGoodFacets};
ghost use Rattle.message_model.specs.inner.FirstPlaces.{TellsPlace, TellsEntry};

use crate::facet_rules::has_bad_facets;
use crate::patterns::has_bad_pattern;
use lexical_core::Text;
use reference_check::{Reach, ReadyError};
use repo_objects::Repository;
use std::alloc::{AllocError, Global};

/// The number of the rule on facets.
const FACETS: u8 = 12;

/// The number of the rule on patterns.
const PATTERN: u8 = 13;

/// Whether no reached object has facets out of bounds or a bad pattern; else the first that breaks the lower rule.
pub(crate) fn check_facets(
    alloc: Global,
    repository: &Repository,
    reach: &Reach,
) -> Result<(), ReadyError>
    requires { (m : List ℕ) × IsReachFor repository.now m reach.now }
    ensures good { (m : List ℕ) → IsReachFor repository.now m reach.now → OnOk result (HasGoodFacets repository.now m) }
    ensures refused { (m : List ℕ) → IsReachFor repository.now m reach.now → IfErr result (λ e. TellsRefused repository.now m e) }
{
    let _count = repository.object_count(); // shows the proof that ids are apart
    let places = reach.objects.as_slice();
    if let Some(place) = first_bad_facets(repository, places) {
        return Err(broken(alloc, repository, FACETS, place));
    }
    match first_bad_pattern(alloc, repository, places) {
        Ok(None) => Ok(()),
        Ok(Some(place)) => Err(broken(alloc, repository, PATTERN, place)),
        Err(_) => Err(ReadyError::Memory),
    }
}

/// The error that tells the rule, and the id of the object at that place.
fn broken(alloc: Global, repository: &Repository, rule: u8, place: usize) -> ReadyError
    ensures { TellsEntry repository.now.objects rule place result }
{
    let Some((id, _)) = repository.object_at(place) else {
        return ReadyError::Memory;
    };
    let mut object = Text::new(alloc);
    match object.extend(id) {
        Ok(()) => ReadyError::Broken { rule, object },
        Err(_) => ReadyError::Memory,
    }
}

/// The first of these places whose object has facets out of bounds.
fn first_bad_facets(repository: &Repository, places: &[usize]) -> Option<usize>
    ensures { TellsPlace HasBadFacets repository.now.objects places.now result }
{
    for place in places {
        if let Some((_, object)) = repository.object_at(*place) {
            if has_bad_facets(object) {
                return Some(*place);
            }
        }
    }
    None
}

/// The first of these places whose object has a bad pattern.
fn first_bad_pattern(
    alloc: Global,
    repository: &Repository,
    places: &[usize],
) -> Result<Option<usize>, AllocError>
    ensures { IfOk result (λ place. TellsPlace HasBadPattern repository.now.objects places.now place) }
{
    for place in places {
        if let Some((_, object)) = repository.object_at(*place) {
            if has_bad_pattern(alloc, object)? {
                return Ok(Some(*place));
            }
        }
    }
    Ok(None)
}
