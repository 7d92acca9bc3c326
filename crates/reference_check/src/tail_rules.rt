//! The rules that are asked once the structure of a message is sound.
ghost use Rattle.std.specs.Prelude.{◌≡◌, ℕ, ◌<◌, List, length, Some, None, IsTrue, ◌↔◌, OnOk, IfErr};
ghost use Rattle.repo_objects.specs.declared.objects.ObjectKind.TheVariants.{Simple};
ghost use Rattle.reference_check.specs.inner.First.{IsPlaceOf, TellsFirst};
ghost use Rattle.reference_check.specs.Graph.{Place};
ghost use Rattle.reference_check.specs.inner.Ranks.{StandsAt, IsLeftOut};
ghost use Rattle.reference_check.specs.Reached.{HasReach, IsReachFor, TellsBroken, place_id};
ghost use Rattle.reference_check.specs.Rules.{Rule, object_rule_number, LeftOutKind, HasNoPatterns, IsSound, IsTailRule};
ghost use Rattle.reference_check.specs.inner.Told.{TellsRule};

use crate::breaker::Breaker;
use crate::code_rule::first_bad_codes;
use crate::counts::first_too_many;
use crate::reached::{Reach, ReadyError};
use crate::schema_names::first_name_twice;
use lexical_core::Text;
use repo_objects::{Kinds, Object, ObjectKind, Repository};
use std::alloc::Global;

/// Whether the message breaks one of the rules M14 to M17, of what `reach` found of it. `Broken` tells
/// the lowest rule that is broken, and the first object in file order that breaks it, the message
/// behind all objects; `Memory` that there was no memory to ask the rules.
pub fn tail(alloc: Global, repository: &Repository, reach: &Reach) -> Result<(), ReadyError>
    requires { (m : List ℕ) × IsReachFor repository.now m reach.now }
    ensures sound { (m : List ℕ) → IsReachFor repository.now m reach.now → OnOk result (IsSound repository.now m IsTailRule) }
    ensures broken { (m : List ℕ) → IsReachFor repository.now m reach.now → IfErr result (λ e. TellsBroken repository.now m IsTailRule e) }
{
    if let Some(breaker) = first_bad_codes(alloc, repository, reach)? {
        return Err(refusal(alloc, repository, reach, 14, breaker));
    }
    if let Some(breaker) = first_left_out(repository, reach) {
        return Err(refusal(alloc, repository, reach, 15, breaker));
    }
    if let Some(breaker) = first_name_twice(alloc, repository, reach)? {
        return Err(refusal(alloc, repository, reach, 16, breaker));
    }
    if let Some(breaker) = first_too_many(alloc, repository, reach)? {
        return Err(refusal(alloc, repository, reach, 17, breaker));
    }
    Ok(())
}

/// The error that tells the number of the rule and what breaks it.
fn refusal(
    alloc: Global,
    repository: &Repository,
    reach: &Reach,
    rule: u8,
    breaker: Breaker,
) -> ReadyError
    requires { (m : List ℕ) × (r : Rule) × HasReach repository.now m reach.now × TellsFirst repository.now m r (Some breaker) }
    ensures { (m : List ℕ) (r : Rule) → HasReach repository.now m reach.now → TellsFirst repository.now m r (Some breaker) → rule ≡ object_rule_number r → TellsRule repository.now m r result }
{
    let mut object = Text::new(alloc);
    if object
        .extend(breaker_id(repository, reach, breaker))
        .is_err()
    {
        return ReadyError::Memory;
    }
    ReadyError::Broken { rule, object }
}

/// The id of the object, or the identifier of the message.
fn breaker_id<'a>(repository: &'a Repository, reach: &Reach, breaker: Breaker) -> &'a [u8]
    requires { (m : List ℕ) × (p : Place) × HasReach repository.now m reach.now × IsPlaceOf repository.now breaker p }
    ensures { (m : List ℕ) (p : Place) → HasReach repository.now m reach.now → IsPlaceOf repository.now breaker p → result.now ≡ place_id m p }
{
    match breaker {
        Breaker::Object(at) => repository.object_at(at).unwrap().0,
        Breaker::Message => repository.message_at(reach.message).unwrap().id.bytes(),
    }
}

/// The object at that place.
pub(crate) fn object_in(repository: &Repository, at: usize) -> &Object
    requires { at < length repository.now.objects }
    ensures { StandsAt repository.now at result.now }
{
    repository.object_at(at).unwrap().1
}

/// The first object of a kind that is left out, or with a pattern that its kind may not have.
fn first_left_out(repository: &Repository, reach: &Reach) -> Option<Breaker>
    requires { (m : List ℕ) × HasReach repository.now m reach.now }
    ensures { (m : List ℕ) → HasReach repository.now m reach.now → TellsFirst repository.now m LeftOutKind result }
{
    for at in reach.objects.as_slice() {
        if is_left_out(object_in(repository, *at)) {
            return Some(Breaker::Object(*at));
        }
    }
    None
}

/// Whether the kind of the object is left out, or may not have the pattern that the object has.
fn is_left_out(object: &Object) -> bool
    ensures { IsTrue result ↔ IsLeftOut object.now }
{
    match object.kind {
        ObjectKind::Other => true,
        ObjectKind::Simple(kind) => has_no_patterns(kind) && object.facets.pattern.is_some(),
        _ => false,
    }
}

/// Whether texts of the kind have no pattern.
pub(crate) fn has_no_patterns(kind: Kinds) -> bool
    ensures { IsTrue result ↔ HasNoPatterns (Simple kind) }
{
    matches!(
        kind,
        Kinds::Amount | Kinds::Rate | Kinds::Quantity | Kinds::Indicator | Kinds::Binary
    )
}
