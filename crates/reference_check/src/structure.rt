//! The rules of structure that each reached object, and the message, is asked by itself.
ghost use Rattle.std.specs.Prelude.{◌≡◌, ◌↔◌, ◌+◌, ℕ, List, IsTrue, IfSome, IfNone, IfOk, IfErr, OnOk, Some, slice_get};
ghost use Rattle.repo_objects.specs.declared.objects.MessageDef.{MessageDef};
ghost use Rattle.repo_objects.specs.Repository.{DictionaryEntry, IsRepository};
ghost use Rattle.reference_check.specs.inner.First.{TellsFirst};
ghost use Rattle.reference_check.specs.Graph.{message, entry, find_message};
ghost use Rattle.reference_check.specs.Reached.{HasReach, TellsBroken};
ghost use Rattle.reference_check.specs.Rules.{object_rule_number, Breaks, IsStructure};
ghost use Rattle.reference_check.specs.inner.Subjects.{BreaksStructureRule, asked_rule};
ghost use Rattle.reference_check.specs.inner.Told.{IsSoundBelow};

use crate::breaker::Breaker;
use crate::names::{has_bad_name, has_tag_twice};
use crate::occurrences::{has_bad_bounds, has_no_alternatives, has_optional_alternative};
use crate::reached::{Reach, ReadyError};
use crate::references::{has_bad_currency, has_dangling, names_not_one};
use crate::refusal::refuse_broken;
use crate::subject::Subject;
use repo_objects::Repository;
use std::alloc::{AllocError, Global};

/// A rule of structure that a reached object, or the message, is asked by itself.
#[derive(Clone, Copy, Debug, PartialEq, Eq)]
pub(crate) enum StructureRule {
    /// A reference names no object.
    Dangling,
    /// The values of a set of currencies are no texts.
    BadCurrency,
    /// An element does not name one object.
    NotOneReference,
    /// A name or a tag has not the form of one.
    BadName,
    /// Two elements have one tag.
    TagTwice,
    /// A minimum is above its maximum, or a maximum is 0.
    BadBounds,
    /// An alternative of a choice may be left out.
    OptionalAlternative,
    /// A choice has no alternatives.
    NoAlternatives,
}

impl StructureRule {
    /// The number that is printed.
    pub(crate) fn number(self) -> u8
        ensures { result ≡ object_rule_number (asked_rule self) }
    {
        match self {
            StructureRule::Dangling => 3,
            StructureRule::BadCurrency => 4,
            StructureRule::NotOneReference => 5,
            StructureRule::BadName => 6,
            StructureRule::TagTwice => 7,
            StructureRule::BadBounds => 8,
            StructureRule::OptionalAlternative => 9,
            StructureRule::NoAlternatives => 10,
        }
    }

    /// The rule of the next number; `None` behind the last.
    pub(crate) fn next(self) -> Option<StructureRule>
        ensures next { IfSome result (λ r. object_rule_number (asked_rule r) ≡ object_rule_number (asked_rule self) + 1) }
        ensures last { IfNone result (object_rule_number (asked_rule self) ≡ 10) }
    {
        match self {
            StructureRule::Dangling => Some(StructureRule::BadCurrency),
            StructureRule::BadCurrency => Some(StructureRule::NotOneReference),
            StructureRule::NotOneReference => Some(StructureRule::BadName),
            StructureRule::BadName => Some(StructureRule::TagTwice),
            StructureRule::TagTwice => Some(StructureRule::BadBounds),
            StructureRule::BadBounds => Some(StructureRule::OptionalAlternative),
            StructureRule::OptionalAlternative => Some(StructureRule::NoAlternatives),
            StructureRule::NoAlternatives => None,
        }
    }

    /// Whether it is broken.
    fn is_broken(
        self,
        alloc: Global,
        repository: &Repository,
        subject: &Subject<'_>,
    ) -> Result<bool, AllocError>
        ensures { IfOk result (λ broken. IsTrue broken ↔ BreaksStructureRule repository.now self subject.now) }
    {
        match self {
            StructureRule::Dangling => Ok(has_dangling(repository, subject)),
            StructureRule::BadCurrency => Ok(has_bad_currency(repository, subject)),
            StructureRule::NotOneReference => Ok(names_not_one(subject.elements())),
            StructureRule::BadName => Ok(has_bad_name(subject)),
            StructureRule::TagTwice => has_tag_twice(alloc, subject.elements()),
            StructureRule::BadBounds => Ok(has_bad_bounds(subject.elements())),
            StructureRule::OptionalAlternative => Ok(has_optional_alternative(subject)),
            StructureRule::NoAlternatives => Ok(has_no_alternatives(subject)),
        }
    }

    /// Whether the object at that place breaks it.
    fn is_broken_at(
        self,
        alloc: Global,
        repository: &Repository,
        at: usize,
    ) -> Result<bool, AllocError>
        ensures whole { IsRepository repository.now }
        ensures broken { (m : List ℕ) (e : DictionaryEntry) → slice_get repository.now.objects at ≡ Some e → IfOk result (λ broken. IsTrue broken ↔ Breaks repository.now m (asked_rule self) (entry e.id)) }
    {
        match repository.object_at(at) {
            Some((_, object)) => self.is_broken(alloc, repository, &Subject::Entry(object)),
            None => Ok(false),
        }
    }

    /// Whether the message at that place breaks it.
    fn is_broken_by_message(
        self,
        alloc: Global,
        repository: &Repository,
        at: usize,
    ) -> Result<bool, AllocError>
        ensures { (m : List ℕ) (d : MessageDef) → slice_get repository.now.messages at ≡ Some d → find_message m repository.now.messages ≡ Some d → IfOk result (λ broken. IsTrue broken ↔ Breaks repository.now m (asked_rule self) message) }
    {
        match repository.message_at(at) {
            Some(definition) => self.is_broken(alloc, repository, &Subject::Message(definition)),
            None => Ok(false),
        }
    }

    /// What breaks it first, of what is reached.
    fn first_breaking(
        self,
        alloc: Global,
        repository: &Repository,
        reach: &Reach,
    ) -> Result<Option<Breaker>, AllocError>
        ensures { (m : List ℕ) → HasReach repository.now m reach.now → IfOk result (TellsFirst repository.now m (asked_rule self)) }
    {
        for at in reach.objects.as_slice() {
            if self.is_broken_at(alloc, repository, *at)? {
                return Ok(Some(Breaker::Object(*at)));
            }
        }
        if self.is_broken_by_message(alloc, repository, reach.message)? {
            return Ok(Some(Breaker::Message));
        }
        Ok(None)
    }
}

/// Refuses the message of that identifier where what it reaches breaks one of these rules: the lowest, and
/// in it what breaks it first.
pub(crate) fn refuse_structure(
    alloc: Global,
    repository: &Repository,
    message: &[u8],
    reach: &Reach,
) -> Result<(), ReadyError>
    ensures sound { HasReach repository.now message.now reach.now → IsSoundBelow repository.now message.now 3 → OnOk result (IsSoundBelow repository.now message.now 11) }
    ensures broken { HasReach repository.now message.now reach.now → IsSoundBelow repository.now message.now 3 → IfErr result (TellsBroken repository.now message.now IsStructure) }
{
    let mut next = Some(StructureRule::Dangling);
    while let Some(rule) = next {
        let first = rule.first_breaking(alloc, repository, reach)?;
        if let Err(error) = refuse_broken(alloc, repository, message, rule.number(), first) {
            return Err(error);
        }
        next = rule.next();
    }
    Ok(())
}
