//! Which reached objects have a finite instance.
ghost use Rattle.std.specs.Prelude.{◌≡◌, ℕ, ◌+◌, ◌≤◌, ◌<◌, ◌↔◌, List, [], ◌∷◌, ◌++◌, length, slice_get, slice_set, replicate, IsTrue, IfOk, OnOk};
ghost use Rattle.reference_check.specs.Reached.{HasReach};
ghost use Rattle.reference_check.specs.Rules.{IsSound, IsBelowEndless, Endless};
ghost use Rattle.reference_check.specs.inner.First.{TellsFirst};
ghost use Rattle.reference_check.specs.inner.FiniteSearch.{IsFoundAt, TellsFree, TellsSomeFree, TellsBlocked, TellsHeld, AreListed, free_of, open_marks, AreStart, IsSearch, HoldsReached, TellsFirstOpen, TellsMessage};

use crate::breaker::Breaker;
use crate::reached::{Places, Reach};
use crate::users::{target_of, users_of};
use repo_objects::{ElementDef, Object, ObjectKind, Repository};
use std::alloc::{AllocError, Global};

/// What the search knows of the object at a place.
#[derive(Clone, Copy, Debug, PartialEq, Eq)]
enum Mark {
    /// The message does not reach it.
    Unreached,
    /// No finite instance was found. So many of its elements, from the first, do not keep it from having one.
    Open(usize),
    /// It has a finite instance.
    Finite,
}

/// The marks of all objects by place, and the places of those whose users were not told yet that they have a finite instance.
#[derive(Drop)]
struct Marking {
    marks: Vec<Mark>,
    untold: Vec<usize>,
}

/// The mark at this place.
fn mark_at(marks: &[Mark], at: usize) -> Option<Mark>
    ensures { result ≡ slice_get marks.now at }
{
    marks.get(at).copied()
}

/// Whether the object at this place was found to have a finite instance.
fn is_found(marks: &[Mark], at: usize) -> bool
    ensures { IsTrue result ↔ IsFoundAt marks.now at }
{
    match mark_at(marks, at) {
        Some(Mark::Finite) => true,
        _ => false,
    }
}

/// How many elements of the object at this place are known to be free, where it has no finite instance yet.
fn free_at(marks: &[Mark], at: usize) -> Option<usize>
    ensures { result ≡ free_of (slice_get marks.now at) }
{
    match mark_at(marks, at) {
        Some(Mark::Open(free)) => Some(free),
        _ => None,
    }
}

/// Whether the element need not stand, or what it leads to has a finite instance.
fn is_free(repository: &Repository, marks: &[Mark], element: &ElementDef) -> bool
    ensures { TellsFree repository.now.objects marks.now element.now result }
{
    if element.min == 0 {
        return true;
    }
    match target_of(repository, element) {
        Some(at) => is_found(marks, at),
        None => false,
    }
}

/// The first element from a place on that keeps a sequence from having a finite instance.
fn first_blocked(
    repository: &Repository,
    marks: &[Mark],
    elements: &[ElementDef],
    from: usize,
) -> Option<usize>
    ensures { TellsBlocked repository.now.objects marks.now elements.now from result }
{
    for at in from..elements.len() {
        if !is_free(repository, marks, &elements[at]) {
            return Some(at);
        }
    }
    None
}

/// Whether one of the elements lets a choice have a finite instance.
fn has_free(repository: &Repository, marks: &[Mark], elements: &[ElementDef]) -> bool
    ensures { TellsSomeFree repository.now.objects marks.now elements.now result }
{
    for element in elements {
        if is_free(repository, marks, element) {
            return true;
        }
    }
    false
}

/// Where the object is kept from having a finite instance, of which so many elements are free.
fn held_at(repository: &Repository, marks: &[Mark], object: &Object, free: usize) -> Option<usize>
    ensures { TellsHeld repository.now.objects marks.now object.now free result }
{
    match object.kind {
        ObjectKind::Component => first_blocked(repository, marks, object.elements.as_slice(), free),
        ObjectKind::Choice => {
            if has_free(repository, marks, object.elements.as_slice()) {
                None
            } else {
                Some(free)
            }
        }
        ObjectKind::Simple(_) | ObjectKind::External | ObjectKind::Other => None,
    }
}

/// Puts the mark at this place.
fn set_mark(marks: &mut Vec<Mark>, at: usize, mark: Mark)
    ensures { marks.new.items ≡ slice_set marks.old.items at mark }
{
    if at < marks.len() {
        marks[at] = mark;
    }
}

impl Marking {
    /// The object at this place has a finite instance, which its users are to be told.
    fn find(&mut self, place: usize) -> Result<(), AllocError>
        ensures marks { OnOk result (self.new.marks.items ≡ slice_set self.old.marks.items place Mark.Finite) }
        ensures untold { OnOk result (self.new.untold.items ≡ self.old.untold.items ++ place ∷ []) }
    {
        self.untold.push(place)?;
        set_mark(&mut self.marks, place, Mark::Finite);
        Ok(())
    }

    /// Looks at the object at this place, if no finite instance of it was found.
    fn visit(&mut self, repository: &Repository, place: usize) -> Result<(), AllocError>
        ensures search { (m rest : List ℕ) → IsSearch repository.now m self.old.marks.items self.old.untold.items (place ∷ rest) → OnOk result (IsSearch repository.now m self.new.marks.items self.new.untold.items rest) }
        ensures left { OnOk result (open_marks self.new.marks.items + length self.new.untold.items ≤ open_marks self.old.marks.items + length self.old.untold.items) }
    {
        let Some(free) = free_at(self.marks.as_slice(), place) else {
            return Ok(());
        };
        let Some((_, object)) = repository.object_at(place) else {
            return Ok(());
        };
        match held_at(repository, self.marks.as_slice(), object, free) {
            Some(at) => {
                set_mark(&mut self.marks, place, Mark::Open(at));
                Ok(())
            }
            None => self.find(place),
        }
    }

    /// Looks at the objects at these places.
    fn visit_all(&mut self, repository: &Repository, places: &[usize]) -> Result<(), AllocError>
        ensures search { (m : List ℕ) → IsSearch repository.now m self.old.marks.items self.old.untold.items places.now → OnOk result (IsSearch repository.now m self.new.marks.items self.new.untold.items []) }
        ensures left { OnOk result (open_marks self.new.marks.items + length self.new.untold.items ≤ open_marks self.old.marks.items + length self.old.untold.items) }
    {
        for place in places {
            self.visit(repository, *place)?;
        }
        Ok(())
    }

    /// Tells the users of each object that was found, until none is left to be told.
    fn settle(&mut self, repository: &Repository, users: &[Places]) -> Result<(), AllocError>
        ensures { (m places : List ℕ) → AreListed repository.now.objects users.now places → HoldsReached repository.now m places → IsSearch repository.now m self.old.marks.items self.old.untold.items [] → OnOk result (IsSearch repository.now m self.new.marks.items [] []) }
    {
        while let Some(place) = self.untold.pop() {
            if let Some(list) = users.get(place) {
                self.visit_all(repository, list.as_slice())?;
            }
        }
        Ok(())
    }
}

/// No object is reached.
fn no_marks(alloc: Global, count: usize) -> Result<Vec<Mark>, AllocError>
    ensures { IfOk result (λ v. v.items ≡ replicate count Mark.Unreached) }
{
    vec![in alloc; Mark::Unreached; count]
}

/// The marks of so many objects, of which those at these places are reached.
fn start(alloc: Global, count: usize, places: &[usize]) -> Result<Vec<Mark>, AllocError>
    ensures length { IfOk result (λ v. length v.items ≡ count) }
    ensures start { IfOk result (λ v. AreStart places.now v.items) }
{
    let mut marks = no_marks(alloc, count)?;
    for place in places {
        set_mark(&mut marks, *place, Mark::Open(0));
    }
    Ok(marks)
}

/// The marks of all objects, where no other has a finite instance.
fn finite_marks(
    alloc: Global,
    repository: &Repository,
    reach: &Reach,
) -> Result<Vec<Mark>, AllocError>
    ensures { (m : List ℕ) → HasReach repository.now m reach.now → IsSound repository.now m IsBelowEndless → IfOk result (λ v. IsSearch repository.now m v.items [] []) }
{
    let places = reach.objects.as_slice();
    let users = users_of(alloc, repository, places)?;
    let mut marking = Marking {
        marks: start(alloc, repository.object_count(), places)?,
        untold: Vec::new(alloc),
    };
    marking.visit_all(repository, places)?;
    marking.settle(repository, users.as_slice())?;
    let Marking { marks, untold: _ } = marking;
    Ok(marks)
}

/// The first place of an object without a finite instance.
fn first_open(marks: &[Mark]) -> Option<usize>
    ensures { TellsFirstOpen marks.now result }
{
    for at in 0..marks.len() {
        if free_at(marks, at).is_some() {
            return Some(at);
        }
    }
    None
}

/// Whether the message has a finite instance, where these objects have one.
fn is_message_finite(repository: &Repository, marks: &[Mark], message: usize) -> bool
    ensures { TellsMessage repository.now marks.now message result }
{
    match repository.message_at(message) {
        Some(definition) => first_blocked(
            repository,
            marks,
            definition.blocks.as_slice(),
            0,
        ).is_none(),
        None => false,
    }
}

/// What is reached and has no finite instance, the first in file order, the message last.
pub(crate) fn first_endless(
    alloc: Global,
    repository: &Repository,
    reach: &Reach,
) -> Result<Option<Breaker>, AllocError>
    requires { (m : List ℕ) × HasReach repository.now m reach.now × IsSound repository.now m IsBelowEndless }
    ensures { (m : List ℕ) → HasReach repository.now m reach.now → IsSound repository.now m IsBelowEndless → IfOk result (λ b. TellsFirst repository.now m Endless b) }
{
    let marks = finite_marks(alloc, repository, reach)?;
    if let Some(place) = first_open(marks.as_slice()) {
        return Ok(Some(Breaker::Object(place)));
    }
    if is_message_finite(repository, marks.as_slice(), reach.message) {
        Ok(None)
    } else {
        Ok(Some(Breaker::Message))
    }
}
