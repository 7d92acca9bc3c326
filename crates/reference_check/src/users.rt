//! What the elements of objects lead to, and for each object the objects whose elements lead to it.
ghost use Rattle.std.specs.Prelude.{◌≡◌, ◌<◌, [], ◌∷◌, ◌++◌, length, slice_set, slice_index_or, OnOk, IfOk};
ghost use Rattle.std.specs.Option.{option_copied};
ghost use Rattle.reference_check.specs.Graph.{references};
ghost use Rattle.reference_check.specs.inner.FiniteSearch.{only_one, TellsTarget, KeepsUsers, IsListedFor, IsListedForAll, IsUserListed, AreListed};

use crate::reached::Places;
use lexical_core::Text;
use repo_objects::{ElementDef, Repository};
use std::alloc::{AllocError, Global};

/// The id that the element names, if it names one alone.
fn only_reference(element: &ElementDef) -> Option<&Text>
    ensures { option_copied result ≡ only_one (references element.now) }
{
    match &element.simple {
        Some(id) => {
            if element.complex.is_some() || element.plain.is_some() {
                None
            } else {
                Some(id)
            }
        }
        None => match &element.complex {
            Some(id) => {
                if element.plain.is_some() {
                    None
                } else {
                    Some(id)
                }
            }
            None => element.plain.as_ref(),
        },
    }
}

/// The place of the object that the element names, if it names one alone.
pub(crate) fn target_of(repository: &Repository, element: &ElementDef) -> Option<usize>
    ensures { TellsTarget repository.now.objects element.now result }
{
    match only_reference(element) {
        Some(id) => repository.place(id.bytes()),
        None => None,
    }
}

/// So many empty lists.
fn empty_lists(alloc: Global, count: usize) -> Result<Vec<Places>, AllocError>
    ensures { IfOk result (λ v. length v.items ≡ count) }
{
    let mut lists = Vec::new(alloc);
    for _ in 0..count {
        lists.push(Places::new(alloc))?;
    }
    Ok(lists)
}

/// Puts the user at the end of the list at this place.
fn add_user(lists: &mut Vec<Places>, at: usize, user: usize) -> Result<(), AllocError>
    requires { at < length lists.old.items }
    ensures length { length lists.new.items ≡ length lists.old.items }
    ensures lists { OnOk result (lists.new.items ≡ slice_set lists.old.items at (slice_index_or lists.old.items at [] ++ user ∷ [])) }
{
    lists[at].push(user)
}

/// Makes the object at `user` a user of what the element leads to, if it has to stand.
fn add_target(
    repository: &Repository,
    lists: &mut Vec<Places>,
    user: usize,
    element: &ElementDef,
) -> Result<(), AllocError>
    requires { length lists.old.items ≡ length repository.now.objects }
    ensures length { length lists.new.items ≡ length lists.old.items }
    ensures listed { OnOk result (IsListedFor repository.now.objects lists.new.items user element.now) }
    ensures kept { OnOk result (KeepsUsers lists.old.items lists.new.items) }
{
    if element.min == 0 {
        return Ok(());
    }
    match target_of(repository, element) {
        Some(at) => add_user(lists, at, user),
        None => Ok(()),
    }
}

/// Makes the object at `user` a user of what the elements lead to.
fn add_targets(
    repository: &Repository,
    lists: &mut Vec<Places>,
    user: usize,
    elements: &[ElementDef],
) -> Result<(), AllocError>
    requires { length lists.old.items ≡ length repository.now.objects }
    ensures length { length lists.new.items ≡ length lists.old.items }
    ensures listed { OnOk result (IsListedForAll repository.now.objects lists.new.items user elements.now) }
    ensures kept { OnOk result (KeepsUsers lists.old.items lists.new.items) }
{
    for element in elements {
        add_target(repository, lists, user, element)?;
    }
    Ok(())
}

/// Makes the object at this place a user of what its elements lead to.
fn add_object(
    repository: &Repository,
    lists: &mut Vec<Places>,
    user: usize,
) -> Result<(), AllocError>
    requires { length lists.old.items ≡ length repository.now.objects }
    ensures length { length lists.new.items ≡ length lists.old.items }
    ensures listed { OnOk result (IsUserListed repository.now.objects lists.new.items user) }
    ensures kept { OnOk result (KeepsUsers lists.old.items lists.new.items) }
{
    match repository.object_at(user) {
        Some((_, object)) => add_targets(repository, lists, user, object.elements.as_slice()),
        None => Ok(()),
    }
}

/// For each object those of these places whose elements, of such as have to stand, lead to it.
pub(crate) fn users_of(
    alloc: Global,
    repository: &Repository,
    places: &[usize],
) -> Result<Vec<Places>, AllocError>
    ensures { IfOk result (λ v. AreListed repository.now.objects v.items places.now) }
{
    let mut lists = empty_lists(alloc, repository.object_count())?;
    for place in places {
        add_object(repository, &mut lists, *place)?;
    }
    Ok(lists)
}
