//! The rule that each schema type name stands for one object.
ghost use Rattle.std.specs.Prelude.{◌≡◌, ◌≢◌, ◌⊎◌, ℕ, List, ◌∷◌, [], ◌++◌, is_some, length, codes, Some, IsTrue, ◌↔◌, OnOk, IfOk, Contains, if◌then◌else◌, slice_get};
ghost use Rattle.std.specs.List.{list_any};
ghost use Rattle.std.specs.Str.{bytes_eq};
ghost use Rattle.repo_objects.specs.declared.objects.MessageDef.{MessageDef};
ghost use Rattle.repo_objects.specs.Repository.{IsRepository};
ghost use Rattle.reference_check.specs.inner.First.{TellsFirst};
ghost use Rattle.reference_check.specs.inner.Owners.{owner_of, OwnersAre, object_type_names};
ghost use Rattle.reference_check.specs.Reach.{kind_currency};
ghost use Rattle.reference_check.specs.Reached.{HasReach};
ghost use Rattle.reference_check.specs.Rules.{NameTwice};

use crate::breaker::Breaker;
use crate::reached::Reach;
use crate::tail_rules::object_in;
use lexical_core::{Items, Text};
use repo_objects::{Kinds, MessageDef, Object, ObjectKind, Repository};
use std::alloc::{AllocError, Global};
use std::collections::HashMap;

/// The last object that has a name, by its rank: its place in file order, with the message behind
/// all objects.
type Owners = HashMap<Vec<u8>, usize>;

/// The first object or message with a schema type name that is `Document`, or that another has.
pub(crate) fn first_name_twice(
    alloc: Global,
    repository: &Repository,
    reach: &Reach,
) -> Result<Option<Breaker>, AllocError>
    requires { (m : List ℕ) × HasReach repository.now m reach.now }
    ensures { (m : List ℕ) → HasReach repository.now m reach.now → IfOk result (TellsFirst repository.now m NameTwice) }
{
    let owners = name_owners(alloc, repository, reach)?;
    for at in reach.objects.as_slice() {
        let names = object_names(alloc, object_in(repository, *at))?;
        if has_clash(&owners, names.as_slice(), *at) {
            return Ok(Some(Breaker::Object(*at)));
        }
    }
    let names = message_names(alloc, message_in(repository, reach))?;
    if has_clash(&owners, names.as_slice(), repository.object_count()) {
        return Ok(Some(Breaker::Message));
    }
    Ok(None)
}

/// The last owner of each name, of all that is reached.
fn name_owners(alloc: Global, repository: &Repository, reach: &Reach) -> Result<Owners, AllocError>
    requires { (m : List ℕ) × HasReach repository.now m reach.now }
    ensures { (m : List ℕ) → HasReach repository.now m reach.now → IfOk result (λ o. OwnersAre repository.now m (reach.now.objects ++ length repository.now.objects ∷ []) (owner_of o)) }
{
    let mut owners: Owners = HashMap::new(alloc);
    for at in reach.objects.as_slice() {
        let names = object_names(alloc, object_in(repository, *at))?;
        own_names(alloc, &mut owners, names.as_slice(), *at)?;
    }
    let names = message_names(alloc, message_in(repository, reach))?;
    own_names(
        alloc,
        &mut owners,
        names.as_slice(),
        repository.object_count(),
    )?;
    Ok(owners)
}

/// Makes this the owner of the names.
fn own_names(
    alloc: Global,
    owners: &mut Owners,
    names: &[Text],
    rank: usize,
) -> Result<(), AllocError>
    ensures { OnOk result ((q : List ℕ) → owner_of owners.new q ≡ (if list_any (bytes_eq q) names.now then Some rank else owner_of owners.old q)) }
{
    for name in names {
        owners.insert(name.copy(alloc)?.into_vec(), rank)?;
    }
    Ok(())
}

/// Whether one of the names is `Document` or has another owner.
fn has_clash(owners: &Owners, names: &[Text], rank: usize) -> bool
    ensures { IsTrue result ↔ ((name : List ℕ) × Contains names.now name × ((name ≡ codes "Document") ⊎ (owner_of owners.now name ≢ Some rank))) }
{
    for name in names {
        if is_clash(owners, name.bytes(), rank) {
            return true;
        }
    }
    false
}

/// Whether the name is `Document`, or its owner is not the one of this rank.
fn is_clash(owners: &Owners, name: &[u8], rank: usize) -> bool
    ensures { IsTrue result ↔ ((name.now ≡ codes "Document") ⊎ (owner_of owners.now name.now ≢ Some rank)) }
{
    if name == b"Document".as_slice() {
        return true;
    }
    match owners.get(name) {
        Some(owner) => *owner != rank,
        None => true,
    }
}

/// The names of the types that the object has in a schema.
fn object_names(alloc: Global, object: &Object) -> Result<Items<Text>, AllocError>
    ensures { IfOk result (λ names. names ≡ object_type_names object.now) }
{
    let mut names = Items::new(alloc);
    names.push(object.name.copy(alloc)?)?;
    if !is_with_currency(object) {
        return Ok(names);
    }
    let mut simple = object.name.copy(alloc)?;
    simple.extend(b"_SimpleType")?;
    names.push(simple)?;
    Ok(names)
}

/// Whether the object is an amount that names a set of currencies.
fn is_with_currency(object: &Object) -> bool
    ensures { result ≡ is_some (kind_currency object.now.kind object.now.currency) }
{
    matches!(object.kind, ObjectKind::Simple(Kinds::Amount)) && object.currency.is_some()
}

/// The name of the type that the message has in a schema.
fn message_names(alloc: Global, message: &MessageDef) -> Result<Items<Text>, AllocError>
    ensures { IfOk result (λ names. names ≡ message.now.name ∷ []) }
{
    let mut names = Items::new(alloc);
    names.push(message.name.copy(alloc)?)?;
    Ok(names)
}

/// The message.
pub(crate) fn message_in<'a>(repository: &'a Repository, reach: &Reach) -> &'a MessageDef
    requires { (m : List ℕ) × HasReach repository.now m reach.now }
    ensures message { slice_get repository.now.messages reach.now.message ≡ Some result.now }
    ensures whole { IsRepository repository.now }
{
    repository.message_at(reach.message).unwrap()
}
