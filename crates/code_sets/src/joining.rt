//! Codes that are given to the code sets of a repository.
ghost use Rattle.std.specs.Prelude.{◌≡◌, ◌&&◌, ◌++◌, ◌∷◌, ℕ, List, All, length, map, not, slice_get, Some, IfOk, IfErr, IfSome, IfNone, OnOk};
ghost use Rattle.lexical_core.specs.Characters.{IsXmlText};
ghost use Rattle.repo_objects.specs.Repository.{DictionaryEntry};
ghost use Rattle.code_sets.specs.Codes.{JoinFault, JoinsAll, is_code_set, is_none_yet, joined_contents};
ghost use Rattle.code_sets.specs.CodesErrors.{AreCodes, RefusesJoin};
ghost use Rattle.code_sets.specs.inner.Given.{NamesOwn, codes_in, given_entry, key_texts, with_own_name};

use crate::errors::CodesError;
use crate::given::{GivenCodes, Texts, add_text, defs_for, given_codes, has_text};
use crate::record::CodeLists;
use repo_objects::{Kinds, Object, ObjectKind, Repository};
use std::alloc::{AllocError, Global};

/// Whether the object is a code set.
fn is_set(object: &Object) -> bool
    ensures { result ≡ is_code_set object.now.kind }
{
    object.kind == ObjectKind::Simple(Kinds::CodeSet)
}

/// Whether the object is a code set with codes of its own.
fn has_codes(object: &Object) -> bool
    ensures { result ≡ (is_code_set object.now.kind && not (is_none_yet object.now.codes)) }
{
    is_set(object) && !object.codes.is_empty()
}

/// Whether the object is a code set with no codes of its own.
fn takes_codes(object: &Object) -> bool
    ensures { result ≡ (is_code_set object.now.kind && is_none_yet object.now.codes) }
{
    is_set(object) && object.codes.is_empty()
}

/// Puts the object's name behind the others, where the object at that place is a code set with codes
/// of its own.
fn add_own_name(
    alloc: Global,
    names: &mut Texts,
    repository: &Repository,
    at: usize,
) -> Result<(), AllocError>
    ensures { (entry : DictionaryEntry) → slice_get repository.now.objects at ≡ Some entry → OnOk result (key_texts names.new.keys ≡ with_own_name (key_texts names.old.keys) entry) }
{
    let Some((_, object)) = repository.object_at(at) else {
        return Ok(());
    };
    if !has_codes(object) {
        return Ok(());
    }
    add_text(alloc, names, object.name.bytes())
}

/// The names of the code sets with codes of their own.
fn own_names(alloc: Global, repository: &Repository) -> Result<Texts, AllocError>
    ensures { IfOk result (λ names. NamesOwn (key_texts names.keys) repository.now.objects) }
{
    let mut names = Texts::new(alloc);
    for at in 0..repository.object_count() {
        add_own_name(alloc, &mut names, repository, at)?;
    }
    Ok(names)
}

/// The number of the first record whose code set has one of these names.
fn first_named(names: &Texts, lists: &CodeLists) -> Option<u64>
    ensures first { (entries : List DictionaryEntry) → NamesOwn (key_texts names.now.keys) entries → IfSome result (λ number. JoinFault lists.now entries number) }
    ensures none { (entries : List DictionaryEntry) → NamesOwn (key_texts names.now.keys) entries → IfNone result (JoinsAll lists.now entries) }
{
    for record in lists.as_slice() {
        if has_text(names, record.set.bytes()) {
            return Some(record.number);
        }
    }
    None
}

/// Gives the object at that place its codes, where it is a code set with none of its own.
fn join_at(
    alloc: Global,
    repository: &mut Repository,
    at: usize,
    given: &GivenCodes,
) -> Result<(), AllocError>
    requires { (name : List ℕ) → All IsXmlText (codes_in given.now name) }
    ensures { (before after : List DictionaryEntry) (entry : DictionaryEntry) → repository.old.objects ≡ before ++ (entry ∷ after) → at ≡ length before
        → OnOk result (repository.new ≡ record repository.old { objects = before ++ (given_entry (codes_in given.now) entry ∷ after) }) }
{
    let Some((_, object)) = repository.object_at(at) else {
        return Ok(());
    };
    if !takes_codes(object) {
        return Ok(());
    }
    let codes = defs_for(alloc, given, object.name.bytes())?;
    repository.set_codes(at, codes);
    Ok(())
}

/// Gives each code set with no codes of its own those that are kept for its name.
fn join_all(
    alloc: Global,
    repository: &mut Repository,
    given: &GivenCodes,
) -> Result<(), AllocError>
    requires { (name : List ℕ) → All IsXmlText (codes_in given.now name) }
    ensures { OnOk result (repository.new ≡ record repository.old { objects = map (given_entry (codes_in given.now)) repository.old.objects }) }
{
    for at in 0..repository.object_count() {
        join_at(alloc, repository, at, given)?;
    }
    Ok(())
}

/// Gives the code sets without codes of their own those that are handed in, or tells the first record that names one
/// with codes of its own.
fn join_into(
    alloc: Global,
    repository: &mut Repository,
    lists: &CodeLists,
) -> Result<(), CodesError>
    requires { AreCodes lists.now }
    ensures ok { OnOk result (repository.new ≡ joined_contents lists.now repository.old) }
    ensures none { OnOk result (JoinsAll lists.now repository.old.objects) }
    ensures err { IfErr result (λ e. RefusesJoin lists.now repository.old.objects e) }
{
    let names = own_names(alloc, repository)?;
    if let Some(number) = first_named(&names, lists) {
        return Err(CodesError::Refused { rule: 4, number });
    }
    let given = given_codes(alloc, lists)?;
    join_all(alloc, repository, &given)?;
    Ok(())
}

/// The repository in which the code sets without codes of their own have those that are handed in,
/// each once, in the order of their records. Records whose code set the repository has not are passed
/// over. Refused by rule 4 is the first record that names a code set with codes of its own; the
/// repository is given up then. `ReadFault` never comes.
pub fn join(
    alloc: Global,
    repository: Repository,
    lists: &CodeLists,
) -> Result<Repository, CodesError>
    requires { AreCodes lists.now }
    ensures ok { IfOk result (λ r. r ≡ joined_contents lists.now repository) }
    ensures none { OnOk result (JoinsAll lists.now repository.objects) }
    ensures err { IfErr result (λ e. RefusesJoin lists.now repository.objects e) }
{
    let mut repository = repository;
    join_into(alloc, &mut repository, lists)?;
    Ok(repository)
}
