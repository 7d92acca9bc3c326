//! A repository in memory.
ghost use Rattle.std.specs.Prelude.{◌≡◌, ◌↔◌, ◌<◌, [], ◌∷◌, ◌++◌, length, IsTrue, IsSome, IfSome, OnOk, OnErr, IsErrOf, Contains, slice_get, All};
ghost use Rattle.std.specs.Option.{option_copied, option_map};
ghost use Rattle.lexical_core.specs.Characters.{IsXmlText};
ghost use Rattle.repo_objects.specs.Objects.{HasObjectTexts, HasMessageTexts, HasCodeTexts};
ghost use Rattle.repo_objects.specs.Repository.{DictionaryEntry, HasId, HasIdAt, IsRepository, with_codes};
ghost use Rattle.repo_objects.specs.Stored.{entries_of};

use crate::objects::{CodeDefs, MessageDef, Object};
use indexmap::IndexMap;
use lexical_core::{Items, Text};
use std::alloc::{AllocError, Global};
use std::error::Error;
use std::fmt;
use std::marker::Model;

/// Why an object was not added.
#[derive(Clone, Copy, Debug, PartialEq, Eq)]
pub enum AddError {
    /// An object has that id already.
    Twice,
    /// There is no memory for the object.
    Memory,
}

impl fmt::Display for AddError {
    ghost use Rattle.std.specs.Prelude.{Some};
    ghost use Rattle.repo_objects.specs.AddError.{add_error_text};

    ghost output = { λ e. Some (add_error_text e) };

    fn fmt<W: fmt::Write>(&self, f: &mut fmt::Formatter<W>) -> fmt::Result {
        f.write_str(match self {
            AddError::Twice => "an object has that id already",
            AddError::Memory => "there is no memory for the object",
        })
    }
}

impl Error for AddError {}

impl From<AllocError> for AddError {
    ghost use Rattle.repo_objects.specs.declared.repository.AddError.TheVariants.{Memory};

    ghost from_gives = { λ _ e. e ≡ Memory };

    fn from(_error: AllocError) -> AddError {
        AddError::Memory
    }
}

// The objects by their ids, in file order.
type Dictionary = IndexMap<Vec<u8>, Object>;

/// The objects of a data dictionary by their ids, and the messages. Both keep the order of the file.
#[derive(Drop)]
pub struct Repository {
    objects: Dictionary,
    messages: Items<MessageDef>,
}

impl Model for Repository {
    ghost use Rattle.repo_objects.specs.Repository.{Contents, IsRepository};
    ghost use Rattle.repo_objects.specs.Stored.{entries_of};

    ghost Value = { Contents };

    ghost view = { λ r. record { objects = entries_of r.objects.entries; messages = r.messages } };

    ghost invariant = { λ r. IsRepository (record { objects = entries_of r.objects.entries; messages = r.messages }) };
}

impl Repository {
    /// An empty repository. It takes no memory.
    pub fn new(alloc: Global) -> Repository
        ensures { result ≡ record { objects = []; messages = [] } }
    {
        Repository {
            objects: IndexMap::new(alloc),
            messages: Items::new(alloc),
        }
    }

    /// Adds an object at the end of the data dictionary, under an id that no other object may have:
    /// `Twice` tells that one has it. All texts are UTF-8 of characters of XML. After an error the
    /// repository is as it was.
    pub fn add_object(&mut self, id: Text, object: Object) -> Result<(), AddError>
        requires id { IsXmlText id }
        requires texts { HasObjectTexts object }
        ensures ok { OnOk result (self.new ≡ record self.old { objects = self.old.objects ++ record { id = id; object = object } ∷ [] }) }
        ensures twice { IsErrOf result AddError.Twice ↔ HasId self.old.objects id }
        ensures err { OnErr result (self.new ≡ self.old) }
    {
        let id = id.into_vec();
        if has_id(&self.objects, id.as_slice()) {
            return Err(AddError::Twice);
        }
        insert_last(&mut self.objects, id, object)?;
        Ok(())
    }

    /// Adds a message after the others. All texts are UTF-8 of characters of XML. After an error the
    /// repository is as it was.
    pub fn add_message(&mut self, message: MessageDef) -> Result<(), AllocError>
        requires { HasMessageTexts message }
        ensures ok { OnOk result (self.new ≡ record self.old { messages = self.old.messages ++ message ∷ [] }) }
        ensures err { OnErr result (self.new ≡ self.old) }
    {
        self.messages.push(message)
    }

    /// Gives the object at that place these codes in the place of its own. All else stays. It takes
    /// no memory.
    pub fn set_codes(&mut self, at: usize, codes: CodeDefs)
        requires at { at < length self.old.objects }
        requires texts { All HasCodeTexts codes }
        ensures { self.new ≡ record self.old { objects = with_codes self.old.objects at codes } }
    {
        put_codes(&mut self.objects, at, codes);
    }

    /// The object with that id; `None` where no object has it.
    pub fn object(&self, id: &[u8]) -> Option<&Object>
        ensures found { IfSome result (λ o. Contains self.now.objects (record { id = id.now; object = o.now })) }
        ensures there { IsSome result ↔ HasId self.now.objects id.now }
        ensures whole { IsRepository self.now }
    {
        self.objects.get(id)
    }

    /// The place of the object with that id; `None` where no object has it.
    pub fn place(&self, id: &[u8]) -> Option<usize>
        ensures found { IfSome result (λ k. HasIdAt self.now.objects k id.now) }
        ensures there { IsSome result ↔ HasId self.now.objects id.now }
        ensures whole { IsRepository self.now }
    {
        self.objects.get_index_of(id)
    }

    /// The id and the object at that place, counted from 0 in file order; `None` past the last.
    pub fn object_at(&self, at: usize) -> Option<(&[u8], &Object)>
        ensures entry { option_map (λ p. let entry : DictionaryEntry = record { id = p.0.now; object = p.1.now } in entry) result ≡ slice_get self.now.objects at }
        ensures whole { IsRepository self.now }
    {
        let (id, object) = self.objects.get_index(at)?;
        Some((id.as_slice(), object))
    }

    /// The number of objects.
    pub fn object_count(&self) -> usize
        ensures count { result ≡ length self.now.objects }
        ensures whole { IsRepository self.now }
    {
        self.objects.len()
    }

    /// The message at that place, counted from 0 in file order; `None` past the last.
    pub fn message_at(&self, at: usize) -> Option<&MessageDef>
        ensures message { option_copied result ≡ slice_get self.now.messages at }
        ensures whole { IsRepository self.now }
    {
        self.messages.get(at)
    }

    /// The number of messages.
    pub fn message_count(&self) -> usize
        ensures count { result ≡ length self.now.messages }
        ensures whole { IsRepository self.now }
    {
        self.messages.len()
    }
}

/// Whether some object has that id.
fn has_id(objects: &Dictionary, id: &[u8]) -> bool
    ensures { IsTrue result ↔ HasId (entries_of objects.now.entries) id.now }
{
    objects.contains_key(id)
}

/// Gives the object at that place these codes.
fn put_codes(objects: &mut Dictionary, at: usize, codes: CodeDefs)
    requires { at < length objects.old.entries }
    ensures { entries_of objects.new.entries ≡ with_codes (entries_of objects.old.entries) at codes }
{
    if let Some(object) = objects.get_index_mut(at) {
        object.codes = codes;
    }
}

/// Puts the object at the end, under an id that no other has.
fn insert_last(objects: &mut Dictionary, id: Vec<u8>, object: Object) -> Result<(), AllocError>
    requires { HasId (entries_of objects.old.entries) id.items → ⊥ }
    ensures ok { OnOk result (entries_of objects.new.entries ≡ entries_of objects.old.entries ++ record { id = id.items; object = object } ∷ []) }
    ensures err { OnErr result (entries_of objects.new.entries ≡ entries_of objects.old.entries) }
{
    objects.insert(id, object)?;
    Ok(())
}
