//! What has been read of a repository file so far.
ghost use Rattle.std.specs.Prelude.{◌≡◌, ◌↔◌, [], ◌∷◌, ◌++◌, List, OnOk, IfOk, IfErr, IfSome, IsTrue, true, false, None, Some, map, codes};
ghost use Rattle.std.specs.Option.{is_some};
ghost use Rattle.lexical_core.specs.Names.{attribute_value as spec_value_of};
ghost use Rattle.markup.specs.TagAttributes.{tag_entry};
ghost use Rattle.repo_loader.specs.declared.part.Part.TheVariants.{Entry as EntryPart, Message as MessagePart};
ghost use Rattle.repo_loader.specs.FileNames.{own, id_name, type_name};
ghost use Rattle.repo_loader.specs.Selected.{FileTag};
ghost use Rattle.repo_loader.specs.inner.Stops.{IsSoundTag, TellsStop, TellsNumbers};
ghost use Rattle.repo_loader.specs.inner.LoadingSteps.{AreTexts, entry_list, CanClose, with_element, with_code, HasObjects, OpensEntry, HasIdIn, CanCloseMessage, open_messages, HasMessages, with_block, with_identifier, TakesOther, HasTags};
ghost use Rattle.repo_loader.specs.File.{is_entry, contents_of};

use crate::part::Part;
use crate::reading::{code_in, copied, element_in, identifier_in, message_in, object_in};
use crate::stop::Stop;
use lexical_core::Text;
use markup::{TagAttribute, value_of};
use repo_objects::{CodeDef, ElementDef, MessageDef, Object, ObjectKind, Repository};
use std::alloc::{AllocError, Global};
use std::mem;

/// An entry of the data dictionary whose elements and codes may still come.
#[derive(Drop)]
pub struct OpenEntry {
    pub id: Text,
    pub object: Object,
}

/// A message whose building blocks and identifier may still come.
#[derive(Drop)]
pub struct OpenMessage {
    pub message: MessageDef,
    /// Whether an identifier came.
    pub identified: bool,
}

/// The objects that are read.
#[derive(Drop)]
pub struct Loading {
    alloc: Global,
    repository: Repository,
    entry: Option<OpenEntry>,
    message: Option<OpenMessage>,
}

/// The id of an entry, where it, a type and a name are there.
fn whole_id<'a>(attributes: &[TagAttribute<'a>]) -> Option<&'a [u8]>
    ensures some { IfSome result (λ id. (spec_value_of id_name (map tag_entry attributes.now) ≡ Some id.now)
        × (is_some (spec_value_of type_name (map tag_entry attributes.now)) ≡ true)
        × (is_some (spec_value_of (own (codes "name")) (map tag_entry attributes.now)) ≡ true)) }
    ensures none { result ≡ None → (is_some (spec_value_of type_name (map tag_entry attributes.now)) ≡ true)
        → (is_some (spec_value_of (own (codes "name")) (map tag_entry attributes.now)) ≡ true) → spec_value_of id_name (map tag_entry attributes.now) ≡ None }
{
    value_of(
        attributes,
        b"http://www.w3.org/2001/XMLSchema-instance",
        b"type",
    )?;
    value_of(attributes, b"", b"name")?;
    value_of(attributes, b"http://www.omg.org/XMI", b"id")
}

impl Loading {
    /// Before the first element. It takes no memory.
    pub fn new(alloc: Global) -> Loading
        ensures closes { CanClose result }
        ensures closes_message { CanCloseMessage result.message }
        ensures tags { HasTags result [] }
    {
        Loading {
            alloc,
            repository: Repository::new(alloc),
            entry: None,
            message: None,
        }
    }

    /// Puts the open entry into the repository.
    fn close_entry(&mut self) -> Result<(), AllocError>
        requires { CanClose self.old }
        ensures objects { OnOk result (self.new.repository.objects ≡ self.old.repository.objects ++ entry_list self.old.entry) }
        ensures messages { OnOk result (self.new.repository.messages ≡ self.old.repository.messages) }
        ensures none { OnOk result (self.new.entry ≡ None) }
        ensures message { self.new.message ≡ self.old.message }
    {
        let Some(open) = self.entry.take() else {
            return Ok(());
        };
        match self.repository.add_object(open.id, open.object) {
            Ok(()) => Ok(()),
            Err(_) => Err(AllocError),
        }
    }

    /// Whether an object has the id that the attributes say.
    fn has_id_of(&self, attributes: &[TagAttribute<'_>]) -> bool
        ensures { IsTrue result ↔ HasIdIn self.now.repository.objects (spec_value_of id_name (map tag_entry attributes.now)) }
    {
        match value_of(attributes, b"http://www.omg.org/XMI", b"id") {
            Some(id) => self.repository.object(id).is_some(),
            None => false,
        }
    }

    /// Takes the tag of an entry of the kind.
    fn take_entry(&mut self, kind: ObjectKind, attributes: &[TagAttribute<'_>]) -> Result<(), Stop>
        requires closes { CanClose self.old }
        requires texts { AreTexts (map tag_entry attributes.now) }
        ensures can_close { OnOk result (CanClose self.new) }
        ensures messages { OnOk result (self.new.repository.messages ≡ self.old.repository.messages) }
        ensures message { OnOk result (self.new.message ≡ self.old.message) }
        ensures ok { (tags : List FileTag) → HasObjects self.old tags → OnOk result (OpensEntry self.old self.new kind (map tag_entry attributes.now) × IsSoundTag tags (record { part = EntryPart kind; attributes = map tag_entry attributes.now })) }
        ensures err { (tags : List FileTag) → HasObjects self.old tags → IfErr result (λ e. TellsStop tags (record { part = EntryPart kind; attributes = map tag_entry attributes.now }) e) }
    {
        self.close_entry()?;
        if self.has_id_of(attributes) {
            return Err(Stop::Rule(3));
        }
        let object = match object_in(self.alloc, attributes, kind) {
            Ok(object) => object,
            Err(stop) => return Err(stop),
        };
        let Some(id) = whole_id(attributes) else {
            return Err(Stop::Rule(5));
        };
        self.entry = Some(OpenEntry {
            id: copied(self.alloc, id)?,
            object,
        });
        Ok(())
    }

    /// Gives the open entry one more element.
    fn add_element(&mut self, element: ElementDef) -> Result<(), AllocError>
        ensures entry { OnOk result (self.new.entry ≡ with_element element self.old.entry) }
        ensures message { self.new.message ≡ self.old.message }
        ensures repository { self.new.repository ≡ self.old.repository }
    {
        match &mut self.entry {
            Some(open) => open.object.elements.push(element),
            None => Ok(()),
        }
    }

    /// Gives the open entry one more code.
    fn add_code(&mut self, code: CodeDef) -> Result<(), AllocError>
        ensures entry { OnOk result (self.new.entry ≡ with_code code self.old.entry) }
        ensures message { self.new.message ≡ self.old.message }
        ensures repository { self.new.repository ≡ self.old.repository }
    {
        match &mut self.entry {
            Some(open) => open.object.codes.push(code),
            None => Ok(()),
        }
    }

    /// Puts the open message into the repository.
    fn close_message(&mut self) -> Result<(), AllocError>
        requires { CanCloseMessage self.old.message }
        ensures messages { OnOk result (self.new.repository.messages ≡ self.old.repository.messages ++ open_messages self.old.message) }
        ensures objects { OnOk result (self.new.repository.objects ≡ self.old.repository.objects) }
        ensures entry { self.new.entry ≡ self.old.entry }
    {
        let Some(open) = self.message.take() else {
            return Ok(());
        };
        self.repository.add_message(open.message)
    }

    /// Takes the tag of a message.
    fn take_message(&mut self, attributes: &[TagAttribute<'_>]) -> Result<(), AllocError>
        requires closes { CanCloseMessage self.old.message }
        requires texts { AreTexts (map tag_entry attributes.now) }
        ensures can_close { OnOk result (CanCloseMessage self.new.message) }
        ensures ok { (tags : List FileTag) → HasMessages self.old.message self.old.repository.messages tags
            → OnOk result (HasMessages self.new.message self.new.repository.messages (tags ++ (record { part = MessagePart; attributes = map tag_entry attributes.now }) ∷ [])) }
        ensures objects { OnOk result (self.new.repository.objects ≡ self.old.repository.objects) }
        ensures entry { self.new.entry ≡ self.old.entry }
    {
        self.close_message()?;
        self.message = Some(OpenMessage {
            message: message_in(self.alloc, attributes)?,
            identified: false,
        });
        Ok(())
    }

    /// Gives the open message one more building block.
    fn add_block(&mut self, block: ElementDef) -> Result<(), AllocError>
        ensures message { OnOk result (self.new.message ≡ with_block block self.old.message) }
        ensures entry { self.new.entry ≡ self.old.entry }
        ensures repository { self.new.repository ≡ self.old.repository }
    {
        match &mut self.message {
            Some(open) => open.message.blocks.push(block),
            None => Ok(()),
        }
    }

    /// Gives the open message its identifier, where none came before.
    fn set_identifier(&mut self, id: Text)
        ensures message { self.new.message ≡ with_identifier id self.old.message }
        ensures entry { self.new.entry ≡ self.old.entry }
        ensures repository { self.new.repository ≡ self.old.repository }
    {
        if let Some(open) = &mut self.message {
            if !open.identified {
                open.message.id = id;
                open.identified = true;
            }
        }
    }

    /// Takes the tag of what is no entry, no message and no root of another name.
    fn take_other(&mut self, part: Part, attributes: &[TagAttribute<'_>]) -> Result<(), Stop>
        requires { is_entry part ≡ false }
        ensures ok { OnOk result (TakesOther self.old self.new part (map tag_entry attributes.now)) }
        ensures err { IfErr result (λ e. TellsNumbers part (map tag_entry attributes.now) e) }
    {
        match part {
            Part::Element => self.add_element(element_in(self.alloc, attributes, 0)?)?,
            Part::Alternative => self.add_element(element_in(self.alloc, attributes, 1)?)?,
            Part::Code => self.add_code(code_in(self.alloc, attributes)?)?,
            Part::Block => self.add_block(element_in(self.alloc, attributes, 0)?)?,
            Part::Identifier => self.set_identifier(identifier_in(self.alloc, attributes)?),
            _ => {}
        }
        Ok(())
    }

    /// Takes the tag of an element that is read.
    pub fn take_tag(&mut self, part: Part, attributes: &[TagAttribute<'_>]) -> Result<(), Stop>
        requires closes { CanClose self.old }
        requires closes_message { CanCloseMessage self.old.message }
        requires texts { AreTexts (map tag_entry attributes.now) }
        ensures can_close { OnOk result (CanClose self.new) }
        ensures can_close_message { OnOk result (CanCloseMessage self.new.message) }
        ensures ok { (tags : List FileTag) → HasTags self.old tags → OnOk result (HasTags self.new (tags ++ (record { part = part; attributes = map tag_entry attributes.now }) ∷ []) × IsSoundTag tags (record { part = part; attributes = map tag_entry attributes.now })) }
        ensures err { (tags : List FileTag) → HasTags self.old tags → IfErr result (λ e. TellsStop tags (record { part = part; attributes = map tag_entry attributes.now }) e) }
    {
        match part {
            Part::OtherRoot => Err(Stop::Rule(2)),
            Part::Entry(kind) => self.take_entry(kind, attributes),
            Part::Message => Ok(self.take_message(attributes)?),
            _ => self.take_other(part, attributes),
        }
    }

    /// Closes what is open, and gives the repository that the elements say, which are all of a file.
    pub fn take_repository(&mut self) -> Result<Repository, AllocError>
        requires closes { CanClose self.old }
        requires closes_message { CanCloseMessage self.old.message }
        ensures { (tags : List FileTag) → HasTags self.old tags → IfOk result (λ r. r ≡ contents_of tags) }
    {
        self.close_entry()?;
        self.close_message()?;
        Ok(mem::replace(&mut self.repository, Repository::new(self.alloc)))
    }
}
