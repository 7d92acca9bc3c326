//! The repository of the built-in message.
ghost use Rattle.std.specs.Prelude.{◌≡◌, IfOk, OnOk, [], ◌∷◌, ◌++◌};
ghost use Rattle.lexical_core.specs.Characters.{IsXmlText};
ghost use Rattle.repo_objects.specs.Objects.{HasObjectTexts};
ghost use Rattle.repo_objects.specs.Repository.{HasId};
ghost use Rattle.drill.specs.BuiltIn.{contents, text_id, text_object, name_element, child_element, node_object, node_block, tree_message};

use lexical_core::Text;
use repo_objects::{
    AddError, CodeDefs, ElementDef, Elements, Kinds, MessageDef, Object, ObjectKind, RawFacets,
    Repository,
};
use std::alloc::{AllocError, Global};

/// The repository of the built-in message: a text, a node and the message.
pub(crate) fn repository(alloc: Global) -> Result<Repository, AllocError>
    ensures { IfOk result (λ r. r ≡ contents) }
{
    let mut repository = Repository::new(alloc);
    fill(alloc, &mut repository)?;
    Ok(repository)
}

/// Adds all to a repository that is empty.
fn fill(alloc: Global, repository: &mut Repository) -> Result<(), AllocError>
    requires objects { repository.old.objects ≡ [] }
    requires messages { repository.old.messages ≡ [] }
    ensures { OnOk result (repository.new ≡ contents) }
{
    add_text(alloc, repository)?;
    add_node(alloc, repository)?;
    let message = message(alloc)?;
    repository.add_message(message)?;
    Ok(())
}

/// Adds the text to a repository without objects.
fn add_text(alloc: Global, repository: &mut Repository) -> Result<(), AllocError>
    requires { repository.old.objects ≡ [] }
    ensures { OnOk result (repository.new ≡ record repository.old { objects = record { id = text_id; object = text_object } ∷ [] }) }
{
    let id = text_of(alloc, "_t")?;
    let object = text(alloc)?;
    put(repository, id, object)
}

/// Adds the node to a repository whose object is the text.
fn add_node(alloc: Global, repository: &mut Repository) -> Result<(), AllocError>
    requires { repository.old.objects ≡ record { id = text_id; object = text_object } ∷ [] }
    ensures { OnOk result (repository.new ≡ record repository.old { objects = contents.objects }) }
{
    let id = text_of(alloc, "_n")?;
    let object = node(alloc)?;
    put(repository, id, object)
}

/// Adds an object under an id that no other object has.
fn put(repository: &mut Repository, id: Text, object: Object) -> Result<(), AllocError>
    requires id { IsXmlText id }
    requires texts { HasObjectTexts object }
    requires new { HasId repository.old.objects id → ⊥ }
    ensures { OnOk result (repository.new ≡ record repository.old { objects = repository.old.objects ++ record { id = id; object = object } ∷ [] }) }
{
    match repository.add_object(id, object) {
        Ok(()) => Ok(()),
        Err(AddError::Twice) => unreachable!(),
        Err(AddError::Memory) => Err(AllocError),
    }
}

/// The text that has these bytes.
fn text_of(alloc: Global, word: &str) -> Result<Text, AllocError>
    ensures { IfOk result (λ t. t ≡ word.now) }
{
    let mut text = Text::new(alloc);
    text.extend(word.as_bytes())?;
    Ok(text)
}

/// The text of 1 to 35 characters.
fn text(alloc: Global) -> Result<Object, AllocError>
    ensures { IfOk result (λ o. o ≡ text_object) }
{
    let name = text_of(alloc, "Max35Text")?;
    let word = text_of(alloc, "Text")?;
    Ok(Object {
        name,
        kind: ObjectKind::Simple(Kinds::Text),
        word,
        facets: RawFacets {
            min_length: Some(1),
            max_length: Some(35),
            ..RawFacets::none()
        },
        elements: Elements::new(alloc),
        codes: CodeDefs::new(alloc),
        trace: None,
        currency: None,
    })
}

/// The element that is a node's name.
fn name(alloc: Global) -> Result<ElementDef, AllocError>
    ensures { IfOk result (λ e. e ≡ name_element) }
{
    let name = text_of(alloc, "Name")?;
    let tag = text_of(alloc, "Nm")?;
    let simple = text_of(alloc, "_t")?;
    Ok(ElementDef {
        name,
        tag,
        min: 1,
        max: Some(1),
        simple: Some(simple),
        complex: None,
        plain: None,
    })
}

/// The element that is a node below a node.
fn child(alloc: Global) -> Result<ElementDef, AllocError>
    ensures { IfOk result (λ e. e ≡ child_element) }
{
    let name = text_of(alloc, "Child")?;
    let tag = text_of(alloc, "Chld")?;
    let complex = text_of(alloc, "_n")?;
    Ok(ElementDef {
        name,
        tag,
        min: 0,
        max: None,
        simple: None,
        complex: Some(complex),
        plain: None,
    })
}

/// The node.
fn node(alloc: Global) -> Result<Object, AllocError>
    ensures { IfOk result (λ o. o ≡ node_object) }
{
    let mut elements = Elements::new(alloc);
    elements.push(name(alloc)?)?;
    elements.push(child(alloc)?)?;
    let name = text_of(alloc, "Node1")?;
    let word = text_of(alloc, "MessageComponent")?;
    Ok(Object {
        name,
        kind: ObjectKind::Component,
        word,
        facets: RawFacets::none(),
        elements,
        codes: CodeDefs::new(alloc),
        trace: None,
        currency: None,
    })
}

/// The one block of the message.
fn block(alloc: Global) -> Result<ElementDef, AllocError>
    ensures { IfOk result (λ e. e ≡ node_block) }
{
    let name = text_of(alloc, "Node")?;
    let tag = text_of(alloc, "Nd")?;
    let complex = text_of(alloc, "_n")?;
    Ok(ElementDef {
        name,
        tag,
        min: 1,
        max: Some(1),
        simple: None,
        complex: Some(complex),
        plain: None,
    })
}

/// The message.
fn message(alloc: Global) -> Result<MessageDef, AllocError>
    ensures { IfOk result (λ d. d ≡ tree_message) }
{
    let id = text_of(alloc, "demo.002.001.01")?;
    let name = text_of(alloc, "TreeV01")?;
    let tag = text_of(alloc, "Tree")?;
    let mut blocks = Elements::new(alloc);
    blocks.push(block(alloc)?)?;
    Ok(MessageDef {
        id,
        name,
        tag,
        blocks,
    })
}
