//! What no contract says: that there is memory for a repository, and which words are identifiers.
ghost use Rattle.std.specs.Prelude.{IfOk};
ghost use Rattle.repo_objects.specs.Objects.{HasObjectTexts, HasMessageTexts};

use crate::made::text_of;
use lexical_core::Text;
use repo_objects::{
    AddError, CodeDefs, Elements, Kinds, MessageDef, MessageId, Object, ObjectKind, RawFacets,
    Repository,
};
use std::alloc::Global;
use std::test::Fail;

fn object_of(alloc: Global, name: &str) -> Result<Object, Fail>
    ensures { IfOk result HasObjectTexts }
{
    Ok(Object {
        name: text_of(alloc, name)?,
        kind: ObjectKind::Simple(Kinds::Text),
        word: Text::new(alloc),
        facets: RawFacets {
            min_length: Some(1),
            max_length: Some(35),
            ..RawFacets::none()
        },
        elements: Elements::new(alloc),
        codes: CodeDefs::new(alloc),
        trace: None,
        currency: None,
    })
}

fn message_of(alloc: Global, id: &str) -> Result<MessageDef, Fail>
    ensures { IfOk result HasMessageTexts }
{
    Ok(MessageDef {
        id: text_of(alloc, id)?,
        name: text_of(alloc, "NoteV01")?,
        tag: text_of(alloc, "Note")?,
        blocks: Elements::new(alloc),
    })
}

fn add(repository: &mut Repository, alloc: Global, id: &str, name: &str) -> Result<(), Fail> {
    repository.add_object(text_of(alloc, id)?, object_of(alloc, name)?)?;
    Ok(())
}

/// Adds two objects, and answers what is said to a third one under the id of the first.
fn add_objects(repository: &mut Repository, alloc: Global) -> Result<Result<(), AddError>, Fail> {
    add(repository, alloc, "_t", "Max35Text")?;
    add(repository, alloc, "_u", "Max70Text")?;
    let id = text_of(alloc, "_t")?;
    let object = object_of(alloc, "Max140Text")?;
    Ok(repository.add_object(id, object))
}

/// Whether an object stands under the id and has the name.
fn has_object(repository: &Repository, id: &[u8], name: &[u8]) -> bool {
    match repository.object(id) {
        Some(object) => object.name.bytes() == name,
        None => false,
    }
}

#[test]
fn objects_stand_under_their_ids(rt: HostRuntime) -> Result<(), Fail> {
    let mut repository = Repository::new(rt.alloc());
    let again = add_objects(&mut repository, rt.alloc())?;
    assert_eq!(rt; again, Err(AddError::Twice));
    assert_eq!(rt; repository.object_count(), 2);
    assert!(rt; has_object(&repository, b"_t".as_slice(), b"Max35Text".as_slice()));
    assert!(rt; repository.object(b"_").is_none());
    Ok(())
}

fn add_messages(repository: &mut Repository, alloc: Global) -> Result<(), Fail> {
    for id in ["demo.001.001.01", "no identifier"] {
        let message = message_of(alloc, id)?;
        repository.add_message(message)?;
    }
    Ok(())
}

/// Whether the first message has the identifier.
fn has_first(repository: &Repository, id: &[u8]) -> bool {
    match repository.message_at(0) {
        Some(first) => first.id.bytes() == id,
        None => false,
    }
}

#[test]
fn messages_stand_in_file_order(rt: HostRuntime) -> Result<(), Fail> {
    let mut repository = Repository::new(rt.alloc());
    add_messages(&mut repository, rt.alloc())?;
    assert_eq!(rt; repository.message_count(), 2);
    assert!(rt; has_first(&repository, b"demo.001.001.01".as_slice()));
    Ok(())
}

#[test]
fn words_that_are_identifiers(rt: HostRuntime) {
    for word in ["pacs.008.001.08", "demo.00A.001.01", "demo.00a.001.01"] {
        assert!(rt; MessageId::read(word).is_some(), "{word} is one");
    }
    let others = [
        "Demo.001.001.01",
        "demo.001.001.1",
        "demo.001.001.001",
        "demo.001.00a.01",
        "demo-001.001.01",
        "d\u{e9}m.001.001.01",
        "",
    ];
    for word in others {
        assert!(rt; MessageId::read(word).is_none(), "{word} is none");
    }
}
