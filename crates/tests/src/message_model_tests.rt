//! What no contract says: that there is memory for a compiled message; and examples of rules and look-ups.
ghost use Rattle.std.specs.Prelude.{IfOk};
ghost use Rattle.repo_objects.specs.Objects.{HasObjectTexts, HasMessageTexts, HasElementTexts};

use crate::made::text_of;
use lexical_core::Text;
use message_model::{End, Model, Next, ReadyError};
use repo_objects::{
    CodeDefs, ElementDef, Elements, Kinds, MessageDef, MessageId, Object, ObjectKind, RawFacets,
    Repository,
};
use std::alloc::Global;
use std::process::Abort;
use std::test::Fail;

/// The identifier of the message.
const ID: &str = "note.001.001.01";

/// A text of these lengths and this pattern.
fn text_type(alloc: Global, least: u32, most: u32, pattern: &str) -> Result<Object, Fail>
    ensures { IfOk result HasObjectTexts }
{
    let name = text_of(alloc, "Max35Text")?;
    let word = text_of(alloc, "Text")?;
    let pattern = text_of(alloc, pattern)?;
    Ok(Object {
        name,
        kind: ObjectKind::Simple(Kinds::Text),
        word,
        facets: RawFacets {
            min_length: Some(least),
            max_length: Some(most),
            pattern: Some(pattern),
            ..RawFacets::none()
        },
        elements: Elements::new(alloc),
        codes: CodeDefs::new(alloc),
        trace: None,
        currency: None,
    })
}

/// A building block of one to two texts.
fn block(alloc: Global) -> Result<ElementDef, Fail>
    ensures { IfOk result HasElementTexts }
{
    let name = text_of(alloc, "Identification")?;
    let tag = text_of(alloc, "Id")?;
    let simple = text_of(alloc, "_t")?;
    Ok(ElementDef {
        name,
        tag,
        min: 1,
        max: Some(2),
        simple: Some(simple),
        complex: None,
        plain: None,
    })
}

fn message(alloc: Global) -> Result<MessageDef, Fail>
    ensures { IfOk result HasMessageTexts }
{
    let id = text_of(alloc, ID)?;
    let name = text_of(alloc, "NoteV01")?;
    let tag = text_of(alloc, "Note")?;
    let mut blocks = Elements::new(alloc);
    blocks.push(block(alloc)?)?;
    Ok(MessageDef {
        id,
        name,
        tag,
        blocks,
    })
}

/// What a message of such texts is compiled to.
fn compiled(
    alloc: Global,
    least: u32,
    most: u32,
    pattern: &str,
) -> Result<Result<Model, ReadyError>, Fail> {
    let text = text_type(alloc, least, most, pattern)?;
    let mut repository = Repository::new(alloc);
    fill(alloc, &mut repository, text)?;
    compiled_from(alloc, &repository)
}

/// Adds the text and the message.
fn fill(alloc: Global, repository: &mut Repository, text: Object) -> Result<(), Fail>
    requires { HasObjectTexts text }
{
    let id = text_of(alloc, "_t")?;
    repository.add_object(id, text)?;
    let message = message(alloc)?;
    repository.add_message(message)?;
    Ok(())
}

fn compiled_from(
    alloc: Global,
    repository: &Repository,
) -> Result<Result<Model, ReadyError>, Fail> {
    let id = MessageId::read(ID).ok_or("no identifier")?;
    Ok(Model::compile(alloc, repository, &id))
}

/// The number of the rule that is told, and 0 where none is.
fn rule_of(answer: Result<Model, ReadyError>) -> Result<u8, Fail> {
    match answer {
        Ok(_) => Ok(0),
        Err(ReadyError::Broken { rule, .. }) => Ok(rule),
        Err(ReadyError::Memory) => Err("no memory".into()),
    }
}

fn is_text(told: Option<&[u8]>, text: &str) -> bool {
    match told {
        Some(told) => told == text.as_bytes(),
        None => false,
    }
}

#[test]
fn a_message_is_compiled(rt: HostRuntime) -> Result<(), Fail> {
    match compiled(rt.alloc(), 1, 35, "[A-Z]*")? {
        Ok(model) => check_model(&rt, &model),
        Err(_) => return Err("not compiled".into()),
    }
    Ok(())
}

fn check_model(rt: &impl Abort, model: &Model) {
    assert_eq!(rt; model.type_count(), 3);
    assert_eq!(rt; model.id().bytes(), ID.as_bytes());
    assert!(rt; is_text(model.word(0), "Document"));
    assert!(rt; is_text(model.name(1), "NoteV01"));
    assert!(rt; is_text(model.name(2), "Max35Text"));
    assert_eq!(rt; model.next(1, None, 0, b"Id"), Next::Slot(0));
    assert_eq!(rt; model.next(1, Some(0), 2, b"Id"), Next::TooMany);
    assert_eq!(rt; model.end(1, None, 0), End::Missing(0));
}

/// The number of the rule that such a message breaks, and 0 where it breaks none.
fn rule_told(alloc: Global, least: u32, most: u32, pattern: &str) -> Result<u8, Fail> {
    rule_of(compiled(alloc, least, most, pattern)?)
}

/// Bounds of the length, a pattern, and the number of the rule that is told.
static RULES: [(u32, u32, &str, u8); 5] = [
    (35, 35, "a{65536}", 0),
    (36, 35, "a", 12),
    (1, 35, "(", 13),
    (1, 35, "a{65537}", 13),
    (36, 35, "(", 12),
];

#[test]
fn facets_and_patterns_are_rules(rt: HostRuntime) -> Result<(), Fail> {
    for (least, most, pattern, rule) in &RULES {
        assert_eq!(rt;
            rule_told(rt.alloc(), *least, *most, pattern)?,
            *rule,
            "{pattern}"
        );
    }
    Ok(())
}
