//! What no contract says: that there is memory to follow references, and what is told of small
//! repositories.
mod code_texts;

ghost use Rattle.std.specs.Prelude.{IfOk, All};
ghost use Rattle.repo_objects.specs.Objects.{HasElementTexts, HasObjectTexts, HasMessageTexts};

use crate::made::{object_of, text_if_any, text_of};
use reference_check::{Reach, ReadyError, reach};
use repo_objects::{
    ElementDef, Elements, Kinds, MessageDef, MessageId, Object, ObjectKind, Repository,
};
use std::alloc::Global;
use std::test::Fail;

/// An element: its tag, its minimum and maximum, its simple and its complex type (none where empty).
struct Part(&'static str, u32, Option<u32>, &'static str, &'static str);

/// An object: its id, its kind, its set of currencies (none where empty) and its elements.
struct Entry(&'static str, ObjectKind, &'static str, &'static [Part]);

/// A repository with its messages' identifiers, their blocks, and the objects; and the rule that is
/// told with what breaks it, 0 where none is.
struct Row(
    &'static [&'static str],
    &'static [Part],
    &'static [Entry],
    u8,
    &'static str,
);

const ID: &str = "demo.001.001.01";

const TEXT: ObjectKind = ObjectKind::Simple(Kinds::Text);

const AMOUNT: ObjectKind = ObjectKind::Simple(Kinds::Amount);

static ROWS: [Row; 13] = [
    Row(
        &[ID],
        &[Part("A", 1, None, "_t", "")],
        &[Entry("_t", TEXT, "", &[])],
        0,
        "",
    ),
    Row(&["demo.002.001.01"], &[], &[], 1, ID),
    Row(&[ID, ID], &[], &[], 2, ID),
    Row(&[ID], &[Part("A", 1, None, "_t", "")], &[], 3, ID),
    Row(
        &[ID],
        &[Part("A", 1, None, "_a", "")],
        &[
            Entry("_c", ObjectKind::Component, "", &[]),
            Entry("_a", AMOUNT, "_c", &[]),
        ],
        4,
        "_a",
    ),
    Row(&[ID], &[Part("A", 1, None, "", "")], &[], 5, ID),
    Row(
        &[ID],
        &[Part("A b", 1, None, "_t", "")],
        &[Entry("_t", TEXT, "", &[])],
        6,
        ID,
    ),
    Row(
        &[ID],
        &[Part("A", 1, None, "_t", ""), Part("A", 1, None, "_t", "")],
        &[Entry("_t", TEXT, "", &[])],
        7,
        ID,
    ),
    Row(
        &[ID],
        &[Part("A", 0, Some(0), "_t", "")],
        &[Entry("_t", TEXT, "", &[])],
        8,
        ID,
    ),
    Row(
        &[ID],
        &[Part("A", 1, None, "", "_c")],
        &[Entry(
            "_c",
            ObjectKind::Choice,
            "",
            &[Part("B", 0, None, "_c", "")],
        )],
        9,
        "_c",
    ),
    Row(
        &[ID],
        &[Part("A", 1, None, "", "_c")],
        &[Entry("_c", ObjectKind::Choice, "", &[])],
        10,
        "_c",
    ),
    // two rules: the lower is told, though its object stands behind
    Row(
        &[ID],
        &[Part("A", 1, None, "", "_c"), Part("B", 1, None, "", "_d")],
        &[
            Entry("_c", ObjectKind::Choice, "", &[]),
            Entry(
                "_d",
                ObjectKind::Component,
                "",
                &[Part("C", 2, Some(1), "_d", "")],
            ),
        ],
        8,
        "_d",
    ),
    // two objects and the message: the first in file order is told, and none that is not reached
    Row(
        &[ID],
        &[Part("A", 2, Some(1), "", "_d")],
        &[
            Entry(
                "_b",
                ObjectKind::Component,
                "",
                &[Part("C", 2, Some(1), "_b", "")],
            ),
            Entry(
                "_c",
                ObjectKind::Component,
                "",
                &[Part("C", 2, Some(1), "_c", "")],
            ),
            Entry(
                "_d",
                ObjectKind::Component,
                "",
                &[Part("C", 2, Some(1), "_c", "")],
            ),
        ],
        8,
        "_c",
    ),
];

fn element_of(alloc: Global, part: &Part) -> Result<ElementDef, Fail>
    ensures { IfOk result HasElementTexts }
{
    Ok(ElementDef {
        name: text_of(alloc, "Part")?,
        tag: text_of(alloc, part.0)?,
        min: part.1,
        max: part.2,
        simple: text_if_any(alloc, part.3)?,
        complex: text_if_any(alloc, part.4)?,
        plain: None,
    })
}

fn elements_of(alloc: Global, parts: &[Part]) -> Result<Elements, Fail>
    ensures { IfOk result (All HasElementTexts) }
{
    let mut elements = Elements::new(alloc);
    for part in parts {
        elements.push(element_of(alloc, part)?)?;
    }
    Ok(elements)
}

fn entry_of(alloc: Global, entry: &Entry) -> Result<Object, Fail>
    ensures { IfOk result HasObjectTexts }
{
    let mut object = object_of(alloc, "Thing", entry.1)?;
    object.elements = elements_of(alloc, entry.3)?;
    object.currency = text_if_any(alloc, entry.2)?;
    Ok(object)
}

fn message_of(alloc: Global, id: &str, blocks: &[Part]) -> Result<MessageDef, Fail>
    ensures { IfOk result HasMessageTexts }
{
    Ok(MessageDef {
        id: text_of(alloc, id)?,
        name: text_of(alloc, "NoteV01")?,
        tag: text_of(alloc, "Note")?,
        blocks: elements_of(alloc, blocks)?,
    })
}

fn fill(alloc: Global, row: &Row, repository: &mut Repository) -> Result<(), Fail> {
    for entry in row.2 {
        repository.add_object(text_of(alloc, entry.0)?, entry_of(alloc, entry)?)?;
    }
    for id in row.0 {
        repository.add_message(message_of(alloc, id, row.1)?)?;
    }
    Ok(())
}

fn repository_of(alloc: Global, row: &Row) -> Result<Repository, Fail> {
    let mut repository = Repository::new(alloc);
    fill(alloc, row, &mut repository)?;
    Ok(repository)
}

fn is_told(outcome: &Result<Reach, ReadyError>, rule: u8, object: &str) -> bool {
    match outcome {
        Ok(_) => rule == 0,
        Err(
            ReadyError::Broken {
                rule: told,
                object: by,
            },
        ) => { *told == rule && by.bytes() == object.as_bytes() }
        Err(ReadyError::Memory) => false,
    }
}

#[test]
fn the_lowest_rule_is_told(rt: HostRuntime) -> Result<(), Fail> {
    let id = MessageId::read(ID).ok_or("no identifier")?;
    for row in &ROWS {
        let repository = repository_of(rt.alloc(), row)?;
        let outcome = reach(rt.alloc(), &repository, &id);
        assert!(rt;
            is_told(&outcome, row.3, row.4),
            "rule {} is told of {}",
            row.3,
            row.4
        );
    }
    Ok(())
}
