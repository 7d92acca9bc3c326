//! What is kept of an open element, and the path of those that are open.
ghost use Rattle.std.specs.Prelude.{◌≡◌, [], ◌∷◌, ◌++◌, IfOk, OnOk, slice_get};
ghost use Rattle.std.specs.Fmt.{decimal};
ghost use Rattle.lexical_core.specs.declared.rule.Rule.TheVariants.{Missing};
ghost use Rattle.reference_check.specs.Forms.{form_slots};
ghost use Rattle.message_model.specs.Tables.{types_of};
ghost use Rattle.xml_instances.specs.Levels.{slot_tag_text};
ghost use Rattle.xml_instances.specs.Open.{last_step_of, path_round, RefusesWith, IsPathTold};

use lexical_core::{Rule, Text};
use message_model::Model;
use std::alloc::{AllocError, Global};

/// An element that is open.
#[derive(Clone, Copy)]
pub(crate) enum Opened {
    /// One with elements: its type, and the last of its slots that came with how often it came.
    Parent {
        number: u32,
        last: Option<u32>,
        count: u64,
    },
    /// One with a text.
    Text,
    /// An envelope, and whether its element has come.
    Envelope {
        filled: bool,
    },
    /// An element in an envelope.
    Foreign,
}

/// Why an event is not taken.
#[derive(Drop)]
pub(crate) enum Refusal {
    /// It breaks this rule, with this path.
    Breaks(Rule, Text),
    /// There was no memory.
    Memory,
}

/// Appends a slash and the tag of an element of the type.
fn put_tag(text: &mut Text, model: &Model, number: u32, at: u32) -> Result<(), AllocError>
    ensures { OnOk result (text.new ≡ text.old ++ slot_tag_text (slice_get (form_slots (types_of model.now number)) at)) }
{
    let Some(slot) = model.slot(number, at) else {
        return Ok(());
    };
    text.extend(b"/")?;
    text.extend(slot.tag)
}

/// Appends a number in brackets.
fn put_count(text: &mut Text, alloc: Global, count: u64) -> Result<(), AllocError>
    ensures { OnOk result (text.new ≡ text.old ++ 91 ∷ decimal count ++ 93 ∷ []) }
{
    let digits = format!(in alloc; "[{count}]")?;
    text.extend(digits.as_bytes())
}

/// Appends the name of the last element in one that is open.
fn put_name(text: &mut Text, alloc: Global, model: &Model, opened: Opened) -> Result<(), AllocError>
    ensures { OnOk result (text.new ≡ text.old ++ last_step_of (types_of model.now) opened) }
{
    let Opened::Parent {
        number,
        last: Some(at),
        count,
    } = opened
    else {
        return Ok(());
    };
    put_tag(text, model, number, at)?;
    put_count(text, alloc, count)
}

/// The path of an element, where these are open round it.
#[tactic(auto, using(crate::proofs::Paths::one_name))]
pub(crate) fn names(alloc: Global, model: &Model, round: &[Opened]) -> Result<Text, AllocError>
    ensures { IfOk result (λ t. t ≡ path_round (types_of model.now) round.now) }
{
    let mut text = Text::new(alloc);
    text.extend(b"/Document[1]")?;
    for opened in round {
        put_name(&mut text, alloc, model, *opened)?;
    }
    Ok(text)
}

/// The path, with more behind it.
fn names_and(
    alloc: Global,
    model: &Model,
    round: &[Opened],
    behind: &[u8],
) -> Result<Text, AllocError>
    ensures { IfOk result (λ t. t ≡ path_round (types_of model.now) round.now ++ behind.now) }
{
    let mut text = names(alloc, model, round)?;
    text.extend(behind)?;
    Ok(text)
}

/// The path, with a slash and the tag of an element of the type behind it.
fn names_and_tag(
    alloc: Global,
    model: &Model,
    round: &[Opened],
    number: u32,
    at: u32,
) -> Result<Text, AllocError>
    ensures { IfOk result (λ t. t ≡ path_round (types_of model.now) round.now ++ slot_tag_text (slice_get (form_slots (types_of model.now number)) at)) }
{
    let mut text = names(alloc, model, round)?;
    put_tag(&mut text, model, number, at)?;
    Ok(text)
}

/// The rule, with the path.
fn told(rule: Rule, path: Result<Text, AllocError>) -> Refusal
    ensures { IsPathTold rule path result }
{
    match path {
        Ok(path) => Refusal::Breaks(rule, path),
        Err(_) => Refusal::Memory,
    }
}

/// The rule, with the path where these elements are open round one, and more behind it.
pub(crate) fn breaks(
    alloc: Global,
    model: &Model,
    rule: Rule,
    round: &[Opened],
    behind: &[u8],
) -> Refusal
    ensures { RefusesWith rule (path_round (types_of model.now) round.now ++ behind.now) result }
{
    told(rule, names_and(alloc, model, round, behind))
}

/// That an element of the type is missing, with its tag behind the path.
pub(crate) fn missing(
    alloc: Global,
    model: &Model,
    round: &[Opened],
    number: u32,
    at: u32,
) -> Refusal
    ensures { RefusesWith Missing (path_round (types_of model.now) round.now ++ slot_tag_text (slice_get (form_slots (types_of model.now number)) at)) result }
{
    told(
        Rule::Missing,
        names_and_tag(alloc, model, round, number, at),
    )
}
