//! The types of a compiled message.
ghost use Rattle.std.specs.Prelude.{◌≡◌, ◌≢◌, Some, Err, slice_get};
ghost use Rattle.outside.specs.Pushes.{Pushes};
ghost use Rattle.message_model.specs.Tables.{TypeEntry};
ghost use Rattle.repo_engine.specs.Answer.{GivesTypes};
ghost use Rattle.repo_engine.specs.Run.{GoesOut, TellsVerdict};
ghost use Rattle.repo_engine.specs.Sources.{Failing, Refusing, source_ended_of};
ghost use Rattle.repo_engine.specs.Texts.{type_line, type_entry_line, types_text};

use super::refusal::{Refusal, Stop, ended};
use message_model::Model;
use outside::{Part, Sink, SinkError, render_all};

/// Pushes the types of the message, a line each.
pub fn give_types<O: Sink>(model: &Model, out: &mut O) -> Result<(), Stop>
    ensures no_words { result ≢ Err (Stop.Refused Refusal.Words) }
    ensures ends { (source_ended_of result ≢ Failing) × (source_ended_of result ≢ Refusing) }
    ensures verdict { TellsVerdict (GivesTypes model.now) result (O.held out.old) (O.held out.new) }
    ensures goes_out { GoesOut O.held O.faults out.old out.new result }
{
    ended(push_types(model, out))
}

/// Pushes the lines of the types by number.
fn push_types<O: Sink>(model: &Model, out: &mut O) -> Result<(), SinkError>
    ensures { Pushes O.held O.faults O.room out.old out.new result (types_text 0 model.now.types) }
{
    for number in 0..model.type_count() {
        if let Err(error) = push_type(model, number, out) {
            return Err(error);
        }
    }
    Ok(())
}

/// Pushes the line of the type of that number.
fn push_type<O: Sink>(model: &Model, number: u32, out: &mut O) -> Result<(), SinkError>
    ensures { (t : TypeEntry) → slice_get model.now.types number ≡ Some t → Pushes O.held O.faults O.room out.old out.new result (type_line number t) }
{
    let Some(word) = model.word(number) else {
        return Ok(());
    };
    let Some(name) = model.name(number) else {
        return Ok(());
    };
    push_line(number, word, name, out)
}

/// Pushes the line of a type.
fn push_line<'a, O: Sink>(
    number: u32,
    word: &'a [u8],
    name: &'a [u8],
    out: &mut O,
) -> Result<(), SinkError>
    ensures { Pushes O.held O.faults O.room out.old out.new result (type_entry_line number word.now name.now) }
{
    let parts = [
        Part::Number(u64::from(number)),
        Part::Bytes(b" "),
        Part::Bytes(word),
        Part::Bytes(b" "),
        Part::Bytes(name),
        Part::Bytes(b"\n"),
    ];
    render_all(parts.as_slice(), out)
}
