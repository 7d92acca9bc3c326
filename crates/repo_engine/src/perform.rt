//! What a command does before anything is noted.
ghost use Rattle.std.specs.Prelude.{Err, IsTrue};
ghost use Rattle.repo_engine.specs.Command.{texts};
ghost use Rattle.repo_engine.specs.inner.Commands.{IsBoundedDrill, command_view};
ghost use Rattle.repo_engine.specs.Run.{Performs};
ghost use Rattle.repo_engine.specs.inner.Arms.{Carries};
ghost use Rattle.repo_engine.specs.Sources.{of_source};

use super::command::{Command, command_of};
use super::drilling::give_drill;
use super::list::list;
use super::message::message;
use super::refusal::{Refusal, Stop};
use outside::{Sink, Source};
use std::alloc::Global;

/// Reads the sources that the words ask for, each to its end before the next, and pushes the text of
/// the command once all that it reads was accepted.
pub fn perform<R: Source, C: Source, I: Source, O: Sink>(
    alloc: Global,
    words: &Vec<String>,
    repo: &mut R,
    codes: &mut C,
    inst: &mut I,
    out: &mut O,
) -> Result<(), Stop>
    requires repo_unended { IsTrue (R.may_be_pulled repo.old) }
    requires codes_unended { IsTrue (C.may_be_pulled codes.old) }
    requires inst_unended { IsTrue (I.may_be_pulled inst.old) }
    ensures { Performs (texts words.now.items)
        (of_source R.left R.faults repo.old repo.new) (of_source C.left C.faults codes.old codes.new) (of_source I.left I.faults inst.old inst.new)
        O.held O.faults out.old out.new result }
{
    match command_of(words) {
        Some(command) => carry(alloc, command, repo, codes, inst, out),
        None => Err(Stop::Refused(Refusal::Words)),
    }
}

/// Carries a command out.
fn carry<R: Source, C: Source, I: Source, O: Sink>(
    alloc: Global,
    command: Command,
    repo: &mut R,
    codes: &mut C,
    inst: &mut I,
    out: &mut O,
) -> Result<(), Stop>
    requires repo_unended { IsTrue (R.may_be_pulled repo.old) }
    requires codes_unended { IsTrue (C.may_be_pulled codes.old) }
    requires inst_unended { IsTrue (I.may_be_pulled inst.old) }
    requires bounded { IsBoundedDrill command }
    ensures { Carries (command_view command.entry)
        (of_source R.left R.faults repo.old repo.new) (of_source C.left C.faults codes.old codes.new) (of_source I.left I.faults inst.old inst.new)
        O.held O.faults out.old out.new result }
{
    match command {
        Command::List { codes: word } => list(alloc, word, repo, codes, out),
        Command::Message {
            verb,
            codes: word,
            id,
        } => message(alloc, verb, word, &id, repo, codes, inst, out),
        Command::Drill { number, size } => give_drill(alloc, number, size, out),
    }
}
