//! The list of a repository's messages.
ghost use Rattle.std.specs.Prelude.{◌≡◌, ◌≢◌, ◌⊎◌, ℕ, List, Some, Err, IfErr, IsTrue};
ghost use Rattle.outside.specs.Pushes.{Pushes};
ghost use Rattle.repo_objects.specs.Repository.{Contents};
ghost use Rattle.repo_loader.specs.Loaded.{Spells};
ghost use Rattle.repo_engine.specs.inner.Arms.{FilesHaveLeft, StopsAtFiles};
ghost use Rattle.repo_engine.specs.Answer.{FromRepository, Lists};
ghost use Rattle.repo_engine.specs.Command.{hands_in};
ghost use Rattle.repo_engine.specs.Run.{GoesOut, TellsOfRepository, TellsVerdict};
ghost use Rattle.repo_engine.specs.Sources.{AreRead, source_ended_of, of_source};
ghost use Rattle.repo_engine.specs.Texts.{list_text, message_line};

use super::refusal::{Refusal, Stop, ended};
use super::repository::read_repository;
use outside::{Part, Sink, SinkError, Source, render_all};
use repo_objects::{MessageDef, MessageId, Repository};
use std::alloc::Global;

/// Pushes the list of the messages that the repository has.
pub fn list<R: Source, C: Source, O: Sink>(
    alloc: Global,
    codes_word: &[u8],
    repo: &mut R,
    codes: &mut C,
    out: &mut O,
) -> Result<(), Stop>
    requires repo_unended { IsTrue (R.may_be_pulled repo.old) }
    requires codes_unended { IsTrue (C.may_be_pulled codes.old) }
    ensures no_words { result ≢ Err (Stop.Refused Refusal.Words) }
    ensures sources { AreRead (hands_in codes_word.now) (source_ended_of result)
        (of_source R.left R.faults repo.old repo.new) (of_source C.left C.faults codes.old codes.new) }
    ensures pulled { IfErr result (λ stop. StopsAtFiles (of_source R.left R.faults repo.old repo.new) (of_source C.left C.faults codes.old codes.new) stop) }
    ensures codes_behind { (r : List ℕ) → R.left repo.old ≡ Some r → (codes.new ≡ codes.old) ⊎ ((own : Contents) × Spells r own) }
    ensures repository { (r : List ℕ) → R.left repo.old ≡ Some r → TellsOfRepository r result }
    ensures verdict { (r c : List ℕ) → FilesHaveLeft codes_word.now (R.left repo.old) (C.left codes.old) r c →
        TellsVerdict (FromRepository codes_word.now r c Lists) result (O.held out.old) (O.held out.new) }
    ensures goes_out { GoesOut O.held O.faults out.old out.new result }
{
    match read_repository(alloc, codes_word, repo, codes) {
        Ok(repository) => ended(push_list(&repository, out)),
        Err(stop) => Err(stop),
    }
}

/// Pushes the lines of the messages, in file order.
fn push_list<O: Sink>(repository: &Repository, out: &mut O) -> Result<(), SinkError>
    ensures { Pushes O.held O.faults O.room out.old out.new result (list_text repository.now.messages) }
{
    for at in 0..repository.message_count() {
        let Some(message) = repository.message_at(at) else {
            return Ok(());
        };
        if let Err(error) = push_message(message, out) {
            return Err(error);
        }
    }
    Ok(())
}

/// Pushes the line of a message whose identifier has the form of one, and of others nothing.
fn push_message<O: Sink>(message: &MessageDef, out: &mut O) -> Result<(), SinkError>
    ensures { Pushes O.held O.faults O.room out.old out.new result (message_line message.now) }
{
    if MessageId::of(message.id.bytes()).is_none() {
        return Ok(());
    }
    let parts = [
        Part::Bytes(message.id.bytes()),
        Part::Bytes(b" "),
        Part::Bytes(message.name.bytes()),
        Part::Bytes(b"\n"),
    ];
    render_all(parts.as_slice(), out)
}
