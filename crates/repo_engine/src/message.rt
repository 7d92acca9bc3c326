//! The commands of one message.
ghost use Rattle.std.specs.Prelude.{◌≡◌, ◌≢◌, ◌⊎◌, ℕ, List, true, Some, Err, IfOk, IfErr, IsTrue};
ghost use Rattle.repo_objects.specs.Repository.{Contents};
ghost use Rattle.repo_loader.specs.Loaded.{Spells};
ghost use Rattle.message_model.specs.Tables.{Tables};
ghost use Rattle.repo_engine.specs.Answer.{FromMessage, GivesMessage, GivesTables, IsVerdictOfVerb, RefusesMessage, RefusesUpToMessage};
ghost use Rattle.repo_engine.specs.inner.Arms.{FilesHaveLeft, IsOfInput, IsReadAs, StopsAtFiles, StopsAtInstance, StopsBy, ready_stop};
ghost use Rattle.repo_engine.specs.Command.{hands_in, reads_instance};
ghost use Rattle.repo_engine.specs.Pulls.{StopsFilesSoon, StopsInstanceSoon};
ghost use Rattle.repo_engine.specs.Run.{GoesOut, TellsOfRepository, TellsUpToMessage, TellsVerdict};
ghost use Rattle.repo_engine.specs.Sources.{AreRead, AreReadInTurn, Failing, source_ended_of, of_source, stop_ended};

use super::asn1::give_module;
use super::check::{check, check_in_der};
use super::command::Verb;
use super::laws;
use super::refusal::{Refusal, Stop};
use super::repository::read_repository;
use super::schema::give_schema;
use super::transcode::{canonize, from_der, to_der};
use super::types::give_types;
use message_model::Model;
use outside::{Sink, Source};
use reference_check::ReadyError;
use repo_objects::{MessageId, Repository};
use std::alloc::Global;

/// Carries out a command of one message: it is compiled, and then the verb decides.
pub fn message<R: Source, C: Source, I: Source, O: Sink>(
    alloc: Global,
    verb: Verb,
    codes_word: &[u8],
    id: &MessageId,
    repo: &mut R,
    codes: &mut C,
    inst: &mut I,
    out: &mut O,
) -> Result<(), Stop>
    requires repo_unended { IsTrue (R.may_be_pulled repo.old) }
    requires codes_unended { IsTrue (C.may_be_pulled codes.old) }
    requires inst_unended { IsTrue (I.may_be_pulled inst.old) }
    ensures no_words { result ≢ Err (Stop.Refused Refusal.Words) }
    ensures sources { AreReadInTurn (hands_in codes_word.now) (reads_instance verb) (source_ended_of result)
        (of_source R.left R.faults repo.old repo.new) (of_source C.left C.faults codes.old codes.new) (of_source I.left I.faults inst.old inst.new) }
    ensures files_pulled { IfErr result (λ stop. StopsFilesSoon (of_source R.left R.faults repo.old repo.new) (of_source C.left C.faults codes.old codes.new) (of_source I.left I.faults inst.old inst.new) stop) }
    ensures instance_pulled { (r c : List ℕ) → FilesHaveLeft codes_word.now (R.left repo.old) (C.left codes.old) r c →
        IfErr result (λ stop. StopsInstanceSoon (λ i. FromMessage codes_word.now id.now r c (IsVerdictOfVerb verb i)) (of_source I.left I.faults inst.old inst.new) stop) }
    ensures codes_behind { (r : List ℕ) → R.left repo.old ≡ Some r → (codes.new ≡ codes.old) ⊎ ((own : Contents) × Spells r own) }
    ensures instance_behind { (r c : List ℕ) → FilesHaveLeft codes_word.now (R.left repo.old) (C.left codes.old) r c →
        (inst.new ≡ inst.old) ⊎ ((T : Tables) × GivesMessage codes_word.now id.now r c T) }
    ensures repository { (r : List ℕ) → R.left repo.old ≡ Some r → TellsOfRepository r result }
    ensures files { (r c : List ℕ) → FilesHaveLeft codes_word.now (R.left repo.old) (C.left codes.old) r c →
        TellsUpToMessage (RefusesUpToMessage codes_word.now id.now r c) ((T : Tables) × GivesMessage codes_word.now id.now r c T) result }
    ensures verdict { (r c i : List ℕ) → FilesHaveLeft codes_word.now (R.left repo.old) (C.left codes.old) r c →
        (reads_instance verb ≡ true → I.left inst.old ≡ Some i) →
        TellsVerdict (FromMessage codes_word.now id.now r c (IsVerdictOfVerb verb i)) result (O.held out.old) (O.held out.new) }
    ensures goes_out { GoesOut O.held O.faults out.old out.new result }
{
    laws::message_goes_on();
    match read_message(alloc, codes_word, id, repo, codes) {
        Ok(model) => on_model(alloc, verb, &model, inst, out),
        Err(stop) => Err(stop),
    }
}

/// The compiled message.
fn read_message<R: Source, C: Source>(
    alloc: Global,
    codes_word: &[u8],
    id: &MessageId,
    repo: &mut R,
    codes: &mut C,
) -> Result<Model, Stop>
    requires repo_unended { IsTrue (R.may_be_pulled repo.old) }
    requires codes_unended { IsTrue (C.may_be_pulled codes.old) }
    ensures gives { (r c : List ℕ) → FilesHaveLeft codes_word.now (R.left repo.old) (C.left codes.old) r c →
        IfOk result (λ model. GivesMessage codes_word.now id.now r c model) }
    ensures refuses { (r c : List ℕ) → FilesHaveLeft codes_word.now (R.left repo.old) (C.left codes.old) r c →
        IfErr result (λ stop. StopsBy (RefusesUpToMessage codes_word.now id.now r c) stop) }
    ensures input { IfErr result (λ stop. IsOfInput stop) }
    ensures sources { AreRead (hands_in codes_word.now) (source_ended_of result)
        (of_source R.left R.faults repo.old repo.new) (of_source C.left C.faults codes.old codes.new) }
    ensures pulled { IfErr result (λ stop. StopsAtFiles (of_source R.left R.faults repo.old repo.new) (of_source C.left C.faults codes.old codes.new) stop) }
    ensures codes_behind { (r : List ℕ) → R.left repo.old ≡ Some r → (codes.new ≡ codes.old) ⊎ ((own : Contents) × Spells r own) }
    ensures repository { (r : List ℕ) → R.left repo.old ≡ Some r → IfErr result (λ stop. TellsOfRepository r (Err stop)) }
{
    match read_repository(alloc, codes_word, repo, codes) {
        Ok(repository) => compile(alloc, &repository, id),
        Err(stop) => Err(stop),
    }
}

/// The compiled message of a repository.
fn compile(alloc: Global, repository: &Repository, id: &MessageId) -> Result<Model, Stop>
    ensures gives { IfOk result (λ model. GivesTables repository.now id.now model) }
    ensures refuses { IfErr result (λ stop. StopsBy (RefusesMessage repository.now id.now) stop) }
    ensures stops { IfErr result (λ stop. IsOfInput stop × (stop_ended stop ≢ Failing)) }
{
    match Model::compile(alloc, repository, id) {
        Ok(model) => Ok(model),
        Err(error) => Err(stop_of_ready(error)),
    }
}

/// Why a message is refused, as a stop.
fn stop_of_ready(error: ReadyError) -> Stop
    ensures { result ≡ ready_stop error }
{
    match error {
        ReadyError::Broken { rule, object } => Stop::Refused(Refusal::Message { rule, object }),
        ReadyError::Memory => Stop::Memory,
    }
}

/// What the verb asks of the compiled message.
fn on_model<I: Source, O: Sink>(
    alloc: Global,
    verb: Verb,
    model: &Model,
    inst: &mut I,
    out: &mut O,
) -> Result<(), Stop>
    requires { IsTrue (I.may_be_pulled inst.old) }
    ensures no_words { result ≢ Err (Stop.Refused Refusal.Words) }
    ensures source { IsReadAs (reads_instance verb) (source_ended_of result) (of_source I.left I.faults inst.old inst.new) }
    ensures pulled { IfErr result (λ stop. StopsAtInstance (λ i. IsVerdictOfVerb verb i model.now) (of_source I.left I.faults inst.old inst.new) stop) }
    ensures verdict { (i : List ℕ) → (reads_instance verb ≡ true → I.left inst.old ≡ Some i) →
        TellsVerdict (IsVerdictOfVerb verb i model.now) result (O.held out.old) (O.held out.new) }
    ensures goes_out { GoesOut O.held O.faults out.old out.new result }
{
    match verb {
        Verb::Types => give_types(model, out),
        Verb::Xsd => give_schema(alloc, model, out),
        Verb::Asn1 => give_module(alloc, model, out),
        Verb::CheckXml => check(alloc, model, inst, out),
        Verb::CheckDer => check_in_der(alloc, model, inst, out),
        Verb::CanonXml => canonize(alloc, model, inst, out),
        Verb::XmlToDer => to_der(alloc, model, inst, out),
        Verb::DerToXml => from_der(alloc, model, inst, out),
    }
}
