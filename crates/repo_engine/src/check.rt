//! The check of an instance.
ghost use Rattle.std.specs.Prelude.{◌≡◌, ◌≢◌, ℕ, List, Some, Err, IfErr, IsTrue};
ghost use Rattle.repo_engine.specs.Answer.{FromDer, FromXml, IsFine};
ghost use Rattle.repo_engine.specs.inner.Arms.{StopsAtInstance, check_stop};
ghost use Rattle.repo_engine.specs.Run.{GoesOut, TellsVerdict};
ghost use Rattle.repo_engine.specs.Sources.{IsSourceRead, source_ended_of, of_source};

use super::refusal::{Refusal, Stop, ended};
use message_model::Model;
use outside::{Sink, Source, push_bytes};
use std::alloc::Global;
use transcoder::{CheckError, check_der, check_xml};

/// Checks the XML instance that the source has left, and pushes `accepted`.
pub fn check<I: Source, O: Sink>(
    alloc: Global,
    model: &Model,
    inst: &mut I,
    out: &mut O,
) -> Result<(), Stop>
    requires { IsTrue (I.may_be_pulled inst.old) }
    ensures no_words { result ≢ Err (Stop.Refused Refusal.Words) }
    ensures source { IsSourceRead (source_ended_of result) (of_source I.left I.faults inst.old inst.new) }
    ensures pulled { IfErr result (λ stop. StopsAtInstance (λ i. FromXml model.now i IsFine) (of_source I.left I.faults inst.old inst.new) stop) }
    ensures verdict { (i : List ℕ) → I.left inst.old ≡ Some i → TellsVerdict (FromXml model.now i IsFine) result (O.held out.old) (O.held out.new) }
    ensures goes_out { GoesOut O.held O.faults out.old out.new result }
{
    match check_xml(alloc, model, inst) {
        Ok(()) => ended(push_bytes(b"accepted\n", out)),
        Err(error) => Err(stop_of_check(error)),
    }
}

/// Checks the instance in DER that the source has left, and pushes `accepted`.
pub fn check_in_der<I: Source, O: Sink>(
    alloc: Global,
    model: &Model,
    inst: &mut I,
    out: &mut O,
) -> Result<(), Stop>
    requires { IsTrue (I.may_be_pulled inst.old) }
    ensures no_words { result ≢ Err (Stop.Refused Refusal.Words) }
    ensures source { IsSourceRead (source_ended_of result) (of_source I.left I.faults inst.old inst.new) }
    ensures pulled { IfErr result (λ stop. StopsAtInstance (λ i. FromDer model.now i IsFine) (of_source I.left I.faults inst.old inst.new) stop) }
    ensures verdict { (i : List ℕ) → I.left inst.old ≡ Some i → TellsVerdict (FromDer model.now i IsFine) result (O.held out.old) (O.held out.new) }
    ensures goes_out { GoesOut O.held O.faults out.old out.new result }
{
    match check_der(alloc, model, inst) {
        Ok(()) => ended(push_bytes(b"accepted\n", out)),
        Err(error) => Err(stop_of_check(error)),
    }
}

/// Why an instance is refused, as a stop.
fn stop_of_check(error: CheckError) -> Stop
    ensures { result ≡ check_stop error }
{
    match error {
        CheckError::Refused(fault) => Stop::Refused(Refusal::Instance(fault)),
        CheckError::ReadFault => Stop::ReadFault,
        CheckError::Memory => Stop::Memory,
    }
}
