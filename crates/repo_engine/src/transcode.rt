//! Instances in one form, written in another.
ghost use Rattle.std.specs.Prelude.{◌≡◌, ◌≢◌, ℕ, List, Some, Err, IfErr, IsTrue};
ghost use Rattle.repo_engine.specs.Answer.{FromDer, FromXml, GivesDer, GivesXml};
ghost use Rattle.repo_engine.specs.inner.Arms.{StopsAtInstance, trans_end};
ghost use Rattle.repo_engine.specs.Run.{GoesOut, TellsVerdict};
ghost use Rattle.repo_engine.specs.Sources.{IsSourceRead, source_ended_of, of_source};

use super::refusal::{Refusal, Stop};
use message_model::Model;
use outside::{Sink, Source};
use std::alloc::Global;
use transcoder::{TransError, der_to_xml, xml_to_der, xml_to_xml};

/// Pushes the canonical XML of the XML instance that the source has left.
pub fn canonize<I: Source, O: Sink>(
    alloc: Global,
    model: &Model,
    inst: &mut I,
    out: &mut O,
) -> Result<(), Stop>
    requires { IsTrue (I.may_be_pulled inst.old) }
    ensures no_words { result ≢ Err (Stop.Refused Refusal.Words) }
    ensures source { IsSourceRead (source_ended_of result) (of_source I.left I.faults inst.old inst.new) }
    ensures pulled { IfErr result (λ stop. StopsAtInstance (λ i. FromXml model.now i (GivesXml model.now)) (of_source I.left I.faults inst.old inst.new) stop) }
    ensures verdict { (i : List ℕ) → I.left inst.old ≡ Some i → TellsVerdict (FromXml model.now i (GivesXml model.now)) result (O.held out.old) (O.held out.new) }
    ensures goes_out { GoesOut O.held O.faults out.old out.new result }
{
    ended_so(xml_to_xml(alloc, model, inst, out))
}

/// Pushes the DER of the XML instance that the source has left.
pub fn to_der<I: Source, O: Sink>(
    alloc: Global,
    model: &Model,
    inst: &mut I,
    out: &mut O,
) -> Result<(), Stop>
    requires { IsTrue (I.may_be_pulled inst.old) }
    ensures no_words { result ≢ Err (Stop.Refused Refusal.Words) }
    ensures source { IsSourceRead (source_ended_of result) (of_source I.left I.faults inst.old inst.new) }
    ensures pulled { IfErr result (λ stop. StopsAtInstance (λ i. FromXml model.now i (GivesDer model.now)) (of_source I.left I.faults inst.old inst.new) stop) }
    ensures verdict { (i : List ℕ) → I.left inst.old ≡ Some i → TellsVerdict (FromXml model.now i (GivesDer model.now)) result (O.held out.old) (O.held out.new) }
    ensures goes_out { GoesOut O.held O.faults out.old out.new result }
{
    ended_so(xml_to_der(alloc, model, inst, out))
}

/// Pushes the canonical XML of the instance in DER that the source has left.
pub fn from_der<I: Source, O: Sink>(
    alloc: Global,
    model: &Model,
    inst: &mut I,
    out: &mut O,
) -> Result<(), Stop>
    requires { IsTrue (I.may_be_pulled inst.old) }
    ensures no_words { result ≢ Err (Stop.Refused Refusal.Words) }
    ensures source { IsSourceRead (source_ended_of result) (of_source I.left I.faults inst.old inst.new) }
    ensures pulled { IfErr result (λ stop. StopsAtInstance (λ i. FromDer model.now i (GivesXml model.now)) (of_source I.left I.faults inst.old inst.new) stop) }
    ensures verdict { (i : List ℕ) → I.left inst.old ≡ Some i → TellsVerdict (FromDer model.now i (GivesXml model.now)) result (O.held out.old) (O.held out.new) }
    ensures goes_out { GoesOut O.held O.faults out.old out.new result }
{
    ended_so(der_to_xml(alloc, model, inst, out))
}

/// How a transcoding ends a command.
fn ended_so(end: Result<(), TransError>) -> Result<(), Stop>
    ensures { result ≡ trans_end end }
{
    match end {
        Ok(()) => Ok(()),
        Err(TransError::Refused(fault)) => Err(Stop::Refused(Refusal::Instance(fault))),
        Err(TransError::ReadFault) => Err(Stop::ReadFault),
        Err(TransError::WriteFault) => Err(Stop::WriteFault),
        Err(TransError::Memory) => Err(Stop::Memory),
    }
}
