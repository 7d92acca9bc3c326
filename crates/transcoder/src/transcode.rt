//! An instance, read in one form and written in another.
ghost use Rattle.std.specs.Prelude.{◌≡◌, ◌≤◌, IfErr, IsErrOf, IsTrue};
ghost use Rattle.lexical_core.specs.declared.rule.Rule.TheVariants.{Truncated, DerTruncated};
ghost use Rattle.outside.specs.Source.{Rose};
ghost use Rattle.data_types.specs.Value.{Value};
ghost use Rattle.fragments.specs.Fragment.{fragment};
ghost use Rattle.message_model.specs.Admits.{AdmitsAs};
ghost use Rattle.message_model.specs.Tables.{message_of, pieces_of, types_of};
ghost use Rattle.der_model.specs.DerMessage.{der_message};
ghost use Rattle.der_model.specs.Der.{der_of};
ghost use Rattle.xml_writer.specs.CanonXml.{IsCanonXml};
ghost use Rattle.transcoder.specs.Checked.{IsDerOfXml, IsXmlOfDer, IsXmlOfXml, HasXmlFault, HasDerFault};
ghost use Rattle.transcoder.specs.Pulls.{PullsToTransFault};
ghost use Rattle.transcoder.specs.Transcoding.{IsTranscoded, IsWrittenOut};
ghost use Rattle.transcoder.specs.TransErrors.{IsTransFaultOfSome, written_end};

use crate::read::{read_der, read_xml};
use crate::trans_error::TransError;
use der_writer::{measure, write_der};
use inst_pool::Instance;
use message_model::Model;
use outside::{Sink, Source, WriteError};
use std::alloc::Global;
use xml_writer::write_xml;

/// Pushes the DER (X.690) of the XML instance that the source has left. Nothing is pushed before the source was
/// read to its end and its bytes are an instance; a fault's place is a byte number from 0. A failed pull is not tried again.
pub fn xml_to_der<I: Source, O: Sink>(
    alloc: Global,
    model: &Model,
    source: &mut I,
    sink: &mut O,
) -> Result<(), TransError>
    requires { IsTrue (I.may_be_pulled source.old) }
    ensures transcoded { IsTranscoded O.held O.faults O.room (IsDerOfXml model.now) (HasXmlFault model.now) (I.left source.old) (I.left source.new) sink.old sink.new result }
    ensures placed { IfErr result (λ e. IsTransFaultOfSome (HasXmlFault model.now) e) }
    ensures pulled { IfErr result (λ e. PullsToTransFault (HasXmlFault model.now) Truncated (I.left source.old) (I.left source.new) e) }
    ensures fault { IsErrOf result TransError.ReadFault → Rose (I.faults source.old) (I.faults source.new) }
    ensures later { I.faults source.old ≤ I.faults source.new }
    ensures same { (IsErrOf result TransError.ReadFault → ⊥) → I.faults source.new ≡ I.faults source.old }
{
    match read_xml(alloc, model, source) {
        Ok(instance) => push_der(model, instance, sink),
        Err(error) => Err(TransError::from(error)),
    }
}

/// Pushes the canonical XML of the instance in DER that the source has left. Nothing is pushed before the source was
/// read to its end and its bytes are an instance; a fault's place is a byte number from 0. A failed pull is not tried again.
pub fn der_to_xml<I: Source, O: Sink>(
    alloc: Global,
    model: &Model,
    source: &mut I,
    sink: &mut O,
) -> Result<(), TransError>
    requires { IsTrue (I.may_be_pulled source.old) }
    ensures transcoded { IsTranscoded O.held O.faults O.room (IsXmlOfDer model.now) (HasDerFault model.now) (I.left source.old) (I.left source.new) sink.old sink.new result }
    ensures placed { IfErr result (λ e. IsTransFaultOfSome (HasDerFault model.now) e) }
    ensures pulled { IfErr result (λ e. PullsToTransFault (HasDerFault model.now) DerTruncated (I.left source.old) (I.left source.new) e) }
    ensures fault { IsErrOf result TransError.ReadFault → Rose (I.faults source.old) (I.faults source.new) }
    ensures later { I.faults source.old ≤ I.faults source.new }
    ensures same { (IsErrOf result TransError.ReadFault → ⊥) → I.faults source.new ≡ I.faults source.old }
{
    match read_der(alloc, model, source) {
        Ok(instance) => push_xml(model, instance, sink),
        Err(error) => Err(TransError::from(error)),
    }
}

/// Pushes the canonical XML of the XML instance that the source has left. Nothing is pushed before the source was
/// read to its end and its bytes are an instance; a fault's place is a byte number from 0. A failed pull is not tried again.
pub fn xml_to_xml<I: Source, O: Sink>(
    alloc: Global,
    model: &Model,
    source: &mut I,
    sink: &mut O,
) -> Result<(), TransError>
    requires { IsTrue (I.may_be_pulled source.old) }
    ensures transcoded { IsTranscoded O.held O.faults O.room (IsXmlOfXml model.now) (HasXmlFault model.now) (I.left source.old) (I.left source.new) sink.old sink.new result }
    ensures placed { IfErr result (λ e. IsTransFaultOfSome (HasXmlFault model.now) e) }
    ensures pulled { IfErr result (λ e. PullsToTransFault (HasXmlFault model.now) Truncated (I.left source.old) (I.left source.new) e) }
    ensures fault { IsErrOf result TransError.ReadFault → Rose (I.faults source.old) (I.faults source.new) }
    ensures later { I.faults source.old ≤ I.faults source.new }
    ensures same { (IsErrOf result TransError.ReadFault → ⊥) → I.faults source.new ≡ I.faults source.old }
{
    match read_xml(alloc, model, source) {
        Ok(instance) => push_xml(model, instance, sink),
        Err(error) => Err(TransError::from(error)),
    }
}

/// Pushes the canonical XML of an instance.
fn push_xml<O: Sink>(model: &Model, instance: Instance, sink: &mut O) -> Result<(), TransError>
    requires held { (v : Value) × AdmitsAs (types_of model.now) (types_of model.now 0) v × (instance.region.pieces ≡ pieces_of fragment model.now v) }
    ensures { (v : Value) → AdmitsAs (types_of model.now) (types_of model.now 0) v → instance.region.pieces ≡ pieces_of fragment model.now v
        → IsWrittenOut O.held O.faults O.room (λ text. IsCanonXml (message_of model.now) v text) sink.old sink.new result }
{
    ended(write_xml(model, &instance, sink))
}

/// Pushes the DER of an instance.
fn push_der<O: Sink>(model: &Model, instance: Instance, sink: &mut O) -> Result<(), TransError>
    requires held { (v : Value) × AdmitsAs (types_of model.now) (types_of model.now 0) v × (instance.region.pieces ≡ pieces_of fragment model.now v) }
    ensures { (v : Value) → AdmitsAs (types_of model.now) (types_of model.now 0) v → instance.region.pieces ≡ pieces_of fragment model.now v
        → IsWrittenOut O.held O.faults O.room (λ text. text ≡ der_of (der_message model.now) v) sink.old sink.new result }
{
    let mut instance = instance;
    measure(model, &mut instance);
    ended(write_der(model, &instance, sink))
}

/// How a transcoding ends whose text was pushed.
fn ended(push: Result<(), WriteError>) -> Result<(), TransError>
    ensures { result ≡ written_end push }
{
    match push {
        Ok(()) => Ok(()),
        Err(error) => Err(TransError::from(error)),
    }
}
