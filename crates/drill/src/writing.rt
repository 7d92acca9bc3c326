//! An instance, written in both forms.
ghost use Rattle.std.specs.Prelude.{◌≡◌, IfOk};
ghost use Rattle.data_types.specs.Value.{Value};
ghost use Rattle.fragments.specs.Fragment.{fragment};
ghost use Rattle.message_model.specs.Admits.{AdmitsAs};
ghost use Rattle.message_model.specs.Tables.{message_of, pieces_of, types_of};
ghost use Rattle.der_model.specs.Der.{der_of};
ghost use Rattle.der_model.specs.DerMessage.{der_message};
ghost use Rattle.xml_writer.specs.CanonXml.{IsCanonXml};

use der_writer::{measure, write_der};
use inst_pool::Instance;
use message_model::Model;
use outside::SteadySink;
use std::alloc::{AllocError, Global};
use xml_writer::write_xml;

/// How many bytes of XML a piece is taken to make, on an average: a block that grows would keep room beside what it holds.
const XML_OF_PIECE: usize = 6;

/// The same of DER.
const DER_OF_PIECE: usize = 3;

/// An instance in both forms.
#[derive(Drop)]
pub(crate) struct Written {
    /// Its canonical XML.
    pub(crate) xml: SteadySink,
    /// Its DER.
    pub(crate) der: SteadySink,
}

/// The instance, written in both forms.
pub(crate) fn write_both(
    alloc: Global,
    model: &Model,
    instance: Instance,
) -> Result<Written, AllocError>
    requires { (v : Value) × AdmitsAs (types_of model.now) (types_of model.now 0) v × (instance.region.pieces ≡ pieces_of fragment model.now v) }
    ensures { (v : Value) → AdmitsAs (types_of model.now) (types_of model.now 0) v → instance.region.pieces ≡ pieces_of fragment model.now v
        → IfOk result (λ w. IsCanonXml (message_of model.now) v w.xml.held × (w.der.held ≡ der_of (der_message model.now) v)) }
{
    let mut instance = instance;
    let xml = written_xml(alloc, model, &instance)?;
    let der = written_der(alloc, model, &mut instance)?;
    Ok(Written { xml, der })
}

/// The canonical XML of the instance.
fn written_xml(alloc: Global, model: &Model, instance: &Instance) -> Result<SteadySink, AllocError>
    requires { (v : Value) × AdmitsAs (types_of model.now) (types_of model.now 0) v × (instance.now.region.pieces ≡ pieces_of fragment model.now v) }
    ensures { (v : Value) → AdmitsAs (types_of model.now) (types_of model.now 0) v → instance.now.region.pieces ≡ pieces_of fragment model.now v
        → IfOk result (λ sink. IsCanonXml (message_of model.now) v sink.held) }
{
    let room = instance.count().saturating_mul(XML_OF_PIECE);
    let mut sink = SteadySink::with_room(alloc, room)?;
    match write_xml(model, instance, &mut sink) {
        Ok(()) => Ok(sink),
        Err(_) => Err(AllocError),
    }
}

/// The DER of the instance.
fn written_der(
    alloc: Global,
    model: &Model,
    instance: &mut Instance,
) -> Result<SteadySink, AllocError>
    requires { (v : Value) × AdmitsAs (types_of model.now) (types_of model.now 0) v × (instance.old.region.pieces ≡ pieces_of fragment model.now v) }
    ensures { (v : Value) → AdmitsAs (types_of model.now) (types_of model.now 0) v → instance.old.region.pieces ≡ pieces_of fragment model.now v
        → IfOk result (λ sink. sink.held ≡ der_of (der_message model.now) v) }
{
    let room = instance.count().saturating_mul(DER_OF_PIECE);
    let mut sink = SteadySink::with_room(alloc, room)?;
    measure(model, instance);
    match write_der(model, instance, &mut sink) {
        Ok(()) => Ok(sink),
        Err(_) => Err(AllocError),
    }
}
