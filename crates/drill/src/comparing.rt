//! Both forms of an instance, brought into each other and compared.
ghost use Rattle.std.specs.Prelude.{◌≡◌, ◌≤◌, IfOk, length};
ghost use Rattle.data_types.specs.Value.{Value};
ghost use Rattle.message_model.specs.Tables.{message_of};
ghost use Rattle.der_model.specs.Der.{der_of, SpellsDer};
ghost use Rattle.der_model.specs.DerMessage.{der_message};
ghost use Rattle.xml_instances.specs.SpellsXml.{SpellsXml};
ghost use Rattle.xml_writer.specs.CanonXml.{IsCanonXml};
ghost use Rattle.transcoder.specs.Limited.{most_bytes};
ghost use Rattle.drill.specs.inner.Forms.{AreForms};

use crate::known_sink::KnownSink;
use message_model::Model;
use outside::LentSource;
use std::alloc::{AllocError, Global};
use transcoder::{TransError, der_to_xml, xml_to_der};

/// Brings both forms of an instance into each other, and compares what comes with the other form.
pub(crate) fn compare_both(
    alloc: Global,
    model: &Model,
    xml: &[u8],
    der: &[u8],
) -> Result<(), AllocError>
    requires { (v : Value) × AreForms model.now v xml.now der.now }
{
    xml_writer::laws::a_value_has_one_canonical_xml();
    compare_der(alloc, model, xml, der)?;
    compare_xml(alloc, model, xml, der)
}

/// Brings the XML of an instance into DER, and compares.
fn compare_der(alloc: Global, model: &Model, xml: &[u8], der: &[u8]) -> Result<(), AllocError>
    requires { (v : Value) × AreForms model.now v xml.now der.now }
{
    let again = der_again(alloc, model, xml, der)?;
    compare(&again, der);
    Ok(())
}

/// Brings the DER of an instance into XML, and compares.
fn compare_xml(alloc: Global, model: &Model, xml: &[u8], der: &[u8]) -> Result<(), AllocError>
    requires { (v : Value) × AreForms model.now v xml.now der.now }
{
    xml_writer::laws::a_value_has_one_canonical_xml();
    let again = xml_again(alloc, model, der, xml)?;
    compare(&again, xml);
    Ok(())
}

/// The DER of an instance in XML, in a sink that is to get that text.
fn der_again<'a>(
    alloc: Global,
    model: &Model,
    xml: &[u8],
    text: &'a [u8],
) -> Result<KnownSink<'a>, AllocError>
    requires { (v : Value) × SpellsXml (message_of model.now) xml.now v × (length xml.now ≤ most_bytes) }
    ensures { (v : Value) → SpellsXml (message_of model.now) xml.now v → IfOk result (λ sink. sink ≡ der_of (der_message model.now) v) }
{
    transcoder::laws::one_verdict();
    let _ = model.type_count();
    let mut source = LentSource::new(xml);
    let mut sink = KnownSink::new(alloc, text);
    match xml_to_der(alloc, model, &mut source, &mut sink) {
        Ok(()) => Ok(sink),
        Err(error) => Err(wanting(error)),
    }
}

/// The canonical XML of an instance in DER, in a sink that is to get that text.
fn xml_again<'a>(
    alloc: Global,
    model: &Model,
    der: &[u8],
    text: &'a [u8],
) -> Result<KnownSink<'a>, AllocError>
    requires { (v : Value) × SpellsDer (der_message model.now) der.now v × (length der.now ≤ most_bytes) }
    ensures { (v : Value) → SpellsDer (der_message model.now) der.now v → IfOk result (λ sink. IsCanonXml (message_of model.now) v sink) }
{
    transcoder::laws::one_der_verdict();
    let _ = model.type_count();
    let mut source = LentSource::new(der);
    let mut sink = KnownSink::new(alloc, text);
    match der_to_xml(alloc, model, &mut source, &mut sink) {
        Ok(()) => Ok(sink),
        Err(error) => Err(wanting(error)),
    }
}

/// Want of memory, which alone stops a transcoding of an instance in memory.
fn wanting(error: TransError) -> AllocError
    requires { error ≡ TransError.Memory }
{
    match error {
        TransError::Memory => AllocError,
        _ => unreachable!(),
    }
}

/// Compares what a sink holds with a text, which is the same.
fn compare(again: &KnownSink<'_>, text: &[u8])
    requires { again.now ≡ text.now }
{
    if !again.holds(text) {
        unreachable!()
    }
}
