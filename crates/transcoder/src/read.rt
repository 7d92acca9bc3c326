//! `read_xml` and `read_der`: an instance, read as it comes from a source, and kept as pieces.
ghost use Rattle.std.specs.Prelude.{◌≡◌, ◌≤◌, ℕ, List, IfOk, IfErr, IfSome, OnOk, IsErrOf, IsTrue, length};
ghost use Rattle.std.specs.Io.KnownBytes.{IsAtEnd};
ghost use Rattle.lexical_core.specs.declared.rule.Rule.TheVariants.{Truncated, DerTruncated};
ghost use Rattle.outside.specs.Source.{Rose};
ghost use Rattle.transcoder.specs.Checked.{HoldsXml, HoldsDer, HasXmlFault, HasDerFault, RefusesXml, RefusesDer, IsFaultOfSome, IsDerFaultOfSome};
ghost use Rattle.transcoder.specs.Limited.{most_bytes};
ghost use Rattle.transcoder.specs.Pulls.{PullsToFault};

use crate::check_error::CheckError;
use crate::reading::read_instance;
use der_codec::DerReader;
use inst_pool::Instance;
use message_model::Model;
use outside::Source;
use std::alloc::Global;
use xml_instances::XmlReader;

/// The instance in XML that the source has left, as pieces. It is read as `check_xml` reads it.
pub(crate) fn read_xml<I: Source>(
    alloc: Global,
    model: &Model,
    source: &mut I,
) -> Result<Instance, CheckError>
    requires { IsTrue (I.may_be_pulled source.old) }
    ensures ok { IfOk result (λ instance. IfSome (I.left source.old) (λ bytes. HoldsXml model.now bytes instance × (length bytes ≤ most_bytes))) }
    ensures given { IfOk result (λ instance. (bytes : List ℕ) × HoldsXml model.now bytes instance) }
    ensures whole { OnOk result (IsAtEnd (I.left source.new)) }
    ensures refused { IfErr result (λ e. IfSome (I.left source.old) (λ bytes. RefusesXml model.now bytes e)) }
    ensures placed { IfErr result (λ e. IsFaultOfSome model.now e) }
    ensures pulled { IfErr result (λ e. PullsToFault (HasXmlFault model.now) Truncated (I.left source.old) (I.left source.new) e) }
    ensures fault { IsErrOf result CheckError.ReadFault → Rose (I.faults source.old) (I.faults source.new) }
    ensures later { I.faults source.old ≤ I.faults source.new }
    ensures same { (IsErrOf result CheckError.ReadFault → ⊥) → I.faults source.new ≡ I.faults source.old }
{
    xml_instances::laws::only_cut();
    let reader = XmlReader::new(alloc, model)?;
    read_instance(alloc, model, source, reader)
}

/// The instance in DER that the source has left, as pieces. It is read as `check_der` reads it.
pub(crate) fn read_der<I: Source>(
    alloc: Global,
    model: &Model,
    source: &mut I,
) -> Result<Instance, CheckError>
    requires { IsTrue (I.may_be_pulled source.old) }
    ensures ok { IfOk result (λ instance. IfSome (I.left source.old) (λ bytes. HoldsDer model.now bytes instance × (length bytes ≤ most_bytes))) }
    ensures given { IfOk result (λ instance. (bytes : List ℕ) × HoldsDer model.now bytes instance) }
    ensures whole { OnOk result (IsAtEnd (I.left source.new)) }
    ensures refused { IfErr result (λ e. IfSome (I.left source.old) (λ bytes. RefusesDer model.now bytes e)) }
    ensures placed { IfErr result (λ e. IsDerFaultOfSome model.now e) }
    ensures pulled { IfErr result (λ e. PullsToFault (HasDerFault model.now) DerTruncated (I.left source.old) (I.left source.new) e) }
    ensures fault { IsErrOf result CheckError.ReadFault → Rose (I.faults source.old) (I.faults source.new) }
    ensures later { I.faults source.old ≤ I.faults source.new }
    ensures same { (IsErrOf result CheckError.ReadFault → ⊥) → I.faults source.new ≡ I.faults source.old }
{
    respell::laws::one_tree();
    der_model::laws::tables_are_sound();
    der_codec::laws::only_cut();
    let _ = model.type_count();
    let reader = DerReader::new(alloc, model)?;
    read_instance(alloc, model, source, reader)
}
