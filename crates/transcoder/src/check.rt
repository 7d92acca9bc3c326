//! An instance, checked as it comes from a source.
ghost use Rattle.std.specs.Prelude.{◌≡◌, ◌≤◌, IfOk, IfErr, IfSome, OnOk, IsErrOf, IsTrue};
ghost use Rattle.std.specs.Io.KnownBytes.{IsAtEnd};
ghost use Rattle.lexical_core.specs.declared.rule.Rule.TheVariants.{Truncated, DerTruncated};
ghost use Rattle.outside.specs.Source.{Rose};
ghost use Rattle.transcoder.specs.Checked.{IsAccepted, HasXmlFault, RefusesXml, IsFaultOfSome, IsDerAccepted, HasDerFault, RefusesDer, IsDerFaultOfSome};
ghost use Rattle.transcoder.specs.Pulls.{PullsToFault};

use crate::check_error::CheckError;
use crate::reading::read_instance;
use der_codec::DerChecker;
use message_model::Model;
use outside::Source;
use std::alloc::Global;
use xml_instances::XmlChecker;

/// Whether the bytes that the source has left are an instance of the message in XML, ISO 20022-4.
/// They are read to their end, to the piece that shows the first fault, or to the piece with the
/// first byte beyond 2^40. A fault's place is a byte number from 0. A failed pull is not tried again.
pub fn check_xml<I: Source>(alloc: Global, model: &Model, source: &mut I) -> Result<(), CheckError>
    requires { IsTrue (I.may_be_pulled source.old) }
    ensures ok { IfOk result (λ _. IfSome (I.left source.old) (λ bytes. IsAccepted model.now bytes)) }
    ensures whole { OnOk result (IsAtEnd (I.left source.new)) }
    ensures refused { IfErr result (λ e. IfSome (I.left source.old) (λ bytes. RefusesXml model.now bytes e)) }
    ensures placed { IfErr result (λ e. IsFaultOfSome model.now e) }
    ensures pulled { IfErr result (λ e. PullsToFault (HasXmlFault model.now) Truncated (I.left source.old) (I.left source.new) e) }
    ensures fault { IsErrOf result CheckError.ReadFault → Rose (I.faults source.old) (I.faults source.new) }
    ensures later { I.faults source.old ≤ I.faults source.new }
    ensures same { (IsErrOf result CheckError.ReadFault → ⊥) → I.faults source.new ≡ I.faults source.old }
{
    xml_instances::laws::only_cut();
    let checker = XmlChecker::new(alloc, model)?;
    read_instance(alloc, model, source, checker)
}

/// Whether the bytes that the source has left are the DER of an instance of the message, X.690.
/// They are read as `check_xml` reads them.
pub fn check_der<I: Source>(alloc: Global, model: &Model, source: &mut I) -> Result<(), CheckError>
    requires { IsTrue (I.may_be_pulled source.old) }
    ensures ok { IfOk result (λ _. IfSome (I.left source.old) (λ bytes. IsDerAccepted model.now bytes)) }
    ensures whole { OnOk result (IsAtEnd (I.left source.new)) }
    ensures refused { IfErr result (λ e. IfSome (I.left source.old) (λ bytes. RefusesDer model.now bytes e)) }
    ensures placed { IfErr result (λ e. IsDerFaultOfSome model.now e) }
    ensures pulled { IfErr result (λ e. PullsToFault (HasDerFault model.now) DerTruncated (I.left source.old) (I.left source.new) e) }
    ensures fault { IsErrOf result CheckError.ReadFault → Rose (I.faults source.old) (I.faults source.new) }
    ensures later { I.faults source.old ≤ I.faults source.new }
    ensures same { (IsErrOf result CheckError.ReadFault → ⊥) → I.faults source.new ≡ I.faults source.old }
{
    respell::laws::one_tree();
    der_model::laws::tables_are_sound();
    der_codec::laws::only_cut();
    let _ = model.type_count();
    let checker = DerChecker::new(alloc, model)?;
    read_instance(alloc, model, source, checker)
}
