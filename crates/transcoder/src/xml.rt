//! The readers of XML instances, as readers that are fed from a source.
ghost use Rattle.lexical_core.specs.declared.rule.Rule.TheVariants.{Truncated};
ghost use Rattle.xml_instances.specs.Checking.{HasFedXml, IsXmlCheckerFor, IsSpelledXml};
ghost use Rattle.xml_instances.specs.ReadInstances.{HasFedReader, IsXmlReaderFor};
ghost use Rattle.transcoder.specs.Checked.{IsXmlFault, HoldsXml};

use crate::intake::Intake;
use inst_pool::Instance;
use message_model::{InstanceError, Model};
use xml_instances::{XmlChecker, XmlReader};

impl Intake<()> for XmlChecker {
    ghost has_fed = { λ checker T bytes. HasFedXml checker T bytes };

    ghost is_made_for = { λ checker T. IsXmlCheckerFor checker T };

    ghost is_faulty = { λ T bytes fault. IsXmlFault T bytes fault };

    ghost gives = { λ T bytes _. IsSpelledXml T bytes };

    ghost cut_rule = { Truncated };

    fn feed(&mut self, model: &Model, piece: &[u8]) -> Result<(), InstanceError> {
        XmlChecker::feed(self, model, piece)
    }

    fn finish(self, model: &Model) -> Result<(), InstanceError> {
        XmlChecker::finish(self, model)
    }
}

impl Intake<Instance> for XmlReader {
    ghost has_fed = { λ reader T bytes. HasFedReader reader T bytes };

    ghost is_made_for = { λ reader T. IsXmlReaderFor reader T };

    ghost is_faulty = { λ T bytes fault. IsXmlFault T bytes fault };

    ghost gives = { λ T bytes instance. HoldsXml T bytes instance };

    ghost cut_rule = { Truncated };

    fn feed(&mut self, model: &Model, piece: &[u8]) -> Result<(), InstanceError> {
        XmlReader::feed(self, model, piece)
    }

    fn finish(self, model: &Model) -> Result<Instance, InstanceError> {
        XmlReader::finish(self, model)
    }
}
