//! The readers of DER, as readers that are fed from a source.
ghost use Rattle.lexical_core.specs.declared.rule.Rule.TheVariants.{DerTruncated};
ghost use Rattle.der_codec.specs.Checking.{HasFedDer, IsDerCheckerFor, IsSpelledDer};
ghost use Rattle.der_codec.specs.ReadInstances.{HasKeptPieces, IsDerReaderFor};
ghost use Rattle.transcoder.specs.Checked.{IsDerFault, HoldsDer};

use crate::intake::Intake;
use der_codec::{DerChecker, DerReader};
use inst_pool::Instance;
use message_model::{InstanceError, Model};

impl Intake<()> for DerChecker {
    ghost has_fed = { λ checker T bytes. HasFedDer checker T bytes };

    ghost is_made_for = { λ checker T. IsDerCheckerFor checker T };

    ghost is_faulty = { λ T bytes fault. IsDerFault T bytes fault };

    ghost gives = { λ T bytes _. IsSpelledDer T bytes };

    ghost cut_rule = { DerTruncated };

    fn feed(&mut self, model: &Model, piece: &[u8]) -> Result<(), InstanceError> {
        DerChecker::feed(self, model, piece)
    }

    fn finish(self, model: &Model) -> Result<(), InstanceError> {
        DerChecker::finish(self, model)
    }
}

impl Intake<Instance> for DerReader {
    ghost has_fed = { λ reader T bytes. HasKeptPieces reader T bytes };

    ghost is_made_for = { λ reader T. IsDerReaderFor reader T };

    ghost is_faulty = { λ T bytes fault. IsDerFault T bytes fault };

    ghost gives = { λ T bytes instance. HoldsDer T bytes instance };

    ghost cut_rule = { DerTruncated };

    fn feed(&mut self, model: &Model, piece: &[u8]) -> Result<(), InstanceError> {
        DerReader::feed(self, model, piece)
    }

    fn finish(self, model: &Model) -> Result<Instance, InstanceError> {
        DerReader::finish(self, model)
    }
}
