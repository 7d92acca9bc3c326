//! The ASN.1 module of a compiled message.
ghost use Rattle.std.specs.Prelude.{◌≢◌, Err};
ghost use Rattle.repo_engine.specs.Answer.{GivesModule};
ghost use Rattle.repo_engine.specs.Run.{GoesOut, TellsVerdict};
ghost use Rattle.repo_engine.specs.Sources.{Failing, Refusing, source_ended_of};

use super::refusal::{Refusal, Stop, ended_by};
use asn1_model::module_of;
use asn1_writer::write_module;
use message_model::Model;
use outside::Sink;
use std::alloc::Global;

/// Pushes the module of the message.
pub fn give_module<O: Sink>(alloc: Global, model: &Model, out: &mut O) -> Result<(), Stop>
    ensures no_words { result ≢ Err (Stop.Refused Refusal.Words) }
    ensures ends { (source_ended_of result ≢ Failing) × (source_ended_of result ≢ Refusing) }
    ensures verdict { TellsVerdict (GivesModule model.now) result (O.held out.old) (O.held out.new) }
    ensures goes_out { GoesOut O.held O.faults out.old out.new result }
{
    match module_of(alloc, model) {
        Ok(module) => ended_by(write_module(&module, out)),
        Err(_) => Err(Stop::Memory),
    }
}
