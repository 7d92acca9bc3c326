//! The XML Schema of a compiled message.
ghost use Rattle.std.specs.Prelude.{◌≢◌, Err};
ghost use Rattle.repo_engine.specs.Answer.{GivesSchema};
ghost use Rattle.repo_engine.specs.Run.{GoesOut, TellsVerdict};
ghost use Rattle.repo_engine.specs.Sources.{Failing, Refusing, source_ended_of};

use super::refusal::{Refusal, Stop, ended_by};
use message_model::Model;
use outside::Sink;
use std::alloc::Global;
use xsd_model::schema_of;
use xsd_writer::write_schema;

/// Pushes the schema of the message.
pub fn give_schema<O: Sink>(alloc: Global, model: &Model, out: &mut O) -> Result<(), Stop>
    ensures no_words { result ≢ Err (Stop.Refused Refusal.Words) }
    ensures ends { (source_ended_of result ≢ Failing) × (source_ended_of result ≢ Refusing) }
    ensures verdict { TellsVerdict (GivesSchema model.now) result (O.held out.old) (O.held out.new) }
    ensures goes_out { GoesOut O.held O.faults out.old out.new result }
{
    match schema_of(alloc, model) {
        Ok(schema) => ended_by(write_schema(&schema, out)),
        Err(_) => Err(Stop::Memory),
    }
}
