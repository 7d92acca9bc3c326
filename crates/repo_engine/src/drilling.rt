//! What a drill tells.
ghost use Rattle.std.specs.Prelude.{◌≢◌, ◌≤◌, Err};
ghost use Rattle.outside.specs.Pushes.{Pushes};
ghost use Rattle.drill.specs.Growing.{most_beside};
ghost use Rattle.repo_engine.specs.Answer.{Drills};
ghost use Rattle.repo_engine.specs.Run.{GoesOut, TellsVerdict};
ghost use Rattle.repo_engine.specs.Sources.{Failing, Refusing, source_ended_of};
ghost use Rattle.repo_engine.specs.Texts.{drill_text};

use super::refusal::{Refusal, Stop, ended};
use drill::{Drilled, drill};
use outside::{Part, Sink, SinkError, render_all};
use std::alloc::Global;

/// Pushes the line of the drill on two numbers.
pub fn give_drill<O: Sink>(alloc: Global, number: u64, size: u32, out: &mut O) -> Result<(), Stop>
    requires { size ≤ most_beside }
    ensures no_words { result ≢ Err (Stop.Refused Refusal.Words) }
    ensures ends { (source_ended_of result ≢ Failing) × (source_ended_of result ≢ Refusing) }
    ensures verdict { TellsVerdict (Drills number size) result (O.held out.old) (O.held out.new) }
    ensures goes_out { GoesOut O.held O.faults out.old out.new result }
{
    match drill(alloc, number, size) {
        Ok(drilled) => ended(push_drilled(&drilled, out)),
        Err(_) => Err(Stop::Memory),
    }
}

/// Pushes the line of what a drill tells.
fn push_drilled<O: Sink>(drilled: &Drilled, out: &mut O) -> Result<(), SinkError>
    ensures { Pushes O.held O.faults O.room out.old out.new result (drill_text drilled.now) }
{
    let parts = [
        Part::Bytes(b"nodes "),
        Part::Number(u64::from(drilled.nodes)),
        Part::Bytes(b" depth "),
        Part::Number(u64::from(drilled.depth)),
        Part::Bytes(b" xml "),
        Part::Number(drilled.xml),
        Part::Bytes(b" der "),
        Part::Number(drilled.der),
        Part::Bytes(b" agree\n"),
    ];
    render_all(parts.as_slice(), out)
}
