//! The line that is noted where a command does not end with `Done`.
ghost use Rattle.std.specs.Prelude.{◌≡◌};
ghost use Rattle.repo_engine.specs.Run.{Notes, status_behind};

use super::refusal::Stop;
use super::status::Status;
use outside::{Render, Sink, SinkError};

/// Notes the line of a stop, if there is one, and says how the run ends. A fault of the notes is a
/// `WriteFault`; want of memory for the line is `Memory`, but where a sink failed before.
pub fn conclude<N: Sink>(end: &Result<(), Stop>, notes: &mut N) -> Status
    ensures { Notes N.held N.faults N.room notes.old notes.new end.now result }
{
    let Err(stop) = end else {
        return Status::Done;
    };
    let push = stop.render(notes);
    status_after(stop, &push)
}

/// The status behind the push of a stop's line.
fn status_after(stop: &Stop, push: &Result<(), SinkError>) -> Status
    ensures { result ≡ status_behind stop.now push.now }
{
    match push {
        Ok(()) => stop.status(),
        Err(SinkError::Failed) => Status::WriteFault,
        Err(SinkError::Memory) => match stop {
            Stop::WriteFault => Status::WriteFault,
            _ => Status::Memory,
        },
    }
}
