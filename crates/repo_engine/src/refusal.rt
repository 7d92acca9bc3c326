//! Why a run does not end with `Done`, and the line that says so.
ghost use Rattle.std.specs.Prelude.{◌≡◌, ◌++◌};
ghost use Rattle.std.specs.Fmt.{decimal};
ghost use Rattle.outside.specs.Pushes.{Pushes, as_push};
ghost use Rattle.repo_engine.specs.inner.Arms.{end_of};
ghost use Rattle.repo_engine.specs.Verdict.{codes_line, instance_line, line_end, line_of, refused_message_line, place_text, record_text, refusal_status, repository_line, rule_text, stop_line, stop_status};

use super::status::Status;
use lexical_core::Text;
use message_model::Fault;
use outside::{Part, Render, Sink, SinkError, WriteError, push_bytes, render_all};
use repo_loader::LoadFault;

/// Why words or bytes are refused.
#[derive(Debug, Drop)]
pub enum Refusal {
    /// The words have the form of no command.
    Words,
    /// The repository has this first fault.
    Repository(LoadFault),
    /// The external codes break the rule of this number in the record of that number, counted from
    /// 1; in none where it is 0.
    Codes { rule: u8, number: u64 },
    /// The message breaks the rule of this number: an object's id, or the message's identifier.
    Message { rule: u8, object: Text },
    /// The instance has this first fault.
    Instance(Fault),
}

/// Why a command stops.
#[derive(Debug, Drop)]
pub enum Stop {
    /// The words or the bytes are refused.
    Refused(Refusal),
    /// A source failed.
    ReadFault,
    /// A sink failed.
    WriteFault,
    /// Memory was wanted and not had.
    Memory,
}

impl Stop {
    /// The status that the command ends with, where its line is noted.
    pub fn status(&self) -> Status
        ensures { result ≡ stop_status self.now }
    {
        match self {
            Stop::Refused(refusal) => refusal.status(),
            Stop::ReadFault => Status::ReadFault,
            Stop::WriteFault => Status::WriteFault,
            Stop::Memory => Status::Memory,
        }
    }
}

impl Refusal {
    /// The status of the refusal.
    fn status(&self) -> Status
        ensures { result ≡ refusal_status self.now }
    {
        match self {
            Refusal::Words => Status::Words,
            Refusal::Repository(_) => Status::Repository,
            Refusal::Codes { .. } => Status::Codes,
            Refusal::Message { .. } => Status::Message,
            Refusal::Instance(_) => Status::Instance,
        }
    }
}

impl Render for Stop {
    ghost use Rattle.repo_engine.specs.Verdict.{stop_line};

    ghost rendered = { stop_line };

    fn render<O: Sink>(&self, sink: &mut O) -> Result<(), SinkError>
        ensures { Pushes O.held O.faults O.room sink.old sink.new result (stop_line self.now) }
    {
        match self {
            Stop::Refused(refusal) => refusal.render(sink),
            Stop::ReadFault => push_bytes(b"failed: read\n", sink),
            Stop::WriteFault => push_bytes(b"failed: write\n", sink),
            Stop::Memory => push_bytes(b"failed: memory\n", sink),
        }
    }
}

impl Render for Refusal {
    ghost use Rattle.repo_engine.specs.Verdict.{line_of};

    ghost rendered = { line_of };

    fn render<O: Sink>(&self, sink: &mut O) -> Result<(), SinkError>
        ensures { Pushes O.held O.faults O.room sink.old sink.new result (line_of self.now) }
    {
        match self {
            Refusal::Words => push_bytes(b"refused: words\n", sink),
            Refusal::Repository(fault) => push_repository(fault, sink),
            Refusal::Codes { rule, number } => push_codes(*rule, *number, sink),
            Refusal::Message { rule, object } => push_message(*rule, object.bytes(), sink),
            Refusal::Instance(fault) => push_instance(fault, sink),
        }
    }
}

/// Pushes the line of a repository's fault.
fn push_repository<O: Sink>(fault: &LoadFault, sink: &mut O) -> Result<(), SinkError>
    ensures { Pushes O.held O.faults O.room sink.old sink.new result (repository_line fault.now) }
{
    let (space, markup) = match fault.markup {
        None => ("", ""),
        Some(rule) => (" ", rule.name()),
    };
    let parts = [
        Part::Bytes(b"refused: repository L"),
        Part::Number(u64::from(fault.rule)),
        Part::Bytes(space.as_bytes()),
        Part::Bytes(markup.as_bytes()),
        Part::Bytes(b" at "),
        Part::Number(fault.place),
        Part::Bytes(b"\n"),
    ];
    render_all(parts.as_slice(), sink)
}

/// Pushes the line of a fault of the external codes.
fn push_codes<O: Sink>(rule: u8, number: u64, sink: &mut O) -> Result<(), SinkError>
    ensures { Pushes O.held O.faults O.room sink.old sink.new result (codes_line rule number) }
{
    let front = b"refused: codes C".as_slice();
    if number == 0 {
        push_codes_rule(front, rule, sink)
    } else {
        push_codes_record(front, rule, number, sink)
    }
}

/// Pushes the line of a fault of no record.
fn push_codes_rule<O: Sink>(front: &[u8], rule: u8, sink: &mut O) -> Result<(), SinkError>
    ensures { Pushes O.held O.faults O.room sink.old sink.new result (front.now ++ (decimal rule ++ line_end)) }
{
    let parts = [
        Part::Bytes(front),
        Part::Number(u64::from(rule)),
        Part::Bytes(b"\n"),
    ];
    render_all(parts.as_slice(), sink)
}

/// Pushes the line of a record's fault.
fn push_codes_record<O: Sink>(
    front: &[u8],
    rule: u8,
    number: u64,
    sink: &mut O,
) -> Result<(), SinkError>
    ensures { Pushes O.held O.faults O.room sink.old sink.new result (front.now ++ (decimal rule ++ record_text number)) }
{
    let parts = [
        Part::Bytes(front),
        Part::Number(u64::from(rule)),
        Part::Bytes(b" at record "),
        Part::Number(number),
        Part::Bytes(b"\n"),
    ];
    render_all(parts.as_slice(), sink)
}

/// Pushes the line of a message that breaks a rule.
fn push_message<O: Sink>(rule: u8, object: &[u8], sink: &mut O) -> Result<(), SinkError>
    ensures { Pushes O.held O.faults O.room sink.old sink.new result (refused_message_line rule object.now) }
{
    let parts = [
        Part::Bytes(b"refused: message M"),
        Part::Number(u64::from(rule)),
        Part::Bytes(b" at "),
        Part::Bytes(object),
        Part::Bytes(b"\n"),
    ];
    render_all(parts.as_slice(), sink)
}

/// Pushes the line of an instance's fault.
fn push_instance<O: Sink>(fault: &Fault, sink: &mut O) -> Result<(), SinkError>
    ensures { Pushes O.held O.faults O.room sink.old sink.new result (instance_line fault.now) }
{
    match push_rule(fault.rule.name().as_bytes(), sink) {
        Ok(()) => push_place(fault.place, fault.path.bytes(), sink),
        Err(error) => Err(error),
    }
}

/// Pushes the name of an instance's rule, and what stands before it.
fn push_rule<O: Sink>(rule: &[u8], sink: &mut O) -> Result<(), SinkError>
    ensures { Pushes O.held O.faults O.room sink.old sink.new result (rule_text rule.now) }
{
    let parts = [
        Part::Bytes(b"refused: instance "),
        Part::Bytes(rule),
        Part::Bytes(b" at "),
    ];
    render_all(parts.as_slice(), sink)
}

/// Pushes the place of an instance's fault and its path.
fn push_place<O: Sink>(place: u64, path: &[u8], sink: &mut O) -> Result<(), SinkError>
    ensures { Pushes O.held O.faults O.room sink.old sink.new result (place_text place path.now) }
{
    let parts = [
        Part::Number(place),
        Part::Bytes(b" in "),
        Part::Bytes(path),
        Part::Bytes(b"\n"),
    ];
    render_all(parts.as_slice(), sink)
}

/// How a command ends with the push of its text.
pub fn ended(push: Result<(), SinkError>) -> Result<(), Stop>
    ensures { result ≡ end_of push }
{
    match push {
        Ok(()) => Ok(()),
        Err(SinkError::Failed) => Err(Stop::WriteFault),
        Err(SinkError::Memory) => Err(Stop::Memory),
    }
}

/// How a command ends with the answer of the writer of its text.
pub fn ended_by(writing: Result<(), WriteError>) -> Result<(), Stop>
    ensures { result ≡ end_of (as_push writing) }
{
    match writing {
        Ok(()) => Ok(()),
        Err(WriteError::WriteFault) => Err(Stop::WriteFault),
        Err(WriteError::Memory) => Err(Stop::Memory),
    }
}
