//! `read_instance`: pulls pieces within 2^40 bytes from a source, and feeds them to what takes them in.
ghost use Rattle.std.specs.Prelude.{◌≡◌, ◌<◌, ◌≤◌, ℕ, List, [], IfOk, IfErr, IfSome, OnOk, IsErrOf, IsTrue, length, codes};
ghost use Rattle.std.specs.Io.KnownBytes.{Consumes, IsAtEnd};
ghost use Rattle.outside.specs.Pulls.{StopsSoon, pull_limit};
ghost use Rattle.outside.specs.Source.{Rose};
ghost use Rattle.message_model.specs.declared.fault.Fault.{Fault as Told};
ghost use Rattle.transcoder.specs.CheckErrors.{RefusesBy, IsOfSome};
ghost use Rattle.transcoder.specs.Limited.{most_bytes, IsLimited};
ghost use Rattle.transcoder.specs.inner.Reading.{WasFed, IsTooManyBytes, IsBeyondWhole, IsBeyondError, Concludes, ReadsTo, GivesSome};
ghost use Rattle.transcoder.specs.Pulls.{PullsToFault};

use crate::check_error::CheckError;
use crate::intake::Intake;
use lexical_core::{Rule, Text};
use message_model::{Fault, InstanceError, Model};
use outside::{Source, piece_buffer};
use std::alloc::{AllocError, Global};

/// How many bytes an instance has at most.
const LIMIT: usize = 1 << 40;

/// How far a source goes.
pub(crate) enum Extent {
    /// It ended within the limit.
    Whole,
    /// It has more bytes than the limit.
    Longer,
}

/// That there are more bytes than the limit, with the path of what is open there.
fn too_long(path: Text) -> CheckError
    ensures { IsTooManyBytes path result }
{
    CheckError::Refused(Fault {
        rule: Rule::InputTooLong,
        place: LIMIT as u64,
        path,
    })
}

/// The path outside the root.
fn root_path(alloc: Global) -> Result<Text, AllocError>
    ensures { IfOk result (λ t. t ≡ codes "/") }
{
    let mut path = Text::new(alloc);
    path.extend(b"/")?;
    Ok(path)
}

/// What is told where more bytes come than the limit, and those before are an instance.
fn beyond_whole(alloc: Global) -> CheckError
    ensures { IsBeyondWhole result }
{
    match root_path(alloc) {
        Ok(path) => too_long(path),
        Err(_) => CheckError::Memory,
    }
}

/// What is told where more bytes come than the limit, and those before have this error at their end.
fn beyond_error(error: InstanceError) -> CheckError
    ensures { IsBeyondError error result }
{
    match error {
        InstanceError::Refused(fault) => too_long(fault.path),
        InstanceError::Memory => CheckError::Memory,
    }
}

/// What the reading of a source that was read so far answers, by what the end of the bytes is.
fn concluded<W: Drop>(
    alloc: Global,
    read: Result<Extent, CheckError>,
    end: Result<W, InstanceError>,
) -> Result<W, CheckError>
    ensures { Concludes read end result }
{
    match read {
        Ok(Extent::Whole) => match end {
            Ok(given) => Ok(given),
            Err(error) => Err(CheckError::from(error)),
        },
        Ok(Extent::Longer) => match end {
            Ok(_) => Err(beyond_whole(alloc)),
            Err(error) => Err(beyond_error(error)),
        },
        Err(error) => Err(error),
    }
}

/// Feeds the reader with what the source has left: to its end, to the piece that shows the first
/// fault, or to the piece with the first byte beyond the limit.
fn feed_all<I: Source, W, X: Intake<W>>(
    model: &Model,
    source: &mut I,
    piece: &mut [u8],
    reader: &mut X,
) -> Result<Extent, CheckError>
    requires piece { 0 < length piece.old }
    requires few { length piece.old ≤ pull_limit }
    requires made { X.is_made_for reader.old model.now }
    requires fresh { X.has_fed reader.old model.now [] }
    requires unended { IsTrue (I.may_be_pulled source.old) }
    ensures made { X.is_made_for reader.new model.now }
    ensures read { ReadsTo (λ x. X.has_fed x model.now) (λ x. X.is_made_for x model.now) (IsLimited (X.is_faulty model.now) (GivesSome (X.gives model.now)) X.cut_rule) (I.left source.old) (I.left source.new) reader.new result }
    ensures pulled { StopsSoon (WasFed (λ x. X.has_fed x model.now)) (I.left source.old) (I.left source.new) }
    ensures failed { IsErrOf result CheckError.ReadFault → (taken : List ℕ) × Consumes (I.left source.old) (I.left source.new) taken × WasFed (λ x. X.has_fed x model.now) taken }
    ensures fault { IsErrOf result CheckError.ReadFault → Rose (I.faults source.old) (I.faults source.new) }
    ensures later { I.faults source.old ≤ I.faults source.new }
    ensures same { (IsErrOf result CheckError.ReadFault → ⊥) → I.faults source.new ≡ I.faults source.old }
{
    let mut room = LIMIT;
    loop {
        let Ok(count) = source.pull(piece) else {
            return Err(CheckError::ReadFault);
        };
        if count == 0 {
            return Ok(Extent::Whole);
        }
        let within = piece[..count].split_at(count.min(room)).0;
        if let Err(error) = reader.feed(model, within) {
            return Err(CheckError::from(error));
        }
        if count > room {
            return Ok(Extent::Longer);
        }
        room -= count;
    }
}

/// Reads an instance from what the source has left: to its end, to the piece that shows the first
/// fault, or to the piece with the first byte beyond 2^40. A failed pull is not tried again.
pub(crate) fn read_instance<I: Source, W: Drop, X: Intake<W> + Drop>(
    alloc: Global,
    model: &Model,
    source: &mut I,
    reader: X,
) -> Result<W, CheckError>
    requires made { X.is_made_for reader model.now }
    requires fresh { X.has_fed reader model.now [] }
    requires unended { IsTrue (I.may_be_pulled source.old) }
    requires only_cut { (x : X) (bytes : List ℕ) (fault : Told) → X.has_fed x model.now bytes → X.is_faulty model.now bytes fault → fault.rule ≡ X.cut_rule }
    ensures ok { IfOk result (λ given. IfSome (I.left source.old) (λ bytes. X.gives model.now bytes given × (length bytes ≤ most_bytes))) }
    ensures given { IfOk result (λ given. (bytes : List ℕ) × X.gives model.now bytes given) }
    ensures whole { OnOk result (IsAtEnd (I.left source.new)) }
    ensures refused { IfErr result (λ e. IfSome (I.left source.old) (λ bytes. RefusesBy (IsLimited (X.is_faulty model.now) (GivesSome (X.gives model.now)) X.cut_rule) bytes e)) }
    ensures placed { IfErr result (λ e. IsOfSome (IsLimited (X.is_faulty model.now) (GivesSome (X.gives model.now)) X.cut_rule) e) }
    ensures pulled { IfErr result (λ e. PullsToFault (X.is_faulty model.now) X.cut_rule (I.left source.old) (I.left source.new) e) }
    ensures fault { IsErrOf result CheckError.ReadFault → Rose (I.faults source.old) (I.faults source.new) }
    ensures later { I.faults source.old ≤ I.faults source.new }
    ensures same { (IsErrOf result CheckError.ReadFault → ⊥) → I.faults source.new ≡ I.faults source.old }
{
    let mut reader = reader;
    let mut buffer = piece_buffer(alloc)?;
    let read = feed_all(model, source, buffer.as_mut_slice(), &mut reader);
    let end = reader.finish(model);
    concluded(alloc, read, end)
}
