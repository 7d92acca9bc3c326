//! A repository file read from a source.
ghost use Rattle.std.specs.Prelude.{◌≡◌, ◌<◌, ◌≤◌, [], IfOk, IfErr, IfSome, OnOk, IsErrOf, IsTrue, length};
ghost use Rattle.std.specs.Io.KnownBytes.{IsAtEnd};
ghost use Rattle.outside.specs.Pulls.{pull_limit};
ghost use Rattle.outside.specs.Source.{Rose};
ghost use Rattle.repo_loader.specs.Loaded.{Spells};
ghost use Rattle.repo_loader.specs.inner.ProgressSteps.{HasReadFile, HasAll};
ghost use Rattle.repo_loader.specs.LoadErrors.{RefusesFile, IsFaultOfBytes, PullsForFault};

use crate::fault::{LoadError, LoadFault};
use crate::progress::Progress;
use outside::{Source, piece_buffer};
use repo_objects::Repository;
use std::alloc::Global;

/// How many bytes a repository file has at most.
const LIMIT: usize = 1 << 31;

/// The fault where there are more bytes than the limit.
fn too_long() -> LoadFault
    ensures { result ≡ record { rule = 6; markup = None; place = LIMIT } }
{
    LoadFault {
        rule: 6,
        markup: None,
        place: LIMIT as u64,
    }
}

/// Reads the bytes that the source has left: to their end, or to the piece that shows a fault or in
/// which the first byte beyond the limit stands. A failed pull is not tried again.
fn read_to_end<R: Source>(
    piece: &mut [u8],
    progress: &mut Progress,
    source: &mut R,
) -> Result<(), LoadError>
    requires some { 0 < length piece.old }
    requires few { length piece.old ≤ pull_limit }
    requires read { HasReadFile progress.old [] }
    requires unended { IsTrue (R.may_be_pulled source.old) }
    ensures ok { OnOk result (HasAll (R.left source.old) progress.new) }
    ensures whole { OnOk result (IsAtEnd (R.left source.new)) }
    ensures err { IfErr result (λ e. IfSome (R.left source.old) (λ bytes. RefusesFile bytes e)) }
    ensures placed { IfErr result (λ e. IsFaultOfBytes e) }
    ensures pulled { IfErr result (λ e. PullsForFault (R.left source.old) (R.left source.new) e) }
    ensures fault { IsErrOf result LoadError.ReadFault → Rose (R.faults source.old) (R.faults source.new) }
    ensures later { R.faults source.old ≤ R.faults source.new }
    ensures same { (IsErrOf result LoadError.ReadFault → ⊥) → R.faults source.new ≡ R.faults source.old }
{
    markup::laws::no_fault_taken();
    let mut room = LIMIT;
    loop {
        let Ok(count) = source.pull(piece) else {
            return Err(LoadError::ReadFault);
        };
        if count == 0 {
            return match progress.finish()? {
                Some(fault) => Err(LoadError::Refused(fault)),
                None => Ok(()),
            };
        }
        let within = piece[..count].split_at(count.min(room)).0;
        if let Some(fault) = progress.take_all(within)? {
            return Err(LoadError::Refused(fault));
        }
        if count > room {
            let fault = too_long();
            return Err(LoadError::Refused(fault));
        }
        room -= count;
    }
}

/// Reads the bytes that the source has left, and gives the repository that they spell.
fn load_into<R: Source>(
    piece: &mut [u8],
    progress: &mut Progress,
    source: &mut R,
) -> Result<Repository, LoadError>
    requires some { 0 < length piece.old }
    requires few { length piece.old ≤ pull_limit }
    requires read { HasReadFile progress.old [] }
    requires unended { IsTrue (R.may_be_pulled source.old) }
    ensures ok { IfOk result (λ r. IfSome (R.left source.old) (λ bytes. Spells bytes r)) }
    ensures whole { OnOk result (IsAtEnd (R.left source.new)) }
    ensures err { IfErr result (λ e. IfSome (R.left source.old) (λ bytes. RefusesFile bytes e)) }
    ensures placed { IfErr result (λ e. IsFaultOfBytes e) }
    ensures pulled { IfErr result (λ e. PullsForFault (R.left source.old) (R.left source.new) e) }
    ensures fault { IsErrOf result LoadError.ReadFault → Rose (R.faults source.old) (R.faults source.new) }
    ensures later { R.faults source.old ≤ R.faults source.new }
    ensures same { (IsErrOf result LoadError.ReadFault → ⊥) → R.faults source.new ≡ R.faults source.old }
{
    if let Err(error) = read_to_end(piece, progress, source) {
        return Err(error);
    }
    Ok(progress.take_repository()?)
}

/// The repository that the bytes spell which the source has left. They are read to their end, or to the
/// piece that shows a fault or in which the first byte beyond the limit stands. A failed pull is not tried again.
pub fn load<R: Source>(alloc: Global, source: &mut R) -> Result<Repository, LoadError>
    requires { IsTrue (R.may_be_pulled source.old) }
    ensures ok { IfOk result (λ r. IfSome (R.left source.old) (λ bytes. Spells bytes r)) }
    ensures whole { OnOk result (IsAtEnd (R.left source.new)) }
    ensures err { IfErr result (λ e. IfSome (R.left source.old) (λ bytes. RefusesFile bytes e)) }
    ensures placed { IfErr result (λ e. IsFaultOfBytes e) }
    ensures pulled { IfErr result (λ e. PullsForFault (R.left source.old) (R.left source.new) e) }
    ensures fault { IsErrOf result LoadError.ReadFault → Rose (R.faults source.old) (R.faults source.new) }
    ensures later { R.faults source.old ≤ R.faults source.new }
    ensures same { (IsErrOf result LoadError.ReadFault → ⊥) → R.faults source.new ≡ R.faults source.old }
{
    let mut buffer = piece_buffer(alloc)?;
    let mut progress = Progress::new(alloc);
    load_into(buffer.as_mut_slice(), &mut progress, source)
}
