//! A source read to its end.
ghost use Rattle.std.specs.Prelude.{ℕ, List, ◌≡◌, ◌+◌, ◌≤◌, ◌<◌, IfOk, IsErrOf, IsTrue, length};
ghost use Rattle.std.specs.Io.{ReadsAtMost};
ghost use Rattle.std.specs.Io.KnownBytes.{Consumes, ReadConsumes};
ghost use Rattle.outside.specs.Source.{Rose, HasCause};
ghost use Rattle.outside.specs.Pulls.{pull_limit};
ghost use Rattle.outside.specs.Reading.{IsRead, IsLonger, PassesBy};
ghost use Rattle.outside.specs.declared.reading.ReadError.TheVariants.{Memory};

use super::errors::Failed;
use super::source::Source;
use std::alloc::{AllocError, Global};
use std::error::Error;
use std::fmt;

/// Why the bytes that a source has left are not given.
#[derive(Clone, Copy, Debug, PartialEq, Eq)]
pub enum ReadError {
    /// They are more than the limit.
    TooLong,
    /// The source failed.
    ReadFault,
    /// Memory was wanted and not had.
    Memory,
}

impl fmt::Display for ReadError {
    ghost use Rattle.std.specs.Prelude.{Some};
    ghost use Rattle.outside.specs.ReadErrors.{read_error_text};

    ghost output = { λ e. Some (read_error_text e) };

    fn fmt<W: fmt::Write>(&self, f: &mut fmt::Formatter<W>) -> fmt::Result {
        f.write_str(match self {
            ReadError::TooLong => "more bytes than the limit",
            ReadError::ReadFault => "the source failed",
            ReadError::Memory => "out of memory",
        })
    }
}

impl Error for ReadError {}

impl From<AllocError> for ReadError {
    ghost from_gives = { λ _ e. e ≡ Memory };

    fn from(_error: AllocError) -> ReadError {
        ReadError::Memory
    }
}

/// How many bytes are asked of a source at once.
const PIECE: usize = 65536;

/// A buffer for what is pulled from a source at once: 65,536 bytes. The error is want of memory.
pub fn piece_buffer(alloc: Global) -> Result<Vec<u8>, AllocError>
    ensures { IfOk result (λ v. length v.items ≡ pull_limit) }
{
    Ok(vec![in alloc; 0u8; PIECE]?)
}

/// Pulls at most this many bytes into the front of the buffer.
fn pull_within<S: Source>(source: &mut S, buf: &mut [u8], most: usize) -> Result<usize, Failed>
    requires some_room { 0 < length buf.old }
    requires some { 0 < most }
    requires unended { IsTrue (S.may_be_pulled source.old) }
    ensures room { 0 < length buf.new }
    ensures bound { ReadsAtMost result buf.new }
    ensures within { IfOk result (λ n. n ≤ most) }
    ensures bytes { ReadConsumes (S.left source.old) (S.left source.new) result buf.new }
    ensures cause { HasCause (S.faults source.old) (S.faults source.new) result }
    ensures more { IfOk result (λ n. 0 < n → IsTrue (S.may_be_pulled source.new)) }
{
    if most < buf.len() {
        source.pull(&mut buf[..most])
    } else {
        source.pull(buf)
    }
}

/// The bytes that the source has left, where they are at most `limit`. It pulls one byte beyond the
/// limit, to tell `TooLong`, and none behind it. `ReadFault` comes with the first pull that fails,
/// and the source gave no more than `limit` before.
pub fn read_all<S: Source>(
    alloc: Global,
    source: &mut S,
    limit: usize,
) -> Result<Vec<u8>, ReadError>
    requires { IsTrue (S.may_be_pulled source.old) }
    ensures bytes { IfOk result (λ v. IsRead (S.left source.old) (S.left source.new) v.items) }
    ensures within { IfOk result (λ v. length v.items ≤ limit) }
    ensures long { IsErrOf result ReadError.TooLong → IsLonger (S.left source.old) limit }
    ensures stops { IsErrOf result ReadError.TooLong → PassesBy (S.left source.old) (S.left source.new) (limit + 1) }
    ensures failed { IsErrOf result ReadError.ReadFault → (taken : List ℕ) × Consumes (S.left source.old) (S.left source.new) taken × (length taken ≤ limit) }
    ensures fault { IsErrOf result ReadError.ReadFault → Rose (S.faults source.old) (S.faults source.new) }
    ensures later { S.faults source.old ≤ S.faults source.new }
    ensures same { (IsErrOf result ReadError.ReadFault → ⊥) → S.faults source.new ≡ S.faults source.old }
{
    let mut buffer = piece_buffer(alloc)?;
    let mut bytes = Vec::new(alloc);
    loop {
        let room = limit - bytes.len();
        let Ok(count) = pull_within(source, &mut buffer, room.saturating_add(1)) else {
            return Err(ReadError::ReadFault);
        };
        if count == 0 {
            return Ok(bytes);
        }
        if count > room {
            return Err(ReadError::TooLong);
        }
        bytes.extend_from_slice(&buffer[..count])?;
    }
}
