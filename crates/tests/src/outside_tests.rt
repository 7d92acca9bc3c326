//! What no contract says: readers and writers that do little at a time and fail in mid-stream.
ghost use Rattle.std.specs.Prelude.{IsTrue};

use outside::{
    Failed, MemSink, MemSource, ReadError, ReadSource, Sink, SinkError, Source, SteadySink,
    SteadySource, WriteSink, read_all,
};
use std::alloc::Global;
use std::io;
use std::io::{Read, Write};
use std::test::Fail;

// Gives one byte a call, and fails once where `cut` bytes are left.
#[derive(Drop)]
struct ShortReader {
    text: &'static [u8],
    cut: Option<usize>,
}

impl Read for ShortReader {
    fn read(&mut self, buf: &mut [u8]) -> io::Result<usize> {
        if self.cut == Some(self.text.len()) {
            self.cut = None;
            return Err(io::ErrorKind::Other.into());
        }
        if self.text.is_empty() || buf.is_empty() {
            return Ok(0);
        }
        buf[0] = self.text[0];
        self.text = &self.text[1..];
        Ok(1)
    }
}

// Takes at most three bytes a call, fails where it holds `cut` bytes, and takes none where it holds `full`.
#[derive(Drop)]
struct ShortWriter {
    got: Vec<u8>,
    cut: Option<usize>,
    full: Option<usize>,
}

impl Write for ShortWriter {
    fn write(&mut self, buf: &[u8]) -> io::Result<usize> {
        if self.cut == Some(self.got.len()) {
            return Err(io::ErrorKind::BrokenPipe.into());
        }
        if self.full == Some(self.got.len()) {
            return Ok(0);
        }
        let most = buf.len().min(3);
        self.got.extend_from_slice(&buf[..most])?;
        Ok(most)
    }

    fn flush(&mut self) -> io::Result<()> {
        Ok(())
    }
}

// Pulls in pieces of up to four bytes until the end or the first failure.
fn pull_all<S: Source>(alloc: Global, source: &mut S) -> Result<(Vec<u8>, Option<Failed>), Fail>
    requires { IsTrue (S.may_be_pulled source.old) }
{
    let mut got = Vec::new(alloc);
    for call in 0..100 {
        let _ = call;
        let mut buf = [0; 4];
        let count = match source.pull(&mut buf) {
            Ok(count) => count,
            Err(failed) => return Ok((got, Some(failed))),
        };
        if count == 0 {
            break;
        }
        got.extend_from_slice(&buf[..count])?;
    }
    Ok((got, None))
}

// Whether the source gives these bytes up to its end, or up to a failure.
fn gives<S: Source>(
    alloc: Global,
    source: &mut S,
    want: &[u8],
    fault: Option<Failed>,
) -> Result<bool, Fail>
    requires { IsTrue (S.may_be_pulled source.old) }
{
    let (got, failed) = pull_all(alloc, source)?;
    Ok(got.as_slice() == want && failed == fault)
}

// Pushes both texts, and tells the first error.
fn push_both<S: Sink>(sink: &mut S, first: &[u8], second: &[u8]) -> Result<(), SinkError> {
    sink.push(first)?;
    sink.push(second)
}

#[test]
fn a_reader_is_read_to_its_end_or_its_failure(rt: HostRuntime) -> Result<(), Fail> {
    let text = b"abcdef";
    let rows = [
        (None, b"abcdef".as_slice(), None),
        (Some(4), b"ab", Some(Failed)),
        (Some(0), b"abcdef", Some(Failed)),
    ];
    for (cut, want, fault) in rows {
        let mut source = ReadSource::new(ShortReader { text, cut });
        assert!(rt; gives(rt.alloc(), &mut source, want, fault)?);
    }
    Ok(())
}

#[test]
fn a_closed_reader_fails(rt: HostRuntime) -> Result<(), Fail> {
    let mut closed: ReadSource<ShortReader> = ReadSource::closed();
    assert!(rt; gives(rt.alloc(), &mut closed, b"", Some(Failed))?);
    Ok(())
}

#[test]
fn a_read_goes_on_after_a_failure(rt: HostRuntime) -> Result<(), Fail> {
    let mut source = ReadSource::new(ShortReader {
        text: b"abcdef",
        cut: Some(4),
    });
    assert!(rt; gives(rt.alloc(), &mut source, b"ab", Some(Failed))?);
    assert!(rt; gives(rt.alloc(), &mut source, b"cdef", None)?);
    Ok(())
}

// Pushes two texts to a writer that holds `cut` or `full` bytes at most, and tells what it got and the answer.
fn written(
    alloc: Global,
    cut: Option<usize>,
    full: Option<usize>,
) -> Result<(Vec<u8>, Result<(), SinkError>), Fail> {
    let mut writer = ShortWriter {
        got: Vec::with_capacity(alloc, 16)?,
        cut,
        full,
    };
    let answer = push_both(&mut WriteSink::new(&mut writer), b"abcdef", b"gh");
    Ok((writer.got, answer))
}

#[test]
fn a_writer_gets_what_is_pushed_before_its_failure(rt: HostRuntime) -> Result<(), Fail> {
    let rows = [
        (None, None, b"abcdefgh".as_slice(), Ok(())),
        (Some(6), None, b"abcdef", Err(SinkError::Failed)),
        (Some(3), None, b"abc", Err(SinkError::Failed)),
        (None, Some(3), b"abc", Err(SinkError::Failed)),
    ];
    for (cut, full, want, answer) in rows {
        let (got, told) = written(rt.alloc(), cut, full)?;
        assert!(rt; got.as_slice() == want && told == answer);
    }
    Ok(())
}

#[test]
fn memory_gives(rt: HostRuntime) -> Result<(), Fail> {
    let mut source = MemSource::new(rt.alloc(), b"abcdef", 3, &[1])?;
    assert!(rt; gives(rt.alloc(), &mut source, b"abc", Some(Failed))?);
    assert!(rt; gives(rt.alloc(), &mut source, b"def", None)?);
    Ok(())
}

#[test]
fn memory_gives_all(rt: HostRuntime) -> Result<(), Fail> {
    let mut steady = SteadySource::new(rt.alloc(), b"abcdef", 5)?;
    assert!(rt; gives(rt.alloc(), &mut steady, b"abcdef", None)?);
    Ok(())
}

#[test]
fn memory_takes(rt: HostRuntime) -> Result<(), Fail> {
    let mut sink = MemSink::new(rt.alloc(), &[1])?;
    assert!(rt; push_both(&mut sink, b"abc", b"def") == Err(SinkError::Failed));
    assert!(rt; push_both(&mut sink, b"gh", b"") == Ok(()));
    assert!(rt; sink.bytes() == b"abcgh".as_slice());
    Ok(())
}

#[test]
fn memory_takes_more_than_its_room(rt: HostRuntime) -> Result<(), Fail> {
    let mut roomy = SteadySink::with_room(rt.alloc(), 2)?;
    assert!(rt; push_both(&mut roomy, b"ab", b"cdef") == Ok(()));
    assert!(rt; roomy.bytes() == b"abcdef".as_slice());
    Ok(())
}

// A source that is read to its end: a pull that failed is not tried again.
#[test]
fn bytes_are_read_up_to_the_limit(rt: HostRuntime) -> Result<(), Fail> {
    for piece in 1..5 {
        let mut source = MemSource::new(rt.alloc(), b"abc", piece, &[])?;
        let bytes = read_all(rt.alloc(), &mut source, 3)?;
        assert!(rt; bytes.as_slice() == b"abc".as_slice());
    }
    Ok(())
}

#[test]
fn more_bytes_are_too_long(rt: HostRuntime) -> Result<(), Fail> {
    let mut source = MemSource::new(rt.alloc(), b"abc", 2, &[])?;
    let told = read_all(rt.alloc(), &mut source, 2);
    assert!(rt; told.err() == Some(ReadError::TooLong));
    Ok(())
}

#[test]
fn failed_pull_is_not_tried_again(rt: HostRuntime) -> Result<(), Fail> {
    let mut source = MemSource::new(rt.alloc(), b"abc", 1, &[1])?;
    let told = read_all(rt.alloc(), &mut source, 3);
    assert!(rt; told.err() == Some(ReadError::ReadFault));
    let rest = read_all(rt.alloc(), &mut source, 3)?;
    assert!(rt; rest.as_slice() == b"bc".as_slice());
    Ok(())
}
