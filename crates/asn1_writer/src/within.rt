//! A text between two others.
ghost use Rattle.std.specs.Prelude.{◌++◌};
ghost use Rattle.outside.specs.Pushes.{Pushes};

use outside::{Render, Sink, SinkError, push_bytes};

/// Pushes a text between two others.
pub(crate) fn push_within<T: Render, O: Sink>(
    before: &[u8],
    inner: &T,
    behind: &[u8],
    sink: &mut O,
) -> Result<(), SinkError>
    ensures { Pushes O.held O.faults O.room sink.old sink.new result (before.now ++ (T.rendered inner.now ++ behind.now)) }
{
    if let Err(error) = push_bytes(before, sink) {
        return Err(error);
    }
    if let Err(error) = inner.render(sink) {
        return Err(error);
    }
    push_bytes(behind, sink)
}

/// Pushes a name, and a text between two others.
pub(crate) fn push_named<T: Render, O: Sink>(
    name: &[u8],
    before: &[u8],
    inner: &T,
    behind: &[u8],
    sink: &mut O,
) -> Result<(), SinkError>
    ensures { Pushes O.held O.faults O.room sink.old sink.new result (name.now ++ (before.now ++ (T.rendered inner.now ++ behind.now))) }
{
    if let Err(error) = push_bytes(name, sink) {
        return Err(error);
    }
    push_within(before, inner, behind, sink)
}
