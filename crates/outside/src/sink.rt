//! Where bytes go to.
ghost use Rattle.std.specs.Prelude.{ℕ, List, Option};
ghost use Rattle.outside.specs.Sink.{PushAppends, HasSinkCause, HasRoom};

use super::errors::SinkError;

/// A place for bytes that go outside.
pub trait Sink {
    /// The bytes that are held, where the sink tells them.
    ghost held: { Self → Option (List ℕ) };

    /// How often the sink has failed. It stands still at `u64::MAX`.
    ghost faults: { Self → ℕ };

    /// How many bytes the sink takes without asking for memory.
    ghost room: { Self → ℕ };

    /// Appends the bytes. After an error the sink holds what it held and the first of them, perhaps
    /// none. `Failed` comes only where the count of faults rose, and `Memory` only where the bytes
    /// are more than the room.
    fn push(&mut self, bytes: &[u8]) -> Result<(), SinkError>
        ensures bytes { PushAppends (held self.old) (held self.new) result bytes.now }
        ensures cause { HasSinkCause (faults self.old) (faults self.new) result }
        ensures room { HasRoom (room self.old) (room self.new) result bytes.now };
}
