//! Bytes that come in and bytes that go out: [`Source`] and [`Sink`], over memory, files and streams.
//!
//! Each of them counts its faults, and a failure is told only where that count rose. What a source
//! has left and what a sink holds are known to contracts where the source or sink tells them.
//!
//! Of a `MemSource` of the bytes `a<b` that gives two at a call, `pull` fills a longer array with `a<`, then with `b`, and then
//! with nothing, which is the end; [`read_all`] within a limit of 3 gives all of them, and within 2 `TooLong`. A [`Buffer`]
//! gathers what is pushed, and `flush` hands it on.
//!
//! Limits: nothing is tried again, so an interrupted read or write is a failure as any other; a buffer gathers at most 8,192
//! bytes; a count of faults stands still at 2^64 - 1.
#![tactic(auto)]

mod buffer;
mod edge;
mod errors;
mod lent;
mod memory;
mod reading;
mod render;
mod serve;
mod sink;
mod source;
mod steady;

pub use buffer::Buffer;
pub use edge::{ReadSource, WriteSink};
pub use errors::{Failed, SinkError, WriteError};
pub use lent::LentSource;
pub use memory::{MemSink, MemSource, append};
pub use reading::{ReadError, piece_buffer, read_all};
pub use render::{Part, Render, push_bytes, push_number, render_all, write_to};
pub use sink::Sink;
pub use source::Source;
pub use steady::{SteadySink, SteadySource};
