//! The contents octets of leaves: X.690 §8.2, §8.3, §8.5, §11.1, §11.3.
ghost use Rattle.std.specs.Prelude.{◌≡◌, ◌+◌, ◌<◌, ◌≤◌, [], ◌∷◌, ◌++◌, length};
ghost use Rattle.outside.specs.Pushes.{Pushes};
ghost use Rattle.data_types.specs.LeafAnswers.{leaf_of};
ghost use Rattle.data_types.specs.Leaf.{octet_count};
ghost use Rattle.der_model.specs.LeafContents.{leaf_contents, integer_octets, flag_octet};
ghost use Rattle.der_model.specs.RealContents.{real_contents};
ghost use Rattle.der_writer.specs.inner.Heads.{head_octets};

use crate::head::Head;
use crate::heads::push_head;
use data_types::LeafRef;
use lexical_core::Decimal;
use outside::{Sink, SinkError, push_bytes};

/// Pushes contents behind their head.
#[inline(always)]
fn push_octets<O: Sink>(head: Option<Head>, contents: &[u8], sink: &mut O) -> Result<(), SinkError>
    ensures { Pushes O.held O.faults O.room sink.old sink.new result (head_octets head (length contents.now) ++ contents.now) }
{
    if let Err(error) = push_head(head, contents.len() as u64, sink) {
        return Err(error);
    }
    push_bytes(contents, sink)
}

/// The same, in a function of its own: contents that are not bytes are few.
#[inline(never)]
fn push_contents<O: Sink>(
    head: Option<Head>,
    contents: &[u8],
    sink: &mut O,
) -> Result<(), SinkError>
    ensures { Pushes O.held O.faults O.room sink.old sink.new result (head_octets head (length contents.now) ++ contents.now) }
{
    push_octets(head, contents, sink)
}

/// Pushes a REAL: §8.5.8, §11.3.2.
#[inline(never)]
fn push_real<O: Sink>(head: Option<Head>, number: Decimal, sink: &mut O) -> Result<(), SinkError>
    ensures { Pushes O.held O.faults O.room sink.old sink.new result (head_octets head (length (real_contents number)) ++ real_contents number) }
{
    let _scale = number.scale();
    let mut buf = [0; 32];
    let length = number.nr3_into(&mut buf);
    push_contents(head, &buf[..length], sink)
}

/// How many octets a REAL has.
#[inline(never)]
fn real_size(number: Decimal) -> u64
    ensures size { result ≡ length (real_contents number) }
    ensures most { result ≤ 32 }
{
    let _scale = number.scale();
    let mut buf = [0; 32];
    number.nr3_into(&mut buf) as u64
}

/// Pushes a BOOLEAN: §8.2, §11.1.
fn push_flag<O: Sink>(head: Option<Head>, flag: bool, sink: &mut O) -> Result<(), SinkError>
    ensures { Pushes O.held O.faults O.room sink.old sink.new result (head_octets head 1 ++ flag_octet flag ∷ []) }
{
    let octet = if flag { 0xFF } else { 0x00 };
    push_contents(head, [octet].as_slice(), sink)
}

/// Pushes an ENUMERATED: §8.4, §8.3.
#[inline(never)]
fn push_code<O: Sink>(head: Option<Head>, place: u32, sink: &mut O) -> Result<(), SinkError>
    ensures { Pushes O.held O.faults O.room sink.old sink.new result (head_octets head (length (integer_octets place)) ++ integer_octets place) }
{
    let first = (place % 256) as u8;
    if place < 0x80 {
        return push_contents(head, [first].as_slice(), sink);
    }
    let second = (place / 256 % 256) as u8;
    if place < 0x8000 {
        return push_contents(head, [second, first].as_slice(), sink);
    }
    let third = (place / 256 / 256 % 256) as u8;
    if place < 0x80_0000 {
        return push_contents(head, [third, second, first].as_slice(), sink);
    }
    let fourth = (place / 256 / 256 / 256) as u8;
    if place < 0x8000_0000 {
        return push_contents(head, [fourth, third, second, first].as_slice(), sink);
    }
    push_contents(head, [0, fourth, third, second, first].as_slice(), sink)
}

/// How many octets an ENUMERATED has.
fn code_size(place: u32) -> u64
    ensures size { result ≡ length (integer_octets place) }
    ensures most { result ≤ 5 }
{
    if place < 0x80 {
        return 1;
    }
    if place < 0x8000 {
        return 2;
    }
    if place < 0x80_0000 {
        return 3;
    }
    if place < 0x8000_0000 { 4 } else { 5 }
}

/// Pushes a leaf behind its head.
#[inline(always)]
pub(crate) fn push_leaf<O: Sink>(
    head: Option<Head>,
    leaf: &LeafRef<'_>,
    sink: &mut O,
) -> Result<(), SinkError>
    ensures { Pushes O.held O.faults O.room sink.old sink.new result (head_octets head (length (leaf_contents (leaf_of leaf.now))) ++ leaf_contents (leaf_of leaf.now)) }
{
    match leaf {
        LeafRef::Bytes(bytes) => push_octets(head, bytes, sink),
        LeafRef::Number(number) => push_real(head, *number, sink),
        LeafRef::Flag(flag) => push_flag(head, *flag, sink),
        LeafRef::Code(place) => push_code(head, *place, sink),
    }
}

/// How many contents octets a leaf has.
pub(crate) fn leaf_size(leaf: &LeafRef<'_>) -> u64
    ensures size { result ≡ length (leaf_contents (leaf_of leaf.now)) }
    ensures most { result ≤ octet_count (leaf_of leaf.now) + 32 }
{
    match leaf {
        LeafRef::Bytes(bytes) => bytes.len() as u64,
        LeafRef::Number(number) => real_size(*number),
        LeafRef::Flag(_) => 1,
        LeafRef::Code(place) => code_size(*place),
    }
}
