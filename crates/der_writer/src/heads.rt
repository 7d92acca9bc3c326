//! Heads as octets, identifier octets and then length octets, and how many there are: X.690 §8.1.2, §8.1.3, §10.1.
ghost use Rattle.std.specs.Prelude.{◌≡◌, ◌+◌, ◌<◌, ◌≤◌, ◌++◌, Bool, true, length};
ghost use Rattle.std.specs.Int.Digits.{digits_of};
ghost use Rattle.outside.specs.Pushes.{Pushes};
ghost use Rattle.der_octets.specs.Octets.{Tag, Context as ContextClass, context, identifier, length_octets, class_bits, form_bit};
ghost use Rattle.der_writer.specs.inner.PieceOctets.{head};
ghost use Rattle.der_writer.specs.inner.Heads.{class_of, tag_of, head_octets};

use crate::head::{Class, Head};
use outside::{Sink, SinkError, push_bytes};

/// The bits of the class and of the form: §8.1.2.2, §8.1.2.5.
fn bits(head: Head) -> u8
    ensures bits { result ≡ class_bits (class_of head.class) + form_bit head.constructed }
    ensures most { result ≤ 160 }
{
    match (head.class, head.constructed) {
        (Class::Universal, false) => 0x00,
        (Class::Universal, true) => 0x20,
        (Class::Context, false) => 0x80,
        (Class::Context, true) => 0xA0,
    }
}

/// Pushes identifier octets.
fn push_identifier<O: Sink>(head: Head, sink: &mut O) -> Result<(), SinkError>
    ensures { Pushes O.held O.faults O.room sink.old sink.new result (identifier head.constructed (tag_of head)) }
{
    let bits = bits(head);
    let number = head.number;
    if number < 31 {
        return push_bytes([bits + number as u8].as_slice(), sink);
    }
    if number < 128 {
        return push_bytes([bits + 31, number as u8].as_slice(), sink);
    }
    let octets = [bits + 31, 128 + (number / 128) as u8, (number % 128) as u8];
    push_bytes(octets.as_slice(), sink)
}

/// How many identifier octets there are with this number.
#[inline(always)]
fn number_size(number: u32) -> u64
    requires { number < 16384 }
    ensures size { (form : Bool) (tag : Tag) → tag.number ≡ number → result ≡ length (identifier form tag) }
    ensures most { result ≤ 3 }
{
    if number < 31 {
        return 1;
    }
    if number < 128 { 2 } else { 3 }
}

/// Pushes the digits of a number in base 256.
fn push_digits<O: Sink>(number: u64, sink: &mut O) -> Result<(), SinkError>
    ensures { Pushes O.held O.faults O.room sink.old sink.new result (digits_of 256 number) }
{
    if number == 0 {
        return Ok(());
    }
    if let Err(error) = push_digits(number / 256, sink) {
        return Err(error);
    }
    push_bytes([(number % 256) as u8].as_slice(), sink)
}

/// How many digits a number has in base 256.
#[inline(never)]
fn digit_count(number: u64) -> u64
    ensures count { result ≡ length (digits_of 256 number) }
    ensures most { result ≤ 8 }
{
    let mut count = 0;
    let mut left = number;
    while left > 0 {
        left /= 256;
        count += 1;
    }
    count
}

/// Pushes length octets.
fn push_length<O: Sink>(len: u64, sink: &mut O) -> Result<(), SinkError>
    ensures { Pushes O.held O.faults O.room sink.old sink.new result (length_octets len) }
{
    if len < 128 {
        return push_bytes([len as u8].as_slice(), sink);
    }
    if let Err(error) = push_bytes([128 + digit_count(len) as u8].as_slice(), sink) {
        return Err(error);
    }
    push_digits(len, sink)
}

/// How many length octets there are.
fn length_size(len: u64) -> u64
    ensures size { result ≡ length (length_octets len) }
    ensures most { result ≤ 9 }
{
    if len < 128 { 1 } else { 1 + digit_count(len) }
}

/// Whether the head has one identifier octet and one length octet, as most have.
fn is_short(head: Head, len: u64) -> bool
    ensures { result ≡ true → (head.number < 31) × (len < 128) }
{
    is_low(u32::from(head.number), len)
}

/// Pushes a head of one identifier octet and one length octet.
fn push_short<O: Sink>(head: Head, len: u64, sink: &mut O) -> Result<(), SinkError>
    requires number { head.number < 31 }
    requires len { len < 128 }
    ensures { Pushes O.held O.faults O.room sink.old sink.new result (identifier head.constructed (tag_of head) ++ length_octets len) }
{
    push_bytes([bits(head) + head.number as u8, len as u8].as_slice(), sink)
}

/// Pushes a head of any number of octets.
#[inline(never)]
fn push_long<O: Sink>(head: Head, len: u64, sink: &mut O) -> Result<(), SinkError>
    ensures { Pushes O.held O.faults O.room sink.old sink.new result (identifier head.constructed (tag_of head) ++ length_octets len) }
{
    if let Err(error) = push_identifier(head, sink) {
        return Err(error);
    }
    push_length(len, sink)
}

/// Whether a head with this number has one identifier octet and one length octet.
fn is_low(number: u32, len: u64) -> bool
    ensures { result ≡ true → (number < 31) × (len < 128) }
{
    number < 31 && len < 128
}

/// The bits of the class and of the form of a context tag.
fn context_bits(constructed: bool) -> u8
    ensures bits { result ≡ class_bits ContextClass + form_bit constructed }
    ensures most { result ≤ 160 }
{
    if constructed { 0xA0 } else { 0x80 }
}

/// Pushes a head with a context tag. Mostly it is short, and then no head is made.
#[inline(always)]
pub(crate) fn push_context<O: Sink>(
    constructed: bool,
    number: u32,
    len: u64,
    sink: &mut O,
) -> Result<(), SinkError>
    requires { number < 16384 }
    ensures { Pushes O.held O.faults O.room sink.old sink.new result (head constructed (context number) len) }
{
    if is_low(number, len) {
        let bits = context_bits(constructed);
        return push_bytes([bits + number as u8, len as u8].as_slice(), sink);
    }
    push_long(Head::context(constructed, number), len, sink)
}

/// Pushes a head before so many contents octets; nothing where there is none.
#[inline(always)]
pub(crate) fn push_head<O: Sink>(
    head: Option<Head>,
    len: u64,
    sink: &mut O,
) -> Result<(), SinkError>
    ensures { Pushes O.held O.faults O.room sink.old sink.new result (head_octets head len) }
{
    let Some(head) = head else {
        return Ok(());
    };
    if is_short(head, len) {
        return push_short(head, len, sink);
    }
    push_long(head, len, sink)
}

/// How many octets a head has before so many contents octets.
pub(crate) fn head_size(head: Option<Head>, len: u64) -> u64
    ensures size { result ≡ length (head_octets head len) }
    ensures most { result ≤ 12 }
{
    match head {
        Some(head) => number_size(head.number as u32) + length_size(len),
        None => 0,
    }
}

/// How many octets a head with a context tag has before so many contents octets.
#[inline(always)]
pub(crate) fn context_size(number: u32, len: u64) -> u64
    requires { number < 16384 }
    ensures size { (form : Bool) → result ≡ length (head form (context number) len) }
    ensures most { result ≤ 12 }
{
    number_size(number) + length_size(len)
}
