//! Writing into a buffer, behind what stands there already. Few bytes are two words, which may overlap.
ghost use Rattle.std.specs.Prelude.{◌≡◌, ◌+◌, ◌<◌, ◌≤◌, [], ◌∷◌, ◌++◌, length, take};
ghost use Rattle.std.specs.Fmt.{decimal};
ghost use Rattle.lexical_core.specs.FixedDigits.{fixed_digits};
ghost use Rattle.lexical_core.specs.Reals.{minus_text};
ghost use Rattle.lexical_core.specs.Placed.{ArePlaced};

use std::simd::Simd;

/// Puts a byte at that place, and gives the place behind it.
pub fn put_byte(buf: &mut [u8], at: usize, byte: u8) -> usize
    requires { at < length buf.old }
    ensures at { result ≡ at + 1 }
    ensures bytes { take result buf.new ≡ take at buf.old ++ byte ∷ [] }
{
    buf[at] = byte;
    at + 1
}

/// Puts the minus sign of a negative number.
pub fn put_minus(buf: &mut [u8], at: usize, negative: bool) -> usize
    requires { at < length buf.old }
    ensures at { result ≡ at + length (minus_text negative) }
    ensures most { result ≤ at + 1 }
    ensures bytes { take result buf.new ≡ take at buf.old ++ minus_text negative }
{
    if negative {
        put_byte(buf, at, b'-')
    } else {
        at
    }
}

/// Puts the digits of a number.
pub fn put_number(buf: &mut [u8], at: usize, value: u64) -> usize
    requires { at + length (decimal value) ≤ length buf.old }
    ensures at { result ≡ at + length (decimal value) }
    ensures bytes { take result buf.new ≡ take at buf.old ++ decimal value }
{
    if value < 10 {
        return put_byte(buf, at, b'0' + value as u8);
    }
    let last = put_number(buf, at, value / 10);
    put_byte(buf, last, b'0' + (value % 10) as u8)
}

/// Puts the last digits of a number, this many.
pub fn put_fixed(buf: &mut [u8], at: usize, count: u8, value: u64) -> usize
    requires { at + count ≤ length buf.old }
    ensures at { result ≡ at + count }
    ensures bytes { take result buf.new ≡ take at buf.old ++ fixed_digits count value }
{
    if count == 0 {
        return at;
    }
    let last = put_fixed(buf, at, count - 1, value / 10);
    put_byte(buf, last, b'0' + (value % 10) as u8)
}

/// Puts bytes at a place of a buffer, and answers the place behind them. Up to 32 take two stores at most.
#[inline(always)]
pub fn put_bytes(buffer: &mut [u8], at: usize, bytes: &[u8]) -> usize
    requires { at + length bytes.now ≤ length buffer.old }
    ensures { ArePlaced buffer.old buffer.new at bytes.now result }
{
    let count = bytes.len();
    if count >= 8 {
        put_longer(buffer, at, bytes)
    } else if count >= 4 {
        put_ends::<4>(buffer, at, bytes)
    } else if count >= 2 {
        put_ends::<2>(buffer, at, bytes)
    } else {
        put_few(buffer, at, bytes)
    }
}

/// The same, of eight bytes or more.
#[inline(always)]
fn put_longer(buffer: &mut [u8], at: usize, bytes: &[u8]) -> usize
    requires fits { at + length bytes.now ≤ length buffer.old }
    requires long { 8 ≤ length bytes.now }
    ensures { ArePlaced buffer.old buffer.new at bytes.now result }
{
    let count = bytes.len();
    if count <= 16 {
        put_ends::<8>(buffer, at, bytes)
    } else if count <= 32 {
        put_ends::<16>(buffer, at, bytes)
    } else {
        put_many(buffer, at, bytes)
    }
}

/// The same, of fewer than two bytes.
#[inline(always)]
fn put_few(buffer: &mut [u8], at: usize, bytes: &[u8]) -> usize
    requires fits { at + length bytes.now ≤ length buffer.old }
    requires few { length bytes.now < 2 }
    ensures { ArePlaced buffer.old buffer.new at bytes.now result }
{
    if bytes.is_empty() {
        return at;
    }
    put_front::<1>(buffer, at, bytes)
}

/// The same, of any number of bytes.
#[inline(never)]
fn put_many(buffer: &mut [u8], at: usize, bytes: &[u8]) -> usize
    requires { at + length bytes.now ≤ length buffer.old }
    ensures { ArePlaced buffer.old buffer.new at bytes.now result }
{
    let end = at + bytes.len();
    buffer[at..end].copy_from_slice(bytes);
    end
}

/// The same, by the first bytes and the last ones, which may overlap.
#[inline(always)]
fn put_ends<const N: usize>(buffer: &mut [u8], at: usize, bytes: &[u8]) -> usize
    requires fits { at + length bytes.now ≤ length buffer.old }
    requires covers { (N ≤ length bytes.now) × (length bytes.now ≤ N + N) }
    ensures { ArePlaced buffer.old buffer.new at bytes.now result }
{
    let last = bytes.len() - N;
    put_front::<N>(buffer, at, bytes);
    put_front::<N>(buffer, at + last, &bytes[last..])
}

/// Puts the first bytes at the place, by one load and one store.
#[inline(always)]
fn put_front<const N: usize>(buffer: &mut [u8], at: usize, bytes: &[u8]) -> usize
    requires { (N ≤ length bytes.now) × (at + N ≤ length buffer.old) }
    ensures { ArePlaced buffer.old buffer.new at (take N bytes.now) result }
{
    Simd::<u8, N>::from_slice(bytes).copy_to_slice(&mut buffer[at..]);
    at + N
}
