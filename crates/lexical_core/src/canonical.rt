//! The canonical text of a decimal: XML Schema part 2 §3.2.3.2.
ghost use Rattle.std.specs.Prelude.{◌≡◌, ◌≤◌, ◌<◌, ◌+◌, ◌/◌, ◌%◌, ◌^◌, take, length};
ghost use Rattle.std.specs.Fmt.{decimal};
ghost use Rattle.std.specs.Int.RustNames.{unsigned_abs};
ghost use Rattle.lexical_core.specs.Decimals.{IsDecimal, IsCanonicalText, decimal_spelling};
ghost use Rattle.lexical_core.specs.CanonicalDecimals.{canonical_parts};

use crate::decimal::Decimal;
use crate::put::{put_byte, put_fixed, put_minus, put_number};

impl Decimal {
    /// Writes the canonical text at the front of the buffer, and gives its length. What stands behind
    /// it in the buffer is left open.
    pub fn text_into(&self, buf: &mut [u8; 32]) -> usize
        ensures bound { result ≤ 32 }
        ensures text { IsCanonicalText (take result buf.new) self.now }
    {
        put_text(buf.as_mut_slice(), self)
    }
}

/// Puts the canonical text at the front.
fn put_text(buf: &mut [u8], number: &Decimal) -> usize
    requires { length buf.old ≡ 32 }
    ensures bound { result ≤ 32 }
    ensures decimal { IsDecimal number.now }
    ensures text { take result buf.new ≡ decimal_spelling (canonical_parts number.now) }
{
    let (whole, rest) = split(number);
    let sign = put_minus(buf, 0, number.whole() < 0);
    let end = put_number(buf, sign, whole);
    if number.scale() == 0 {
        return end;
    }
    let point = put_byte(buf, end, b'.');
    put_fixed(buf, point, number.scale(), rest)
}

/// The size before the point, and the digits after it as a number.
fn split(number: &Decimal) -> (u64, u64)
    ensures whole { result.0 ≡ unsigned_abs number.now.whole / 10 ^ number.now.scale }
    ensures rest { result.1 ≡ unsigned_abs number.now.whole % 10 ^ number.now.scale }
    ensures room { length (decimal result.0) + number.now.scale ≤ 19 }
    ensures decimal { IsDecimal number.now }
{
    let size = number.whole().unsigned_abs();
    let power = power_of_ten(number.scale());
    (size / power, size % power)
}

/// Ten to this power.
fn power_of_ten(exponent: u8) -> u64
    requires { exponent ≤ 18 }
    ensures value { result ≡ 10 ^ exponent }
    ensures some { 0 < result }
{
    10u64.pow(u32::from(exponent))
}
