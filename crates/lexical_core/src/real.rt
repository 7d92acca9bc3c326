//! The contents of a REAL in its decimal form: X.690 §8.5.8 and §11.3.2, with the numbers of ISO 6093, NR3.
ghost use Rattle.std.specs.Prelude.{◌≡◌, ◌≢◌, ◌≤◌, ◌<◌, ◌+◌, ◌*◌, ◌%◌, ◌^◌, ◌++◌, ◌∷◌, take, length, IfSome, IfNone, MatchOption, List, IsTrue, ◌↔◌, ℤ, ℕ, pos};
ghost use Rattle.std.specs.Fmt.{decimal};
ghost use Rattle.std.specs.Int.RustNames.{unsigned_abs};
ghost use Rattle.std.specs.Str.Parse.{AllDigits, digits_value};
ghost use Rattle.lexical_core.specs.Decimals.{Number, IsDecimal};
ghost use Rattle.lexical_core.specs.Reals.{IsReal, IsRealBody, IsRealNumber, exponent_text};
ghost use Rattle.lexical_core.specs.Exponents.{exponent_value, AreRealEnds, IsSmall, IsPositiveNumeral, exponent_for};

use crate::decimal::Decimal;
use crate::digits::{digit_count, with_digit};
use crate::put::{put_byte, put_minus, put_number};

/// A power of ten: up, or down by at least one.
#[derive(Clone, Copy, Debug)]
enum Exponent {
    Up(u8),
    Down(u8),
}

/// The number whose DER contents these are; `None` where no `Decimal` has them.
pub fn read_nr3(contents: &[u8]) -> Option<Decimal>
    ensures some { IfSome result (λ n. IsDecimal n × IsReal contents.now n) }
    ensures none { IfNone result ((n : Number) → IsDecimal n → IsReal contents.now n → ⊥) }
{
    if contents.is_empty() {
        return Some(Decimal::of(false, 0, 0));
    }
    match after(contents, 3) {
        Some(signed) => match after(signed, b'-') {
            Some(body) => read_body(true, body),
            None => read_body(false, signed),
        },
        None => None,
    }
}

impl Decimal {
    /// Writes the DER contents at the front of the buffer, and gives their length. What stands behind
    /// them in the buffer is left open.
    pub fn nr3_into(&self, buf: &mut [u8; 32]) -> usize
        ensures bound { result ≤ 32 }
        ensures contents { IsReal (take result buf.new) self.now }
    {
        if self.whole() == 0 {
            return 0;
        }
        put_real(buf.as_mut_slice(), self)
    }
}

/// Puts the contents of a number that is not zero at the front.
fn put_real(buf: &mut [u8], number: &Decimal) -> usize
    requires room { length buf.old ≡ 32 }
    requires some { number.now.whole ≢ pos 0 }
    ensures bound { result ≤ 32 }
    ensures contents { IsReal (take result buf.new) number.now }
{
    let (digits, zeros) = without_zeros(number.whole().unsigned_abs());
    let form = put_byte(buf, 0, 3);
    let sign = put_minus(buf, form, number.whole() < 0);
    let end = put_number(buf, sign, digits);
    let point = put_byte(buf, end, b'.');
    let mark = put_byte(buf, point, b'E');
    put_exponent(buf, mark, number.scale(), zeros)
}

/// The number without the zeros at its end, and how many these are.
fn without_zeros(mut size: u64) -> (u64, u8)
    requires some { 0 < size }
    requires small { size < 10 ^ 18 }
    ensures same { size ≡ result.0 * 10 ^ result.1 }
    ensures ends { 0 < result.0 % 10 }
    ensures few { result.1 ≤ 18 }
    ensures room { length (decimal result.0) ≤ 18 }
{
    let mut zeros = 0;
    while size % 10 == 0 {
        size /= 10;
        zeros += 1;
    }
    (size, zeros)
}

/// Puts the exponent of a number of this scale with these zeros at its end.
fn put_exponent(buf: &mut [u8], at: usize, scale: u8, zeros: u8) -> usize
    requires room { at + 3 ≤ length buf.old }
    requires scale { scale ≤ 18 }
    requires zeros { zeros ≤ 18 }
    ensures bound { result ≤ at + 3 }
    ensures text { take result buf.new
        ≡ take at buf.old ++ exponent_text (exponent_for scale zeros) }
{
    if scale > 0 {
        let minus = put_byte(buf, at, b'-');
        return put_number(buf, minus, u64::from(scale));
    }
    if zeros > 0 {
        return put_number(buf, at, u64::from(zeros));
    }
    let plus = put_byte(buf, at, b'+');
    put_byte(buf, plus, b'0')
}

/// The bytes after this one, where they begin with it.
fn after(bytes: &[u8], byte: u8) -> Option<&[u8]>
    ensures { MatchOption result ((rest : List ℕ) → bytes.now ≡ byte ∷ rest → ⊥)
        (λ rest. bytes.now ≡ byte ∷ rest.now) }
{
    match bytes.split_first() {
        Some((first, rest)) if *first == byte => Some(rest),
        _ => None,
    }
}

/// The number of this sign with these digits and exponent.
fn read_body(negative: bool, body: &[u8]) -> Option<Decimal>
    ensures some { IfSome result (λ n. IsDecimal n × IsRealBody negative body.now n) }
    ensures none { IfNone result ((n : Number) → IsDecimal n → IsRealBody negative body.now n → ⊥) }
{
    let (digits, tail) = body.split_at(digit_count(body));
    if !has_real_ends(digits) {
        return None;
    }
    let Some(value) = value_of(digits) else {
        return None;
    };
    let Some(exponent) = exponent_of(tail) else {
        return None;
    };
    decimal_of(negative, value, exponent)
}

/// Whether there are digits, and they neither begin nor end with 0.
fn has_real_ends(digits: &[u8]) -> bool
    ensures { IsTrue result ↔ AreRealEnds digits.now }
{
    match (digits.first(), digits.last()) {
        (Some(first), Some(last)) => *first != b'0' && *last != b'0',
        _ => false,
    }
}

/// The number that the digits make; `None` where it has more than 18 digits.
fn value_of(digits: &[u8]) -> Option<u64>
    requires { AllDigits 10 digits.now }
    ensures some { IfSome result (λ n. (n ≡ digits_value 10 digits.now) × (n < 10 ^ 18)) }
    ensures none { IfNone result (10 ^ 18 ≤ digits_value 10 digits.now) }
{
    let mut value = 0;
    for digit in digits {
        match with_digit(value, 0, *digit - b'0') {
            Some(longer) => value = longer,
            None => return None,
        }
    }
    Some(value)
}

/// The exponent after the digits, which stands between -18 and 18.
fn exponent_of(tail: &[u8]) -> Option<Exponent>
    ensures some { IfSome result
        (λ e. (tail.now ≡ 46 ∷ 69 ∷ exponent_text (exponent_value e)) × IsSmall e) }
    ensures none { IfNone result
        ((e : ℤ) → unsigned_abs e ≤ 18 → tail.now ≡ 46 ∷ 69 ∷ exponent_text e → ⊥) }
{
    match after(tail, b'.') {
        Some(mark) => match after(mark, b'E') {
            Some(text) => signed_power(text),
            None => None,
        },
        None => None,
    }
}

/// The exponent of this text, which stands between -18 and 18.
fn signed_power(text: &[u8]) -> Option<Exponent>
    ensures some { IfSome result
        (λ e. (text.now ≡ exponent_text (exponent_value e)) × IsSmall e) }
    ensures none { IfNone result
        ((e : ℤ) → unsigned_abs e ≤ 18 → text.now ≡ exponent_text e → ⊥) }
{
    if text == b"+0".as_slice() {
        return Some(Exponent::Up(0));
    }
    match after(text, b'-') {
        Some(power) => match power_of(power) {
            Some(power) => Some(Exponent::Down(power)),
            None => None,
        },
        None => match power_of(text) {
            Some(power) => Some(Exponent::Up(power)),
            None => None,
        },
    }
}

/// The power that these digits write, from 1 to 18.
fn power_of(digits: &[u8]) -> Option<u8>
    ensures some { IfSome result (λ n. (0 < n) × (n ≤ 18) × (digits.now ≡ decimal n)) }
    ensures none { IfNone result ((n : ℕ) → 0 < n → n ≤ 18 → digits.now ≡ decimal n → ⊥) }
{
    if !is_numeral(digits) {
        return None;
    }
    match value_of(digits) {
        Some(value) if value <= 18 => Some(value as u8),
        _ => None,
    }
}

/// Whether these are digits, at least one, and the first is not 0.
fn is_numeral(digits: &[u8]) -> bool
    ensures { IsTrue result ↔ IsPositiveNumeral digits.now }
{
    if digits.is_empty() || digits[0] == b'0' {
        return false;
    }
    digit_count(digits) == digits.len()
}

/// The number of this sign and value, times this power of ten.
fn decimal_of(negative: bool, value: u64, exponent: Exponent) -> Option<Decimal>
    requires value { value < 10 ^ 18 }
    requires small { IsSmall exponent }
    ensures some { IfSome result
        (λ n. IsDecimal n × IsRealNumber negative value (exponent_value exponent) n) }
    ensures none { IfNone result ((n : Number) → IsDecimal n
        → IsRealNumber negative value (exponent_value exponent) n → ⊥) }
{
    match exponent {
        Exponent::Up(power) => scaled_up(negative, value, power),
        Exponent::Down(power) => Some(Decimal::of(negative, value, power)),
    }
}

/// The number times this power of ten; `None` where its whole part has more than 18 digits.
fn scaled_up(negative: bool, value: u64, power: u8) -> Option<Decimal>
    requires value { value < 10 ^ 18 }
    requires power { power ≤ 18 }
    ensures some { IfSome result (λ n. IsDecimal n × IsRealNumber negative value (pos power) n) }
    ensures none { IfNone result (10 ^ 18 ≤ value * 10 ^ power) }
{
    let size = u128::from(value) * 10u128.pow(u32::from(power));
    if size < 1_000_000_000_000_000_000 {
        Some(Decimal::of(negative, size as u64, 0))
    } else {
        None
    }
}
