//! Decimal numbers of at most 18 digits: XML Schema part 2 §3.2.3.
ghost use Rattle.std.specs.Prelude.{◌≡◌, ◌*◌, ◌^◌, ◌%◌, ◌<◌, ◌≤◌, ◌↔◌, IsTrue, IfSome, IfNone, pos, ◌*ℤ◌, ◌<ℤ◌};
ghost use Rattle.std.specs.Int.{is_negative};
ghost use Rattle.std.specs.Int.RustNames.{unsigned_abs};
ghost use Rattle.lexical_core.specs.Decimals.{signed_number, IsNumber, IsDecimal, HasNoDecimal};

use std::marker::Model;

/// The least size that no whole part has: 10^18.
const LIMIT: u64 = 1_000_000_000_000_000_000;

/// The greatest scale.
const MOST_SCALE: u8 = 18;

/// A number `whole × 10^-scale`: the whole part has at most 18 digits, the scale is at most 18, and it
/// is the least that the number has. So two of them are equal where their fields are.
#[derive(Clone, Copy, Debug, PartialEq, Eq)]
pub struct Decimal {
    whole: i64,
    scale: u8,
}

impl Model for Decimal {
    ghost use Rattle.lexical_core.specs.Decimals.{Number, IsDecimal};

    ghost Value = { Number };

    ghost view = { λ d. record { whole = d.whole; scale = d.scale } };

    ghost invariant = { λ d. IsDecimal (record { whole = d.whole; scale = d.scale }) };

    ghost inverse = { λ n. record { whole = n.whole; scale = n.scale } };
}

impl Decimal {
    /// The number `whole × 10^-scale`; `None` where no whole part and scale within the bounds make it.
    pub fn make(whole: i64, scale: u8) -> Option<Decimal>
        ensures decimal { IfSome result (λ n. IsDecimal n) }
        ensures number { IfSome result
            (λ n. IsNumber (is_negative whole) (unsigned_abs whole) scale n) }
        ensures none { IfNone result
            (HasNoDecimal (is_negative whole) (unsigned_abs whole) scale) }
    {
        let (size, scale) = least(whole.unsigned_abs(), scale);
        if size >= LIMIT || scale > MOST_SCALE {
            return None;
        }
        Some(Decimal::of(whole < 0, size, scale))
    }

    /// The number of this sign whose size is `size × 10^-scale`.
    pub(crate) fn of(negative: bool, size: u64, scale: u8) -> Decimal
        requires size { size < 10 ^ 18 }
        requires scale { scale ≤ 18 }
        ensures decimal { IsDecimal result }
        ensures number { IsNumber negative size scale result }
    {
        let (size, scale) = least(size, scale);
        Decimal {
            whole: with_sign(negative, size),
            scale,
        }
    }

    /// The whole part.
    #[inline]
    pub fn whole(&self) -> i64
        ensures value { result ≡ self.now.whole }
        ensures decimal { IsDecimal self.now }
    {
        self.whole
    }

    /// The scale, the number of digits after the point.
    #[inline]
    pub fn scale(&self) -> u8
        ensures value { result ≡ self.now.scale }
        ensures decimal { IsDecimal self.now }
    {
        self.scale
    }

    /// Whether the number is less than the other.
    pub fn below(&self, other: &Decimal) -> bool
        ensures { IsTrue result ↔ ((self.now.whole *ℤ pos (10 ^ other.now.scale))
            <ℤ (other.now.whole *ℤ pos (10 ^ self.now.scale))) }
    {
        scaled(self.whole, other.scale) < scaled(other.whole, self.scale)
    }
}

/// The whole part times ten to this power.
fn scaled(whole: i64, exponent: u8) -> i128
    requires small { unsigned_abs whole < 10 ^ 18 }
    requires short { exponent ≤ 18 }
    ensures { result ≡ whole *ℤ pos (10 ^ exponent) }
{
    i128::from(whole) * power(exponent)
}

/// Ten to this power.
fn power(exponent: u8) -> i128
    requires { exponent ≤ 18 }
    ensures { result ≡ pos (10 ^ exponent) }
{
    10i128.pow(u32::from(exponent))
}

/// The same number with the least scale.
fn least(mut size: u64, mut scale: u8) -> (u64, u8)
    ensures same { result.0 * 10 ^ scale ≡ size * 10 ^ result.1 }
    ensures least { 0 < result.1 → 0 < result.0 % 10 }
    ensures size { result.0 ≤ size }
    ensures scale { result.1 ≤ scale }
{
    while scale > 0 && size % 10 == 0 {
        size /= 10;
        scale -= 1;
    }
    (size, scale)
}

/// The whole number of this sign and size.
fn with_sign(negative: bool, size: u64) -> i64
    requires { size < 10 ^ 18 }
    ensures { result ≡ signed_number negative size }
{
    if negative {
        -(size as i64)
    } else {
        size as i64
    }
}
