//! Digits, and the number that those of a decimal text make as far as they were read.
ghost use Rattle.std.specs.Prelude.{◌≡◌, ◌+◌, ◌*◌, ◌<◌, ◌≤◌, ◌^◌, ℕ, true, false, IfSome, IfNone, length, take, drop};
ghost use Rattle.std.specs.Str.Parse.{AllDigits};
ghost use Rattle.lexical_core.specs.Exponents.{NoDigit};

/// The least size of more than 18 digits.
const LIMIT: u64 = 1_000_000_000_000_000_000;

/// The number that digits make, up to 18 of them, with the zeros at their end after the point set apart:
/// they count only once another digit comes.
#[derive(Clone, Copy, Debug)]
pub struct Digits {
    pub some: bool,
    pub long: bool,
    pub size: u64,
    pub scale: u8,
    pub zeros: u8,
    ghost small: { size < 10 ^ 18 },
    ghost short: { scale ≤ 18 },
    ghost few: { zeros ≤ 19 },
}

impl Digits {
    ghost use Rattle.lexical_core.specs.DecimalSoFar.{AreDigitsOf};

    /// No digit.
    pub fn new() -> Digits
        ensures none { result.some ≡ false }
        ensures number { AreDigitsOf result 0 0 }
    {
        Digits {
            some: false,
            long: false,
            size: 0,
            scale: 0,
            zeros: 0,
        }
    }

    /// One more digit before the point.
    #[inline]
    pub fn push_whole(&mut self, digit: u8)
        requires { digit < 10 }
        ensures some { self.new.some ≡ true }
        ensures number { (value : ℕ) → AreDigitsOf self.old value 0
            → AreDigitsOf self.new (value * 10 + digit) 0 }
    {
        self.some = true;
        match with_digit(self.size, 0, digit) {
            Some(size) => self.size = size,
            None => self.long = true,
        }
    }

    /// One more digit after the point.
    #[inline]
    pub fn push_fraction(&mut self, digit: u8)
        requires { digit < 10 }
        ensures some { self.new.some ≡ true }
        ensures number { (value count : ℕ) → AreDigitsOf self.old value count
            → AreDigitsOf self.new (value * 10 + digit) (count + 1) }
    {
        self.some = true;
        if digit == 0 {
            self.zeros = (self.zeros + 1).min(19);
        } else {
            self.push_last(digit);
        }
    }

    /// One more digit after the point, which is not 0: the zeros before it count.
    #[inline]
    fn push_last(&mut self, digit: u8)
        requires some { 0 < digit }
        requires digit { digit < 10 }
        ensures some { self.new.some ≡ self.old.some }
        ensures number { (value count : ℕ) → AreDigitsOf self.old value count
            → AreDigitsOf self.new (value * 10 + digit) (count + 1) }
    {
        let zeros = self.zeros;
        self.zeros = 0;
        if self.scale + zeros >= 18 {
            self.long = true;
            return;
        }
        match with_digit(self.size, zeros, digit) {
            Some(size) => {
                self.size = size;
                self.scale += zeros + 1;
            }
            None => self.long = true,
        }
    }
}

/// The number with these zeros and this digit behind it; `None` where it has more than 18 digits.
#[inline]
pub fn with_digit(size: u64, zeros: u8, digit: u8) -> Option<u64>
    requires size { size < 10 ^ 18 }
    requires zeros { zeros < 18 }
    requires digit { digit < 10 }
    ensures some { IfSome result (λ n. (n ≡ size * 10 ^ (zeros + 1) + digit) × (n < 10 ^ 18)) }
    ensures none { IfNone result (10 ^ 18 ≤ size * 10 ^ (zeros + 1) + digit) }
{
    let Some(shifted) = shifted(size, zeros) else {
        return None;
    };
    let longer = shifted + u64::from(digit);
    if longer < LIMIT { Some(longer) } else { None }
}

/// The number with one 0 more than these behind it; `None` only where it has more than 18 digits.
#[inline]
fn shifted(size: u64, zeros: u8) -> Option<u64>
    requires size { size < 10 ^ 18 }
    requires zeros { zeros < 18 }
    ensures some { IfSome result (λ n. (n ≡ size * 10 ^ (zeros + 1)) × (n < 10 ^ 19)) }
    ensures none { IfNone result (10 ^ 18 ≤ size * 10 ^ (zeros + 1)) }
{
    if zeros == 0 {
        return Some(size * 10);
    }
    let Some(shifted) = size.checked_mul(power(zeros + 1)) else {
        return None;
    };
    if shifted < LIMIT { Some(shifted) } else { None }
}

/// Ten to this power.
fn power(exponent: u8) -> u64
    requires { exponent ≤ 18 }
    ensures { result ≡ 10 ^ exponent }
{
    10u64.pow(u32::from(exponent))
}

/// How many digits the bytes begin with.
pub fn digit_count(bytes: &[u8]) -> usize
    ensures bound { result ≤ length bytes.now }
    ensures digits { AllDigits 10 (take result bytes.now) }
    ensures rest { NoDigit (drop result bytes.now) }
{
    for (count, byte) in bytes.iter().enumerate() {
        if !byte.is_ascii_digit() {
            return count;
        }
    }
    bytes.len()
}
