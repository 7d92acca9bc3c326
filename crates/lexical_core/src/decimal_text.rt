//! A decimal text read a character at a time: XML Schema part 2 §3.2.3.
ghost use Rattle.std.specs.Prelude.{◌≡◌, ◌≢◌, ◌≤◌, ◌+◌, ◌<◌, ◌++◌, ◌∷◌, [], List, ℕ, length, take};
ghost use Rattle.lexical_core.specs.DecimalAnswers.{IsDecimalAnswer};
ghost use Rattle.lexical_core.specs.DecimalSoFar.{HasRead, ReadWhole, ReadFraction, IsDigitsAnswer, AreDigitsOf};

use crate::decimal::Decimal;
use crate::digits::Digits;

/// What the characters of a text are.
#[derive(Clone, Copy, Debug, PartialEq, Eq)]
pub enum DecimalText {
    /// A decimal text of this number.
    Value(Decimal),
    /// A decimal text of a number that is no `Decimal`.
    TooLong,
    /// No decimal text.
    Bad,
}

/// Which part of the text comes.
#[derive(Clone, Copy, Debug)]
enum Stage {
    Start,
    Whole,
    Fraction,
    Failed,
}

/// A reader of decimal texts that takes a character at a time. It takes no memory.
#[derive(Clone, Copy, Debug)]
pub struct DecimalStep {
    stage: Stage,
    negative: bool,
    digits: Digits,
}

impl DecimalStep {
    /// A reader before the first character.
    pub fn new() -> DecimalStep
        ensures { HasRead result [] }
    {
        DecimalStep {
            stage: Stage::Start,
            negative: false,
            digits: Digits::new(),
        }
    }

    /// Takes a character.
    #[inline]
    pub fn take(&mut self, c: char)
        ensures { (text : List ℕ) → HasRead self.old text → HasRead self.new (text ++ c ∷ []) }
    {
        match self.stage {
            Stage::Start => self.take_first(c),
            Stage::Whole => self.take_whole(c),
            Stage::Fraction => self.take_fraction(c),
            Stage::Failed => {}
        }
    }

    /// Takes the characters of these codes, one after another.
    pub fn take_codes(&mut self, codes: &[u8])
        ensures { (text : List ℕ) → HasRead self.old text → HasRead self.new (text ++ codes.now) }
    {
        let mut rest = codes;
        while !rest.is_empty() {
            let count = self.take_front(rest);
            rest = rest.split_at(count).1;
        }
    }

    /// Takes some codes from the first on, and tells how many: all digits that stand there, and what is behind them.
    #[inline]
    fn take_front(&mut self, codes: &[u8]) -> usize
        requires { 0 < length codes.now }
        ensures some { 0 < result }
        ensures few { result ≤ length codes.now }
        ensures read { (text : List ℕ) → HasRead self.old text → HasRead self.new (text ++ take result codes.now) }
    {
        match self.stage {
            Stage::Start => self.take_start(codes[0] as char),
            Stage::Whole => return self.take_whole_digits(codes),
            Stage::Fraction => return self.take_fraction_digits(codes),
            Stage::Failed => self.take(codes[0] as char),
        }
        1
    }

    /// Takes the digits that the codes begin with, before the point, and the code behind them; tells how many.
    #[inline]
    fn take_whole_digits(&mut self, codes: &[u8]) -> usize
        requires stage { self.old.stage ≡ Stage.Whole }
        requires some { 0 < length codes.now }
        ensures some { 0 < result }
        ensures few { result ≤ length codes.now }
        ensures read { (text : List ℕ) → HasRead self.old text → HasRead self.new (text ++ take result codes.now) }
    {
        let mut step = *self; // a copy, which stays in registers
        for (count, code) in codes.iter().enumerate() {
            if !code.is_ascii_digit() {
                step.end_whole(*code as char);
                *self = step;
                return count + 1;
            }
            step.push_digit(*code);
        }
        *self = step;
        codes.len()
    }

    /// Takes the digits that the codes begin with, after the point, and the code behind them; tells how many.
    #[inline]
    fn take_fraction_digits(&mut self, codes: &[u8]) -> usize
        requires stage { self.old.stage ≡ Stage.Fraction }
        requires some { 0 < length codes.now }
        ensures some { 0 < result }
        ensures few { result ≤ length codes.now }
        ensures read { (text : List ℕ) → HasRead self.old text → HasRead self.new (text ++ take result codes.now) }
    {
        let mut step = *self; // a copy, which stays in registers
        for (count, code) in codes.iter().enumerate() {
            if !code.is_ascii_digit() {
                step.end_fraction(*code as char);
                *self = step;
                return count + 1;
            }
            step.push_fraction_digit(*code);
        }
        *self = step;
        codes.len()
    }

    /// Takes the first character.
    #[inline]
    fn take_start(&mut self, c: char)
        requires { self.old.stage ≡ Stage.Start }
        ensures { (text : List ℕ) → HasRead self.old text → HasRead self.new (text ++ c ∷ []) }
    {
        self.take_first(c);
    }

    /// Takes a character behind the digits before the point.
    #[inline]
    fn end_whole(&mut self, c: char)
        requires { self.old.stage ≡ Stage.Whole }
        ensures { (text : List ℕ) → HasRead self.old text → HasRead self.new (text ++ c ∷ []) }
    {
        self.take_whole(c);
    }

    /// Takes a character behind the digits after the point.
    #[inline]
    fn end_fraction(&mut self, c: char)
        requires { self.old.stage ≡ Stage.Fraction }
        ensures { (text : List ℕ) → HasRead self.old text → HasRead self.new (text ++ c ∷ []) }
    {
        self.take_fraction(c);
    }

    /// Takes a digit of the whole part.
    #[inline]
    fn push_digit(&mut self, code: u8)
        requires digit { (48 ≤ code) × (code ≤ 57) }
        requires stage { self.old.stage ≡ Stage.Whole }
        ensures stage { self.new.stage ≡ Stage.Whole }
        ensures read { (text : List ℕ) → HasRead self.old text → HasRead self.new (text ++ code ∷ []) }
    {
        self.digits.push_whole(code - b'0');
    }

    /// Takes a digit of the part after the point.
    #[inline]
    fn push_fraction_digit(&mut self, code: u8)
        requires digit { (48 ≤ code) × (code ≤ 57) }
        requires stage { self.old.stage ≡ Stage.Fraction }
        ensures stage { self.new.stage ≡ Stage.Fraction }
        ensures read { (text : List ℕ) → HasRead self.old text → HasRead self.new (text ++ code ∷ []) }
    {
        self.digits.push_fraction(code - b'0');
    }

    /// Takes the first character, or a character of the whole part where it is no sign.
    #[inline]
    fn take_first(&mut self, c: char)
        ensures { (text : List ℕ) → ReadWhole self.old text → text ≡ []
            → HasRead self.new (text ++ c ∷ []) }
    {
        match c {
            '+' => self.stage = Stage::Whole,
            '-' => {
                self.negative = true;
                self.stage = Stage::Whole;
            }
            _ => self.take_whole(c),
        }
    }

    /// Takes a character before the point and after the sign.
    #[inline]
    fn take_whole(&mut self, c: char)
        ensures { (text : List ℕ) → ReadWhole self.old text → (text ≡ [] → (c ≢ 43) × (c ≢ 45))
            → HasRead self.new (text ++ c ∷ []) }
    {
        if c.is_ascii_digit() {
            self.digits.push_whole(digit_of(c));
            self.stage = Stage::Whole;
        } else if c == '.' {
            self.stage = Stage::Fraction;
        } else {
            self.stage = Stage::Failed;
        }
    }

    /// Takes a character after the point.
    #[inline]
    fn take_fraction(&mut self, c: char)
        requires { self.old.stage ≡ Stage.Fraction }
        ensures { (text : List ℕ) → ReadFraction self.old text
            → HasRead self.new (text ++ c ∷ []) }
    {
        if c.is_ascii_digit() {
            self.digits.push_fraction(digit_of(c));
        } else {
            self.stage = Stage::Failed;
        }
    }

    /// What the characters so far are as a whole text.
    pub fn finish(&self) -> DecimalText
        ensures { (text : List ℕ) → HasRead self.now text → IsDecimalAnswer text result }
    {
        match self.stage {
            Stage::Whole | Stage::Fraction => number_of(&self.digits, self.negative),
            Stage::Start | Stage::Failed => DecimalText::Bad,
        }
    }
}

/// The number of these digits and this sign.
fn number_of(digits: &Digits, negative: bool) -> DecimalText
    ensures { (value count : ℕ) → AreDigitsOf digits.now value count
        → IsDigitsAnswer negative value count digits.now.some result }
{
    if !digits.some {
        DecimalText::Bad
    } else if digits.long {
        DecimalText::TooLong
    } else {
        DecimalText::Value(Decimal::of(negative, digits.size, digits.scale))
    }
}

/// The value of a digit.
fn digit_of(c: char) -> u8
    requires { (48 ≤ c) × (c ≤ 57) }
    ensures code { result + 48 ≡ c }
    ensures digit { result < 10 }
{
    (c as u32 - '0' as u32) as u8
}
