//! UTF-8 read a byte at a time (RFC 3629).
ghost use Rattle.std.specs.Prelude.{◌≡◌, ◌↔◌, [], IsTrue, Some};
ghost use Rattle.std.specs.Char.{IsScalar};
ghost use Rattle.lexical_core.specs.Begun.{IsSecond, IsTail, begun_bytes, CanGoOn};
ghost use Rattle.lexical_core.specs.Utf8.{Steps};

use std::marker::Model;

/// What one more byte gives.
#[derive(Clone, Copy, Debug, PartialEq, Eq)]
pub enum Utf8 {
    /// The character goes on.
    More,
    /// The byte ended this character.
    Char(char),
    /// No character goes on so.
    Bad,
}

/// The bytes of the character that is begun.
#[derive(Clone, Copy, Debug)]
enum Begun {
    Nothing,
    One(u8),
    Two(u8, u8),
    Three(u8, u8, u8),
    Failed,
}

/// A reader of UTF-8 that takes a byte at a time.
#[derive(Debug, Drop)]
pub struct Utf8Step {
    begun: Begun,
}

impl Model for Utf8Step {
    ghost use Rattle.std.specs.Prelude.{List, ℕ, Option};

    ghost Value = { Option (List ℕ) };

    ghost use Rattle.lexical_core.specs.Begun.{begun_bytes, CanGoOn};

    ghost view = { λ s. begun_bytes s.begun };

    ghost invariant = { λ s. CanGoOn s.begun };
}

impl Utf8Step {
    /// A reader before the first byte.
    #[inline]
    pub fn new() -> Utf8Step
        ensures { result ≡ Some [] }
    {
        Utf8Step {
            begun: Begun::Nothing,
        }
    }

    /// Whether no character is begun: the bytes so far are whole characters, and none was bad.
    #[inline]
    pub fn is_whole(&self) -> bool
        ensures { IsTrue result ↔ (self.now ≡ Some []) }
    {
        matches!(self.begun, Begun::Nothing)
    }

    /// Takes a byte. After a bad one every byte is bad.
    #[inline]
    pub fn take(&mut self, byte: u8) -> Utf8
        ensures { Steps self.old byte result self.new }
    {
        let (answer, begun) = self.begun.with(byte);
        self.begun = begun;
        answer
    }
}

impl Begun {
    /// What one more byte gives, and what is begun after it.
    #[inline]
    fn with(self, byte: u8) -> (Utf8, Begun)
        requires { CanGoOn self }
        ensures steps { Steps (begun_bytes self) byte result.0 (begun_bytes result.1) }
        ensures goes_on { CanGoOn result.1 }
    {
        match self {
            Begun::Nothing => Begun::with_first(byte),
            Begun::One(first) => Begun::with_second(first, byte),
            Begun::Two(first, second) => Begun::with_third(first, second, byte),
            Begun::Three(first, second, third) => Begun::with_fourth(first, second, third, byte),
            Begun::Failed => (Utf8::Bad, Begun::Failed),
        }
    }

    /// Takes the first byte of a character.
    #[inline]
    fn with_first(byte: u8) -> (Utf8, Begun)
        ensures steps { Steps (Some []) byte result.0 (begun_bytes result.1) }
        ensures goes_on { CanGoOn result.1 }
    {
        match byte {
            0..=0x7F => (Utf8::Char(byte as char), Begun::Nothing),
            0xC2..=0xF4 => (Utf8::More, Begun::One(byte)),
            _ => (Utf8::Bad, Begun::Failed),
        }
    }

    /// Takes the byte behind the first.
    fn with_second(first: u8, byte: u8) -> (Utf8, Begun)
        requires { CanGoOn (Begun.One first) }
        ensures steps { Steps (begun_bytes (Begun.One first)) byte result.0 (begun_bytes result.1) }
        ensures goes_on { CanGoOn result.1 }
    {
        if !is_second(first, byte) {
            return (Utf8::Bad, Begun::Failed);
        }
        if first >= 0xE0 {
            return (Utf8::More, Begun::Two(first, byte));
        }
        let code = u32::from(first - 0xC0) * 0x40 + u32::from(byte - 0x80);
        (Utf8::Char(char_of(code)), Begun::Nothing)
    }

    /// Takes the byte behind the first two.
    fn with_third(first: u8, second: u8, byte: u8) -> (Utf8, Begun)
        requires { CanGoOn (Begun.Two first second) }
        ensures steps { Steps (begun_bytes (Begun.Two first second)) byte result.0 (begun_bytes result.1) }
        ensures goes_on { CanGoOn result.1 }
    {
        if !is_tail(byte) {
            return (Utf8::Bad, Begun::Failed);
        }
        if first >= 0xF0 {
            return (Utf8::More, Begun::Three(first, second, byte));
        }
        let code = u32::from(first - 0xE0) * 0x1000
            + u32::from(second - 0x80) * 0x40
            + u32::from(byte - 0x80);
        (Utf8::Char(char_of(code)), Begun::Nothing)
    }

    /// Takes the byte behind the first three, which is the last.
    fn with_fourth(first: u8, second: u8, third: u8, byte: u8) -> (Utf8, Begun)
        requires { CanGoOn (Begun.Three first second third) }
        ensures steps { Steps (begun_bytes (Begun.Three first second third)) byte result.0 (begun_bytes result.1) }
        ensures goes_on { CanGoOn result.1 }
    {
        if !is_tail(byte) {
            return (Utf8::Bad, Begun::Failed);
        }
        let code = u32::from(first - 0xF0) * 0x4_0000
            + u32::from(second - 0x80) * 0x1000
            + u32::from(third - 0x80) * 0x40
            + u32::from(byte - 0x80);
        (Utf8::Char(char_of(code)), Begun::Nothing)
    }
}

/// Whether the byte may stand second after this first one.
fn is_second(first: u8, byte: u8) -> bool
    ensures { IsTrue result ↔ IsSecond first byte }
{
    match first {
        0xE0 => matches!(byte, 0xA0..=0xBF),
        0xED => matches!(byte, 0x80..=0x9F),
        0xF0 => matches!(byte, 0x90..=0xBF),
        0xF4 => matches!(byte, 0x80..=0x8F),
        _ => is_tail(byte),
    }
}

/// Whether the byte may stand third or fourth.
fn is_tail(byte: u8) -> bool
    ensures { IsTrue result ↔ IsTail byte }
{
    matches!(byte, 0x80..=0xBF)
}

/// The character of this code.
fn char_of(code: u32) -> char
    requires { IsScalar code }
    ensures { result ≡ code }
{
    char::from_u32(code).unwrap()
}
