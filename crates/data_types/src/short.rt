//! A short ASCII text that is taken a character at a time and kept in place.
ghost use Rattle.std.specs.Prelude.{◌≡◌, ◌≤◌, ◌<◌, ◌++◌, ◌∷◌, [], List, ℕ, IfSome, IfNone};
ghost use Rattle.std.specs.List.{AllByRecursion};

/// The most characters that are kept: no text of a truth value, a date or a time has more.
const MOST: usize = 35;

/// The characters of a text, as long as they are ASCII and few. It takes no memory.
#[derive(Clone, Copy)]
pub struct ShortText {
    bytes: [u8; MOST],
    count: usize,
    failed: bool,
    ghost few: { count ≤ 35 },
}

impl ShortText {
    ghost use Rattle.data_types.specs.ShortTexts.{IsShort, HasKept};

    /// The empty text.
    pub fn new() -> ShortText
        ensures { HasKept result [] }
    {
        ShortText {
            bytes: [0; MOST],
            count: 0,
            failed: false,
        }
    }

    /// Takes a character.
    pub fn take(&mut self, c: char)
        ensures { (text : List ℕ) → HasKept self.old text → HasKept self.new (text ++ c ∷ []) }
    {
        if !c.is_ascii() || self.count == MOST {
            self.failed = true;
        }
        if !self.failed {
            self.bytes[self.count] = c as u8;
            self.count += 1;
        }
    }

    /// Takes the characters of these codes, one after another.
    #[inline]
    pub fn take_codes(&mut self, codes: &[u8])
        requires { AllByRecursion (λ c. c < 128) codes.now }
        ensures { (text : List ℕ) → HasKept self.old text → HasKept self.new (text ++ codes.now) }
    {
        if codes.len() > MOST - self.count {
            self.failed = true;
        }
        if !self.failed {
            let end = self.count + codes.len();
            self.bytes[self.count..end].copy_from_slice(codes);
            self.count = end;
        }
    }

    /// How many characters are kept.
    pub fn len(&self) -> usize
        ensures count { result ≡ self.now.count }
        ensures few { result ≤ 35 }
    {
        self.count
    }

    /// The characters as bytes; `None` where they are not all ASCII or too many.
    pub fn text(&self) -> Option<&[u8]>
        ensures some { IfSome result (λ kept. (text : List ℕ) → HasKept self.now text
            → kept.now ≡ text) }
        ensures none { IfNone result ((text : List ℕ) → HasKept self.now text → IsShort text → ⊥) }
    {
        if self.failed {
            return None;
        }
        Some(&self.bytes[..self.count])
    }
}
