//! Runs of characters and of white space that a reader takes at once.
ghost use Rattle.std.specs.Prelude.{◌≡◌, ◌&&◌, ◌<◌, ◌≤◌, ◌^◌, ◌+◌, ◌++◌, ℕ, List, IsTrue, not, true, false, Some, None, length, reverse, take};
ghost use Rattle.std.specs.List.{prefix_len, list_all};
ghost use Rattle.markup.specs.Chars.{is_space};
ghost use Rattle.markup.specs.inner.ReaderSteps.{IsReaderReady, bars_closer};
ghost use Rattle.markup.specs.Literals.{is_still_literal, is_still_space, literal_front, IsRun, IsFreeRun, characters_from};
ghost use Rattle.markup.specs.Marks.{in_cdata};
ghost use Rattle.markup.specs.Faults.{behind_brackets};
ghost use Rattle.markup.specs.Events.{Placed};
ghost use Rattle.markup.specs.Reading.{bytes_taken, reader_failure, HasTakenUnder, HasToldUnder, IsInsideUnder};

use super::{MarkError, Reader};
use crate::literals::{Run, begins_with_bracket, begins_with_markup, blank_length, literal_run};

impl Reader {
    /// Takes the characters at the front of the piece that stand by themselves, where an element is
    /// open and no token is: tabs, LFs, and those from U+0020 on that XML has, up to the first `<`,
    /// `&` or `]`, and to the first that is not whole; or the `]` that stand there, in a CDATA
    /// section with the character behind them, without which they may begin its end. A `>` is one of
    /// them, save the first of the piece where it ends a `]]>` outside CDATA sections (XML 1.0 §2.4).
    /// Each is a character at its place, told by their number alone; any other byte is for `take`. It
    /// answers how many bytes and characters they are, and whether all are white space, and after an
    /// error none. It takes no memory.
    pub fn take_characters(&mut self, piece: &[u8]) -> Run
        requires { reader_failure self.old ≡ None → bytes_taken self.old + length piece.now ≤ 2 ^ 40 }
        ensures within { result.bytes ≤ length piece.now }
        ensures only { IsRun (take result.bytes piece.now) result.characters }
        ensures blank { result.blank ≡ list_all is_space (take result.bytes piece.now) }
        ensures taken { (limit : ℕ) (bytes : List ℕ) (told : List Placed) → HasTakenUnder limit self.old bytes told →
            (run : IsRun (take result.bytes piece.now) result.characters) × HasToldUnder limit self.new (bytes ++ take result.bytes piece.now) (told ++ characters_from (length bytes) run.characters) }
        ensures all { (limit : ℕ) (bytes : List ℕ) (told : List Placed) → IsInsideUnder limit self.old bytes told → literal_front piece.now ≤ result.bytes }
        ensures closer { (limit : ℕ) (bytes : List ℕ) (told : List Placed) (inside : IsInsideUnder limit self.old bytes told) → (not (in_cdata (reverse inside.0)) && behind_brackets (reverse inside.0)) ≡ false → prefix_len is_still_literal piece.now ≤ result.bytes }
        ensures count { bytes_taken self.new ≡ bytes_taken self.old + result.bytes }
        ensures failed { reader_failure self.new ≡ reader_failure self.old }
        ensures again { (e : MarkError) → reader_failure self.old ≡ Some e → (result.bytes ≡ 0) × (result.characters ≡ 0) × (self.new ≡ self.old) }
    {
        if begins_with_bracket(piece) {
            return self.take_brackets(piece);
        }
        let run = self.count_characters(piece);
        if run.bytes > 0 {
            self.tokenizer.pass(run.bytes as u64);
            self.context.pass_characters();
        }
        run
    }

    /// Takes the white space at the front of the piece that stands by itself, where an element is open
    /// and no token is: spaces, tabs and LFs (XML 1.0 §2.3, S). A CR, which an LF may join, is for
    /// `take`. Each is a character at its place. It answers how many they are, and after an error
    /// none. It takes no memory.
    #[inline]
    pub fn take_blanks(&mut self, piece: &[u8]) -> usize
        requires { reader_failure self.old ≡ None → bytes_taken self.old + length piece.now ≤ 2 ^ 40 }
        ensures within { result ≤ length piece.now }
        ensures only { IsRun (take result piece.now) result }
        ensures blank { list_all is_space (take result piece.now) ≡ true }
        ensures taken { (limit : ℕ) (bytes : List ℕ) (told : List Placed) → HasTakenUnder limit self.old bytes told →
            (run : IsRun (take result piece.now) result) × HasToldUnder limit self.new (bytes ++ take result piece.now) (told ++ characters_from (length bytes) run.characters) }
        ensures all { (limit : ℕ) (bytes : List ℕ) (told : List Placed) → IsInsideUnder limit self.old bytes told → result ≡ prefix_len is_still_space piece.now }
        ensures count { bytes_taken self.new ≡ bytes_taken self.old + result }
        ensures failed { reader_failure self.new ≡ reader_failure self.old }
        ensures again { (e : MarkError) → reader_failure self.old ≡ Some e → (result ≡ 0) × (self.new ≡ self.old) }
    {
        let count = self.count_blanks(piece);
        if count > 0 {
            self.tokenizer.pass(count as u64);
            self.context.pass_characters();
        }
        count
    }

    /// Whether an element is open and no token is (XML 1.0 §3.1, content), and nothing was refused.
    #[inline]
    pub(super) fn is_in_content(&self) -> bool
        ensures ready { IsTrue result → IsReaderReady self.now }
        ensures sound { IsTrue result → reader_failure self.now ≡ None }
        ensures all { (limit : ℕ) (bytes : List ℕ) (told : List Placed) → IsInsideUnder limit self.now bytes told → IsTrue result }
    {
        if self.failed.is_some() {
            return false;
        }
        if !self.tokenizer.is_ready() {
            return false;
        }
        self.context.has_open()
    }

    /// The characters at the front of the piece that stand by themselves, where one may come.
    fn count_characters(&self, piece: &[u8]) -> Run
        ensures within { result.bytes ≤ length piece.now }
        ensures only { IsFreeRun (take result.bytes piece.now) result.characters }
        ensures blank { result.blank ≡ list_all is_space (take result.bytes piece.now) }
        ensures ready { 0 < result.bytes → IsReaderReady self.now }
        ensures sound { 0 < result.bytes → reader_failure self.now ≡ None }
        ensures free { 0 < result.bytes → bars_closer self.now piece.now ≡ false }
        ensures all { (limit : ℕ) (bytes : List ℕ) (told : List Placed) → IsInsideUnder limit self.now bytes told → bars_closer self.now piece.now ≡ false → prefix_len is_still_literal piece.now ≤ result.bytes }
        ensures none { (e : MarkError) → reader_failure self.now ≡ Some e → (result.bytes ≡ 0) × (result.characters ≡ 0) }
    {
        let none = Run {
            bytes: 0,
            characters: 0,
            blank: true,
        };
        if begins_with_markup(piece) {
            return none;
        }
        if !self.is_in_content() {
            return none;
        }
        if self.begins_with_closer(piece) {
            return none;
        }
        literal_run(piece)
    }

    /// Whether the piece begins with a `>` that would end a `]]>` of an element's text (XML 1.0 §2.4).
    #[inline]
    fn begins_with_closer(&self, piece: &[u8]) -> bool
        ensures { result ≡ bars_closer self.now piece.now }
    {
        match piece.split_first() {
            Some((first, _)) => *first == b'>'
                && !self.tokenizer.in_cdata()
                && self.context.is_behind_brackets(),
            None => false,
        }
    }

    /// How much white space that stands by itself is at the front of the piece, where it may come.
    #[inline]
    fn count_blanks(&self, piece: &[u8]) -> usize
        ensures within { result ≤ length piece.now }
        ensures only { IsFreeRun (take result piece.now) result }
        ensures blank { list_all is_space (take result piece.now) ≡ true }
        ensures ready { 0 < result → IsReaderReady self.now }
        ensures sound { 0 < result → reader_failure self.now ≡ None }
        ensures all { (limit : ℕ) (bytes : List ℕ) (told : List Placed) → IsInsideUnder limit self.now bytes told → result ≡ prefix_len is_still_space piece.now }
        ensures none { (e : MarkError) → reader_failure self.now ≡ Some e → result ≡ 0 }
    {
        if !self.is_in_content() {
            return 0;
        }
        blank_length(piece)
    }
}
