//! The `]` of an element's text that a reader takes at once.
ghost use Rattle.std.specs.Prelude.{◌≡◌, ◌<◌, ◌≤◌, ◌^◌, ◌+◌, ◌++◌, ℕ, List, true, Some, None, length, take};
ghost use Rattle.std.specs.List.{list_all};
ghost use Rattle.markup.specs.Chars.{is_space};
ghost use Rattle.markup.specs.inner.Contexts.{HasOpen};
ghost use Rattle.markup.specs.Events.{Placed};
ghost use Rattle.markup.specs.Literals.{IsRun, IsBracketRun, characters_from};
ghost use Rattle.markup.specs.Reading.{bytes_taken, reader_failure, HasTakenUnder, HasToldUnder};
ghost use Rattle.markup.specs.inner.Tokenizers.{is_in_text};
ghost use Rattle.markup.specs.inner.ClosedBrackets.{IsClosedRun};
ghost use Rattle.markup.specs.inner.ReaderSteps.{IsReaderReady};

use super::{MarkError, Reader};
use crate::literals::{Run, bracket_length, closed_length};

impl Reader {
    /// Takes the `]` at the front of the piece, where an element is open and no token is. In a CDATA
    /// section, which may end with them, it takes them with the character behind them alone.
    pub(super) fn take_brackets(&mut self, piece: &[u8]) -> Run
        requires { reader_failure self.old ≡ None → bytes_taken self.old + length piece.now ≤ 2 ^ 40 }
        ensures within { result.bytes ≤ length piece.now }
        ensures only { IsRun (take result.bytes piece.now) result.characters }
        ensures blank { result.blank ≡ list_all is_space (take result.bytes piece.now) }
        ensures taken { (limit : ℕ) (bytes : List ℕ) (told : List Placed) → HasTakenUnder limit self.old bytes told →
            (run : IsRun (take result.bytes piece.now) result.characters) × HasToldUnder limit self.new (bytes ++ take result.bytes piece.now) (told ++ characters_from (length bytes) run.characters) }
        ensures count { bytes_taken self.new ≡ bytes_taken self.old + result.bytes }
        ensures failed { reader_failure self.new ≡ reader_failure self.old }
        ensures again { (e : MarkError) → reader_failure self.old ≡ Some e → (result.bytes ≡ 0) × (result.characters ≡ 0) × (self.new ≡ self.old) }
    {
        let count = self.count_brackets(piece);
        if count == 0 {
            return self.take_closed(piece);
        }
        self.tokenizer.pass(count as u64);
        self.context.pass_brackets(count);
        Run {
            bytes: count,
            characters: count,
            blank: false,
        }
    }

    /// How many `]` are at the front of the piece, where they are characters by themselves.
    #[inline]
    fn count_brackets(&self, piece: &[u8]) -> usize
        ensures within { result ≤ length piece.now }
        ensures only { IsBracketRun (take result piece.now) result }
        ensures ready { 0 < result → is_in_text self.now.tokenizer ≡ true }
        ensures inside { 0 < result → HasOpen self.now.context }
        ensures sound { 0 < result → reader_failure self.now ≡ None }
        ensures none { (e : MarkError) → reader_failure self.now ≡ Some e → result ≡ 0 }
    {
        if self.failed.is_some() {
            return 0;
        }
        if !self.tokenizer.is_in_text() {
            return 0;
        }
        if !self.context.has_open() {
            return 0;
        }
        bracket_length(piece)
    }

    /// Takes the `]` at the front of the piece with the character behind them.
    fn take_closed(&mut self, piece: &[u8]) -> Run
        requires { reader_failure self.old ≡ None → bytes_taken self.old + length piece.now ≤ 2 ^ 40 }
        ensures within { result.bytes ≤ length piece.now }
        ensures only { IsRun (take result.bytes piece.now) result.characters }
        ensures blank { result.blank ≡ list_all is_space (take result.bytes piece.now) }
        ensures taken { (limit : ℕ) (bytes : List ℕ) (told : List Placed) → HasTakenUnder limit self.old bytes told →
            (run : IsRun (take result.bytes piece.now) result.characters) × HasToldUnder limit self.new (bytes ++ take result.bytes piece.now) (told ++ characters_from (length bytes) run.characters) }
        ensures count { bytes_taken self.new ≡ bytes_taken self.old + result.bytes }
        ensures failed { reader_failure self.new ≡ reader_failure self.old }
        ensures again { (e : MarkError) → reader_failure self.old ≡ Some e → (result.bytes ≡ 0) × (result.characters ≡ 0) × (self.new ≡ self.old) }
    {
        let count = self.count_closed(piece);
        if count == 0 {
            return Run {
                bytes: 0,
                characters: 0,
                blank: true,
            };
        }
        self.tokenizer.pass(count as u64);
        self.context.pass_characters();
        Run {
            bytes: count,
            characters: count,
            blank: false,
        }
    }

    /// How many bytes at the front of the piece are `]` with one character behind them that stands by
    /// itself, where one may come.
    fn count_closed(&self, piece: &[u8]) -> usize
        ensures within { result ≤ length piece.now }
        ensures only { 0 < result → IsClosedRun (take result piece.now) result }
        ensures ready { 0 < result → IsReaderReady self.now }
        ensures sound { 0 < result → reader_failure self.now ≡ None }
        ensures none { (e : MarkError) → reader_failure self.now ≡ Some e → result ≡ 0 }
    {
        if !self.is_in_content() {
            return 0;
        }
        closed_length(piece)
    }
}
