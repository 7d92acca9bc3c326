//! A line end of two bytes that a reader takes at once.
ghost use Rattle.std.specs.Prelude.{◌≡◌, ◌≤◌, ◌^◌, ◌+◌, ◌∷◌, ◌++◌, ℕ, List, [], IsTrue, IsFalse, true, Some, None, length, take};
ghost use Rattle.lexical_core.specs.Tree.{Char};
ghost use Rattle.markup.specs.Ascii.{line_feed, carriage_return};
ghost use Rattle.markup.specs.Events.{Placed};
ghost use Rattle.markup.specs.Reading.{bytes_taken, reader_failure, HasTakenUnder, HasToldUnder};
ghost use Rattle.markup.specs.References.{MayReferUnder};
ghost use Rattle.markup.specs.Scopes.{placed_at};
ghost use Rattle.markup.specs.inner.Tokenizers.{is_in_text};

use super::{MarkError, Reader};

/// Whether the piece begins with a CR and an LF.
#[inline]
fn begins_line_end(piece: &[u8]) -> bool
    ensures found { IsTrue result → (rest : List ℕ) × (piece.now ≡ carriage_return ∷ line_feed ∷ rest) }
    ensures all { (rest : List ℕ) → piece.now ≡ carriage_return ∷ line_feed ∷ rest → IsTrue result }
{
    let Some((first, behind)) = piece.split_first() else {
        return false;
    };
    if *first != b'\r' {
        return false;
    }
    match behind.split_first() {
        Some((second, _)) => *second == b'\n',
        None => false,
    }
}

impl Reader {
    /// Takes the CR LF at the front of the piece, where no token and no CDATA section is open. It is the
    /// character LF at its place (XML 1.0 §2.11). Anything else is for `take`, also a CR at the end of the
    /// piece, which an LF may join, and after an error it takes none. Each is taken that stands in an
    /// element. It takes no memory.
    pub fn take_line_end(&mut self, piece: &[u8]) -> bool
        requires { reader_failure self.old ≡ None → bytes_taken self.old + length piece.now ≤ 2 ^ 40 }
        ensures none { IsFalse result → self.new ≡ self.old }
        ensures within { IsTrue result → 2 ≤ length piece.now }
        ensures only { IsTrue result → (rest : List ℕ) × (piece.now ≡ carriage_return ∷ line_feed ∷ rest) }
        ensures taken { (limit : ℕ) (bytes : List ℕ) (told : List Placed) → HasTakenUnder limit self.old bytes told → IsTrue result → HasToldUnder limit self.new (bytes ++ take 2 piece.now) (told ++ placed_at (length bytes) (Char line_feed ∷ [])) }
        ensures all { (limit : ℕ) (bytes : List ℕ) (told : List Placed) (rest : List ℕ) → MayReferUnder limit self.old bytes told → piece.now ≡ carriage_return ∷ line_feed ∷ rest → IsTrue result }
        ensures count { IsTrue result → bytes_taken self.new ≡ bytes_taken self.old + 2 }
        ensures failed { reader_failure self.new ≡ reader_failure self.old }
        ensures again { (e : MarkError) → reader_failure self.old ≡ Some e → IsFalse result }
    {
        if !self.is_line_end_next(piece) {
            return false;
        }
        self.tokenizer.pass(2);
        self.context.pass_characters();
        true
    }

    /// Whether a CR LF is at the front of the piece, where one may come.
    #[inline]
    fn is_line_end_next(&self, piece: &[u8]) -> bool
        ensures only { IsTrue result → (rest : List ℕ) × (piece.now ≡ carriage_return ∷ line_feed ∷ rest) }
        ensures ready { IsTrue result → is_in_text self.now.tokenizer ≡ true }
        ensures sound { IsTrue result → reader_failure self.now ≡ None }
        ensures all { (limit : ℕ) (bytes : List ℕ) (told : List Placed) (rest : List ℕ) → MayReferUnder limit self.now bytes told → piece.now ≡ carriage_return ∷ line_feed ∷ rest → IsTrue result }
        ensures none { (e : MarkError) → reader_failure self.now ≡ Some e → IsFalse result }
    {
        if self.failed.is_some() {
            return false;
        }
        if !self.tokenizer.is_in_text() {
            return false;
        }
        begins_line_end(piece)
    }
}
