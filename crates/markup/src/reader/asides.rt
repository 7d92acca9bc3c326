//! Comments, instructions and the ends of CDATA sections that a reader takes at once.
ghost use Rattle.std.specs.Prelude.{◌≡◌, ◌<◌, ◌≤◌, ◌^◌, ◌+◌, ◌∷◌, ◌++◌, ℕ, List, [], IfSome, IsSome, Some, None, length, take};
ghost use Rattle.lexical_core.specs.Tree.{Skipped};
ghost use Rattle.markup.specs.Asides.{MayTakeAsideUnder};
ghost use Rattle.markup.specs.Events.{Placed};
ghost use Rattle.markup.specs.Reading.{bytes_taken, reader_failure, HasTakenUnder, HasToldUnder};
ghost use Rattle.markup.specs.Scopes.{placed_at};
ghost use Rattle.markup.specs.Token.{Token, token_bytes};
ghost use Rattle.markup.specs.inner.TokenRules.{is_cdata};
ghost use Rattle.markup.specs.inner.AsideTexts.{IsAsideAt};
ghost use Rattle.markup.specs.inner.ReaderSteps.{IsReaderReady};

use super::{MarkError, Reader};
use crate::asides::{Aside, aside_at};

impl Reader {
    /// Takes the comment, the instruction or the beginning of a CDATA section that stands whole at the front of the piece,
    /// where an element is open, and no token and no section; or the end of a section, where one is open (XML 1.0 §2.5,
    /// §2.6, §2.7). It tells that something is skipped at its place. Each such token is taken, of comments and instructions
    /// those in ASCII. It answers how many bytes that are; where none is taken, and after an error, it answers 0: anything
    /// else is for `take`. It takes no memory.
    pub fn take_aside(&mut self, piece: &[u8]) -> usize
        requires { reader_failure self.old ≡ None → bytes_taken self.old + length piece.now ≤ 2 ^ 40 }
        ensures none { result ≡ 0 → self.new ≡ self.old }
        ensures within { result ≤ length piece.now }
        ensures taken { (limit : ℕ) (bytes : List ℕ) (told : List Placed) → HasTakenUnder limit self.old bytes told → 0 < result →
            HasToldUnder limit self.new (bytes ++ take result piece.now) (told ++ placed_at (length bytes) (Skipped ∷ [])) }
        ensures all { (limit : ℕ) (bytes : List ℕ) (told : List Placed) (t : Token) (rest : List ℕ) → MayTakeAsideUnder limit self.old bytes told t → piece.now ≡ token_bytes t ++ rest → result ≡ length (token_bytes t) }
        ensures count { bytes_taken self.new ≡ bytes_taken self.old + result }
        ensures failed { reader_failure self.new ≡ reader_failure self.old }
        ensures again { (e : MarkError) → reader_failure self.old ≡ Some e → (result ≡ 0) × (self.new ≡ self.old) }
    {
        let Some(aside) = self.next_aside(piece) else {
            return 0;
        };
        self.tokenizer.pass_token(aside.ended, aside.bytes as u64);
        self.context.pass_characters();
        aside.bytes
    }

    /// Such a token at the front of the piece, where one may come.
    #[inline]
    fn next_aside(&self, piece: &[u8]) -> Option<Aside>
        ensures only { IfSome result (λ a. IsAsideAt (is_cdata self.now.tokenizer.position) piece.now a.ended a.bytes) }
        ensures ready { IsSome result → IsReaderReady self.now }
        ensures sound { IsSome result → reader_failure self.now ≡ None }
        ensures all { (limit : ℕ) (bytes : List ℕ) (told : List Placed) (t : Token) (rest : List ℕ) → MayTakeAsideUnder limit self.now bytes told t → piece.now ≡ token_bytes t ++ rest → IsSome result }
        ensures none { (e : MarkError) → reader_failure self.now ≡ Some e → result ≡ None }
    {
        if !self.is_in_content() {
            return None;
        }
        aside_at(self.tokenizer.in_cdata(), piece)
    }
}
