//! A whole reference that a reader takes at once.
ghost use Rattle.std.specs.Prelude.{◌≡◌, ◌<◌, ◌≤◌, ◌^◌, ◌+◌, ◌∷◌, ◌++◌, ℕ, List, [], IfSome, IsSome, true, Some, None, length, take, encode_utf8_all};
ghost use Rattle.lexical_core.specs.Tree.{Char};
ghost use Rattle.markup.specs.inner.Contexts.{HasOpen};
ghost use Rattle.markup.specs.Events.{Placed};
ghost use Rattle.markup.specs.Reading.{bytes_taken, reader_failure, HasTakenUnder, HasToldUnder};
ghost use Rattle.markup.specs.Reference.{Reference, is_reference, reference_text};
ghost use Rattle.markup.specs.References.{IsReferenceAt, MayReferUnder};
ghost use Rattle.markup.specs.Scopes.{placed_at};
ghost use Rattle.markup.specs.inner.Tokenizers.{is_in_text};

use super::{MarkError, Reader};
use crate::references::{CharacterReference, begins_reference, reference_at};

impl Reader {
    /// Takes the reference that stands whole at the front of the piece, where an element is open, and no
    /// token and no CDATA section: to one of the five entities that need no declaration, or to a character
    /// by its number (XML 1.0 §4.1, §4.6). It is the character at its place. Anything else is for `take`,
    /// and after an error it takes none. It takes no memory.
    pub fn take_reference(&mut self, piece: &[u8]) -> Option<CharacterReference>
        requires { reader_failure self.old ≡ None → bytes_taken self.old + length piece.now ≤ 2 ^ 40 }
        ensures none { result ≡ None → self.new ≡ self.old }
        ensures within { IfSome result (λ r. (0 < r.bytes) × (r.bytes ≤ length piece.now)) }
        ensures only { IfSome result (λ r. IsReferenceAt piece.now r.character r.bytes) }
        ensures taken { (limit : ℕ) (bytes : List ℕ) (told : List Placed) → HasTakenUnder limit self.old bytes told → IfSome result (λ r.
            HasToldUnder limit self.new (bytes ++ take r.bytes piece.now) (told ++ placed_at (length bytes) (Char r.character ∷ []))) }
        ensures all { (limit : ℕ) (bytes : List ℕ) (told : List Placed) (reference : Reference) (rest : List ℕ) → MayReferUnder limit self.old bytes told → is_reference reference ≡ true → piece.now ≡ encode_utf8_all (reference_text reference) ++ rest → IsSome result }
        ensures count { IfSome result (λ r. bytes_taken self.new ≡ bytes_taken self.old + r.bytes) }
        ensures failed { reader_failure self.new ≡ reader_failure self.old }
        ensures again { (e : MarkError) → reader_failure self.old ≡ Some e → (result ≡ None) × (self.new ≡ self.old) }
    {
        let Some(found) = self.next_reference(piece) else {
            return None;
        };
        self.tokenizer.pass(found.bytes as u64);
        self.context.pass_characters();
        Some(found)
    }

    /// The reference that stands whole at the front of the piece, where one may come.
    #[inline]
    fn next_reference(&self, piece: &[u8]) -> Option<CharacterReference>
        ensures only { IfSome result (λ r. IsReferenceAt piece.now r.character r.bytes) }
        ensures ready { IsSome result → is_in_text self.now.tokenizer ≡ true }
        ensures inside { IsSome result → HasOpen self.now.context }
        ensures sound { IsSome result → reader_failure self.now ≡ None }
        ensures all { (limit : ℕ) (bytes : List ℕ) (told : List Placed) (reference : Reference) (rest : List ℕ) → MayReferUnder limit self.now bytes told → is_reference reference ≡ true → piece.now ≡ encode_utf8_all (reference_text reference) ++ rest → IsSome result }
        ensures none { (e : MarkError) → reader_failure self.now ≡ Some e → result ≡ None }
    {
        if !begins_reference(piece) {
            return None;
        }
        if self.failed.is_some() {
            return None;
        }
        if !self.tokenizer.is_in_text() {
            return None;
        }
        if !self.context.has_open() {
            return None;
        }
        reference_at(piece)
    }
}
