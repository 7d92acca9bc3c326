//! Tags without attributes that a reader takes whole without a copy.
ghost use Rattle.std.specs.Prelude.{◌≡◌, ◌<◌, ◌≤◌, ◌^◌, ◌+◌, ◌++◌, ℕ, List, IfOk, IfErr, IfSome, IsSome, true, Some, None, Err, length, take};
ghost use Rattle.markup.specs.Events.{Placed};
ghost use Rattle.markup.specs.declared.tag.Opening.{Opening};
ghost use Rattle.markup.specs.declared.plain_tag.TagKind.{TagKind};
ghost use Rattle.markup.specs.PlainTags.{joined_text, tag_text, tag_items, name_behind, IsTagAt, IsTagInside};
ghost use Rattle.markup.specs.Scopes.{IsScope, placed_at};
ghost use Rattle.markup.specs.inner.Tokenizers.{is_in_text};
ghost use Rattle.markup.specs.Reading.{bytes_taken, reader_failure, HasTakenUnder, HasToldUnder, MayTakeTagUnder};

use super::{MarkError, Reader};
use crate::plain_tag::{PlainTag, TagKind};

impl Reader {
    /// Takes the start tag or end tag that stands whole at the front of the piece, where no token and
    /// an element is open: without attributes and white space, with the prefix of the innermost element
    /// or, as that, without one (Namespaces in XML 1.0 §4), in a start tag with a local name of ASCII
    /// letters, digits, `-`, `.` and `_` (XML 1.0 §3.1). Its events are those that `take` tells, with
    /// names in the namespace of the innermost element. Any other token is for `take`. Where there is no
    /// memory, and after an error, it answers as `take` does.
    pub fn take_tag<'a>(&mut self, piece: &'a [u8]) -> Result<Option<PlainTag<'a>>, MarkError>
        requires { reader_failure self.old ≡ None → bytes_taken self.old + length piece.now ≤ 2 ^ 40 }
        ensures none { IfOk result (λ o. o ≡ None → self.new ≡ self.old) }
        ensures within { IfOk result (λ o. IfSome o (λ tag. (0 < tag.bytes) × (tag.bytes ≤ length piece.now))) }
        ensures spelled { IfOk result (λ o. IfSome o (λ tag. take tag.bytes piece.now ≡ tag_text tag.kind (joined_text tag.prefix.now tag.name.now))) }
        ensures taken { (limit : ℕ) (bytes : List ℕ) (told : List Placed) → HasTakenUnder limit self.old bytes told → IfOk result (λ o. IfSome o (λ tag.
            HasToldUnder limit self.new (bytes ++ take tag.bytes piece.now) (told ++ placed_at (length bytes) (tag_items tag.kind (name_behind told tag.name.now))))) }
        ensures all { (limit : ℕ) (bytes : List ℕ) (told : List Placed) (kind : TagKind) (prefix name rest : List ℕ) → MayTakeTagUnder limit self.old bytes told kind prefix name → piece.now ≡ tag_text kind (joined_text prefix name) ++ rest → IfOk result (λ o. IsSome o) }
        ensures count { IfOk result (λ o. IfSome o (λ tag. bytes_taken self.new ≡ bytes_taken self.old + tag.bytes)) }
        ensures failed { IfErr result (λ e. reader_failure self.new ≡ Some e) }
        ensures memory { reader_failure self.old ≡ None → IfErr result (λ e. e ≡ MarkError.Memory) }
        ensures again { (e : MarkError) → reader_failure self.old ≡ Some e → (result ≡ Err e) × (self.new ≡ self.old) }
    {
        if let Some(error) = self.failed {
            return Err(error);
        }
        let Some(tag) = self.next_tag(piece) else {
            return Ok(None);
        };
        if self
            .context
            .take_plain(tag.kind, tag.prefix, tag.name)
            .is_err()
        {
            self.failed = Some(MarkError::Memory);
            return Err(MarkError::Memory);
        }
        self.tokenizer.pass(tag.bytes as u64);
        Ok(Some(tag))
    }

    /// The plain tag at the front of the piece, where one may come.
    #[inline]
    fn next_tag<'a>(&self, piece: &'a [u8]) -> Option<PlainTag<'a>>
        ensures ready { IsSome result → is_in_text self.now.tokenizer ≡ true }
        ensures found { IfSome result (λ tag. (opened : List ℕ) × IsTagAt piece.now tag.prefix.now opened tag.kind tag.name.now tag.bytes) }
        ensures only { (tags : List Opening) → IsScope self.now.context.scope tags → IfSome result (λ tag. IsTagInside piece.now tags tag.prefix.now tag.kind tag.name.now tag.bytes) }
        ensures all { (limit : ℕ) (bytes : List ℕ) (told : List Placed) (kind : TagKind) (prefix name rest : List ℕ) → MayTakeTagUnder limit self.now bytes told kind prefix name → piece.now ≡ tag_text kind (joined_text prefix name) ++ rest → IsSome result }
    {
        if !self.tokenizer.is_in_text() {
            return None;
        }
        self.context.scope.tag_at(piece)
    }
}
