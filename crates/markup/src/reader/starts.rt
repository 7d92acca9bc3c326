//! Start tags that a reader takes whole without a copy.
ghost use Rattle.std.specs.Prelude.{◌≡◌, ◌<◌, ◌≤◌, ◌^◌, ◌+◌, ◌∷◌, ◌++◌, ℕ, List, [], IfOk, IfErr, IfSome, IsSome, IsSomeAnd, Some, None, Err, true, length, map, take};
ghost use Rattle.markup.specs.Ascii.{less_than};
ghost use Rattle.markup.specs.Events.{Placed, start_tag_items};
ghost use Rattle.markup.specs.PlainTags.{joined_text, name_behind};
ghost use Rattle.markup.specs.PlainStarts.{PlainStart, plain_start_text};
ghost use Rattle.markup.specs.TagAttributes.{tag_entry};
ghost use Rattle.markup.specs.Scopes.{placed_at};
ghost use Rattle.markup.specs.Reading.{bytes_taken, reader_failure, HasTakenUnder, HasToldUnder, MayTakeStartUnder, StopsUnder};
ghost use Rattle.markup.specs.inner.Tokenizers.{is_in_text};
ghost use Rattle.markup.specs.inner.TagParts.{spelled_opening};
ghost use Rattle.markup.specs.inner.WholeStarts.{IsStartAt};

use super::{MarkError, MarkFault, Reader};
use crate::scope::Stop;
use crate::start_tag::{StartTag, start_at};
use std::alloc::AllocError;

impl Reader {
    /// Takes the start tag that stands whole at the front of the piece, where no token is open: with names of
    /// ASCII letters, digits, `-`, `.` and `_`, with or without a prefix of such characters (Namespaces in XML 1.0
    /// §4), white space wherever a start tag has it (XML 1.0 §3.1, STag, EmptyElemTag, Attribute), and values of ASCII
    /// without references, tabs and line ends, in either kind of quotes. Its events are those that `take` tells. It
    /// answers `None` where no such tag is taken; any other token is for `take`. Each such tag is taken that stands
    /// behind a token other than the byte order mark, in no CDATA section, and has at most 1,048,576 bytes. It takes
    /// one block of memory for all attributes and declarations, which grows with their number, and none where there
    /// are none; what the reader keeps of a declaration while the element is open is its own. A fault of the tag is
    /// told as `take` tells it with the tag's last byte. Where there is no memory, and after an error, it answers as
    /// `take` does.
    pub fn take_start_tag<'a>(&mut self, piece: &'a [u8]) -> Result<Option<StartTag<'a>>, MarkError>
        requires { reader_failure self.old ≡ None → bytes_taken self.old + length piece.now ≤ 2 ^ 40 }
        ensures none { IfOk result (λ o. o ≡ None → self.new ≡ self.old) }
        ensures within { IfOk result (λ o. IfSome o (λ tag. (0 < tag.bytes) × (tag.bytes ≤ length piece.now))) }
        ensures spelled { IfOk result (λ o. IfSome o (λ tag. (rest : List ℕ) × (piece.now ≡ less_than ∷ (joined_text tag.prefix.now tag.name.now ++ rest)))) }
        ensures taken { (limit : ℕ) (bytes : List ℕ) (told : List Placed) → HasTakenUnder limit self.old bytes told → IfOk result (λ o. IfSome o (λ tag.
            HasToldUnder limit self.new (bytes ++ take tag.bytes piece.now) (told ++ placed_at (length bytes) (start_tag_items (Some (record { namespace = tag.ns; local = tag.name.now })) (map tag_entry tag.attributes.items) tag.is_empty)))) }
        ensures same_ns { (limit : ℕ) (bytes : List ℕ) (told : List Placed) → HasTakenUnder limit self.old bytes told → IfOk result (λ o. IfSome o (λ tag. tag.has_same_ns ≡ true → tag.ns ≡ (name_behind told tag.name.now).namespace)) }
        ensures err { (limit : ℕ) (bytes : List ℕ) (told : List Placed) → HasTakenUnder limit self.old bytes told →
            IfErr result (λ e. StopsUnder limit (bytes ++ piece.now) told [] [] e) }
        ensures all { (limit : ℕ) (bytes : List ℕ) (told : List Placed) (tag : PlainStart) (rest : List ℕ) → MayTakeStartUnder limit self.old bytes told tag → piece.now ≡ plain_start_text tag ++ rest →
            IfOk result (λ o. IsSomeAnd o (λ start. start.bytes ≡ length (plain_start_text tag))) }
        ensures count { IfOk result (λ o. IfSome o (λ tag. bytes_taken self.new ≡ bytes_taken self.old + tag.bytes)) }
        ensures failed { IfErr result (λ e. reader_failure self.new ≡ Some e) }
        ensures again { (e : MarkError) → reader_failure self.old ≡ Some e → (result ≡ Err e) × (self.new ≡ self.old) }
    {
        if let Some(error) = self.failed {
            return Err(error);
        }
        let result = self.step_start(piece);
        if let Err(error) = &result {
            self.failed = Some(*error);
        }
        result
    }

    /// Takes such a start tag, where the reader has not failed.
    fn step_start<'a>(&mut self, piece: &'a [u8]) -> Result<Option<StartTag<'a>>, MarkError>
        requires { bytes_taken self.old + length piece.now ≤ 2 ^ 40 }
        ensures none { IfOk result (λ o. o ≡ None → self.new ≡ self.old) }
        ensures within { IfOk result (λ o. IfSome o (λ tag. (0 < tag.bytes) × (tag.bytes ≤ length piece.now))) }
        ensures spelled { IfOk result (λ o. IfSome o (λ tag. (rest : List ℕ) × (piece.now ≡ less_than ∷ (joined_text tag.prefix.now tag.name.now ++ rest)))) }
        ensures taken { (limit : ℕ) (bytes : List ℕ) (told : List Placed) → HasTakenUnder limit self.old bytes told → IfOk result (λ o. IfSome o (λ tag.
            HasToldUnder limit self.new (bytes ++ take tag.bytes piece.now) (told ++ placed_at (length bytes) (start_tag_items (Some (record { namespace = tag.ns; local = tag.name.now })) (map tag_entry tag.attributes.items) tag.is_empty)))) }
        ensures same_ns { (limit : ℕ) (bytes : List ℕ) (told : List Placed) → HasTakenUnder limit self.old bytes told → IfOk result (λ o. IfSome o (λ tag. tag.has_same_ns ≡ true → tag.ns ≡ (name_behind told tag.name.now).namespace)) }
        ensures err { (limit : ℕ) (bytes : List ℕ) (told : List Placed) → HasTakenUnder limit self.old bytes told →
            IfErr result (λ e. StopsUnder limit (bytes ++ piece.now) told [] [] e) }
        ensures all { (limit : ℕ) (bytes : List ℕ) (told : List Placed) (tag : PlainStart) (rest : List ℕ) → MayTakeStartUnder limit self.old bytes told tag → piece.now ≡ plain_start_text tag ++ rest →
            IfOk result (λ o. IsSomeAnd o (λ start. start.bytes ≡ length (plain_start_text tag))) }
        ensures count { IfOk result (λ o. IfSome o (λ tag. bytes_taken self.new ≡ bytes_taken self.old + tag.bytes)) }
    {
        let place = self.tokenizer.start();
        let mut tag = match self.next_start(piece) {
            Ok(Some(tag)) => tag,
            Ok(None) => return Ok(None),
            Err(_) => return Err(MarkError::Memory),
        };
        let StartTag {
            prefix,
            name,
            is_empty,
            ..
        } = tag;
        match self
            .context
            .open(prefix, name, &mut tag.attributes, is_empty)
        {
            Ok(opened) => {
                tag.ns = opened.ns;
                tag.has_same_ns = opened.has_same_ns;
                self.tokenizer.pass(tag.bytes as u64);
                Ok(Some(tag))
            }
            Err(Stop::Rule(rule)) => Err(MarkError::Refused(MarkFault { rule, place })),
            Err(Stop::Memory) => Err(MarkError::Memory),
        }
    }

    /// The start tag at the front of the piece, where one may come, as it is spelled.
    #[inline]
    fn next_start<'a>(&self, piece: &'a [u8]) -> Result<Option<StartTag<'a>>, AllocError>
        ensures ready { IfOk result (λ o. IsSome o → is_in_text self.now.tokenizer ≡ true) }
        ensures found { IfOk result (λ o. IfSome o (λ tag. IsStartAt piece.now (spelled_opening tag.prefix.now tag.name.now tag.attributes.items tag.is_empty) tag.bytes)) }
        ensures begun { IfErr result (λ _. is_in_text self.now.tokenizer ≡ true) }
        ensures all { (limit : ℕ) (bytes : List ℕ) (told : List Placed) (tag : PlainStart) (rest : List ℕ) → MayTakeStartUnder limit self.now bytes told tag → piece.now ≡ plain_start_text tag ++ rest →
            IfOk result (λ o. IsSomeAnd o (λ start. start.bytes ≡ length (plain_start_text tag))) }
    {
        if !self.tokenizer.is_in_text() {
            return Ok(None);
        }
        start_at(piece, self.tokenizer.alloc)
    }
}
