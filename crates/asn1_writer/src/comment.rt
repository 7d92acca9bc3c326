//! A text within a comment: X.680 §12.6.
ghost use Rattle.std.specs.Prelude.{◌≡◌, ◌<◌, ◌≤◌, ◌∷◌, [], ◌++◌, IfSome, IfNone, length, take, drop};
ghost use Rattle.outside.specs.Pushes.{Pushes};
ghost use Rattle.asn1_model.specs.ModuleText.{begins_with_hyphen, comment_part, comment_text};

use outside::{Render, Sink, SinkError, push_bytes};

/// A text within a comment.
#[derive(Clone, Copy)]
pub(crate) struct Comment<'a> {
    pub(crate) text: &'a [u8],
}

impl Render for Comment<'_> {
    ghost use Rattle.asn1_model.specs.ModuleText.{comment_text};

    ghost rendered = { λ comment. comment_text comment.text.now };

    fn render<O: Sink>(&self, sink: &mut O) -> Result<(), SinkError>
        ensures { Pushes O.held O.faults O.room sink.old sink.new result (comment_text self.now.text.now) }
    {
        push_comment(self.text, sink)
    }
}

/// The first bytes of a text, and how they are written within a comment.
#[derive(Clone, Copy)]
struct Piece<'a> {
    count: usize,
    written: &'a [u8],
}

/// Pushes a text within a comment, in pieces.
fn push_comment<O: Sink>(text: &[u8], sink: &mut O) -> Result<(), SinkError>
    ensures { Pushes O.held O.faults O.room sink.old sink.new result (comment_text text.now) }
{
    let mut rest = text;
    while !rest.is_empty() {
        let piece = first_piece(rest);
        if let Err(error) = push_bytes(piece.written, sink) {
            return Err(error);
        }
        rest = rest.split_at(piece.count).1;
    }
    Ok(())
}

/// The first piece of a text: the bytes that stand for themselves, or one that does not.
fn first_piece(text: &[u8]) -> Piece<'_>
    requires { 0 < length text.now }
    ensures some { 0 < result.count }
    ensures bound { result.count ≤ length text.now }
    ensures written { comment_text text.now ≡ result.written.now ++ comment_text (drop result.count text.now) }
{
    let plain = plain_count(text);
    if plain > 0 {
        return Piece {
            count: plain,
            written: text.split_at(plain).0,
        };
    }
    let (first, behind) = text.split_at(1);
    Piece {
        count: 1,
        written: match replaced(text[0], begins_with_hyphen(behind)) {
            Some(written) => written,
            None => first,
        },
    }
}

/// How many bytes the text begins with that stand for themselves.
fn plain_count(text: &[u8]) -> usize
    ensures bound { result ≤ length text.now }
    ensures plain { comment_text text.now ≡ take result text.now ++ comment_text (drop result text.now) }
{
    for (count, byte) in text.iter().enumerate() {
        let behind = text.split_at(count + 1).1;
        if replaced(*byte, begins_with_hyphen(behind)).is_some() {
            return count;
        }
    }
    text.len()
}

/// What stands for a byte that does not stand for itself: a line end would end the comment, and so would two hyphens.
fn replaced(byte: u8, before_hyphen: bool) -> Option<&'static [u8]>
    ensures some { IfSome result (λ written. written.now ≡ comment_part byte before_hyphen) }
    ensures none { IfNone result (comment_part byte before_hyphen ≡ byte ∷ []) }
{
    if byte == b'-' && before_hyphen {
        return Some(b"- ".as_slice());
    }
    if byte == b'\n' || byte == b'\r' {
        return Some(b" ".as_slice());
    }
    None
}

/// Whether the text begins with a hyphen.
fn begins_with_hyphen(text: &[u8]) -> bool
    ensures { result ≡ begins_with_hyphen text.now }
{
    match text.split_first() {
        Some((first, _behind)) => *first == b'-',
        None => false,
    }
}
