//! Comments, instructions and the words of CDATA sections and type declarations (XML 1.0 §2.5, §2.6, §2.7, §2.8).
ghost use Rattle.std.specs.Prelude.{◌≡◌};
ghost use Rattle.markup.specs.inner.Scans.{bang_step, comment_step, fixed_step, question_step, target_x_step, target_xm_step, target_xml_step, target_step, instruction_step, mark_step};

use crate::characters::{begins_name, continues_name, is_allowed, is_blank};
use crate::scan::{Ended, Scan, Turn, goes_if};
use crate::word::Word;

/// Behind `<!`: the `-` of a comment, the `[` of a CDATA section, or the `D` of a type declaration.
pub(super) fn bang(c: char) -> Turn
    ensures { result ≡ bang_step c }
{
    if c == '-' {
        Turn::Goes(Scan::BangHyphen)
    } else if c == '[' {
        Turn::Goes(Scan::Fixed(Word::Cdata, 0))
    } else {
        goes_if(c == 'D', Turn::Goes(Scan::Fixed(Word::Doctype, 1)))
    }
}

/// In a comment a hyphen leads on, and other characters back to the text.
pub(super) fn in_comment(hyphen: Scan, c: char) -> Turn
    ensures { result ≡ comment_step hyphen c }
{
    if c == '-' {
        Turn::Goes(hyphen)
    } else {
        goes_if(is_allowed(c), Turn::Goes(Scan::CommentText))
    }
}

/// In `CDATA[` or `DOCTYPE`: its next letter; the last ends the token.
pub(super) fn in_fixed(word: Word, at: u8, c: char) -> Turn
    ensures { result ≡ fixed_step word at c }
{
    match word.letter(at) {
        Some(letter) => {
            if c != letter {
                return Turn::Stuck;
            }
            match word.letter(at + 1) {
                Some(_) => Turn::Goes(Scan::Fixed(word, at + 1)),
                None => match word {
                    Word::Cdata => Turn::Whole(Ended::Opener),
                    _ => Turn::Whole(Ended::TypeDeclaration),
                },
            }
        }
        None => Turn::Stuck,
    }
}

/// Behind `<?`: a target begins; `x` or `X` may begin `xml`, and only the small letter a declaration.
pub(super) fn question(first: bool, c: char) -> Turn
    ensures { result ≡ question_step first c }
{
    if c == 'x' {
        Turn::Goes(Scan::TargetX(first))
    } else if c == 'X' {
        Turn::Goes(Scan::TargetX(false))
    } else {
        goes_if(begins_name(c), Turn::Goes(Scan::Target))
    }
}

/// In a target that is `x` so far: `m` or `M` may lead to `xml`, only the small one to a declaration; else as in another.
pub(super) fn target_x(first: bool, c: char) -> Turn
    ensures { result ≡ target_x_step first c }
{
    if c == 'm' {
        Turn::Goes(Scan::TargetXm(first))
    } else if c == 'M' {
        Turn::Goes(Scan::TargetXm(false))
    } else {
        target(c)
    }
}

/// In a target that is `xm` so far: `l` or `L` makes it `xml`, only the small one for a declaration; else as in another.
pub(super) fn target_xm(first: bool, c: char) -> Turn
    ensures { result ≡ target_xm_step first c }
{
    if c == 'l' {
        Turn::Goes(Scan::TargetXml(first))
    } else if c == 'L' {
        Turn::Goes(Scan::TargetXml(false))
    } else {
        target(c)
    }
}

/// In a target that is `xml` so far: it goes on as another, or white space begins a declaration, where one may follow.
pub(super) fn target_xml(first: bool, c: char) -> Turn
    ensures { result ≡ target_xml_step first c }
{
    if continues_name(c) {
        Turn::Goes(Scan::Target)
    } else {
        goes_if(first && is_blank(c), Turn::Goes(Scan::DeclarationGap))
    }
}

/// In another target: it goes on, or white space or `?` ends it.
pub(super) fn target(c: char) -> Turn
    ensures { result ≡ target_step c }
{
    if continues_name(c) {
        Turn::Goes(Scan::Target)
    } else if is_blank(c) {
        Turn::Goes(Scan::InstructionText)
    } else {
        goes_if(c == '?', Turn::Goes(Scan::TargetMark))
    }
}

/// In an instruction's text: `?` may end it, and any other character that is allowed goes on.
pub(super) fn instruction_text(c: char) -> Turn
    ensures { result ≡ instruction_step c }
{
    if c == '?' {
        Turn::Goes(Scan::InstructionMark)
    } else {
        goes_if(is_allowed(c), Turn::Goes(Scan::InstructionText))
    }
}

/// Behind a `?` in an instruction's text: `>` ends the instruction; else as in the text.
pub(super) fn instruction_mark(c: char) -> Turn
    ensures { result ≡ mark_step c }
{
    if c == '>' {
        Turn::Whole(Ended::Passed)
    } else {
        instruction_text(c)
    }
}
