//! Start tags that a reader takes whole, and what is told of them.
ghost use Rattle.std.specs.Prelude.{◌≤◌};
ghost use Rattle.markup.specs.Reading.{bytes_taken};

use super::pieces::take_start;
use super::runs::behind;
use super::{Told, Verdict, is_told};
use Told::{End, Start};
use Verdict::At;
use lexical_core::Rule;
use lexical_core::Rule::{BadPrefix, DuplicateAttribute};
use markup::{Events, Reader};
use std::alloc::Global;
use std::process::Abort;

/// The namespace that the prefix `xml` has.
const XML: &str = "http://www.w3.org/XML/1998/namespace";

/// Two prefixes of one namespace.
const TWO: &str = "<a xmlns:p='u' xmlns:q='u'>";

/// What was taken, pieces behind it, how many bytes the start tag has that is taken at their front, and what is
/// told of it.
static STARTS: [(&str, &str, usize, &[Told]); 26] = [
    ("<a>", "<b>", 3, &[Start(("", "b"), &[])]),
    ("<a>", "<b/>", 4, &[Start(("", "b"), &[]), End(("", "b"))]),
    ("<a>", "<b />", 5, &[Start(("", "b"), &[]), End(("", "b"))]),
    ("<a>", "<b\n>", 4, &[Start(("", "b"), &[])]),
    (
        "<a>",
        "<b c = \"d\"/>",
        12,
        &[Start(("", "b"), &[(("", "c"), "d")]), End(("", "b"))],
    ),
    (
        "<a>",
        "<b\r\n    c='d'\t e='f' >",
        22,
        &[Start(("", "b"), &[(("", "c"), "d"), (("", "e"), "f")])],
    ),
    (
        "<a>",
        "<b c\t=\n'd'\r\n/>",
        14,
        &[Start(("", "b"), &[(("", "c"), "d")]), End(("", "b"))],
    ),
    (
        "<a>",
        "<b c=\"d\">e",
        9,
        &[Start(("", "b"), &[(("", "c"), "d")])],
    ),
    (
        "<a>",
        "<b c='d\"e' f=\"'\"/>g",
        18,
        &[
            Start(("", "b"), &[(("", "c"), "d\"e"), (("", "f"), "'")]),
            End(("", "b")),
        ],
    ),
    (
        "<a>",
        "<b B='' a='' a-='' aa='' b=''>",
        30,
        &[Start(
            ("", "b"),
            &[
                (("", "B"), ""),
                (("", "a"), ""),
                (("", "a-"), ""),
                (("", "aa"), ""),
                (("", "b"), ""),
            ],
        )],
    ),
    (
        "<a>",
        "<b d='' c=''>",
        13,
        &[Start(("", "b"), &[(("", "c"), ""), (("", "d"), "")])],
    ),
    (
        "<a>",
        "<b cc='' c=''>",
        14,
        &[Start(("", "b"), &[(("", "c"), ""), (("", "cc"), "")])],
    ),
    (
        "<a>",
        "<b xml:lang='de'>",
        17,
        &[Start(("", "b"), &[((XML, "lang"), "de")])],
    ),
    ("<a>", "<b xmlns='u'>", 13, &[Start(("u", "b"), &[])]),
    (
        "<a>",
        "<b xmln='u' xmlnsx='v'>",
        23,
        &[Start(("", "b"), &[(("", "xmln"), "u"), (("", "xmlnsx"), "v")])],
    ),
    (
        "<a>",
        "<b xmlns='u' c=''>",
        18,
        &[Start(("u", "b"), &[(("", "c"), "")])],
    ),
    (
        "<a>",
        "<b-1 c.2='d e'>",
        15,
        &[Start(("", "b-1"), &[(("", "c.2"), "d e")])],
    ),
    ("<a>", "<p:b xmlns:p='u'>", 17, &[Start(("u", "b"), &[])]),
    (
        "<a>",
        "<b xmlns:p='u' p:c='d'/>",
        24,
        &[Start(("", "b"), &[(("u", "c"), "d")]), End(("", "b"))],
    ),
    (
        "<a>",
        "<p:b q:c='d' xmlns:p='u' xmlns:q='v'/>",
        38,
        &[Start(("u", "b"), &[(("v", "c"), "d")]), End(("u", "b"))],
    ),
    (
        TWO,
        "<b p:c='d'>",
        11,
        &[Start(("", "b"), &[(("u", "c"), "d")])],
    ),
    (
        TWO,
        "<b p:c='' c=''/>",
        16,
        &[
            Start(("", "b"), &[(("", "c"), ""), (("u", "c"), "")]),
            End(("", "b")),
        ],
    ),
    (
        TWO,
        "<b p:d='' q:c=''>",
        17,
        &[Start(("", "b"), &[(("u", "c"), ""), (("u", "d"), "")])],
    ),
    (TWO, "<b xmlns:p='v'>", 15, &[Start(("", "b"), &[])]),
    (
        "<p:a xmlns:p='u'>",
        "<b c='d'>",
        9,
        &[Start(("", "b"), &[(("", "c"), "d")])],
    ),
    (
        "<p:a xmlns:p='u'>",
        "<p:b c='d'>/",
        11,
        &[Start(("u", "b"), &[(("", "c"), "d")])],
    ),
];

/// Pieces behind `<a>` at whose front no start tag is taken: none is whole there, or it is for `take`.
static OTHERS: [&str; 15] = [
    "<b c='d'",
    "<b c='d' ",
    "<b c='d'e='f'>",
    "<b / >",
    "<p:q:b>",
    "<:b>",
    "<p:>",
    "<b p:q:c='d'>",
    "<b :c='d'>",
    "<b p:='d'>",
    "<b c='&lt;'>",
    "<b c='\t'>",
    "<b c='\u{E9}'>",
    "<b c=`d`>",
    "</a>",
];

/// What was taken, start tags behind it, and the rule that each breaks.
static REFUSED: [(&str, &str, Rule); 5] = [
    ("<a>", "<b c='' c=''>", DuplicateAttribute),
    ("<a>", "<p:b c='d'>", BadPrefix),
    ("<a>", "<b p:c='d'>", BadPrefix),
    (TWO, "<b p:c='' q:c=''>", DuplicateAttribute),
    (TWO, "<b r:c=''>", BadPrefix),
];

/// Of the piece behind the front this start tag is taken, or it is refused so, and these events are told.
fn check_start(
    rt: &impl Abort,
    alloc: Global,
    front: &str,
    piece: &str,
    expected: Result<usize, Verdict>,
    events: &[Told],
) {
    let mut out = Events::new(alloc);
    let found = start_behind(alloc, front, piece, &mut out);
    assert!(rt; found == expected, "{front}{piece}: {found:?}");
    assert!(rt;
        are_told(&out, front.len() as u64, events),
        "{front}{piece}"
    );
}

#[test]
fn whole_starts(rt: HostRuntime) {
    for (front, piece, bytes, events) in &STARTS {
        check_start(&rt, rt.alloc(), front, piece, Ok(*bytes), events);
    }
}

#[test]
fn other_starts(rt: HostRuntime) {
    for piece in &OTHERS {
        check_start(&rt, rt.alloc(), "<a>", piece, Ok(0), &[]);
    }
}

#[test]
fn refused_starts(rt: HostRuntime) {
    for (front, piece, rule) in &REFUSED {
        let expected = Err(At(*rule, front.len() as u64));
        check_start(&rt, rt.alloc(), front, piece, expected, &[]);
    }
}

/// How many bytes the start tag has that is taken at the front of the piece.
fn start_behind(
    alloc: Global,
    front: &str,
    piece: &str,
    out: &mut Events,
) -> Result<usize, Verdict> {
    match behind(alloc, front.as_bytes()) {
        Some(mut reader) => start_taken(&mut reader, out, alloc, piece.as_bytes()),
        None => Err(Verdict::TooLong),
    }
}

fn start_taken(
    reader: &mut Reader,
    out: &mut Events,
    alloc: Global,
    piece: &[u8],
) -> Result<usize, Verdict>
    requires { bytes_taken reader.old ≤ 100 }
{
    if piece.len() > 100 {
        return Err(Verdict::TooLong);
    }
    take_start(reader, out, alloc, piece)
}

/// Whether these are the events, all at this place.
fn are_told(out: &Events, place: u64, expected: &[Told]) -> bool {
    for (at, row) in expected.iter().enumerate() {
        match out.get(at) {
            Some(event) => {
                if event.place != place || !is_told(&event.what, *row) {
                    return false;
                }
            }
            None => return false,
        }
    }
    out.len() == expected.len()
}
