//! What each call takes that takes many bytes at once.
ghost use Rattle.std.specs.Prelude.{◌≡◌, ◌≤◌, IfSome, IsTrue};
ghost use Rattle.markup.specs.Reading.{bytes_taken};

use markup::{Events, Reader, Run};
use std::alloc::Global;

/// A reader that has taken these bytes, where they have no fault.
pub fn behind(alloc: Global, bytes: &[u8]) -> Option<Reader>
    ensures { IfSome result (λ reader. bytes_taken reader ≤ 100) }
{
    let mut out = Events::new(alloc);
    let mut reader = Reader::new(alloc);
    if are_taken(&mut reader, &mut out, bytes) {
        Some(reader)
    } else {
        None
    }
}

/// Whether the bytes have no fault for a reader before the first byte, and are few.
fn are_taken(reader: &mut Reader, out: &mut Events, bytes: &[u8]) -> bool
    requires { bytes_taken reader.old ≡ 0 }
    ensures { IsTrue result → bytes_taken reader.new ≤ 100 }
{
    if bytes.len() > 100 {
        return false;
    }
    let mut rest = bytes;
    while let Some((byte, after)) = rest.split_first() {
        if reader.take(*byte, out).is_err() {
            return false;
        }
        rest = after;
    }
    true
}

/// Pieces of an element's text, and how many bytes and characters the run at their front has, and
/// whether it is white space.
static RUNS: [(&[u8], usize, usize, bool); 12] = [
    (b"b\xE2\x82", 1, 1, false),
    (b"b\xE2\x82\xAC", 4, 2, false),
    (b"\xF0\x9F\x98", 0, 0, true),
    (b"\xF0\x9F\x98\x80c]d", 5, 2, false),
    (b"\xC2\x80\rb", 2, 1, false),
    (b"b\xEF\xBF\xBEc", 1, 1, false),
    (b"b\xC0\x80c", 1, 1, false),
    (b"b\xED\xA0\x80", 1, 1, false),
    (b"\x80b", 0, 0, true),
    (b" \n\t<", 3, 3, true),
    (b" \xC2\xA0<", 3, 2, false),
    (b"]]b", 2, 2, false),
];

/// A run ends before a character that is cut, or that XML has not, or that is none.
#[test]
fn runs_of_whole_characters(rt: HostRuntime) {
    for (piece, bytes, characters, blank) in &RUNS {
        let run = Run {
            bytes: *bytes,
            characters: *characters,
            blank: *blank,
        };
        let found = run_behind(rt.alloc(), piece);
        assert!(rt; found == Some(run), "{found:?}");
    }
}

/// The run at the front of the piece, behind `<a>`.
fn run_behind(alloc: Global, piece: &[u8]) -> Option<Run> {
    let mut reader = behind(alloc, b"<a>")?;
    run_taken(&mut reader, piece)
}

fn run_taken(reader: &mut Reader, piece: &[u8]) -> Option<Run>
    requires { bytes_taken reader.old ≤ 100 }
{
    if piece.len() > 100 {
        return None;
    }
    Some(reader.take_characters(piece))
}

/// What was taken, pieces behind it, how many bytes the reference has that is taken at their front, and its
/// character.
static REFERENCES: [(&str, &str, usize, char); 10] = [
    ("<a>", "&amp;b", 5, '&'),
    ("<a>]", "&#65;", 5, 'A'),
    ("<a>", "&#x1F600;c", 9, '\u{1F600}'),
    ("<a>", "&#x20", 0, ' '),
    ("<a>", "&b;", 0, ' '),
    ("<a>", "&#0;", 0, ' '),
    ("<a>&", "lt;", 0, ' '),
    ("<a><![CDATA[", "&lt;", 0, ' '),
    ("<a><b c='", "&lt;", 0, ' '),
    ("", "&lt;", 0, ' '),
];

/// A reference is taken where it is whole and may stand.
#[test]
fn whole_references(rt: HostRuntime) {
    for (front, piece, bytes, character) in &REFERENCES {
        let found = reference_behind(rt.alloc(), front.as_bytes(), piece.as_bytes());
        assert!(rt;
            found == Some((*bytes, *character)),
            "{front}, {piece}: {found:?}"
        );
    }
}

fn reference_behind(alloc: Global, front: &[u8], piece: &[u8]) -> Option<(usize, char)> {
    let mut reader = behind(alloc, front)?;
    reference_taken(&mut reader, piece)
}

fn reference_taken(reader: &mut Reader, piece: &[u8]) -> Option<(usize, char)>
    requires { bytes_taken reader.old ≤ 100 }
{
    if piece.len() > 100 {
        return None;
    }
    match reader.take_reference(piece) {
        Some(reference) => Some((reference.bytes, reference.character)),
        None => Some((0, ' ')),
    }
}

/// Start tags, pieces behind them, and how many bytes the tag has that is taken at the front of a piece.
static TAGS: [(&str, &str, usize); 24] = [
    ("<a>", "<b>", 3),
    ("<a>", "<b/>", 4),
    ("<a>", "</a>", 4),
    ("<a>", "<b", 0),
    ("<a>", "<b/", 0),
    ("<a>", "</a", 0),
    ("<a>", "</b>", 0),
    ("<a>", "</aa>", 0),
    ("<a>", "<b >", 0),
    ("<a>", "</a >", 0),
    ("<a>", "<b:c>", 0),
    ("<a>", "<1>", 0),
    ("<a>", "<\u{E9}>", 0),
    ("<a>", "<Dt.1-2_x>y", 10),
    ("<p:a xmlns:p='u'>", "<p:b>", 5),
    ("<p:a xmlns:p='u'>", "<p:b/>", 6),
    ("<p:a xmlns:p='u'>", "</p:a>", 6),
    ("<p:a xmlns:p='u'>", "<b>", 0),
    ("<p:a xmlns:p='u'>", "<q:b>", 0),
    ("<p:a xmlns:p='u'>", "<p:1>", 0),
    ("<p:a xmlns:p='u'>", "<p:b:c>", 0),
    ("<p:a xmlns:p='u'>", "<p", 0),
    ("<p:a xmlns:p='u'>", "</p:b>", 0),
    ("<p:a xmlns:p='u'>", "</a>", 0),
];

#[test]
fn whole_tags(rt: HostRuntime) {
    for (front, piece, bytes) in &TAGS {
        let found = tag_behind(rt.alloc(), front.as_bytes(), piece.as_bytes());
        assert!(rt; found == Some(*bytes), "{front}{piece}: {found:?}");
    }
}

fn tag_behind(alloc: Global, front: &[u8], piece: &[u8]) -> Option<usize> {
    let mut reader = behind(alloc, front)?;
    tag_taken(&mut reader, piece)
}

fn tag_taken(reader: &mut Reader, piece: &[u8]) -> Option<usize>
    requires { bytes_taken reader.old ≤ 100 }
{
    if piece.len() > 100 {
        return None;
    }
    match reader.take_tag(piece) {
        Ok(Some(tag)) => Some(tag.bytes),
        Ok(None) => Some(0),
        Err(_) => None,
    }
}

/// What was taken, pieces behind it, and how many bytes at their front go on with the open token.
static INSIDE: [(&str, &str, usize); 14] = [
    ("<a>", "<b c", 0),
    ("<a><", "b c='d'", 7),
    ("<a><b c='", "d\"\t\r\ne'/>", 8),
    ("<a><b c='", "d<e", 1),
    ("<a><b c='", "d&lt;&#65;e&f", 12),
    ("<a><b c='", "d\u{E9}", 1),
    ("<a><b", ":d>", 2),
    ("<a></b", "-.c >", 4),
    ("<a><!--", " - b\n-->", 7),
    ("<a><!-", "-b-c--d", 6),
    ("<a><?b", " c? d?>", 6),
    ("<a>&", "amp;", 3),
    ("<", "?xml version='1.0'?>", 19),
    ("<a><![CDATA[", "b]", 0),
];

/// The bytes inside a token go up to the one that ends it, or with which it does not go on.
#[test]
fn bytes_inside(rt: HostRuntime) {
    for (front, piece, bytes) in &INSIDE {
        let found = inside_behind(rt.alloc(), front.as_bytes(), piece.as_bytes());
        assert!(rt; found == Some(*bytes), "{front}, {piece}: {found:?}");
    }
}

fn inside_behind(alloc: Global, front: &[u8], piece: &[u8]) -> Option<usize> {
    let mut reader = behind(alloc, front)?;
    inside_taken(&mut reader, piece)
}

fn inside_taken(reader: &mut Reader, piece: &[u8]) -> Option<usize>
    requires { bytes_taken reader.old ≤ 100 }
{
    if piece.len() > 100 {
        return None;
    }
    match reader.take_inside(piece) {
        Ok(count) => Some(count),
        Err(_) => None,
    }
}

/// After an error nothing is taken.
#[test]
fn nothing_after_an_error(rt: HostRuntime) {
    let mut reader = Reader::new(rt.alloc());
    let mut out = Events::new(rt.alloc());
    let nothing = takes_nothing_after_an_error(&mut reader, &mut out);
    assert!(rt; nothing);
}

/// Whether a reader before the first byte refuses a letter, and then takes nothing.
fn takes_nothing_after_an_error(reader: &mut Reader, out: &mut Events) -> bool
    requires { bytes_taken reader.old ≡ 0 }
{
    if reader.take(b'a', out).is_ok() {
        return false;
    }
    if reader.take_characters(b"bc").bytes > 0 || reader.take_blanks(b" ") > 0 {
        return false;
    }
    if reader.take_reference(b"&lt;").is_some() || reader.take_aside(b"<!---->") > 0 {
        return false;
    }
    reader.take_tag(b"<b>").is_err() && reader.take_start_tag(b"<b c='d'>").is_err()
}
