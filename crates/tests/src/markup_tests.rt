//! The worked texts: their faults and events; hostile texts, which are answered as well.
mod cuts;
mod long;
mod pieces;
mod runs;
mod starts;

ghost use Rattle.std.specs.Prelude.{◌≡◌};
ghost use Rattle.markup.specs.Reading.{bytes_taken};

use lexical_core::Rule;
use markup::{Attr, Attrs, Events, MarkError, Reader, What};
use std::alloc::{AllocError, Global};
use std::process::Abort;

/// What a reader says of a text.
#[derive(Clone, Copy, Debug, PartialEq, Eq, Drop)]
enum Verdict {
    Whole,
    At(Rule, u64),
    Memory,
    /// Events are told that are others than `take` alone tells.
    Otherwise,
    /// More bytes than a reader takes.
    TooLong,
}

use Rule::{
    AfterRoot, BadChar, BadMarkup, BadPrefix, BadReference, BadUtf8, Doctype, DuplicateAttribute,
    TagMismatch, TextOutside, Truncated,
};
use Verdict::{At, Whole};

/// The start tag of a message instance, 65 bytes.
const ROOT: &str = "<Document xmlns=\"urn:iso:std:iso:20022:tech:xsd:demo.001.001.01\">";

/// The most bytes that a reader takes.
const LIMIT: u64 = 1 << 40;

/// An instance with a byte order mark, a declaration, a comment, prefixes, a CDATA section, a
/// reference and CR LF at each line's end.
static PREFIXED: &str =
    "\u{FEFF}<?xml version='1.0' encoding='utf-8'?>\r\n<!-- c -->\r\n<p:Document xmlns:p=\"urn:iso:std:iso:20022:tech:xsd:demo.001.001.01\" xmlns:xsi=\"http://www.w3.org/2001/XMLSchema-instance\" xsi:schemaLocation=\"urn:iso:std:iso:20022:tech:xsd:demo.001.001.01 demo.xsd\">\r\n<p:Note><p:Id><![CDATA[A]]>&#x31;</p:Id></p:Note>\r\n</p:Document>\r\n";

/// Texts behind the root's start tag.
static BEHIND_ROOT: [(&str, Verdict); 37] = [
    ("<Note><Id>A1</Id></Note></Document>", Whole),
    ("<Note></Note></Document>", Whole),
    ("<Note><Id>a</Note></Document>", At(TagMismatch, 76)),
    (
        "<Note><Id>&foo;</Id></Note></Document>",
        At(BadReference, 75),
    ),
    ("<Note><Id p:a=\"1\" p:a=\"2\">", At(BadPrefix, 71)),
    (
        "<Note><Id xmlns:p=\"\" p:a=\"1\" a=\"2\">",
        At(DuplicateAttribute, 71),
    ),
    (
        "<Note><Id xmlns:p=\"http://www.w3.org/XML/1998/namespace\" p:lang=\"\" xml:lang=\"\">",
        At(DuplicateAttribute, 71),
    ),
    ("<Note><xmlns:Id>", At(BadPrefix, 71)),
    ("<Note><Id a=\"&amp\">", At(BadReference, 71)),
    ("<Note><Id>&#111411", At(Truncated, 83)),
    ("<Note><Id>&#1114112", At(BadReference, 75)),
    ("<Note><Id>&#xFFFE", At(Truncated, 82)),
    ("<Note><Id>&#xFFFE;", At(BadReference, 75)),
    ("<Note><![CDATA[]", At(Truncated, 81)),
    ("<Note><![CDATA[]\u{1}", At(BadChar, 81)),
    ("<Note><Id>]<!-- -->]></Id></Note></Document>", Whole),
    ("<Note><Id>]&#93;></Id></Note></Document>", Whole),
    ("<Note><Id>]]<![CDATA[>]]></Id></Note></Document>", Whole),
    ("<Note><Id>]]></Id></Note></Document>", At(BadMarkup, 77)),
    ("<Note>&#32;<Id>A1</Id></Note></Document>", Whole),
    ("<Note><![CDATA[ ]]><Id>A1</Id></Note></Document>", Whole),
    (
        "<Note><Id>A1</Id></Note></Document><!-- ",
        At(Truncated, 105),
    ),
    ("<Note><Id>A1</Id></Note></Document> <!-- -->\r", Whole),
    ("<Note><Id>A1</Id></Note></Document>x", At(TextOutside, 100)),
    (
        "<Note><Id>A1</Id></Note></Document>&#32;",
        At(TextOutside, 100),
    ),
    (
        "<Note><Id>A1</Id></Note></Document><a/>",
        At(AfterRoot, 100),
    ),
    (
        "<Note><Id>A1</Id></Note></Document></a>",
        At(TagMismatch, 100),
    ),
    ("<Note \u{1}", At(BadChar, 65)),
    ("<Note>\u{FFFF}", At(BadChar, 71)),
    ("<Note><!--", At(Truncated, 75)),
    ("<Note><!-- -- -->", At(BadMarkup, 71)),
    ("<Note><a:b:c/>", At(BadMarkup, 71)),
    ("<Note a=\"1\"b=\"2\">", At(BadMarkup, 65)),
    ("<Note a=\"<\">", At(BadMarkup, 65)),
    ("<Note a=\"1\" a=\"2\">", At(DuplicateAttribute, 65)),
    ("<p:a xmlns:p=\"u\"></p:a><p:a>", At(BadPrefix, 88)),
    ("<p:a xmlns:p=\"u\"/><p:a>", At(BadPrefix, 83)),
];

/// Texts by themselves.
static ALONE: [(&str, Verdict); 18] = [
    ("", At(Truncated, 0)),
    ("<!DOCTYPE a>", At(Doctype, 0)),
    ("<Em><![CDATA[]]></Em>", Whole),
    ("<Em/>", Whole),
    ("<?xml version=\"1.0\"?><a/>", Whole),
    ("<?xml version=\"1.00\"?>", At(BadMarkup, 0)),
    ("<?xml version=\"1.1\"?>", At(BadMarkup, 0)),
    (" <?xml version='1.0'?>", At(BadMarkup, 1)),
    (" <?xml", At(Truncated, 6)),
    ("<?XML ", At(BadMarkup, 0)),
    ("<?XML", At(Truncated, 5)),
    ("<?xmlx", At(Truncated, 6)),
    ("<?xmlx?><a/>", Whole),
    (
        "<a xmlns:xml=\"u\" xmlns:q=\"u\" xml:b=\"\" q:b=\"\"/>",
        At(DuplicateAttribute, 0),
    ),
    (
        "<a xmlns:p=\"u\" p:b=\"\" c=\"\" p:b=\"\"/>",
        At(DuplicateAttribute, 0),
    ),
    (
        "<a xmlns:p=\"u\" xmlns:q=\"u\" p:b=\"\" p:c=\"\" q:b=\"\"/>",
        At(DuplicateAttribute, 0),
    ),
    ("<a xmlns:xml=\"u\"/>", At(BadPrefix, 0)),
    (
        "<a xmlns:p=\"u\"><q:a xmlns:q=\"u\"></p:a>",
        At(TagMismatch, 32),
    ),
];

/// Bytes that are not UTF-8, or are cut within a character.
static BYTES: [(&[u8], Verdict); 5] = [
    (b"<\xE2", At(Truncated, 2)),
    (b"<\xC0", At(BadUtf8, 0)),
    (b"<a>\xED\xA0", At(BadUtf8, 3)),
    (b"<a><![CDATA[]\xE2", At(Truncated, 14)),
    (b"<a>\xFF", At(BadUtf8, 3)),
];

/// Takes the bytes and the end, and appends all their events.
fn read(alloc: Global, bytes: &[u8], out: &mut Events) -> Verdict {
    let mut reader = Reader::new(alloc);
    take_all(&mut reader, bytes, out, true)
}

/// What a reader before the first byte says of the bytes. Their events are kept, or let go at each byte.
fn take_all(reader: &mut Reader, bytes: &[u8], out: &mut Events, is_kept: bool) -> Verdict
    requires { bytes_taken reader.old ≡ 0 }
{
    let mut given = 0;
    for byte in bytes {
        if given >= LIMIT {
            return Verdict::TooLong;
        }
        if let Err(error) = reader.take(*byte, out) {
            return refusal(error);
        }
        given += 1;
        if !is_kept {
            out.clear();
        }
    }
    end(reader, out)
}

/// What a reader says of the end.
fn end(reader: &mut Reader, out: &mut Events) -> Verdict {
    match reader.finish(out) {
        Ok(()) => Whole,
        Err(error) => refusal(error),
    }
}

fn refusal(error: MarkError) -> Verdict {
    match error {
        MarkError::Refused(fault) => At(fault.rule, fault.place),
        MarkError::Memory => Verdict::Memory,
    }
}

/// What a reader says of the bytes; their events are let go.
fn answer(alloc: Global, bytes: &[u8]) -> Verdict {
    let mut out = Events::new(alloc);
    let mut reader = Reader::new(alloc);
    take_all(&mut reader, bytes, &mut out, false)
}

/// The pieces one after another, each so many times.
fn repeated(alloc: Global, pieces: &[(&str, usize)]) -> Result<Vec<u8>, AllocError> {
    let mut bytes = Vec::new(alloc);
    for (piece, times) in pieces {
        for _ in 0..*times {
            bytes.extend_from_slice(piece.as_bytes())?;
        }
    }
    Ok(bytes)
}

#[test]
fn bytes_that_are_no_text(rt: HostRuntime) {
    for (bytes, expected) in &BYTES {
        let found = answer(rt.alloc(), bytes);
        assert!(rt; found == *expected, "{bytes:?}: {found:?}");
    }
}

/// A name: its namespace and its local name.
type Named = (&'static str, &'static str);

/// An event as it is expected.
#[derive(Clone, Copy, Debug)]
enum Told {
    Start(Named, &'static [(Named, &'static str)]),
    Char(char),
    End(Named),
    Skipped,
}

const URN: &str = "urn:iso:std:iso:20022:tech:xsd:demo.001.001.01";

/// The events of the instance with prefixes.
static PREFIXED_EVENTS: [(u64, Told); 18] = [
    (0, Told::Skipped),
    (3, Told::Skipped),
    (41, Told::Char('\n')),
    (43, Told::Skipped),
    (53, Told::Char('\n')),
    (
        55,
        Told::Start(
            (URN, "Document"),
            &[(
                (
                    "http://www.w3.org/2001/XMLSchema-instance",
                    "schemaLocation",
                ),
                "urn:iso:std:iso:20022:tech:xsd:demo.001.001.01 demo.xsd",
            )],
        ),
    ),
    (255, Told::Char('\n')),
    (257, Told::Start((URN, "Note"), &[])),
    (265, Told::Start((URN, "Id"), &[])),
    (271, Told::Skipped),
    (280, Told::Char('A')),
    (281, Told::Skipped),
    (284, Told::Char('1')),
    (290, Told::End((URN, "Id"))),
    (297, Told::End((URN, "Note"))),
    (306, Told::Char('\n')),
    (308, Told::End((URN, "Document"))),
    (321, Told::Char('\n')),
];

static SMALL: &str =
    "<a xmlns=\"u\" xmlns:p=\"v\" b=\"2\" p:c=\"1\" a=\"x&#x9;&lt;\r\ny\">x&#x31;<p:d q=\"'\"/><e xmlns=\"\"/></a>";

/// The events of the small text: attributes stand by namespace and then by local name, the default
/// namespace is none of theirs, and white space in them is a space (Namespaces §6.2; XML 1.0 §3.3.3).
static SMALL_EVENTS: [(u64, Told); 8] = [
    (
        0,
        Told::Start(
            ("u", "a"),
            &[(("", "a"), "x\t< y"), (("", "b"), "2"), (("v", "c"), "1")],
        ),
    ),
    (57, Told::Char('x')),
    (58, Told::Char('1')),
    (64, Told::Start(("v", "d"), &[(("", "q"), "'")])),
    (64, Told::End(("v", "d"))),
    (76, Told::Start(("", "e"), &[])),
    (76, Told::End(("", "e"))),
    (89, Told::End(("u", "a"))),
];

static SHARED: &str =
    "<p:a xmlns:p=\"u\" xmlns:q=\"u\" q:c=\"3\" p:b=\"2\" a=\"1\" xml:d=\"4\" p:e=\"5\"/>";

/// Attributes of one namespace stand together, whatever declares it, and each is told with it.
static SHARED_EVENTS: [(u64, Told); 2] = [
    (
        0,
        Told::Start(
            ("u", "a"),
            &[
                (("", "a"), "1"),
                (("http://www.w3.org/XML/1998/namespace", "d"), "4"),
                (("u", "b"), "2"),
                (("u", "c"), "3"),
                (("u", "e"), "5"),
            ],
        ),
    ),
    (0, Told::End(("u", "a"))),
];

static LINES: &str = "<a>\r\n\r\n\n\r\r&#13;\r</a>";

/// Each line end is one LF (XML 1.0 §2.11), and a reference gives the CR that it names.
static LINE_EVENTS: [(u64, Told); 9] = [
    (0, Told::Start(("", "a"), &[])),
    (3, Told::Char('\n')),
    (5, Told::Char('\n')),
    (7, Told::Char('\n')),
    (8, Told::Char('\n')),
    (9, Told::Char('\n')),
    (10, Told::Char('\r')),
    (15, Told::Char('\n')),
    (16, Told::End(("", "a"))),
];

fn is_attribute(attr: &Attr, expected: &(Named, &str)) -> bool {
    let ((ns, local), value) = *expected;
    attr.ns.bytes() == ns.as_bytes()
        && attr.local.bytes() == local.as_bytes()
        && attr.value.bytes() == value.as_bytes()
}

fn are_attributes(attrs: &Attrs, expected: &[(Named, &str)]) -> bool {
    for (at, row) in expected.iter().enumerate() {
        match attrs.get(at) {
            Some(attr) => {
                if !is_attribute(attr, row) {
                    return false;
                }
            }
            None => return false,
        }
    }
    attrs.len() == expected.len()
}

fn is_told(what: &What, expected: Told) -> bool {
    match (what, expected) {
        (What::Start { ns, local, attrs }, Told::Start(name, given)) => {
            ns.bytes() == name.0.as_bytes()
                && local.bytes() == name.1.as_bytes()
                && are_attributes(attrs, given)
        }
        (What::Char(c), Told::Char(d)) => *c == d,
        (What::End { ns, local }, Told::End(name)) => {
            ns.bytes() == name.0.as_bytes() && local.bytes() == name.1.as_bytes()
        }
        (What::Skipped, Told::Skipped) => true,
        _ => false,
    }
}

/// A whole text has these events.
fn check_events(rt: &impl Abort, alloc: Global, text: &str, rows: &[(u64, Told)]) {
    let mut out = Events::new(alloc);
    let said = read(alloc, text.as_bytes(), &mut out);
    assert!(rt; said == Whole, "{said:?}");
    for (at, (place, expected)) in rows.iter().enumerate() {
        match out.get(at) {
            Some(event) => {
                assert!(rt;
                    event.place == *place && is_told(&event.what, *expected),
                    "{at}"
                );
            }
            None => assert!(rt; false, "{at}"),
        }
    }
    assert!(rt; out.len() == rows.len());
}

#[test]
fn events_of_texts(rt: HostRuntime) {
    check_events(&rt, rt.alloc(), PREFIXED, &PREFIXED_EVENTS);
    check_events(&rt, rt.alloc(), SMALL, &SMALL_EVENTS);
    check_events(&rt, rt.alloc(), SHARED, &SHARED_EVENTS);
    check_events(&rt, rt.alloc(), LINES, &LINE_EVENTS);
}

/// Each front of the instance ends too early, until its root is closed.
#[test]
fn fronts_of_an_instance(rt: HostRuntime) {
    let bytes = PREFIXED.as_bytes();
    for length in 0..bytes.len() {
        let expected = if length < 321 {
            At(Truncated, length as u64)
        } else {
            Whole
        };
        let found = answer(rt.alloc(), &bytes[..length]);
        assert!(rt; found == expected, "{length}: {found:?}");
    }
}

/// The text with the byte at this place changed to another one.
fn changed(alloc: Global, text: &[u8], at: usize, byte: u8) -> Result<Vec<u8>, AllocError> {
    let mut bytes = Vec::from_slice(alloc, text)?;
    if let Some(there) = bytes.get_mut(at) {
        *there = byte;
    }
    Ok(bytes)
}

/// With the byte at this place changed to another one, the text is answered; no text has 0 or FF.
fn check_change(
    rt: &impl Abort,
    alloc: Global,
    text: &[u8],
    at: usize,
    byte: u8,
) -> Result<(), AllocError> {
    let bytes = changed(alloc, text, at, byte)?;
    match answer(alloc, bytes.as_slice()) {
        Whole => assert!(rt; byte != 0 && byte != 0xFF, "{at}: {byte}"),
        At(rule, place) => {
            let is_within = rule == Truncated || place <= at as u64;
            assert!(rt;
                is_within || byte == b'<' || byte == b'&' || byte == b']',
                "{at}: {byte}"
            );
        }
        _ => assert!(rt; false, "{at}: {byte}"),
    }
    Ok(())
}

#[test]
fn changes_of_an_instance(rt: HostRuntime) -> Result<(), AllocError> {
    let bytes = PREFIXED.as_bytes();
    for at in 0..bytes.len() {
        for byte in [0, b'<', b'&', b']', 0xFF] {
            check_change(&rt, rt.alloc(), bytes, at, byte)?;
        }
    }
    Ok(())
}
