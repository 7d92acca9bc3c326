//! Rows of fragments: XML with the fragment of its root, and bytes that are fragments or not.
ghost use Rattle.std.specs.Prelude.{◌≡◌};
ghost use Rattle.markup.specs.Reading.{bytes_taken};

use lexical_core::Text;
use markup::{Attrs, Event, Events, Namespace, Reader, TagKind, What};
use respell::{Respell, is_fragment};
use std::alloc::{AllocError, Global};

/// The most bytes that are read of a row.
const LIMIT: u64 = 1024;

/// XML, and the fragment of its root (XML 1.0 §2.3, §2.11, §3.3.3; Namespaces in XML 1.0 §6).
static RESPELLED: [(&[u8], &[u8]); 6] = [
    (b"<X xmlns=\"\"/>", b"<X xmlns=\"\"></X>"),
    (
        b"<q:X xmlns:q=\"u:a\" b=\"1\" p:c=\"2\" xmlns:p=\"u:p\"/>",
        b"<X xmlns=\"u:a\" xmlns:a1=\"u:p\" b=\"1\" a1:c=\"2\"></X>",
    ),
    (
        b"<x:X xmlns:x=\"urn:x\"><!-- c --><x:Y>7</x:Y></x:X>",
        b"<X xmlns=\"urn:x\"><Y>7</Y></X>",
    ),
    (b"<xml:x><y/></xml:x>", b"<xml:x><y xmlns=\"\"></y></xml:x>"),
    (
        b"<a xmlns='u'><b xmlns=''><c xmlns='u'/></b><d>&#9;&amp;&#13;&lt;&gt;\"</d></a>",
        b"<a xmlns=\"u\"><b xmlns=\"\"><c xmlns=\"u\"></c></b><d>\t&amp;&#13;&lt;&gt;\"</d></a>",
    ),
    (
        b"<a xmlns:p='u1' xmlns:q='u2' q:x='1' p:y='2' q:w='3' xml:lang='e' n='&#9;&quot;'/>",
        b"<a xmlns=\"\" xmlns:a1=\"u1\" xmlns:a2=\"u2\" n=\"&#9;&quot;\" xml:lang=\"e\" a1:y=\"2\" a2:w=\"3\" a2:x=\"1\"></a>",
    ),
];

/// Bytes, and whether they are a fragment.
static TOLD: [(&[u8], bool); 18] = [
    (b"<a xmlns=\"\"></a>", true),
    (b"<a/>", false),
    (b"<a></a>", false),
    (b"<a xmlns=\"\"></a> ", false),
    (b"<a xmlns=\"\"></a><!-- -->", false),
    (b"<a xmlns=\"\"><!-- --></a>", false),
    (b"<a xmlns=\"\">\r</a>", false),
    (b"<a xmlns=\"\">\n]]&gt;</a>", true),
    (b"\n<a xmlns=\"\"></a>", false),
    (b"<a xmlns=\"\">", false),
    (b"", false),
    (b"<a xmlns=\"\" c=\"1\" b=\"1\"></a>", false),
    (b"<a xmlns=\"\" xmlns:a1=\"u\" a1:b=\"1\"></a>", true),
    (b"<a xmlns=\"\" xmlns:a2=\"u\" a2:b=\"1\"></a>", false),
    (b"<a xmlns=\"u\"><b>x\t\n</b> y</a>", true),
    (b"<a xmlns=\"u\"><b/></a>", false),
    (b"<a xmlns=\"u\"><b>x</b></a>y", false),
    (b"<xml:x><y xmlns=\"\">x</y></xml:x>", true),
];

/// Hands the events on.
fn take_all(respell: &mut Respell, events: &[Event]) -> Result<(), AllocError> {
    for event in events {
        respell.take(event)?;
    }
    Ok(())
}

/// Whether the XML is written again so.
fn is_respelled(alloc: Global, bytes: &[u8], fragment: &[u8]) -> Result<bool, AllocError> {
    let mut reader = Reader::new(alloc);
    let mut respell = Respell::new(alloc);
    let mut events = Events::new(alloc);
    let is_read = respell_all(&mut reader, &mut respell, &mut events, bytes)?;
    Ok(is_read && respell.is_whole() && respell.text() == fragment)
}

/// Hands the events of the bytes on, and answers whether they are whole.
fn respell_all(
    reader: &mut Reader,
    respell: &mut Respell,
    events: &mut Events,
    bytes: &[u8],
) -> Result<bool, AllocError>
    requires { bytes_taken reader.old ≡ 0 }
{
    let mut given = 0;
    for byte in bytes {
        if given >= LIMIT {
            return Ok(false);
        }
        events.clear();
        if reader.take(*byte, events).is_err() {
            return Ok(false);
        }
        given += 1;
        take_all(respell, events.as_slice())?;
    }
    Ok(reader.finish(events).is_ok())
}

#[test]
fn xml_is_respelled(rt: HostRuntime) -> Result<(), AllocError> {
    for (bytes, fragment) in &RESPELLED {
        assert!(&rt; is_respelled(rt.alloc(), bytes, fragment)?);
    }
    Ok(())
}

/// An event at which an element starts.
fn start_of(alloc: Global, ns: &[u8], local: &[u8]) -> Result<Event, AllocError> {
    Ok(Event {
        place: 0,
        what: What::Start {
            ns: Namespace::from_slice(ns, alloc)?,
            local: Text::from_vec(Vec::from_slice(alloc, local)?),
            attrs: Attrs::new(alloc),
        },
    })
}

fn take_start(respell: &mut Respell, alloc: Global) -> Result<(), AllocError> {
    let start = start_of(alloc, b"urn:x", b"X")?;
    respell.take(&start)
}

fn take_rest(respell: &mut Respell) -> Result<(), AllocError> {
    respell.take_run(b"7 ")?;
    respell.take_tag(TagKind::Empty, b"Y")?;
    respell.take_tag(TagKind::End, b"X")
}

#[test]
fn runs_and_tags_are_respelled(rt: HostRuntime) -> Result<(), AllocError> {
    let mut respell = Respell::new(rt.alloc());
    take_start(&mut respell, rt.alloc())?;
    assert!(&rt; respell.is_in_default());
    take_rest(&mut respell)?;
    assert!(&rt; respell.is_whole());
    assert!(&rt; respell.text() == b"<X xmlns=\"urn:x\">7 <Y></Y></X>".as_slice());
    Ok(())
}

#[test]
fn fragments_are_told(rt: HostRuntime) -> Result<(), AllocError> {
    for (bytes, told) in &TOLD {
        assert!(&rt; is_fragment(rt.alloc(), bytes)? == *told);
    }
    Ok(())
}

/// Whether an empty element with an attribute of 1,100,000 characters is a fragment, where its start tag ends so.
fn is_long_fragment(alloc: Global, end: &[u8]) -> Result<bool, AllocError> {
    let mut bytes = Vec::from_slice(alloc, b"<a xmlns=\"\" b=\"")?;
    for _ in 0..1_100_000 {
        bytes.push(b'x')?;
    }
    bytes.extend_from_slice(end)?;
    if bytes.len() > 2_000_000 {
        return Ok(false);
    }
    is_fragment(alloc, bytes.as_slice())
}

/// A fragment's tag may be longer than one of a document in XML.
#[test]
fn long_tags_are_told(rt: HostRuntime) -> Result<(), AllocError> {
    assert!(&rt; is_long_fragment(rt.alloc(), b"\"></a>")?);
    assert!(&rt; !is_long_fragment(rt.alloc(), b"\"/>")?);
    Ok(())
}
