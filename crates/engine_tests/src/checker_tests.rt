//! What the checkers tell of an instance that has come in part: how many elements are open, and how many bytes are held.
ghost use Rattle.std.specs.Prelude.{◌≡◌};
ghost use Rattle.der_codec.specs.Checking.{IsDerCheckerFor, der_bytes_fed};
ghost use Rattle.xml_instances.specs.Checking.{IsXmlCheckerFor, xml_bytes_fed};

use crate::repo_engine_tests::NOTE;
use der_codec::DerChecker;
use message_model::Model;
use outside::LentSource;
use repo_loader::load;
use repo_objects::{MessageId, Repository};
use std::alloc::Global;
use std::process::Abort;
use xml_instances::XmlChecker;

/// A note that ends behind the first character of its block.
const XML: &[u8] =
    b"<Document xmlns=\"urn:iso:std:iso:20022:tech:xsd:demo.001.001.01\"><Note><Id>A";

/// The same in DER.
const DER: &[u8] = b"\x30\x06\xA0\x04\x80\x02A";

/// How many elements are open, and how many bytes are held for leaves and for the open token.
#[derive(Clone, Copy)]
struct Held {
    depth: usize,
    scratch: u64,
    token: u64,
}

/// The message of the repository.
fn compiled(alloc: Global, repository: &Repository) -> Option<Model> {
    let id = MessageId::read("demo.001.001.01")?;
    match Model::compile(alloc, repository, &id) {
        Ok(model) => Some(model),
        Err(_) => None,
    }
}

/// The message of a note.
fn note(alloc: Global) -> Option<Model> {
    let mut source = LentSource::new(NOTE);
    match load(alloc, &mut source) {
        Ok(repository) => compiled(alloc, &repository),
        Err(_) => None,
    }
}

/// What is held behind the piece, where it is the first of an instance in XML and is not refused.
fn fed_xml(model: &Model, checker: &mut XmlChecker, piece: &[u8]) -> Option<Held>
    requires made { IsXmlCheckerFor checker.old model.now }
    requires none { xml_bytes_fed checker.old ≡ 0 }
{
    if piece.len() > 100 || checker.feed(model, piece).is_err() {
        return None;
    }
    Some(Held {
        depth: checker.depth(),
        scratch: checker.scratch(),
        token: checker.token(),
    })
}

/// What is held behind the piece, where it is the first of an instance in DER and is not refused.
fn fed_der(model: &Model, checker: &mut DerChecker, piece: &[u8]) -> Option<Held>
    requires made { IsDerCheckerFor checker.old model.now }
    requires none { der_bytes_fed checker.old ≡ 0 }
{
    if piece.len() > 100 || checker.feed(model, piece).is_err() {
        return None;
    }
    Some(Held {
        depth: checker.depth(),
        scratch: checker.scratch(),
        token: checker.token(),
    })
}

/// What is held of the note in XML.
fn held_of_xml(alloc: Global, model: &Model) -> Option<Held> {
    match XmlChecker::new(alloc, model) {
        Ok(mut checker) => fed_xml(model, &mut checker, XML),
        Err(_) => None,
    }
}

/// What is held of the note in DER.
fn held_of_der(alloc: Global, model: &Model) -> Option<Held> {
    match DerChecker::new(alloc, model) {
        Ok(mut checker) => fed_der(model, &mut checker, DER),
        Err(_) => None,
    }
}

/// The document, the note and the block are open, of which the character and 64 bytes at most are held, and nothing of a
/// token.
fn expect_block(rt: &impl Abort, found: Option<Held>) {
    match found {
        Some(held) => {
            assert_eq!(rt; held.depth, 3);
            assert!(rt; held.scratch <= 68);
            assert_eq!(rt; held.token, 0);
        }
        None => assert!(rt; false, "no note, or it is refused"),
    }
}

/// Of the note in XML, and in DER.
fn held_of_note(alloc: Global) -> (Option<Held>, Option<Held>) {
    match note(alloc) {
        Some(model) => (held_of_xml(alloc, &model), held_of_der(alloc, &model)),
        None => (None, None),
    }
}

#[test]
fn what_is_open_and_held_of_a_text_that_is_cut(rt: HostRuntime) {
    let (xml, der) = held_of_note(rt.alloc());
    expect_block(&rt, xml);
    expect_block(&rt, der);
}
