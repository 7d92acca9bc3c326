//! Files with what is read of them, or their first fault: by the table of the profile's rules.
ghost use Rattle.std.specs.Prelude.{◌<◌};

use lexical_core::Rule;
use outside::MemSource;
use repo_loader::{LoadError, LoadFault, load};
use repo_objects::Repository;
use std::alloc::Global;
use std::test::Fail;

/// The repository of a note: one entry, one message.
static NOTE: &str =
    "<iso20022:Repository xmlns:iso20022=\"urn:iso:std:iso:20022:2013:ecore\" xmlns:xmi=\"http://www.omg.org/XMI\" xmlns:xsi=\"http://www.w3.org/2001/XMLSchema-instance\">\n<dataDictionary>\n<topLevelDictionaryEntry xsi:type=\"iso20022:Text\" xmi:id=\"_t\" name=\"Max35Text\" minLength=\"1\" maxLength=\"35\"/>\n</dataDictionary>\n<businessProcessCatalogue><topLevelCatalogueEntry>\n<messageDefinition name=\"NoteV01\" xmlTag=\"Note\">\n<messageBuildingBlock name=\"Identification\" xmlTag=\"Id\" minOccurs=\"1\" maxOccurs=\"1\" simpleType=\"_t\"/>\n<messageDefinitionIdentifier businessArea=\"demo\" messageFunctionality=\"001\" flavour=\"001\" version=\"01\"/>\n</messageDefinition>\n</topLevelCatalogueEntry></businessProcessCatalogue>\n</iso20022:Repository>\n";

/// What stands before the entries of a file, 162 bytes.
static HEAD: &str =
    "<r:Repository xmlns:r=\"urn:iso:std:iso:20022:2013:ecore\" xmlns:xmi=\"http://www.omg.org/XMI\" xmlns:xsi=\"http://www.w3.org/2001/XMLSchema-instance\"><dataDictionary>";

/// What is read of a file.
#[derive(Clone, Copy, Debug, PartialEq, Eq, Drop)]
enum Verdict {
    /// It has so many objects and messages.
    Has(usize, usize),
    /// It breaks the rule of this number at the place.
    Breaks(u8, u64),
    /// It breaks this rule of markup.
    Markup(Rule, u64),
    Failed,
}

use Verdict::{Breaks, Has, Markup};

/// What stands behind the head, with what is read of the file or its first fault.
static BODIES: [(&str, Verdict); 7] = [
    (
        "<topLevelDictionaryEntry xsi:type=\"r:Text\" xmi:id=\"_a\" name=\"A\"/><topLevelDictionaryEntry xsi:type=\"r:Amount\" xmi:id=\"_b\" name=\"A\" minLength=\"x\"/></dataDictionary></r:Repository>",
        Has(2, 0),
    ),
    (
        "<topLevelDictionaryEntry xsi:type=\"r:Text\" xmi:id=\"_a\" name=\"A\"/><x:dataDictionary xmlns:x=\"urn:x\"/><topLevelDictionaryEntry xsi:type=\"r:Day\" xmi:id=\"_a\" name=\"B\"/>",
        Breaks(3, 262),
    ),
    (
        "<topLevelDictionaryEntry xsi:type=\"Text\" xmi:id=\"_a\" maxLength=\"12345678901\"/>",
        Breaks(4, 162),
    ),
    (
        "<topLevelDictionaryEntry xsi:type=\"MessageComponent\" xmi:id=\"_m\" name=\"A\"><messageElement minOccurs=\"-1\"/>",
        Breaks(4, 236),
    ),
    (
        "<topLevelDictionaryEntry xmi:id=\"_a\" name=\"A\"/>",
        Breaks(5, 162),
    ),
    (
        "<topLevelDictionaryEntry xmi:id=\"_a\" name=\"A\"></b>",
        Breaks(5, 162),
    ),
    (
        "<topLevelDictionaryEntry xsi:type=\"r:Text\" xmi:id=\"_a\" name=\"A\"/></b>",
        Markup(Rule::TagMismatch, 227),
    ),
];

/// What is read of the bytes, which come in pieces.
fn verdict_of(alloc: Global, bytes: &[u8], piece: usize) -> Result<Verdict, Fail>
    requires { 0 < piece }
{
    let mut source = MemSource::new(alloc, bytes, piece, &[])?;
    match load(alloc, &mut source) {
        Ok(repository) => Ok(Has(repository.object_count(), repository.message_count())),
        Err(error) => Ok(refusal(error)),
    }
}

fn refusal(error: LoadError) -> Verdict {
    match error {
        LoadError::Refused(
            LoadFault {
                markup: Some(rule),
                place,
                ..
            },
        ) => Markup(rule, place),
        LoadError::Refused(fault) => Breaks(fault.rule, fault.place),
        _ => Verdict::Failed,
    }
}

/// What is read of a file with this body.
fn verdict_of_body(alloc: Global, body: &str) -> Result<Verdict, Fail> {
    let mut file = Vec::from_slice(alloc, HEAD.as_bytes())?;
    file.extend_from_slice(body.as_bytes())?;
    verdict_of(alloc, &file, 65536)
}

#[test]
fn files_and_their_first_faults(rt: HostRuntime) -> Result<(), Fail> {
    for (body, verdict) in &BODIES {
        assert_eq!(rt; verdict_of_body(rt.alloc(), body)?, *verdict, "{body}");
    }
    assert_eq!(rt; verdict_of(rt.alloc(), b"<a/>", 4)?, Breaks(2, 0));
    assert_eq!(rt; verdict_of(rt.alloc(), b"", 4)?, Markup(Rule::Truncated, 0));
    Ok(())
}

#[test]
fn pieces_of_any_size(rt: HostRuntime) -> Result<(), Fail> {
    for piece in 1..8 {
        assert_eq!(rt;
            verdict_of(rt.alloc(), NOTE.as_bytes(), piece)?,
            Has(1, 1),
            "pieces of {piece}"
        );
    }
    Ok(())
}

/// Whether a repository has the message of a note and its text.
fn has_note(repository: &Repository) -> bool {
    let Some(message) = repository.message_at(0) else {
        return false;
    };
    let Some(object) = repository.object(b"_t") else {
        return false;
    };
    message.id.bytes() == b"demo.001.001.01".as_slice() && object.facets.max_length == Some(35)
}

#[test]
fn what_a_note_says(rt: HostRuntime) -> Result<(), Fail> {
    let mut source = MemSource::new(rt.alloc(), NOTE.as_bytes(), 65536, &[])?;
    let repository = load(rt.alloc(), &mut source)?;
    assert!(rt; has_note(&repository));
    Ok(())
}

#[test]
fn a_failed_pull_is_not_the_end(rt: HostRuntime) -> Result<(), Fail> {
    let mut source = MemSource::new(rt.alloc(), NOTE.as_bytes(), 100, &[3])?;
    let answer = load(rt.alloc(), &mut source);
    assert!(rt; matches!(answer, Err(LoadError::ReadFault)));
    Ok(())
}
