//! What the program's cases cannot show: pieces of every size, and sources and sinks that fail at each call.
ghost use Rattle.std.specs.Prelude.{◌<◌};

use outside::{LentSource, MemSink, MemSource};
use repo_engine::{Status, run};
use std::alloc::{AllocError, Global};
use std::process::Abort;
use std::test::Fail;

/// The repository of a note: one entry, one block.
pub(crate) const NOTE: &[u8] =
    b"<iso20022:Repository xmlns:iso20022=\"urn:iso:std:iso:20022:2013:ecore\" xmlns:xmi=\"http://www.omg.org/XMI\" xmlns:xsi=\"http://www.w3.org/2001/XMLSchema-instance\">\n<dataDictionary>\n<topLevelDictionaryEntry xsi:type=\"iso20022:Text\" xmi:id=\"_t\" name=\"Max35Text\" minLength=\"1\" maxLength=\"35\"/>\n</dataDictionary>\n<businessProcessCatalogue><topLevelCatalogueEntry>\n<messageDefinition name=\"NoteV01\" xmlTag=\"Note\">\n<messageBuildingBlock name=\"Identification\" xmlTag=\"Id\" minOccurs=\"1\" maxOccurs=\"1\" simpleType=\"_t\"/>\n<messageDefinitionIdentifier businessArea=\"demo\" messageFunctionality=\"001\" flavour=\"001\" version=\"01\"/>\n</messageDefinition>\n</topLevelCatalogueEntry></businessProcessCatalogue>\n</iso20022:Repository>\n";

/// The instance of a note.
const A1: &[u8] =
    b"<Document xmlns=\"urn:iso:std:iso:20022:tech:xsd:demo.001.001.01\"><Note><Id>A1</Id></Note></Document>";

/// A note without its block.
const EMPTY: &[u8] =
    b"<Document xmlns=\"urn:iso:std:iso:20022:tech:xsd:demo.001.001.01\"><Note></Note></Document>";

/// The line of its refusal.
const MISSING: &[u8] = b"refused: instance Missing at 71 in /Document[1]/Note[1]/Id\n";

const CHECK: [&str; 4] = ["check-xml", "P", "-", "demo.001.001.01"];

const OTHER: [&str; 4] = ["check-xml", "P", "-", "demo.009.001.01"];

const SHORT: [&str; 3] = ["check-xml", "P", "-"];

const TO_DER: [&str; 4] = ["xml-to-der", "P", "-", "demo.001.001.01"];

const LIST: [&str; 3] = ["list", "P", "-"];

const TYPES: [&str; 4] = ["types", "P", "-", "demo.001.001.01"];

const NO_CALLS: [u64; 0] = [];

const FIRST: [u64; 1] = [0];

const SECOND: [u64; 1] = [1];

/// The numbers of the calls that fail.
#[derive(Clone, Copy)]
struct Failing<'a> {
    repo: &'a [u64],
    inst: &'a [u64],
    out: &'a [u64],
    notes: &'a [u64],
}

/// What a run reads: its words and its sources. The external codes are never pulled.
#[derive(Drop)]
struct Input {
    words: Vec<String>,
    repo: MemSource,
    inst: MemSource,
}

/// How a run ended: its status, and the sinks that it wrote to.
#[derive(Drop)]
struct Outcome {
    status: Status,
    out: MemSink,
    notes: MemSink,
}

fn words_of(alloc: Global, texts: &[&str]) -> Result<Vec<String>, AllocError> {
    let mut words = Vec::new(alloc);
    for text in texts {
        words.push(String::from_str(alloc, text)?)?;
    }
    Ok(words)
}

/// The input of a run whose sources give at most `piece` bytes a call.
fn input_of(
    alloc: Global,
    texts: &[&str],
    inst: &[u8],
    piece: usize,
    failing: Failing<'_>,
) -> Result<Input, AllocError>
    requires { 0 < piece }
{
    Ok(Input {
        words: words_of(alloc, texts)?,
        repo: MemSource::new(alloc, NOTE, piece, failing.repo)?,
        inst: MemSource::new(alloc, inst, piece, failing.inst)?,
    })
}

/// What a run ends with that has not begun.
fn before_run(alloc: Global, failing: Failing<'_>) -> Result<Outcome, AllocError> {
    Ok(Outcome {
        status: Status::Done,
        out: MemSink::new(alloc, failing.out)?,
        notes: MemSink::new(alloc, failing.notes)?,
    })
}

/// Runs the words over the sources, into the sinks of the outcome.
fn run_into(alloc: Global, input: &mut Input, outcome: &mut Outcome) {
    let mut codes = LentSource::new(b"".as_slice());
    outcome.status = run(
        alloc,
        &input.words,
        &mut input.repo,
        &mut codes,
        &mut input.inst,
        &mut outcome.out,
        &mut outcome.notes,
    );
}

/// A run over sources that give at most `piece` bytes a call, and in which these calls fail.
fn outcome_of(
    alloc: Global,
    texts: &[&str],
    inst: &[u8],
    piece: usize,
    failing: Failing<'_>,
) -> Result<Outcome, AllocError>
    requires { 0 < piece }
{
    let mut input = input_of(alloc, texts, inst, piece, failing)?;
    let mut outcome = before_run(alloc, failing)?;
    run_into(alloc, &mut input, &mut outcome);
    Ok(outcome)
}

#[test]
fn answers(rt: HostRuntime) -> Result<(), Fail> {
    let nothing = b"".as_slice();
    let none = failing_of(NO_CALLS.as_slice(), NO_CALLS.as_slice());
    let cases: [(&[&str], &[u8], Status, &[u8], &[u8]); 6] = [
        (
            LIST.as_slice(),
            nothing,
            Status::Done,
            b"demo.001.001.01 NoteV01\n",
            nothing,
        ),
        (
            TYPES.as_slice(),
            nothing,
            Status::Done,
            b"0 Document Document\n1 Message NoteV01\n2 Text Max35Text\n",
            nothing,
        ),
        (CHECK.as_slice(), A1, Status::Done, b"accepted\n", nothing),
        (CHECK.as_slice(), EMPTY, Status::Instance, nothing, MISSING),
        (
            OTHER.as_slice(),
            A1,
            Status::Message,
            nothing,
            b"refused: message M1 at demo.009.001.01\n",
        ),
        (
            SHORT.as_slice(),
            A1,
            Status::Words,
            nothing,
            b"refused: words\n",
        ),
    ];
    for (texts, inst, status, out, notes) in cases {
        for piece in [1usize, 7, 4096] {
            let outcome = outcome_of(rt.alloc(), texts, inst, piece, none)?;
            expect_outcome(&rt, &outcome, status, out, notes);
        }
    }
    Ok(())
}

/// Pushes of these numbers fail, and no pull.
fn failing_of<'a>(out: &'a [u64], notes: &'a [u64]) -> Failing<'a> {
    Failing {
        repo: NO_CALLS.as_slice(),
        inst: NO_CALLS.as_slice(),
        out,
        notes,
    }
}

/// Asserts that a run ended so.
fn expect_outcome(rt: &impl Abort, outcome: &Outcome, status: Status, out: &[u8], notes: &[u8]) {
    assert_eq!(rt; outcome.status, status);
    assert_eq!(rt; outcome.out.bytes(), out);
    assert_eq!(rt; outcome.notes.bytes(), notes);
}

/// Asserts that a run whose source failed read nothing more, or that one that never came to the
/// failing call was done.
fn expect_read_fault(rt: &impl Abort, outcome: &Outcome, failed: bool) {
    if failed {
        expect_outcome(
            rt,
            outcome,
            Status::ReadFault,
            b"".as_slice(),
            b"failed: read\n".as_slice(),
        );
    } else {
        expect_outcome(
            rt,
            outcome,
            Status::Done,
            b"accepted\n".as_slice(),
            b"".as_slice(),
        );
    }
}

#[test]
fn faults_of_the_repository(rt: HostRuntime) -> Result<(), Fail> {
    // The repository has 710 bytes, so its pull 12 finds its end and is the last.
    for call in 0u64..15 {
        let calls = [call];
        let failing = Failing {
            repo: calls.as_slice(),
            inst: NO_CALLS.as_slice(),
            out: NO_CALLS.as_slice(),
            notes: NO_CALLS.as_slice(),
        };
        let outcome = outcome_of(rt.alloc(), CHECK.as_slice(), A1, 64, failing)?;
        expect_read_fault(&rt, &outcome, call <= 12);
    }
    Ok(())
}

#[test]
fn faults_of_the_instance(rt: HostRuntime) -> Result<(), Fail> {
    // The instance has 100 bytes, so its pull 2 finds its end and is the last.
    for call in 0u64..5 {
        let calls = [call];
        let failing = Failing {
            repo: NO_CALLS.as_slice(),
            inst: calls.as_slice(),
            out: NO_CALLS.as_slice(),
            notes: NO_CALLS.as_slice(),
        };
        let outcome = outcome_of(rt.alloc(), CHECK.as_slice(), A1, 64, failing)?;
        expect_read_fault(&rt, &outcome, call <= 2);
    }
    Ok(())
}

/// The fault of the instance is in its second piece of 40 bytes, behind which nothing is pulled.
#[test]
fn a_refused_instance_is_pulled_no_further(rt: HostRuntime) -> Result<(), Fail> {
    let third = [2u64];
    let failing = Failing {
        repo: NO_CALLS.as_slice(),
        inst: third.as_slice(),
        out: NO_CALLS.as_slice(),
        notes: NO_CALLS.as_slice(),
    };
    let outcome = outcome_of(rt.alloc(), CHECK.as_slice(), EMPTY, 40, failing)?;
    expect_outcome(&rt, &outcome, Status::Instance, b"".as_slice(), MISSING);
    Ok(())
}

/// A check whose pushes of these numbers fail.
fn outcome_of_pushes(
    alloc: Global,
    inst: &[u8],
    out: &[u64],
    notes: &[u64],
) -> Result<Outcome, AllocError> {
    outcome_of(alloc, CHECK.as_slice(), inst, 64, failing_of(out, notes))
}

#[test]
fn faults_of_sinks(rt: HostRuntime) -> Result<(), Fail> {
    let nothing = b"".as_slice();
    let none = NO_CALLS.as_slice();
    let first = FIRST.as_slice();
    let second = SECOND.as_slice();
    // The output cannot be pushed, and then its line cannot either.
    let outcome = outcome_of_pushes(rt.alloc(), A1, first, none)?;
    expect_outcome(
        &rt,
        &outcome,
        Status::WriteFault,
        nothing,
        b"failed: write\n".as_slice(),
    );
    let outcome = outcome_of_pushes(rt.alloc(), A1, first, first)?;
    expect_outcome(&rt, &outcome, Status::WriteFault, nothing, nothing);
    // A refusal cannot be noted.
    let outcome = outcome_of_pushes(rt.alloc(), EMPTY, none, first)?;
    expect_outcome(&rt, &outcome, Status::WriteFault, nothing, nothing);
    // No run comes to a second push.
    let outcome = outcome_of_pushes(rt.alloc(), A1, second, first)?;
    expect_outcome(
        &rt,
        &outcome,
        Status::Done,
        b"accepted\n".as_slice(),
        nothing,
    );
    // The line of a refusal is pushed in parts: behind the failing one none is pushed.
    let outcome = outcome_of_pushes(rt.alloc(), EMPTY, first, second)?;
    expect_outcome(
        &rt,
        &outcome,
        Status::WriteFault,
        nothing,
        b"refused: instance ".as_slice(),
    );
    Ok(())
}

/// DER cannot be pushed, and then its line is.
#[test]
fn faults_of_sinks_of_der(rt: HostRuntime) -> Result<(), Fail> {
    let failing = failing_of(FIRST.as_slice(), NO_CALLS.as_slice());
    let outcome = outcome_of(rt.alloc(), TO_DER.as_slice(), A1, 64, failing)?;
    expect_outcome(
        &rt,
        &outcome,
        Status::WriteFault,
        b"".as_slice(),
        b"failed: write\n".as_slice(),
    );
    Ok(())
}
