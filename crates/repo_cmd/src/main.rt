//! `isorepo`: lists the messages of an ISO 20022 repository, writes their schemas and modules, checks their instances, and
//! brings these from XML into DER and back.
//!
//! The program opens what its words name, calls `repo_engine::run` once, and ends with its status: 0 where the answer stands
//! on standard output, else that of the line on standard error. `isorepo check-xml P - demo.001.001.01` with a note on
//! standard input prints `accepted`. docs/FORMATS.md has the words, the lines and the numbers.
//!
//! Limits: words are UTF-8, else the status is 9. A file that cannot be opened is told by the status of a failed read.
#![tactic(auto)]

use outside::{ReadSource, WriteSink};
use repo_engine::run;
use std::alloc::AllocError;
use std::fs::File;
use std::io::ErrorKind;
use std::process::ExitCode;
use std::rt::Files;
use std::{env, fs, io};

/// The exit status where the system does not give the words as texts.
const NO_TEXTS: u8 = 9;

/// The exit status where there is no memory for the words or for an opened file.
const NO_MEMORY: u8 = 8;

/// Runs the command of the words, over the standard streams and the files that they name, and gives its exit status.
fn main(rt: HostRuntime) -> ExitCode {
    let mut words = Vec::new(rt.alloc());
    match env::args(&rt) {
        Ok(args) => {
            for word in args.skip(1) {
                if words.push(word).is_err() {
                    return ExitCode::from(NO_MEMORY);
                }
            }
        }
        Err(error) => return ExitCode::from(failure_of(&error)),
    }
    // Where a standard stream is closed, this folder takes its place, and not a file that is opened
    // later: it can be neither read nor written.
    let _folder = fs::open(&rt, "/");
    let Ok(mut repo) = opened(&rt, repository_word(&words)) else {
        return ExitCode::from(NO_MEMORY);
    };
    let Ok(mut codes) = opened(&rt, codes_word(&words)) else {
        return ExitCode::from(NO_MEMORY);
    };
    let mut inst = ReadSource::new(rt.stdin());
    let mut out = WriteSink::new(rt.stdout());
    let mut notes = WriteSink::new(rt.stderr());
    let status = run(
        rt.alloc(),
        &words,
        &mut repo,
        &mut codes,
        &mut inst,
        &mut out,
        &mut notes,
    );
    ExitCode::from(status.code())
}

/// The exit status where the words could not be had.
fn failure_of(error: &io::Error) -> u8 {
    match error.kind() {
        ErrorKind::OutOfMemory => NO_MEMORY,
        _ => NO_TEXTS,
    }
}

/// Whether the words ask for a drill, whose other words name no file.
fn is_drill(words: &Vec<String>) -> bool {
    match words.get(0) {
        Some(word) => word.as_str() == "drill",
        None => false,
    }
}

/// The word that names the repository: the second, but for a drill.
fn repository_word(words: &Vec<String>) -> Option<&String> {
    if is_drill(words) {
        return None;
    }
    words.get(1)
}

/// The word that names the file of external codes: the third, but for `-`, which names none, and for a drill.
fn codes_word(words: &Vec<String>) -> Option<&String> {
    let word = words.get(2)?;
    if word.as_str() == "-" || is_drill(words) {
        None
    } else {
        Some(word)
    }
}

/// A source over the file that a word names. Where there is no word, or the file does not open, the
/// source is closed, and fails when it is read; want of memory is an error.
fn opened<R: Files>(rt: &R, word: Option<&String>) -> Result<ReadSource<R::File>, AllocError> {
    let Some(path) = word else {
        return Ok(ReadSource::closed());
    };
    match fs::open(rt, path.as_str()) {
        Ok(file) => Ok(ReadSource::new(file)),
        Err(error) => match error.kind() {
            ErrorKind::OutOfMemory => Err(AllocError),
            _ => Ok(ReadSource::closed()),
        },
    }
}
