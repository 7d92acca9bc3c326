//! The characters of a run of bytes.
ghost use Rattle.lexical_core.specs.XmlRuns.{IsXmlRun};
ghost use Rattle.data_types.specs.RunChars.{SpellsRun, HasBytes};

use std::str;

/// The characters of a run: each a byte by itself, or not.
#[derive(Clone, Copy)]
pub enum RunChars<'a> {
    /// The codes of ASCII characters.
    Codes(&'a [u8]),
    /// A text of which some characters have several bytes.
    Text(&'a str),
}

/// The characters of this run, which has so many of them.
#[inline]
pub fn run_chars(run: &[u8], count: usize) -> RunChars<'_>
    requires { IsXmlRun run.now count }
    ensures chars { (r : IsXmlRun run.now count) → SpellsRun result r.chars }
    ensures bytes { HasBytes result run.now }
{
    if run.len() == count {
        return RunChars::Codes(run);
    }
    match str::from_utf8(run) {
        Ok(text) => RunChars::Text(text),
        Err(_) => unreachable!(),
    }
}
