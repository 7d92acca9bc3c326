//! The octets of a text that is judged as they come: its check takes the characters, and those of the last one are left where
//! it is not whole.
ghost use Rattle.std.specs.Prelude.{◌≡◌, ◌<◌, ◌≤◌, ◌++◌, ℕ, List, [], length, take, IfOk, IfErr};
ghost use Rattle.der_codec.specs.OpenLeaves.{IsOpenText, BeginsNoTextAs};

use crate::checks::Refusal;
use facets::{LeafVerdict, Simple};
use lexical_core::{Rule, xml_run};

/// Takes octets of a text, and leaves those of its last character where it is not whole. It refuses octets of which no
/// text comes.
pub(crate) fn take_text(
    check: &mut LeafVerdict,
    rest: &mut Vec<u8>,
    simple: &Simple,
    octets: &[u8],
) -> Result<(), Refusal>
    requires { (before : List ℕ) × IsOpenText check.old simple.now rest.old.items before }
    ensures opened { (before : List ℕ) → IsOpenText check.old simple.now rest.old.items before → IfOk result (λ _. IsOpenText check.new simple.now rest.new.items (before ++ octets.now)) }
    ensures none { (before : List ℕ) → IsOpenText check.old simple.now rest.old.items before → IfErr result (λ refusal. BeginsNoTextAs (before ++ octets.now) refusal) }
{
    let count = match end_character(check, rest, simple, octets) {
        Ok(count) => count,
        Err(refusal) => return Err(refusal),
    };
    let (_front, behind) = octets.split_at(count);
    if behind.is_empty() {
        return Ok(());
    }
    take_characters(check, rest, simple, behind)
}

/// Takes those of the octets that end a character of which some are left, and answers how many they are; where it does
/// not end, all of them are left.
fn end_character(
    check: &mut LeafVerdict,
    rest: &mut Vec<u8>,
    simple: &Simple,
    octets: &[u8],
) -> Result<usize, Refusal>
    requires { (before : List ℕ) × IsOpenText check.old simple.now rest.old.items before }
    ensures opened { (before : List ℕ) → IsOpenText check.old simple.now rest.old.items before → IfOk result (λ n. IsOpenText check.new simple.now rest.new.items (before ++ take n octets.now)) }
    ensures none { (before : List ℕ) → IsOpenText check.old simple.now rest.old.items before → IfErr result (λ refusal. BeginsNoTextAs (before ++ octets.now) refusal) }
    ensures within { IfOk result (λ n. n ≤ length octets.now) }
    ensures whole { IfOk result (λ n. n < length octets.now → rest.new.items ≡ []) }
{
    let come = rest.len();
    let (head, _behind) = octets.split_at(at_most_four(octets.len()));
    if rest.extend_from_slice(head).is_err() {
        return Err(Refusal::Memory);
    }
    let run = xml_run(rest.as_slice());
    if run.bytes == 0 {
        if rest.len() > 3 {
            return Err(Refusal::Breaks(Rule::BadContents));
        }
        return Ok(head.len());
    }
    let (whole, _cut) = rest.as_slice().split_at(run.bytes);
    match check.take_run(simple, whole, run.characters) {
        Ok(()) => {
            rest.clear();
            Ok(run.bytes - come)
        }
        Err(_) => Err(Refusal::Memory),
    }
}

/// So many, or four where they are more.
fn at_most_four(count: usize) -> usize
    ensures within { result ≤ count }
    ensures few { result < count → result ≡ 4 }
{
    if count < 4 {
        return count;
    }
    4
}

/// Takes the characters that are whole, and leaves the octets behind them.
fn take_characters(
    check: &mut LeafVerdict,
    rest: &mut Vec<u8>,
    simple: &Simple,
    octets: &[u8],
) -> Result<(), Refusal>
    requires none { rest.old.items ≡ [] }
    requires opened { (before : List ℕ) × IsOpenText check.old simple.now rest.old.items before }
    ensures opened { (before : List ℕ) → IsOpenText check.old simple.now rest.old.items before → IfOk result (λ _. IsOpenText check.new simple.now rest.new.items (before ++ octets.now)) }
    ensures none { (before : List ℕ) → IsOpenText check.old simple.now rest.old.items before → IfErr result (λ refusal. BeginsNoTextAs (before ++ octets.now) refusal) }
{
    let run = xml_run(octets);
    let (whole, cut) = octets.split_at(run.bytes);
    if cut.len() > 3 {
        return Err(Refusal::Breaks(Rule::BadContents));
    }
    match check.take_run(simple, whole, run.characters) {
        Ok(()) => match rest.extend_from_slice(cut) {
            Ok(()) => Ok(()),
            Err(_) => Err(Refusal::Memory),
        },
        Err(_) => Err(Refusal::Memory),
    }
}
