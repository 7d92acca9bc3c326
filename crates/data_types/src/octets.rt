//! The octets of a base64 text that is taken a character at a time: XML Schema part 2 §3.2.16, as in RFC 4648 §4.
ghost use Rattle.std.specs.Prelude.{◌≡◌, ◌+◌, ◌≤◌, ◌<◌, ◌^◌, ◌++◌, ◌∷◌, [], length, take, Option, List, ℕ, IsTrue, IsOk, IfOk, IfErr, IfSome, IfNone, OnOk, OnErr};
ghost use Rattle.base64.specs.Engines.{standard};
ghost use Rattle.base64.specs.GeneralPurpose.{IsBytes, encode_of};
ghost use Rattle.data_types.specs.Limits.{IsWithin, IsCount};
ghost use Rattle.data_types.specs.Kept.{kept_room};

use crate::kept::Kept;
use base64::engine::general_purpose::STANDARD;
use lexical_core::Rule;
use std::alloc::{AllocError, Global};

/// Whether more characters may come.
#[derive(Clone, Copy)]
enum Stage {
    /// Any may.
    Open,
    /// None may: the last group had padding.
    Ended,
    /// The characters begin no base64 text.
    Failed,
}

/// A reader of base64 texts without white space that takes a character at a time. It keeps the octets of
/// the whole groups of four characters that are within the limit, and takes memory for these alone.
#[derive(Drop)]
pub struct OctetStep {
    kept: Kept,
    /// How many octets the whole groups have, kept or not; `None` where `u64` has no such number.
    total: Option<u64>,
    group: [u8; 4],
    count: usize,
    stage: Stage,
    ghost few: { count ≤ 3 },
}

/// The octets of a group: the first `count` of the three.
#[derive(Clone, Copy)]
struct Decoded {
    octets: [u8; 3],
    count: usize,
    ghost few: { count ≤ 3 },
}

impl OctetStep {
    ghost use Rattle.data_types.specs.OctetSteps.{HasDecoded, IsOctetStep, IsRest, IsOctetFault, IsTextCount};

    /// A reader before the first character, with a limit on the octets. It takes no memory.
    pub fn new(alloc: Global, most: Option<u64>) -> OctetStep
        ensures text { HasDecoded result most [] }
        ensures count { length result.kept.bytes.held + result.count ≡ 0 }
    {
        OctetStep {
            kept: Kept::new(alloc, most),
            total: Some(0),
            group: [0; 4],
            count: 0,
            stage: Stage::Open,
        }
    }

    /// Begins anew, with the same limit and the memory that there is.
    pub fn restart(&mut self)
        ensures text { (most : Option ℕ) (text : List ℕ) → HasDecoded self.old most text
            → HasDecoded self.new most [] }
        ensures count { length self.new.kept.bytes.held + self.new.count ≡ 0 }
        ensures room { kept_room self.new.kept ≡ kept_room self.old.kept }
    {
        self.kept.restart();
        self.total = Some(0);
        self.count = 0;
        self.stage = Stage::Open;
    }

    /// Takes a character. After want of memory all is as before.
    pub fn take(&mut self, c: char) -> Result<(), AllocError>
        ensures ok { OnOk result ((most : Option ℕ) (text : List ℕ) → HasDecoded self.old most text
            → HasDecoded self.new most (text ++ c ∷ [])) }
        ensures err { OnErr result (self.new ≡ self.old) }
        ensures within { length self.old.kept.bytes.held + self.old.count + 1 ≤ kept_room self.old.kept → IsOk result }
        ensures room { kept_room self.old.kept ≤ kept_room self.new.kept }
        ensures count { length self.new.kept.bytes.held + self.new.count
            ≤ length self.old.kept.bytes.held + self.old.count + 1 }
    {
        self.step(c)
    }

    /// Takes the characters of these codes, one after another; there is room for what they may spell.
    pub fn take_codes(&mut self, codes: &[u8])
        requires { length self.old.kept.bytes.held + self.old.count + length codes.now ≤ kept_room self.old.kept }
        ensures text { (most : Option ℕ) (text : List ℕ) → HasDecoded self.old most text
            → HasDecoded self.new most (text ++ codes.now) }
        ensures room { kept_room self.old.kept ≤ kept_room self.new.kept }
        ensures count { length self.new.kept.bytes.held + self.new.count
            ≤ length self.old.kept.bytes.held + self.old.count + length codes.now }
    {
        for code in codes {
            match self.take(*code as char) {
                Ok(()) => {}
                Err(_) => unreachable!(),
            }
        }
    }

    /// What remains to come.
    fn step(&mut self, c: char) -> Result<(), AllocError>
        ensures ok { OnOk result (IsOctetStep self.old c self.new) }
        ensures err { OnErr result (self.new ≡ self.old) }
        ensures within { length self.old.kept.bytes.held + self.old.count + 1 ≤ kept_room self.old.kept → IsOk result }
        ensures room { kept_room self.old.kept ≤ kept_room self.new.kept }
        ensures count { length self.new.kept.bytes.held + self.new.count
            ≤ length self.old.kept.bytes.held + self.old.count + 1 }
    {
        match self.stage {
            Stage::Open => self.step_open(c),
            Stage::Ended | Stage::Failed => {
                self.stage = Stage::Failed;
                Ok(())
            }
        }
    }

    /// Takes a character where the text has neither ended nor failed.
    fn step_open(&mut self, c: char) -> Result<(), AllocError>
        requires { self.old.stage ≡ Stage.Open }
        ensures ok { OnOk result (IsOctetStep self.old c self.new) }
        ensures err { OnErr result (self.new ≡ self.old) }
        ensures within { length self.old.kept.bytes.held + self.old.count + 1 ≤ kept_room self.old.kept → IsOk result }
        ensures room { kept_room self.old.kept ≤ kept_room self.new.kept }
        ensures count { length self.new.kept.bytes.held + self.new.count
            ≤ length self.old.kept.bytes.held + self.old.count + 1 }
    {
        if !c.is_ascii() {
            self.stage = Stage::Failed;
            return Ok(());
        }
        if self.count < 3 {
            self.group[self.count] = c as u8;
            self.count += 1;
            return Ok(());
        }
        self.close(c as u8)
    }

    /// Takes the last character of a group.
    fn close(&mut self, last: u8) -> Result<(), AllocError>
        requires open { self.old.stage ≡ Stage.Open }
        requires full { self.old.count ≡ 3 }
        ensures ok { OnOk result (IsOctetStep self.old last self.new) }
        ensures err { OnErr result (self.new ≡ self.old) }
        ensures within { length self.old.kept.bytes.held + self.old.count + 1 ≤ kept_room self.old.kept → IsOk result }
        ensures room { kept_room self.old.kept ≤ kept_room self.new.kept }
        ensures count { length self.new.kept.bytes.held + self.new.count
            ≤ length self.old.kept.bytes.held + 4 }
    {
        let mut group = self.group;
        group[3] = last;
        let Some(decoded) = decode(&group) else {
            self.stage = Stage::Failed;
            return Ok(());
        };
        self.kept
            .take(&decoded.octets[..decoded.count], decoded.count as u64)?;
        self.total = with_more(self.total, decoded.count as u64);
        self.count = 0;
        if decoded.count < 3 {
            self.stage = Stage::Ended;
        }
        Ok(())
    }

    /// Makes room for so many more octets.
    pub fn reserve(&mut self, count: usize) -> Result<(), AllocError>
        ensures ok { OnOk result (length self.new.kept.bytes.held + count ≤ kept_room self.new.kept) }
        ensures err { OnErr result (self.new ≡ self.old) }
        ensures text { (most : Option ℕ) (text : List ℕ) → HasDecoded self.old most text
            → HasDecoded self.new most text }
        ensures within { length self.old.kept.bytes.held + count ≤ kept_room self.old.kept → IsOk result }
        ensures room { kept_room self.old.kept ≤ kept_room self.new.kept }
        ensures held { self.new.kept.bytes.held ≡ self.old.kept.bytes.held }
        ensures count { self.new.count ≡ self.old.count }
    {
        self.kept.reserve(count)
    }

    /// Makes room for the octets of so many more characters. After want of memory all is as before.
    pub fn reserve_for(&mut self, count: usize) -> Result<(), AllocError>
        requires { count < 2 ^ 63 }
        ensures ok { OnOk result (length self.new.kept.bytes.held + self.new.count + count ≤ kept_room self.new.kept) }
        ensures err { OnErr result (self.new ≡ self.old) }
        ensures text { (most : Option ℕ) (text : List ℕ) → HasDecoded self.old most text
            → HasDecoded self.new most text }
        ensures within { length self.old.kept.bytes.held + self.old.count + count ≤ kept_room self.old.kept → IsOk result }
        ensures room { kept_room self.old.kept ≤ kept_room self.new.kept }
        ensures held { self.new.kept.bytes.held ≡ self.old.kept.bytes.held }
        ensures count { self.new.count ≡ self.old.count }
        ensures few { self.old.count ≤ 3 }
    {
        let octets = self.count + count;
        self.reserve(octets)
    }

    /// The octets that the characters so far spell. `BadText` where they are no base64 text, and `BadLength`
    /// where the octets are more than the limit.
    pub fn finish(&self) -> Result<&[u8], Rule>
        ensures ok { IfOk result (λ octets. (most : Option ℕ) (text : List ℕ) → HasDecoded self.now most text
            → IsBytes octets.now × (text ≡ encode_of standard octets.now) × IsWithin most (length octets.now)) }
        ensures err { IfErr result (λ rule. (most : Option ℕ) (text : List ℕ) → HasDecoded self.now most text
            → IsOctetFault most text rule) }
    {
        if !self.is_whole() {
            return Err(Rule::BadText);
        }
        match self.kept.whole() {
            Some(octets) => Ok(octets),
            None => Err(Rule::BadLength),
        }
    }

    /// How many octets the characters so far spell, whatever the limit; `None` where `u64` has no such number.
    /// `BadText` where they are no base64 text.
    pub fn octet_count(&self) -> Result<Option<u64>, Rule>
        ensures { (most : Option ℕ) (text : List ℕ) → HasDecoded self.now most text → IsTextCount text result }
    {
        if !self.is_whole() {
            return Err(Rule::BadText);
        }
        Ok(self.total)
    }

    /// Whether the characters so far are the text of the octets of their groups.
    fn is_whole(&self) -> bool
        ensures yes { IsTrue result → (octets : List ℕ) → IsRest self.now octets [] octets }
        ensures no { (IsTrue result → ⊥) → (octets all : List ℕ) → IsRest self.now octets [] all → ⊥ }
    {
        match self.stage {
            Stage::Open => self.count == 0,
            Stage::Ended => true,
            Stage::Failed => false,
        }
    }

    /// How many characters there are of the group that is begun.
    pub fn begun(&self) -> usize
        ensures count { result ≡ self.now.count }
        ensures few { result ≤ 3 }
    {
        self.count
    }

    /// How many octets are kept.
    pub fn len(&self) -> usize
        ensures count { result ≡ length self.now.kept.bytes.held }
        ensures small { result < 2 ^ 63 }
    {
        self.kept.len()
    }
}

/// The octets of a group of four characters; `None` where it is the group of none.
fn decode(group: &[u8; 4]) -> Option<Decoded>
    ensures some { IfSome result (λ d. group.now ≡ encode_of standard (take d.count d.octets)) }
    ensures bytes { IfSome result (λ d. IsBytes (take d.count d.octets)) }
    ensures none { IfNone result ((octets : List ℕ) → IsBytes octets
        → group.now ≡ encode_of standard octets → ⊥) }
{
    let mut octets = [0; 3];
    match STANDARD.decode_slice_unchecked(group.as_slice(), octets.as_mut_slice()) {
        Ok(count) => {
            are_octets(octets.as_slice());
            Some(Decoded { octets, count })
        }
        Err(_) => None,
    }
}

/// The count with so many more.
#[inline]
fn with_more(count: Option<u64>, more: u64) -> Option<u64>
    ensures { (n : ℕ) → IsCount count n → IsCount result (n + more) }
{
    match count {
        Some(number) => number.checked_add(more),
        None => None,
    }
}

/// The items of a slice of bytes are octets.
fn are_octets(octets: &[u8])
    ensures { IsBytes octets.now }
{
    let _ = octets;
}
