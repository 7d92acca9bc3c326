//! The codes of a set.
ghost use Rattle.std.specs.Prelude.{◌≡◌, ◌<◌, [], ◌∷◌, ◌++◌, ◌↔◌, length, IsTrue, Some, IfSome, IfNone, IfOk, OnOk, OnErr, slice_get};
ghost use Rattle.std.specs.Option.{option_copied};
ghost use Rattle.std.specs.List.{Contains};
ghost use Rattle.facets.specs.CodeLists.{AreSorted, IsAboveLast, char_count, longest_of};

use lexical_core::Text;
use std::alloc::{AllocError, Global};
use std::marker::Model;

/// Texts sorted by bytes, each once.
#[derive(Drop)]
pub struct Codes {
    texts: Vec<Text>,
    /// The characters of the longest.
    longest: usize,
}

impl Model for Codes {
    ghost use Rattle.std.specs.Prelude.{◌≡◌, List, ℕ};
    ghost use Rattle.facets.specs.CodeLists.{AreSorted, longest_of};

    ghost Value = { List (List ℕ) };

    ghost view = { λ c. c.texts.items };

    ghost invariant = { λ c. AreSorted c.texts.items × (c.longest ≡ longest_of c.texts.items) };
}

impl Codes {
    /// No code. It takes no memory.
    pub fn new(alloc: Global) -> Codes
        ensures { result ≡ [] }
    {
        Codes {
            texts: Vec::new(alloc),
            longest: 0,
        }
    }

    /// The codes of these texts, which are sorted by bytes, each once. They are moved and not copied.
    pub fn from_vec(texts: Vec<Text>) -> Codes
        requires { AreSorted texts.items }
        ensures { result ≡ texts.items }
    {
        let longest = longest_count(texts.as_slice());
        Codes { texts, longest }
    }

    /// The texts, sorted by bytes, each once. They are moved and not copied.
    pub fn into_vec(self) -> Vec<Text>
        ensures texts { result.items ≡ self }
        ensures sorted { AreSorted result.items }
    {
        self.texts
    }

    /// Appends a code, which is above the last one by bytes.
    pub fn push(&mut self, text: Text) -> Result<(), AllocError>
        requires { IsAboveLast self.old text }
        ensures ok { OnOk result (self.new ≡ self.old ++ text ∷ []) }
        ensures err { OnErr result (self.new ≡ self.old) }
    {
        let length = char_count(text.bytes());
        self.texts.push(text)?;
        self.longest = self.longest.max(length);
        Ok(())
    }

    /// Equal codes in memory of their own.
    pub fn copy(&self, alloc: Global) -> Result<Codes, AllocError>
        ensures { IfOk result (λ copy. copy ≡ self.now) }
    {
        Ok(Codes {
            texts: copied(alloc, &self.texts)?,
            longest: self.longest,
        })
    }

    /// The number of codes.
    pub fn len(&self) -> usize
        ensures { result ≡ length self.now }
    {
        self.texts.len()
    }

    /// Whether there is no code.
    pub fn is_empty(&self) -> bool
        ensures { IsTrue result ↔ (self.now ≡ []) }
    {
        self.texts.is_empty()
    }

    /// The code at that place, counted from 0; `None` where there is none.
    pub fn get(&self, at: usize) -> Option<&Text>
        ensures { option_copied result ≡ slice_get self.now at }
    {
        self.texts.get(at)
    }

    /// The place of this code, counted from 0, by binary search; `None` where it is none of them.
    pub fn place(&self, code: &[u8]) -> Option<usize>
        ensures some { IfSome result (λ at. slice_get self.now at ≡ Some code.now) }
        ensures within { IfSome result (λ at. at < length self.now) }
        ensures none { IfNone result (Contains self.now code.now → ⊥) }
    {
        match self.texts.binary_search_by(|text| text.bytes().cmp(code)) {
            Ok(at) => Some(at),
            Err(_) => None,
        }
    }

    /// The characters of the longest code.
    pub(crate) fn longest(&self) -> usize
        ensures { result ≡ longest_of self.now }
    {
        self.longest
    }
}

/// The characters of the longest of these texts.
fn longest_count(texts: &[Text]) -> usize
    ensures { result ≡ longest_of texts.now }
{
    let mut longest = 0_usize;
    for text in texts {
        longest = longest.max(char_count(text.bytes()));
    }
    longest
}

/// Equal texts in memory of their own.
fn copied(alloc: Global, texts: &[Text]) -> Result<Vec<Text>, AllocError>
    ensures { IfOk result (λ copy. copy.items ≡ texts.now) }
{
    let mut copy = Vec::with_capacity(alloc, texts.len())?;
    for text in texts {
        copy.push(text.copy(alloc)?)?;
    }
    Ok(copy)
}

/// How many characters a text has: its bytes but those that go on with one (RFC 3629 §3).
fn char_count(text: &[u8]) -> usize
    ensures { result ≡ char_count text.now }
{
    text.iter()
        .filter(|byte| !matches!(**byte, 0x80..=0xBF))
        .count()
}
