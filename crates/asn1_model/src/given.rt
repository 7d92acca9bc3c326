//! Names that are given one after the other, each with the first ending with which it was not given yet.
ghost use Rattle.std.specs.Prelude.{◌≡◌, ◌<◌, ◌≤◌, ◌-◌, ℕ, List, [], ◌∷◌, Some, None, IfOk, IsSome, length, if◌then◌else◌};
ghost use Rattle.std.specs.Str.{bytes_eq};
ghost use Rattle.asn1_model.specs.Names.{is_name_among, candidate, first_free, given_names};
ghost use Rattle.asn1_model.specs.inner.Given.{ending_of, AreAllGiven, HasGivenNames};

use crate::module::Names;
use lexical_core::{Items, Text};
use std::alloc::{AllocError, Global};
use std::collections::BTreeMap;

/// A name with an ending.
#[derive(Drop)]
struct FreeName {
    name: Vec<u8>,
    ending: usize,
}

/// The names that were given. All endings of a name below the one that is kept were given, so that none is tried twice.
#[derive(Drop)]
struct Given {
    alloc: Global,
    /// The next ending to try with each name that was given.
    endings: BTreeMap<Vec<u8>, usize>,
}

/// The names, one after the other, each the first that was not given yet.
pub(crate) fn given_names(alloc: Global, names: &[Text]) -> Result<Names, AllocError>
    ensures { IfOk result (λ given. given ≡ given_names names.now) }
{
    let mut given = Given::new(alloc);
    let mut all = Items::new(alloc);
    for (at, name) in names.iter().enumerate() {
        let next = given.give(name.bytes(), at)?;
        all.push(Text::from_vec(next))?;
    }
    Ok(all)
}

/// The name with its ending: none, then -1, -2 and so on.
#[tactic(auto, unfolding(crate::specs::Names::candidate))]
fn candidate(alloc: Global, name: &[u8], ending: usize) -> Result<Vec<u8>, AllocError>
    ensures { IfOk result (λ c. c.items ≡ candidate name.now ending) }
{
    let mut text = Vec::from_slice(alloc, name)?;
    if ending > 0 {
        let mut buffer = itoa::Buffer::new();
        text.push(b'-')?;
        text.extend_from_slice(buffer.format(ending).as_bytes())?;
    }
    Ok(text)
}

impl Given {
    /// None was given. It takes no memory.
    fn new(alloc: Global) -> Given
        ensures { HasGivenNames result [] }
    {
        Given {
            alloc,
            endings: BTreeMap::new(alloc),
        }
    }

    /// Gives the name with the first ending that is free. So many were given before.
    fn give(&mut self, name: &[u8], before: usize) -> Result<Vec<u8>, AllocError>
        requires { before < usize.MAX }
        ensures { (taken : List (List ℕ)) → HasGivenNames self.old taken → before ≡ length taken → IfOk result (λ given. (given.items ≡ first_free (length taken) taken name.now 0) × HasGivenNames self.new (given.items ∷ taken)) }
    {
        match self.next_ending(name) {
            None => self.give_plain(name),
            Some(from) => self.give_from(name, from, before),
        }
    }

    /// The next ending to try with the name; `None` where the name was not given.
    fn next_ending(&self, name: &[u8]) -> Option<usize>
        ensures { result ≡ ending_of self.now.endings name.now }
    {
        self.endings.get(name).copied()
    }

    /// Whether the name was given.
    fn is_given(&self, name: &[u8]) -> bool
        ensures { (taken : List (List ℕ)) → HasGivenNames self.now taken → result ≡ is_name_among taken name.now }
    {
        self.endings.contains_key(name)
    }

    /// Gives the name as it is.
    fn give_plain(&mut self, name: &[u8]) -> Result<Vec<u8>, AllocError>
        ensures { (taken : List (List ℕ)) → HasGivenNames self.old taken → IfOk result (λ given. (given.items ≡ name.now) × HasGivenNames self.new (given.items ∷ taken)) }
    {
        let given = Vec::from_slice(self.alloc, name)?;
        let key = Vec::from_slice(self.alloc, name)?;
        self.endings.insert(key, 1)?;
        Ok(given)
    }

    /// Gives a name that was given, with the first ending from this one on that is free.
    fn give_from(&mut self, name: &[u8], from: usize, before: usize) -> Result<Vec<u8>, AllocError>
        requires { before < usize.MAX }
        ensures { (taken : List (List ℕ)) → HasGivenNames self.old taken → before ≡ length taken → ending_of self.old.endings name.now ≡ Some from → IfOk result (λ given. (given.items ≡ first_free (length taken) taken name.now 0) × HasGivenNames self.new (given.items ∷ taken)) }
    {
        let free = self.first_free(name, from, before)?;
        let given = self.give_plain(&free.name)?;
        set_ending(&mut self.endings, name, free.ending + 1);
        Ok(given)
    }

    /// The first candidate from an ending on, up to another, that was not given yet, or the last one.
    fn first_free(&self, name: &[u8], from: usize, to: usize) -> Result<FreeName, AllocError>
        ensures name { IfOk result (λ c. c.name.items ≡ candidate name.now c.ending) }
        ensures upto { IfOk result (λ c. c.ending ≤ to) }
        ensures free { (taken : List (List ℕ)) → HasGivenNames self.now taken → from ≤ to → IfOk result (λ c. c.name.items ≡ first_free (to - from) taken name.now from) }
        ensures given { (taken : List (List ℕ)) → HasGivenNames self.now taken → AreAllGiven taken name.now from → IfOk result (λ c. AreAllGiven taken name.now c.ending) }
    {
        for ending in from..to {
            let tried = candidate(self.alloc, name, ending)?;
            if !self.is_given(&tried) {
                return Ok(FreeName {
                    name: tried,
                    ending,
                });
            }
        }
        Ok(FreeName {
            name: candidate(self.alloc, name, to)?,
            ending: to,
        })
    }
}

/// Changes the next ending of a name that has one.
fn set_ending(endings: &mut BTreeMap<Vec<u8>, usize>, name: &[u8], ending: usize)
    ensures { IsSome (ending_of endings.old name.now) → (q : List ℕ) → ending_of endings.new q ≡ (if bytes_eq name.now q then Some ending else ending_of endings.old q) }
{
    if let Some(kept) = endings.get_mut(name) {
        *kept = ending;
    }
}
