//! An envelope that is judged as its octets come: they are the canonical fragment of its element.
ghost use Rattle.std.specs.Prelude.{◌≡◌, ◌+◌, ◌*◌, ◌<◌, ◌≤◌, ◌^◌, ◌↔◌, ◌++◌, ℕ, List, [], length, IsTrue, IfOk};
ghost use Rattle.lexical_core.specs.Tree.{Tree};
ghost use Rattle.fragments.specs.Plain.{IsPlain};
ghost use Rattle.fragments.specs.Fragment.{fragment};
ghost use Rattle.respell.specs.FragmentChecks.{HasTakenBytes, fragment_held};

use respell::FragmentCheck;
use std::alloc::{AllocError, Global};

/// The check of an envelope, which was given fewer than 2^40 octets.
#[derive(Drop)]
pub(crate) struct OpenEnvelope {
    alloc: Global,
    pub(crate) check: FragmentCheck,
    ghost given: { ∥ ((octets : List ℕ) × HasTakenBytes check octets × (length octets < 2 ^ 40)) ∥₁ },
}

impl OpenEnvelope {
    /// An envelope of which nothing has come. It takes no memory.
    pub(crate) fn new(alloc: Global) -> OpenEnvelope
        ensures { HasTakenBytes result.check [] }
    {
        OpenEnvelope {
            alloc,
            check: FragmentCheck::new(alloc),
        }
    }

    /// Takes the next octets. Where there is no memory for that, nothing has come.
    pub(crate) fn take(&mut self, octets: &[u8]) -> Result<(), AllocError>
        requires { (before : List ℕ) × HasTakenBytes self.old.check before × (length before + length octets.now < 2 ^ 40) }
        ensures { (before : List ℕ) → HasTakenBytes self.old.check before → IfOk result (λ _. HasTakenBytes self.new.check (before ++ octets.now)) }
    {
        match self.check.take(octets) {
            Ok(()) => Ok(()),
            Err(error) => {
                self.check = FragmentCheck::new(self.alloc);
                Err(error)
            }
        }
    }

    /// How many bytes are held.
    pub(crate) fn held(&self) -> u64
        ensures count { result ≡ fragment_held self.now.check }
        ensures bound { (octets : List ℕ) → HasTakenBytes self.now.check octets → length octets < 2 ^ 40 → result ≤ 2 * length octets }
        ensures few { result ≤ 2 ^ 41 }
    {
        self.check.held()
    }

    /// Whether the octets are the fragment of some element. Behind that nothing has come.
    pub(crate) fn finish(&mut self) -> bool
        ensures { (octets : List ℕ) → HasTakenBytes self.old.check octets → (IsTrue result ↔ ((t : Tree) × IsPlain t × (fragment t ≡ octets))) }
    {
        let whole = self.check.finish();
        self.check = FragmentCheck::new(self.alloc);
        whole
    }
}
