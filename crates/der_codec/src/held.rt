//! What is held of the contents octets of a leaf that come in pieces: as many of them as tell what they are, or, where no
//! leaf is wanted and it is one that is judged as its octets come, the leaf that is open and what it has not taken.
ghost use Rattle.std.specs.Prelude.{◌≡◌, ◌+◌, ◌*◌, ◌<◌, ◌≤◌, ◌^◌, ◌++◌, ℕ, List, [], length, IfOk, Some};
ghost use Rattle.data_types.specs.Leaf.{Bytes};
ghost use Rattle.message_model.specs.Tables.{types_of};
ghost use Rattle.der_model.specs.DerMessage.{der_message};
ghost use Rattle.der_model.specs.Structures as structures;
ghost use Rattle.der_model.specs.Structures.{structure};
ghost use Rattle.der_codec.specs.Checked.{CheckTypes};
ghost use Rattle.der_codec.specs.Judging.{IsVerdictFor};
ghost use Rattle.der_codec.specs.KeptPieces.{HoldsLeafAt};
ghost use Rattle.der_codec.specs.OpenLeaves.{IsOpenUnder, IsOpenAt, IsOpenEnvelope, HoldsNothing, IsToldIn, held_with_check};

use crate::checks::{Checks, Refusal};
use crate::level::Spot;
use crate::open_leaf::OpenLeaf;
use message_model::Model;
use std::alloc::{AllocError, Global};

/// What is held of contents octets that have come, where more of them are due.
#[derive(Drop)]
pub(crate) struct Held {
    /// As many as tell what they are; of a leaf that is open those that its check has not taken.
    pub(crate) octets: Vec<u8>,
    /// The leaf that is judged as its octets come, where it is one.
    pub(crate) leaf: Option<OpenLeaf>,
}

impl Held {
    /// Nothing. It takes no memory.
    pub(crate) fn new(alloc: Global) -> Held
        ensures { HoldsNothing result }
    {
        Held {
            octets: Vec::new(alloc),
            leaf: None,
        }
    }

    /// How many bytes are held: octets, and what the check of an open envelope holds.
    pub(crate) fn count(&self) -> u64
        ensures count { result ≡ held_with_check self.now }
        ensures bound { (leaf : OpenLeaf) (octets : List ℕ) → self.now.leaf ≡ Some leaf → IsOpenEnvelope leaf octets → length octets < 2 ^ 40 → result ≤ length self.now.octets.items + 2 * length octets }
    {
        let count = self.octets.len() as u64;
        match &self.leaf {
            Some(leaf) => count + leaf.held(),
            None => count,
        }
    }

    /// Takes octets of the leaf that is open at the spot, behind which more of them are due. Where none is, the answer
    /// is that there is no memory.
    pub(crate) fn pass(
        &mut self,
        model: &Model,
        spot: Spot,
        octets: &[u8],
    ) -> Result<(), AllocError>
        requires { (leaf : OpenLeaf) × (before : List ℕ) × (self.old.leaf ≡ Some leaf) × IsOpenAt (der_message model.now) spot leaf self.old.octets.items before × (length before + length octets.now < 2 ^ 40) }
        ensures { (leaf : OpenLeaf) (before : List ℕ) → self.old.leaf ≡ Some leaf → IsOpenAt (der_message model.now) spot leaf self.old.octets.items before
            → IfOk result (λ _. (now : OpenLeaf) × (self.new.leaf ≡ Some now) × IsOpenAt (der_message model.now) spot now self.new.octets.items (before ++ octets.now)) }
    {
        match spot {
            Spot::Value(number) => self.pass_value(model, number, octets),
            _ => Err(AllocError),
        }
    }

    /// The same of a value of the type of this number.
    fn pass_value(&mut self, model: &Model, number: u32, octets: &[u8]) -> Result<(), AllocError>
        requires { (leaf : OpenLeaf) × (before : List ℕ) × (self.old.leaf ≡ Some leaf) × IsOpenUnder (types_of model.now number) leaf self.old.octets.items before × (length before + length octets.now < 2 ^ 40) }
        ensures { (leaf : OpenLeaf) (before : List ℕ) → self.old.leaf ≡ Some leaf → IsOpenUnder (types_of model.now number) leaf self.old.octets.items before
            → IfOk result (λ _. (now : OpenLeaf) × (self.new.leaf ≡ Some now) × IsOpenUnder (types_of model.now number) now self.new.octets.items (before ++ octets.now)) }
    {
        let leaf = match self.leaf.take() {
            Some(leaf) => leaf,
            None => return Err(AllocError),
        };
        match leaf.pass(&mut self.octets, model, number, octets) {
            Ok(now) => {
                self.leaf = Some(now);
                Ok(())
            }
            Err(error) => Err(error),
        }
    }

    /// Takes the last octets of the leaf that is open at the spot, so many in all, and tells what they are. Nothing is
    /// held then. Where none is open, the answer is that there is no memory.
    pub(crate) fn finish(
        &mut self,
        checks: &mut Checks,
        model: &Model,
        spot: Spot,
        octets: &[u8],
        count: u64,
    ) -> Result<(), Refusal>
        requires made { CheckTypes (types_of model.now) checks.old }
        requires opened { (leaf : OpenLeaf) × (before : List ℕ) × (self.old.leaf ≡ Some leaf) × IsOpenAt (der_message model.now) spot leaf self.old.octets.items before × (length before + length octets.now < 2 ^ 40) }
        ensures made { CheckTypes (types_of model.now) checks.new }
        ensures judged { (leaf : OpenLeaf) (before : List ℕ) → self.old.leaf ≡ Some leaf → IsOpenAt (der_message model.now) spot leaf self.old.octets.items before → length (before ++ octets.now) ≡ count
            → IsVerdictFor (der_message model.now) spot (before ++ octets.now) result }
        ensures leaf { (leaf : OpenLeaf) (before : List ℕ) → self.old.leaf ≡ Some leaf → IsOpenAt (der_message model.now) spot leaf self.old.octets.items before → length (before ++ octets.now) ≡ count
            → IfOk result (λ _. HoldsLeafAt (der_message model.now) spot (before ++ octets.now) (Bytes (before ++ octets.now))) }
        ensures none { IfOk result (λ _. HoldsNothing self.new) }
    {
        match spot {
            Spot::Value(number) => self.finish_value(checks, model, number, octets, count),
            _ => Err(Refusal::Memory),
        }
    }

    /// The same of a value of the type of this number.
    fn finish_value(
        &mut self,
        checks: &mut Checks,
        model: &Model,
        number: u32,
        octets: &[u8],
        count: u64,
    ) -> Result<(), Refusal>
        requires made { CheckTypes (types_of model.now) checks.old }
        requires opened { (leaf : OpenLeaf) × (before : List ℕ) × (self.old.leaf ≡ Some leaf) × IsOpenUnder (types_of model.now number) leaf self.old.octets.items before × (length before + length octets.now < 2 ^ 40) }
        ensures made { CheckTypes (types_of model.now) checks.new }
        ensures told { (leaf : OpenLeaf) (before : List ℕ) → self.old.leaf ≡ Some leaf → IsOpenUnder (types_of model.now number) leaf self.old.octets.items before → length (before ++ octets.now) ≡ count
            → IsToldIn (der_message model.now) (structure (der_message model.now) (structures.Value number)) (before ++ octets.now) result }
        ensures none { IfOk result (λ _. HoldsNothing self.new) }
    {
        let leaf = match self.leaf.take() {
            Some(leaf) => leaf,
            None => return Err(Refusal::Memory),
        };
        let now = match leaf.pass(&mut self.octets, model, number, octets) {
            Ok(now) => now,
            Err(_) => return Err(Refusal::Memory),
        };
        let result = now.tell(checks, model, number, self.octets.as_slice(), count);
        self.octets.clear();
        result
    }
}
