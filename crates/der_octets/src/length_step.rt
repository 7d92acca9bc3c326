//! Length octets, one at a time: X.690 §8.1.3 and §10.1.
ghost use Rattle.std.specs.Prelude.{◌≡◌, ◌+◌, ◌*◌, ◌^◌, ◌<◌, ◌≤◌, ◌↔◌, ◌++◌, ◌∷◌, [], ℕ, List, IsTrue, IsFalse};
ghost use Rattle.der_octets.specs.LengthSteps.{HasTakenLength, HasBegun, IsLengthRead, IsLead};

/// What an octet has made of those before it.
#[derive(Clone, Copy, Debug, PartialEq, Eq)]
pub enum LengthRead {
    /// More octets are to come.
    More,
    /// The octets of this length, below 2^63.
    Done(u64),
    /// No length begins so.
    Bad,
}

/// A reader of length octets. It refuses a length from 2^63 on, and one that is not as short as it
/// can be.
#[derive(Clone, Copy, Debug)]
pub struct LengthStep {
    /// How many octets the first has announced; 0 before it.
    count: u8,
    /// How many of them have come.
    come: u8,
    /// The number that these make.
    value: u64,
}

impl LengthStep {
    /// Before the first octet.
    pub fn new() -> LengthStep
        ensures { HasTakenLength result [] }
    {
        LengthStep {
            count: 0,
            come: 0,
            value: 0,
        }
    }

    /// Takes the next octet.
    pub fn take(&mut self, octet: u8) -> LengthRead
        requires { (octets : List ℕ) × HasTakenLength self.old octets }
        ensures { (octets : List ℕ) → HasTakenLength self.old octets → IsLengthRead self.new (octets ++ octet ∷ []) result }
    {
        if self.count == 0 {
            return self.first(octet);
        }
        self.next(octet)
    }

    /// Takes the first octet.
    fn first(&mut self, octet: u8) -> LengthRead
        ensures { IsLengthRead self.new (octet ∷ []) result }
    {
        if octet < 128 {
            return LengthRead::Done(u64::from(octet));
        }
        if !is_count(octet) {
            return LengthRead::Bad;
        }
        self.count = octet - 128;
        self.come = 0;
        self.value = 0;
        LengthRead::More
    }

    /// Takes one of the octets that the first has announced.
    fn next(&mut self, octet: u8) -> LengthRead
        requires { (octets : List ℕ) × HasBegun self.old.count self.old.come self.old.value octets }
        ensures { (octets : List ℕ) → HasBegun self.old.count self.old.come self.old.value octets
            → IsLengthRead self.new (octets ++ octet ∷ []) result }
    {
        if !self.may_come(octet) {
            return LengthRead::Bad;
        }
        self.value = appended(self.value, octet);
        self.come += 1;
        if self.come == self.count {
            return LengthRead::Done(self.value);
        }
        LengthRead::More
    }

    /// Whether the octet may come next: only the first of them is asked.
    fn may_come(&self, octet: u8) -> bool
        ensures yes { IsTrue result → self.now.come ≡ 0 → IsLead self.now.count octet }
        ensures no { IsFalse result → (self.now.come ≡ 0) × (IsLead self.now.count octet → ⊥) }
    {
        self.come != 0 || is_lead(self.count, octet)
    }
}

/// Whether the octet says how many octets of a length follow, 1 to 8. None is the indefinite form.
fn is_count(octet: u8) -> bool
    ensures { IsTrue result ↔ ((128 < octet) × (octet ≤ 136)) }
{
    octet > 128 && octet <= 136
}

/// Whether an octet may be the first of so many.
fn is_lead(count: u8, first: u8) -> bool
    ensures { IsTrue result ↔ IsLead count first }
{
    if first == 0 {
        return false;
    }
    if count == 1 {
        return first >= 128;
    }
    count != 8 || first < 128
}

/// The number with one octet more at its end.
fn appended(value: u64, octet: u8) -> u64
    requires { value < 2 ^ 56 }
    ensures { result ≡ value * 256 + octet }
{
    value * 256 + u64::from(octet)
}
