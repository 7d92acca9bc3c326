//! Identifier octets, one at a time: X.690 §8.1.2.
ghost use Rattle.std.specs.Prelude.{◌≡◌, ◌≢◌, ◌↔◌, ◌+◌, ◌*◌, ◌/◌, ◌%◌, ◌<◌, ◌≤◌, ◌++◌, ◌∷◌, [], ℕ, List, IsTrue, IsFalse};
ghost use Rattle.der_octets.specs.Octets.{class_bits, form_bit};
ghost use Rattle.der_octets.specs.TagSteps.{HasTakenTag, HasFirst, HasSecond, IsTagRead, class_view};

/// The class of a tag.
#[derive(Clone, Copy, Debug, PartialEq, Eq)]
pub enum TagClass {
    Universal,
    Application,
    Context,
    Private,
}

/// What identifier octets say.
#[derive(Clone, Copy, Debug, PartialEq, Eq)]
pub struct Identifier {
    pub class: TagClass,
    pub constructed: bool,
    /// Below 2^14.
    pub number: u16,
}

/// What an octet has made of those before it.
#[derive(Clone, Copy, Debug, PartialEq, Eq)]
pub enum TagRead {
    /// More octets are to come.
    More,
    /// The identifier octets of a tag with a number below 2^14.
    Done(Identifier),
    /// No tag begins so.
    Bad,
}

/// A reader of identifier octets. It refuses a number from 2^14 on, and one that is not as short as it
/// can be.
#[derive(Clone, Copy, Debug)]
pub struct TagStep {
    /// How many octets have come.
    come: u8,
    /// The first of them.
    first: u8,
    /// The number of the second.
    high: u8,
}

impl TagStep {
    /// Before the first octet.
    pub fn new() -> TagStep
        ensures { HasTakenTag result [] }
    {
        TagStep {
            come: 0,
            first: 0,
            high: 0,
        }
    }

    /// Whether no octet has come.
    pub fn is_fresh(&self) -> bool
        ensures { IsTrue result ↔ (self.now.come ≡ 0) }
    {
        self.come == 0
    }

    /// Takes the next octet.
    pub fn take(&mut self, octet: u8) -> TagRead
        requires { (octets : List ℕ) × HasTakenTag self.old octets }
        ensures { (octets : List ℕ) → HasTakenTag self.old octets → IsTagRead self.new (octets ++ octet ∷ []) result }
    {
        if self.come == 0 {
            return self.take_first(octet);
        }
        if self.come == 1 {
            return self.take_second(octet);
        }
        self.take_third(octet)
    }

    /// Takes the first octet.
    fn take_first(&mut self, octet: u8) -> TagRead
        ensures { IsTagRead self.new (octet ∷ []) result }
    {
        let number = octet % 32;
        if number < 31 {
            return TagRead::Done(identified(octet, u16::from(number)));
        }
        self.come = 1;
        self.first = octet;
        TagRead::More
    }

    /// Takes the octet behind the first.
    fn take_second(&mut self, octet: u8) -> TagRead
        requires { (octets : List ℕ) × HasFirst self.old.first octets }
        ensures { (octets : List ℕ) → HasFirst self.old.first octets → IsTagRead self.new (octets ++ octet ∷ []) result }
    {
        if !may_be_second(octet) {
            return TagRead::Bad;
        }
        if is_last(octet) {
            return TagRead::Done(identified(self.first, u16::from(octet)));
        }
        self.come = 2;
        self.high = octet - 128;
        TagRead::More
    }

    /// Takes the third octet, which is the last.
    fn take_third(&mut self, octet: u8) -> TagRead
        requires { (octets : List ℕ) × HasSecond self.old.first self.old.high octets }
        ensures { (octets : List ℕ) → HasSecond self.old.first self.old.high octets → IsTagRead self.new (octets ++ octet ∷ []) result }
    {
        if !is_last(octet) {
            return TagRead::Bad;
        }
        TagRead::Done(identified(self.first, u16::from(self.high) * 128 + u16::from(octet)))
    }
}

/// Whether the octet may stand behind the first: the number is 31 or more, and does not begin with zeros.
fn may_be_second(octet: u8) -> bool
    ensures { IsTrue result ↔ ((31 ≤ octet) × (octet ≢ 128)) }
{
    octet >= 31 && octet != 128
}

/// Whether no octet of the number follows.
fn is_last(octet: u8) -> bool
    ensures yes { IsTrue result → octet < 128 }
    ensures no { IsFalse result → 128 ≤ octet }
{
    octet < 128
}

/// The identifier with the class and the form of its first octet, and this number.
fn identified(first: u8, number: u16) -> Identifier
    ensures bits { class_bits (class_view result.class) + form_bit result.constructed + first % 32 ≡ first }
    ensures number { result.number ≡ number }
{
    Identifier {
        class: class_of(first),
        constructed: first / 32 % 2 == 1,
        number,
    }
}

/// The class in a first octet.
fn class_of(first: u8) -> TagClass
    ensures { class_bits (class_view result) ≡ first / 64 * 64 }
{
    match first / 64 {
        0 => TagClass::Universal,
        1 => TagClass::Application,
        2 => TagClass::Context,
        _ => TagClass::Private,
    }
}
