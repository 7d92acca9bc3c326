//! What a head says of a value, before it is written as octets: X.690 §8.1.2.
ghost use Rattle.std.specs.Prelude.{◌≡◌, ℕ, ◌<◌, Some};

/// The class of a tag: §8.1.2.2. A message has no others.
#[derive(Clone, Copy, Debug, PartialEq, Eq)]
pub(crate) enum Class {
    Universal,
    Context,
}

/// What stands before the length of a value.
#[derive(Clone, Copy)]
pub(crate) struct Head {
    pub(crate) class: Class,
    pub(crate) constructed: bool,
    pub(crate) number: u16,
    ghost short: { number < 16384 },
}

impl Head {
    ghost use Rattle.der_octets.specs.Octets.{universal, context};
    ghost use Rattle.der_writer.specs.inner.PieceOctets.{head};
    ghost use Rattle.der_writer.specs.inner.Heads.{head_octets};

    /// A head with a universal tag: X.680 §8.4.
    pub(crate) fn universal(constructed: bool, number: u16) -> Head
        requires { number < 31 }
        ensures { (len : ℕ) → head_octets (Some result) len ≡ head constructed (universal number) len }
    {
        Head {
            class: Class::Universal,
            constructed,
            number,
        }
    }

    /// The head of a component: its context tag is the number of its slot.
    pub(crate) fn context(constructed: bool, number: u32) -> Head
        requires { number < 16384 }
        ensures { (len : ℕ) → head_octets (Some result) len ≡ head constructed (context number) len }
    {
        Head {
            class: Class::Context,
            constructed,
            number: number as u16,
        }
    }
}
