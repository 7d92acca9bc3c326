//! The name of a namespace, shared by all that stands in it.
ghost use Rattle.std.specs.Prelude.{◌≡◌, [], IfOk};

use lexical_core::Text;
use std::alloc::{AllocError, Global};
use std::marker::Model;
use std::sync::ArcSlice;

/// The name of a namespace, shared by all that stands in it: a copy takes no memory of its own
/// (Namespaces in XML 1.0 §2.1).
#[derive(Drop)]
pub struct Namespace {
    /// None where the name is empty.
    octets: Option<ArcSlice<u8>>,
}

impl Model for Namespace {
    ghost use Rattle.std.specs.Prelude.{List, ℕ, []};
    ghost use Rattle.std.specs.Prelude.{option_map, unwrap_or};
    ghost use Rattle.std.specs.Arc.{arc_slice_items};

    ghost Value = { List ℕ };

    ghost view = { λ n. unwrap_or (option_map arc_slice_items n.octets) [] };
}

impl Namespace {
    /// The name of what is in no namespace. It takes no memory.
    pub fn none() -> Namespace
        ensures { result ≡ [] }
    {
        Namespace { octets: None }
    }

    /// The namespace of this name, whose bytes are moved and not copied.
    pub fn from_text(text: Text) -> Result<Namespace, AllocError>
        ensures { IfOk result (λ n. n ≡ text) }
    {
        let octets = text.into_vec();
        if octets.is_empty() {
            return Ok(Namespace::none());
        }
        Ok(Namespace {
            octets: Some(ArcSlice::from_vec(octets)?),
        })
    }

    /// The namespace of this name.
    pub fn from_slice(bytes: &[u8], alloc: Global) -> Result<Namespace, AllocError>
        ensures { IfOk result (λ n. n ≡ bytes.now) }
    {
        Namespace::from_text(Text::from_vec(Vec::from_slice(alloc, bytes)?))
    }

    /// The bytes of the name.
    pub fn bytes(&self) -> &[u8]
        ensures { result.now ≡ self.now }
    {
        match &self.octets {
            Some(octets) => octets.as_slice(),
            None => b"",
        }
    }

    /// The same name, in the same memory.
    pub fn share(&self) -> Result<Namespace, AllocError>
        ensures { IfOk result (λ n. n ≡ self.now) }
    {
        match &self.octets {
            Some(octets) => Ok(Namespace {
                octets: Some(octets.clone()?),
            }),
            None => Ok(Namespace::none()),
        }
    }
}
