//! The names that the types of a message are given in a module.
ghost use Rattle.std.specs.Prelude.{◌≡◌, IfOk, length, map, slice_get, slice_index_or};
ghost use Rattle.std.specs.Option.{option_copied};
ghost use Rattle.message_model.specs.Tables.{Tables};
ghost use Rattle.asn1_model.specs.ModuleOf.{by_name, names_given, asn_name_of, type_name_of};
ghost use Rattle.asn1_model.specs.inner.Order.{numbered_type};
ghost use Rattle.asn1_model.specs.inner.TypeNames.{AreNames};

use crate::given::given_names;
use crate::module::Names;
use crate::names::type_name;
use crate::order::NamedType;
use crate::places::places;
use lexical_core::Text;
use std::alloc::{AllocError, Global};

/// The names of types.
#[derive(Drop)]
pub(crate) struct TypeNames {
    /// In the order of the types by name.
    given: Names,
    /// The place of each type by its number.
    places: Vec<usize>,
}

impl TypeNames {
    /// The names of the types, which are given in their order; so many there are.
    pub(crate) fn new(
        alloc: Global,
        types: &[NamedType<'_>],
        count: usize,
    ) -> Result<TypeNames, AllocError>
        ensures { (T : Tables) → map numbered_type types.now ≡ by_name T → count ≡ length T.types → IfOk result (λ names. AreNames names T) }
    {
        let bare = bare_names(alloc, types)?;
        let given = given_names(alloc, &bare)?;
        let places = places(alloc, types, count)?;
        Ok(TypeNames { given, places })
    }

    /// The name at that place in the order of the types; `None` where there is none.
    pub(crate) fn get(&self, at: usize) -> Option<&Text>
        ensures { (T : Tables) → AreNames self.now T → option_copied result ≡ slice_get (names_given T) at }
    {
        self.given.get(at)
    }

    /// The name of the type of this number; none where there is no such type.
    pub(crate) fn name(&self, alloc: Global, number: u32) -> Result<Text, AllocError>
        ensures { (T : Tables) → AreNames self.now T → IfOk result (λ name. name ≡ asn_name_of T number) }
    {
        match self.given.get(self.place(number)) {
            Some(name) => name.copy(alloc),
            None => Ok(Text::new(alloc)),
        }
    }

    /// The place of the type of this number; behind them all where there is no such type.
    fn place(&self, number: u32) -> usize
        ensures { result ≡ slice_index_or self.now.places.items number (length self.now.given) }
    {
        match self.places.get(number as usize) {
            Some(place) => *place,
            None => self.given.len(),
        }
    }
}

/// The names of the types, before clashes.
fn bare_names(alloc: Global, types: &[NamedType<'_>]) -> Result<Vec<Text>, AllocError>
    ensures { IfOk result (λ names. names.items ≡ map type_name_of (map numbered_type types.now)) }
{
    let mut names = Vec::new(alloc);
    for named in types {
        names.push(Text::from_vec(type_name(alloc, named.name)?))?;
    }
    Ok(names)
}
