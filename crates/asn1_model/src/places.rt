//! Where the name of each type stands among those that are given in the order of names.
ghost use Rattle.std.specs.Prelude.{◌≡◌, ℕ, ◌<◌, List, IfOk, map, length, slice_set};
ghost use Rattle.asn1_model.specs.ModuleOf.{name_in};
ghost use Rattle.asn1_model.specs.inner.Order.{numbered_type};
ghost use Rattle.asn1_model.specs.inner.Places.{name_at};

use crate::order::NamedType;
use lexical_core::Text;
use std::alloc::{AllocError, Global};

/// The place of each type by its number, among so many in the order of names. One that has none is behind them all.
pub(crate) fn places(
    alloc: Global,
    types: &[NamedType<'_>],
    count: usize,
) -> Result<Vec<usize>, AllocError>
    ensures count { IfOk result (λ places. length places.items ≡ count) }
    ensures name { (given : List (List ℕ)) → length given ≡ length types.now → IfOk result (λ places. (number : ℕ) → number < count → name_at places.items given number ≡ name_in (map numbered_type types.now) given number) }
{
    let mut places = Vec::new(alloc);
    places.resize(count, types.len())?;
    let mut left = types.len();
    while left > 0 {
        left -= 1;
        set_place(&mut places, types[left].number as usize, left);
    }
    Ok(places)
}

/// Writes the place of a number that has one.
fn set_place(places: &mut Vec<usize>, number: usize, place: usize)
    ensures { places.new.items ≡ slice_set places.old.items number place }
{
    if number < places.len() {
        places[number] = place;
    }
}
