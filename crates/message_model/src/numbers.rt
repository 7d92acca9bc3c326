//! The numbers of types by the places of their objects.
ghost use Rattle.std.specs.Prelude.{◌≡◌, ◌<◌, ◌≤◌, ℕ, List, length, IfOk, All, AllPairs};
ghost use Rattle.reference_check.specs.Graph.{entry};
ghost use Rattle.message_model.specs.Compiled.{place_of};
ghost use Rattle.message_model.specs.inner.Numbers.{AreNumbers, StandsAmong, ids_at};

use repo_objects::Repository;
use std::alloc::{AllocError, Global};

/// The numbers of the types of the objects at these places, by the places of all objects: 2 for the first.
pub(crate) fn number_places(
    alloc: Global,
    count: usize,
    places: &[usize],
) -> Result<Vec<u32>, AllocError>
    requires within { All (λ k. k < count) places.now }
    requires rising { AllPairs (λ i j. i < j) places.now }
    requires few { length places.now ≤ 65536 }
    ensures { IfOk result (λ v. AreNumbers places.now v.items) }
{
    let mut numbers = vec![in alloc; 0u32; count]?;
    write_numbers(numbers.as_mut_slice(), places);
    Ok(numbers)
}

/// Puts 2 at the first of these places, 3 at the next, and so on.
fn write_numbers(numbers: &mut [u32], places: &[usize])
    requires within { All (λ k. k < length numbers.old) places.now }
    requires rising { AllPairs (λ i j. i < j) places.now }
    requires few { length places.now ≤ 65536 }
    ensures { AreNumbers places.now numbers.new }
{
    for (at, place) in places.iter().enumerate() {
        numbers[*place] = at as u32 + 2;
    }
}

/// The number of the type of the object with that id.
pub(crate) fn number_of(repository: &Repository, numbers: &[u32], id: &[u8]) -> u32
    ensures { (places : List ℕ) → AreNumbers places numbers.now → StandsAmong repository.now.objects places id.now
        → place_of (ids_at repository.now.objects places) result ≡ entry id.now }
{
    let Some(place) = repository.place(id) else {
        return 0;
    };
    let Some(number) = numbers.get(place) else {
        return 0;
    };
    *number
}
