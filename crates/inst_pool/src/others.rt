//! The contents that do not fit in nodes.
ghost use Rattle.std.specs.Prelude.{◌≡◌, ℕ, ◌<◌, ◌≤◌, ◌^◌, ◌++◌, [], ◌∷◌, length, slice_index_or, vec_len, vec_capacity};
ghost use Rattle.inst_pool.specs.inner.Others.{AreBetween, other_at, HasOther};

use crate::content::Content;

/// So many contents have places of 29 bits.
const MOST_HINTS: usize = 1 << 29;

/// A content, with the place of its piece.
#[derive(Clone, Copy, Debug)]
pub(crate) struct Other {
    pub(crate) at: usize,
    pub(crate) content: Content,
}

/// Appends the content of the piece at that place, for which there is room, and tells where it stands, if 29 bits can say
/// that: it is a hint.
pub(crate) fn add_other(others: &mut Vec<Other>, at: usize, content: Content) -> u32
    requires { vec_len others.old < vec_capacity others.old }
    ensures items { others.new.items ≡ others.old.items ++ record { at = at; content = content } ∷ [] }
    ensures room { vec_capacity others.new ≡ vec_capacity others.old }
    ensures fits { result < 2 ^ 29 }
{
    let hint = others.len() % MOST_HINTS;
    others.push_reserved(Other { at, content });
    hint as u32
}

/// Where the content of the piece at that place stands: where the hint says, or else by a search among all.
#[inline(never)]
pub(crate) fn other_place(others: &[Other], at: usize, hint: usize) -> usize
    requires order { (high : ℕ) × AreBetween 0 high others.now }
    requires there { HasOther others.now at }
    ensures place { result < length others.now }
    ensures content { (d : Other) → (slice_index_or others.now result d).content ≡ other_at others.now at }
{
    if hint < others.len() {
        if others[hint].at == at {
            return hint;
        }
    }
    found_place(others, at)
}

/// The same by binary search.
#[cold]
#[inline(never)]
fn found_place(others: &[Other], at: usize) -> usize
    requires order { (high : ℕ) × AreBetween 0 high others.now }
    requires there { HasOther others.now at }
    ensures place { result < length others.now }
    ensures content { (d : Other) → (slice_index_or others.now result d).content ≡ other_at others.now at }
{
    match others.binary_search_by_key(&at, |other| other.at) {
        Ok(place) => place,
        Err(_) => unreachable!(),
    }
}
