//! How many characters a text has so far.
ghost use Rattle.std.specs.Prelude.{◌+◌, ◌↔◌, ℕ, IsTrue};
ghost use Rattle.facets.specs.Facets.{HasLength};
ghost use Rattle.facets.specs.Counts.{HasCounted, IsTooLong};

use crate::lengths::has_length;
use crate::simple::Simple;
use data_types::Kind;

/// A count that never runs over.
#[derive(Clone, Copy, Debug, Drop)]
pub(crate) struct Count {
    number: u64,
    /// Whether there were more than the greatest number, which it then stays at.
    is_more: bool,
}

impl Count {
    /// None so far.
    pub(crate) fn new() -> Count
        ensures { HasCounted result 0 }
    {
        Count {
            number: 0,
            is_more: false,
        }
    }

    /// So many more.
    #[inline]
    pub(crate) fn add(&mut self, more: u64)
        ensures { (n : ℕ) → HasCounted self.old n → HasCounted self.new (n + more) }
    {
        match self.number.checked_add(more) {
            Some(number) => self.number = number,
            None => {
                self.number = u64::MAX;
                self.is_more = true;
            }
        }
    }

    /// Whether the count is a length within the bounds.
    pub(crate) fn is_length(&self, simple: &Simple) -> bool
        ensures { (n : ℕ) → HasCounted self.now n → IsTrue result ↔ HasLength simple.now n }
    {
        if !self.is_more {
            return has_length(simple, self.number);
        }
        let least = simple.min;
        match simple.max {
            Some(max) => self.number < max, // none is greater
            None => least <= self.number, // each is
        }
    }

    /// Whether there are more than a text may have. Of more than can be counted it need not tell.
    #[inline]
    pub(crate) fn is_too_long(&self, simple: &Simple) -> bool
        ensures { (n : ℕ) → HasCounted self.now n → IsTrue result → IsTooLong simple.now n }
    {
        if simple.kind != Kind::Text {
            return false;
        }
        match simple.max {
            Some(most) => most < self.number,
            None => false,
        }
    }
}
