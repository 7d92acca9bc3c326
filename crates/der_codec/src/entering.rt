//! How the reader goes into a value, where there is room.
ghost use Rattle.std.specs.Prelude.{◌≡◌, ◌<◌, ◌≤◌, ◌∷◌, true, length, vec_capacity};
ghost use Rattle.der_codec.specs.Levels.{inwards, rest_of};

use crate::decoder::Decoder;
use crate::level::Level;

impl Decoder {
    /// Whether one value more can be opened without memory.
    #[inline(always)]
    pub(crate) fn has_room(&self) -> bool
        ensures { result ≡ true → length self.now.levels.items < vec_capacity self.now.levels }
    {
        self.levels.len() < self.levels.capacity()
    }

    /// Puts a level in the place of the innermost one, and another behind it, where there is room.
    #[inline(always)]
    pub(crate) fn go_into(&mut self, around: Level, inner: Level)
        requires some { 0 < length self.old.levels.items }
        requires room { length self.old.levels.items < vec_capacity self.old.levels }
        ensures levels { inwards self.new.levels.items ≡ inner ∷ around ∷ rest_of (inwards self.old.levels.items) }
        ensures due { self.new.due ≡ self.old.due }
        ensures room { vec_capacity self.old.levels ≤ vec_capacity self.new.levels }
        ensures open { 0 < length self.new.levels.items }
    {
        self.set_innermost(around);
        self.append(inner);
    }

    /// Puts a level behind the innermost one, where there is room.
    #[tactic(auto, using(crate::proofs::Inwards::push_inwards))]
    #[inline(always)]
    pub(crate) fn append(&mut self, level: Level)
        requires { length self.old.levels.items < vec_capacity self.old.levels }
        ensures levels { inwards self.new.levels.items ≡ level ∷ inwards self.old.levels.items }
        ensures room { vec_capacity self.old.levels ≤ vec_capacity self.new.levels }
        ensures due { self.new.due ≡ self.old.due }
        ensures open { 0 < length self.new.levels.items }
    {
        self.levels.push_reserved(level);
    }
}
