//! White space collapsed, a character at a time: XML Schema part 2 §4.3.6.
ghost use Rattle.std.specs.Prelude.{◌≡◌, ◌++◌, ◌∷◌, ◌≢◌, ◌<◌, [], List, ℕ, length};
ghost use Rattle.std.specs.List.{AllByRecursion};
ghost use Rattle.lexical_core.specs.Characters.{IsSpace};
ghost use Rattle.data_types.specs.WhiteSpace.{IsWord, IsCollapsed};
ghost use Rattle.data_types.specs.Collapsing.{gain_of, gap_text, HasCollapsed, HasCollapsedAt};

use lexical_core::is_space;

/// What the collapsed text gains at a character.
#[derive(Clone, Copy)]
pub enum Collapsed {
    /// Nothing.
    Nothing,
    /// The character.
    Char,
    /// One space and the character.
    SpaceAndChar,
}

/// Where the next character stands.
#[derive(Clone, Copy)]
enum Place {
    Before,
    Within,
    Behind,
}

/// A reader that collapses white space and takes a character at a time. It takes no memory.
#[derive(Clone, Copy)]
pub struct Collapse {
    place: Place,
}

impl Collapse {
    /// A reader before the first character.
    pub fn new() -> Collapse
        ensures { HasCollapsed result [] [] }
    {
        Collapse {
            place: Place::Before,
        }
    }

    /// Takes a character, and tells what the collapsed text gains.
    pub fn take(&mut self, c: char) -> Collapsed
        ensures text { (text collapsed : List ℕ) → HasCollapsed self.old text collapsed
            → HasCollapsed self.new (text ++ c ∷ []) (collapsed ++ gain_of result c) }
        ensures space { IsSpace c → result ≡ Collapsed.Nothing }
    {
        if is_space(c) {
            self.place = self.place.after_space();
            return Collapsed::Nothing;
        }
        let gain = self.place.gain();
        self.place = Place::Within;
        gain
    }

    /// Takes some characters, all of them white space.
    #[inline]
    pub fn take_spaces(&mut self)
        ensures { (text collapsed spaces : List ℕ) → 0 < length spaces → AllByRecursion IsSpace spaces
            → HasCollapsed self.old text collapsed → HasCollapsed self.new (text ++ spaces) collapsed }
    {
        self.place = self.place.after_space();
    }

    /// Takes some characters, none of them white space, and tells whether the collapsed text gains a space
    /// before them.
    #[inline]
    pub fn take_word(&mut self) -> bool
        ensures { (text collapsed word : List ℕ) → IsWord word → HasCollapsed self.old text collapsed
            → HasCollapsed self.new (text ++ word) (collapsed ++ (gap_text result ++ word)) }
    {
        let gap = self.place.has_gap();
        self.place = Place::Within;
        gap
    }

    /// After any characters what was gained is the text collapsed.
    pub fn finish(&self)
        ensures { (text collapsed : List ℕ) → HasCollapsed self.now text collapsed
            → IsCollapsed text collapsed }
    {
        let _ = &self.place;
    }
}

impl Place {
    /// The place behind white space.
    fn after_space(self) -> Place
        ensures text { (c : ℕ) (text collapsed : List ℕ) → IsSpace c → HasCollapsedAt self text collapsed
            → HasCollapsedAt result (text ++ c ∷ []) collapsed }
        ensures place { result ≢ Place.Within }
    {
        match self {
            Place::Before => Place::Before,
            Place::Within | Place::Behind => Place::Behind,
        }
    }

    /// Whether the collapsed text gains a space before a word.
    #[inline]
    fn has_gap(self) -> bool
        ensures { (text collapsed word : List ℕ) → IsWord word → HasCollapsedAt self text collapsed
            → HasCollapsedAt Place.Within (text ++ word) (collapsed ++ (gap_text result ++ word)) }
    {
        match self {
            Place::Before | Place::Within => false,
            Place::Behind => true,
        }
    }

    /// What the collapsed text gains at a character that is no white space.
    fn gain(self) -> Collapsed
        ensures { (c : ℕ) (text collapsed : List ℕ) → (IsSpace c → ⊥) → HasCollapsedAt self text collapsed
            → HasCollapsedAt Place.Within (text ++ c ∷ []) (collapsed ++ gain_of result c) }
    {
        match self {
            Place::Before | Place::Within => Collapsed::Char,
            Place::Behind => Collapsed::SpaceAndChar,
        }
    }
}
