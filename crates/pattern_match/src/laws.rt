//! Laws of the definitions.
ghost use Rattle.std.specs.Prelude.{◌≡◌, ℕ, List};
ghost use Rattle.std.specs.Str.{chars};
ghost use Rattle.pattern_match.specs.Building.{position_limit};
ghost use Rattle.pattern_match.specs.Expression.{Expression};
ghost use Rattle.pattern_match.specs.Reading.{IsTreeOf, HasPositionsWithin, HasPositions, IsDecided};

/// A text has at most one syntax tree.
pub fn one_tree()
    ensures { (text : List ℕ) (s t : Expression) → IsTreeOf text s → IsTreeOf text t → s ≡ t }
{}

/// A text has at most one number of positions.
pub fn one_number_of_positions()
    ensures { (text : List ℕ) (m n : ℕ) → HasPositions text m → HasPositions text n → m ≡ n }
{}

/// A word matches a pattern that is not too large, or it does not.
pub fn a_word_matches_or_not()
    ensures { (pattern word : List ℕ) → HasPositionsWithin (chars pattern) position_limit → IsDecided (chars pattern) word }
{}
