//! Laws on the definitions of leaves under a simple type: each is the contract of a function that does nothing.
ghost use Rattle.std.specs.Prelude.{◌≡◌, ◌<◌, Bool, Result, List, ℕ};
ghost use Rattle.lexical_core.specs.declared.rule.Rule.{Rule};
ghost use Rattle.data_types.specs.Leaf.{Leaf, Flag, Code};
ghost use Rattle.data_types.specs.declared.kind.Kind.TheVariants as kind;
ghost use Rattle.facets.specs.Checks.{place_count};
ghost use Rattle.facets.specs.LeafUnder.{HasSortedCodes, HasXmlCodes, LeafUnder, GivesLeaf, Fits, Judges};
ghost use Rattle.facets.specs.Rules.{BreaksFirst};
ghost use Rattle.facets.specs.declared.simple.Simple.{Simple};

/// Characters spell one leaf under a simple type, or break one rule first, and not both.
pub fn characters_have_one_answer()
    ensures { (simple : Simple) (text : List ℕ) (one two : Result Leaf Rule) → HasSortedCodes simple
        → LeafUnder simple text one → LeafUnder simple text two → one ≡ two }
{}

/// No characters neither spell a leaf under a simple type nor break a rule first.
pub fn characters_have_some_answer()
    ensures { (simple : Simple) (text : List ℕ) → ¬ (¬ ((one : Result Leaf Rule) × LeafUnder simple text one)) }
{}

/// A leaf that some characters spell under a simple type fits it.
pub fn what_is_spelled_fits()
    ensures { (simple : Simple) (text : List ℕ) (leaf : Leaf) → GivesLeaf simple text leaf → Fits simple leaf }
{}

/// Of the rules that characters break under a simple type one is the first.
pub fn one_rule_is_first()
    ensures { (simple : Simple) (text : List ℕ) (one two : Rule) → BreaksFirst simple text one → BreaksFirst simple text two → one ≡ two }
{}

/// A leaf has at most one verdict under a simple type: that it fits, or the one rule that it breaks.
pub fn a_leaf_has_one_verdict()
    ensures { (simple : Simple) (leaf : Leaf) (one two : Result (Unit {0}) Rule) → Judges simple leaf one → Judges simple leaf two → one ≡ two }
{}

/// Both truth values fit a simple type of truth values.
pub fn a_truth_value_fits()
    ensures { (simple : Simple) (flag : Bool) → simple.kind ≡ kind.Boolean → Fits simple (Flag flag) }
{}

/// The place of a code fits its simple type, where the codes are texts of XML.
pub fn a_code_fits()
    ensures { (simple : Simple) (place : ℕ) → HasXmlCodes simple → place < place_count simple → Fits simple (Code place) }
{}
