//! Laws on the definitions of leaves and their texts: each is the contract of a function that does nothing.
ghost use Rattle.std.specs.Prelude.{◌≡◌, ◌≢◌, ◌↔◌, Bool, List, ℕ, length};
ghost use Rattle.std.specs.List.{AllByRecursion};
ghost use Rattle.base64.specs.GeneralPurpose.{IsBytes};
ghost use Rattle.lexical_core.specs.Characters.{IsXmlText, IsSpace};
ghost use Rattle.lexical_core.specs.Decimals.{Number as DecimalNumber, IsDecimal};
ghost use Rattle.data_types.specs.WhiteSpace.{IsCollapsed};
ghost use Rattle.data_types.specs.Dates.{IsDateText};
ghost use Rattle.data_types.specs.Leaf.{Leaf, Bytes, Number, Flag, IsLeaf, IsLeafOf};
ghost use Rattle.data_types.specs.Canonical.{IsCanonicalLeaf};
ghost use Rattle.data_types.specs.Value.{Children, AreOrdered, values_at};
ghost use Rattle.data_types.specs.declared.kind.Kind.{Kind};

/// A text has one collapsed text.
pub fn a_text_is_collapsed_one_way()
    ensures { (text one two : List ℕ) → IsCollapsed text one → IsCollapsed text two → one ≡ two }
{}

/// A text has a collapsed text.
pub fn a_text_has_a_collapsed_text()
    ensures { (text : List ℕ) → (collapsed : List ℕ) × IsCollapsed text collapsed }
{}

/// A collapsed text without white space that is as long as the text is the text.
pub fn a_collapsed_word_of_the_same_length_is_the_text()
    ensures { (text collapsed : List ℕ) → AllByRecursion (λ c. IsSpace c → ⊥) collapsed
        → IsCollapsed text collapsed → length collapsed ≡ length text → collapsed ≡ text }
{}

/// Characters spell at most one leaf of a kind.
pub fn characters_spell_one_leaf()
    ensures { (kind : Kind) (chars : List ℕ) (one two : Leaf)
        → IsLeaf kind chars one → IsLeaf kind chars two → one ≡ two }
{}

/// The leaves of texts are the UTF-8 of characters of XML.
pub fn text_leaves_are_xml_texts()
    ensures { (bytes : List ℕ) → IsLeafOf Kind.Text (Bytes bytes) ↔ IsXmlText bytes }
{}

/// The leaves of decimals are the decimals.
pub fn decimal_leaves_are_decimals()
    ensures { (number : DecimalNumber) → IsLeafOf Kind.Decimal (Number number) ↔ IsDecimal number }
{}

/// Both truth values are leaves.
pub fn truth_values_are_leaves()
    ensures { (flag : Bool) → IsLeafOf Kind.Boolean (Flag flag) }
{}

/// The leaves of binary values are octets.
pub fn binary_leaves_are_octets()
    ensures { (octets : List ℕ) → IsLeafOf Kind.Binary (Bytes octets) ↔ IsBytes octets }
{}

/// The leaves of dates and times are their collapsed texts. But for texts and binary values no other kind
/// has bytes.
pub fn date_leaves_are_date_texts()
    ensures { (kind : Kind) (text : List ℕ) → kind ≢ Kind.Text → kind ≢ Kind.Binary
        → IsLeafOf kind (Bytes text) ↔ IsDateText kind text }
{}

/// A leaf of a kind has a canonical text.
pub fn a_leaf_has_a_canonical_text()
    ensures { (kind : Kind) (leaf : Leaf) → IsLeafOf kind leaf
        → (chars : List ℕ) × IsCanonicalLeaf kind leaf chars }
{}

/// A leaf has at most one canonical text of a kind.
pub fn a_leaf_has_one_canonical_text()
    ensures { (kind : Kind) (leaf : Leaf) (one two : List ℕ)
        → IsCanonicalLeaf kind leaf one → IsCanonicalLeaf kind leaf two → one ≡ two }
{}

/// The canonical text of a leaf spells it.
pub fn a_canonical_text_spells_its_leaf()
    ensures { (kind : Kind) (leaf : Leaf) (chars : List ℕ)
        → IsLeafOf kind leaf → IsCanonicalLeaf kind leaf chars → IsLeaf kind chars leaf }
{}

/// Children in order are the same where the values of each slot are.
pub fn children_are_the_values_of_their_slots()
    ensures { (one two : Children) → AreOrdered one → AreOrdered two
        → ((slot : ℕ) → values_at slot one ≡ values_at slot two) → one ≡ two }
{}
