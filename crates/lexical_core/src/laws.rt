//! Laws on the definitions of decimals: each is the contract of a function that does nothing.
ghost use Rattle.std.specs.Prelude.{◌≡◌, ◌≤◌, List, ℕ, length};
ghost use Rattle.lexical_core.specs.Decimals.{Number, IsDecimal, SpellsDecimal, IsCanonicalText};
ghost use Rattle.lexical_core.specs.Reals.{IsReal};

/// A decimal text has one number.
pub fn a_text_has_one_number()
    ensures { (text : List ℕ) (m n : Number) → IsDecimal m → IsDecimal n
        → SpellsDecimal text m → SpellsDecimal text n → m ≡ n }
{}

/// A number has one canonical text.
pub fn a_number_has_one_canonical_text()
    ensures { (one two : List ℕ) (n : Number) → IsDecimal n
        → IsCanonicalText one n → IsCanonicalText two n → one ≡ two }
{}

/// The REAL contents of a decimal have one number.
pub fn contents_have_one_number()
    ensures { (contents : List ℕ) (m n : Number) → IsDecimal m → IsDecimal n
        → IsReal contents m → IsReal contents n → m ≡ n }
{}

/// A number has one REAL contents.
pub fn a_number_has_one_contents()
    ensures { (one two : List ℕ) (n : Number) → IsDecimal n
        → IsReal one n → IsReal two n → one ≡ two }
{}

/// A decimal has REAL contents.
pub fn a_decimal_has_contents()
    ensures { (n : Number) → IsDecimal n → (contents : List ℕ) × IsReal contents n }
{}

/// The REAL contents of a decimal are at most 25 octets.
pub fn contents_are_short()
    ensures { (contents : List ℕ) (n : Number) → IsDecimal n → IsReal contents n → length contents ≤ 25 }
{}
