//! Laws on the definitions of octets: each is the contract of a function that does nothing.
ghost use Rattle.std.specs.Prelude.{◌≡◌, [], List, ℕ, ◌∷◌, ◌++◌, true, false, codes};
ghost use Rattle.der_octets.specs.Octets.{Values, Nothing, Primitive, Constructed, Application, universal, context, IsOne, identifier, length_octets, octets};

/// Octets are at most one list of values.
pub fn octets_are_one_list_of_values()
    ensures { (one two : Values) → octets one ≡ octets two → one ≡ two }
{}

/// The octets of a value are no proper front of those of another.
pub fn no_value_begins_another()
    ensures { (one two : Values) (more : List ℕ) → IsOne one → IsOne two → octets one ++ more ≡ octets two → (one ≡ two) × (more ≡ []) }
{}

/// The octets of examples of the standard, and headers of more than one octet.
pub fn octets_of_examples()
    ensures length { length_octets 201 ≡ 129 ∷ 201 ∷ [] } // §8.1.3.5
    ensures sequence { octets (Constructed (universal 16) (Primitive (universal 22) (codes "Smith") (Primitive (universal 1) (255 ∷ []) Nothing)) Nothing)
        ≡ 48 ∷ 10 ∷ 22 ∷ 5 ∷ 83 ∷ 109 ∷ 105 ∷ 116 ∷ 104 ∷ 1 ∷ 1 ∷ 255 ∷ [] } // §8.9.3
    ensures explicit { octets (Constructed (context 2) (Primitive (record { class = Application; number = 3 }) (codes "Jones") Nothing) Nothing)
        ≡ 162 ∷ 7 ∷ 67 ∷ 5 ∷ 74 ∷ 111 ∷ 110 ∷ 101 ∷ 115 ∷ [] } // §8.14.3
    ensures two { identifier false (context 31) ≡ 159 ∷ 31 ∷ [] }
    ensures three { identifier true (context 200) ≡ 191 ∷ 129 ∷ 72 ∷ [] }
    ensures lengths { (length_octets 127 ≡ 127 ∷ []) × (length_octets 128 ≡ 129 ∷ 128 ∷ []) × (length_octets 256 ≡ 130 ∷ 1 ∷ 0 ∷ []) }
{}
