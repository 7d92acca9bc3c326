//! Laws on fragments: each is the contract of a function that does nothing.
ghost use Rattle.std.specs.Prelude.{◌≡◌, [], ◌∷◌, codes};
ghost use Rattle.lexical_core.specs.Tree.{Element, Nothing};
ghost use Rattle.lexical_core.specs.Names.{xml_namespace};
ghost use Rattle.fragments.specs.Fragment.{fragment};

/// Trees with their fragments: an element in no namespace, attributes in namespaces, an element of the namespace of `xml`.
pub fn fragments_of_examples()
    ensures none { fragment (record { name = record { namespace = []; local = codes "X" }; attributes = []; children = Nothing }) ≡ codes "<X xmlns=\"\"></X>" }
    ensures prefixed { fragment (record { name = record { namespace = codes "u:a"; local = codes "X" }; attributes = record { name = record { namespace = []; local = codes "b" }; value = codes "1" } ∷ record { name = record { namespace = codes "u:p"; local = codes "c" }; value = codes "2" } ∷ []; children = Nothing })
        ≡ codes "<X xmlns=\"u:a\" xmlns:a1=\"u:p\" b=\"1\" a1:c=\"2\"></X>" }
    ensures below_xml { fragment (record { name = record { namespace = xml_namespace; local = codes "x" }; attributes = []; children = Element (record { namespace = []; local = codes "y" }) [] Nothing Nothing }) ≡ codes "<xml:x><y xmlns=\"\"></y></xml:x>" }
{}
