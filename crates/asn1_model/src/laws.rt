//! Laws of the definitions: each is the contract of a function that does nothing.
ghost use Rattle.std.specs.Prelude.{◌↔◌, ℕ, List};
ghost use Rattle.lexical_core.specs.Tree.{Tree};
ghost use Rattle.data_types.specs.Value.{Value};
ghost use Rattle.repo_objects.specs.Repository.{Contents, IsRepository};
ghost use Rattle.reference_check.specs.Graph.{document};
ghost use Rattle.message_model.specs.Tables.{Tables};
ghost use Rattle.message_model.specs.Compiled.{IsReachedList, Compiles, types};
ghost use Rattle.message_model.specs.Ready.{IsReady};
ghost use Rattle.der_model.specs.Der.{SpellsDer};
ghost use Rattle.asn1_model.specs.Values.{AsnValue};
ghost use Rattle.asn1_model.specs.ModuleOf.{module_of};
ghost use Rattle.asn1_model.specs.NameRules.{HasDistinctNames, HasNameForms};
ghost use Rattle.asn1_model.specs.Sound.{IsSoundAsn};
ghost use Rattle.asn1_model.specs.Agreement.{EncodesAs, AdmitsTheSame, HasInstanceValue, HasNoOthers};

/// The same bytes are the DER of a value of the module's `Document`, by X.690, and of an instance that the message admits.
pub fn a_module_admits_the_same()
    ensures { (T : Tables) → IsSoundAsn T → AdmitsTheSame T }
{}

/// Of an instance the value of the module is known, and has its DER.
pub fn an_instance_is_a_value()
    ensures { (T : Tables) → IsSoundAsn T → HasInstanceValue T }
{}

/// Each value of the module is that of an instance.
pub fn a_value_is_an_instance()
    ensures { (T : Tables) → IsSoundAsn T → HasNoOthers T }
{}

/// The compiled types of a message that breaks no rule are sound.
pub fn compiled_types_are_sound()
    ensures { (R : Contents) (m : List ℕ) (ids : List (List ℕ)) (T : Tables) → IsRepository R → IsReady R m → IsReachedList R m ids → Compiles R m ids T → IsSoundAsn T }
{}

/// The module of a message that breaks no rule has exactly the bytes that are the DER of an instance which the message admits.
pub fn module_admits_the_instances()
    ensures { (R : Contents) (m : List ℕ) (ids : List (List ℕ)) (T : Tables) (fragment : Tree → List ℕ) (bytes : List ℕ) → IsRepository R → IsReady R m → IsReachedList R m ids → Compiles R m ids T
        → ((a : AsnValue) × EncodesAs fragment T bytes a) ↔ ((v : Value) × SpellsDer (record { forms = types R m; root = document; fragment = fragment }) bytes v) }
{}

/// In the module of a message that breaks no rule no two types have one name, and no two components, alternatives or codes of a type one identifier.
pub fn module_has_distinct_names()
    ensures { (R : Contents) (m : List ℕ) (ids : List (List ℕ)) (T : Tables) → IsRepository R → IsReady R m → IsReachedList R m ids → Compiles R m ids T → HasDistinctNames (module_of T) }
{}

/// The module of a message that breaks no rule and its types have names of the form of references, none a reserved word, and the parts of its types have identifiers.
pub fn module_has_name_forms()
    ensures { (R : Contents) (m : List ℕ) (ids : List (List ℕ)) (T : Tables) → IsRepository R → IsReady R m → IsReachedList R m ids → Compiles R m ids T → HasNameForms (module_of T) }
{}
