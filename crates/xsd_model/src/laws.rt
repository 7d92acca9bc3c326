//! The laws of the schema: each the contract of a function that does nothing.
ghost use Rattle.std.specs.Prelude.{◌++◌, ◌↔◌, ℕ, List};
ghost use Rattle.lexical_core.specs.Tree.{Tree};
ghost use Rattle.data_types.specs.Value.{Value};
ghost use Rattle.repo_objects.specs.Repository.{Contents};
ghost use Rattle.reference_check.specs.Graph.{document};
ghost use Rattle.message_model.specs.Admits.{AdmitsAs};
ghost use Rattle.message_model.specs.Writes.{WritesAs};
ghost use Rattle.message_model.specs.Sound.{AreSound};
ghost use Rattle.message_model.specs.Tables.{Tables, types_of, message_namespace, namespace_front};
ghost use Rattle.message_model.specs.Compiled.{IsReachedList, Compiles, types};
ghost use Rattle.message_model.specs.Ready.{IsReady};
ghost use Rattle.xsd_model.specs.Trees.{IsValid};
ghost use Rattle.xsd_model.specs.SchemaOf.{schema_of, HasSoundNames};

/// A tree is valid for the message's schema exactly where it writes a value that the message admits.
#[tactic(auto, using(crate::proofs::SchemaLaw::same_trees))]
pub fn schema_admits_the_same_trees()
    ensures { (tables : Tables) (t : Tree) → HasSoundNames tables → AreSound (types_of tables)
        → IsValid (schema_of tables) t ↔ ((v : Value) × AdmitsAs (types_of tables) (types_of tables 0) v × WritesAs (types_of tables) (message_namespace tables) (types_of tables 0) v t) }
{}

/// A tree is valid for the schema of a message that breaks no rule (ISO 20022-4) exactly where it writes a value that the
/// message admits.
pub fn schema_admits_the_instances()
    ensures { (R : Contents) (m : List ℕ) (ids : List (List ℕ)) (T : Tables) (t : Tree) → IsReady R m → IsReachedList R m ids → Compiles R m ids T
        → IsValid (schema_of T) t ↔ ((v : Value) × AdmitsAs (types R m) (types R m document) v × WritesAs (types R m) (namespace_front ++ m) (types R m document) v t) }
{}
