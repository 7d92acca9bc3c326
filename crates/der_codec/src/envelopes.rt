//! The fragments of envelopes, and the messages whose instances have them.
ghost use Rattle.fragments.specs.Fragment.{fragment};
ghost use Rattle.message_model.specs.Sound.{AreLinked};
ghost use Rattle.der_model.specs.DerMessage.{der_message};
ghost use Rattle.der_model.specs.Sound.{IsSoundDer, TellsApart};

use message_model::Model;

/// Fragments of different trees differ. It does nothing, and is called for its clause.
pub(crate) fn fragments_apart()
    ensures { TellsApart fragment }
{
    respell::laws::one_tree();
}

/// The message of a model breaks no rule, its fragments tell trees apart, and its elements lead to types that are there.
/// It does nothing, and is called for its clauses.
pub(crate) fn is_sound(model: &Model)
    ensures sound { IsSoundDer (der_message model.now) }
    ensures linked { AreLinked model.now }
{
    let _ = model.type_count();
    respell::laws::one_tree();
    der_model::laws::tables_are_sound();
}
