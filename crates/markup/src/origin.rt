//! What gives a prefix its namespace (Namespaces in XML 1.0 §3, §6).
ghost use Rattle.std.specs.Prelude.{◌≡◌, [], IsTrue};
ghost use Rattle.std.specs.Option.{option_map};
ghost use Rattle.markup.specs.Events.{namespace_of};
ghost use Rattle.markup.specs.inner.Origins.{namespace_from};

use crate::bindings::Bindings;
use crate::names::{XML, is_empty};

/// What gives a prefix its namespace.
#[derive(Clone, Copy, PartialEq, Eq)]
pub(crate) enum Origin {
    /// Nothing does: without a prefix and a default, a name is in no namespace (Namespaces §6.2).
    Nothing,
    /// `xml` is bound without a declaration (Namespaces §3).
    Xml,
    /// The declaration at this place.
    Declared(usize),
}

/// Whether two origins are one.
pub(crate) fn is_one(left: Origin, right: Origin) -> bool
    ensures { IsTrue result → left ≡ right }
{
    left == right
}

/// What gives a prefix its namespace without a declaration (Namespaces §3, §6.2).
pub(crate) fn origin_ahead(prefix: &[u8]) -> Option<Origin>
    ensures { (kept : Bindings) → option_map (namespace_from kept) result ≡ namespace_of [] prefix.now }
{
    if is_empty(prefix) {
        Some(Origin::Nothing)
    } else if prefix == XML {
        Some(Origin::Xml)
    } else {
        None
    }
}
