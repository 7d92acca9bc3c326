//! The texts of truth values: XML Schema part 2 §3.2.2.
ghost use Rattle.std.specs.Prelude.{◌≡◌, IfSome, IfNone, Bool};
ghost use Rattle.data_types.specs.Booleans.{IsBooleanText, boolean_text};

/// The truth value of a collapsed text; `None` where it is a text of none.
pub fn boolean_of(text: &[u8]) -> Option<bool>
    ensures some { IfSome result (λ value. IsBooleanText value text.now) }
    ensures none { IfNone result ((value : Bool) → IsBooleanText value text.now → ⊥) }
{
    if text == b"true".as_slice() || text == b"1".as_slice() {
        Some(true)
    } else if text == b"false".as_slice() || text == b"0".as_slice() {
        Some(false)
    } else {
        None
    }
}

/// The canonical text of a truth value.
pub fn boolean_text(value: bool) -> &'static [u8]
    ensures { result.now ≡ boolean_text value }
{
    if value {
        b"true".as_slice()
    } else {
        b"false".as_slice()
    }
}
