//! The lines of a type in braces.
ghost use Rattle.std.specs.Prelude.{◌≡◌};
ghost use Rattle.asn1_model.specs.ModuleText.{separator};

/// What stands before the line of this number.
pub(crate) fn separator(at: usize) -> &'static [u8]
    ensures { result.now ≡ separator at }
{
    if at == 0 { b"\n  " } else { b",\n  " }
}
