//! Lengths of texts and binary values: XML Schema part 2 §4.3.1 to §4.3.3.
ghost use Rattle.std.specs.Prelude.{◌≡◌, ◌↔◌, ◌^◌, ◌≤◌, ℕ, List, length, IsTrue};
ghost use Rattle.base64.specs.GeneralPurpose.{IsBytes};
ghost use Rattle.data_types.specs.Leaf.{Bytes};
ghost use Rattle.data_types.specs.Limits.{IsCount};
ghost use Rattle.data_types.specs.declared.kind.Kind.TheVariants as kind;
ghost use Rattle.facets.specs.Facets.{HasLength};
ghost use Rattle.facets.specs.Checks.{IsLengthAnswer};
ghost use Rattle.facets.specs.LeafUnder.{Judges};

use crate::simple::Simple;
use lexical_core::Rule;

/// Whether a length, of a binary value in octets or of a text in characters, is within the bounds of the simple type;
/// `BadLength` where it is not. It takes no memory.
pub fn check_octets(simple: &Simple, count: u64) -> Result<(), Rule>
    ensures length { IsLengthAnswer simple.now count result }
    ensures leaf { simple.now.kind ≡ kind.Binary → (octets : List ℕ) → IsBytes octets → length octets ≡ count
        → Judges simple.now (Bytes octets) result }
{
    if has_length(simple, count) {
        Ok(())
    } else {
        Err(Rule::BadLength)
    }
}

/// The same of a count for which `u64` may have no number.
pub(crate) fn check_count(simple: &Simple, count: Option<u64>) -> Result<(), Rule>
    ensures { (n : ℕ) → IsCount count n → IsLengthAnswer simple.now n result }
{
    match count {
        Some(count) => check_octets(simple, count),
        None => check_past(simple),
    }
}

/// The same of a length that is past every number of `u64`.
fn check_past(simple: &Simple) -> Result<(), Rule>
    ensures { (n : ℕ) → 2 ^ 64 ≤ n → IsLengthAnswer simple.now n result }
{
    let _least = simple.min; // below the length, as every `u64` is
    match simple.max {
        Some(_most) => Err(Rule::BadLength), // below it, too
        None => Ok(()),
    }
}

/// Whether a length is within its bounds.
pub(crate) fn has_length(simple: &Simple, count: u64) -> bool
    ensures { IsTrue result ↔ HasLength simple.now count }
{
    simple.min <= count && simple.max.is_none_or(|max| count <= max)
}
