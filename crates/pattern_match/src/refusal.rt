//! Where characters are no pattern: they are read one at a time, and that takes no memory.
ghost use Rattle.std.specs.Prelude.{◌≡◌};
ghost use Rattle.pattern_match.specs.inner.Refusal.{refused_from, start};

use crate::control::{Control, Reading, is_end, reading_after};

/// The number of the first character after which no pattern goes on so, or the number of characters where only
/// the end is wrong; none where the text is a pattern.
pub fn refusal(text: &[char]) -> Option<u64>
    ensures { result ≡ refused_from start 0 text.now }
{
    let mut at = Reading {
        control: Control::Start,
        depth: 0,
    };
    let mut place: u64 = 0;
    for c in text {
        match reading_after(at, *c) {
            None => return Some(place),
            Some(after) => at = after,
        }
        place += 1;
    }
    if is_end(at) { None } else { Some(place) }
}
