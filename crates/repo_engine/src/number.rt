//! A number among the words.
ghost use Rattle.std.specs.Prelude.{IfNone, IfSome, IsTrue};
ghost use Rattle.repo_engine.specs.Command.{IsNumberWord, is_number_word};

/// The number that a word says in 1 to 18 decimal digits.
pub fn number_of(word: &[u8]) -> Option<u64>
    ensures found { IfSome result (λ n. IsNumberWord word.now n) }
    ensures none { IfNone result (IsTrue (is_number_word word.now) → ⊥) }
{
    if word.is_empty() || word.len() > 18 {
        return None;
    }
    let mut value = 0u64;
    let mut rest = word;
    while let Some((first, more)) = rest.split_first() {
        if !first.is_ascii_digit() {
            return None;
        }
        value = value * 10 + u64::from(*first - b'0');
        rest = more;
    }
    Some(value)
}
