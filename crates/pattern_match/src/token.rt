//! The tokens of a pattern, in the order of its text.
ghost use Rattle.std.specs.Prelude.{◌≡◌};
ghost use Rattle.pattern_match.specs.Token.{members_have, is_pattern_space, admits};

/// One token. A class is its start and its members.
#[derive(Clone, Copy, Drop)]
pub enum Token {
    Open,
    Close,
    Bar,
    Single(char),
    Dot,
    Spaces,
    ClassStart { negated: bool },
    Member { low: char, high: char },
    Times { least: u64, most: Option<u64> },
}

/// Whether the members that stand first have the character.
fn have_members(tokens: &[Token], c: char) -> bool
    ensures { result ≡ members_have tokens.now c }
{
    for token in tokens {
        match *token {
            Token::Member { low, high } => {
                if low <= c && c <= high {
                    return true;
                }
            }
            _ => return false,
        }
    }
    false
}

/// Space, tab, LF or CR: XML Schema part 2, appendix F, `\s`.
fn is_space_char(c: char) -> bool
    ensures { result ≡ is_pattern_space c }
{
    c == ' ' || c == '\t' || c == '\n' || c == '\r'
}

/// Whether the atom whose token has the number `at` has the character.
pub fn does_admit(tokens: &[Token], at: usize, c: char) -> bool
    ensures { result ≡ admits tokens.now at c }
{
    if at >= tokens.len() {
        return false;
    }
    match tokens[at] {
        Token::Single(x) => c == x,
        Token::Dot => !(c == '\n' || c == '\r'),
        Token::Spaces => is_space_char(c),
        Token::ClassStart { negated } => {
            let has = have_members(&tokens[at + 1..], c);
            if negated { !has } else { has }
        }
        _ => false,
    }
}
