//! The classes of characters that tokens are made of (XML 1.0 §2.2, §2.3).
ghost use Rattle.std.specs.Prelude.{◌≡◌};
ghost use Rattle.markup.specs.Chars.{is_xml_char, is_name_start, is_name_char, is_space};

/// Whether XML text may have the character.
#[inline]
pub(crate) fn is_allowed(c: char) -> bool
    ensures { result ≡ is_xml_char c }
{
    lexical_core::is_xml_char(c)
}

/// Whether a name may begin with the character.
#[inline]
pub(crate) fn begins_name(c: char) -> bool
    ensures { result ≡ is_name_start c }
{
    lexical_core::is_name_start(c)
}

/// Whether a name may go on with the character.
#[inline]
pub(crate) fn continues_name(c: char) -> bool
    ensures { result ≡ is_name_char c }
{
    lexical_core::is_name_char(c)
}

/// Whether the character is white space.
#[tactic(auto, unfolding(crate::specs::Chars::is_space))]
#[inline]
pub(crate) fn is_blank(c: char) -> bool
    ensures { result ≡ is_space c }
{
    matches!(c, ' ' | '\t' | '\n' | '\r')
}
