//! The characters of XML and of the names in it.
ghost use Rattle.std.specs.Prelude.{◌≡◌, ◌↔◌, IsTrue};
ghost use Rattle.lexical_core.specs.Characters.{IsXmlChar, IsNameStart, IsNameChar, IsSpace, is_white_space};

/// Whether the character may stand in a document: XML 1.0 §2.2, Char.
#[inline]
pub fn is_xml_char(c: char) -> bool
    ensures { IsTrue result ↔ IsXmlChar c }
{
    matches!(
        c,
        '\u{20}'..='\u{D7FF}'
            | '\t'..='\n'
            | '\r'
            | '\u{E000}'..='\u{FFFD}'
            | '\u{10000}'..='\u{10FFFF}'
    )
}

/// Whether a name may begin with the character: XML 1.0 §2.3, NameStartChar, without the colon
/// (Namespaces in XML 1.0 §4, NCName).
#[inline]
pub fn is_name_start(c: char) -> bool
    ensures { IsTrue result ↔ IsNameStart c }
{
    matches!(
        c,
        'a'..='z'
            | 'A'..='Z'
            | '_'
            | '\u{C0}'..='\u{D6}'
            | '\u{D8}'..='\u{F6}'
            | '\u{F8}'..='\u{2FF}'
            | '\u{370}'..='\u{37D}'
            | '\u{37F}'..='\u{1FFF}'
            | '\u{200C}'..='\u{200D}'
            | '\u{2070}'..='\u{218F}'
            | '\u{2C00}'..='\u{2FEF}'
            | '\u{3001}'..='\u{D7FF}'
            | '\u{F900}'..='\u{FDCF}'
            | '\u{FDF0}'..='\u{FFFD}'
            | '\u{10000}'..='\u{EFFFF}'
    )
}

/// Whether a name may have the character after its first: XML 1.0 §2.3, NameChar, without the colon
/// (Namespaces in XML 1.0 §4, NCName).
#[inline]
pub fn is_name_char(c: char) -> bool
    ensures { IsTrue result ↔ IsNameChar c }
{
    is_name_start(c)
        || matches!(c, '-'..='.' | '0'..='9' | '\u{B7}' | '\u{300}'..='\u{36F}' | '\u{203F}'..='\u{2040}')
}

/// Whether the character is white space: XML 1.0 §2.3, S.
#[inline]
pub fn is_space(c: char) -> bool
    ensures fact { IsTrue result ↔ IsSpace c }
    ensures test { result ≡ is_white_space c }
{
    c == ' ' || c == '\t' || c == '\n' || c == '\r'
}
