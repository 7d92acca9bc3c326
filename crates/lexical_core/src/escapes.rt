//! The canonical spelling of a character in XML.
ghost use Rattle.std.specs.Prelude.{◌≡◌, ◌≤◌, ℕ, List, true, false, IfSome, IfNone, take, length};
ghost use Rattle.lexical_core.specs.Escapes.{escape_of, reference_or};

/// The reference to a character that does not stand for itself in a text, or in an attribute's value
/// (XML 1.0 §2.4 and §3.3.3; what a reader would change is written as a reference); `None` for one that does.
#[inline]
pub fn reference_to(c: char, attribute: bool) -> Option<&'static [u8]>
    ensures some { IfSome result (λ spelled. (plain : List ℕ) → spelled.now ≡ reference_or attribute c plain) }
    ensures short { IfSome result (λ spelled. length spelled.now ≤ 8) }
    ensures none { IfNone result ((plain : List ℕ) → reference_or attribute c plain ≡ plain) }
{
    match c {
        '&' => Some(b"&amp;".as_slice()),
        '<' => Some(b"&lt;".as_slice()),
        '>' => Some(b"&gt;".as_slice()),
        '\r' => Some(b"&#13;".as_slice()),
        '"' => only(attribute, b"&quot;".as_slice()),
        '\t' => only(attribute, b"&#9;".as_slice()),
        '\n' => only(attribute, b"&#10;".as_slice()),
        _ => None,
    }
}

/// The reference where it is asked for.
#[inline]
fn only(wanted: bool, reference: &'static [u8]) -> Option<&'static [u8]>
    ensures some { IfSome result (λ spelled. (wanted ≡ true) × (spelled.now ≡ reference.entry.now)) }
    ensures none { IfNone result (wanted ≡ false) }
{
    if wanted { Some(reference) } else { None }
}

/// Writes the canonical spelling of the character at the front of the buffer, as it stands in a text or
/// in an attribute's value, and gives its length. What stands behind it in the buffer is left open.
pub fn escape(c: char, attribute: bool, buf: &mut [u8; 8]) -> usize
    ensures bound { result ≤ 8 }
    ensures text { take result buf.new ≡ escape_of attribute c }
{
    match reference_to(c, attribute) {
        Some(reference) => put(reference, buf),
        None => {
            let mut bytes = [0; 4];
            put(c.encode_utf8(&mut bytes).as_bytes(), buf)
        }
    }
}

/// Puts the bytes at the front.
fn put(bytes: &[u8], buf: &mut [u8; 8]) -> usize
    requires { length bytes.now ≤ 8 }
    ensures bound { result ≤ 8 }
    ensures text { take result buf.new ≡ bytes.now }
{
    buf[..bytes.len()].copy_from_slice(bytes);
    bytes.len()
}
