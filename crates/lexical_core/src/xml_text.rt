//! Whether bytes are a text that an XML document may have.
ghost use Rattle.std.specs.Prelude.{◌↔◌, IsTrue};
ghost use Rattle.lexical_core.specs.Characters.{IsXmlChar, IsXmlText};
ghost use Rattle.lexical_core.specs.Utf8.{Utf8GoesOn, Utf8Stops};

use crate::characters::is_xml_char;
use crate::utf8::{Utf8, Utf8Step};

/// Whether the bytes are UTF-8 of characters that a document may have: XML 1.0 §2.2.
pub fn is_xml_text(bytes: &[u8]) -> bool
    ensures { IsTrue result ↔ IsXmlText bytes.now }
{
    let mut step = Utf8Step::new();
    for byte in bytes {
        if !takes_xml_char(&mut step, *byte) {
            return false;
        }
    }
    step.is_whole()
}

/// Takes a byte; false where it ends another character than one of XML, or none can go on so.
#[inline]
pub(crate) fn takes_xml_char(step: &mut Utf8Step, byte: u8) -> bool
    ensures goes { IsTrue result → Utf8GoesOn IsXmlChar step.old byte step.new }
    ensures stops { (IsTrue result → ⊥) → Utf8Stops IsXmlChar step.old byte }
{
    match step.take(byte) {
        Utf8::More => true,
        Utf8::Char(c) => is_xml_char(c),
        Utf8::Bad => false,
    }
}
