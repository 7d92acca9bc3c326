//! Laws on canonical XML: each is the contract of a function that does nothing.
ghost use Rattle.std.specs.Prelude.{codes};
ghost use Rattle.xml_writer.specs.Laws.{SomeCanonicalXml, OneCanonicalXml};
ghost use Rattle.xml_writer.specs.CanonXml.{IsCanonXml};
ghost use Rattle.xml_writer.specs.CanonXmlExample.{example_message, example_value};
ghost use Rattle.xml_writer.specs.SpellingLaw.{CanonicalSpells, CompiledSpells};

/// A value that the types admit has a canonical XML.
pub fn a_value_has_a_canonical_xml()
    ensures { SomeCanonicalXml }
{}

/// A value has at most one canonical XML.
pub fn a_value_has_one_canonical_xml()
    ensures { OneCanonicalXml }
{}

/// The canonical XML of a value that is admitted spells the value, where none of its tags has more than
/// 1,048,576 bytes, and its names are names of XML.
pub fn canonical_xml_spells_its_value()
    ensures { CanonicalSpells }
{}

/// The names of a message that breaks no rule are names of XML, so its canonical XML spells its value.
pub fn canonical_xml_of_a_message_spells_its_value()
    ensures { CompiledSpells }
{}

/// The canonical XML of a text, an amount and an envelope.
pub fn canonical_xml_of_an_example()
    ensures { IsCanonXml example_message example_value (codes "<?xml version=\"1.0\" encoding=\"UTF-8\"?>\n<Document xmlns=\"urn:a\"><Note><Nm>A&gt;\"B</Nm><Amt Ccy=\"EUR\">1.5</Amt><Any><X xmlns=\"urn:a\"></X></Any></Note></Document>\n") }
{}
