//! Laws of the built-in message and its instances: each is the contract of a function that does nothing.
ghost use Rattle.drill.specs.Drilled.{BothComeBack, IsAdmitted, IsTreeCompiled, XmlIsReadable, DerIsReadable};

/// The built-in message breaks no rule, and is compiled to the tables of the definitions.
pub fn the_message_is_compiled()
    ensures { IsTreeCompiled }
{}

/// The message admits each instance.
pub fn instances_are_admitted()
    ensures { IsAdmitted }
{}

/// The canonical XML of an instance has no tag of more than 1,048,576 bytes, and no more than 2^40 bytes.
pub fn their_xml_is_readable()
    ensures { XmlIsReadable }
{}

/// The DER of an instance has no more than 2^40 bytes.
pub fn their_der_is_readable()
    ensures { DerIsReadable }
{}

/// The canonical XML and the DER of an instance, of at most 1,000,000 nodes beside the first, are read back as it.
pub fn both_forms_come_back()
    ensures { BothComeBack }
{
    the_message_is_compiled();
    instances_are_admitted();
    their_xml_is_readable();
    their_der_is_readable();
    xml_writer::laws::canonical_xml_of_a_message_spells_its_value();
}
