//! Laws of the definitions, each the contract of a function with an empty body.
ghost use Rattle.transcoder.specs.Laws.{OneVerdict, SomeVerdict, OneDerVerdict, SomeDerVerdict};

/// Bytes are XML of one instance of a message or have one first fault, and not both.
#[tactic(auto, using(crate::proofs::Verdicts::one_verdict))]
pub fn one_verdict()
    ensures { OneVerdict }
{
    xml_instances::laws::one_spelled();
    xml_instances::laws::one_fault();
    xml_instances::laws::spelled_has_none();
}

/// No bytes are neither XML of an instance of a message nor have a first fault.
pub fn some_verdict()
    ensures { SomeVerdict }
{
    xml_instances::laws::spelled_or_faulty();
}

/// Bytes are the DER of one instance of a message or have one first fault, and not both.
pub fn one_der_verdict()
    ensures { OneDerVerdict }
{
    respell::laws::one_tree();
    der_model::laws::tables_are_sound();
    der_model::laws::one_value();
    der_model::laws::one_fault();
    der_model::laws::spelled_has_none();
}

/// No bytes are neither the DER of an instance of a message nor have a first fault.
pub fn some_der_verdict()
    ensures { SomeDerVerdict }
{
    respell::laws::one_tree();
    der_model::laws::tables_are_sound();
    der_model::laws::spelled_or_faulty();
}
