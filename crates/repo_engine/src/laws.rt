//! What follows of the definitions: functions that do nothing, whose contracts are laws.
ghost use Rattle.std.specs.Prelude.{◌≡◌, ℕ, List};
ghost use Rattle.message_model.specs.Tables.{Tables};
ghost use Rattle.repo_engine.specs.Answer.{Answer, FromMessage, GivesMessage, IsVerdictOfVerb};
ghost use Rattle.repo_engine.specs.ModuleLaw.{ModuleAdmitsTheInstances, ModuleAdmitsWhatIsAccepted};
ghost use Rattle.repo_engine.specs.RoundTrips.{XmlComesBack, DerComesBack};
ghost use Rattle.repo_engine.specs.SchemaLaw.{SchemaAdmitsTheInstances, SchemaAdmitsWhatIsAccepted};
ghost use Rattle.repo_engine.specs.Verdict.{Verdict};
ghost use Rattle.repo_engine.specs.declared.command.Verb.{Verb};
ghost use Rattle.repo_engine.specs.inner.StepLaws.{StepLaws};

/// What is known of each step of an answer: it refuses in one way or gives one thing, and not both.
fn steps_are_apart()
    ensures { StepLaws }
{
    repo_loader::laws::one_repository();
    repo_loader::laws::one_load_fault();
    repo_loader::laws::spelled_has_none();
    code_sets::laws::one_joined();
    code_sets::laws::one_codes_fault();
    code_sets::laws::joined_has_none();
    message_model::laws::one_model();
    message_model::laws::one_refusal();
    message_model::laws::ready_is_not_refused();
    message_model::laws::compiled_are_sound();
    transcoder::laws::one_verdict();
    transcoder::laws::one_der_verdict();
    xml_writer::laws::a_value_has_one_canonical_xml();
}

/// Words and bytes have at most one answer.
pub fn one_answer()
    ensures { (ws : List (List ℕ)) (r c i : List ℕ) (v w : Verdict) → Answer ws r c i v → Answer ws r c i w → v ≡ w }
{
    steps_are_apart();
}

/// Where the files give the tables of a message, a verdict on it is one on these tables.
pub(crate) fn message_goes_on()
    ensures { (verb : Verb) (codes_word id r c i : List ℕ) (T : Tables) (v : Verdict) → GivesMessage codes_word id r c T → FromMessage codes_word id r c (IsVerdictOfVerb verb i) v → IsVerdictOfVerb verb i T v }
{
    steps_are_apart();
}

/// No words and bytes are without an answer.
pub fn some_answer()
    ensures { (ws : List (List ℕ)) (r c i : List ℕ) → ¬ (¬ ((v : Verdict) × Answer ws r c i v)) }
{
    repo_loader::laws::one_of_both();
    code_sets::laws::joins_or_has_fault();
    message_model::laws::some_model();
    message_model::laws::ready_or_refused();
    message_model::laws::compiled_are_sound();
    transcoder::laws::some_verdict();
    transcoder::laws::some_der_verdict();
    der_model::laws::compiled_have_kinds();
    xml_writer::laws::a_value_has_a_canonical_xml();
    drill::laws::instances_are_admitted();
}

/// The schema that `xsd` writes of a message admits exactly what `check-xml` accepts: bytes of at most 2^40 are
/// accepted exactly where they are XML of a tree that the schema admits.
pub fn schema_admits_what_is_accepted()
    ensures { SchemaAdmitsWhatIsAccepted }
{}

/// The schema that `xsd` writes of a message admits exactly its instances (XML Schema part 1): any tree is valid for it
/// exactly where it writes a value that the message admits.
pub fn schema_admits_the_instances()
    ensures { SchemaAdmitsTheInstances }
{
    xsd_model::laws::schema_admits_the_instances();
}

/// The ASN.1 module that `asn1` writes of a message admits exactly what `check-der` accepts, whatever bytes gave the
/// repository and its codes: bytes of at most 2^40 are accepted exactly where they are the DER of a value of the module's
/// `Document` (X.680, X.690).
pub fn module_admits_what_is_accepted()
    ensures { ModuleAdmitsWhatIsAccepted }
{
    repo_loader::laws::spelled_is_a_repository();
    code_sets::laws::joined_is_a_repository();
    asn1_model::laws::compiled_types_are_sound();
    asn1_model::laws::a_module_admits_the_same();
}

/// The module that `asn1` writes of a message admits exactly its instances (X.680, X.690), of any bytes; of an instance the
/// value is known, and each value is that of an instance.
pub fn module_admits_the_instances()
    ensures { ModuleAdmitsTheInstances }
{
    repo_loader::laws::spelled_is_a_repository();
    code_sets::laws::joined_is_a_repository();
    asn1_model::laws::compiled_types_are_sound();
    asn1_model::laws::a_module_admits_the_same();
    asn1_model::laws::an_instance_is_a_value();
    asn1_model::laws::a_value_is_an_instance();
}

/// To the DER that `xml-to-der` writes of an instance, `der-to-xml` answers as `canon-xml` answers to the instance,
/// where it has at most 2^40 bytes.
pub fn xml_comes_back()
    ensures { XmlComesBack }
{
    message_model::laws::compiled_are_sound();
    transcoder::laws::one_verdict();
    transcoder::laws::one_der_verdict();
}

/// To the XML that `der-to-xml` writes of an instance, `xml-to-der` answers with the same DER, where it has at most 2^40
/// bytes, and no tag of more than 1,048,576.
pub fn der_comes_back()
    ensures { DerComesBack }
{
    message_model::laws::compiled_are_sound();
    transcoder::laws::one_verdict();
    xml_writer::laws::canonical_xml_of_a_message_spells_its_value();
}
