//! The top call: one command, from words and bytes to a status and what is written.
ghost use Rattle.std.specs.Prelude.{IsTrue};
ghost use Rattle.repo_engine.specs.Command.{texts};
ghost use Rattle.repo_engine.specs.Run.{End, Notes, Performs};
ghost use Rattle.repo_engine.specs.ModuleLaw.{ModuleAdmitsTheInstances, ModuleAdmitsWhatIsAccepted};
ghost use Rattle.repo_engine.specs.SchemaLaw.{SchemaAdmitsTheInstances, SchemaAdmitsWhatIsAccepted};
ghost use Rattle.repo_engine.specs.Sources.{of_source};

use super::laws;
use super::note::conclude;
use super::perform::perform;
use super::status::Status;
use outside::{Sink, Source};
use std::alloc::Global;

/// Runs the command that the words ask for: reads the sources that it uses, pushes its text to `out`
/// once the input was accepted, and notes one line on any answer but `Done`.
///
/// `words` is the command line without the program's name. `codes` is not pulled where the third
/// word is `-`. No source is pulled behind its end or behind a failure.
pub fn run<R: Source, C: Source, I: Source, O: Sink, N: Sink>(
    alloc: Global,
    words: &Vec<String>,
    repo: &mut R,
    codes: &mut C,
    inst: &mut I,
    out: &mut O,
    notes: &mut N,
) -> Status
    requires repo_unended { IsTrue (R.may_be_pulled repo.old) }
    requires codes_unended { IsTrue (C.may_be_pulled codes.old) }
    requires inst_unended { IsTrue (I.may_be_pulled inst.old) }
    // There is an end that the command comes to, of which both hold.
    ensures answer { (end : End)
        × Performs (texts words.now.items)
        (of_source R.left R.faults repo.old repo.new) (of_source C.left C.faults codes.old codes.new) (of_source I.left I.faults inst.old inst.new)
        O.held O.faults out.old out.new end
        × Notes N.held N.faults N.room notes.old notes.new end result }
    // The schema that `xsd` writes of a message, and the module that `asn1` writes, admit exactly what is accepted.
    ensures schema { SchemaAdmitsWhatIsAccepted }
    ensures module { ModuleAdmitsWhatIsAccepted }
    // Of any tree and any bytes, whoever reads them, they admit exactly the instances of the message.
    ensures schema_instances { SchemaAdmitsTheInstances }
    ensures module_instances { ModuleAdmitsTheInstances }
{
    laws::schema_admits_what_is_accepted();
    laws::module_admits_what_is_accepted();
    laws::schema_admits_the_instances();
    laws::module_admits_the_instances();
    let end = perform(alloc, words, repo, codes, inst, out);
    conclude(&end, notes)
}
