//! A repository and its external codes, read from their sources.
ghost use Rattle.std.specs.Prelude.{◌≡◌, ◌⊎◌, List, ℕ, true, Option, Some, Err, IfOk, IfErr, IsTrue};
ghost use Rattle.repo_objects.specs.Repository.{Contents};
ghost use Rattle.repo_loader.specs.Loaded.{Spells};
ghost use Rattle.code_sets.specs.Codes.{Joins};
ghost use Rattle.code_sets.specs.CodesErrors.{AreCodes, AreCodesPulled};
ghost use Rattle.repo_engine.specs.Answer.{GivesJoined, GivesRepository, IsCodesRefusal, RefusesCodes, TellsFileFault, RefusesRepository};
ghost use Rattle.repo_engine.specs.inner.Arms.{FilesHaveLeft, IsOfInput, IsReadIf, IsCodesText, StopsAtCodes, StopsAtFiles, StopsAtRepository, StopsBy, codes_stop, load_stop};
ghost use Rattle.repo_engine.specs.Command.{hands_in};
ghost use Rattle.repo_engine.specs.Run.{TellsOfRepository};
ghost use Rattle.repo_engine.specs.Sources.{AreRead, Failing, IsSourceRead, source_ended_of, of_source, stop_ended};

use super::refusal::{Refusal, Stop};
use code_sets::{CodeLists, CodesError, join, pull_codes};
use outside::Source;
use repo_loader::{LoadError, load};
use repo_objects::Repository;
use std::alloc::Global;

/// The repository that the first source has left, joined with the codes that the second has left;
/// where the word for the codes is `-`, as it is.
pub fn read_repository<R: Source, C: Source>(
    alloc: Global,
    codes_word: &[u8],
    repo: &mut R,
    codes: &mut C,
) -> Result<Repository, Stop>
    requires repo_unended { IsTrue (R.may_be_pulled repo.old) }
    requires codes_unended { IsTrue (C.may_be_pulled codes.old) }
    ensures gives { (r c : List ℕ) → FilesHaveLeft codes_word.now (R.left repo.old) (C.left codes.old) r c →
        IfOk result (λ joined. GivesRepository codes_word.now r c joined) }
    ensures refuses { (r c : List ℕ) → FilesHaveLeft codes_word.now (R.left repo.old) (C.left codes.old) r c →
        IfErr result (λ stop. StopsBy (RefusesRepository codes_word.now r c) stop) }
    ensures input { IfErr result (λ stop. IsOfInput stop) }
    ensures sources { AreRead (hands_in codes_word.now) (source_ended_of result)
        (of_source R.left R.faults repo.old repo.new) (of_source C.left C.faults codes.old codes.new) }
    ensures pulled { IfErr result (λ stop. StopsAtFiles (of_source R.left R.faults repo.old repo.new) (of_source C.left C.faults codes.old codes.new) stop) }
    ensures codes_behind { (r : List ℕ) → R.left repo.old ≡ Some r → (codes.new ≡ codes.old) ⊎ ((own : Contents) × Spells r own) }
    ensures repository { (r : List ℕ) → R.left repo.old ≡ Some r → IfErr result (λ stop. TellsOfRepository r (Err stop)) }
{
    match load_file(alloc, repo) {
        Ok(own) => with_codes(alloc, codes_word, own, codes),
        Err(stop) => Err(stop),
    }
}

/// The repository with the codes that are handed in, if any.
fn with_codes<C: Source>(
    alloc: Global,
    codes_word: &[u8],
    own: Repository,
    codes: &mut C,
) -> Result<Repository, Stop>
    requires { IsTrue (C.may_be_pulled codes.old) }
    ensures gives { (c : List ℕ) → (hands_in codes_word.now ≡ true → C.left codes.old ≡ Some c) →
        IfOk result (λ joined. GivesJoined codes_word.now own c joined) }
    ensures refuses { (c : List ℕ) → (hands_in codes_word.now ≡ true → C.left codes.old ≡ Some c) →
        IfErr result (λ stop. StopsBy (RefusesCodes codes_word.now own c) stop) }
    ensures input { IfErr result (λ stop. IsOfInput stop) }
    ensures source { IsReadIf (hands_in codes_word.now) (source_ended_of result) (of_source C.left C.faults codes.old codes.new) }
    ensures pulled { IfErr result (λ stop. StopsAtCodes (C.left codes.old) (C.left codes.new) stop) }
{
    if codes_word == b"-".as_slice() {
        return Ok(own);
    }
    join_codes(alloc, own, codes)
}

/// The repository that the source has left.
fn load_file<R: Source>(alloc: Global, repo: &mut R) -> Result<Repository, Stop>
    requires { IsTrue (R.may_be_pulled repo.old) }
    ensures gives { (r : List ℕ) → R.left repo.old ≡ Some r → IfOk result (λ own. Spells r own) }
    ensures refuses { (r : List ℕ) → R.left repo.old ≡ Some r → IfErr result (λ stop. StopsBy (TellsFileFault r) stop) }
    ensures input { IfErr result (λ stop. IsOfInput stop) }
    ensures source { IsSourceRead (source_ended_of result) (of_source R.left R.faults repo.old repo.new) }
    ensures pulled { IfErr result (λ stop. StopsAtRepository (R.left repo.old) (R.left repo.new) stop) }
{
    match load(alloc, repo) {
        Ok(own) => Ok(own),
        Err(error) => Err(stop_of_load(error)),
    }
}

/// Why a repository is not loaded, as a stop.
fn stop_of_load(error: LoadError) -> Stop
    ensures { result ≡ load_stop error }
{
    match error {
        LoadError::Refused(fault) => Stop::Refused(Refusal::Repository(fault)),
        LoadError::ReadFault => Stop::ReadFault,
        LoadError::Memory => Stop::Memory,
    }
}

/// The repository with the codes that the source has left.
fn join_codes<C: Source>(alloc: Global, own: Repository, codes: &mut C) -> Result<Repository, Stop>
    requires { IsTrue (C.may_be_pulled codes.old) }
    ensures gives { (c : List ℕ) → C.left codes.old ≡ Some c → IfOk result (λ joined. Joins own c joined) }
    ensures refuses { (c : List ℕ) → C.left codes.old ≡ Some c → IfErr result (λ stop. StopsBy (IsCodesRefusal own c) stop) }
    ensures input { IfErr result (λ stop. IsOfInput stop) }
    ensures source { IsSourceRead (source_ended_of result) (of_source C.left C.faults codes.old codes.new) }
    ensures pulled { IfErr result (λ stop. StopsAtCodes (C.left codes.old) (C.left codes.new) stop) }
{
    match load_codes(alloc, codes) {
        Ok(lists) => join_lists(alloc, own, &lists),
        Err(stop) => Err(stop),
    }
}

/// The codes that the source has left.
fn load_codes<C: Source>(alloc: Global, codes: &mut C) -> Result<CodeLists, Stop>
    requires { IsTrue (C.may_be_pulled codes.old) }
    ensures gives { (c : List ℕ) → C.left codes.old ≡ Some c → IfOk result (λ lists. IsCodesText c lists) }
    ensures codes { IfOk result (λ lists. AreCodes lists) }
    ensures read { IfOk result (λ _. AreCodesPulled (C.left codes.old) (C.left codes.new)) }
    ensures refuses { (c : List ℕ) → C.left codes.old ≡ Some c → IfErr result (λ stop. (own : Contents) → StopsBy (IsCodesRefusal own c) stop) }
    ensures input { IfErr result (λ stop. IsOfInput stop) }
    ensures source { IsSourceRead (source_ended_of result) (of_source C.left C.faults codes.old codes.new) }
    ensures pulled { IfErr result (λ stop. StopsAtCodes (C.left codes.old) (C.left codes.new) stop) }
{
    match pull_codes(alloc, codes) {
        Ok(lists) => Ok(lists),
        Err(error) => Err(stop_of_codes(error)),
    }
}

/// The repository with these codes.
fn join_lists(alloc: Global, own: Repository, lists: &CodeLists) -> Result<Repository, Stop>
    requires { AreCodes lists.now }
    ensures gives { (c : List ℕ) → IsCodesText c lists.now → IfOk result (λ joined. Joins own c joined) }
    ensures refuses { (c : List ℕ) → IsCodesText c lists.now → IfErr result (λ stop. StopsBy (IsCodesRefusal own c) stop) }
    ensures stops { IfErr result (λ stop. IsOfInput stop × (stop_ended stop ≡ Failing → ⊥)) }
    ensures pulled { (c c' : Option (List ℕ)) → AreCodesPulled c c' → IfErr result (λ stop. StopsAtCodes c c' stop) }
{
    match join(alloc, own, lists) {
        Ok(joined) => Ok(joined),
        Err(error) => Err(stop_of_codes(error)),
    }
}

/// Why codes are refused, as a stop.
fn stop_of_codes(error: CodesError) -> Stop
    ensures { result ≡ codes_stop error }
{
    match error {
        CodesError::Refused { rule, number } => Stop::Refused(Refusal::Codes { rule, number }),
        CodesError::ReadFault => Stop::ReadFault,
        CodesError::Memory => Stop::Memory,
    }
}
