//! The text of a leaf.
ghost use Rattle.std.specs.Prelude.{◌≡◌, ℕ, List, [], ◌∷◌, ◌++◌, None, true, false, IsOk, IfOk, OnOk};
ghost use Rattle.std.specs.Str.{chars};
ghost use Rattle.facets.specs.LeafChecks as checks;
ghost use Rattle.facets.specs.LeafVerdicts as verdicts;
ghost use Rattle.markup.specs.Chars.{is_space};
ghost use Rattle.markup.specs.Literals.{IsRun};
ghost use Rattle.xml_instances.specs.Built.{TextShown};
ghost use Rattle.xml_instances.specs.Judges.{HasJudgeTaken, IsJudgeMadeFor};
ghost use Rattle.xml_instances.specs.Keeping.{GoOn};
ghost use Rattle.xml_instances.specs.Open.{IsRuleOf};
ghost use Rattle.xml_instances.specs.Verdicts.{IsVerdictJudge};

use crate::judge::Judge;
use crate::pieces::{Pieces, leaf};
use facets::{LeafCheck, LeafVerdict, Simple};
use lexical_core::{Rule, is_xml_char};
use std::alloc::AllocError;

/// Whether the character is white space: XML 1.0 §2.3, S.
#[tactic(auto, unfolding(markup::specs::Chars::is_space))]
pub(crate) fn is_space(c: char) -> bool
    ensures { result ≡ is_space c }
{
    c == ' ' || c == '\t' || c == '\n' || c == '\r'
}

/// Takes a character of a text.
pub(crate) fn take_character(check: &mut Judge, simple: &Simple, c: char) -> Result<(), AllocError>
    requires { IsJudgeMadeFor check.old simple.now }
    ensures made { IsJudgeMadeFor check.new simple.now }
    ensures verdict { IsVerdictJudge check.old → IsVerdictJudge check.new }
    ensures taken { OnOk result ((text : List ℕ) → HasJudgeTaken check.old simple.now text → HasJudgeTaken check.new simple.now (text ++ c ∷ [])) }
{
    if !is_xml_char(c) {
        return Err(AllocError);
    }
    check.take(simple, c)
}

/// Takes the characters of a text.
pub(crate) fn take_characters(
    check: &mut Judge,
    simple: &Simple,
    text: &str,
) -> Result<(), AllocError>
    requires { IsJudgeMadeFor check.old simple.now }
    ensures made { IsJudgeMadeFor check.new simple.now }
    ensures verdict { IsVerdictJudge check.old → IsVerdictJudge check.new }
    ensures taken { HasJudgeTaken check.old simple.now [] → OnOk result (HasJudgeTaken check.new simple.now (chars text.now)) }
{
    for c in text.chars() {
        take_character(check, simple, c)?;
    }
    Ok(())
}

/// Takes a run of so many characters of a text.
pub(crate) fn take_run(
    check: &mut Judge,
    simple: &Simple,
    run: &[u8],
    count: usize,
) -> Result<(), AllocError>
    requires run { IsRun run.now count }
    requires made { IsJudgeMadeFor check.old simple.now }
    ensures made { IsJudgeMadeFor check.new simple.now }
    ensures verdict { IsVerdictJudge check.old → IsVerdictJudge check.new }
    ensures taken { OnOk result ((r : IsRun run.now count) (text : List ℕ) → HasJudgeTaken check.old simple.now text → HasJudgeTaken check.new simple.now (text ++ r.characters)) }
{
    check.take_run(simple, run, count)
}

/// The rule that the text breaks, if it breaks one; else its leaf is shown, where pieces are kept.
pub(crate) fn ending_of(
    judge: &Judge,
    simple: &Simple,
    pieces: &mut Option<Pieces>,
) -> Result<Option<Rule>, AllocError>
    requires { IsJudgeMadeFor judge.now simple.now }
    ensures bare { pieces.old ≡ None → pieces.new ≡ None }
    ensures taken { (text : List ℕ) → HasJudgeTaken judge.now simple.now text → IfOk result (λ rule. IsRuleOf simple.now text rule) }
    ensures shown { (text : List ℕ) → HasJudgeTaken judge.now simple.now text → IfOk result (λ rule. rule ≡ None → GoOn pieces.old pieces.new (TextShown simple.now text)) }
{
    match judge {
        Judge::Check(check) => show_leaf(check, simple, pieces),
        Judge::Verdict(verdict) => rule_of(verdict, simple, pieces),
    }
}

/// The same by a check that gives the leaf.
fn show_leaf(
    check: &LeafCheck,
    simple: &Simple,
    pieces: &mut Option<Pieces>,
) -> Result<Option<Rule>, AllocError>
    requires { checks.IsCheckMadeFor check.now simple.now }
    ensures bare { pieces.old ≡ None → pieces.new ≡ None }
    ensures taken { (text : List ℕ) → checks.HasCheckTaken check.now simple.now text → IfOk result (λ rule. IsRuleOf simple.now text rule) }
    ensures shown { (text : List ℕ) → checks.HasCheckTaken check.now simple.now text → IfOk result (λ rule. rule ≡ None → GoOn pieces.old pieces.new (TextShown simple.now text)) }
{
    match check.finish(simple) {
        Ok(found) => match leaf(pieces, &found) {
            Ok(()) => Ok(None),
            Err(error) => Err(error),
        },
        Err(rule) => Ok(Some(rule)),
    }
}

/// The same by one that gives no leaf, where no pieces are kept.
fn rule_of(
    verdict: &LeafVerdict,
    simple: &Simple,
    pieces: &Option<Pieces>,
) -> Result<Option<Rule>, AllocError>
    requires { verdicts.IsVerdictMadeFor verdict.now simple.now }
    ensures taken { (text : List ℕ) → verdicts.HasVerdictTaken verdict.now simple.now text → IfOk result (λ rule. IsRuleOf simple.now text rule) }
    ensures bare { IsOk result → pieces.now ≡ None }
{
    if pieces.is_some() {
        return Err(AllocError);
    }
    match verdict.finish(simple) {
        Ok(()) => Ok(None),
        Err(rule) => Ok(Some(rule)),
    }
}

/// Shows the leaf of the text, where it is one and pieces are kept; false where it is none, and nothing changes.
pub(crate) fn pass_leaf(
    judge: &Judge,
    simple: &Simple,
    pieces: &mut Option<Pieces>,
) -> Result<bool, AllocError>
    requires { IsJudgeMadeFor judge.now simple.now }
    ensures kept { IfOk result (λ done. done ≡ false → pieces.new ≡ pieces.old) }
    ensures bare { pieces.old ≡ None → pieces.new ≡ None }
    ensures taken { (text : List ℕ) → HasJudgeTaken judge.now simple.now text → IfOk result (λ done. done ≡ true → IsRuleOf simple.now text None) }
    ensures shown { (text : List ℕ) → HasJudgeTaken judge.now simple.now text → IfOk result (λ done. done ≡ true → GoOn pieces.old pieces.new (TextShown simple.now text)) }
{
    match judge {
        Judge::Check(check) => pass_check(check, simple, pieces),
        Judge::Verdict(verdict) => Ok(pass_verdict(verdict, simple, pieces)),
    }
}

/// The same by a check that gives the leaf.
fn pass_check(
    check: &LeafCheck,
    simple: &Simple,
    pieces: &mut Option<Pieces>,
) -> Result<bool, AllocError>
    requires { checks.IsCheckMadeFor check.now simple.now }
    ensures kept { IfOk result (λ done. done ≡ false → pieces.new ≡ pieces.old) }
    ensures bare { pieces.old ≡ None → pieces.new ≡ None }
    ensures taken { (text : List ℕ) → checks.HasCheckTaken check.now simple.now text → IfOk result (λ done. done ≡ true → IsRuleOf simple.now text None) }
    ensures shown { (text : List ℕ) → checks.HasCheckTaken check.now simple.now text → IfOk result (λ done. done ≡ true → GoOn pieces.old pieces.new (TextShown simple.now text)) }
{
    match check.finish(simple) {
        Ok(found) => match leaf(pieces, &found) {
            Ok(()) => Ok(true),
            Err(error) => Err(error),
        },
        Err(_) => Ok(false),
    }
}

/// The same by one that gives no leaf, where no pieces are kept.
fn pass_verdict(verdict: &LeafVerdict, simple: &Simple, pieces: &Option<Pieces>) -> bool
    requires { verdicts.IsVerdictMadeFor verdict.now simple.now }
    ensures bare { result ≡ true → pieces.now ≡ None }
    ensures taken { (text : List ℕ) → verdicts.HasVerdictTaken verdict.now simple.now text → result ≡ true → IsRuleOf simple.now text None }
{
    if pieces.is_some() {
        return false;
    }
    match verdict.finish(simple) {
        Ok(()) => true,
        Err(_) => false,
    }
}
