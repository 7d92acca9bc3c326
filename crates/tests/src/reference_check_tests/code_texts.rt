//! What no contract says: that there is memory for the texts of codes.
ghost use Rattle.std.specs.Prelude.{IfOk, All};
ghost use Rattle.repo_objects.specs.Objects.{HasCodeTexts, HasObjectTexts};

use crate::made::{object_of, text_if_any, text_of};
use reference_check::{CodeTexts, code_text};
use repo_objects::{CodeDef, CodeDefs, Kinds, Object, ObjectKind, Repository};
use std::alloc::{AllocError, Global};
use std::process::Abort;
use std::test::Fail;

// The ids of the sets of a chain; each set but the first is traced to the one before it.
static CHAIN: [&str; 18] = [
    "_a", "_b", "_c", "_d", "_e", "_f", "_g", "_h", "_i", "_j", "_k", "_l", "_m", "_n", "_o", "_p",
    "_q", "_r",
];

fn code_of(alloc: Global, text: &str) -> Result<CodeDef, Fail>
    ensures { IfOk result HasCodeTexts }
{
    let name = text_of(alloc, "Clearing")?;
    let code = text_if_any(alloc, text)?;
    Ok(CodeDef { name, code })
}

fn one_code(alloc: Global, text: &str) -> Result<CodeDefs, Fail>
    ensures { IfOk result (λ codes. All HasCodeTexts codes) }
{
    let mut codes = CodeDefs::new(alloc);
    codes.push(code_of(alloc, text)?)?;
    Ok(codes)
}

// A set with one code, which has the text, and is traced to the other set; either is empty where there is none.
fn set_of(alloc: Global, text: &str, before: &str) -> Result<Object, Fail>
    ensures { IfOk result HasObjectTexts }
{
    let mut set = object_of(alloc, "ClearingCode", ObjectKind::Simple(Kinds::CodeSet))?;
    set.codes = one_code(alloc, text)?;
    set.trace = text_if_any(alloc, before)?;
    Ok(set)
}

fn add_set(
    repository: &mut Repository,
    alloc: Global,
    id: &str,
    text: &str,
    before: &str,
) -> Result<(), Fail> {
    let id = text_of(alloc, id)?;
    let set = set_of(alloc, text, before)?;
    repository.add_object(id, set)?;
    Ok(())
}

// The first set of the chain has the text.
fn fill(alloc: Global, repository: &mut Repository) -> Result<(), Fail> {
    let mut text = "CLRG";
    let mut before = "";
    for id in &CHAIN {
        add_set(repository, alloc, id, text, before)?;
        text = "";
        before = id;
    }
    Ok(())
}

fn chain(alloc: Global) -> Result<Repository, Fail> {
    let mut repository = Repository::new(alloc);
    fill(alloc, &mut repository)?;
    Ok(repository)
}

#[test]
fn a_text_comes_through_sixteen_traces(rt: HostRuntime) -> Result<(), Fail> {
    let repository = chain(rt.alloc())?;
    check_texts(&rt, &repository);
    let mut texts = CodeTexts::new(rt.alloc(), &repository);
    check_found(&rt, &mut texts, &repository)?;
    Ok(())
}

fn check_texts(rt: &impl Abort, repository: &Repository) {
    for place in 0..CHAIN.len() {
        let text = code_text(repository, place, 0);
        assert_eq!(rt; text.is_some(), place <= 16, "at {place}");
    }
    assert!(rt; code_text(repository, 16, 0) == Some(b"CLRG".as_slice()));
    assert!(rt; code_text(repository, 0, 1).is_none());
}

// The same texts, found by one who remembers the others.
fn check_found(
    rt: &impl Abort,
    texts: &mut CodeTexts<'_>,
    repository: &Repository,
) -> Result<(), AllocError> {
    for place in 0..CHAIN.len() {
        let text = texts.text(place, 0)?;
        assert_eq!(rt; text, code_text(repository, place, 0), "at {place}");
    }
    Ok(())
}
