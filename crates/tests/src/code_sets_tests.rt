//! What no contract says: that there is memory for codes, and how records read that other programs write.
ghost use Rattle.std.specs.Prelude.{◌<◌, IfOk, All};
ghost use Rattle.repo_objects.specs.Objects.{HasCodeTexts, HasObjectTexts};
ghost use Rattle.code_sets.specs.CodesErrors.{AreCodes};

use crate::made::{object_of, text_of};
use code_sets::{CodeLists, CodesError, join, pull_codes, read_codes};
use lexical_core::Text;
use outside::MemSource;
use repo_objects::{CodeDef, CodeDefs, Kinds, Object, ObjectKind, Repository};
use std::alloc::Global;
use std::test::Fail;

// Bytes, and the set and the code of their last record.
static RECORDS: [(&[u8], &str, &str); 8] = [
    (b"Own,A\r\nOther,B\r\n", "Other", "B"),
    (b"\"Own, too\",\"A\nB\"\n", "Own, too", "A\nB"),
    (b"Own,\"A\"\"B\"\n", "Own", "A\"B"),
    (b"Own,\"A\"x\n", "Own", "Ax"),
    (b"Own,A\"B\n", "Own", "A\"B"),
    (b"Own,\"A", "Own", "A"),
    (b" Own, A \n", " Own", " A "),
    (b",A\n", "", "A"),
];

// Bytes, the rule that one of their records breaks, and its number.
static FAULTS: [(&[u8], u8, u64); 4] = [
    (b"Own,A\n\nOwn,B,\n", 1, 2),
    (b"\xFF,A,B\n", 1, 1),
    (b"Own,A\nOwn,\xED\xA0\x80\n", 2, 2),
    (b"Own,A\nOwn,B\nOwn,\xEF\xBF\xBE\n", 3, 3),
];

fn has_last(alloc: Global, bytes: &[u8], set: &str, code: &str) -> bool {
    let Ok(lists) = read_codes(alloc, bytes) else {
        return false;
    };
    match lists.as_slice().last() {
        Some(last) => last.set.bytes() == set.as_bytes() && last.code.bytes() == code.as_bytes(),
        None => false,
    }
}

#[test]
fn records_are_read(rt: HostRuntime) {
    for (bytes, set, code) in &RECORDS {
        assert!(rt; has_last(rt.alloc(), bytes, set, code));
    }
}

#[test]
fn faults_of_records_are_told(rt: HostRuntime) {
    for (bytes, rule, number) in &FAULTS {
        let fault = CodesError::Refused {
            rule: *rule,
            number: *number,
        };
        assert!(rt; read_codes(rt.alloc(), bytes).err() == Some(fault));
    }
}

fn one_code(alloc: Global, name: &str) -> Result<CodeDefs, Fail>
    ensures { IfOk result (λ defs. All HasCodeTexts defs) }
{
    let mut defs = CodeDefs::new(alloc);
    let name = text_of(alloc, name)?;
    defs.push(CodeDef { name, code: None })?;
    Ok(defs)
}

fn add(repository: &mut Repository, alloc: Global, id: &str, object: Object) -> Result<(), Fail>
    requires { HasObjectTexts object }
{
    let id = text_of(alloc, id)?;
    repository.add_object(id, object)?;
    Ok(())
}

// A code set of that name that has a code.
fn full_set(alloc: Global, name: &str) -> Result<Object, Fail>
    ensures { IfOk result HasObjectTexts }
{
    let mut full = object_of(alloc, name, ObjectKind::Simple(Kinds::CodeSet))?;
    full.codes = one_code(alloc, "X")?;
    Ok(full)
}

// A code set `Own` that takes codes, one more, a text of that name, and a code set `Full` that has a code.
fn repository_of(alloc: Global) -> Result<Repository, Fail> {
    let mut repository = Repository::new(alloc);
    fill(alloc, &mut repository)?;
    Ok(repository)
}

fn fill(alloc: Global, repository: &mut Repository) -> Result<(), Fail> {
    let set = ObjectKind::Simple(Kinds::CodeSet);
    let text = ObjectKind::Simple(Kinds::Text);
    for (id, kind) in [("_o", set), ("_p", set), ("_t", text)] {
        add(repository, alloc, id, object_of(alloc, "Own", kind)?)?;
    }
    add(repository, alloc, "_f", full_set(alloc, "Full")?)
}

// Each code of each object, with a blank behind it, and a line end behind each object.
fn codes_in(alloc: Global, repository: &Repository) -> Result<Text, Fail> {
    let mut text = Text::new(alloc);
    for at in 0..repository.object_count() {
        if let Some((_, object)) = repository.object_at(at) {
            push_codes(&mut text, object)?;
        }
        text.extend(b"\n")?;
    }
    Ok(text)
}

fn push_codes(text: &mut Text, object: &Object) -> Result<(), Fail> {
    for code in object.codes.as_slice() {
        text.extend(code.name.bytes())?;
        text.extend(b" ")?;
    }
    Ok(())
}

// The codes that the bytes make of the repository, or their fault; the bytes come in pieces.
fn joined_codes(alloc: Global, bytes: &[u8], piece: usize) -> Result<Result<Text, CodesError>, Fail>
    requires { 0 < piece }
{
    let mut source = MemSource::new(alloc, bytes, piece, &[])?;
    match pull_codes(alloc, &mut source) {
        Ok(lists) => codes_with(alloc, &lists),
        Err(error) => Ok(Err(error)),
    }
}

fn codes_with(alloc: Global, lists: &CodeLists) -> Result<Result<Text, CodesError>, Fail>
    requires { AreCodes lists.now }
{
    match join(alloc, repository_of(alloc)?, lists) {
        Ok(repository) => codes_told(alloc, &repository),
        Err(error) => Ok(Err(error)),
    }
}

fn codes_told(alloc: Global, repository: &Repository) -> Result<Result<Text, CodesError>, Fail> {
    Ok(Ok(codes_in(alloc, repository)?))
}

// Whether the codes are these; none where the bytes have a fault.
fn has_codes(alloc: Global, bytes: &[u8], piece: usize, codes: Option<&str>) -> Result<bool, Fail>
    requires { 0 < piece }
{
    match (joined_codes(alloc, bytes, piece)?, codes) {
        (Ok(text), Some(codes)) => Ok(text.bytes() == codes.as_bytes()),
        (Err(_), None) => Ok(true),
        _ => Ok(false),
    }
}

#[test]
fn codes_are_joined(rt: HostRuntime) -> Result<(), Fail> {
    let codes = Some("B A \nB A \n\nX \n");
    for piece in 1..8 {
        assert!(rt; has_codes(rt.alloc(), b"Own,B\nOwn,A\nOwn,B\n", piece, codes)?);
        assert!(rt; has_codes(rt.alloc(), b"Own,A\nFull,X\n", piece, None)?);
    }
    Ok(())
}

#[test]
fn failed_reads_are_told(rt: HostRuntime) -> Result<(), Fail> {
    for call in 0..4 {
        let mut source = MemSource::new(rt.alloc(), b"Own,A\n", 2, &[call])?;
        let told = pull_codes(rt.alloc(), &mut source);
        assert!(rt; told.err() == Some(CodesError::ReadFault));
    }
    Ok(())
}
