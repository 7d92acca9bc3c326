//! The codes that are given to each code set, while they are joined.
ghost use Rattle.std.specs.Prelude.{◌≡◌, [], List, ℕ, IfOk, OnOk, map, if◌then◌else◌};
ghost use Rattle.std.specs.List.{list_any};
ghost use Rattle.std.specs.Str.{bytes_eq};
ghost use Rattle.code_sets.specs.Codes.{code_of, codes_for, once};
ghost use Rattle.code_sets.specs.inner.Given.{key_texts, with_text, codes_in, HasName};

use crate::record::CodeLists;
use indexmap::IndexSet;
use lexical_core::Text;
use repo_objects::{CodeDef, CodeDefs};
use std::alloc::{AllocError, Global};
use std::collections::BTreeMap;

/// Texts, each once, in the order in which they came.
pub(crate) type Texts = IndexSet<Vec<u8>>;

/// The codes that are given to the code sets of each name.
pub(crate) type GivenCodes = BTreeMap<Vec<u8>, Texts>;

/// A text in memory of its own.
pub(crate) fn text_of(alloc: Global, bytes: &[u8]) -> Result<Text, AllocError>
    ensures { IfOk result (λ t. t ≡ bytes.now) }
{
    Ok(Text::from_vec(Vec::from_slice(alloc, bytes)?))
}

/// Whether the text is one of them.
pub(crate) fn has_text(texts: &Texts, text: &[u8]) -> bool
    ensures { result ≡ list_any (bytes_eq text.now) (key_texts texts.now.keys) }
{
    texts.contains(text)
}

/// Puts the text behind the others, unless it is one of them.
pub(crate) fn add_text(alloc: Global, texts: &mut Texts, text: &[u8]) -> Result<(), AllocError>
    ensures { OnOk result (key_texts texts.new.keys ≡ with_text (key_texts texts.old.keys) text.now) }
{
    texts.insert(Vec::from_slice(alloc, text)?)?;
    Ok(())
}

/// Makes room for the codes of a code set of this name.
fn add_set(alloc: Global, given: &mut GivenCodes, name: &[u8]) -> Result<(), AllocError>
    ensures there { OnOk result (HasName given.new name.now) }
    ensures same { OnOk result ((q : List ℕ) → codes_in given.new q ≡ codes_in given.old q) }
{
    if !given.contains_key(name) {
        let key = Vec::from_slice(alloc, name)?;
        given.insert(key, Texts::new(alloc))?;
    }
    Ok(())
}

/// Gives a code to the code sets of a name that has room.
fn add_code(
    alloc: Global,
    given: &mut GivenCodes,
    name: &[u8],
    code: &[u8],
) -> Result<(), AllocError>
    ensures { HasName given.old name.now → OnOk result ((q : List ℕ) →
        codes_in given.new q ≡ (if bytes_eq name.now q then with_text (codes_in given.old name.now) code.now else codes_in given.old q)) }
{
    match given.get_mut(name) {
        Some(texts) => add_text(alloc, texts, code),
        None => Ok(()),
    }
}

/// The codes of all the records, by the names of their code sets.
pub(crate) fn given_codes(alloc: Global, lists: &CodeLists) -> Result<GivenCodes, AllocError>
    ensures { IfOk result (λ given. (name : List ℕ) → codes_in given name ≡ once [] (codes_for name lists.now)) }
{
    let mut given = GivenCodes::new(alloc);
    for record in lists.as_slice() {
        add_set(alloc, &mut given, record.set.bytes())?;
        add_code(alloc, &mut given, record.set.bytes(), record.code.bytes())?;
    }
    Ok(given)
}

/// A code with its name as its text.
fn code_def(alloc: Global, code: &[u8]) -> Result<CodeDef, AllocError>
    ensures { IfOk result (λ d. d ≡ code_of code.now) }
{
    Ok(CodeDef {
        name: text_of(alloc, code)?,
        code: Some(text_of(alloc, code)?),
    })
}

/// The codes of these texts.
fn defs_of(alloc: Global, texts: &Texts) -> Result<CodeDefs, AllocError>
    ensures { IfOk result (λ ds. ds ≡ map code_of (key_texts texts.now.keys)) }
{
    let mut defs = CodeDefs::new(alloc);
    for text in texts.as_slice() {
        defs.push(code_def(alloc, text)?)?;
    }
    Ok(defs)
}

/// The codes that are given to a code set of this name.
pub(crate) fn defs_for(
    alloc: Global,
    given: &GivenCodes,
    name: &[u8],
) -> Result<CodeDefs, AllocError>
    ensures { IfOk result (λ ds. ds ≡ map code_of (codes_in given.now name.now)) }
{
    match given.get(name) {
        Some(texts) => defs_of(alloc, texts),
        None => Ok(CodeDefs::new(alloc)),
    }
}
