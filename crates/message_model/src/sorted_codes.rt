//! The codes of a code set, in the order of their bytes.
ghost use Rattle.std.specs.Prelude.{◌≡◌, ℕ, List, Some, OnOk, IfOk, slice_get};
ghost use Rattle.std.specs.Option.{option_map, option_to_list};
ghost use Rattle.std.specs.List.{fold};
ghost use Rattle.message_model.specs.SimpleTypes.{put_text, sorted_texts, texts_of};
ghost use Rattle.message_model.specs.inner.Sorted.{texts_in};

use facets::Codes;
use lexical_core::Text;
use reference_check::CodeTexts;
use repo_objects::Object;
use std::alloc::{AllocError, Global};
use std::collections::BTreeSet;

/// The texts of the codes of the set at that place, sorted.
pub(crate) fn sorted_codes(
    alloc: Global,
    texts: &mut CodeTexts<'_>,
    at: usize,
    object: &Object,
) -> Result<Codes, AllocError>
    requires { (id : List ℕ) × (slice_get texts.old.objects at ≡ Some (record { id = id; object = object.now })) }
    ensures stays { texts.new ≡ texts.old }
    ensures codes { IfOk result (λ codes. codes ≡ sorted_texts (texts_of texts.old.objects object.now object.now.codes)) }
{
    codes_in(alloc, gathered(alloc, texts, at, object)?)
}

/// The texts of the codes, each once.
fn gathered(
    alloc: Global,
    texts: &mut CodeTexts<'_>,
    at: usize,
    object: &Object,
) -> Result<BTreeSet<Vec<u8>>, AllocError>
    requires { (id : List ℕ) × (slice_get texts.old.objects at ≡ Some (record { id = id; object = object.now })) }
    ensures stays { texts.new ≡ texts.old }
    ensures sorted { IfOk result (λ sorted. texts_in sorted ≡ sorted_texts (texts_of texts.old.objects object.now object.now.codes)) }
{
    let mut sorted = BTreeSet::new(alloc);
    for code in 0..object.codes.len() {
        put_if_any(alloc, &mut sorted, texts.text(at, code)?)?;
    }
    Ok(sorted)
}

/// Adds a text, where there is one.
fn put_if_any(
    alloc: Global,
    texts: &mut BTreeSet<Vec<u8>>,
    text: Option<&[u8]>,
) -> Result<(), AllocError>
    ensures { OnOk result (texts_in texts.new ≡ fold put_text (texts_in texts.old) (option_to_list (option_map (λ t. t.now) text.entry))) }
{
    match text {
        Some(text) => put(alloc, texts, text),
        None => Ok(()),
    }
}

/// Adds a text, where it is not there.
fn put(alloc: Global, texts: &mut BTreeSet<Vec<u8>>, text: &[u8]) -> Result<(), AllocError>
    ensures { OnOk result (texts_in texts.new ≡ put_text (texts_in texts.old) text.now) }
{
    let copy = Vec::from_slice(alloc, text)?;
    texts.insert(copy)?;
    Ok(())
}

/// The texts as codes.
fn codes_in(alloc: Global, texts: BTreeSet<Vec<u8>>) -> Result<Codes, AllocError>
    ensures { IfOk result (λ codes. codes ≡ texts_in texts) }
{
    let mut codes = Codes::new(alloc);
    for text in texts {
        codes.push(Text::from_vec(text))?;
    }
    Ok(codes)
}
