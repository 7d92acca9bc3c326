//! Texts and objects that the tests of several libraries make.
ghost use Rattle.std.specs.Prelude.{IfOk};
ghost use Rattle.lexical_core.specs.Characters.{IsXmlText};
ghost use Rattle.repo_objects.specs.Objects.{HasObjectTexts, IsXmlTextIfAny};

use lexical_core::{Text, is_xml_text};
use repo_objects::{CodeDefs, Elements, Object, ObjectKind, RawFacets};
use std::alloc::Global;
use std::test::Fail;

/// The word as a text.
pub fn text_of(alloc: Global, word: &str) -> Result<Text, Fail>
    ensures { IfOk result IsXmlText }
{
    let mut text = Text::new(alloc);
    text.extend(word.as_bytes())?;
    if !is_xml_text(text.bytes()) {
        return Err("no text of XML".into());
    }
    Ok(text)
}

/// The text of the word; none where it is empty.
pub fn text_if_any(alloc: Global, word: &str) -> Result<Option<Text>, Fail>
    ensures { IfOk result IsXmlTextIfAny }
{
    if word.is_empty() {
        return Ok(None);
    }
    Ok(Some(text_of(alloc, word)?))
}

/// An object of that name and kind, of which nothing else is said.
pub fn object_of(alloc: Global, name: &str, kind: ObjectKind) -> Result<Object, Fail>
    ensures { IfOk result HasObjectTexts }
{
    Ok(Object {
        name: text_of(alloc, name)?,
        kind,
        word: Text::new(alloc),
        facets: RawFacets::none(),
        elements: Elements::new(alloc),
        codes: CodeDefs::new(alloc),
        trace: None,
        currency: None,
    })
}
