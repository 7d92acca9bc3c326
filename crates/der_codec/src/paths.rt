//! The path of what is open.
ghost use Rattle.std.specs.Prelude.{◌≡◌, ℕ, List, [], ◌∷◌, ◌++◌, Some, IfOk, OnOk, slice_get, codes};
ghost use Rattle.std.specs.Fmt.{decimal};
ghost use Rattle.facets.specs.declared.simple.Simple.{Simple as SimpleType};
ghost use Rattle.reference_check.specs.Forms.{Graph, form_slots};
ghost use Rattle.message_model.specs.Tables.{types_of};
ghost use Rattle.der_model.specs.States.{PathName, Numbered, AttributeName};
ghost use Rattle.der_model.specs.Paths.{path_text};
ghost use Rattle.der_codec.specs.Components.{added_text, slot_text};
ghost use Rattle.der_codec.specs.inner.OpenNames.{HasNames, slot_names, form_names, alternative_names, item_names, level_names, names_over, document_names, held_text};

use crate::components::Added;
use crate::level::{Level, Spot};
use der_model::comes_once;
use lexical_core::Text;
use message_model::{Form, Model};
use std::alloc::{AllocError, Global};

/// A path that is written name by name. A list is named only where no name follows.
#[derive(Drop)]
pub(crate) struct Path {
    alloc: Global,
    text: Text,
    /// The parent and the number of the list whose name came last.
    list: Option<(u32, u32)>,
}

/// The path of a value that has begun, where these are open round it, the outermost first, with more behind it.
pub(crate) fn path_within(
    alloc: Global,
    model: &Model,
    round: &[Level],
    added: Added,
) -> Result<Text, AllocError>
    ensures { IfOk result (λ t. t ≡ path_text (names_over (types_of model.now) document_names round.now) ++ added_text (types_of model.now) added) }
{
    let mut path = Path::new(alloc)?;
    let mut left = round;
    while let Some((level, behind)) = left.split_first() {
        path.put_level(model, level)?;
        left = behind;
    }
    let mut text = path.finish(model)?;
    put_added(&mut text, model, added)?;
    Ok(text)
}

/// The path where nothing is open, with more behind it.
pub(crate) fn path_outside(alloc: Global, model: &Model, added: Added) -> Result<Text, AllocError>
    ensures { IfOk result (λ t. t ≡ codes "/" ++ added_text (types_of model.now) added) }
{
    let mut text = Text::new(alloc);
    text.extend(b"/")?;
    put_added(&mut text, model, added)?;
    Ok(text)
}

/// Appends what a fault adds to the path.
fn put_added(text: &mut Text, model: &Model, added: Added) -> Result<(), AllocError>
    ensures { OnOk result (text.new ≡ text.old ++ added_text (types_of model.now) added) }
{
    match added {
        Added::Nothing => Ok(()),
        Added::Slot { parent, slot } => put_slot(text, model, parent, slot),
        Added::Currency => text.extend(b"/@Ccy"),
        Added::Any => text.extend(b"/*"),
    }
}

/// Appends a slash and the tag of a slot.
fn put_slot(text: &mut Text, model: &Model, parent: u32, slot: u32) -> Result<(), AllocError>
    ensures { OnOk result (text.new ≡ text.old ++ slot_text (slice_get (form_slots (types_of model.now parent)) slot)) }
{
    let Some(slot) = model.slot(parent, slot) else {
        return Ok(());
    };
    text.extend(b"/")?;
    text.extend(slot.tag)
}

/// Appends a slash and the tag of a list, if there is one.
fn put_held(text: &mut Text, model: &Model, list: Option<(u32, u32)>) -> Result<(), AllocError>
    ensures { OnOk result (text.new ≡ text.old ++ held_text (types_of model.now) list) }
{
    match list {
        None => Ok(()),
        Some((parent, slot)) => put_slot(text, model, parent, slot),
    }
}

/// Appends a slash, the tag and a number in brackets.
fn put_numbered(text: &mut Text, alloc: Global, tag: &[u8], number: u64) -> Result<(), AllocError>
    ensures { OnOk result (text.new ≡ text.old ++ (47 ∷ (tag.now ++ (91 ∷ (decimal number ++ (93 ∷ [])))))) }
{
    let digits = format!(in alloc; "[{number}]")?;
    text.extend(b"/")?;
    text.extend(tag)?;
    text.extend(digits.as_bytes())
}

impl Path {
    /// The path of the outermost value.
    fn new(alloc: Global) -> Result<Path, AllocError>
        ensures { IfOk result (λ path. (types : Graph ℕ SimpleType) → HasNames types path document_names) }
    {
        let mut text = Text::new(alloc);
        put_numbered(&mut text, alloc, b"Document", 1)?;
        Ok(Path {
            alloc,
            text,
            list: None,
        })
    }

    /// Names an element by its tag and number.
    fn put_element(&mut self, tag: &[u8], number: u64) -> Result<(), AllocError>
        ensures { (types : Graph ℕ SimpleType) (names : List PathName) → HasNames types self.old names → OnOk result (HasNames types self.new (names ++ Numbered tag.now number ∷ [])) }
    {
        self.list = None;
        put_numbered(&mut self.text, self.alloc, tag, number)
    }

    /// Names the code of an amount.
    fn put_currency(&mut self) -> Result<(), AllocError>
        ensures { (types : Graph ℕ SimpleType) (names : List PathName) → HasNames types self.old names → OnOk result (HasNames types self.new (names ++ AttributeName (codes "Ccy") ∷ [])) }
    {
        self.list = None;
        self.text.extend(b"/@Ccy")
    }

    /// Names the value of a slot, or its list.
    fn put_slot(&mut self, model: &Model, parent: u32, at: u32) -> Result<(), AllocError>
        ensures { (names : List PathName) → HasNames (types_of model.now) self.old names → OnOk result (HasNames (types_of model.now) self.new (names ++ slot_names (slice_get (form_slots (types_of model.now parent)) at))) }
    {
        let Some(slot) = model.slot(parent, at) else {
            return Ok(());
        };
        if comes_once(slot.max) {
            return self.put_element(slot.tag, 1);
        }
        self.list = Some((parent, at));
        Ok(())
    }

    /// Names a component of a value of the type.
    fn put_component(&mut self, model: &Model, number: u32, at: u32) -> Result<(), AllocError>
        ensures { (names : List PathName) → HasNames (types_of model.now) self.old names → OnOk result (HasNames (types_of model.now) self.new (names ++ form_names (types_of model.now number) at)) }
    {
        match model.form(number) {
            Some(Form::Sequence) => self.put_slot(model, number, at),
            Some(Form::Choice) => self.put_slot(model, number, at),
            Some(Form::Money { code: _, base: _ }) => {
                if at == 0 {
                    return self.put_currency();
                }
                Ok(())
            }
            _ => Ok(()),
        }
    }

    /// Names the alternative where an item of the type is a choice.
    fn put_alternative(&mut self, model: &Model, number: u32, at: u32) -> Result<(), AllocError>
        ensures { (names : List PathName) → HasNames (types_of model.now) self.old names → OnOk result (HasNames (types_of model.now) self.new (names ++ alternative_names (types_of model.now number) at)) }
    {
        match model.form(number) {
            Some(Form::Choice) => self.put_slot(model, number, at),
            _ => Ok(()),
        }
    }

    /// Names an item of a list, the one of this count.
    fn put_item(
        &mut self,
        model: &Model,
        parent: u32,
        slot: u32,
        count: u64,
        at: u32,
    ) -> Result<(), AllocError>
        ensures { (names : List PathName) → HasNames (types_of model.now) self.old names
            → OnOk result (HasNames (types_of model.now) self.new (names ++ item_names (types_of model.now) (slice_get (form_slots (types_of model.now parent)) slot) count at)) }
    {
        let Some(slot) = model.slot(parent, slot) else {
            return Ok(());
        };
        self.put_element(slot.tag, count)?;
        self.put_alternative(model, slot.target, at)
    }

    /// Names what came last in an open value.
    fn put_level(&mut self, model: &Model, level: &Level) -> Result<(), AllocError>
        ensures { (names : List PathName) → HasNames (types_of model.now) self.old names → OnOk result (HasNames (types_of model.now) self.new (names ++ level_names (types_of model.now) level.now)) }
    {
        if level.next == 0 {
            return Ok(());
        }
        let at = level.next - 1;
        match level.spot {
            Spot::Instance => self.put_component(model, 0, at),
            Spot::Value(number) => self.put_component(model, number, at),
            Spot::List { parent, slot } => self.put_item(model, parent, slot, level.count, at),
            Spot::Number(_) => Ok(()),
        }
    }

    /// The whole path, with the list whose name came last.
    fn finish(self, model: &Model) -> Result<Text, AllocError>
        ensures { (names : List PathName) → HasNames (types_of model.now) self names → IfOk result (λ t. t ≡ path_text names) }
    {
        let mut text = self.text;
        put_held(&mut text, model, self.list)?;
        Ok(text)
    }
}
