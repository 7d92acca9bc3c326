//! The types of a message, one after another.
ghost use Rattle.std.specs.Prelude.{◌≡◌, ℕ, List, [], ◌∷◌, Some, IfOk, map, slice_get};
ghost use Rattle.repo_objects.specs.Repository.{Contents, IsRepository};
ghost use Rattle.repo_objects.specs.declared.objects.ObjectKind.TheVariants.{Other};
ghost use Rattle.repo_objects.specs.Objects.{IsXmlTextIfAny};
ghost use Rattle.reference_check.specs.Graph.{document, message, entry, find_entry, find_message};
ghost use Rattle.reference_check.specs.Reached.{HasReach};
ghost use Rattle.reference_check.specs.Forms.{form_slots};
ghost use Rattle.message_model.specs.Views.{type_entry, layout_form, slots_view};
ghost use Rattle.message_model.specs.FacetRules.{HasBadFacets};
ghost use Rattle.message_model.specs.Ready.{IsReady};
ghost use Rattle.message_model.specs.Compiled.{places_of};
ghost use Rattle.message_model.specs.inner.Numbers.{AreNumbers, IsCompilable, AreCompilable, IsTypeOf, AreTypesOf, NamePlaces, ids_at};

use crate::layouts::layout_of;
use crate::model::{Layout, TypeInfo};
use crate::numbers::number_places;
use crate::slot_list::{NOT_NOTED, SlotInfo, Slots};
use crate::slots::slots_of;
use crate::tag_order::TagOrder;
use lexical_core::Text;
use reference_check::{CodeTexts, Reach};
use repo_objects::{MessageDef, Object, Repository};
use std::alloc::{AllocError, Global};

/// The number of the message's type.
const MESSAGE: u32 = 1;

/// The text of these bytes.
fn text_of(alloc: Global, bytes: &[u8]) -> Result<Text, AllocError>
    ensures { IfOk result (λ t. t ≡ bytes.now) }
{
    let mut text = Text::new(alloc);
    text.extend(bytes)?;
    Ok(text)
}

/// The type of `Document`, whose only element is the message.
fn document_type(alloc: Global, definition: &MessageDef) -> Result<TypeInfo, AllocError>
    ensures { (R : Contents) (m : List ℕ) (places : List ℕ) → find_message m R.messages ≡ Some definition.now → IfOk result (λ t. IsTypeOf R m places document (type_entry t)) }
{
    let mut slots = Vec::new(alloc);
    slots.push(SlotInfo {
        tag: definition.tag.copy(alloc)?,
        min: 1,
        max: Some(1),
        target: MESSAGE,
        ahead: NOT_NOTED,
    })?;
    let slots = Slots::new(slots);
    Ok(TypeInfo {
        word: text_of(alloc, b"Document")?,
        name: text_of(alloc, b"Document")?,
        order: TagOrder::new(alloc, slots.as_slice())?,
        layout: Layout::Sequence(slots),
    })
}

/// The type of the message.
fn message_type(
    alloc: Global,
    repository: &Repository,
    numbers: &[u32],
    definition: &MessageDef,
) -> Result<TypeInfo, AllocError>
    ensures { (m : List ℕ) (places : List ℕ) → find_message m repository.now.messages ≡ Some definition.now → AreNumbers places numbers.now
        → NamePlaces repository.now.objects places definition.now.blocks → IfOk result (λ t. IsTypeOf repository.now m places message (type_entry t)) }
{
    let slots = slots_of(alloc, repository, numbers, definition.blocks.as_slice())?;
    Ok(TypeInfo {
        word: text_of(alloc, b"Message")?,
        name: definition.name.copy(alloc)?,
        order: TagOrder::new(alloc, slots.as_slice())?,
        layout: Layout::Sequence(slots),
    })
}

/// The type of the object at that place.
fn object_type(
    alloc: Global,
    repository: &Repository,
    texts: &mut CodeTexts<'_>,
    numbers: &[u32],
    at: usize,
    object: &Object,
) -> Result<TypeInfo, AllocError>
    requires same { texts.old ≡ repository.now }
    requires object { (id : List ℕ) × (slice_get repository.now.objects at ≡ Some (record { id = id; object = object.now })) }
    requires facets { HasBadFacets object.now → ⊥ }
    requires text { IsXmlTextIfAny object.now.facets.pattern }
    requires kind { object.now.kind ≡ Other → ⊥ }
    ensures stays { texts.new ≡ texts.old }
    ensures typed { (m id : List ℕ) (places : List ℕ) → find_entry id repository.now.objects ≡ Some object.now → AreNumbers places numbers.now
        → IsCompilable repository.now places object.now → IfOk result (λ t. IsTypeOf repository.now m places (entry id) (type_entry t)) }
{
    let layout = layout_of(alloc, repository, texts, numbers, at, object)?;
    Ok(TypeInfo {
        word: object.word.copy(alloc)?,
        name: object.name.copy(alloc)?,
        order: TagOrder::new(alloc, slots_in(&layout))?,
        layout,
    })
}

/// The slots of a layout.
fn slots_in(layout: &Layout) -> &[SlotInfo]
    ensures { slots_view result.now ≡ form_slots (layout_form layout.now) }
{
    match layout {
        Layout::Sequence(slots) => slots.as_slice(),
        Layout::Choice(slots) => slots.as_slice(),
        _ => &[],
    }
}

/// The types of the objects at these places, behind those of `Document` and the message.
fn with_objects(
    alloc: Global,
    repository: &Repository,
    numbers: &[u32],
    places: &[usize],
    mut types: Vec<TypeInfo>,
) -> Result<Vec<TypeInfo>, AllocError>
    requires { AreCompilable repository.now places.now }
    ensures { (m : List ℕ) → AreNumbers places.now numbers.now
        → AreTypesOf repository.now m places.now (document ∷ (message ∷ [])) (map type_entry types.items)
        → IfOk result (λ ts. AreTypesOf repository.now m places.now (places_of (ids_at repository.now.objects places.now)) (map type_entry ts.items)) }
{
    let mut texts = CodeTexts::new(alloc, repository);
    for place in places {
        let Some((_, object)) = repository.object_at(*place) else {
            unreachable!();
        };
        types.push(object_type(alloc, repository, &mut texts, numbers, *place, object)?)?;
    }
    Ok(types)
}

/// All types of a message that breaks no rule.
pub(crate) fn all_types(
    alloc: Global,
    repository: &Repository,
    reach: &Reach,
) -> Result<Vec<TypeInfo>, AllocError>
    requires { (m : List ℕ) × HasReach repository.now m reach.now × IsReady repository.now m }
    ensures whole { IsRepository repository.now }
    ensures types { (m : List ℕ) → HasReach repository.now m reach.now → IsReady repository.now m
        → IfOk result (λ ts. AreTypesOf repository.now m reach.now.objects (places_of (ids_at repository.now.objects reach.now.objects)) (map type_entry ts.items)) }
{
    let Some(definition) = repository.message_at(reach.message) else {
        unreachable!();
    };
    let places = reach.objects.as_slice();
    let numbers = number_places(alloc, repository.object_count(), places)?;
    let mut types = Vec::with_capacity(alloc, places.len() + 2)?;
    types.push(document_type(alloc, definition)?)?;
    types.push(message_type(alloc, repository, &numbers, definition)?)?;
    with_objects(alloc, repository, numbers.as_slice(), places, types)
}
