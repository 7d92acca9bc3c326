//! The attributes of an event as slices, as those of a tag that is taken whole, and their values by their names.
ghost use Rattle.std.specs.Prelude.{◌≡◌, IfOk, map};
ghost use Rattle.std.specs.Option.{option_copied};
ghost use Rattle.lexical_core.specs.Names.{attribute_value, same_name};
ghost use Rattle.markup.specs.TagAttributes.{tag_entry};
ghost use Rattle.markup.specs.EventItems.{entry_of};

use crate::attributes::TagAttribute;
use crate::event::Attr;
use crate::origin::Origin;
use lexical_core::are_same;
use std::alloc::{AllocError, Global};

/// The attributes of an event, in their order.
pub fn tag_attributes<'a>(
    attrs: &'a [Attr],
    alloc: Global,
) -> Result<Vec<TagAttribute<'a>>, AllocError>
    ensures { IfOk result (λ attributes. map tag_entry attributes.items ≡ map entry_of attrs.now) }
{
    let mut attributes = Vec::with_capacity(alloc, attrs.len())?;
    for attr in attrs {
        attributes.push(TagAttribute {
            ns: attr.ns.share()?,
            origin: Origin::Nothing,
            prefix: b"",
            name: attr.local.bytes(),
            value: attr.value.bytes(),
        })?;
    }
    Ok(attributes)
}

/// Whether the attribute has this name.
fn has_name(attribute: &TagAttribute<'_>, ns: &[u8], local: &[u8]) -> bool
    ensures { result ≡ same_name (tag_entry attribute.now).name (record { namespace = ns.now; local = local.now }) }
{
    are_same(attribute.name, local) && are_same(attribute.ns.bytes(), ns)
}

/// The value of the attribute of this name.
#[tactic(auto, using(crate::proofs::NamedValues::value_rest, crate::proofs::NamedValues::value_end))]
pub fn value_of<'a>(attributes: &[TagAttribute<'a>], ns: &[u8], local: &[u8]) -> Option<&'a [u8]>
    ensures { option_copied result ≡ attribute_value (record { namespace = ns.now; local = local.now }) (map tag_entry attributes.now) }
{
    for attribute in attributes {
        if has_name(attribute, ns, local) {
            return Some(attribute.value);
        }
    }
    None
}
