//! `part_in`: which `Part` an element is, by its name and the part round it.
ghost use Rattle.std.specs.Prelude.{◌≡◌, List, map};
ghost use Rattle.lexical_core.specs.Tree.{Entry as Attribute};
ghost use Rattle.markup.specs.TagAttributes.{tag_entry};
ghost use Rattle.repo_loader.specs.Selected.{part_in as spec_part_in, part_in_entry as spec_part_in_entry, only as spec_only};

use crate::kinds::{kind_of_word, word_of};
use crate::names::{is_own, is_root};
use crate::part::Part;
use markup::TagAttribute;
use repo_objects::{Kinds, ObjectKind};

/// The part, where the name is this one.
fn only(part: Part, ns: &[u8], local: &[u8], name: &[u8]) -> Part
    ensures { result ≡ spec_only name.now part (record { namespace = ns.now; local = local.now }) }
{
    if is_own(ns, local, name) {
        part
    } else {
        Part::LeftOut
    }
}

/// What stands in an entry of the kind.
fn part_in_entry(kind: ObjectKind, ns: &[u8], local: &[u8]) -> Part
    ensures { result ≡ spec_part_in_entry kind (record { namespace = ns.now; local = local.now }) }
{
    match kind {
        ObjectKind::Component => only(Part::Element, ns, local, b"messageElement"),
        ObjectKind::Choice => only(Part::Alternative, ns, local, b"messageElement"),
        ObjectKind::Simple(kind) => part_in_type(kind, ns, local),
        _ => Part::LeftOut,
    }
}

/// What stands in a data type of the kind.
fn part_in_type(kind: Kinds, ns: &[u8], local: &[u8]) -> Part
    ensures { result ≡ spec_part_in_entry (ObjectKind.Simple kind) (record { namespace = ns.now; local = local.now }) }
{
    match kind {
        Kinds::CodeSet => only(Part::Code, ns, local, b"code"),
        _ => Part::LeftOut,
    }
}

/// What stands in the root.
fn part_in_repository(ns: &[u8], local: &[u8]) -> Part
    ensures { (attributes : List Attribute) → result ≡ spec_part_in Part.Repository (record { namespace = ns.now; local = local.now }) attributes }
{
    if is_own(ns, local, b"dataDictionary") {
        Part::Dictionary
    } else {
        only(Part::Catalogue, ns, local, b"businessProcessCatalogue")
    }
}

/// What stands in a message.
fn part_in_message(ns: &[u8], local: &[u8]) -> Part
    ensures { (attributes : List Attribute) → result ≡ spec_part_in Part.Message (record { namespace = ns.now; local = local.now }) attributes }
{
    if is_own(ns, local, b"messageBuildingBlock") {
        Part::Block
    } else {
        only(Part::Identifier, ns, local, b"messageDefinitionIdentifier")
    }
}

/// What stands in a data dictionary. The kind is asked of an entry alone.
fn part_in_dictionary(ns: &[u8], local: &[u8], attributes: &[TagAttribute<'_>]) -> Part
    ensures { result ≡ spec_part_in Part.Dictionary (record { namespace = ns.now; local = local.now }) (map tag_entry attributes.now) }
{
    if is_own(ns, local, b"topLevelDictionaryEntry") {
        Part::Entry(kind_of_word(word_of(attributes)))
    } else {
        Part::LeftOut
    }
}

/// What an element of this name and with these attributes is, by what it stands in.
pub fn part_in(part: Part, ns: &[u8], local: &[u8], attributes: &[TagAttribute<'_>]) -> Part
    ensures { result ≡ spec_part_in part (record { namespace = ns.now; local = local.now }) (map tag_entry attributes.now) }
{
    match part {
        Part::File => {
            if is_root(ns, local) {
                Part::Repository
            } else {
                Part::OtherRoot
            }
        }
        Part::Repository => part_in_repository(ns, local),
        Part::Dictionary => part_in_dictionary(ns, local, attributes),
        Part::Entry(kind) => part_in_entry(kind, ns, local),
        Part::Catalogue => only(Part::Area, ns, local, b"topLevelCatalogueEntry"),
        Part::Area => only(Part::Message, ns, local, b"messageDefinition"),
        Part::Message => part_in_message(ns, local),
        _ => Part::LeftOut,
    }
}
