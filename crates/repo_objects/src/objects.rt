//! What a repository file says of an entry of its data dictionary and of a message.
ghost use Rattle.std.specs.Prelude.{◌≡◌};
ghost use Rattle.repo_objects.specs.Objects.{no_facets};

use lexical_core::{Decimal, Items, Text};

/// The kind of a data type (ISO 20022-1, data types).
#[derive(Clone, Copy, Debug, PartialEq, Eq)]
pub enum Kinds {
    Text,
    CodeSet,
    IdentifierSet,
    Amount,
    Rate,
    Quantity,
    Indicator,
    Binary,
    Date,
    DateTime,
    Time,
    Year,
    YearMonth,
    MonthDay,
    Month,
    Day,
}

/// The kind of an entry of the data dictionary.
#[derive(Clone, Copy, Debug, PartialEq, Eq)]
pub enum ObjectKind {
    /// A data type, whose values have no parts.
    Simple(Kinds),
    /// A message component, whose elements all stand in an instance.
    Component,
    /// A choice component, of whose elements one stands.
    Choice,
    /// An external schema: any element.
    External,
    /// A kind that no message uses here.
    Other,
}

/// The facets of a data type as the file gives them.
#[derive(Debug, Drop)]
pub struct RawFacets {
    /// The least length.
    pub min_length: Option<u32>,
    /// The greatest length.
    pub max_length: Option<u32>,
    /// The length, where it is fixed.
    pub length: Option<u32>,
    /// How many digits a number has at most.
    pub total: Option<u32>,
    /// How many digits stand after its point at most.
    pub fraction: Option<u32>,
    /// The least number.
    pub min_in: Option<Decimal>,
    /// The number that all are above.
    pub min_ex: Option<Decimal>,
    /// The greatest number.
    pub max_in: Option<Decimal>,
    /// The number that all are below.
    pub max_ex: Option<Decimal>,
    /// The pattern of its texts.
    pub pattern: Option<Text>,
}

impl RawFacets {
    /// Facets of which none is given. It takes no memory.
    pub fn none() -> RawFacets
        ensures { result ≡ no_facets }
    {
        RawFacets {
            min_length: None,
            max_length: None,
            length: None,
            total: None,
            fraction: None,
            min_in: None,
            min_ex: None,
            max_in: None,
            max_ex: None,
            pattern: None,
        }
    }
}

/// A code of a code set.
#[derive(Debug, Drop)]
pub struct CodeDef {
    /// Its name.
    pub name: Text,
    /// Its text in an instance; `None` where the set that it is traced to has it.
    pub code: Option<Text>,
}

/// Codes in file order.
pub type CodeDefs = Items<CodeDef>;

/// A building block of a message, or an element of a component.
#[derive(Debug, Drop)]
pub struct ElementDef {
    /// Its name.
    pub name: Text,
    /// The tag that it has in an instance.
    pub tag: Text,
    /// How often it stands at least.
    pub min: u32,
    /// How often it stands at most; `None` for any number.
    pub max: Option<u32>,
    /// The id of its data type, as `simpleType` gives it.
    pub simple: Option<Text>,
    /// The id of its component, as `complexType` gives it.
    pub complex: Option<Text>,
    /// The id of its external schema, as `type` gives it.
    pub plain: Option<Text>,
}

/// Building blocks or elements in file order.
pub type Elements = Items<ElementDef>;

/// An entry of the data dictionary.
#[derive(Debug, Drop)]
pub struct Object {
    /// Its name.
    pub name: Text,
    /// What it is.
    pub kind: ObjectKind,
    /// The word that the file has for what it is.
    pub word: Text,
    /// Its facets.
    pub facets: RawFacets,
    /// Its elements, of a component.
    pub elements: Elements,
    /// Its codes, of a code set.
    pub codes: CodeDefs,
    /// The id of the code set that has the texts of its codes.
    pub trace: Option<Text>,
    /// The id of the set of an amount's currencies.
    pub currency: Option<Text>,
}

/// A message definition.
#[derive(Debug, Drop)]
pub struct MessageDef {
    /// Its identifier as the file gives it, of any form.
    pub id: Text,
    /// Its name.
    pub name: Text,
    /// The tag of its element in an instance.
    pub tag: Text,
    /// Its building blocks.
    pub blocks: Elements,
}
