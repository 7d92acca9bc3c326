//! A step of the derivation of a simple type, as a schema writes it.
ghost use Rattle.std.specs.Prelude.{◌≡◌};
ghost use Rattle.facets.specs.Steps.{plain_step, least_written};

use crate::codes::Codes;
use crate::simple::Bound;
use data_types::Kind;
use lexical_core::{Items, Text};
use std::alloc::Global;

/// A list of texts.
pub type Texts = Items<Text>;

/// A restriction, as a schema writes it: the base that it begins with, where it begins with one of the standard,
/// and its facets (XML Schema part 2 §4.1.2). Patterns of one step are alternatives (§4.3.4.3).
#[derive(Drop)]
pub struct Step {
    pub base: Option<Kind>,
    pub total: Option<u8>,
    pub fraction: Option<u8>,
    pub low: Option<Bound>,
    pub high: Option<Bound>,
    pub min: Option<u64>,
    pub max: Option<u64>,
    pub codes: Codes,
    pub patterns: Texts,
}

/// A step without facets. It takes no memory.
pub fn plain_step(alloc: Global, base: Option<Kind>) -> Step
    ensures { result ≡ plain_step base }
{
    Step {
        base,
        total: None,
        fraction: None,
        low: None,
        high: None,
        min: None,
        max: None,
        codes: Codes::new(alloc),
        patterns: Items::new(alloc),
    }
}

/// A least length as it is written, which is only above 0.
pub fn least_written(least: u64) -> Option<u64>
    ensures { result ≡ least_written least }
{
    if least == 0 { None } else { Some(least) }
}
