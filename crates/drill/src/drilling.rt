//! A drill.
ghost use Rattle.std.specs.Prelude.{◌≤◌, IfOk};
ghost use Rattle.drill.specs.Drilled.{IsDrilled};
ghost use Rattle.drill.specs.Growing.{most_beside};

use crate::comparing::compare_both;
use crate::compiled::compiled;
use crate::growing::grow;
use crate::laws;
use crate::writing::write_both;
use std::alloc::{AllocError, Global};

/// What a drill tells of its instance. Lengths are in bytes.
#[derive(Clone, Copy, Debug, PartialEq, Eq)]
pub struct Drilled {
    /// How many nodes it has.
    pub nodes: u32,
    /// How many of them are one in the other.
    pub depth: u32,
    /// The length of its canonical XML.
    pub xml: u64,
    /// The length of its DER.
    pub der: u64,
}

/// Makes the instance of two numbers, with `size` nodes beside the first, at most 1,000,000; writes it as canonical XML
/// (the escapes of Canonical XML 1.0) and as DER (X.690); brings each into the other form, and compares what comes with what
/// was written.
pub fn drill(alloc: Global, number: u64, size: u32) -> Result<Drilled, AllocError>
    requires { size ≤ most_beside }
    ensures { IfOk result (λ d. IsDrilled number size d) }
{
    laws::the_message_is_compiled();
    laws::instances_are_admitted();
    laws::their_xml_is_readable();
    laws::their_der_is_readable();
    xml_writer::laws::canonical_xml_of_a_message_spells_its_value();
    let model = compiled(alloc)?;
    let grown = grow(alloc, number, size)?;
    let depth = grown.depth;
    let written = write_both(alloc, &model, grown.instance)?;
    compare_both(alloc, &model, written.xml.bytes(), written.der.bytes())?;
    Ok(Drilled {
        nodes: size + 1,
        depth,
        xml: written.xml.bytes().len() as u64,
        der: written.der.bytes().len() as u64,
    })
}
