//! The lines of the facets of a step.
ghost use Rattle.std.specs.Prelude.{◌+◌, ◌∷◌, [], codes, flat_map};
ghost use Rattle.outside.specs.Pushes.{Pushes};
ghost use Rattle.xsd_model.specs.SchemaText.{facet_text, facets_text, line, value_facet};
ghost use Rattle.xsd_writer.specs.inner.FacetLines.{facet_lines};
ghost use Rattle.xsd_writer.specs.inner.Segments.{segment_text, step_level};

use crate::segment::Segment;
use facets::{Bound, Codes, Step, Texts};
use outside::{Render, Sink, SinkError, push_bytes, render_all};

/// What a step says of one facet, and the facet's name.
#[derive(Clone, Copy)]
pub enum Facet<'a> {
    /// How many digits there may be.
    Digits(&'a [u8], Option<u8>),
    /// How long a value may be.
    Length(&'a [u8], Option<u64>),
    /// How low or high a value may be, with a name for a strict bound and one for another.
    Bound {
        strict: &'a [u8],
        word: &'a [u8],
        bound: Option<Bound>,
    },
    /// The only values that there may be.
    Codes(&'a Codes),
    /// The patterns, of which a value matches one.
    Patterns(&'a Texts),
}

/// Pushes the facets of a step inside so many others.
pub fn push_facets<O: Sink>(step: &Step, steps: usize, sink: &mut O) -> Result<(), SinkError>
    ensures { Pushes O.held O.faults O.room sink.old sink.new result (facets_text (step_level steps + 1) step.now) }
{
    let facets = [
        Facet::Digits(b"totalDigits", step.total),
        Facet::Digits(b"fractionDigits", step.fraction),
        Facet::Bound {
            strict: b"minExclusive",
            word: b"minInclusive",
            bound: step.low,
        },
        Facet::Bound {
            strict: b"maxExclusive",
            word: b"maxInclusive",
            bound: step.high,
        },
        Facet::Length(b"minLength", step.min),
        Facet::Length(b"maxLength", step.max),
        Facet::Codes(&step.codes),
        Facet::Patterns(&step.patterns),
    ];
    push_each(facets.as_slice(), steps, sink)
}

/// Pushes the lines of facets, one after the other.
fn push_each<O: Sink>(facets: &[Facet<'_>], steps: usize, sink: &mut O) -> Result<(), SinkError>
    ensures { Pushes O.held O.faults O.room sink.old sink.new result (flat_map (facet_lines (step_level steps + 1)) facets.now) }
{
    for facet in facets {
        if let Err(error) = push_facet(facet, steps, sink) {
            return Err(error);
        }
    }
    Ok(())
}

/// Pushes the lines of a facet.
fn push_facet<O: Sink>(facet: &Facet<'_>, steps: usize, sink: &mut O) -> Result<(), SinkError>
    ensures { Pushes O.held O.faults O.room sink.old sink.new result (facet_lines (step_level steps + 1) facet.now) }
{
    match facet {
        Facet::Digits(word, Some(number)) => {
            push_line(word, &Segment::Number(u64::from(*number)), steps, sink)
        }
        Facet::Length(word, Some(number)) => {
            push_line(word, &Segment::Number(*number), steps, sink)
        }
        Facet::Bound {
            strict,
            word,
            bound: Some(bound),
        } => {
            let word = if bound.strict { strict } else { word };
            push_line(word, &Segment::Decimal(bound.value), steps, sink)
        }
        Facet::Codes(codes) => push_codes(codes, steps, sink),
        Facet::Patterns(patterns) => push_patterns(patterns, steps, sink),
        _ => Ok(()),
    }
}

/// Pushes the lines of codes.
fn push_codes<O: Sink>(values: &Codes, steps: usize, sink: &mut O) -> Result<(), SinkError>
    ensures { Pushes O.held O.faults O.room sink.old sink.new result
        (flat_map (value_facet (step_level steps + 1) (codes "enumeration")) values.now) }
{
    for at in 0..values.len() {
        let Some(value) = values.get(at) else {
            return Ok(());
        };
        if let Err(error) = push_line(b"enumeration", &Segment::Value(value.bytes()), steps, sink) {
            return Err(error);
        }
    }
    Ok(())
}

/// Pushes the lines of patterns.
fn push_patterns<O: Sink>(values: &Texts, steps: usize, sink: &mut O) -> Result<(), SinkError>
    ensures { Pushes O.held O.faults O.room sink.old sink.new result
        (flat_map (value_facet (step_level steps + 1) (codes "pattern")) values.now) }
{
    for value in values.as_slice() {
        if let Err(error) = push_line(b"pattern", &Segment::Value(value.bytes()), steps, sink) {
            return Err(error);
        }
    }
    Ok(())
}

/// Pushes the line of a facet by its name and its value.
fn push_line<O: Sink>(
    word: &[u8],
    value: &Segment<'_>,
    steps: usize,
    sink: &mut O,
) -> Result<(), SinkError>
    ensures { Pushes O.held O.faults O.room sink.old sink.new result (facet_text (step_level steps + 1) word.now (segment_text value.now)) }
{
    if let Err(error) = push_start(word, steps, sink) {
        return Err(error);
    }
    if let Err(error) = value.render(sink) {
        return Err(error);
    }
    push_bytes(b"\"/>\n", sink)
}

/// Pushes what stands before the value of a facet.
fn push_start<O: Sink>(word: &[u8], steps: usize, sink: &mut O) -> Result<(), SinkError>
    ensures { Pushes O.held O.faults O.room sink.old sink.new result
        (line (step_level steps + 1) (codes "<xs:" ∷ word.now ∷ codes " value=\"" ∷ [])) }
{
    let segments = [
        Segment::Inside { steps, more: 1 },
        Segment::Bytes(b"<xs:"),
        Segment::Bytes(word),
        Segment::Bytes(b" value=\""),
    ];
    render_all(segments.as_slice(), sink)
}
