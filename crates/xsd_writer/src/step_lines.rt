//! The lines of the steps of a simple type: XML Schema part 2 §4.1.2. A step stands inside the one behind it.
ghost use Rattle.std.specs.Prelude.{◌≡◌};
ghost use Rattle.outside.specs.Pushes.{Pushes};
ghost use Rattle.xsd_model.specs.SchemaText.{first_text, has_facets, steps_text};
ghost use Rattle.xsd_writer.specs.inner.NumberedTexts.{texts_below};
ghost use Rattle.xsd_writer.specs.inner.Segments.{step_level};
ghost use Rattle.xsd_writer.specs.inner.StepLines.{closing_lines, closings, inner_end, opening_lines, step_end, step_start};

use crate::facet_lines::push_facets;
use crate::segment::Segment;
use data_types::Kind;
use facets::Step;
use outside::{Sink, SinkError, render_all};
use xsd_model::Steps;

/// Pushes the steps of a simple type.
pub fn push_steps<O: Sink>(steps: &Steps, sink: &mut O) -> Result<(), SinkError>
    ensures { Pushes O.held O.faults O.room sink.old sink.new result (steps_text steps.now) }
{
    let Some((first, later)) = steps.as_slice().split_first() else {
        return Ok(());
    };
    if let Err(error) = push_openings(later.len(), sink) {
        return Err(error);
    }
    if let Err(error) = push_first(first, later.len(), sink) {
        return Err(error);
    }
    push_closings(later, sink)
}

/// Pushes the lines that so many later steps begin with, from the last step on.
fn push_openings<O: Sink>(count: usize, sink: &mut O) -> Result<(), SinkError>
    ensures { Pushes O.held O.faults O.room sink.old sink.new result (texts_below opening_lines count) }
{
    for steps in 0..count {
        if let Err(error) = push_opening(steps, sink) {
            return Err(error);
        }
    }
    Ok(())
}

/// Pushes the lines that a later step begins with, inside so many others.
fn push_opening<O: Sink>(steps: usize, sink: &mut O) -> Result<(), SinkError>
    ensures { Pushes O.held O.faults O.room sink.old sink.new result (opening_lines steps) }
{
    let segments = [
        Segment::Inside { steps, more: 0 },
        Segment::Bytes(b"<xs:restriction>\n"),
        Segment::Inside { steps, more: 1 },
        Segment::Bytes(b"<xs:simpleType>\n"),
    ];
    render_all(segments.as_slice(), sink)
}

/// Pushes the step with the base, inside so many others.
fn push_first<O: Sink>(step: &Step, steps: usize, sink: &mut O) -> Result<(), SinkError>
    ensures { Pushes O.held O.faults O.room sink.old sink.new result (first_text step.now (step_level steps)) }
{
    if !has_facets(step) {
        return push_restriction(step.base, b"/>\n", steps, sink);
    }
    if let Err(error) = push_restriction(step.base, b">\n", steps, sink) {
        return Err(error);
    }
    if let Err(error) = push_facets(step, steps, sink) {
        return Err(error);
    }
    push_end(steps, sink)
}

/// Whether the step has facets.
fn has_facets(step: &Step) -> bool
    ensures { result ≡ has_facets step.now }
{
    step.total.is_some()
        || step.fraction.is_some()
        || step.low.is_some()
        || step.high.is_some()
        || step.min.is_some()
        || step.max.is_some()
        || !step.codes.is_empty()
        || !step.patterns.is_empty()
}

/// Pushes the line that the step with the base begins with.
fn push_restriction<O: Sink>(
    base: Option<Kind>,
    behind: &[u8],
    steps: usize,
    sink: &mut O,
) -> Result<(), SinkError>
    ensures { Pushes O.held O.faults O.room sink.old sink.new result (step_start steps base behind.now) }
{
    let segments = [
        Segment::Inside { steps, more: 0 },
        Segment::Bytes(b"<xs:restriction"),
        Segment::Base(base),
        Segment::Bytes(behind),
    ];
    render_all(segments.as_slice(), sink)
}

/// Pushes the lines that later steps end with, from the first of them on.
fn push_closings<O: Sink>(later: &[Step], sink: &mut O) -> Result<(), SinkError>
    ensures { Pushes O.held O.faults O.room sink.old sink.new result (closings later.now) }
{
    let mut left = later;
    while let Some((step, behind)) = left.split_first() {
        if let Err(error) = push_closing(step, behind.len(), sink) {
            return Err(error);
        }
        left = behind;
    }
    Ok(())
}

/// Pushes the lines that a later step ends with, inside so many others.
fn push_closing<O: Sink>(step: &Step, steps: usize, sink: &mut O) -> Result<(), SinkError>
    ensures { Pushes O.held O.faults O.room sink.old sink.new result (closing_lines steps step.now) }
{
    if let Err(error) = push_inner_end(steps, sink) {
        return Err(error);
    }
    if let Err(error) = push_facets(step, steps, sink) {
        return Err(error);
    }
    push_end(steps, sink)
}

/// Pushes the end of the type that stands in a later step.
fn push_inner_end<O: Sink>(steps: usize, sink: &mut O) -> Result<(), SinkError>
    ensures { Pushes O.held O.faults O.room sink.old sink.new result (inner_end steps) }
{
    let segments = [
        Segment::Inside { steps, more: 1 },
        Segment::Bytes(b"</xs:simpleType>\n"),
    ];
    render_all(segments.as_slice(), sink)
}

/// Pushes the end of a step.
fn push_end<O: Sink>(steps: usize, sink: &mut O) -> Result<(), SinkError>
    ensures { Pushes O.held O.faults O.room sink.old sink.new result (step_end steps) }
{
    let segments = [
        Segment::Inside { steps, more: 0 },
        Segment::Bytes(b"</xs:restriction>\n"),
    ];
    render_all(segments.as_slice(), sink)
}
