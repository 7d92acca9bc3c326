//! Segments of a line, pushed one after the other.
ghost use Rattle.std.specs.Prelude.{◌≡◌, ◌+◌, ◌*◌, true, [], ◌∷◌, codes, replicate};
ghost use Rattle.std.specs.Fmt.{decimal};
ghost use Rattle.std.specs.List.{concat};
ghost use Rattle.lexical_core.specs.Decimals.{decimal_spelling};
ghost use Rattle.lexical_core.specs.CanonicalDecimals.{canonical_parts};
ghost use Rattle.outside.specs.Pushes.{Pushes};
ghost use Rattle.data_types.specs.Escaping.{escaped_bytes};
ghost use Rattle.xsd_model.specs.SchemaText.{base_text, base_word, max_text, min_text};
ghost use Rattle.xsd_writer.specs.inner.NumberedTexts.{texts_below};
ghost use Rattle.xsd_writer.specs.inner.Segments.{segment_text, step_level};

use data_types::{Kind, push_escaped};
use lexical_core::Decimal;
use outside::{Part, Render, Sink, SinkError, push_bytes, push_number, render_all};

/// A segment of a line.
#[derive(Clone, Copy)]
pub enum Segment<'a> {
    /// Bytes as they are.
    Bytes(&'a [u8]),
    /// The value of an attribute.
    Value(&'a [u8]),
    /// A number.
    Number(u64),
    /// A decimal, in its canonical text.
    Decimal(Decimal),
    /// The spaces of a level.
    Indent(u8),
    /// The spaces of a step inside so many others, and of so many levels more.
    Inside { steps: usize, more: u8 },
    /// How often an element comes at least, where it is not once.
    Min(u32),
    /// How often an element comes at most, where it is not once.
    Max(Option<u32>),
    /// The base that a step begins with, where it has one.
    Base(Option<Kind>),
}

impl Render for Segment<'_> {
    ghost use Rattle.xsd_writer.specs.inner.Segments.{segment_text};

    ghost rendered = { segment_text };

    fn render<O: Sink>(&self, sink: &mut O) -> Result<(), SinkError>
        ensures { Pushes O.held O.faults O.room sink.old sink.new result (segment_text self.now) }
    {
        match self {
            Segment::Bytes(bytes) => push_bytes(bytes, sink),
            Segment::Value(bytes) => push_value(bytes, sink),
            Segment::Number(number) => push_number(*number, sink),
            Segment::Decimal(number) => push_decimal(number, sink),
            Segment::Indent(level) => push_indent(*level, sink),
            Segment::Inside { steps, more } => push_inside(*steps, *more, sink),
            Segment::Min(min) => push_min(*min, sink),
            Segment::Max(max) => push_max(*max, sink),
            Segment::Base(base) => push_base(*base, sink),
        }
    }
}

/// Pushes the value of an attribute.
fn push_value<O: Sink>(bytes: &[u8], sink: &mut O) -> Result<(), SinkError>
    ensures { Pushes O.held O.faults O.room sink.old sink.new result (escaped_bytes true bytes.now) }
{
    push_escaped(bytes, true, sink)
}

/// Pushes the canonical text of a decimal.
fn push_decimal<O: Sink>(number: &Decimal, sink: &mut O) -> Result<(), SinkError>
    ensures { Pushes O.held O.faults O.room sink.old sink.new result (decimal_spelling (canonical_parts number.now)) }
{
    let _scale = number.scale();
    let mut buf = [0; 32];
    let length = number.text_into(&mut buf);
    push_bytes(&buf[..length], sink)
}

/// Pushes a text so many times.
fn push_times<O: Sink>(text: &[u8], times: usize, sink: &mut O) -> Result<(), SinkError>
    ensures { Pushes O.held O.faults O.room sink.old sink.new result (texts_below (λ _. text.now) times) }
{
    for _time in 0..times {
        if let Err(error) = push_bytes(text, sink) {
            return Err(error);
        }
    }
    Ok(())
}

/// Pushes the spaces of a level.
fn push_indent<O: Sink>(level: u8, sink: &mut O) -> Result<(), SinkError>
    ensures { Pushes O.held O.faults O.room sink.old sink.new result (replicate (2 * level) 32) }
{
    push_times(b"  ", usize::from(level), sink)
}

/// Pushes the spaces of a step inside so many others, and of so many levels more.
fn push_inside<O: Sink>(steps: usize, more: u8, sink: &mut O) -> Result<(), SinkError>
    ensures { Pushes O.held O.faults O.room sink.old sink.new result (replicate (2 * (step_level steps + more)) 32) }
{
    match push_times(b"    ", steps, sink) {
        Ok(()) => push_times(b"  ", usize::from(more) + 2, sink),
        Err(error) => Err(error),
    }
}

/// Pushes how often an element comes at least, where it is not once.
fn push_min<O: Sink>(min: u32, sink: &mut O) -> Result<(), SinkError>
    ensures { Pushes O.held O.faults O.room sink.old sink.new result (min_text min) }
{
    if min == 1 {
        return Ok(());
    }
    push_quoted(b" minOccurs=\"", u64::from(min), sink)
}

/// Pushes how often an element comes at most, where it is not once.
fn push_max<O: Sink>(max: Option<u32>, sink: &mut O) -> Result<(), SinkError>
    ensures { Pushes O.held O.faults O.room sink.old sink.new result (max_text max) }
{
    match max {
        None => push_bytes(b" maxOccurs=\"unbounded\"", sink),
        Some(max) => {
            if max == 1 {
                return Ok(());
            }
            push_quoted(b" maxOccurs=\"", u64::from(max), sink)
        }
    }
}

/// Pushes a number, the text before it, and a quotation mark behind it.
fn push_quoted<O: Sink>(before: &[u8], number: u64, sink: &mut O) -> Result<(), SinkError>
    ensures { Pushes O.held O.faults O.room sink.old sink.new result (concat (before.now ∷ decimal number ∷ codes "\"" ∷ [])) }
{
    let parts = [
        Part::Bytes(before),
        Part::Number(number),
        Part::Bytes(b"\""),
    ];
    render_all(parts.as_slice(), sink)
}

/// Pushes the base that a step begins with, where it has one.
fn push_base<O: Sink>(base: Option<Kind>, sink: &mut O) -> Result<(), SinkError>
    ensures { Pushes O.held O.faults O.room sink.old sink.new result (base_text base) }
{
    let Some(kind) = base else {
        return Ok(());
    };
    push_base_word(base_word(kind), sink)
}

/// Pushes the base of a step by its word.
fn push_base_word<O: Sink>(word: &[u8], sink: &mut O) -> Result<(), SinkError>
    ensures { Pushes O.held O.faults O.room sink.old sink.new result (concat (codes " base=\"xs:" ∷ word.now ∷ codes "\"" ∷ [])) }
{
    let parts = [
        Part::Bytes(b" base=\"xs:"),
        Part::Bytes(word),
        Part::Bytes(b"\""),
    ];
    render_all(parts.as_slice(), sink)
}

/// The name of the standard's type whose values are of this kind: XML Schema part 2 §3.2.
fn base_word(kind: Kind) -> &'static [u8]
    ensures { result.now ≡ base_word kind }
{
    match kind {
        Kind::Text => b"string".as_slice(),
        Kind::Decimal => b"decimal".as_slice(),
        Kind::Boolean => b"boolean".as_slice(),
        Kind::Binary => b"base64Binary".as_slice(),
        Kind::Date => b"date".as_slice(),
        Kind::DateTime => b"dateTime".as_slice(),
        Kind::Time => b"time".as_slice(),
        Kind::Year => b"gYear".as_slice(),
        Kind::YearMonth => b"gYearMonth".as_slice(),
        Kind::MonthDay => b"gMonthDay".as_slice(),
        Kind::Month => b"gMonth".as_slice(),
        Kind::Day => b"gDay".as_slice(),
        Kind::Envelope => b"anySimpleType".as_slice(),
    }
}
