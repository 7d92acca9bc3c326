//! The text behind `::=` of a type.
ghost use Rattle.std.specs.Prelude.{◌∷◌, [], codes};
ghost use Rattle.std.specs.List.{concat};
ghost use Rattle.outside.specs.Pushes.{Pushes};
ghost use Rattle.asn1_model.specs.ModuleText.{braces, constraint_text, date_text, money_lines, own_line, pattern_constraint, plain_text, asn_shape_text, size_text};

use crate::amount::{MoneyLines, push_real};
use crate::enumeration::CodeLines;
use crate::fields::FieldLines;
use crate::segment::Segment;
use crate::within::push_within;
use asn1_model::AsnShape;
use data_types::Kind;
use facets::Step;
use lexical_core::Text;
use outside::{Render, Sink, SinkError, push_bytes, render_all};

/// The text of a shape.
#[derive(Clone, Copy)]
pub(crate) struct ShapeText<'a> {
    pub(crate) shape: &'a AsnShape,
}

impl Render for ShapeText<'_> {
    ghost use Rattle.asn1_model.specs.ModuleText.{asn_shape_text};

    ghost rendered = { λ text. asn_shape_text text.shape.now };

    fn render<O: Sink>(&self, sink: &mut O) -> Result<(), SinkError>
        ensures { Pushes O.held O.faults O.room sink.old sink.new result (asn_shape_text self.now.shape.now) }
    {
        push_shape(self.shape, sink)
    }
}

/// Pushes the text of a shape.
fn push_shape<O: Sink>(shape: &AsnShape, sink: &mut O) -> Result<(), SinkError>
    ensures { Pushes O.held O.faults O.room sink.old sink.new result (asn_shape_text shape.now) }
{
    match shape {
        AsnShape::Sequence(fields) => {
            push_within(b"SEQUENCE {", &FieldLines { fields }, b"\n}", sink)
        }
        AsnShape::Choice(fields) => push_within(b"CHOICE {", &FieldLines { fields }, b"\n}", sink),
        AsnShape::Enumerated(_, names) => {
            push_within(b"ENUMERATED {", &CodeLines { names }, b"\n}", sink)
        }
        AsnShape::Money { code, base } => push_money(code.bytes(), base, sink),
        AsnShape::Plain(kind, step, pattern) => push_plain(*kind, step, pattern, sink),
        AsnShape::Fragment => push_bytes(
            b"UTF8String (CONSTRAINED BY {-- canonical fragment --})",
            sink,
        ),
    }
}

/// Pushes the text of an amount.
fn push_money<O: Sink>(code: &[u8], base: &Step, sink: &mut O) -> Result<(), SinkError>
    ensures { Pushes O.held O.faults O.room sink.old sink.new result (braces (codes "SEQUENCE") own_line (money_lines code.now base.now)) }
{
    push_within(b"SEQUENCE {", &MoneyLines { code, base }, b"\n}", sink)
}

/// Pushes a type of one value, by its kind.
fn push_plain<O: Sink>(
    kind: Kind,
    step: &Step,
    pattern: &Option<Text>,
    sink: &mut O,
) -> Result<(), SinkError>
    ensures { Pushes O.held O.faults O.room sink.old sink.new result (plain_text kind step.now pattern.now) }
{
    match kind {
        Kind::Text => push_text(step, pattern, sink),
        Kind::Decimal => push_real(b"", step, sink),
        Kind::Boolean => push_bytes(b"BOOLEAN", sink),
        Kind::Binary => push_binary(step, sink),
        Kind::Date => push_date(b"xs:date", pattern, sink),
        Kind::DateTime => push_date(b"xs:dateTime", pattern, sink),
        Kind::Time => push_date(b"xs:time", pattern, sink),
        Kind::Year => push_date(b"xs:gYear", pattern, sink),
        Kind::YearMonth => push_date(b"xs:gYearMonth", pattern, sink),
        Kind::MonthDay => push_date(b"xs:gMonthDay", pattern, sink),
        Kind::Month => push_date(b"xs:gMonth", pattern, sink),
        Kind::Day => push_date(b"xs:gDay", pattern, sink),
        Kind::Envelope => Ok(()),
    }
}

/// Pushes the type of texts: X.680 §41.
fn push_text<O: Sink>(step: &Step, pattern: &Option<Text>, sink: &mut O) -> Result<(), SinkError>
    ensures { Pushes O.held O.faults O.room sink.old sink.new result
        (concat (codes "UTF8String" ∷ size_text step.now.min step.now.max ∷ constraint_text (codes "xml characters" ∷ []) ∷ pattern_constraint pattern.now ∷ [])) }
{
    let segments = [
        Segment::Bytes(b"UTF8String"),
        Segment::Size {
            min: step.min,
            max: step.max,
        },
        Segment::Bytes(b" (CONSTRAINED BY {-- xml characters --})"),
        Segment::Pattern(pattern),
    ];
    render_all(segments.as_slice(), sink)
}

/// Pushes the type of binary values: X.680 §23.
fn push_binary<O: Sink>(step: &Step, sink: &mut O) -> Result<(), SinkError>
    ensures { Pushes O.held O.faults O.room sink.old sink.new result (concat (codes "OCTET STRING" ∷ size_text step.now.min step.now.max ∷ [])) }
{
    let segments = [
        Segment::Bytes(b"OCTET STRING"),
        Segment::Size {
            min: step.min,
            max: step.max,
        },
    ];
    render_all(segments.as_slice(), sink)
}

/// Pushes a type of dates or times, by its name in XML Schema part 2.
fn push_date<'a, O: Sink>(
    word: &'a [u8],
    pattern: &'a Option<Text>,
    sink: &mut O,
) -> Result<(), SinkError>
    ensures { Pushes O.held O.faults O.room sink.old sink.new result (date_text word.now pattern.now) }
{
    let segments = [
        Segment::Bytes(b"VisibleString"),
        Segment::Profile(word),
        Segment::Pattern(pattern),
    ];
    render_all(segments.as_slice(), sink)
}
