//! The lines of an amount, and the type of decimals.
ghost use Rattle.std.specs.Prelude.{◌∷◌, [], codes};
ghost use Rattle.std.specs.List.{concat};
ghost use Rattle.outside.specs.Pushes.{Pushes};
ghost use Rattle.asn1_model.specs.ModuleText.{lines_from, money_lines, number_texts, own_line};

use crate::segment::Segment;
use facets::Step;
use outside::{Part, Render, Sink, SinkError, render_all};

/// The lines of an amount.
#[derive(Clone, Copy)]
pub(crate) struct MoneyLines<'a> {
    pub(crate) code: &'a [u8],
    pub(crate) base: &'a Step,
}

impl Render for MoneyLines<'_> {
    ghost use Rattle.asn1_model.specs.ModuleText.{lines_from, money_lines, own_line};

    ghost rendered = { λ lines. lines_from own_line 0 (money_lines lines.code.now lines.base.now) };

    fn render<O: Sink>(&self, sink: &mut O) -> Result<(), SinkError>
        ensures { Pushes O.held O.faults O.room sink.old sink.new result (lines_from own_line 0 (money_lines self.now.code.now self.now.base.now)) }
    {
        push_money(self.code, self.base, sink)
    }
}

/// Pushes the lines of an amount: its currency and its number.
fn push_money<O: Sink>(code: &[u8], base: &Step, sink: &mut O) -> Result<(), SinkError>
    ensures { Pushes O.held O.faults O.room sink.old sink.new result (lines_from own_line 0 (money_lines code.now base.now)) }
{
    if let Err(error) = push_currency(code, sink) {
        return Err(error);
    }
    push_real(b",\n  base ", base, sink)
}

/// Pushes the line of a currency.
fn push_currency<O: Sink>(code: &[u8], sink: &mut O) -> Result<(), SinkError>
    ensures { Pushes O.held O.faults O.room sink.old sink.new result (concat (codes "\n  ccy " ∷ code.now ∷ [])) }
{
    let parts = [Part::Bytes(b"\n  ccy "), Part::Bytes(code)];
    render_all(parts.as_slice(), sink)
}

/// Pushes the type of decimals, and what stands before it.
pub(crate) fn push_real<O: Sink>(before: &[u8], step: &Step, sink: &mut O) -> Result<(), SinkError>
    ensures { Pushes O.held O.faults O.room sink.old sink.new result (concat (before.now ∷ number_texts step.now)) }
{
    let segments = [
        Segment::Bytes(before),
        Segment::Bytes(b"REAL (WITH COMPONENTS {..., base (10)})"),
        Segment::Digits {
            word: b"totalDigits ",
            most: step.total,
        },
        Segment::Digits {
            word: b"fractionDigits ",
            most: step.fraction,
        },
        Segment::Bound {
            side: b"min",
            bound: step.low,
        },
        Segment::Bound {
            side: b"max",
            bound: step.high,
        },
    ];
    render_all(segments.as_slice(), sink)
}
