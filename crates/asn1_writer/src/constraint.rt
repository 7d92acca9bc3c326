//! What stands behind the name of a type: its size, and constraints that are comments.
ghost use Rattle.std.specs.Prelude.{◌≡◌, ◌∷◌, [], Some, codes};
ghost use Rattle.std.specs.Fmt.{decimal};
ghost use Rattle.std.specs.List.{concat};
ghost use Rattle.lexical_core.specs.CanonicalDecimals.{canonical_parts};
ghost use Rattle.lexical_core.specs.Decimals.{decimal_spelling};
ghost use Rattle.outside.specs.Parts.{part_text};
ghost use Rattle.outside.specs.Pushes.{Pushes};
ghost use Rattle.asn1_model.specs.ModuleText.{bound_constraint, constraint_text, digits_constraint, pattern_constraint, size_text, strictness};

use crate::comment::Comment;
use crate::within::push_within;
use facets::Bound;
use lexical_core::{Decimal, Text};
use outside::{Part, Sink, SinkError, render_all};

/// Pushes a size, where it is bounded: X.680 §51.5.
pub(crate) fn push_size<O: Sink>(
    min: Option<u64>,
    max: Option<u64>,
    sink: &mut O,
) -> Result<(), SinkError>
    ensures { Pushes O.held O.faults O.room sink.old sink.new result (size_text min max) }
{
    match max {
        Some(max) => push_range(min.unwrap_or(0), Part::Number(max), sink),
        None => match min {
            Some(min) => push_range(min, Part::Bytes(b"MAX"), sink),
            None => Ok(()),
        },
    }
}

/// Pushes a size by its least value and the text of its greatest.
fn push_range<O: Sink>(min: u64, max: Part<'_>, sink: &mut O) -> Result<(), SinkError>
    ensures { Pushes O.held O.faults O.room sink.old sink.new result
        (concat (codes " (SIZE (" ∷ decimal min ∷ codes ".." ∷ part_text max.entry ∷ codes "))" ∷ [])) }
{
    let parts = [
        Part::Bytes(b" (SIZE ("),
        Part::Number(min),
        Part::Bytes(b".."),
        max,
        Part::Bytes(b"))"),
    ];
    render_all(parts.as_slice(), sink)
}

/// Pushes a constraint of one part and a word before it: X.682 §9.
fn push_constraint<'a, O: Sink>(
    word: Part<'a>,
    part: Part<'a>,
    sink: &mut O,
) -> Result<(), SinkError>
    ensures { Pushes O.held O.faults O.room sink.old sink.new result (constraint_text (part_text word.entry ∷ part_text part.entry ∷ [])) }
{
    let parts = [
        Part::Bytes(b" (CONSTRAINED BY {-- "),
        word,
        part,
        Part::Bytes(b" --})"),
    ];
    render_all(parts.as_slice(), sink)
}

/// Pushes that a text has the form of a type with this name.
pub(crate) fn push_profile<O: Sink>(word: &[u8], sink: &mut O) -> Result<(), SinkError>
    ensures { Pushes O.held O.faults O.room sink.old sink.new result (constraint_text (word.now ∷ codes " profile" ∷ [])) }
{
    push_constraint(Part::Bytes(word), Part::Bytes(b" profile"), sink)
}

/// Pushes how many digits there may be, where that is bounded.
pub(crate) fn push_digits<O: Sink>(
    word: &[u8],
    most: Option<u8>,
    sink: &mut O,
) -> Result<(), SinkError>
    ensures { Pushes O.held O.faults O.room sink.old sink.new result (digits_constraint word.now most) }
{
    match most {
        Some(most) => push_constraint(Part::Bytes(word), Part::Number(u64::from(most)), sink),
        None => Ok(()),
    }
}

/// Pushes a bound of numbers, where there is one.
pub(crate) fn push_bound<O: Sink>(
    side: &[u8],
    bound: Option<Bound>,
    sink: &mut O,
) -> Result<(), SinkError>
    ensures { Pushes O.held O.faults O.room sink.old sink.new result (bound_constraint side.now bound) }
{
    match bound {
        Some(bound) => push_limit(side, strictness(bound.strict), &bound.value, sink),
        None => Ok(()),
    }
}

/// Whether the value itself is out of bounds, as a word.
fn strictness(strict: bool) -> &'static [u8]
    ensures { result.now ≡ strictness strict }
{
    if strict { b"Exclusive " } else { b"Inclusive " }
}

/// Pushes a bound by its side, a word and the canonical text of its value.
fn push_limit<O: Sink>(
    side: &[u8],
    word: &[u8],
    value: &Decimal,
    sink: &mut O,
) -> Result<(), SinkError>
    ensures { Pushes O.held O.faults O.room sink.old sink.new result
        (constraint_text (side.now ∷ word.now ∷ decimal_spelling (canonical_parts value.now) ∷ [])) }
{
    let _scale = value.scale(); // tells the proof that it is a decimal, which has one canonical text
    let mut buf = [0; 32];
    let length = value.text_into(&mut buf);
    push_words(side, word, &buf[..length], sink)
}

/// Pushes a constraint of three words.
fn push_words<'a, O: Sink>(
    first: &'a [u8],
    second: &'a [u8],
    third: &'a [u8],
    sink: &mut O,
) -> Result<(), SinkError>
    ensures { Pushes O.held O.faults O.room sink.old sink.new result (constraint_text (first.now ∷ second.now ∷ third.now ∷ [])) }
{
    let parts = [
        Part::Bytes(b" (CONSTRAINED BY {-- "),
        Part::Bytes(first),
        Part::Bytes(second),
        Part::Bytes(third),
        Part::Bytes(b" --})"),
    ];
    render_all(parts.as_slice(), sink)
}

/// Pushes a pattern, where there is one.
pub(crate) fn push_pattern<O: Sink>(pattern: &Option<Text>, sink: &mut O) -> Result<(), SinkError>
    ensures { Pushes O.held O.faults O.room sink.old sink.new result (pattern_constraint pattern.now) }
{
    match pattern {
        Some(pattern) => push_some_pattern(
            &Comment {
                text: pattern.bytes(),
            },
            sink,
        ),
        None => Ok(()),
    }
}

/// Pushes a pattern.
fn push_some_pattern<O: Sink>(pattern: &Comment<'_>, sink: &mut O) -> Result<(), SinkError>
    ensures { Pushes O.held O.faults O.room sink.old sink.new result (pattern_constraint (Some pattern.now.text.now)) }
{
    push_within(b" (CONSTRAINED BY {-- pattern ", pattern, b" --})", sink)
}
