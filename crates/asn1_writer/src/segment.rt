//! Segments of a type's text, pushed one after the other.
ghost use Rattle.outside.specs.Pushes.{Pushes};
ghost use Rattle.asn1_writer.specs.inner.Segments.{asn_segment_text};

use crate::constraint::{push_bound, push_digits, push_pattern, push_profile, push_size};
use facets::Bound;
use lexical_core::Text;
use outside::{Render, Sink, SinkError, push_bytes};

/// A segment of a type's text.
#[derive(Clone, Copy)]
pub enum Segment<'a> {
    /// Bytes as they are.
    Bytes(&'a [u8]),
    /// A size, where it is bounded.
    Size {
        min: Option<u64>,
        max: Option<u64>,
    },
    /// That a text has the form of a type with this name.
    Profile(&'a [u8]),
    /// How many digits there may be, where that is bounded.
    Digits {
        word: &'a [u8],
        most: Option<u8>,
    },
    /// A bound of numbers, where there is one.
    Bound {
        side: &'a [u8],
        bound: Option<Bound>,
    },
    /// A pattern, where there is one.
    Pattern(&'a Option<Text>),
}

impl Render for Segment<'_> {
    ghost use Rattle.asn1_writer.specs.inner.Segments.{asn_segment_text};

    ghost rendered = { asn_segment_text };

    fn render<O: Sink>(&self, sink: &mut O) -> Result<(), SinkError>
        ensures { Pushes O.held O.faults O.room sink.old sink.new result (asn_segment_text self.now) }
    {
        match self {
            Segment::Bytes(bytes) => push_bytes(bytes, sink),
            Segment::Size { min, max } => push_size(*min, *max, sink),
            Segment::Profile(word) => push_profile(word, sink),
            Segment::Digits { word, most } => push_digits(word, *most, sink),
            Segment::Bound { side, bound } => push_bound(side, *bound, sink),
            Segment::Pattern(pattern) => push_pattern(pattern, sink),
        }
    }
}
