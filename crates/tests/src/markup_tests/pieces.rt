//! Texts that a reader takes in pieces, by whole tags and runs of characters where it can: it tells of them what `take`
//! alone tells, at the same places.
ghost use Rattle.std.specs.Prelude.{◌≡◌, ◌<◌, ◌≤◌, ◌+◌, ◌^◌, IfOk, length};
ghost use Rattle.markup.specs.Reading.{bytes_taken};

use super::{LIMIT, Verdict, end, refusal};
use Verdict::{Otherwise, TooLong};
use markup::{Attrs, Event, Events, PlainTag, Reader, TagKind, What};
use std::alloc::Global;

/// The events of a text as `take` alone tells them: those that are told, and those that are to come.
#[derive(Clone, Copy)]
struct Course<'a> {
    told: &'a [Event],
    awaited: &'a [Event],
}

/// How many bytes were taken, and how many events they show.
#[derive(Clone, Copy)]
struct Taken {
    bytes: usize,
    events: usize,
}

const NOTHING: Taken = Taken {
    bytes: 0,
    events: 0,
};

/// So many bytes and events, where the events are those that are awaited.
fn took(are_awaited: bool, bytes: usize, events: usize) -> Result<Taken, Verdict>
    ensures { IfOk result (λ taken. taken.bytes ≡ bytes) }
{
    if are_awaited {
        Ok(Taken { bytes, events })
    } else {
        Err(Otherwise)
    }
}

/// What is said at an error, where all events before it are told.
fn stopped(are_told: bool, verdict: Verdict) -> Verdict {
    if are_told { verdict } else { Otherwise }
}

fn is_character(event: Option<&Event>, place: u64, character: char) -> bool {
    match event {
        Some(
            Event {
                place: at,
                what: What::Char(c),
            },
        ) => *at == place && *c == character,
        _ => false,
    }
}

/// Whether the events begin with the characters of the run, which are so many, from this place on.
fn are_characters(events: &[Event], place: u64, run: &[u8], count: usize) -> bool {
    let Ok(text) = str::from_utf8(run) else {
        return false;
    };
    let mut left = events;
    for (offset, character) in text.char_indices() {
        if !is_character(left.first(), place.wrapping_add(offset as u64), character) {
            return false;
        }
        if let Some((_, behind)) = left.split_first() {
            left = behind;
        }
    }
    text.chars().count() == count
}

fn is_start(event: Option<&Event>, place: u64, namespace: &[u8], name: &[u8]) -> bool {
    match event {
        Some(
            Event {
                place: at,
                what: What::Start { ns, local, attrs },
            },
        ) => {
            *at == place && ns.bytes() == namespace && local.bytes() == name && attrs.is_empty()
        }
        _ => false,
    }
}

fn is_end(event: Option<&Event>, place: u64, namespace: &[u8], name: &[u8]) -> bool {
    match event {
        Some(
            Event {
                place: at,
                what: What::End { ns, local },
            },
        ) => *at == place && ns.bytes() == namespace && local.bytes() == name,
        _ => false,
    }
}

fn is_skipped(event: Option<&Event>, place: u64) -> bool {
    match event {
        Some(
            Event {
                place: at,
                what: What::Skipped,
            },
        ) => *at == place,
        _ => false,
    }
}

/// The namespace of the innermost element that these events leave open.
fn innermost(told: &[Event]) -> &[u8] {
    let mut ended = 0_usize;
    let mut left = told;
    while let Some((event, others)) = left.split_last() {
        match &event.what {
            What::Start { ns, .. } => {
                if ended == 0 {
                    return ns.bytes();
                }
                ended -= 1;
            }
            What::End { .. } => ended = ended.saturating_add(1),
            _ => {}
        }
        left = others;
    }
    b""
}

/// Whether the events of the tag are awaited, in the namespace of the innermost element.
fn is_tag(course: &Course<'_>, place: u64, tag: &PlainTag<'_>) -> bool {
    let ns = innermost(course.told);
    let first = course.awaited.first();
    match tag.kind {
        TagKind::Start => is_start(first, place, ns, tag.name),
        TagKind::Empty => {
            is_start(first, place, ns, tag.name)
                && is_end(course.awaited.get(1), place, ns, tag.name)
        }
        TagKind::End => is_end(first, place, ns, tag.name),
    }
}

fn events_of(kind: TagKind) -> usize {
    match kind {
        TagKind::Empty => 2,
        _ => 1,
    }
}

fn are_same_attributes(attrs: &Attrs, others: &Attrs) -> bool {
    for (attr, other) in attrs.as_slice().iter().zip(others.as_slice()) {
        if attr.ns.bytes() != other.ns.bytes()
            || attr.local.bytes() != other.local.bytes()
            || attr.value.bytes() != other.value.bytes()
        {
            return false;
        }
    }
    attrs.len() == others.len()
}

fn is_same(event: &Event, other: &Event) -> bool {
    match &event.what {
        What::Start { ns, local, attrs } => match &other.what {
            What::Start {
                ns: other_ns,
                local: other_local,
                attrs: others,
            } => {
                event.place == other.place
                    && ns.bytes() == other_ns.bytes()
                    && local.bytes() == other_local.bytes()
                    && are_same_attributes(attrs, others)
            }
            _ => false,
        },
        What::End { ns, local } => is_end(Some(other), event.place, ns.bytes(), local.bytes()),
        What::Char(c) => is_character(Some(other), event.place, *c),
        What::Skipped => is_skipped(Some(other), event.place),
    }
}

/// Whether these events begin so.
fn begin_with(events: &[Event], front: &Events) -> bool {
    for (event, other) in events.iter().zip(front.as_slice()) {
        if !is_same(event, other) {
            return false;
        }
    }
    front.len() <= events.len()
}

/// Takes what stands by itself at the front of the piece: white space, a run of characters, a reference or a CR LF.
fn take_characters(reader: &mut Reader, piece: &[u8], awaited: &[Event]) -> Result<Taken, Verdict>
    requires { bytes_taken reader.old + length piece.now ≤ 2 ^ 40 }
    ensures within { IfOk result (λ taken. taken.bytes ≤ length piece.now) }
    ensures count { IfOk result (λ taken. bytes_taken reader.new ≡ bytes_taken reader.old + taken.bytes) }
{
    let place = reader.place();
    let blanks = reader.take_blanks(piece);
    if blanks > 0 {
        let are_awaited = are_characters(awaited, place, piece.split_at(blanks).0, blanks);
        return took(are_awaited, blanks, blanks);
    }
    let run = reader.take_characters(piece);
    if run.bytes > 0 {
        let (bytes, _) = piece.split_at(run.bytes);
        let are_awaited = are_characters(awaited, place, bytes, run.characters);
        return took(are_awaited, run.bytes, run.characters);
    }
    if let Some(reference) = reader.take_reference(piece) {
        let is_awaited = is_character(awaited.first(), place, reference.character);
        return took(is_awaited, reference.bytes, 1);
    }
    if reader.take_line_end(piece) {
        return took(is_character(awaited.first(), place, '\n'), 2, 1);
    }
    Ok(NOTHING)
}

/// Takes the start tag at the front of the piece and tells its events, and answers how many bytes it has, 0
/// where none is taken.
pub fn take_start(
    reader: &mut Reader,
    out: &mut Events,
    alloc: Global,
    piece: &[u8],
) -> Result<usize, Verdict>
    requires { bytes_taken reader.old + length piece.now ≤ 2 ^ 40 }
    ensures within { IfOk result (λ n. n ≤ length piece.now) }
    ensures count { IfOk result (λ n. bytes_taken reader.new ≡ bytes_taken reader.old + n) }
{
    let place = reader.place();
    let tag = match reader.take_start_tag(piece) {
        Ok(Some(tag)) => tag,
        Ok(None) => return Ok(0),
        Err(error) => return Err(refusal(error)),
    };
    match tag.tell(place, out, alloc) {
        Ok(()) => Ok(tag.bytes),
        Err(_) => Err(Verdict::Memory),
    }
}

/// Takes the tag at the front of the piece, or the comment or what begins or ends a CDATA section.
fn take_markup(
    reader: &mut Reader,
    out: &mut Events,
    alloc: Global,
    piece: &[u8],
    course: &Course<'_>,
) -> Result<Taken, Verdict>
    requires { bytes_taken reader.old + length piece.now ≤ 2 ^ 40 }
    ensures within { IfOk result (λ taken. taken.bytes ≤ length piece.now) }
    ensures count { IfOk result (λ taken. bytes_taken reader.new ≡ bytes_taken reader.old + taken.bytes) }
{
    let place = reader.place();
    match reader.take_tag(piece) {
        Ok(Some(tag)) => {
            return took(is_tag(course, place, &tag), tag.bytes, events_of(tag.kind));
        }
        Ok(None) => {}
        Err(error) => return Err(refusal(error)),
    }
    let start = match take_start(reader, out, alloc, piece) {
        Ok(start) => start,
        Err(verdict) => return Err(stopped(course.awaited.is_empty(), verdict)),
    };
    if start > 0 {
        return took(begin_with(course.awaited, out), start, out.len());
    }
    let aside = reader.take_aside(piece);
    took(
        aside == 0 || is_skipped(course.awaited.first(), place),
        aside,
        aside.min(1),
    )
}

/// Takes the bytes at the front of the piece that go on with the open token, or else its first byte.
fn take_bytes(
    reader: &mut Reader,
    out: &mut Events,
    piece: &[u8],
    awaited: &[Event],
) -> Result<Taken, Verdict>
    requires { bytes_taken reader.old + length piece.now ≤ 2 ^ 40 }
    ensures within { IfOk result (λ taken. taken.bytes ≤ length piece.now) }
    ensures some { IfOk result (λ taken. 0 < length piece.now → 0 < taken.bytes) }
    ensures count { IfOk result (λ taken. bytes_taken reader.new ≡ bytes_taken reader.old + taken.bytes) }
{
    let inside = match reader.take_inside(piece) {
        Ok(count) => count,
        Err(error) => return Err(refusal(error)),
    };
    if inside > 0 {
        return took(true, inside, 0);
    }
    let Some((byte, _)) = piece.split_first() else {
        return Ok(NOTHING);
    };
    match reader.take(*byte, out) {
        Ok(()) => took(begin_with(awaited, out), 1, out.len()),
        Err(error) => {
            let are_told = begin_with(awaited, out) && out.len() == awaited.len();
            Err(stopped(are_told, refusal(error)))
        }
    }
}

/// Gives the reader what it takes at once of the piece, or its first byte.
fn take_some(
    reader: &mut Reader,
    out: &mut Events,
    alloc: Global,
    piece: &[u8],
    course: &Course<'_>,
) -> Result<Taken, Verdict>
    requires { bytes_taken reader.old + length piece.now ≤ 2 ^ 40 }
    ensures within { IfOk result (λ taken. taken.bytes ≤ length piece.now) }
    ensures some { IfOk result (λ taken. 0 < length piece.now → 0 < taken.bytes) }
    ensures count { IfOk result (λ taken. bytes_taken reader.new ≡ bytes_taken reader.old + taken.bytes) }
{
    let taken = take_characters(reader, piece, course.awaited)?;
    if taken.bytes > 0 {
        return Ok(taken);
    }
    let taken = take_markup(reader, out, alloc, piece, course)?;
    if taken.bytes > 0 {
        return Ok(taken);
    }
    take_bytes(reader, out, piece, course.awaited)
}

/// Gives the reader one piece, behind which so many events are told of all.
fn take_piece(
    reader: &mut Reader,
    out: &mut Events,
    alloc: Global,
    piece: &[u8],
    events: &[Event],
    told: usize,
) -> Result<usize, Verdict>
    requires { bytes_taken reader.old + length piece.now ≤ 2 ^ 40 }
    ensures count { IfOk result (λ _. bytes_taken reader.new ≡ bytes_taken reader.old + length piece.now) }
{
    let mut told = told;
    let mut rest = piece;
    while !rest.is_empty() {
        let (front, awaited) = events.split_at(told.min(events.len()));
        let course = Course {
            told: front,
            awaited,
        };
        out.clear();
        let taken = take_some(reader, out, alloc, rest, &course)?;
        told = told.saturating_add(taken.events);
        let (_, behind) = rest.split_at(taken.bytes);
        rest = behind;
    }
    Ok(told)
}

/// What a reader before the first byte says of the text in pieces, the first of so many bytes and the others of this
/// size, where it tells these events.
pub fn answer_by_pieces(
    mut reader: Reader,
    alloc: Global,
    text: &[u8],
    first: usize,
    size: usize,
    events: &[Event],
) -> Verdict
    requires { bytes_taken reader ≡ 0 }
{
    let mut out = Events::new(alloc);
    take_pieces(&mut reader, &mut out, alloc, text, first, size, events)
}

fn take_pieces(
    reader: &mut Reader,
    out: &mut Events,
    alloc: Global,
    text: &[u8],
    first: usize,
    size: usize,
    events: &[Event],
) -> Verdict
    requires { bytes_taken reader.old ≡ 0 }
{
    if text.len() as u64 > LIMIT || size == 0 {
        return TooLong;
    }
    let (piece, mut rest) = text.split_at(first.min(text.len()));
    let mut told = match take_piece(reader, out, alloc, piece, events, 0) {
        Ok(told) => told,
        Err(verdict) => return verdict,
    };
    while !rest.is_empty() {
        let (piece, behind) = rest.split_at(size.min(rest.len()));
        told = match take_piece(reader, out, alloc, piece, events, told) {
            Ok(told) => told,
            Err(verdict) => return verdict,
        };
        rest = behind;
    }
    stopped(told == events.len(), end(reader, out))
}
