//! Whether a collapsed text is one of a date or a time: XML Schema part 2 §3.2.7 to §3.2.14.
ghost use Rattle.std.specs.Prelude.{◌≡◌, ◌≢◌, ◌≤◌, ◌<◌, ◌+◌, ◌-◌, ◌++◌, ◌∷◌, [], ◌↔◌, codes, IsTrue, IfSome, length, take, slice_index, List, ℕ};
ghost use Rattle.data_types.specs.Kinds.{form_of, has_seconds};
ghost use Rattle.data_types.specs.Dates.{IsDateText, HasForm, FitsPlace, HasParts, IsDay, IsClock, IsFraction, IsOffset, IsZone, two_at, four_at};
ghost use Rattle.data_types.specs.inner.DateParts.{IsFractionAndZone, AreDigits, AreDateDigits, AreClockDigits};

use crate::kind::Kind;
use jiff::civil::Date;
use lexical_core::digit_count;
use std::simd::prelude::*;

/// Whether the text is one of this kind of date or time, with or without a zone. Texts of other kinds are
/// none. The usual kinds have ways of their own, in which the form is known, and so are the places of the digits that
/// the numbers are made of.
#[inline(never)]
pub fn is_date_text(kind: Kind, text: &[u8]) -> bool
    ensures { IsTrue result ↔ IsDateText kind text.now }
{
    match kind {
        Kind::Date => is_date(text),
        Kind::DateTime => is_date_time(text),
        _ => is_other_text(kind, text),
    }
}

/// Whether the text is a date.
#[inline(always)]
fn is_date(text: &[u8]) -> bool
    ensures { IsTrue result ↔ IsDateText Kind.Date text.now }
{
    if text.len() < 10 {
        return false;
    }
    let (fixed, rest) = text.split_at(10);
    if !is_fixed_date(fixed) {
        return false;
    }
    is_rest(false, rest)
}

/// Whether the text is a date and a time.
#[inline(always)]
fn is_date_time(text: &[u8]) -> bool
    ensures { IsTrue result ↔ IsDateText Kind.DateTime text.now }
{
    if text.len() < 19 {
        return false;
    }
    let (fixed, rest) = text.split_at(19);
    if !is_fixed_date_time(fixed) {
        return false;
    }
    is_rest(true, rest)
}

/// The same for the other kinds.
fn is_other_text(kind: Kind, text: &[u8]) -> bool
    requires date { kind ≢ Kind.Date }
    requires time { kind ≢ Kind.DateTime }
    ensures { IsTrue result ↔ IsDateText kind text.now }
{
    let form = form_of(kind);
    if text.len() < form.len() {
        return false;
    }
    let (fixed, rest) = text.split_at(form.len());
    if !is_other_fixed_part(kind, fixed) {
        return false;
    }
    is_rest(has_seconds(kind), rest)
}

/// Whether the text is digits of a second, where there are any, and a zone or none.
#[inline(always)]
fn is_rest(seconds: bool, text: &[u8]) -> bool
    ensures { IsTrue result ↔ IsFractionAndZone seconds text.now }
{
    let Some(end) = fraction_end(seconds, text) else {
        return false;
    };
    is_zone(text.split_at(end).1)
}

/// Whether the text is a date without its zone.
#[inline(always)]
fn is_fixed_date(text: &[u8]) -> bool
    ensures { IsTrue result ↔ (HasForm (form_of Kind.Date) text.now × HasParts Kind.Date text.now) }
{
    if !has_date_form(text) {
        return false;
    }
    is_day_there(text)
}

/// Whether the text is a date and a time without the digits of a second behind its point, and without its zone.
#[inline(always)]
fn is_fixed_date_time(text: &[u8]) -> bool
    ensures { IsTrue result ↔ (HasForm (form_of Kind.DateTime) text.now × HasParts Kind.DateTime text.now) }
{
    if !has_date_time_form(text) {
        return false;
    }
    is_day_there(text) && is_clock_there(text)
}

/// Whether the text has the form of a date and a time.
#[inline(always)]
fn has_date_time_form(text: &[u8]) -> bool
    ensures { IsTrue result ↔ HasForm (form_of Kind.DateTime) text.now }
{
    if text.len() < 16 {
        return false;
    }
    let (front, behind) = text.split_at(16);
    if !has_minutes_form(front) {
        return false;
    }
    has_seconds_form(behind)
}

/// Whether the text has the form of a date.
#[inline(always)]
fn has_date_form(text: &[u8]) -> bool
    ensures { IsTrue result ↔ HasForm (form_of Kind.Date) text.now }
{
    if text.len() < 8 {
        return false;
    }
    let (front, behind) = text.split_at(8);
    if !has_month_form(front) {
        return false;
    }
    has_day_form(behind)
}

/// Whether the text has the form of a date and a time to the minute: by one step, each byte from the least that may stand
/// in its place.
#[inline(always)]
fn has_minutes_form(text: &[u8]) -> bool
    ensures { IsTrue result ↔ HasForm (codes "dddd-dd-ddTdd:dd") text.now }
{
    if text.len() != 16 {
        return false;
    }
    let least = u8x16::from_array(*b"0000-00-00T00:00");
    let most = u8x16::from_array([9, 9, 9, 9, 0, 9, 9, 0, 9, 9, 0, 9, 9, 0, 9, 9]);
    (u8x16::from_slice(text) - least).simd_gt(most).to_bitmask() == 0
}

/// Whether the text has the form of seconds behind minutes.
#[inline(always)]
fn has_seconds_form(text: &[u8]) -> bool
    ensures { IsTrue result ↔ HasForm (codes ":dd") text.now }
{
    has_form(b":dd".as_slice(), text)
}

/// Whether the text has the form of a date to the month: by one step too.
#[inline(always)]
fn has_month_form(text: &[u8]) -> bool
    ensures { IsTrue result ↔ HasForm (codes "dddd-dd-") text.now }
{
    if text.len() != 8 {
        return false;
    }
    let least = u8x8::from_array(*b"0000-00-");
    let most = u8x8::from_array([9, 9, 9, 9, 0, 9, 9, 0]);
    (u8x8::from_slice(text) - least).simd_gt(most).to_bitmask() == 0
}

/// Whether the text has the form of a day of a month.
#[inline(always)]
fn has_day_form(text: &[u8]) -> bool
    ensures { IsTrue result ↔ HasForm (codes "dd") text.now }
{
    has_form(b"dd".as_slice(), text)
}

/// Whether the calendar has the day whose digits stand there.
#[inline(always)]
fn is_day_there(text: &[u8]) -> bool
    requires { AreDateDigits text.now }
    ensures { IsTrue result ↔ HasParts Kind.Date text.now }
{
    let year = two_digits(text, 0) * 100 + two_digits(text, 2);
    is_day(year, two_digits(text, 5), two_digits(text, 8))
}

/// Whether the digits that stand there are a time of a day.
#[inline(always)]
fn is_clock_there(text: &[u8]) -> bool
    requires { AreClockDigits text.now }
    ensures { IsTrue result ↔ IsClock text.now 11 }
{
    two_digits(text, 11) < 24 && two_digits(text, 14) < 60 && two_digits(text, 17) < 60
}

/// The number of the two digits that stand at that place.
#[inline(always)]
fn two_digits(text: &[u8], at: usize) -> u32
    requires { AreDigits text.now at }
    ensures value { result ≡ two_at text.now at }
    ensures bound { result < 2500 }
{
    u32::from(text[at]) * 10 + u32::from(text[at + 1]) - 528
}

/// The same for the other kinds.
fn is_other_fixed_part(kind: Kind, text: &[u8]) -> bool
    requires date { kind ≢ Kind.Date }
    requires time { kind ≢ Kind.DateTime }
    ensures { IsTrue result ↔ (HasForm (form_of kind) text.now × HasParts kind text.now) }
{
    has_form(form_of(kind), text) && has_parts(kind, text)
}

/// The form of the part with a fixed length, with `d` for a digit.
fn form_of(kind: Kind) -> &'static [u8]
    ensures { result.now ≡ form_of kind }
{
    match kind {
        Kind::Date => b"dddd-dd-dd".as_slice(),
        Kind::DateTime => b"dddd-dd-ddTdd:dd:dd".as_slice(),
        Kind::Time => b"dd:dd:dd".as_slice(),
        Kind::Year => b"dddd".as_slice(),
        Kind::YearMonth => b"dddd-dd".as_slice(),
        Kind::MonthDay => b"--dd-dd".as_slice(),
        Kind::Month => b"--dd".as_slice(),
        Kind::Day => b"---dd".as_slice(),
        Kind::Text | Kind::Decimal | Kind::Boolean | Kind::Binary | Kind::Envelope =>
            b"".as_slice(),
    }
}

/// Whether the kind has seconds.
fn has_seconds(kind: Kind) -> bool
    ensures { result ≡ has_seconds kind }
{
    matches!(kind, Kind::DateTime | Kind::Time)
}

/// Whether the text has the form, place by place.
#[inline(always)]
fn has_form(form: &[u8], text: &[u8]) -> bool
    ensures { IsTrue result ↔ HasForm form.now text.now }
{
    if form.len() != text.len() {
        return false;
    }
    for at in 0..form.len() {
        if !fits_place(form[at], text[at]) {
            return false;
        }
    }
    true
}

/// Whether the byte may stand where the form has this one.
#[inline(always)]
fn fits_place(place: u8, byte: u8) -> bool
    ensures { IsTrue result ↔ FitsPlace place byte }
{
    if place == b'd' {
        byte.is_ascii_digit()
    } else {
        byte == place
    }
}

/// Whether the numbers of the fixed part are in their ranges.
fn has_parts(kind: Kind, text: &[u8]) -> bool
    requires date { kind ≢ Kind.Date }
    requires time { kind ≢ Kind.DateTime }
    ensures { IsTrue result ↔ HasParts kind text.now }
{
    match kind {
        Kind::Date | Kind::DateTime => unreachable!(),
        Kind::Time => is_clock(text, 0),
        Kind::Year => four_at(text, 0) >= 1,
        Kind::YearMonth => is_year_and_month(four_at(text, 0), two_at(text, 5)),
        Kind::MonthDay => is_day(2000, two_at(text, 2), two_at(text, 5)),
        Kind::Month => is_between(two_at(text, 2), 12),
        Kind::Day => is_between(two_at(text, 3), 31),
        Kind::Text | Kind::Decimal | Kind::Boolean | Kind::Binary | Kind::Envelope => false,
    }
}

/// Whether the year is not 0, and the month one of the twelve.
fn is_year_and_month(year: u32, month: u32) -> bool
    ensures { IsTrue result ↔ ((1 ≤ year) × (1 ≤ month) × (month ≤ 12)) }
{
    year >= 1 && month >= 1 && month <= 12
}

/// Whether the number is one from 1 to this.
fn is_between(number: u32, most: u32) -> bool
    ensures { IsTrue result ↔ ((1 ≤ number) × (number ≤ most)) }
{
    number >= 1 && number <= most
}

/// Whether the calendar has the day, in the years 1 to 9999.
#[inline(always)]
fn is_day(year: u32, month: u32, day: u32) -> bool
    ensures { IsTrue result ↔ IsDay year month day }
{
    if year < 1 || year > 9999 || month > 12 || day > 31 {
        return false;
    }
    Date::new(year as i16, month as i8, day as i8).is_ok()
}

/// Whether hours, minutes and seconds from that place on are a time of a day.
fn is_clock(text: &[u8], at: usize) -> bool
    requires { at < 12 }
    ensures { IsTrue result ↔ IsClock text.now at }
{
    two_at(text, at) < 24 && two_at(text, at + 3) < 60 && two_at(text, at + 6) < 60
}

/// The number of the two digits at that place.
fn two_at(text: &[u8], at: usize) -> u32
    requires { at < 100 }
    ensures value { result ≡ two_at text.now at }
    ensures bound { result < 2500 }
{
    digit_at(text, at) * 10 + digit_at(text, at + 1)
}

/// The number of the four digits at that place.
fn four_at(text: &[u8], at: usize) -> u32
    requires { at < 90 }
    ensures { result ≡ four_at text.now at }
{
    two_at(text, at) * 100 + two_at(text, at + 2)
}

/// The value of the digit at that place, and 0 behind the end.
fn digit_at(text: &[u8], at: usize) -> u32
    ensures value { result ≡ slice_index text.now at - 48 }
    ensures bound { result < 208 }
{
    match text.get(at) {
        Some(byte) => u32::from(byte.saturating_sub(b'0')),
        None => 0,
    }
}

/// Where the digits of a second end, which may stand at the start; `None` where a point has no one to
/// nine digits behind it.
#[inline(always)]
fn fraction_end(seconds: bool, text: &[u8]) -> Option<usize>
    ensures some { IfSome result
        (λ end. (end ≤ length text.now) × IsFraction seconds (take end text.now)) }
    ensures only { (fraction zone : List ℕ) → IsFraction seconds fraction → IsZone zone
        → text.now ≡ fraction ++ zone → result ≡ Some (length fraction) }
{
    if !seconds || text.is_empty() || text[0] != b'.' {
        return Some(0);
    }
    let count = digit_count(text.split_at(1).1);
    if count >= 1 && count <= 9 {
        Some(count + 1)
    } else {
        None
    }
}

/// Whether the text is a zone, or empty.
#[inline(always)]
fn is_zone(text: &[u8]) -> bool
    ensures { IsTrue result ↔ IsZone text.now }
{
    if text.is_empty() || is_utc(text) {
        return true;
    }
    is_offset(text)
}

/// Whether the text is the zone of the Coordinated Universal Time.
#[inline(always)]
fn is_utc(text: &[u8]) -> bool
    ensures { IsTrue result ↔ (text.now ≡ 90 ∷ []) }
{
    text.len() == 1 && text[0] == b'Z'
}

/// Whether the text is a sign, hours and minutes of at most 14:00.
fn is_offset(text: &[u8]) -> bool
    ensures { IsTrue result ↔ IsOffset text.now }
{
    if text.is_empty() || (text[0] != b'+' && text[0] != b'-') {
        return false;
    }
    if !has_form(b"dd:dd".as_slice(), text.split_at(1).1) {
        return false;
    }
    two_at(text, 4) <= 59 && two_at(text, 1) * 60 + two_at(text, 4) <= 14 * 60
}
