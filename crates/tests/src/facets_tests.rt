//! What no clause says: that the definitions mean what the standard means, row by row, and that calls which may
//! want memory succeed where there is some.
ghost use Rattle.std.specs.Prelude.{◌≡◌, IfOk, length};
ghost use Rattle.facets.specs.LeafChecks.{IsCheckMadeFor, IsWithinLimits};
ghost use Rattle.facets.specs.LeafVerdicts.{IsVerdictMadeFor as IsVerdictFor};

use data_types::{Kind, LeafRef};
use facets::{Bound, Codes, LeafCheck, LeafVerdict, Simple, check_number, check_octets};
use lexical_core::{Decimal, Rule, Text, xml_run};
use pattern_match::Pattern;
use std::alloc::{AllocError, Global};
use std::process::Abort;
use std::test::Fail;

/// A simple type of this kind, with no facets but 18 digits in all.
fn simple_of(kind: Kind) -> Simple
    ensures { IsWithinLimits result }
{
    with_lengths(kind, 0, None)
}

/// A simple type of this kind, with these bounds of the length.
fn with_lengths(kind: Kind, min: u64, max: Option<u64>) -> Simple
    ensures { IsWithinLimits result }
{
    Simple {
        kind,
        min,
        max,
        total: 18,
        fraction: None,
        low: None,
        high: None,
        pattern: None,
        codes: None,
    }
}

/// What the check tells of a text, given as one run.
fn verdict(alloc: Global, simple: &Simple, text: &str) -> Result<Result<(), Rule>, AllocError>
    requires { IsWithinLimits simple.now }
{
    let mut check = LeafVerdict::new(alloc, simple)?;
    judge(&mut check, simple, text)
}

fn judge(
    check: &mut LeafVerdict,
    simple: &Simple,
    text: &str,
) -> Result<Result<(), Rule>, AllocError>
    requires { IsVerdictFor check.old simple.now }
{
    let run = xml_run(text.as_bytes());
    check.take_run(
        simple,
        text.as_bytes().split_at(run.bytes).0,
        run.characters,
    )?;
    Ok(check.finish(simple))
}

/// The rule that the text breaks first; `None` where it spells a leaf.
fn broken(alloc: Global, simple: &Simple, text: &str) -> Result<Option<Rule>, AllocError>
    requires { IsWithinLimits simple.now }
{
    Ok(verdict(alloc, simple, text)?.err())
}

/// A kind, bounds of the length, a text, and what it breaks.
type LengthRow = (Kind, u64, Option<u64>, &'static str, Option<Rule>);

static LENGTHS: [LengthRow; 18] = [
    (Kind::Text, 1, Some(2), "", Some(Rule::BadLength)),
    (Kind::Text, 1, Some(2), "\u{20AC}", None),
    (Kind::Text, 1, Some(2), "\u{20AC}\u{1F600}", None),
    (
        Kind::Text,
        1,
        Some(2),
        "\u{20AC}\u{20AC}\u{20AC}",
        Some(Rule::BadLength),
    ),
    (Kind::Text, 3, None, "ab", Some(Rule::BadLength)),
    (Kind::Text, 3, None, "a\n ", None),
    (Kind::Text, 0, Some(0), "", None),
    (Kind::Text, 0, Some(0), " ", Some(Rule::BadLength)),
    (Kind::Text, 2, Some(1), "a", Some(Rule::BadLength)),
    (Kind::Text, 2, Some(1), "ab", Some(Rule::BadLength)),
    (Kind::Binary, 1, Some(2), "", Some(Rule::BadLength)),
    (Kind::Binary, 1, Some(2), "QQ==", None),
    (Kind::Binary, 1, Some(2), " QUI=\n", None),
    (Kind::Binary, 1, Some(2), "QUJD", Some(Rule::BadLength)),
    (Kind::Binary, 1, Some(2), "QUJDQUJD*", Some(Rule::BadText)),
    (Kind::Decimal, 2, Some(3), "1", None),
    (Kind::Boolean, 9, Some(9), "true", None),
    (Kind::Year, 9, Some(9), "2024", None),
];

fn have_lengths(rt: &impl Abort, alloc: Global, rows: &[LengthRow]) -> Result<(), AllocError> {
    for (kind, min, max, text, want) in rows {
        assert!(rt; broken(alloc, &with_lengths(*kind, *min, *max), text)? == *want);
    }
    Ok(())
}

#[test]
fn lengths_have_bounds(rt: HostRuntime) -> Result<(), Fail> {
    have_lengths(&rt, rt.alloc(), LENGTHS.as_slice())?;
    Ok(())
}

/// A kind, a pattern, a text, and what it breaks.
type PatternRow = (Kind, &'static str, &'static str, Option<Rule>);

static PATTERNS: [PatternRow; 13] = [
    (Kind::Text, "[A-Z]{2,2}", "AB", None),
    (Kind::Text, "[A-Z]{2,2}", "A", Some(Rule::PatternFails)),
    (Kind::Text, "[A-Z]{2,2}", "ABC", Some(Rule::PatternFails)),
    (Kind::Text, "[A-Z]{2,2}", " AB", Some(Rule::PatternFails)),
    (Kind::DateTime, ".*Z", "2024-02-29T23:59:59.123Z", None),
    (Kind::DateTime, ".*Z", " 2024-02-29T00:00:00Z\r\n", None),
    (
        Kind::DateTime,
        ".*Z",
        "2024-02-29T00:00:00+00:00",
        Some(Rule::PatternFails),
    ),
    (
        Kind::DateTime,
        ".*Z",
        "2023-02-29T00:00:00+00:00",
        Some(Rule::BadText),
    ),
    (Kind::Year, "20[0-9]{2,2}", "2024", None),
    (
        Kind::Year,
        "20[0-9]{2,2}",
        "\t1999",
        Some(Rule::PatternFails),
    ),
    (Kind::Decimal, "7", "8", None),
    (Kind::Boolean, "false", "true", None),
    (Kind::Binary, "x", "QQ==", None),
];

fn have_patterns(rt: &impl Abort, alloc: Global, rows: &[PatternRow]) -> Result<(), Fail> {
    for (kind, pattern, text, want) in rows {
        assert!(rt; broken(alloc, &with_pattern(alloc, *kind, pattern)?, text)? == *want);
    }
    Ok(())
}

fn with_pattern(alloc: Global, kind: Kind, pattern: &str) -> Result<Simple, Fail>
    ensures { IfOk result (λ simple. IsWithinLimits simple) }
{
    let pattern = pattern_of(alloc, pattern)?;
    let mut simple = simple_of(kind);
    simple.pattern = pattern;
    Ok(simple)
}

fn pattern_of(alloc: Global, text: &str) -> Result<Option<Pattern>, Fail> {
    match Pattern::read(alloc, text) {
        Ok(pattern) => Ok(Some(pattern)),
        Err(_) => Err(Fail::from("a pattern")),
    }
}

#[test]
fn texts_and_dates_have_patterns(rt: HostRuntime) -> Result<(), Fail> {
    have_patterns(&rt, rt.alloc(), PATTERNS.as_slice())
}

/// Digits in all and behind the point, a text, and what it breaks.
type DigitsRow = (u8, Option<u8>, &'static str, Option<Rule>);

static DIGITS: [DigitsRow; 14] = [
    (3, Some(1), "12.3", None),
    (3, Some(1), "12.34", Some(Rule::Digits)),
    (3, Some(1), "0012.30", None),
    (3, Some(1), "999", None),
    (3, Some(1), "1000", Some(Rule::Digits)),
    (3, None, "0.001", None),
    (3, None, "0.0001", Some(Rule::Digits)),
    (0, None, "0", None),
    (0, None, "1", Some(Rule::Digits)),
    (18, None, "999999999999999999", None),
    (18, None, "-1000000000000000000", Some(Rule::Digits)),
    (18, Some(17), "0.000000000000000001", Some(Rule::Digits)),
    (18, None, "1e3", Some(Rule::BadText)),
    (1, None, "-0.50", None),
];

fn with_digits(total: u8, fraction: Option<u8>) -> Simple
    ensures { IsWithinLimits result }
{
    let mut simple = simple_of(Kind::Decimal);
    if total <= 18 {
        simple.total = total;
    }
    simple.fraction = fraction;
    simple
}

fn have_digits(rt: &impl Abort, alloc: Global, rows: &[DigitsRow]) -> Result<(), AllocError> {
    for (total, fraction, text, want) in rows {
        assert!(rt; broken(alloc, &with_digits(*total, *fraction), text)? == *want);
    }
    Ok(())
}

#[test]
fn numbers_have_digits(rt: HostRuntime) -> Result<(), Fail> {
    have_digits(&rt, rt.alloc(), DIGITS.as_slice())?;
    Ok(())
}

/// A lower and an upper bound in tenths, whether they are strict, a text, and what it breaks.
type RangeRow = (i64, bool, i64, bool, &'static str, Option<Rule>);

static RANGES: [RangeRow; 12] = [
    (0, false, 15, false, "0", None),
    (0, false, 15, false, "-0.1", Some(Rule::OutOfRange)),
    (0, false, 15, false, "-0", None),
    (0, true, 15, false, "0", Some(Rule::OutOfRange)),
    (0, true, 15, false, "0.001", None),
    (0, false, 15, false, "1.50", None),
    (0, false, 15, false, "1.51", Some(Rule::OutOfRange)),
    (0, false, 15, true, "1.5", Some(Rule::OutOfRange)),
    (0, false, 15, true, "1.4999", None),
    (20, false, 10, false, "1.5", Some(Rule::OutOfRange)),
    (10, true, 10, false, "1", Some(Rule::OutOfRange)),
    (
        0,
        false,
        15,
        false,
        "9999999999999999999",
        Some(Rule::Digits),
    ),
];

fn bound(tenths: i64, strict: bool) -> Option<Bound> {
    let value = Decimal::make(tenths, 1)?;
    Some(Bound { value, strict })
}

fn with_range(low: Option<Bound>, high: Option<Bound>) -> Simple
    ensures { IsWithinLimits result }
{
    let mut simple = simple_of(Kind::Decimal);
    simple.low = low;
    simple.high = high;
    simple
}

fn have_ranges(rt: &impl Abort, alloc: Global, rows: &[RangeRow]) -> Result<(), AllocError> {
    for (low, above, high, below, text, want) in rows {
        let simple = with_range(bound(*low, *above), bound(*high, *below));
        assert!(rt; broken(alloc, &simple, text)? == *want);
    }
    Ok(())
}

#[test]
fn numbers_have_bounds(rt: HostRuntime) -> Result<(), Fail> {
    have_ranges(&rt, rt.alloc(), RANGES.as_slice())?;
    Ok(())
}

/// The place of the text among the codes under the simple type, or the rule that it breaks first.
fn coded(alloc: Global, simple: &Simple, text: &str) -> Result<Result<u32, Rule>, AllocError>
    requires { IsWithinLimits simple.now }
{
    let mut check = LeafCheck::new(alloc, simple)?;
    place(&mut check, simple, text)
}

fn place(
    check: &mut LeafCheck,
    simple: &Simple,
    text: &str,
) -> Result<Result<u32, Rule>, AllocError>
    requires { IsCheckMadeFor check.old simple.now }
{
    let run = xml_run(text.as_bytes());
    check.take_run(
        simple,
        text.as_bytes().split_at(run.bytes).0,
        run.characters,
    )?;
    Ok(match check.finish(simple) {
        Ok(LeafRef::Code(at)) => Ok(at),
        Ok(_) => Err(Rule::BadText),
        Err(rule) => Err(rule),
    })
}

/// A simple type with the codes ABCD and ZB. Where there are codes, its length and its pattern count nowhere.
fn coded_type(alloc: Global) -> Result<Simple, Fail>
    ensures { IfOk result (λ simple. IsWithinLimits simple) }
{
    let pattern = pattern_of(alloc, "x")?;
    let codes = two_codes(alloc)?;
    let mut simple = with_lengths(Kind::Text, 3, Some(3));
    simple.pattern = pattern;
    simple.codes = Some(codes);
    Ok(simple)
}

fn two_codes(alloc: Global) -> Result<Codes, Fail>
    ensures { IfOk result (λ codes. length codes ≡ 2) }
{
    let mut codes = Codes::new(alloc);
    codes.push(text_of(alloc, "ABCD")?)?;
    codes.push(text_of(alloc, "ZB")?)?;
    Ok(codes)
}

fn text_of(alloc: Global, characters: &str) -> Result<Text, AllocError>
    ensures { IfOk result (λ text. text ≡ characters.now) }
{
    let mut text = Text::new(alloc);
    text.extend(characters.as_bytes())?;
    Ok(text)
}

/// Texts, and their places among the codes.
static CODED: [(&str, Result<u32, Rule>); 6] = [
    ("ABCD", Ok(0)),
    ("ZB", Ok(1)),
    ("ABC", Err(Rule::NotACode)),
    ("ABCDE", Err(Rule::NotACode)),
    (" ZB", Err(Rule::NotACode)),
    ("", Err(Rule::NotACode)),
];

#[test]
fn texts_are_codes(rt: HostRuntime) -> Result<(), Fail> {
    let simple = coded_type(rt.alloc())?;
    for (text, want) in &CODED {
        assert!(rt; coded(rt.alloc(), &simple, text)? == *want);
    }
    Ok(())
}

#[test]
fn a_text_is_among_the_codes(rt: HostRuntime) -> Result<(), Fail> {
    let codes = two_codes(rt.alloc())?;
    assert!(rt; codes.len() == 2 && codes.place(b"ZB".as_slice()) == Some(1));
    Ok(())
}

#[test]
fn the_least_rule_is_told(rt: HostRuntime) -> Result<(), Fail> {
    let mut simple = with_lengths(Kind::Text, 0, Some(2));
    simple.pattern = pattern_of(rt.alloc(), "[a-z]*")?;
    assert!(rt; broken(rt.alloc(), &simple, "ABC")? == Some(Rule::BadLength));
    Ok(())
}

fn reserve_and_take(check: &mut LeafCheck, simple: &Simple) -> Result<(), AllocError>
    requires { IsCheckMadeFor check.old simple.now }
{
    check.reserve(8)?;
    check.take(simple, 'A')
}

#[test]
fn a_check_reserves(rt: HostRuntime) {
    let simple = with_lengths(Kind::Text, 1, Some(35));
    let mut check = LeafCheck::new(rt.alloc(), &simple).expect(&rt, "memory");
    reserve_and_take(&mut check, &simple).expect(&rt, "memory");
    assert!(rt; check.scratch() == 1);
}

#[test]
fn numbers_are_checked(rt: HostRuntime) {
    let simple = with_digits(3, Some(1));
    for (whole, scale, want) in [(1234, 2, Err(Rule::Digits)), (123, 1, Ok(()))] {
        let value = Decimal::make(whole, scale).expect(&rt, "a decimal");
        assert!(rt; check_number(&simple, value) == want);
    }
}

#[test]
fn octets_are_checked(rt: HostRuntime) {
    let octets = with_lengths(Kind::Binary, 1, Some(2));
    for (count, want) in [
        (3, Err(Rule::BadLength)),
        (2, Ok(())),
        (0, Err(Rule::BadLength)),
    ] {
        assert!(rt; check_octets(&octets, count) == want);
    }
}
