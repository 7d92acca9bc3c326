//! What no clause says: that the clauses mean what the standard's own examples say, and that calls which
//! may want memory succeed where there is some.
ghost use Rattle.std.specs.Prelude.{IfOk, Option, List, ℕ};
ghost use Rattle.data_types.specs.LeafSteps.{HasTakenLeaf};
ghost use Rattle.data_types.specs.declared.kind.Kind.{Kind};

use data_types::{Kind, LeafRef, LeafStep, boolean_of, is_date_text, push_escaped, push_leaf};
use lexical_core::{Rule, xml_run};
use outside::{MemSink, SinkError};
use std::alloc::{AllocError, Global};
use std::process::Abort;
use std::test::Fail;

/// What a text spells.
#[derive(Clone, Copy, Debug, PartialEq, Eq, Drop)]
enum Verdict {
    Leaf,
    Bad,
    Digits,
    Longer,
}

use Verdict::{Bad, Digits, Leaf, Longer};

static NUMBERS: [(&str, Verdict); 19] = [
    ("999999999999999999", Leaf),
    ("-999999999999999999", Leaf),
    ("1000000000000000000", Digits),
    ("000000000000000000001", Leaf),
    ("0.000000000000000001", Leaf),
    ("0.0000000000000000010", Leaf),
    ("0.0000000000000000001", Digits),
    ("9999999999999999.999", Digits),
    ("+.5", Leaf),
    ("5.", Leaf),
    ("-0", Leaf),
    ("\t1.50\r\n", Leaf),
    ("", Bad),
    (".", Bad),
    ("++1", Bad),
    ("+-1", Bad),
    ("1e3", Bad),
    ("1 2", Bad),
    ("1,5", Bad),
];

static FLAGS: [(&str, Verdict); 9] = [
    ("true", Leaf),
    ("false", Leaf),
    ("0", Leaf),
    (" 1 ", Leaf),
    ("", Bad),
    ("TRUE", Bad),
    ("tru e", Bad),
    ("10", Bad),
    ("true false", Bad),
];

static OCTETS: [(&str, Verdict); 20] = [
    ("", Leaf),
    ("QQ==", Leaf),
    ("QUI=", Leaf),
    ("QUJD", Leaf),
    ("Q Q = =", Leaf),
    ("Q  Q\n==", Leaf),
    (" QUJD ", Leaf),
    ("QUJD QQ==", Leaf),
    ("+/+/", Leaf),
    ("Q", Bad),
    ("QQ", Bad),
    ("QQ=", Bad),
    ("QQ===", Bad),
    ("QR==", Bad),
    ("QUJ=", Bad),
    ("QQ==QQ==", Bad),
    ("QUI=QUJD", Bad),
    ("=QUJ", Bad),
    ("QUJ-", Bad),
    ("QUJ\u{E9}", Bad),
];

static DAYS: [(&str, Verdict); 16] = [
    ("0001-01-01", Leaf),
    ("0000-01-01", Bad),
    ("9999-12-31Z", Leaf),
    ("10000-01-01", Bad),
    ("2024-02-29", Leaf),
    ("2023-02-29", Bad),
    ("2000-02-29", Leaf),
    ("1900-02-29", Bad),
    ("2024-12-31", Leaf),
    ("2024-13-01", Bad),
    ("2024-2-29", Bad),
    (" 2024-01-01+14:00 ", Leaf),
    ("2024-01-01+14:01", Bad),
    ("2024-01-01-14:00", Leaf),
    ("2024-01-01-14:01", Bad),
    ("2024-01-01-13:60", Bad),
];

static TIMES: [(&str, Verdict); 13] = [
    ("23:59:59", Leaf),
    ("24:00:00", Bad),
    ("12:59:00", Leaf),
    ("12:60:00", Bad),
    ("12:00:59", Leaf),
    ("12:00:60", Bad),
    ("12:00:00.123456789Z", Leaf),
    ("12:00:00.1234567890", Bad),
    ("12:00:00.5-00:00", Leaf),
    ("12:00:00.", Bad),
    ("12:00", Bad),
    ("12:00:00z", Bad),
    ("12:00 :00", Bad),
];

static PARTS: [(Kind, &str, Verdict); 19] = [
    (Kind::DateTime, "2024-02-29T23:59:59.123Z", Leaf),
    (Kind::DateTime, "2024-02-29T23:59:59.123456789-14:00", Leaf),
    (Kind::DateTime, "2023-02-29T00:00:00Z", Bad),
    (Kind::DateTime, "2024-02-29 00:00:00", Bad),
    (Kind::Year, "0001", Leaf),
    (Kind::Year, "0000", Bad),
    (Kind::Year, "9999-13:59", Leaf),
    (Kind::Year, "99999", Bad),
    (Kind::YearMonth, "2024-12", Leaf),
    (Kind::YearMonth, "2024-00", Bad),
    (Kind::MonthDay, "--02-29", Leaf),
    (Kind::MonthDay, "--02-30", Bad),
    (Kind::MonthDay, "-02-29", Bad),
    (Kind::Month, "--12Z", Leaf),
    (Kind::Month, "--13", Bad),
    (Kind::Day, "---31", Leaf),
    (Kind::Day, "---32", Bad),
    (Kind::Text, " any <text>\u{20AC} ", Leaf),
    (Kind::Envelope, "", Bad),
];

/// The reader, given the characters of the text too, as one run.
fn read(step: LeafStep, text: &str) -> Result<LeafStep, AllocError>
    ensures { IfOk result (λ given. (kind : Kind) (most : Option ℕ) (chars : List ℕ)
        → HasTakenLeaf step kind most chars → (all : List ℕ) × HasTakenLeaf given kind most all) }
{
    let mut given = step;
    let run = xml_run(text.as_bytes());
    given.take_run(text.as_bytes().split_at(run.bytes).0, run.characters)?;
    Ok(given)
}

fn judge(step: LeafStep, text: &str) -> Result<Verdict, AllocError> {
    let given = read(step, text)?;
    Ok(match given.finish() {
        Ok(_) => Leaf,
        Err(Rule::Digits) => Digits,
        Err(Rule::BadLength) => Longer,
        Err(_) => Bad,
    })
}

fn are(
    rt: &impl Abort,
    alloc: Global,
    kind: Kind,
    rows: &[(&str, Verdict)],
) -> Result<(), AllocError> {
    for (text, want) in rows {
        assert!(rt; judge(LeafStep::new(alloc, kind), text)? == *want);
    }
    Ok(())
}

fn are_parts(
    rt: &impl Abort,
    alloc: Global,
    rows: &[(Kind, &str, Verdict)],
) -> Result<(), AllocError> {
    for (kind, text, want) in rows {
        assert!(rt; judge(LeafStep::new(alloc, *kind), text)? == *want);
    }
    Ok(())
}

static LIMITED: [(Kind, u64, &str, Verdict); 13] = [
    (Kind::Text, 3, "\u{20AC}\u{20AC}\u{1F600}", Leaf),
    (Kind::Text, 3, "abcd", Longer),
    (Kind::Text, 0, "", Leaf),
    (Kind::Text, 0, " ", Longer),
    (Kind::Binary, 4, "QUJDQQ==", Leaf),
    (Kind::Binary, 4, "QUJDQUI=", Longer),
    (Kind::Binary, 4, "QUJDQUJDQQ==", Longer),
    (Kind::Binary, 4, "QUJDQUJDQQ=", Bad),
    (Kind::Binary, 4, "QUJDQUJDQR==", Bad),
    (Kind::Binary, 0, "", Leaf),
    (Kind::Decimal, 0, "10", Leaf),
    (Kind::Boolean, 0, "true", Leaf),
    (Kind::Year, 0, "2024", Leaf),
];

fn are_limited(
    rt: &impl Abort,
    alloc: Global,
    rows: &[(Kind, u64, &str, Verdict)],
) -> Result<(), AllocError> {
    for (kind, most, text, want) in rows {
        assert!(rt; judge(LeafStep::within(alloc, *kind, *most), text)? == *want);
    }
    Ok(())
}

#[test]
fn lengths_have_limits(rt: HostRuntime) -> Result<(), Fail> {
    are_limited(&rt, rt.alloc(), LIMITED.as_slice())?;
    Ok(())
}

fn reserve_and_take(step: &mut LeafStep) -> Result<(), AllocError> {
    step.reserve(8)?;
    step.take('\u{20AC}')?;
    step.take('a')?;
    step.take('b')
}

#[test]
fn a_reader_reserves(rt: HostRuntime) -> Result<(), Fail> {
    let mut step = LeafStep::within(rt.alloc(), Kind::Text, 2);
    reserve_and_take(&mut step)?;
    assert_eq!(rt; step.kept(), 4);
    assert!(rt; matches!(step.finish(), Err(Rule::BadLength)));
    Ok(())
}

#[test]
fn texts_spell_leaves(rt: HostRuntime) -> Result<(), Fail> {
    are(&rt, rt.alloc(), Kind::Decimal, NUMBERS.as_slice())?;
    are(&rt, rt.alloc(), Kind::Boolean, FLAGS.as_slice())?;
    are(&rt, rt.alloc(), Kind::Binary, OCTETS.as_slice())?;
    Ok(())
}

#[test]
fn texts_spell_dates(rt: HostRuntime) -> Result<(), Fail> {
    are(&rt, rt.alloc(), Kind::Date, DAYS.as_slice())?;
    are(&rt, rt.alloc(), Kind::Time, TIMES.as_slice())?;
    are_parts(&rt, rt.alloc(), PARTS.as_slice())?;
    Ok(())
}

static PUSHED: [(Kind, &str, &str); 12] = [
    (Kind::Text, "a<b", "a&lt;b"),
    (Kind::Text, "&>\r\t\"", "&amp;&gt;&#13;\t\""),
    (Kind::Text, " \u{20AC}\u{1F600} ", " \u{20AC}\u{1F600} "),
    (Kind::Text, "", ""),
    (Kind::Decimal, "+001.50", "1.5"),
    (Kind::Decimal, "-0.0", "0"),
    (Kind::Boolean, "1", "true"),
    (Kind::Boolean, " false ", "false"),
    (Kind::Binary, " Q Q==", "QQ=="),
    (
        Kind::Binary,
        "QUJDQUJDQUJDQUJDQUJDQUJDQUJDQUJDQUJDQUJDQUJDQUJDQUJDQUJDQUJDQUJDQUI=",
        "QUJDQUJDQUJDQUJDQUJDQUJDQUJDQUJDQUJDQUJDQUJDQUJDQUJDQUJDQUJDQUJDQUI=",
    ),
    (Kind::Binary, "", ""),
    (Kind::Date, " 2024-02-29+00:00\n", "2024-02-29+00:00"),
];

/// The text of the leaf that the text spells is pushed on the sink.
fn push(
    alloc: Global,
    kind: Kind,
    text: &str,
    sink: &mut MemSink,
) -> Result<Result<(), SinkError>, Fail> {
    let step = read(LeafStep::new(alloc, kind), text)?;
    match step.finish() {
        Ok(leaf) => Ok(push_leaf(kind, &leaf, sink)),
        Err(_) => Err(Fail::from("a leaf")),
    }
}

fn are_pushed(rt: &impl Abort, alloc: Global, rows: &[(Kind, &str, &str)]) -> Result<(), Fail> {
    for (kind, text, want) in rows {
        let mut sink = MemSink::new(alloc, [].as_slice())?;
        assert!(rt; push(alloc, *kind, text, &mut sink)? == Ok(()));
        assert!(rt; sink.bytes() == want.as_bytes());
    }
    Ok(())
}

#[test]
fn leaves_are_pushed(rt: HostRuntime) -> Result<(), Fail> {
    are_pushed(&rt, rt.alloc(), PUSHED.as_slice())
}

#[test]
fn attributes_are_pushed(rt: HostRuntime) -> Result<(), Fail> {
    let mut sink = MemSink::new(rt.alloc(), [].as_slice())?;
    assert!(rt; push_escaped(b"A\"\t<\n\xE2\x82\xAC".as_slice(), true, &mut sink) == Ok(()));
    assert!(rt; sink.bytes() == b"A&quot;&#9;&lt;&#10;\xE2\x82\xAC".as_slice());
    Ok(())
}

#[test]
fn a_push_fails_in_the_middle(rt: HostRuntime) -> Result<(), Fail> {
    let mut sink = MemSink::new(rt.alloc(), [1].as_slice())?;
    assert!(rt; push(rt.alloc(), Kind::Text, "a<b", &mut sink)? == Err(SinkError::Failed));
    assert!(rt; sink.bytes() == b"a".as_slice());
    Ok(())
}

/// Gives the reader, as it was when it was new, the text of one octet.
fn begin_anew(step: &mut LeafStep) -> Result<(), AllocError> {
    step.restart();
    step.take('Q')?;
    step.take('Q')?;
    step.take('=')?;
    step.take('=')
}

#[test]
fn a_reader_begins_anew(rt: HostRuntime) -> Result<(), Fail> {
    let mut step = read(LeafStep::new(rt.alloc(), Kind::Binary), "Q*")?;
    assert!(rt; matches!(step.finish(), Err(Rule::BadText)));
    begin_anew(&mut step)?;
    assert!(rt; matches!(step.finish(), Ok(LeafRef::Bytes(b"A"))));
    Ok(())
}

#[test]
fn whole_texts_are_read(rt: HostRuntime) -> Result<(), Fail> {
    assert!(rt; is_date_text(Kind::Date, b"2024-02-29".as_slice()));
    assert!(rt; boolean_of(b"1".as_slice()) == Some(true));
    assert!(rt; boolean_of(b"TRUE".as_slice()) == None);
    Ok(())
}
