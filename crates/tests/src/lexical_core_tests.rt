//! What no clause says: that the clauses mean what the standards' own examples say, and that calls which
//! may want memory succeed where there is some.
use lexical_core::{Decimal, DecimalStep, DecimalText, Items, Text, read_nr3};
use std::alloc::{AllocError, Global};
use std::test::Fail;

/// The text `abc`, made of two parts.
fn grown(alloc: Global) -> Result<Text, AllocError> {
    let mut text = Text::new(alloc);
    text.extend(b"ab".as_slice())?;
    text.extend(b"c".as_slice())?;
    Ok(text)
}

#[test]
fn texts_grow(rt: HostRuntime) -> Result<(), Fail> {
    let copy = grown(rt.alloc())?.copy(rt.alloc())?;
    assert!(rt; copy.bytes() == b"abc".as_slice());
    Ok(())
}

#[test]
fn lists_grow(rt: HostRuntime) -> Result<(), Fail> {
    let mut items: Items<u8> = Items::new(rt.alloc());
    items.push(7)?;
    assert!(rt; items.len() == 1);
    Ok(())
}

/// The decimal has this text.
fn has_text(number: Decimal, text: &[u8]) -> bool {
    let mut buf = [0; 32];
    let length = number.text_into(&mut buf);
    buf.get(..length) == Some(text)
}

/// The decimal has these contents, and they are read as it.
fn has_contents(number: Decimal, contents: &[u8]) -> bool {
    let mut buf = [0; 32];
    let length = number.nr3_into(&mut buf);
    buf.get(..length) == Some(contents) && read_nr3(contents) == Some(number)
}

/// A whole part and a scale, the text and the contents.
type WrittenRow = (i64, u8, &'static [u8], &'static [u8]);

static WRITTEN: [WrittenRow; 6] = [
    (150, 2, b"1.5", b"\x0315.E-1"),
    (0, 7, b"0", b""),
    (-100, 0, b"-100", b"\x03-1.E2"),
    (5, 1, b"0.5", b"\x035.E-1"),
    (1_000_000_000_000_000_000, 18, b"1", b"\x031.E+0"),
    (
        -999_999_999_999_999_999,
        18,
        b"-0.999999999999999999",
        b"\x03-999999999999999999.E-18",
    ),
];

#[test]
fn decimals_are_written(rt: HostRuntime) {
    for (whole, scale, text, contents) in &WRITTEN {
        let number = Decimal::make(*whole, *scale).expect(&rt, "a decimal");
        assert!(rt; has_text(number, text) && has_contents(number, contents));
    }
}

#[test]
fn decimals_have_bounds(rt: HostRuntime) {
    for (whole, scale, is_there) in [
        (1_000_000_000_000_000_000, 0, false),
        (999_999_999_999_999_999, 0, true),
        (1, 18, true),
        (1, 19, false),
    ] {
        assert!(rt; Decimal::make(whole, scale).is_some() == is_there);
    }
}

/// Contents, and whether they are those of a decimal.
static CONTENTS: [(&[u8], bool); 5] = [
    (b"\x03150.E-2", false),
    (b"\x031.E17", true),
    (b"\x031.E18", false),
    (b"\x031.E9999", false),
    (b"\x031.E0", false),
];

#[test]
fn contents_are_read(rt: HostRuntime) {
    for (contents, is_read) in &CONTENTS {
        assert!(rt; read_nr3(contents).is_some() == *is_read);
    }
}

/// What the text is.
fn read(text: &str) -> DecimalText {
    let mut step = DecimalStep::new();
    for c in text.chars() {
        step.take(c);
    }
    step.finish()
}

/// Texts of decimals, and their whole parts and scales.
static READ: [(&str, i64, u8); 6] = [
    ("+.5", 5, 1),
    ("-0", 0, 0),
    ("007.", 7, 0),
    ("999999999999999999", 999_999_999_999_999_999, 0),
    ("0.0000000000000000010", 1, 18),
    ("1.0000000000000000000000000", 1, 0),
];

#[test]
fn decimal_texts_are_read(rt: HostRuntime) {
    for (text, whole, scale) in &READ {
        let number = Decimal::make(*whole, *scale).expect(&rt, "a decimal");
        assert!(rt; read(text) == DecimalText::Value(number));
    }
}

#[test]
fn other_texts_are_told(rt: HostRuntime) {
    for text in ["1000000000000000000", "0.0000000000000000001"] {
        assert!(rt; read(text) == DecimalText::TooLong);
    }
    for text in ["", "+", ".", "1e3", "++1", "1 ", "1.2.3"] {
        assert!(rt; read(text) == DecimalText::Bad);
    }
}
