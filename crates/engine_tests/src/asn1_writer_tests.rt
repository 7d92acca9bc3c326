//! What no clause says: that the text is the module that is meant, and that calls which may want memory succeed where there is some.
use asn1_model::{AsnShape, AsnType, AsnTypes, Field, Fields, Mode, Module, Names};
use asn1_writer::write_module;
use data_types::Kind;
use facets::{Bound, Codes, Step, Texts};
use lexical_core::{Decimal, Text};
use outside::{MemSink, WriteError};
use std::alloc::{AllocError, Global};
use std::process::Abort;
use std::test::Fail;

/// A type of one value: its name, its kind, its lengths, and its pattern, where it has one.
#[derive(Clone, Copy)]
struct Plain {
    name: &'static str,
    kind: Kind,
    min: Option<u64>,
    max: Option<u64>,
    pattern: &'static str,
}

/// A field: its name, and how often it comes.
#[derive(Clone, Copy)]
struct Component {
    name: &'static str,
    min: u32,
    max: Option<u32>,
}

static PLAIN: [Plain; 7] = [
    Plain {
        name: "Any-Text",
        kind: Kind::Text,
        min: None,
        max: None,
        pattern: "",
    },
    Plain {
        name: "Short-Text",
        kind: Kind::Text,
        min: None,
        max: Some(35),
        pattern: "[^-]-\n--[a-z]---\r-",
    },
    Plain {
        name: "Long-Text",
        kind: Kind::Text,
        min: Some(1),
        max: Some(35),
        pattern: "",
    },
    Plain {
        name: "Octets",
        kind: Kind::Binary,
        min: Some(2),
        max: None,
        pattern: "",
    },
    Plain {
        name: "Flag",
        kind: Kind::Boolean,
        min: None,
        max: None,
        pattern: "",
    },
    Plain {
        name: "Moment",
        kind: Kind::DateTime,
        min: None,
        max: None,
        pattern: ".*Z",
    },
    Plain {
        name: "Number",
        kind: Kind::Decimal,
        min: None,
        max: None,
        pattern: "",
    },
];

static COMPONENTS: [Component; 4] = [
    Component {
        name: "one",
        min: 1,
        max: Some(1),
    },
    Component {
        name: "some",
        min: 0,
        max: Some(1),
    },
    Component {
        name: "any-list",
        min: 0,
        max: None,
    },
    Component {
        name: "few-list",
        min: 2,
        max: Some(5),
    },
];

/// The text of the module.
const WRITTEN: &[u8] =
    b"Demo-001-001-01 DEFINITIONS AUTOMATIC TAGS ::= BEGIN\n\nAny-Text ::= UTF8String (CONSTRAINED BY {-- xml characters --})\n\nShort-Text ::= UTF8String (SIZE (0..35)) (CONSTRAINED BY {-- xml characters --}) (CONSTRAINED BY {-- pattern [^-]- - -[a-z]- - - - --})\n\nLong-Text ::= UTF8String (SIZE (1..35)) (CONSTRAINED BY {-- xml characters --})\n\nOctets ::= OCTET STRING (SIZE (2..MAX))\n\nFlag ::= BOOLEAN\n\nMoment ::= VisibleString (CONSTRAINED BY {-- xs:dateTime profile --}) (CONSTRAINED BY {-- pattern .*Z --})\n\nNumber ::= REAL (WITH COMPONENTS {..., base (10)})\n\nAmount ::= SEQUENCE {\n  ccy Code,\n  base REAL (WITH COMPONENTS {..., base (10)}) (CONSTRAINED BY {-- totalDigits 18 --}) (CONSTRAINED BY {-- fractionDigits 5 --}) (CONSTRAINED BY {-- minInclusive 0 --}) (CONSTRAINED BY {-- maxExclusive 100.5 --})\n}\n\nCode ::= ENUMERATED {\n  aBCD(0),\n  zB(1)\n}\n\nFields ::= SEQUENCE {\n  one T,\n  some T OPTIONAL,\n  any-list SEQUENCE (SIZE (0..MAX)) OF T,\n  few-list SEQUENCE (SIZE (2..5)) OF T\n}\n\nNothing ::= CHOICE {\n}\n\nEnvelope ::= UTF8String (CONSTRAINED BY {-- canonical fragment --})\n\nEND\n";

fn text(alloc: Global, text: &str) -> Result<Text, AllocError> {
    Ok(Text::from_vec(Vec::from_slice(alloc, text.as_bytes())?))
}

/// A step with these lengths.
fn step(alloc: Global, min: Option<u64>, max: Option<u64>) -> Step {
    Step {
        base: None,
        total: None,
        fraction: None,
        low: None,
        high: None,
        min,
        max,
        codes: Codes::new(alloc),
        patterns: Texts::new(alloc),
    }
}

fn bound(whole: i64, scale: u8, strict: bool) -> Result<Option<Bound>, Fail> {
    match Decimal::make(whole, scale) {
        Some(value) => Ok(Some(Bound { value, strict })),
        None => Err(Fail::from("a decimal")),
    }
}

/// A step with digits and bounds.
fn number(alloc: Global) -> Result<Step, Fail> {
    Ok(Step {
        base: None,
        total: Some(18),
        fraction: Some(5),
        low: bound(0, 0, false)?,
        high: bound(1005, 1, true)?,
        min: None,
        max: None,
        codes: Codes::new(alloc),
        patterns: Texts::new(alloc),
    })
}

fn shape_of(alloc: Global, row: &Plain) -> Result<AsnShape, AllocError> {
    let pattern = if row.pattern.is_empty() {
        None
    } else {
        Some(text(alloc, row.pattern)?)
    };
    Ok(AsnShape::Plain(row.kind, step(alloc, row.min, row.max), pattern))
}

fn mode(row: &Component) -> Mode {
    match row.max {
        Some(1) => {
            if row.min == 0 {
                Mode::Optional
            } else {
                Mode::Required
            }
        }
        max => Mode::List { min: row.min, max },
    }
}

fn fields(alloc: Global) -> Result<Fields, AllocError> {
    let mut fields = Fields::new(alloc);
    for row in COMPONENTS.as_slice() {
        fields.push(field_of(alloc, row)?)?;
    }
    Ok(fields)
}

fn field_of(alloc: Global, row: &Component) -> Result<Field, AllocError> {
    let name = text(alloc, row.name)?;
    let target = text(alloc, "T")?;
    Ok(Field {
        name,
        target,
        mode: mode(row),
    })
}

fn codes(alloc: Global) -> Result<Names, AllocError> {
    let mut names = Names::new(alloc);
    names.push(text(alloc, "aBCD")?)?;
    names.push(text(alloc, "zB")?)?;
    Ok(names)
}

fn add(alloc: Global, name: &str, shape: AsnShape, types: &mut AsnTypes) -> Result<(), AllocError> {
    let name = text(alloc, name)?;
    types.push(AsnType { name, shape })
}

fn amount(alloc: Global) -> Result<AsnShape, Fail> {
    let code = text(alloc, "Code")?;
    let base = number(alloc)?;
    Ok(AsnShape::Money { code, base })
}

fn add_plain(alloc: Global, types: &mut AsnTypes) -> Result<(), AllocError> {
    for row in PLAIN.as_slice() {
        add(alloc, row.name, shape_of(alloc, row)?, types)?;
    }
    Ok(())
}

fn add_others(alloc: Global, types: &mut AsnTypes) -> Result<(), AllocError> {
    let named = AsnShape::Enumerated(Codes::new(alloc), codes(alloc)?);
    add(alloc, "Code", named, types)?;
    add(alloc, "Fields", AsnShape::Sequence(fields(alloc)?), types)?;
    add(
        alloc,
        "Nothing",
        AsnShape::Choice(Fields::new(alloc)),
        types,
    )?;
    add(alloc, "Envelope", AsnShape::Fragment, types)
}

fn add_all(alloc: Global, types: &mut AsnTypes) -> Result<(), Fail> {
    add_plain(alloc, types)?;
    add(alloc, "Amount", amount(alloc)?, types)?;
    add_others(alloc, types)?;
    Ok(())
}

fn types(alloc: Global) -> Result<AsnTypes, Fail> {
    let mut types = AsnTypes::new(alloc);
    add_all(alloc, &mut types)?;
    Ok(types)
}

fn module(alloc: Global) -> Result<Module, Fail> {
    let name = text(alloc, "Demo-001-001-01")?;
    let types = types(alloc)?;
    Ok(Module { name, types })
}

#[test]
fn a_module_is_written(rt: HostRuntime) -> Result<(), Fail> {
    let module = module(rt.alloc())?;
    let mut sink = MemSink::new(rt.alloc(), [].as_slice())?;
    assert!(rt; write_module(&module, &mut sink) == Ok(()));
    assert!(rt; sink.bytes() == WRITTEN);
    Ok(())
}

#[test]
fn a_write_fails_in_the_middle(rt: HostRuntime) -> Result<(), Fail> {
    let module = module(rt.alloc())?;
    let mut sink = MemSink::new(rt.alloc(), [1].as_slice())?;
    assert!(rt; write_module(&module, &mut sink) == Err(WriteError::WriteFault));
    assert!(rt; sink.bytes() == b"Demo-001-001-01".as_slice());
    Ok(())
}
