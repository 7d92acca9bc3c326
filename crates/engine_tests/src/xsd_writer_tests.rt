//! What no clause says: that the text is a schema as the standard has it, for each shape and each facet, and that it is
//! written where there is memory.
use data_types::Kind;
use facets::{Bound, Codes, Step, Texts, plain_step};
use lexical_core::{Decimal, Text};
use outside::{MemSink, WriteError};
use std::alloc::{AllocError, Global};
use std::test::Fail;
use xsd_model::{Part, Parts, Schema, SchemaShape, SchemaType, SchemaTypes, Steps};
use xsd_writer::write_schema;

static WANTED: &str = r###"<?xml version="1.0" encoding="UTF-8"?>
<xs:schema xmlns="urn:a&amp;b" xmlns:xs="http://www.w3.org/2001/XMLSchema" elementFormDefault="qualified" targetNamespace="urn:a&amp;b">
  <xs:element name="Document" type="Document"/>
  <xs:complexType name="Document">
    <xs:sequence>
      <xs:element name="Once" type="A"/>
      <xs:element name="Maybe" type="B" minOccurs="0"/>
      <xs:element name="Any" type="C" minOccurs="0" maxOccurs="unbounded"/>
      <xs:element name="Some" type="D" minOccurs="2" maxOccurs="10"/>
    </xs:sequence>
  </xs:complexType>
  <xs:complexType name="Empty">
    <xs:sequence/>
  </xs:complexType>
  <xs:complexType name="Pick">
    <xs:choice>
      <xs:element name="Once" type="A"/>
    </xs:choice>
  </xs:complexType>
  <xs:simpleType name="Flag">
    <xs:restriction base="xs:boolean"/>
  </xs:simpleType>
  <xs:simpleType name="Number">
    <xs:restriction base="xs:decimal">
      <xs:totalDigits value="18"/>
      <xs:fractionDigits value="5"/>
      <xs:minExclusive value="-1.5"/>
      <xs:maxInclusive value="20"/>
    </xs:restriction>
  </xs:simpleType>
  <xs:simpleType name="Code">
    <xs:restriction base="xs:string">
      <xs:enumeration value="&quot;A"/>
    </xs:restriction>
  </xs:simpleType>
  <xs:simpleType name="Nested">
    <xs:restriction>
      <xs:simpleType>
        <xs:restriction>
          <xs:simpleType>
            <xs:restriction base="xs:dateTime">
              <xs:minLength value="1"/>
              <xs:maxLength value="35"/>
              <xs:pattern value="[0-9]"/>
              <xs:pattern value="&lt;"/>
            </xs:restriction>
          </xs:simpleType>
        </xs:restriction>
      </xs:simpleType>
      <xs:pattern value=".*Z"/>
    </xs:restriction>
  </xs:simpleType>
  <xs:complexType name="Amount">
    <xs:simpleContent>
      <xs:extension base="Number">
        <xs:attribute name="Ccy" type="Code" use="required"/>
      </xs:extension>
    </xs:simpleContent>
  </xs:complexType>
  <xs:complexType name="Open">
    <xs:sequence>
      <xs:any namespace="##any" processContents="skip"/>
    </xs:sequence>
  </xs:complexType>
</xs:schema>
"###;

static FRONT: &str = r###"<?xml version="1.0" encoding="UTF-8"?>
<xs:schema xmlns="urn:a"###;

/// A part's tag, its type, and how often it comes.
type PartRow = (&'static str, &'static str, u32, Option<u32>);

static PARTS: [PartRow; 4] = [
    ("Once", "A", 1, Some(1)),
    ("Maybe", "B", 0, Some(1)),
    ("Any", "C", 0, None),
    ("Some", "D", 2, Some(10)),
];

static ALTERNATIVES: [PartRow; 1] = [("Once", "A", 1, Some(1))];

fn text_of(alloc: Global, characters: &str) -> Result<Text, AllocError> {
    Ok(Text::from_vec(Vec::from_slice(alloc, characters.as_bytes())?))
}

fn parts_of(alloc: Global, rows: &[PartRow]) -> Result<Parts, AllocError> {
    let mut parts = Parts::new(alloc);
    add_parts(alloc, &mut parts, rows)?;
    Ok(parts)
}

fn add_parts(alloc: Global, parts: &mut Parts, rows: &[PartRow]) -> Result<(), AllocError> {
    for row in rows {
        parts.push(part_of(alloc, row)?)?;
    }
    Ok(())
}

fn part_of(alloc: Global, row: &PartRow) -> Result<Part, AllocError> {
    let tag = text_of(alloc, row.0)?;
    let target = text_of(alloc, row.1)?;
    Ok(Part {
        tag,
        target,
        min: row.2,
        max: row.3,
    })
}

fn texts_of(alloc: Global, rows: &[&str]) -> Result<Texts, AllocError> {
    let mut texts = Texts::new(alloc);
    for row in rows {
        texts.push(text_of(alloc, row)?)?;
    }
    Ok(texts)
}

fn flag(alloc: Global) -> Result<Steps, AllocError> {
    let mut steps = Steps::new(alloc);
    steps.push(plain_step(alloc, Some(Kind::Boolean)))?;
    Ok(steps)
}

fn bound(tenths: i64, strict: bool) -> Option<Bound> {
    let value = Decimal::make(tenths, 1)?;
    Some(Bound { value, strict })
}

fn number(alloc: Global) -> Result<Steps, AllocError> {
    let mut step = plain_step(alloc, Some(Kind::Decimal));
    step.total = Some(18);
    step.fraction = Some(5);
    step.low = bound(-15, true);
    step.high = bound(200, false);
    let mut steps = Steps::new(alloc);
    steps.push(step)?;
    Ok(steps)
}

fn code(alloc: Global) -> Result<Steps, AllocError> {
    let mut codes = Codes::new(alloc);
    codes.push(text_of(alloc, "\"A")?)?;
    let mut step = plain_step(alloc, Some(Kind::Text));
    step.codes = codes;
    let mut steps = Steps::new(alloc);
    steps.push(step)?;
    Ok(steps)
}

fn nested(alloc: Global) -> Result<Steps, AllocError> {
    let mut steps = Steps::new(alloc);
    add_steps(alloc, &mut steps)?;
    Ok(steps)
}

fn add_steps(alloc: Global, steps: &mut Steps) -> Result<(), AllocError> {
    steps.push(first_step(alloc)?)?;
    steps.push(plain_step(alloc, None))?;
    steps.push(last_step(alloc)?)
}

fn first_step(alloc: Global) -> Result<Step, AllocError> {
    let patterns = texts_of(alloc, ["[0-9]", "<"].as_slice())?;
    let mut step = plain_step(alloc, Some(Kind::DateTime));
    step.min = Some(1);
    step.max = Some(35);
    step.patterns = patterns;
    Ok(step)
}

fn last_step(alloc: Global) -> Result<Step, AllocError> {
    let patterns = texts_of(alloc, [".*Z"].as_slice())?;
    let mut step = plain_step(alloc, None);
    step.patterns = patterns;
    Ok(step)
}

fn amount(alloc: Global) -> Result<SchemaShape, AllocError> {
    let base = text_of(alloc, "Number")?;
    let code = text_of(alloc, "Code")?;
    Ok(SchemaShape::Money { base, code })
}

fn add(
    alloc: Global,
    types: &mut SchemaTypes,
    name: &str,
    shape: SchemaShape,
) -> Result<(), AllocError> {
    let name = text_of(alloc, name)?;
    types.push(SchemaType { name, shape })
}

fn add_complex(alloc: Global, types: &mut SchemaTypes) -> Result<(), AllocError> {
    let parts = parts_of(alloc, PARTS.as_slice())?;
    add(alloc, types, "Document", SchemaShape::Sequence(parts))?;
    add(
        alloc,
        types,
        "Empty",
        SchemaShape::Sequence(Parts::new(alloc)),
    )?;
    let alternatives = parts_of(alloc, ALTERNATIVES.as_slice())?;
    add(alloc, types, "Pick", SchemaShape::Choice(alternatives))
}

fn add_simple(alloc: Global, types: &mut SchemaTypes) -> Result<(), AllocError> {
    add(alloc, types, "Flag", SchemaShape::Simple(flag(alloc)?))?;
    add(alloc, types, "Number", SchemaShape::Simple(number(alloc)?))?;
    add(alloc, types, "Code", SchemaShape::Simple(code(alloc)?))?;
    add(alloc, types, "Nested", SchemaShape::Simple(nested(alloc)?))
}

/// A schema with each shape and each facet.
fn schema(alloc: Global) -> Result<Schema, AllocError> {
    let namespace = text_of(alloc, "urn:a&b")?;
    let mut types = SchemaTypes::new(alloc);
    add_all(alloc, &mut types)?;
    Ok(Schema { namespace, types })
}

fn add_all(alloc: Global, types: &mut SchemaTypes) -> Result<(), AllocError> {
    add_complex(alloc, types)?;
    add_simple(alloc, types)?;
    add(alloc, types, "Amount", amount(alloc)?)?;
    add(alloc, types, "Open", SchemaShape::Any)
}

#[test]
fn schemas_are_written(rt: HostRuntime) -> Result<(), Fail> {
    let schema = schema(rt.alloc())?;
    let mut sink = MemSink::new(rt.alloc(), [].as_slice())?;
    assert!(rt; write_schema(&schema, &mut sink) == Ok(()));
    assert!(rt; sink.bytes() == WANTED.as_bytes());
    Ok(())
}

#[test]
fn a_sink_fails_in_the_middle(rt: HostRuntime) -> Result<(), Fail> {
    let schema = schema(rt.alloc())?;
    let mut sink = MemSink::new(rt.alloc(), [2].as_slice())?;
    assert!(rt; write_schema(&schema, &mut sink) == Err(WriteError::WriteFault));
    assert!(rt; sink.bytes() == FRONT.as_bytes());
    Ok(())
}
