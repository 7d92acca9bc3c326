//! Texts of very many bytes.
use super::{Verdict, answer, repeated};
use Verdict::{At, Whole};
use lexical_core::Rule::{BadMarkup, DuplicateAttribute};
use std::alloc::{AllocError, Global};
use std::process::Abort;

/// The pieces, so many times each, are answered as expected.
fn check_pieces(
    rt: &impl Abort,
    alloc: Global,
    pieces: &[(&str, usize)],
    expected: Verdict,
) -> Result<(), AllocError> {
    let bytes = repeated(alloc, pieces)?;
    let found = answer(alloc, bytes.as_slice());
    assert!(rt; found == expected, "{found:?}");
    Ok(())
}

/// Elements nest as deep as memory allows.
#[test]
fn open_tags(rt: HostRuntime) -> Result<(), AllocError> {
    check_pieces(
        &rt,
        rt.alloc(),
        &[("<a>", 1_000_000), ("</a>", 1_000_000)],
        Whole,
    )
}

/// Long namespaces that differ at their ends are two, and one that is declared again is one.
#[test]
fn long_namespaces(rt: HostRuntime) -> Result<(), AllocError> {
    check_pieces(
        &rt,
        rt.alloc(),
        &[
            ("<a xmlns:p='", 1),
            ("u", 3000),
            ("p' xmlns:q='", 1),
            ("u", 3000),
            ("q' q:x='' p:x=''><b q:y='' p:x='' q:x=''/></a>", 1),
        ],
        Whole,
    )?;
    check_pieces(
        &rt,
        rt.alloc(),
        &[
            ("<a xmlns:p='", 1),
            ("u", 3000),
            ("'><b xmlns:q='", 1),
            ("u", 3000),
            ("' q:x='' p:x=''/></a>", 1),
        ],
        At(DuplicateAttribute, 3014),
    )
}

/// A tag has 1,048,576 bytes at most.
#[test]
fn longest_tags(rt: HostRuntime) -> Result<(), AllocError> {
    let spaces = 1_048_572;
    let too_many = 1_048_573;
    let root = "<Document xmlns=\"urn:iso:std:iso:20022:tech:xsd:demo.001.001.01\"";
    check_pieces(
        &rt,
        rt.alloc(),
        &[("<a", 1), (" ", spaces), ("/>", 1)],
        Whole,
    )?;
    check_pieces(
        &rt,
        rt.alloc(),
        &[("<a", 1), (" ", too_many), ("/>", 1)],
        At(BadMarkup, 0),
    )?;
    check_pieces(
        &rt,
        rt.alloc(),
        &[(root, 1), (" ", 1_048_512), ("<", 1)],
        At(BadMarkup, 0),
    )
}
