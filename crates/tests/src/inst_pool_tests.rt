//! What no clause says: that the calls go through where memory is there, and what is told of the pieces.
ghost use Rattle.std.specs.Prelude.{◌≡◌, [], ◌∷◌, ◌++◌, OnOk};
ghost use Rattle.data_types.specs.Leaf.{Leaf};
ghost use Rattle.data_types.specs.Value.{Holds};
ghost use Rattle.inst_pool.specs.Pieces.{open_in};

use data_types::LeafRef;
use inst_pool::{Builder, Edge, Instance, Piece};
use lexical_core::Decimal;
use std::alloc::AllocError;
use std::process::Abort;
use std::test::Fail;

const NOTE: Edge = Edge {
    slot: 3,
    target: 7,
    parent: 1,
};

// The leaf of the element that is open: the number where there is one, or else the text.
fn add_leaf(builder: &mut Builder, text: &[u8], number: Option<Decimal>) -> Result<(), AllocError>
    ensures { (leaf : Leaf) × OnOk result (builder.new.pieces ≡ builder.old.pieces ++ Holds leaf ∷ []) }
{
    match number {
        Some(number) => builder.leaf(LeafRef::Number(number)),
        None => builder.leaf(LeafRef::Bytes(text)),
    }
}

// An instance that is an element with a text in it.
fn note(mut builder: Builder, text: &[u8]) -> Result<Instance, Fail>
    requires { builder.pieces ≡ [] }
{
    add_note(&mut builder, text)?;
    Ok(builder.finish())
}

fn add_note(builder: &mut Builder, text: &[u8]) -> Result<(), AllocError>
    requires { builder.old.pieces ≡ [] }
    ensures { OnOk result (open_in builder.new.pieces ≡ []) }
{
    builder.reserve(3, text.len())?;
    add_element(builder, text)
}

// The same by the room that there is.
fn add_element(builder: &mut Builder, text: &[u8]) -> Result<(), AllocError>
    requires { builder.old.pieces ≡ [] }
    ensures { OnOk result (open_in builder.new.pieces ≡ []) }
{
    builder.begin(NOTE)?;
    add_leaf(builder, text, None)?;
    builder.close()?;
    Ok(())
}

// Whether the piece of the instance at that place is this one.
fn is_piece(number: usize, piece: &Piece<'_>) -> bool {
    match piece {
        Piece::Open(edge) => number == 0 && *edge == NOTE,
        Piece::Leaf(LeafRef::Bytes(bytes)) => number == 1 && *bytes == b"ab".as_slice(),
        Piece::Leaf(_) => false,
        Piece::Close(edge) => number == 2 && *edge == NOTE,
    }
}

// Asserts that the instance is that element with the text `ab`.
fn expect_note(rt: &impl Abort, instance: &Instance) {
    assert_eq!(rt; instance.count(), 3);
    let mut walk = instance.walk();
    for number in 0..3 {
        match walk.next() {
            Some(piece) => assert!(rt; is_piece(number, &piece)),
            None => assert!(rt; false),
        }
    }
    assert!(rt; walk.next().is_none());
}

#[test]
fn an_instance_is_walked_and_its_room_used_again(rt: HostRuntime) -> Result<(), Fail> {
    let instance = note(Builder::new(rt.alloc()), b"ab".as_slice())?;
    expect_note(&rt, &instance);
    // Its room is kept, so that none is reserved.
    let mut builder = instance.reset();
    add_element(&mut builder, b"ab".as_slice())?;
    let again = builder.finish();
    expect_note(&rt, &again);
    Ok(())
}

// The numbers of an element and of its leaves.
struct Row {
    edge: Edge,
    whole: i64,
    scale: u8,
    place: u32,
}

// What a piece of four bytes has just room for, and what it has no room for.
static ROWS: [Row; 7] = [
    Row {
        edge: NOTE,
        whole: 1_234_567,
        scale: 2,
        place: 7,
    },
    Row {
        edge: Edge {
            slot: 127,
            target: 2047,
            parent: 2047,
        },
        whole: 0x3FF_FFFF,
        scale: 7,
        place: 0x1FFF_FFFF,
    },
    Row {
        edge: Edge {
            slot: 128,
            target: 0,
            parent: 0,
        },
        whole: 0x400_0001,
        scale: 0,
        place: 0x2000_0000,
    },
    Row {
        edge: Edge {
            slot: 0,
            target: 0,
            parent: 2048,
        },
        whole: 0x1FFF_FFFF,
        scale: 2,
        place: 0x1000_0000,
    },
    Row {
        edge: Edge {
            slot: 3,
            target: 2047,
            parent: 1,
        },
        whole: 0x2000_0001,
        scale: 2,
        place: 1,
    },
    Row {
        edge: Edge {
            slot: 0,
            target: 2048,
            parent: 0,
        },
        whole: -1,
        scale: 0,
        place: 0,
    },
    Row {
        edge: Edge {
            slot: 4_294_967_295,
            target: 4_294_967_295,
            parent: 4_294_967_295,
        },
        whole: 999_999_999_999_999_999,
        scale: 18,
        place: 4_294_967_295,
    },
];

// Three elements with these numbers, each with a leaf, and one with an empty text, behind a text.
fn add_row(builder: &mut Builder, row: &Row, number: &Decimal) -> Result<(), AllocError>
    requires { builder.old.pieces ≡ [] }
    ensures { OnOk result (open_in builder.new.pieces ≡ []) }
{
    builder.leaf_within(NOTE, &LeafRef::Bytes(b"ab".as_slice()))?;
    builder.leaf_within(row.edge, &LeafRef::Number(*number))?;
    builder.leaf_within(row.edge, &LeafRef::Code(row.place))?;
    builder.leaf_within(row.edge, &LeafRef::Bytes(&[]))?;
    Ok(())
}

// Whether the piece is the one of that number of these elements.
fn is_row_piece(number: usize, piece: &Piece<'_>, row: &Row, decimal: &Decimal) -> bool {
    let edge = if number < 3 { &NOTE } else { &row.edge };
    match piece {
        Piece::Open(told) => number % 3 == 0 && told == edge,
        Piece::Leaf(leaf) => is_row_leaf(number, leaf, row, decimal),
        Piece::Close(told) => number % 3 == 2 && told == edge,
    }
}

fn is_row_leaf(number: usize, leaf: &LeafRef<'_>, row: &Row, decimal: &Decimal) -> bool {
    match leaf {
        LeafRef::Bytes(bytes) if number == 1 => *bytes == b"ab".as_slice(),
        LeafRef::Bytes(bytes) => number == 10 && bytes.is_empty(),
        LeafRef::Number(told) => number == 4 && told == decimal,
        LeafRef::Code(place) => number == 7 && *place == row.place,
        LeafRef::Flag(_) => false,
    }
}

// Whether the first element is told at once, and none at places where none begins.
fn tells_first(instance: &Instance) -> bool {
    let Some(element) = instance.leaf_element(0) else {
        return false;
    };
    let LeafRef::Bytes(bytes) = element.leaf else {
        return false;
    };
    let others = [1, 2, 10, 12, usize::MAX];
    let none = others.iter().all(|at| instance.leaf_element(*at).is_none());
    element.edge == NOTE && bytes == b"ab".as_slice() && none
}

// Asserts that the instance is those elements.
fn expect_row(rt: &impl Abort, instance: &Instance, row: &Row, decimal: &Decimal) {
    assert_eq!(rt; instance.count(), 12);
    assert!(rt; tells_first(instance));
    let mut walk = instance.walk();
    for number in 0..12 {
        match walk.next() {
            Some(piece) => assert!(rt; is_row_piece(number, &piece, row, decimal)),
            None => assert!(rt; false),
        }
    }
}

// Makes the instance of a row twice, the second time in the room of the first.
fn tell_row(rt: &impl Abort, mut builder: Builder, row: &Row) -> Result<(), Fail>
    requires { builder.pieces ≡ [] }
{
    let Some(number) = Decimal::make(row.whole, row.scale) else {
        assert!(rt; false);
        return Ok(());
    };
    add_row(&mut builder, row, &number)?;
    let instance = builder.finish();
    expect_row(rt, &instance, row, &number);
    let mut again = instance.reset();
    add_row(&mut again, row, &number)?;
    expect_row(rt, &again.finish(), row, &number);
    Ok(())
}

#[test]
fn a_piece_of_any_numbers_is_told_as_it_was(rt: HostRuntime) -> Result<(), Fail> {
    for row in &ROWS {
        tell_row(&rt, Builder::new(rt.alloc()), row)?;
    }
    Ok(())
}
