//! The innermost element at a place among the pieces of an instance.
ghost use Rattle.std.specs.Prelude.{◌≡◌};
ghost use Rattle.inst_pool.specs.Pieces.{piece_of};
ghost use Rattle.message_model.specs.Tables.{types_of};
ghost use Rattle.xml_writer.specs.inner.PieceTexts.{is_amount, innermost_begun, innermost_behind};

use inst_pool::Piece;
use message_model::{Form, Model};

/// The innermost element.
#[derive(Clone, Copy, Debug)]
pub(crate) struct Innermost {
    /// The number of its type.
    pub(crate) number: u32,
    /// Whether its start tag still wants its code and its end.
    pub(crate) unended: bool,
}

/// Where a writer is among the pieces of an instance.
#[derive(Clone, Copy, Debug)]
pub(crate) struct Place {
    /// How many pieces stand before it.
    pub(crate) at: usize,
    /// The innermost element there.
    pub(crate) innermost: Innermost,
}

/// The innermost element, where one of the type begins.
pub(crate) fn innermost_begun(model: &Model, number: u32) -> Innermost
    ensures { result ≡ innermost_begun (types_of model.now) number }
{
    Innermost {
        number,
        unended: is_amount(model, number),
    }
}

/// The innermost element behind a piece.
pub(crate) fn innermost_behind(model: &Model, innermost: Innermost, piece: &Piece<'_>) -> Innermost
    ensures { result ≡ innermost_behind (types_of model.now) innermost (piece_of piece.now) }
{
    match piece {
        Piece::Open(edge) => innermost_begun(model, edge.target),
        Piece::Leaf(_) => Innermost {
            number: innermost.number,
            unended: false,
        },
        Piece::Close(edge) => Innermost {
            number: edge.parent,
            unended: false,
        },
    }
}

/// Whether the type is an amount with a currency.
pub(crate) fn is_amount(model: &Model, number: u32) -> bool
    ensures { result ≡ is_amount (types_of model.now number) }
{
    match model.form(number) {
        Some(Form::Money { .. }) => true,
        _ => false,
    }
}
