//! A walk over the pieces of an instance.
ghost use Rattle.std.specs.Prelude.{◌≡◌, [], ◌∷◌, IfSome, IfNone};
ghost use Rattle.inst_pool.specs.Pieces.{piece_of};

use crate::instance::Instance;
use crate::piece::Piece;
use std::marker::Model;

/// The pieces of an instance that are left, in order.
#[derive(Drop)]
pub struct Walk<'a> {
    instance: &'a Instance,
    at: usize,
}

impl<'a> Model for Walk<'a> {
    ghost use Rattle.std.specs.Prelude.{List, drop};
    ghost use Rattle.data_types.specs.Value.{Piece};

    ghost Value = { List Piece };

    ghost view = { λ w. drop w.at w.instance.now.region.pieces };
}

impl<'a> Walk<'a> {
    /// All of its pieces are left.
    pub(crate) fn new(instance: &'a Instance) -> Walk<'a>
        ensures { result ≡ instance.now.region.pieces }
    {
        Walk { instance, at: 0 }
    }

    /// The next piece; `None` exactly behind the last.
    pub fn next(&mut self) -> Option<Piece<'a>>
        ensures some { IfSome result (λ p. self.old ≡ piece_of p ∷ self.new) }
        ensures none { IfNone result ((self.old ≡ []) × (self.new ≡ [])) }
    {
        let instance = self.instance;
        if self.at >= instance.count() {
            return None;
        }
        let piece = instance.piece(self.at);
        self.at += 1;
        piece
    }
}
