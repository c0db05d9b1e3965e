//! Lists of pieces that are small if they have one piece.

ghost use Rattle.std.specs.Prelude.{◌≡◌, ◌∷◌, [], IfOk};
ghost use Rattle.plan_text.specs.Pieces.{literal_of};

use crate::piece_reader::Piece;
use crate::small_text::SmallText;
use std::alloc::{AllocError, Global};
use std::marker::Model;

/// The storage of pieces.
#[derive(Drop)]
enum Held {
    /// A single piece, stored inline.
    One([Piece; 1]),
    /// Any number of pieces, in an allocation.
    Many(Vec<Piece>),
}

/// The pieces of a path or a value. If it is created from a single piece, it takes no allocation. A contract
/// sees it as the list of the pieces.
#[derive(Drop)]
pub struct PieceList {
    held: Held,
}

impl Model for PieceList {
    ghost use Rattle.std.specs.Prelude.{List};
    ghost use Rattle.plan_text.specs.PieceLists.{pieces_in};
    ghost use Rattle.plan_text.specs.declared.piece_reader.Piece.{Piece};

    ghost Value = { List Piece };

    ghost view = { λ s. pieces_in s.held };
}

impl PieceList {
    /// Wraps a vector of pieces, in their order. Releases its spare room if memory allows it.
    pub fn new(mut pieces: Vec<Piece>) -> PieceList
        ensures { result ≡ pieces.items }
    {
        pieces.shrink_to_fit();
        PieceList {
            held: Held::Many(pieces),
        }
    }

    /// Creates an empty list.
    pub fn empty(alloc: Global) -> PieceList
        ensures { result ≡ [] }
    {
        PieceList {
            held: Held::Many(Vec::new(alloc)),
        }
    }

    /// Creates a list of one piece.
    pub fn one(piece: Piece) -> PieceList
        ensures { result ≡ piece ∷ [] }
    {
        PieceList {
            held: Held::One([piece]),
        }
    }

    /// Creates a list of one literal with these bytes. If there are no bytes, the list is empty.
    pub fn literal(alloc: Global, bytes: &[u8]) -> Result<PieceList, AllocError>
        ensures { IfOk result (λ pieces. pieces ≡ literal_of bytes.now) }
    {
        if bytes.is_empty() {
            return Ok(PieceList::empty(alloc));
        }
        let literal = SmallText::new(alloc, bytes)?;
        Ok(PieceList::one(Piece::Literal(literal)))
    }

    /// Borrows the pieces, in their order.
    pub fn as_slice(&self) -> &[Piece]
        ensures { result.now ≡ self.now }
    {
        match &self.held {
            Held::One(piece) => piece,
            Held::Many(pieces) => pieces,
        }
    }
}
