//! The meaning of names at a place of a tree.

ghost use Rattle.std.specs.Prelude.{◌≡◌, ◌≤◌, ◌+◌, [], length, IfOk};
ghost use Rattle.plan_scope.specs.Scopes.{Name, Text, expand, value_of};
ghost use Rattle.plan_text.specs.Limits.{max_text};
ghost use Rattle.plan_scope.specs.Kept.{KeptEqLookup, kept};
ghost use Rattle.plan_scope.specs.ScopeNames.{names_in};

pub(crate) mod cow_text;
pub(crate) mod path_range;
pub(crate) mod scoped_map;
pub(crate) mod text;

use crate::scope::scoped_map::ScopedMap;
use crate::scope::text::append;
use plan_text::{Items, MAX_TEXT, Piece};
use std::alloc::{AllocError, Global};

/// The meaning of names at a place of a tree.
#[derive(Clone, Copy)]
pub struct Scope<'a> {
    /// The bindings of all scopes.
    pub bound: &'a ScopedMap<Items<u8>>,
    /// The scopes that are visible there, the nearest first.
    pub scopes: &'a [usize],
}

/// Returns the text of a name, or an empty text if no scope binds it.
pub fn name_text<'a>(scope: Scope<'a>, name: &[u8]) -> &'a [u8]
    ensures { result.now ≡ names_in scope.entry name.now }
{
    match scope.bound.nearest(scope.scopes, name) {
        Some(text) => text.as_slice(),
        None => &[],
    }
}

/// Returns the text of a piece of a value.
fn piece_text<'a>(scope: Scope<'a>, piece: &'a Piece) -> &'a [u8]
    ensures { result.now ≡ value_of (names_in scope.entry) piece.now }
{
    match piece {
        Piece::Literal(bytes) => bytes.as_slice(),
        Piece::Reference(name) => name_text(scope, name.as_slice()),
    }
}

/// Returns the number of bytes in the literal pieces of a text, at most the number that is kept. It is the text's
/// initial capacity.
fn literal_len(pieces: &[Piece]) -> usize
    ensures { result ≤ max_text + 1 }
{
    let mut len = 0_usize;
    for piece in pieces {
        if let Piece::Literal(bytes) = piece {
            len = len.saturating_add(bytes.as_slice().len());
        }
    }
    len.min(MAX_TEXT + 1)
}

/// Expands the pieces of a value.
pub fn expand_pieces<'a>(
    alloc: Global,
    scope: Scope<'a>,
    pieces: &'a [Piece],
) -> Result<Vec<u8>, AllocError>
    ensures text { IfOk result (λ text. (meant : Name → Text) → KeptEqLookup (names_in scope.entry) meant → kept text.items ≡ kept (expand meant pieces.now)) }
    ensures within { IfOk result (λ text. length text.items ≤ max_text + 1) }
{
    let mut text = Vec::with_capacity(alloc, literal_len(pieces))?;
    for piece in pieces {
        append(&mut text, piece_text(scope, piece))?;
    }
    Ok(text)
}
