//! Texts that are borrowed or owned.

ghost use Rattle.std.specs.Prelude.{◌≡◌};

use std::marker::Model;

/// The bytes of a text.
#[derive(Drop)]
enum Held<'a> {
    /// Borrowed bytes.
    Lent(&'a [u8]),
    /// Owned bytes.
    Made(Vec<u8>),
}

/// A text that is borrowed or owned. Contracts see it as its bytes.
#[derive(Drop)]
pub struct CowText<'a> {
    held: Held<'a>,
}

impl<'a> Model for CowText<'a> {
    ghost use Rattle.std.specs.Prelude.{List, ℕ};
    ghost use Rattle.plan_scope.specs.HeldTexts.{text_in};

    ghost Value = { List ℕ };

    ghost view = { λ t. text_in t.held };
}

impl<'a> CowText<'a> {
    /// Creates a text that borrows its bytes.
    pub fn of_slice(bytes: &'a [u8]) -> CowText<'a>
        ensures { result ≡ bytes.now }
    {
        CowText {
            held: Held::Lent(bytes),
        }
    }

    /// Creates a text that owns its bytes.
    pub(crate) fn of_vec(bytes: Vec<u8>) -> CowText<'a>
        ensures { result ≡ bytes.items }
    {
        CowText {
            held: Held::Made(bytes),
        }
    }

    /// Returns its bytes.
    pub fn as_slice(&self) -> &[u8]
        ensures { result.now ≡ self.now }
    {
        match &self.held {
            Held::Lent(bytes) => bytes,
            Held::Made(bytes) => bytes,
        }
    }
}
