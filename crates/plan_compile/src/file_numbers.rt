//! Numbers of files that are borrowed or owned.

ghost use Rattle.std.specs.Prelude.{◌≡◌};

use std::marker::Model;

/// The numbers.
#[derive(Drop)]
enum Held<'a> {
    /// Borrowed numbers.
    Lent(&'a [u32]),
    /// Owned numbers.
    Made(Vec<u32>),
}

/// Numbers of files that are borrowed or owned. Contracts see them as a list.
#[derive(Drop)]
pub(crate) struct FileNumbers<'a> {
    held: Held<'a>,
}

impl<'a> Model for FileNumbers<'a> {
    ghost use Rattle.std.specs.Prelude.{List, ℕ};
    ghost use Rattle.plan_compile.specs.HeldNumbers.{numbers_held};

    ghost Value = { List ℕ };

    ghost view = { λ n. numbers_held n.held };
}

impl<'a> FileNumbers<'a> {
    /// Creates a list that borrows its numbers.
    pub(crate) fn of_slice(numbers: &'a [u32]) -> FileNumbers<'a>
        ensures { result ≡ numbers.now }
    {
        FileNumbers {
            held: Held::Lent(numbers),
        }
    }

    /// Creates a list that owns its numbers.
    pub(crate) fn of_vec(numbers: Vec<u32>) -> FileNumbers<'a>
        ensures { result ≡ numbers.items }
    {
        FileNumbers {
            held: Held::Made(numbers),
        }
    }

    /// Returns the numbers.
    pub(crate) fn as_slice(&self) -> &[u32]
        ensures { result.now ≡ self.now }
    {
        match &self.held {
            Held::Lent(numbers) => numbers,
            Held::Made(numbers) => numbers,
        }
    }
}
