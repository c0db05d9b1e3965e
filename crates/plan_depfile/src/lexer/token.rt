//! The tokens that the bytes of a depfile form.

/// A token of a depfile.
#[derive(Clone, Copy, PartialEq, Eq)]
pub enum Token {
    /// A byte of a word.
    Byte(u8),
    Blank,
    Colon,
    Hash,
    /// A single `$`.
    Dollar,
    Newline,
}
