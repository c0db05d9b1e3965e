//! The results of searches.

/// The result of a search in slots.
#[derive(Clone, Copy)]
pub enum Place {
    /// A slot refers to the path.
    Listed,
    /// No slot refers to the path. Holds the first empty slot, or the index after the last slot.
    Vacant(usize),
}
