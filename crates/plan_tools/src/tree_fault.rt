//! Why a listing is not written to its end.

/// Why a listing is not written to its end.
#[derive(Clone, Copy, PartialEq, Eq)]
pub enum TreeFault {
    /// Memory ran out.
    Memory,
    /// A write failed.
    Sink,
}
