//! The slots by which paths are found.

/// Slots by which paths are found. A slot holds the number of a path and eight bits of its hash, or 0 if it is
/// empty. A path is in the first slot that was empty from the one at which its search begins. The last slots
/// may be after those at which searches begin, so no search wraps around.
#[derive(Drop)]
pub struct SlotTable {
    pub codes: Vec<u32>,
    /// The number of slots at which searches may begin.
    pub size: usize,
    /// The number of paths that were placed, which are the first ones.
    pub placed: usize,
    /// The number of slots that may still be filled before the table grows.
    pub room: usize,
    /// A value computed from slots that are needed next. They are read all at once, so that the processor
    /// needn't wait for each.
    pub ahead: u32,
}
