//! Holds equal byte strings once.
//!
//! - `Chunks` is a list of byte strings, which contracts see as a list of lists. Equal ones are held once unless hashes
//!   collide. A text that is cut into chunks is held as the list of their numbers.
#![tactic(auto)]

mod chunks;

pub use chunks::Chunks;
