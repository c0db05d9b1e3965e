//! The limits on bytes that are read and kept. These limits are this project's own choice.

/// The most bytes of a source file: 16 MiB.
pub const MAX_SOURCE: usize = 16_777_216;

/// The most bytes of a kept text, such as a command: 1 MiB.
pub const MAX_TEXT: usize = 1_048_576;

/// The most bytes of a path: 4 KiB.
pub const MAX_PATH: usize = 4_096;
