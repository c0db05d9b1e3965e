//! The largest counts, lengths and numbers of an image.

/// The most bytes of an image: 256 MiB.
pub const MAX_IMAGE: usize = 268_435_456;

/// The most texts.
pub const MAX_TEXTS: usize = 4_194_304;

/// The most bytes of a text.
pub const MAX_TEXT: usize = 1_048_576;

/// The most files.
pub const MAX_FILES: usize = 4_194_304;

/// The most bytes of a file's path.
pub const MAX_PATH: usize = 4096;

/// The most pools.
pub const MAX_POOLS: usize = 4096;

/// The greatest depth of a pool.
pub const MAX_DEPTH: u32 = 1_000_000;

/// The most slots.
pub const MAX_SLOTS: usize = 16_777_216;

/// The most bodies.
pub const MAX_BODIES: usize = 1_048_576;

/// The most instructions of a body.
pub const MAX_BODY: usize = 65_536;

/// The most instructions of all bodies.
pub const MAX_BODY_INSTRS: u64 = 16_777_216;

/// The most edges.
pub const MAX_EDGES: usize = 1_048_576;

/// The most instructions of all edges in version 1, where each edge has its own instructions.
pub const MAX_OWN_INSTRS: u64 = 16_777_216;

/// The most instructions of all edges in version 2, where edges share bodies.
pub const MAX_SHARED_INSTRS: u64 = 67_108_864;
