//! The rest of a line that is being read.

ghost use Rattle.std.specs.Prelude.{◌+◌, ◌<◌, ◌^◌, length};

/// The rest of a line, with its offset.
#[derive(Clone, Copy)]
pub struct Cursor<'a> {
    /// The offset of the rest in the text.
    pub at: usize,
    /// The rest of the line.
    pub bytes: &'a [u8],
    ghost short: { at + length bytes.now < 2 ^ 63 },
}
