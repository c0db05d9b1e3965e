//! Laws about all texts, paths and writes, for the proofs of the crates above. A law has no effect when it is
//! called.

ghost use Rattle.plan_text.specs.Laws.{CanonicalStays, EscapedIsRead, FailedWriteStays, LinesCover, LinesJoin, PlainIsRead, WritesJoin};

/// States that the canonical form of a path is canonical, is not empty, and is no longer than the path.
pub fn canonical_stays()
    ensures { CanonicalStays }
{}

/// States how consecutive writes combine. A complete write of some bytes, followed by a write of other bytes,
/// counts as one write of all these bytes. A failed write of some bytes also counts as a failed write of these
/// bytes and any bytes that follow them.
pub fn writes_join()
    ensures join { WritesJoin }
    ensures failed { FailedWriteStays }
{}

/// States that the logical lines of a text, joined with the newlines that end them, are the text.
pub fn lines_cover()
    ensures { LinesCover }
{}

/// States that escaped bytes are read back as the same bytes. The bytes have no NUL, and no tab if they are a
/// path. They are escaped by a `$` before each `$`, space and colon.
pub fn escaped_is_read()
    ensures { EscapedIsRead }
{}

/// States that a text can be appended to another text without changing the logical lines of either, if a
/// newline ends each logical line of the first text.
pub fn lines_join()
    ensures { LinesJoin }
{}

/// States that a text without special bytes is read as one literal. If the text is empty, it has no piece.
pub fn plain_is_read()
    ensures { PlainIsRead }
{}
