//! Reads the text of a manifest byte by byte, and provides types that the crates above share.
//!
//! - `lines` returns the logical lines of a text, and `split_line` splits off the first line. `logical_len`,
//!   `newline_len`, `indent_len`, `gap_len`, `name_len` and `escape_len` return the length of an item at the
//!   front of a text, and `run_len` returns the length of a run of units. `begins` and `nul_at` test and search
//!   for one byte. `number_in` reads a decimal number.
//! - `pieces` returns the literals and the references to variables of a path or a value.
//! - `canonical` returns the canonical form of a path. `is_canonical` recognizes most paths that are already
//!   canonical.
//! - `TextFault` is the reason why these functions refuse a text, with the offset of the byte. `Memory` is the
//!   fault of calls that can only run out of memory.
//! - `MAX_SOURCE`, `MAX_TEXT` and `MAX_PATH` are the limits on bytes that are read and kept.
//! - `Items` is a vector that contracts see as a list.
//! - `RowList` and `SharedRows` are lists of rows, which contracts see as lists of lists. The rows of a
//!   `RowList` are stored consecutively in one vector. The rows of `SharedRows` are parts of shared bytes.
//! - `SmallText` and `PieceList` are a text and a list of pieces. They take no allocation if they are short.
//!   Contracts see them as lists too.
//! - `PathFilter` is a set of paths that may say too often that a path is in it, and never too seldom.
//! - `feed_words` feeds a text to a hasher.
//! - `Sink` is a target of writes, `Counted` wraps a writer of std as a sink, and `write_all` writes all bytes
//!   to a sink. Each counts failures in a `GhostCounter`, which only proofs read.
//! - `canonical_stays`, `lines_cover`, `lines_join`, `escaped_is_read`, `plain_is_read` and `writes_join` are
//!   laws about all texts and writes, for the proofs of the crates above.
//!
//! The rules are those of the Ninja manual's section "Lexical syntax". If the manual says nothing, a rule is
//! this project's own choice. Each item says which of the two applies.
#![tactic(auto)]

mod fault;
mod ghost_counter;
mod ghost_paths;
mod hashing;
mod items;
mod laws;
mod limits;
mod line_reader;
mod memory;
mod numerals;
mod path;
mod path_filter;
mod piece_list;
mod piece_reader;
mod row_list;
mod shared_rows;
mod sink;
mod small_text;

pub use fault::TextFault;
pub use ghost_counter::GhostCounter;
pub use hashing::feed_words;
pub use items::Items;
pub use laws::{
    canonical_stays, escaped_is_read, lines_cover, lines_join, plain_is_read, writes_join,
};
pub use limits::{MAX_PATH, MAX_SOURCE, MAX_TEXT};
pub use line_reader::{
    Line, Unit, begins, gap_len, indent_len, lines, logical_len, newline_len, nul_at, run_len,
    split_line,
};
pub use memory::Memory;
pub use numerals::number_in;
pub use path::{canonical, is_canonical};
pub use path_filter::PathFilter;
pub use piece_list::PieceList;
pub use piece_reader::{Mode, Piece, escape_len, name_len, pieces, pieces_at};
pub use row_list::RowList;
pub use shared_rows::{Place, SharedRows};
pub use sink::{Counted, Sink, SinkFault, write_all};
pub use small_text::SmallText;
