//! Reads the statements of a manifest: rules, build lines, pools, defaults, included files and bindings, each
//! with the offset of its first byte.
//!
//! `parse` reads the logical lines once. A line without an indentation begins a block, and the indented lines
//! below it belong to it. The result is the statements of all blocks, or the first fault of the first block
//! that has one. `statements_are_whole`, `statements_join` and `faults_have_places` are laws about all
//! manifests, for the proofs of the crates above.
#![tactic(auto)]

mod block;
mod compact;
mod cursor;
mod fault;
mod laws;
mod lines;
mod parser;
mod path_parts;
mod reading;
mod statement;
mod statement_reader;

pub use compact::{
    BuildLists, CompactBinding, CompactPath, CompactStatement, CompactValue, ParsedFile, PathLists,
    Span,
};
pub use fault::ParseFault;
pub use laws::{faults_have_places, statements_are_whole, statements_join};
pub use lines::{
    BindingLine, BindingsInText, BuildLine, PathInText, PathsInText, ValueInText, ValueLine,
    name_in, path_in, value_in,
};
pub use parser::parse;
pub use path_parts::{PathPart, part_at};
pub use statement::{Binding, Directive, DirectiveKind, Pool, Rule};
