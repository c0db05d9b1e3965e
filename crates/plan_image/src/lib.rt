//! Images: the tables of a build plan and the code of its edges, as bytes and as text.
//!
//! - `read_image` reads an image from bytes or returns their first fault. `print_image` writes the bytes of an
//!   image, and `listing` writes its text.
//! - `Image` holds tables that have a spelling. `Parts`, `Edge`, `EdgeCode`, `Pool`, `Slot`, `Sort` and
//!   `Version` are the tables and their items. `Edges` is the table of edges, stored in columns, from which
//!   `EdgeRef`, `CodeRef` and `InstrsRef` borrow. `CodeView` is the code of one edge, in either version.
//! - `MAX_IMAGE` is the most bytes of an image. `MAX_TEXTS`, `MAX_FILES`, `MAX_POOLS`, `MAX_SLOTS`,
//!   `MAX_BODIES` and `MAX_EDGES` limit the tables, `MAX_TEXT`, `MAX_PATH`, `MAX_DEPTH` and `MAX_BODY` their
//!   items, and `MAX_BODY_INSTRS`, `MAX_OWN_INSTRS` and `MAX_SHARED_INSTRS` all instructions.
//! - `Instr` and `Kind` are the instructions of an edge and the kinds of their values. `Body`, `BodyInstr` and
//!   `Opening` are bodies that edges share. `split` returns the body of a code and its operands.
//! - `edge_of` finds the edge that creates a path.
//! - `ImageFault` is the reason why bytes or tables are refused, with the offset. `WriteFault` is a failed
//!   write.
//! - `image_law` and `split_law` are laws about all images and bodies, for the proofs of the crates above.
//!
//! The format is this project's own choice. docs/rules/image.md lists its rules.
#![tactic(auto)]

mod body;
mod edge_ref;
mod edges;
mod fault;
mod image;
mod limits;
mod lister;
mod makers;
mod maxima;
mod opcode;
mod reading;
mod sizes;
mod writing;

pub use body::{Body, BodyInstr, CodeView, Instr, Kind, Opening, split, split_law};
pub use edge_ref::{CodeRef, EdgeRef, InstrsRef};
pub use edges::Edges;
pub use fault::ImageFault;
pub use image::{Edge, EdgeCode, Image, Parts, Pool, Slot, Sort, Version, image_law};
pub use lister::{WriteFault, listing};
pub use makers::edge_of;
pub use maxima::{
    MAX_BODIES, MAX_BODY, MAX_BODY_INSTRS, MAX_DEPTH, MAX_EDGES, MAX_FILES, MAX_IMAGE,
    MAX_OWN_INSTRS, MAX_PATH, MAX_POOLS, MAX_SHARED_INSTRS, MAX_SLOTS, MAX_TEXT, MAX_TEXTS,
};
pub use reading::read_image;
pub use writing::print_image;
