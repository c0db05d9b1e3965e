//! Collects the pieces of a depfile, and parses them on the way.

ghost use Rattle.std.specs.Prelude.{◌≡◌, ℕ, List, [], ◌++◌, IfOk, IfErr, OnOk, OnErr};
ghost use Rattle.plan_depfile.specs.Reader.{answer_of};
ghost use Rattle.plan_depfile.specs.Depfile.{depfile_of};

use crate::parsed::{Parsed, parsed_by};
use crate::reader::Reader;
use plan_text::Memory;
use std::alloc::Global;
use std::marker::Model;

/// Collects the bytes of a depfile, and parses them as they come. A contract sees the bytes. After a fault of
/// the grammar, it continues to collect bytes.
#[derive(Drop)]
pub struct Gather {
    reader: Reader,
    bytes: Vec<u8>,
}

impl Model for Gather {
    ghost Value = { List ℕ };

    ghost view = { λ g. g.bytes.items };

    ghost invariant = { λ g. (rest : List ℕ) → answer_of g.reader rest ≡ depfile_of (g.bytes.items ++ rest) };
}

impl Gather {
    /// Creates an empty collector. It takes no memory.
    pub fn new(alloc: Global) -> Self
        ensures { result ≡ [] }
    {
        Gather {
            reader: Reader::new(alloc),
            bytes: Vec::new(alloc),
        }
    }

    /// Appends and parses a piece. If memory runs out, nothing changes.
    pub fn feed(&mut self, piece: &[u8]) -> Result<(), Memory>
        ensures fed { OnOk result (self.new ≡ self.old ++ piece.now) }
        ensures unchanged { OnErr result (self.new ≡ self.old) }
    {
        let len = self.bytes.len();
        self.bytes.extend_from_slice(piece)?;
        match self.reader.take(piece) {
            Ok(()) => Ok(()),
            Err(_) => {
                self.bytes.truncate(len);
                Err(Memory)
            }
        }
    }

    /// Returns the collected bytes, with their paths or their fault. If memory runs out, returns the collector
    /// unchanged.
    pub fn finish(self) -> Result<Parsed, (Gather, Memory)>
        ensures parsed { IfOk result (λ p. p ≡ self) }
        ensures back { IfErr result (λ e. e.0 ≡ self) }
    {
        let Gather { reader, bytes } = self;
        match parsed_by(reader, bytes) {
            Ok(parsed) => Ok(parsed),
            Err((reader, bytes)) => Err((Gather { reader, bytes }, Memory)),
        }
    }
}
