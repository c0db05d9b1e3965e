//! Outputs whose entries were ended for this build, although the record has them.

use indexmap::IndexMap;
use plan_text::RowList;
use std::alloc::{AllocError, Global};
use std::mem::replace;
use std::sync::atomic::{AtomicBool, Ordering};
use std::sync::{Mutex, Wait};

/// Outputs whose entries don't count in this build, until the commands of their edges have begun again. Each has the
/// reason in words, or no bytes.
#[derive(Drop)]
pub(crate) struct EndedEntries {
    alloc: Global,
    /// Whether an output was ever added. If none was, a look-up takes no lock.
    is_used: AtomicBool,
    outputs: Mutex<IndexMap<Vec<u8>, Vec<u8>>>,
    /// Those outputs of which the record doesn't say yet that their entries ended.
    unwritten: Mutex<RowList<u8>>,
}

impl EndedEntries {
    /// Creates an empty set.
    pub(crate) fn new(alloc: Global) -> EndedEntries {
        EndedEntries {
            alloc,
            is_used: AtomicBool::new(false),
            outputs: Mutex::new(IndexMap::new(alloc)),
            unwritten: Mutex::new(RowList::new(alloc)),
        }
    }

    /// Adds an output, with the reason why its entry ended.
    pub(crate) fn add<R: Wait>(
        &self,
        rt: &R,
        output: &[u8],
        reason: &[u8],
    ) -> Result<(), AllocError> {
        self.unwritten.lock(rt).push(output)?;
        let output = Vec::from_slice(self.alloc, output)?;
        let reason = Vec::from_slice(self.alloc, reason)?;
        self.is_used.store(true, Ordering::SeqCst);
        match self.outputs.lock(rt).insert(output, reason) {
            Ok(_) => Ok(()),
            Err(_) => Err(AllocError),
        }
    }

    /// Removes an output.
    pub(crate) fn remove<R: Wait>(&self, rt: &R, output: &[u8]) {
        if self.is_used.load(Ordering::SeqCst) {
            let _ = self.outputs.lock(rt).swap_remove(output);
        }
    }

    /// Returns the outputs of which the record doesn't say yet that their entries ended. From now on there are none.
    pub(crate) fn take_unwritten<R: Wait>(&self, rt: &R) -> RowList<u8> {
        let none = RowList::new(self.alloc);
        if !self.is_used.load(Ordering::SeqCst) {
            return none;
        }
        let mut unwritten = self.unwritten.lock(rt);
        replace(&mut *unwritten, none)
    }

    /// Gives outputs back that were taken, since the record could not be written.
    pub(crate) fn give_back<R: Wait>(&self, rt: &R, outputs: RowList<u8>) {
        let mut unwritten = self.unwritten.lock(rt);
        *unwritten = outputs;
    }

    /// Checks whether an output was added and not removed.
    pub(crate) fn has<R: Wait>(&self, rt: &R, output: &[u8]) -> bool {
        self.is_used.load(Ordering::SeqCst) && self.outputs.lock(rt).contains_key(output)
    }

    /// Returns the reason why the entry of an output ended. Returns no bytes if there is none, or if memory runs out.
    pub(crate) fn reason<R: Wait>(&self, rt: &R, output: &[u8]) -> Vec<u8> {
        if !self.is_used.load(Ordering::SeqCst) {
            return Vec::new(self.alloc);
        }
        let outputs = self.outputs.lock(rt);
        match outputs.get(output) {
            Some(reason) => copy_or_empty(self.alloc, reason),
            None => Vec::new(self.alloc),
        }
    }
}

/// Returns a copy of a text, or an empty text if memory runs out.
fn copy_or_empty(alloc: Global, text: &[u8]) -> Vec<u8> {
    match Vec::from_slice(alloc, text) {
        Ok(copy) => copy,
        Err(_) => Vec::new(alloc),
    }
}
