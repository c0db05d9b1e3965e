//! Which edges of a dry build read files that its commands would make.

use crate::recorded::both_paths;
use indexmap::IndexMap;
use plan_text::RowList;
use std::alloc::{AllocError, Global};
use std::sync::{Mutex, Wait};

/// The files that edges read by their entries, and the outputs of the commands that a dry build has listed.
#[derive(Drop)]
pub(crate) struct Remade {
    alloc: Global,
    /// Paths that edges read and that may be outputs, by the first output of each edge.
    read: Mutex<IndexMap<Vec<u8>, RowList<u8>>>,
    /// The outputs of the commands that were listed.
    made: Mutex<IndexMap<Vec<u8>, ()>>,
}

impl Remade {
    /// Knows no edge and no command.
    pub(crate) fn new(alloc: Global) -> Remade {
        Remade {
            alloc,
            read: Mutex::new(IndexMap::new(alloc)),
            made: Mutex::new(IndexMap::new(alloc)),
        }
    }

    /// Adds paths that an edge with this first output read.
    pub(crate) fn add_read<R: Wait>(
        &self,
        rt: &R,
        first: &[u8],
        paths: &RowList<u8>,
    ) -> Result<(), AllocError> {
        if paths.len() == 0 {
            return Ok(());
        }
        let name = Vec::from_slice(self.alloc, first)?;
        let mut read = self.read.lock(rt);
        let before = match read.swap_remove(first) {
            Some(before) => before,
            None => RowList::new(self.alloc),
        };
        match read.insert(name, both_paths(before, paths)?) {
            Ok(_) => Ok(()),
            Err(_) => Err(AllocError),
        }
    }

    /// Adds the outputs of a command that was listed.
    pub(crate) fn add_made<R: Wait>(
        &self,
        rt: &R,
        outputs: &RowList<u8>,
    ) -> Result<(), AllocError> {
        let mut made = self.made.lock(rt);
        for number in 0..outputs.len() {
            let output = Vec::from_slice(self.alloc, outputs.row(number))?;
            if made.insert(output, ()).is_err() {
                return Err(AllocError);
            }
        }
        Ok(())
    }

    /// Returns the first of these paths that a listed command makes.
    fn first_made<R: Wait>(
        &self,
        rt: &R,
        paths: &RowList<u8>,
    ) -> Result<Option<Vec<u8>>, AllocError> {
        let made = self.made.lock(rt);
        for number in 0..paths.len() {
            if made.contains_key(paths.row(number)) {
                let path = Vec::from_slice(self.alloc, paths.row(number))?;
                return Ok(Some(path));
            }
        }
        Ok(None)
    }

    /// Returns the first path that the edge with this first output read and that a listed command makes.
    pub(crate) fn first_read<R: Wait>(
        &self,
        rt: &R,
        first: &[u8],
    ) -> Result<Option<Vec<u8>>, AllocError> {
        let read = self.read.lock(rt);
        match read.get(first) {
            Some(paths) => self.first_made(rt, paths),
            None => Ok(None),
        }
    }
}
