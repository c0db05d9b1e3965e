//! What a world knows of the paths of the manifest that is built.

use crate::fault::DeviceFault;
use plan_text::PathFilter;
use std::alloc::Global;
use std::sync::{Mutex, MutexGuard, Wait};

/// Returns the path of the folder of a file with this path.
fn folder_of(path: &[u8]) -> &[u8] {
    let name = path.rsplit(|byte| *byte == b'/').next().unwrap_or(path);
    match path.len().saturating_sub(name.len()).checked_sub(1) {
        Some(len) => path.get(..len).unwrap_or(path),
        None => b".",
    }
}

/// Sets of paths of the manifest that was read last. They may say too often that they have a path.
#[derive(Drop)]
pub(crate) struct ManifestPaths {
    /// The paths that edges make. Empty before a manifest was read.
    outputs: Mutex<PathFilter>,
    /// Further paths of files that must stay. None if they aren't known.
    others: Mutex<Option<PathFilter>>,
}

impl ManifestPaths {
    /// Creates the sets before a manifest was read.
    pub(crate) fn new(alloc: Global) -> Result<ManifestPaths, DeviceFault> {
        Ok(ManifestPaths {
            outputs: Mutex::new(PathFilter::new(alloc, 0)?),
            others: Mutex::new(None),
        })
    }

    /// Takes the paths that edges make.
    pub(crate) fn take_outputs<R: Wait>(&self, rt: &R, outputs: PathFilter) {
        *self.outputs.lock(rt) = outputs;
    }

    /// Takes further paths of files that must stay. Without them, all files must.
    pub(crate) fn take_others<R: Wait>(&self, rt: &R, others: Option<PathFilter>) {
        *self.others.lock(rt) = others;
    }

    /// Returns the paths that edges make, under their lock.
    pub(crate) fn outputs<R: Wait>(&self, rt: &R) -> MutexGuard<'_, PathFilter> {
        self.outputs.lock(rt)
    }

    /// Checks whether an edge makes a path, or the folder of its file, whose stamp changes with the files in it.
    fn may_be_made<R: Wait>(&self, rt: &R, path: &[u8]) -> bool {
        let outputs = self.outputs.lock(rt);
        outputs.may_have(path) || outputs.may_have(folder_of(path))
    }

    /// Checks whether the file of a path must stay. It must if it isn't known which ones do.
    pub(crate) fn must_stay<R: Wait>(&self, rt: &R, path: &[u8]) -> bool {
        if self.may_be_made(rt, path) {
            return true;
        }
        match &*self.others.lock(rt) {
            Some(others) => others.may_have(path),
            None => true,
        }
    }
}
