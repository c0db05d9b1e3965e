//! Files of ninja next to a record.

use crate::fault::DeviceFault;
use crate::ninja_log::folder_of;
use crate::stamp::stamp_of;
use std::alloc::Global;
use std::rt::Files;
use std::sync::atomic::{AtomicU64, Ordering};

/// A file of ninja in the folder of a record. A world looks at it once.
#[derive(Drop)]
pub(crate) struct NinjaFile {
    path: String,
    /// The stamp of the file, 1 if it is missing, or 0 as long as it wasn't looked at.
    stamp: AtomicU64,
}

impl NinjaFile {
    /// Returns the file of this name in the folder of a record.
    pub(crate) fn next_to(
        alloc: Global,
        record: &str,
        name: &str,
    ) -> Result<NinjaFile, DeviceFault> {
        let folder = folder_of(record);
        Ok(NinjaFile {
            path: format!(in alloc; "{folder}{name}")?,
            stamp: AtomicU64::new(0),
        })
    }

    /// Returns its path.
    pub(crate) fn path(&self) -> &str {
        self.path.as_str()
    }

    /// Returns the stamp of the file when it was first asked for, or 1 if it was missing.
    pub(crate) fn stamp<R: Files>(&self, rt: &R) -> u64 {
        let mut stamp = self.stamp.load(Ordering::SeqCst);
        if stamp == 0 {
            stamp = stamp_of(rt, self.path.as_bytes()).unwrap_or(0).max(1);
            self.stamp.store(stamp, Ordering::SeqCst);
        }
        stamp
    }
}
