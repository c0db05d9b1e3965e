//! Depfiles that were read when commands had ended. They are removed when the build has ended.

use crate::manifest_paths::ManifestPaths;
use crate::stamp::is_file;
use plan_text::RowList;
use std::alloc::Global;
use std::rt::Files;
use std::sync::atomic::{AtomicBool, Ordering};
use std::sync::{Mutex, Wait};
use std::{fs, str};

/// The paths of depfiles that were read and that name something.
#[derive(Drop)]
pub(crate) struct ReadDepfiles {
    paths: Mutex<RowList<u8>>,
    /// Whether all of them stay, since the record may not have what one of them names.
    stay: AtomicBool,
}

impl ReadDepfiles {
    /// Creates an empty list.
    pub(crate) fn new(alloc: Global) -> ReadDepfiles {
        ReadDepfiles {
            paths: Mutex::new(RowList::new(alloc)),
            stay: AtomicBool::new(false),
        }
    }

    /// Adds the path of a depfile. If memory runs out, the depfile stays.
    pub(crate) fn add<R: Wait>(&self, rt: &R, path: &[u8]) {
        let _ = self.paths.lock(rt).push(path);
    }

    /// Lets all depfiles stay.
    pub(crate) fn keep_all(&self) {
        self.stay.store(true, Ordering::SeqCst);
    }

    /// Removes the depfiles that needn't stay. Folders, links, devices and pipes stay, and so do files that can't be
    /// removed.
    pub(crate) fn remove<R: Files + Wait>(&self, rt: &R, manifest: &ManifestPaths) {
        if self.stay.load(Ordering::SeqCst) {
            return;
        }
        let paths = self.paths.lock(rt);
        for number in 0..paths.len() {
            remove_unless_needed(rt, manifest, paths.row(number));
        }
    }
}

/// Removes a file unless it must stay.
fn remove_unless_needed<R: Files + Wait>(rt: &R, manifest: &ManifestPaths, path: &[u8]) {
    if manifest.must_stay(rt, path) || !is_file(rt, path) {
        return;
    }
    if let Ok(path) = str::from_utf8(path) {
        let _ = fs::remove_file(rt, path);
    }
}
