//! Where the record of a build is, and the source of the manifest, which ends a build that has the wrong record.

use crate::builddir::{Builddir, Search, builddir_of, recorded_names};
use crate::words::RECORD;
use plan_printing::{
    FileSource, MANIFEST_BYTES, PlanFault, REFUSED, complain_of, file_fault, no_memory,
    reason_of_error,
};
use plan_scope::{Source, SourceFault};
use plan_text::GhostCounter;
use plan_world::{OpenFault, SharedFile, take_over};
use std::alloc::{AllocError, Global};
use std::env::Env;
use std::fs::{self, OpenFile};
use std::io::{ErrorKind, Read, Seek, Write};
use std::rt::Files;
use std::str;
use std::sync::atomic::{AtomicBool, Ordering};
use std::time::Clock;

/// The place of the record of a build.
#[derive(Drop)]
pub struct RecordPlace {
    /// The folder that `builddir` names. Empty if the manifest doesn't bind it.
    folder: String,
    /// The path of the record in that folder.
    record: String,
    /// The search for `builddir`.
    search: Search,
    /// Whether the manifest was found to have another `builddir` since then.
    has_moved: AtomicBool,
}

/// Returns the path of the record in a folder.
fn record_in(alloc: Global, folder: &str) -> Result<String, AllocError> {
    if folder.is_empty() {
        return String::from_str(alloc, RECORD);
    }
    format!(in alloc; "{folder}/{RECORD}")
}

/// Returns the value of `builddir` as text, and the path of the record in that folder.
fn paths_in(alloc: Global, folder: &str) -> Result<(String, String), AllocError> {
    Ok((String::from_str(alloc, folder)?, record_in(alloc, folder)?))
}

impl RecordPlace {
    /// Finds the place of the record of a manifest.
    ///
    /// # Errors
    /// Why the manifest is refused, that `builddir` isn't UTF-8, or lack of memory.
    pub fn of<R: Files + Eprint + AllocGlobal>(
        rt: &R,
        manifest: &[u8],
    ) -> Result<RecordPlace, PlanFault> {
        let alloc = rt.alloc();
        let Builddir { value, search } = builddir_of(rt, manifest)?;
        let Ok(folder) = str::from_utf8(&value) else {
            return Err(file_fault(alloc, &value));
        };
        match paths_in(alloc, folder) {
            Ok((folder, record)) => Ok(RecordPlace {
                folder,
                record,
                search,
                has_moved: AtomicBool::new(false),
            }),
            Err(_) => Err(no_memory(alloc)),
        }
    }

    /// Returns the path of the record.
    pub fn record(&self) -> &str {
        self.record.as_str()
    }

    /// Returns the path of the record to read, without creating or moving one: that of the folder of the build if
    /// `builddir` names another folder, which has none yet.
    pub fn record_to_read<R: Files>(&self, rt: &R) -> &str {
        let is_there = fs::exists(rt, self.record.as_str()).unwrap_or(false);
        if !is_there && fs::exists(rt, RECORD).unwrap_or(false) {
            return RECORD;
        }
        self.record.as_str()
    }

    /// Checks whether the manifest was found to have another `builddir`. Then its record is elsewhere.
    pub fn has_moved(&self) -> bool {
        self.has_moved.load(Ordering::SeqCst)
    }

    /// Checks whether a manifest that was just read still has this `builddir`, as far as it can be found.
    fn check<R: Files + Eprint + AllocGlobal>(&self, rt: &R, manifest: &[u8]) -> bool {
        if self.search.is_current(rt) {
            return true;
        }
        let is_same = match builddir_of(rt, manifest) {
            Ok(found) => found.value.as_slice() == self.folder.as_bytes(),
            Err(_fault) => true,
        };
        if !is_same {
            self.has_moved.store(true, Ordering::SeqCst);
        }
        is_same
    }
}

impl RecordPlace {
    /// Creates the folder of the record.
    ///
    /// # Errors
    /// The exit status if it can't be created. The reason is reported on standard error.
    pub fn create_folder<R: Files + AllocGlobal, E: Print>(
        &self,
        rt: &R,
        errors: &E,
    ) -> Result<(), u8> {
        if self.folder.is_empty() {
            return Ok(());
        }
        match fs::create_dir_all(rt, self.folder.as_str()) {
            Ok(()) => Ok(()),
            Err(error) if error.kind() == ErrorKind::AlreadyExists => Ok(()),
            Err(error) => {
                let before = b"ninja: error: creating build directory ";
                let (folder, reason) = (self.folder.as_bytes(), reason_of_error(&error));
                complain_of(rt.alloc(), errors, before, folder, b": ", reason);
                Err(REFUSED)
            }
        }
    }

    /// Checks whether an earlier build has left its record in the folder of the build, and there is none in the folder
    /// that `builddir` names.
    fn has_old_record<R: Files>(&self, rt: &R) -> bool {
        !self.folder.is_empty() && self.record_to_read(rt) == RECORD
    }

    /// Takes the entries of a manifest over from the record in the folder of the build, if there is one and none in the
    /// folder that `builddir` names. If that fails, the new record begins without them.
    ///
    /// # Errors
    /// Why the manifest is refused, or lack of memory.
    pub fn take_over<R: Files + Env + Clock + Eprint + AllocGlobal + Clone + Drop>(
        &self,
        rt: &R,
        manifest: &[u8],
    ) -> Result<(), PlanFault>
    where
        R::File: Read + Write + Seek + OpenFile + SharedFile + Drop,
    {
        if !self.has_old_record(rt) {
            return Ok(());
        }
        let own = recorded_names(rt, manifest)?;
        match take_over(rt, RECORD, self.record.as_str(), &own) {
            Err(OpenFault::Memory) => Err(no_memory(rt.alloc())),
            _ => Ok(()),
        }
    }
}

/// The files of a manifest. The manifest isn't given if its record is elsewhere than when it was looked for, because it
/// was remade: then another builder could use that record, and wouldn't wait for this one.
#[derive(Drop)]
pub struct ManifestFiles<'a, R> {
    rt: &'a R,
    files: FileSource<'a, R>,
    manifest: &'a [u8],
    place: &'a RecordPlace,
    failures: GhostCounter,
}

impl<'a, R: Files> ManifestFiles<'a, R> {
    /// Creates the source of the files of a manifest, whose record has this place.
    pub fn new(rt: &'a R, manifest: &'a [u8], place: &'a RecordPlace) -> ManifestFiles<'a, R> {
        ManifestFiles {
            rt,
            files: FileSource::new(rt, MANIFEST_BYTES),
            manifest,
            place,
            failures: GhostCounter::new(),
        }
    }
}

impl<R: Files + Eprint + AllocGlobal> Source for ManifestFiles<'_, R> {
    ghost use Rattle.std.specs.Prelude.{◌≡◌};

    ghost gives = { λ _ _ _. Unit {0} };

    ghost fails = { λ _ _. Unit {0} };

    ghost failures = { λ s. s.failures.count };

    fn read(&mut self, alloc: Global, path: &[u8]) -> Result<Vec<u8>, SourceFault> {
        match self.files.read(alloc, path) {
            Ok(bytes) => {
                if path == self.manifest && !self.place.check(self.rt, path) {
                    self.failures = self.failures.next();
                    return Err(SourceFault::Failed);
                }
                Ok(bytes)
            }
            Err(SourceFault::Failed) => {
                self.failures = self.failures.next();
                Err(SourceFault::Failed)
            }
            Err(SourceFault::Missing) => Err(SourceFault::Missing),
            Err(SourceFault::Memory) => Err(SourceFault::Memory),
        }
    }
}
