//! The variable `builddir` of a manifest, which names the folder of the record.

use crate::finding::{first_line, is_name_byte};
use memchr::{memmem, memrchr};
use plan_printing::{FileSource, MANIFEST_BYTES, PlanFault, no_memory, printed_fault};
use plan_scope::{EdgeList, PathRange, Source, Tree, evaluate, load};
use plan_text::PathFilter;
use std::alloc::{AllocError, Global};
use std::io::{Read, Seek, SeekFrom};
use std::os::unix::fs::MetadataExt;
use std::rt::Files;
use std::{fs, io, str};

/// The name of the variable.
const BUILDDIR: &[u8] = b"builddir";

/// The word before the path of a file that is included.
const INCLUDE: &[u8] = b"include";

/// The most files that are searched. If a manifest includes more, it is evaluated.
const MOST_FILES: usize = 64;

/// The most lines of a part that are searched for a path. If a part has more, the manifest is evaluated.
const MOST_INCLUDES: usize = 64;

/// The number of bytes of a file that are searched at once.
const PART: usize = 65_536;

/// A file by what changes when it is written.
#[derive(Clone, Copy, PartialEq, Eq)]
struct FileStamp {
    seconds: i64,
    nanoseconds: i64,
    len: u64,
    inode: u64,
}

/// Returns the stamp of the file at a path. Returns None if there is no file, or if it may be read only once, as a
/// pipe.
fn stamp_of<R: Files>(rt: &R, path: &str) -> Option<FileStamp> {
    match fs::metadata(rt, path) {
        Ok(found) if found.is_file() => Some(FileStamp {
            seconds: found.mtime(),
            nanoseconds: found.mtime_nsec(),
            len: found.len(),
            inode: found.ino(),
        }),
        _ => None,
    }
}

/// A file that was searched.
#[derive(Drop)]
struct SearchedFile {
    path: String,
    /// The stamp that it had then. None if it wasn't read.
    stamp: Option<FileStamp>,
}

/// The result of a search of a manifest for the variable, without evaluating the manifest.
#[derive(Drop)]
pub struct Search {
    /// The manifest and the files that it includes.
    files: Vec<SearchedFile>,
    /// Whether one of them may bind the variable.
    may_bind: bool,
    /// Whether these are all files that may bind it.
    is_whole: bool,
}

/// Returns the rest of a text from the next line on that begins with this word. `line` is the word after a line feed.
fn from_line<'a>(text: &'a [u8], line: &[u8]) -> Option<&'a [u8]> {
    match memmem::find(text, line) {
        Some(at) => text.get(at.saturating_add(1)..),
        None => None,
    }
}

/// Returns the bytes up to the last line feed, or all if there is none.
fn whole_lines(text: &[u8]) -> &[u8] {
    match memrchr(b'\n', text) {
        Some(at) => text.get(..at.saturating_add(1)).unwrap_or(text),
        None => text,
    }
}

/// Checks whether a byte ends a path or has a meaning of its own in a path.
fn is_special(byte: &u8) -> bool {
    matches!(*byte, b' ' | b'\t' | b'$' | b':' | b'|')
}

/// Returns the path in the rest of a line, if no byte of it has a meaning of its own.
fn plain_path(line: &[u8]) -> Option<&str> {
    let path = line.trim_ascii();
    if path.is_empty() || path.iter().any(is_special) {
        return None;
    }
    str::from_utf8(path).ok()
}

impl Search {
    /// Adds the file that a line includes. The line begins with the word `include`, or with a name that begins so.
    fn push_line(&mut self, alloc: Global, line: &[u8]) -> Result<(), AllocError> {
        let rest = line.get(INCLUDE.len()..).unwrap_or(&[]);
        if let [first, ..] = rest {
            if is_name_byte(*first) {
                return Ok(());
            }
        }
        match plain_path(rest) {
            Some(path) => self.push(alloc, path),
            None => {
                self.is_whole = false;
                Ok(())
            }
        }
    }

    /// Adds a file, unless it was added before.
    fn push(&mut self, alloc: Global, path: &str) -> Result<(), AllocError> {
        for file in &self.files {
            if file.path.as_str() == path {
                return Ok(());
            }
        }
        let path = String::from_str(alloc, path)?;
        self.files.push(SearchedFile { path, stamp: None })?;
        Ok(())
    }

    /// Adds the file that the first line of a text includes. If the line isn't whole, the manifest has to be evaluated.
    fn push_first(&mut self, alloc: Global, text: &[u8]) -> Result<(), AllocError> {
        if !text.starts_with(INCLUDE) {
            return Ok(());
        }
        if text.contains(&b'\n') {
            return self.push_line(alloc, first_line(text));
        }
        self.is_whole = false;
        Ok(())
    }

    /// Adds the files that the lines of a text after the first one include. Each of them is whole.
    fn push_included(&mut self, alloc: Global, text: &[u8]) -> Result<(), AllocError> {
        let mut rest = text;
        for _ in 0..MOST_INCLUDES {
            match from_line(rest, b"\ninclude") {
                Some(found) => {
                    self.push_line(alloc, first_line(found))?;
                    rest = found;
                }
                None => return Ok(()),
            }
        }
        self.is_whole = false;
        Ok(())
    }

    /// Searches a part of a file. `begins_line` says whether it begins with a line.
    fn search_text(
        &mut self,
        alloc: Global,
        text: &[u8],
        begins_line: bool,
    ) -> Result<(), AllocError> {
        if begins_line {
            self.may_bind |= text.starts_with(BUILDDIR);
            self.push_first(alloc, text)?;
        }
        self.may_bind |= memmem::find(text, b"\nbuilddir").is_some();
        self.push_included(alloc, text)
    }

    /// Searches a file, part by part. Each part ends with a line, unless the line is longer than a part.
    fn search_parts<F: Read + Seek>(&mut self, alloc: Global, file: &mut F) -> io::Result<()> {
        let mut buffer = vec![in alloc; 0u8; PART]?;
        let mut at = 0u64;
        let mut begins_line = true;
        for _ in 0..u64::MAX {
            file.seek(SeekFrom::Start(at))?;
            let count = file.read(&mut buffer)?;
            let text = whole_lines(buffer.get(..count).unwrap_or(&[]));
            if text.is_empty() {
                return Ok(());
            }
            self.search_text(alloc, text, begins_line)?;
            begins_line = text.last() == Some(&b'\n');
            at = at.saturating_add(text.len() as u64);
        }
        Ok(())
    }

    /// Searches the file at a path.
    fn search_path<R: Files + AllocGlobal>(&mut self, rt: &R, path: &str) -> io::Result<()> {
        let mut file = fs::open(rt, path)?;
        self.search_parts(rt.alloc(), &mut file)
    }

    /// Searches the file with a number. If it can't be read, the manifest has to be evaluated. A file that may be read
    /// only once isn't searched.
    fn search_file<R: Files + AllocGlobal>(
        &mut self,
        rt: &R,
        number: usize,
    ) -> Result<(), AllocError> {
        let Some(file) = self.files.get_mut(number) else {
            return Ok(());
        };
        file.stamp = stamp_of(rt, file.path.as_str());
        if file.stamp.is_none() {
            return Ok(());
        }
        let path = String::from_str(rt.alloc(), file.path.as_str())?;
        if self.search_path(rt, path.as_str()).is_err() {
            self.is_whole = false;
        }
        Ok(())
    }

    /// Searches a manifest and the files that it includes.
    fn of_manifest<R: Files + AllocGlobal>(rt: &R, manifest: &str) -> Result<Search, AllocError> {
        let mut search = Search {
            files: Vec::new(rt.alloc()),
            may_bind: false,
            is_whole: true,
        };
        search.push(rt.alloc(), manifest)?;
        for number in 0..MOST_FILES {
            if number >= search.files.len() {
                return Ok(search);
            }
            search.search_file(rt, number)?;
        }
        search.is_whole = false;
        Ok(search)
    }

    /// Checks whether no file was written since the search, so that it would find the same.
    pub fn is_current<R: Files>(&self, rt: &R) -> bool {
        for file in &self.files {
            if stamp_of(rt, file.path.as_str()) != file.stamp {
                return false;
            }
        }
        self.is_whole
    }
}

/// The value of the variable, and how it was found.
#[derive(Drop)]
pub struct Builddir {
    /// The value. Empty if the manifest doesn't bind the variable.
    pub value: Vec<u8>,
    /// The search that showed whether the manifest has to be evaluated.
    pub search: Search,
}

/// Returns the value that the variable has at the end of a manifest, as ninja takes it.
fn evaluated<R: Files + Eprint + AllocGlobal>(
    rt: &R,
    manifest: &[u8],
) -> Result<Vec<u8>, PlanFault> {
    let alloc = rt.alloc();
    let mut files = FileSource::new(rt, MANIFEST_BYTES);
    let tree = match load(alloc, &mut files, manifest) {
        Ok(tree) => tree,
        Err(fault) => return Err(printed_fault(alloc, &fault)),
    };
    match Vec::from_slice(alloc, tree.text_at_end(BUILDDIR)) {
        Ok(value) => Ok(value),
        Err(_) => Err(no_memory(alloc)),
    }
}

/// Finds the value of the variable in a manifest. Evaluates the manifest only if a line of it, or of a file that it
/// includes, begins with the name of the variable.
///
/// # Errors
/// Why the manifest is refused, or lack of memory.
pub fn builddir_of<R: Files + Eprint + AllocGlobal>(
    rt: &R,
    manifest: &[u8],
) -> Result<Builddir, PlanFault> {
    let alloc = rt.alloc();
    let Ok(search) = Search::of_manifest(rt, str::from_utf8(manifest).unwrap_or("")) else {
        return Err(no_memory(alloc));
    };
    if !search.may_bind && search.is_whole {
        let value = Vec::new(alloc);
        return Ok(Builddir { value, search });
    }
    let value = evaluated(rt, manifest)?;
    Ok(Builddir { value, search })
}

/// Adds paths to a set.
fn add_paths(set: &mut PathFilter, paths: &PathRange<'_>) {
    for place in 0..paths.len() {
        set.add(paths.path(place));
    }
}

/// Returns the set of the outputs and the depfiles of edges.
fn set_of(alloc: Global, edges: &EdgeList) -> Result<PathFilter, AllocError> {
    let mut set = PathFilter::new(alloc, edges.len().saturating_mul(4))?;
    for number in 0..edges.len() {
        let edge = edges.edge(number);
        add_paths(&mut set, &edge.outputs());
        add_paths(&mut set, &edge.implicit_outputs());
        set.add(edge.depfile().join(alloc)?.as_slice());
    }
    Ok(set)
}

/// Returns the set of the outputs and the depfiles of a tree.
fn names_of(alloc: Global, tree: &Tree) -> Result<PathFilter, PlanFault> {
    let manifest = match evaluate(alloc, tree) {
        Ok(manifest) => manifest,
        Err(fault) => return Err(printed_fault(alloc, &fault)),
    };
    match set_of(alloc, &manifest.edges) {
        Ok(set) => Ok(set),
        Err(_) => Err(no_memory(alloc)),
    }
}

/// Returns the set of the outputs and the depfiles of a manifest, which are what its entries in a record are named by.
///
/// # Errors
/// Why the manifest is refused, or lack of memory.
pub fn recorded_names<R: Files + Eprint + AllocGlobal>(
    rt: &R,
    manifest: &[u8],
) -> Result<PathFilter, PlanFault> {
    let alloc = rt.alloc();
    let mut files = FileSource::new(rt, MANIFEST_BYTES);
    match load(alloc, &mut files, manifest) {
        Ok(tree) => names_of(alloc, &tree),
        Err(fault) => Err(printed_fault(alloc, &fault)),
    }
}
