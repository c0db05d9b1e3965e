//! The statement that includes a missing file.

use crate::finding::{next_line, path_included};
use plan_printing::{FileSource, MANIFEST_BYTES};
use plan_scope::Source;
use std::alloc::{AllocError, Global};
use std::rt::Files;

/// The largest number of files that are searched.
const MOST_FILES: usize = 1000;

/// The place of a statement.
#[derive(Drop)]
pub struct FoundPlace {
    /// The path of its file.
    pub file: Vec<u8>,
    /// The number of bytes before it.
    pub offset: u64,
}

/// Returns the offset of the line of a file that includes a path. Otherwise appends the paths that it includes.
fn search(
    alloc: Global,
    text: &[u8],
    wanted: &[u8],
    files: &mut Vec<Vec<u8>>,
) -> Result<Option<usize>, AllocError> {
    let mut line = 0usize;
    for _ in 0..text.len() {
        if let Some(path) = path_included(text, line) {
            if path == wanted {
                return Ok(Some(line));
            }
            files.push(Vec::from_slice(alloc, path)?)?;
        }
        match next_line(text, line) {
            Some(next) => line = next,
            None => return Ok(None),
        }
    }
    Ok(None)
}

/// Returns the bytes of a file. Empty if it can't be read.
fn bytes_of<R: Files + Eprint + AllocGlobal>(rt: &R, path: &[u8]) -> Vec<u8> {
    let mut files = FileSource::new(rt, MANIFEST_BYTES);
    match files.read(rt.alloc(), path) {
        Ok(bytes) => bytes,
        Err(_) => Vec::new(rt.alloc()),
    }
}

/// Returns the place of the statement that includes a file, in a manifest and in the files that it includes. None if no
/// statement has the path as it is.
///
/// # Errors
/// If memory runs out.
pub fn place_of_include<R: Files + Eprint + AllocGlobal>(
    rt: &R,
    manifest: &[u8],
    wanted: &[u8],
) -> Result<Option<FoundPlace>, AllocError> {
    let alloc = rt.alloc();
    let mut files = Vec::new(alloc);
    files.push(Vec::from_slice(alloc, manifest)?)?;
    for number in 0..MOST_FILES {
        if number >= files.len() {
            return Ok(None);
        }
        let file = Vec::from_slice(alloc, files[number].as_slice())?;
        let text = bytes_of(rt, &file);
        if let Some(line) = search(alloc, &text, wanted, &mut files)? {
            let offset = u64::try_from(line).unwrap_or(0);
            return Ok(Some(FoundPlace { file, offset }));
        }
    }
    Ok(None)
}
