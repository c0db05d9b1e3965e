//! Lists of paths.

use crate::fault::ToolFault;
use indexmap::IndexMap;
use plan_text::{PathFilter, RowList};
use plan_tools::RemovableFiles;
use std::alloc::{AllocError, Global};

/// Returns the set of some paths.
pub fn set_of(alloc: Global, paths: &RowList<u8>) -> Result<PathFilter, AllocError> {
    let mut set = PathFilter::new(alloc, paths.len())?;
    for number in 0..paths.len() {
        set.add(paths.row(number));
    }
    Ok(set)
}

/// Returns a map with these paths.
fn map_of(alloc: Global, paths: &RowList<u8>) -> Result<IndexMap<Vec<u8>, ()>, ToolFault> {
    let mut map = IndexMap::new(alloc);
    for number in 0..paths.len() {
        map.insert(Vec::from_slice(alloc, paths.row(number))?, ())?;
    }
    Ok(map)
}

/// Returns the files whose paths aren't among others.
pub fn without(
    alloc: Global,
    files: &RemovableFiles,
    others: &RowList<u8>,
) -> Result<RemovableFiles, ToolFault> {
    let others = map_of(alloc, others)?;
    let mut left = RemovableFiles::new(alloc);
    for number in 0..files.len() {
        if let Some(file) = files.get(number) {
            if !others.contains_key(file.path()) {
                left.push(&file)?;
            }
        }
    }
    Ok(left)
}
