//! The files of the system.

use super::*;
use std::fs::Metadata;
use std::os::unix::fs::MetadataExt;

/// Checks that these are the first bytes of a file, at most `most`.
fn reads<D: Disk>(rt: &impl Abort, disk: &D, path: &str, most: usize, bytes: &[u8]) {
    match disk.read(path, most) {
        Ok(read) => assert!(rt; read.as_slice() == bytes),
        Err(_) => panic!(rt; "can't read {path}"),
    }
}

/// Checks that there is no file at a path.
fn is_missing<D: Disk>(rt: &impl Abort, disk: &D, path: &str) {
    assert!(rt; disk.read(path, 1).is_err());
    assert!(rt; disk.modified(path).is_err());
}

/// Checks that the time of a file is the one that the system has for it.
fn has_its_time<D: Disk>(rt: &impl Abort, disk: &D, path: &str, found: &Metadata) {
    match disk.modified(path) {
        Ok(time) => {
            assert_eq!(rt; time.seconds, found.mtime());
            assert_eq!(rt; time.nanoseconds, found.mtime_nsec());
            assert!(rt; time.seconds > 1);
        }
        Err(_) => panic!(rt; "no time of {path}"),
    }
}

/// Checks that the bytes of a file are read up to a limit, that it has its time, and that another path has no file.
#[test]
fn files_of_the_system(rt: HostRuntime) -> Result<(), Fail> {
    let folder = folder(&rt, "disk")?;
    let path = format!(in rt.alloc(); "{folder}/file")?;
    let other = format!(in rt.alloc(); "{folder}/other")?;
    fs::write(&rt, path.as_str(), b"abc".as_slice())?;
    let disk = SystemDisk::new(rt.clone()?);
    reads(&rt, &disk, path.as_str(), 4, b"abc");
    reads(&rt, &disk, path.as_str(), 2, b"ab");
    let found = fs::metadata(&rt, path.as_str())?;
    has_its_time(&rt, &disk, path.as_str(), &found);
    is_missing(&rt, &disk, other.as_str());
    drop(disk);
    remove(&rt, folder);
    Ok(())
}
