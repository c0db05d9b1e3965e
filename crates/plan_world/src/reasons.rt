//! Reports reasons on standard error.

use crate::fault::DeviceFault;
use std::str;

/// Reports on standard error what can't be done with a file, and why. Reports nothing if memory ran out, since the run
/// then stops and reports that itself.
pub(crate) fn say<R: Eprint>(rt: &R, what: &str, file: &[u8], fault: DeviceFault) {
    if fault == DeviceFault::Memory {
        return;
    }
    let file = str::from_utf8(file).unwrap_or("a file");
    let _ = eprintln!(rt; "plan_ninja: {what} {file}: {fault}");
}
