//! The width of the terminal.

use plan_text::number_in;
use std::fs::File;
use std::process::{Command, Stdio};
use std::rt::Env;
use std::{env, fs, io};

/// The largest number of columns.
const MOST_COLUMNS: u64 = 65_535;

/// The path of standard output as a file.
const TERMINAL: &str = "/proc/self/fd/1";

/// Returns a number of columns, or 0 if the text isn't one.
fn columns_in(text: &[u8]) -> usize {
    match number_in(text.trim_ascii(), MOST_COLUMNS) {
        Some(columns) => usize::try_from(columns).unwrap_or(0),
        None => 0,
    }
}

/// Returns the number of columns in the line of `stty size`, `ROWS COLUMNS`, or 0 if it has another form.
fn columns_of_size(line: &[u8]) -> usize {
    for at in 0..line.len() {
        if line[at] == b' ' {
            return columns_in(&line[at..]);
        }
    }
    0
}

/// Returns what `stty size` prints of the terminal.
fn terminal_size(rt: &HostRuntime) -> io::Result<Vec<u8>> {
    let terminal: File = fs::open(rt, TERMINAL)?;
    let mut stty = Command::new(rt.alloc(), "stty")?;
    stty.arg("size")?;
    stty.stdin(terminal);
    stty.stderr(Stdio::null());
    Ok(stty.output(rt)?.stdout)
}

/// Returns the number of columns that `COLUMNS` says, or 0 if it says none.
fn columns_set<R: Env + AllocGlobal>(rt: &R) -> usize {
    match env::var(rt, "COLUMNS") {
        Ok(value) => columns_in(value.as_bytes()),
        Err(_) => 0,
    }
}

/// Returns the number of columns of the terminal that standard output is. Returns 0 if it isn't known.
pub fn terminal_width(rt: &HostRuntime) -> usize {
    let columns = match terminal_size(rt) {
        Ok(line) => columns_of_size(&line),
        Err(_) => 0,
    };
    if columns > 0 {
        return columns;
    }
    columns_set(rt)
}
