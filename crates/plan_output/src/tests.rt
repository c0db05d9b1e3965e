//! Outputs of commands, and how they are shown.

use crate::{shown_output, signal_line};
use std::test::Fail;

/// An output is shown in whole lines, and without escape sequences if they aren't wanted.
#[test]
fn shown_outputs(rt: HostRuntime) -> Result<(), Fail> {
    let alloc = rt.alloc();
    for (text, escapes, shown) in [
        (b"".as_slice(), false, b"".as_slice()),
        (b"a".as_slice(), false, b"a\n".as_slice()),
        (b"a\n".as_slice(), true, b"a\n".as_slice()),
        (
            b"\x1b[1;31mred\x1b[0m\n".as_slice(),
            false,
            b"red\n".as_slice(),
        ),
        (
            b"\x1b[1;31mred\x1b[0m".as_slice(),
            true,
            b"\x1b[1;31mred\x1b[0m\n".as_slice(),
        ),
        (
            b"\x1b]8;;file:a\x1b\\a\x1b]8;;\x1b\\\n".as_slice(),
            false,
            b"a\n".as_slice(),
        ),
        (b"\x1b]0;title\x07b\n".as_slice(), false, b"b\n".as_slice()),
        (b"\x1b]0;cut\nb".as_slice(), false, b"\nb\n".as_slice()),
        (b"\x1b(Bb\x1b[".as_slice(), false, b"b\n".as_slice()),
        (
            b"\xc3\xa9\x1b[K\xc3\xa9\n".as_slice(),
            false,
            b"\xc3\xa9\xc3\xa9\n".as_slice(),
        ),
    ] {
        let output = shown_output(alloc, Vec::from_slice(alloc, text)?, escapes)?;
        assert_eq!(rt; output.as_slice(), shown);
    }
    Ok(())
}

/// Signals have the names of signal(7), and a number beyond them has none.
#[test]
fn signals_have_names(rt: HostRuntime) -> Result<(), Fail> {
    for (signal, line) in [
        (2, b"ended by SIGINT\n".as_slice()),
        (9, b"ended by SIGKILL\n".as_slice()),
        (11, b"ended by SIGSEGV\n".as_slice()),
        (34, b"ended by a signal\n".as_slice()),
    ] {
        assert_eq!(rt; signal_line(signal), line);
    }
    Ok(())
}
