//! Sentences on faults.

/// ninja's sentence for a variable that a block may not have.
pub const UNEXPECTED_VARIABLE: &[u8] = b"unexpected variable";

/// ninja's sentence for a pool without a depth.
pub const EXPECTED_DEPTH: &[u8] = b"expected 'depth =' line";

/// Returns ninja's sentence for the fault with this number, or this project's own sentence if ninja has none.
pub fn sentence_of(number: u8) -> &'static [u8] {
    match number {
        1 => b"tabs are not allowed, use spaces",
        2 => b"a NUL byte",
        3 => b"bad $-escape (literal $ must be written as $$)",
        4 => b"the file is too long",
        10 => b"expected a name",
        11 => b"expected '='",
        12 => b"expected ':'",
        13 => b"expected path",
        14 => b"unexpected indent",
        15 => UNEXPECTED_VARIABLE,
        16 => b"expected 'command =' line",
        17 => b"invalid pool depth",
        18 => b"validations (|@) are not supported",
        19 => b"expected newline",
        20 => b"loading it: No such file or directory",
        21 => b"include and subninja lines nest too deep",
        30 => b"duplicate rule",
        31 => b"unknown build rule",
        32 => b"duplicate pool",
        33 => b"unknown pool name",
        34 => b"cycle in rule variables",
        35 => b"empty path",
        36 => b"dyndep is not supported",
        37 => b"response files (rspfile) are not supported",
        38 => b"unknown deps type",
        39 => b"a path is too long",
        40 => b"a text is too long",
        42 => b"invalid pool depth",
        50 => b"multiple rules generate",
        51 => b"dependency cycle:",
        53 => b"there are too many build statements",
        100 => b"the build has too many parts",
        120 | 131 => b"out of memory",
        121 => b"no thread can be started",
        _ => b"the manifest has no plan:",
    }
}

/// Returns advice on the fault with this number, as a line. Empty if there is none.
pub fn advice_for(number: u8) -> &'static [u8] {
    match number {
        18 => b"help: make the path an order-only input, or remove it\n",
        36 =>
            b"help: for Fortran and C++ modules use ninja; without modules, set CMAKE_CXX_SCAN_FOR_MODULES to OFF\n",
        37 =>
            b"help: leave CMAKE_NINJA_FORCE_RESPONSE_FILE unset, or link static libraries in between; otherwise use ninja\n",
        38 => b"help: for Microsoft's compiler use ninja\n",
        _ => b"",
    }
}
