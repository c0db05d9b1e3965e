//! Paths that the system can be asked about.

ghost use Rattle.std.specs.Prelude.{◌≡◌, ◌==◌, ◌↔◌, IsTrue, IsUtf8, length};
ghost use Rattle.std.specs.List.{list_all, position_or_len};
ghost use Rattle.plan_text.specs.Path.{components_of};
ghost use Rattle.plan_world.specs.Askable.{AreAskable, IsAskable, is_name, is_plain_byte};

use plan_text::RowList;
use plan_verify::PathList;
use std::str;

/// The length in bytes that a path must not reach: the system counts the NUL byte after it too.
const PATH_LIMIT: usize = 4096;

/// The greatest number of bytes in a file's name.
const LONGEST_NAME: usize = 255;

/// Checks whether a file can have this name, by its length.
fn is_name(name: &[u8]) -> bool
    ensures { result ≡ is_name name.now }
{
    name.len() <= LONGEST_NAME
}

/// Checks whether files can have the names between the slashes of a path. In a short path each name is short.
fn are_names(path: &[u8]) -> bool
    ensures { result ≡ list_all is_name (components_of path.now) }
{
    if path.len() <= LONGEST_NAME {
        return true;
    }
    path.split(|b| *b == b'/').all(|name| is_name(name))
}

/// Checks whether a path is text. Most paths are ASCII, for which a faster test is enough.
fn is_text(path: &[u8]) -> bool
    ensures { IsTrue result ↔ IsUtf8 path.now }
{
    path.is_ascii() || str::from_utf8(path).is_ok()
}

/// Checks whether a path has no NUL byte.
fn is_whole(path: &[u8]) -> bool
    ensures { IsTrue result ↔ (position_or_len (λ b. b == 0) path.now ≡ length path.now) }
{
    !path.contains(&0)
}

/// Checks whether a byte is an ASCII character other than NUL.
fn is_plain_byte(byte: u8) -> bool
    ensures { result ≡ is_plain_byte byte }
{
    (byte > 0) & (byte < 128)
}

/// Checks whether each byte of a path is an ASCII character other than NUL. Looks at all of them, so that a processor
/// can compare many bytes at once.
#[inline(always)]
fn is_long_plain(path: &[u8]) -> bool
    ensures { result ≡ list_all is_plain_byte path.now }
{
    let mut plain = true;
    for byte in path {
        plain = plain & is_plain_byte(*byte);
    }
    plain
}

/// Checks whether each byte of a path is an ASCII character other than NUL. The first and the last eight bytes are all
/// bytes of most short paths.
#[tactic(auto, using(crate::proofs::PathLemmas::all_of_ends))]
fn is_plain(path: &[u8]) -> bool
    ensures { result ≡ list_all is_plain_byte path.now }
{
    if path.len() <= 16 {
        if let (Some(first), Some(last)) = (path.first_chunk::<8>(), path.last_chunk::<8>()) {
            return is_long_plain(first) & is_long_plain(last);
        }
    }
    is_long_plain(path)
}

/// Checks whether the system can be asked about a path. For any other path the system returns an error, whatever files
/// exist. Most paths are short and plain, for which a faster test is enough.
pub(crate) fn is_askable(path: &[u8]) -> bool
    ensures { IsTrue result ↔ IsAskable path.now }
{
    if path.len() <= LONGEST_NAME {
        if is_plain(path) {
            return true;
        }
    }
    let short = path.len() < PATH_LIMIT;
    is_text(path) & is_whole(path) & short & are_names(path)
}

/// Checks whether the system can be asked about each of these paths.
pub(crate) fn are_askable(paths: &PathList) -> bool
    ensures { IsTrue result ↔ AreAskable paths.now }
{
    for number in 0..paths.len() {
        if !is_askable(paths.path(number)) {
            return false;
        }
    }
    true
}

/// Checks whether the system can be asked about each of these paths, which are rows.
pub(crate) fn are_rows_askable(paths: &RowList<u8>) -> bool
    ensures { IsTrue result ↔ AreAskable paths.now }
{
    for number in 0..paths.len() {
        if !is_askable(paths.row(number)) {
            return false;
        }
    }
    true
}
