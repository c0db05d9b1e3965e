//! Texts that are joined. Of a text that is too long, only one byte more than is allowed is kept.

ghost use Rattle.std.specs.Prelude.{◌≡◌, ◌≤◌, ◌+◌, ◌++◌, length, IfOk, OnOk};
ghost use Rattle.std.specs.List.{join_with_byte, list_all};
ghost use Rattle.plan_scope.specs.Expansion.{escaped, is_plain, quoted, single_quote};
ghost use Rattle.plan_scope.specs.Scopes.{is_too_long};
ghost use Rattle.plan_text.specs.Limits.{max_text};
ghost use Rattle.plan_scope.specs.Kept.{kept};
ghost use Rattle.plan_scope.specs.ShellQuoting.{quoted_as};
ghost use Rattle.std.specs.Prelude.{map, flat_map, [], ◌∷◌, if◌then◌else◌};

use crate::scope::path_range::PathRange;
use plan_text::{Items, MAX_TEXT};
use std::alloc::{AllocError, Global};

/// How a path is quoted.
#[derive(Clone, Copy)]
pub enum Quoting {
    /// Not quoted.
    Plain,
    /// Quoted for a shell.
    Shell,
}

/// Copies a text.
pub fn copy_of(alloc: Global, text: &[u8]) -> Result<Items<u8>, AllocError>
    ensures { IfOk result (λ copy. copy ≡ text.now) }
{
    match text {
        [] => Ok(Items::empty(alloc)),
        _ => Ok(Items::new(Vec::from_slice(alloc, text)?)),
    }
}

/// Checks whether a text is too long.
pub fn is_long(text: &[u8]) -> bool
    ensures { result ≡ is_too_long text.now }
{
    text.len() > MAX_TEXT
}

/// Returns the part of a text that is kept. Of a text that is too long, that is one byte more than is allowed.
pub fn front_kept(text: &[u8]) -> &[u8]
    ensures { kept result.now ≡ kept text.now }
{
    if MAX_TEXT < text.len() {
        &text[..MAX_TEXT + 1]
    } else {
        text
    }
}

/// Appends a text. Of a text that is too long, keeps only one byte more than is allowed, which shows that it is too
/// long.
#[inline(always)]
pub fn append(out: &mut Vec<u8>, text: &[u8]) -> Result<(), AllocError>
    ensures appended { OnOk result (kept out.new.items ≡ kept (out.old.items ++ text.now)) }
    ensures within { OnOk result (length out.old.items ≤ max_text + 1 → length out.new.items ≤ max_text + 1) }
{
    if text.is_empty() {
        return Ok(());
    }
    let room = (MAX_TEXT + 1).saturating_sub(out.len());
    if text.len() <= room {
        out.extend_from_slice(text)?;
    } else {
        out.extend_from_slice(&text[..room])?;
    }
    Ok(())
}

/// The bytes that a shell takes as they are: letters, digits and `_`, `+`, `-`, `.`, `/`.
const PLAIN: [bool; 256] = [
    false, false, false, false, false, false, false, false, false, false, false, false, false,
    false, false, false, false, false, false, false, false, false, false, false, false, false,
    false, false, false, false, false, false, false, false, false, false, false, false, false,
    false, false, false, false, true, false, true, true, true, true, true, true, true, true, true,
    true, true, true, true, false, false, false, false, false, false, false, true, true, true,
    true, true, true, true, true, true, true, true, true, true, true, true, true, true, true, true,
    true, true, true, true, true, true, true, false, false, false, false, true, false, true, true,
    true, true, true, true, true, true, true, true, true, true, true, true, true, true, true, true,
    true, true, true, true, true, true, true, true, false, false, false, false, false, false,
    false, false, false, false, false, false, false, false, false, false, false, false, false,
    false, false, false, false, false, false, false, false, false, false, false, false, false,
    false, false, false, false, false, false, false, false, false, false, false, false, false,
    false, false, false, false, false, false, false, false, false, false, false, false, false,
    false, false, false, false, false, false, false, false, false, false, false, false, false,
    false, false, false, false, false, false, false, false, false, false, false, false, false,
    false, false, false, false, false, false, false, false, false, false, false, false, false,
    false, false, false, false, false, false, false, false, false, false, false, false, false,
    false, false, false, false, false, false, false, false, false, false, false, false, false,
    false, false, false, false, false, false, false, false, false, false,
];

/// Checks whether a shell takes the byte as it is.
fn is_plain(byte: u8) -> bool
    ensures { result ≡ is_plain byte }
{
    PLAIN[usize::from(byte)]
}

/// Appends a byte, unless the text is already too long.
fn append_byte(out: &mut Vec<u8>, byte: u8) -> Result<(), AllocError>
    ensures { OnOk result (kept out.new.items ≡ kept (out.old.items ++ byte ∷ [])) }
{
    if is_long(out) {
        return Ok(());
    }
    out.push(byte)?;
    Ok(())
}

/// Appends a byte that comes between single quotes.
fn append_escaped(out: &mut Vec<u8>, byte: u8) -> Result<(), AllocError>
    ensures { OnOk result (kept out.new.items ≡ kept (out.old.items ++ escaped byte)) }
{
    if byte == b'\'' {
        append(out, b"'\\''")
    } else {
        append_byte(out, byte)
    }
}

/// Appends a path between single quotes.
fn append_between_quotes(out: &mut Vec<u8>, path: &[u8]) -> Result<(), AllocError>
    ensures { OnOk result (kept out.new.items ≡ kept (out.old.items ++ (single_quote ∷ (flat_map escaped path.now ++ single_quote ∷ [])))) }
{
    append(out, b"'")?;
    for byte in path {
        append_escaped(out, *byte)?;
    }
    append(out, b"'")
}

/// Checks whether a shell takes the path as it is.
fn is_all_plain(path: &[u8]) -> bool
    ensures { result ≡ list_all is_plain path.now }
{
    path.iter().all(|byte| is_plain(*byte))
}

/// Appends a path, quoted for a shell if that is necessary.
fn append_quoted(out: &mut Vec<u8>, path: &[u8]) -> Result<(), AllocError>
    ensures { OnOk result (kept out.new.items ≡ kept (out.old.items ++ quoted path.now)) }
{
    if is_all_plain(path) {
        append(out, path)
    } else {
        append_between_quotes(out, path)
    }
}

/// Appends a path with this quoting.
fn append_path(out: &mut Vec<u8>, quoting: Quoting, path: &[u8]) -> Result<(), AllocError>
    ensures { OnOk result (kept out.new.items ≡ kept (out.old.items ++ quoted_as quoting path.now)) }
{
    match quoting {
        Quoting::Plain => append(out, path),
        Quoting::Shell => append_quoted(out, path),
    }
}

/// Appends the separator before a path of a list, unless the path is the first.
fn append_separator(out: &mut Vec<u8>, is_first: bool, separator: u8) -> Result<(), AllocError>
    ensures { OnOk result (kept out.new.items ≡ kept (out.old.items ++ (if is_first then [] else separator ∷ []))) }
{
    if is_first {
        return Ok(());
    }
    append_byte(out, separator)
}

/// Appends paths with this quoting and a separator between them. If the text is already too long, appends nothing and
/// doesn't read the paths.
pub fn append_paths(
    out: &mut Vec<u8>,
    quoting: Quoting,
    paths: &PathRange<'_>,
    separator: u8,
) -> Result<(), AllocError>
    ensures { OnOk result (kept out.new.items ≡ kept (out.old.items ++ join_with_byte separator (map (quoted_as quoting) paths.now))) }
{
    if is_long(out) {
        return Ok(());
    }
    let mut is_first = true;
    for number in 0..paths.len() {
        append_separator(out, is_first, separator)?;
        append_path(out, quoting, paths.path(number))?;
        is_first = false;
    }
    Ok(())
}
