//! Expands the variables of a rule for an edge. A memo keeps each text, so that no variable is expanded twice.

ghost use Rattle.std.specs.Prelude.{◌≡◌, ◌≤◌, ℕ, Some, map, option_map, if◌then◌else◌, ◌++◌, IfOk, length};
ghost use Rattle.std.specs.List.{join_with_byte};
ghost use Rattle.plan_scope.specs.Scopes.{Text, Name};
ghost use Rattle.plan_scope.specs.Expansion.{Late, listed, meaning_of, text_of_piece, joined, variable, Meaning};
ghost use Rattle.plan_scope.specs.ShellQuoting.{quoted_as};
ghost use Rattle.plan_scope.specs.Outcomes.{Appends};
ghost use Rattle.plan_scope.specs.Memo.{AppendsBy, IsMemo, text_by, IsRecalled, IsMemoEntry, Says};
ghost use Rattle.plan_scope.specs.HeldEnvironment.{environment_of};
ghost use Rattle.plan_scope.specs.Kept.{kept};

use crate::edge::compiled::RuleVariables;
use crate::edge::edge_list::EdgePaths;
use crate::fault::{Cause, StatementFault};
use crate::scope::cow_text::CowText;
use crate::scope::path_range::PathRange;
use crate::scope::scoped_map::SmallMap;
use crate::scope::text::{Quoting, append, append_paths, copy_of, is_long};
use crate::scope::{Scope, name_text};
use plan_text::{Items, Piece};
use std::alloc::{AllocError, Global};

/// The environment in which the variables of an edge are looked up, the nearest binding first.
#[derive(Clone, Copy)]
pub struct EdgeEnvironment<'a> {
    /// Its canonical paths.
    pub paths: &'a EdgePaths<'a>,
    /// The variables of its build block.
    pub block: &'a SmallMap<'a, CowText<'a>>,
    /// The variables of its rule.
    pub rule: &'a RuleVariables<'a>,
    /// The meaning of names in its file after the whole tree was read.
    pub file: Scope<'a>,
}

/// Returns the paths that `in`, `out` or `in_newline` denotes, and the byte between two paths. Returns `None` for
/// other names.
fn paths_of_name<'a>(edge: &EdgeEnvironment<'a>, name: &[u8]) -> Option<(PathRange<'a>, u8)>
    ensures { (quoting : Text → Text) → option_map (λ l. join_with_byte l.1 (map quoting l.0)) result ≡ listed quoting (environment_of edge.now) name.now }
{
    if name == b"in".as_slice() {
        return Some((edge.paths.inputs(), b' '));
    }
    if name == b"out".as_slice() {
        return Some((edge.paths.outputs(), b' '));
    }
    if name == b"in_newline".as_slice() {
        return Some((edge.paths.inputs(), b'\n'));
    }
    None
}

/// Appends a text that is known. Returns the depth 0.
fn append_known(out: &mut Vec<u8>, text: &[u8]) -> Result<usize, StatementFault>
    ensures { AppendsBy out.old.items out.new.items 0 result (λ n. Some text.now) }
{
    append(out, text)?;
    Ok(0)
}

/// Appends paths with this quoting and a separator between them. Returns the depth 0.
fn append_listed(
    out: &mut Vec<u8>,
    quoting: Quoting,
    paths: &PathRange<'_>,
    separator: u8,
) -> Result<usize, StatementFault>
    ensures { AppendsBy out.old.items out.new.items 0 result (λ n. Some (join_with_byte separator (map (quoted_as quoting) paths.now))) }
{
    append_paths(out, quoting, paths, separator)?;
    Ok(0)
}

/// The greatest number of pieces in a variable that is expanded again each time that it is named.
const FEW: usize = 8;

/// Checks whether a variable is expanded again each time that it is named, given the number of variables of the rule
/// that are nested in it.
fn is_cheap(depth: usize, pieces: &[Piece]) -> bool {
    (depth == 0) & (pieces.len() <= FEW)
}

/// Returns the greater of two depths.
fn greater(depth: usize, other: usize) -> usize
    ensures first { depth ≤ result }
    ensures other { other ≤ result }
    ensures least { (most : ℕ) → depth ≤ most → other ≤ most → result ≤ most }
{
    if depth < other { other } else { depth }
}

/// Appends a variable of an edge. Returns its depth: the number of variables of the rule that are nested in it,
/// including itself. Refuses a depth above `left`.
#[cycle(expansion)]
fn append_variable<'a>(
    alloc: Global,
    edge: &'a EdgeEnvironment<'a>,
    quoting: Quoting,
    left: usize,
    memo: &mut Vec<MemoEntry<'a>>,
    name: &'a [u8],
    out: &mut Vec<u8>,
) -> Result<usize, StatementFault>
    requires { IsMemo (meaning_of (quoted_as quoting) (environment_of edge.now)) memo.old.items }
    ensures appended { AppendsBy out.old.items out.new.items left result (λ n. text_by n (meaning_of (quoted_as quoting) (environment_of edge.now)) name.now) }
    ensures memo { IsMemo (meaning_of (quoted_as quoting) (environment_of edge.now)) memo.new.items }
{
    match paths_of_name(edge, name) {
        Some((paths, separator)) => return append_listed(out, quoting, &paths, separator),
        None => {}
    }
    match edge.block.get(name) {
        Some(text) => return append_known(out, text.as_slice()),
        None => {}
    }
    match edge.rule.get(name) {
        Some(pieces) => append_late(alloc, edge, quoting, left, memo, name, pieces, out),
        None => append_known(out, name_text(edge.file, name)),
    }
}

/// Appends a variable that the rule binds to these pieces, and returns its depth. Keeps its text in the memo, unless it
/// is cheap or the outermost.
#[cycle(expansion)]
fn append_late<'a>(
    alloc: Global,
    edge: &'a EdgeEnvironment<'a>,
    quoting: Quoting,
    left: usize,
    memo: &mut Vec<MemoEntry<'a>>,
    name: &'a [u8],
    pieces: &'a [Piece],
    out: &mut Vec<u8>,
) -> Result<usize, StatementFault>
    requires late { meaning_of (quoted_as quoting) (environment_of edge.now) name.now ≡ Late pieces.now }
    requires memo { IsMemo (meaning_of (quoted_as quoting) (environment_of edge.now)) memo.old.items }
    ensures appended { AppendsBy out.old.items out.new.items left result (λ n. text_by n (meaning_of (quoted_as quoting) (environment_of edge.now)) name.now) }
    ensures memo { IsMemo (meaning_of (quoted_as quoting) (environment_of edge.now)) memo.new.items }
{
    if left == 0 {
        return Err(StatementFault::Refused(Cause::RuleCycle));
    }
    match recall(memo, name, left, out) {
        Some((depth, text)) => {
            append(out, text)?;
            return Ok(depth);
        }
        None => {}
    }
    let start = out.len();
    let depth = match append_pieces(alloc, edge, quoting, left - 1, memo, pieces, out) {
        Ok(depth) => depth,
        Err(fault) => return Err(fault),
    };
    if is_cheap(depth, pieces) | (left == edge.rule.len()) {
        return Ok(depth + 1);
    }
    memoize(alloc, memo, name, depth + 1, out, start)?;
    Ok(depth + 1)
}

/// Appends a piece of a variable of a rule, and returns its depth.
#[cycle(expansion)]
fn append_piece<'a>(
    alloc: Global,
    edge: &'a EdgeEnvironment<'a>,
    quoting: Quoting,
    left: usize,
    memo: &mut Vec<MemoEntry<'a>>,
    piece: &'a Piece,
    out: &mut Vec<u8>,
) -> Result<usize, StatementFault>
    requires { IsMemo (meaning_of (quoted_as quoting) (environment_of edge.now)) memo.old.items }
    ensures appended { AppendsBy out.old.items out.new.items left result (λ n. text_of_piece (text_by n (meaning_of (quoted_as quoting) (environment_of edge.now))) piece.now) }
    ensures memo { IsMemo (meaning_of (quoted_as quoting) (environment_of edge.now)) memo.new.items }
{
    match piece {
        Piece::Literal(bytes) => append_known(out, bytes.as_slice()),
        Piece::Reference(name) => append_variable(
            alloc,
            edge,
            quoting,
            left,
            memo,
            name.as_slice(),
            out,
        ),
    }
}

/// Appends the pieces of a variable of a rule, and returns the greatest of their depths.
#[cycle(expansion)]
fn append_pieces<'a>(
    alloc: Global,
    edge: &'a EdgeEnvironment<'a>,
    quoting: Quoting,
    left: usize,
    memo: &mut Vec<MemoEntry<'a>>,
    pieces: &'a [Piece],
    out: &mut Vec<u8>,
) -> Result<usize, StatementFault>
    requires { IsMemo (meaning_of (quoted_as quoting) (environment_of edge.now)) memo.old.items }
    ensures appended { AppendsBy out.old.items out.new.items left result (λ n. joined (text_by n (meaning_of (quoted_as quoting) (environment_of edge.now))) pieces.now) }
    ensures memo { IsMemo (meaning_of (quoted_as quoting) (environment_of edge.now)) memo.new.items }
{
    let mut deepest = 0;
    for piece in pieces {
        match append_piece(alloc, edge, quoting, left, memo, piece, out) {
            Ok(depth) => deepest = greater(deepest, depth),
            Err(fault) => return Err(fault),
        }
    }
    Ok(deepest)
}

/// Appends a variable of an edge, expanded from the outermost level. The memo serves the edge's other variables that
/// have the same quoting.
pub fn append_whole<'a>(
    alloc: Global,
    edge: &'a EdgeEnvironment<'a>,
    quoting: Quoting,
    memo: &mut Vec<MemoEntry<'a>>,
    name: &'a [u8],
    out: &mut Vec<u8>,
) -> Result<(), StatementFault>
    requires { IsMemo (meaning_of (quoted_as quoting) (environment_of edge.now)) memo.old.items }
    ensures appended { Appends out.old.items out.new.items result (variable (quoted_as quoting) (environment_of edge.now) name.now) }
    ensures memo { IsMemo (meaning_of (quoted_as quoting) (environment_of edge.now)) memo.new.items }
{
    match append_variable(alloc, edge, quoting, edge.rule.len(), memo, name, out) {
        Ok(_) => Ok(()),
        Err(fault) => Err(fault),
    }
}

/// A variable of a rule whose text was found.
#[derive(Drop)]
pub struct MemoEntry<'a> {
    /// Its name.
    pub name: &'a [u8],
    /// The number of variables of the rule that are nested in it, including itself.
    pub depth: usize,
    /// Its text. `None` if it ended a text that is too long.
    pub text: Option<Items<u8>>,
}

/// Returns the depth of a variable and the text to append, if it is known. The text is empty if `out` is already too
/// long.
fn text_of_entry<'b, 'a>(memo: &'b MemoEntry<'a>, out: &[u8]) -> Option<(usize, &'b [u8])>
    ensures { (meaning : Name → Meaning) → IsMemoEntry meaning memo.now → IsRecalled meaning memo.now.depth memo.now.name.now out.now (option_map (λ f. (f.0, f.1.now)) result) }
{
    if is_long(out) {
        return Some((memo.depth, &[]));
    }
    match &memo.text {
        Some(text) => Some((memo.depth, text.as_slice())),
        None => None,
    }
}

/// Returns the depth of a variable and the text to append, if the memo has the variable with a depth of at most `left`.
pub fn recall<'b, 'a>(
    memo: &'b [MemoEntry<'a>],
    name: &[u8],
    left: usize,
    out: &[u8],
) -> Option<(usize, &'b [u8])>
    ensures { (meaning : Name → Meaning) → IsMemo meaning memo.now → IsRecalled meaning left name.now out.now (option_map (λ f. (f.0, f.1.now)) result) }
{
    for variable in memo {
        if (variable.depth <= left) & (variable.name == name) {
            return text_of_entry(variable, out);
        }
    }
    None
}

/// Copies the text in `out` after the first `start` bytes. Returns `None` if `out` is too long.
fn text_behind(alloc: Global, out: &[u8], start: usize) -> Result<Option<Items<u8>>, AllocError>
    ensures { IfOk result (λ text. (before behind : Text) → length before ≡ start → kept out.now ≡ kept (before ++ behind) → Says text behind) }
{
    if is_long(out) {
        return Ok(None);
    }
    match out.get(start..) {
        Some(behind) => Ok(Some(copy_of(alloc, behind)?)),
        None => Ok(None),
    }
}

/// Keeps the text of a variable, which is in `out` after the first `start` bytes.
pub fn memoize<'a>(
    alloc: Global,
    memo: &mut Vec<MemoEntry<'a>>,
    name: &'a [u8],
    depth: usize,
    out: &[u8],
    start: usize,
) -> Result<(), AllocError>
    ensures { (meaning : Name → Meaning) (before text : Text) → IsMemo meaning memo.old.items → text_by depth meaning name.now ≡ Some text → length before ≡ start → kept out.now ≡ kept (before ++ text)
        → IsMemo meaning memo.new.items }
{
    let text = text_behind(alloc, out, start)?;
    memo.push(MemoEntry { name, depth, text })?;
    Ok(())
}
