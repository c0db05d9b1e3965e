//! Reads a line from left to right.

ghost use Rattle.std.specs.Prelude.{◌≡◌, ◌+◌, ◌≤◌, true, List, [], ◌∷◌, ◌++◌, length, take, drop, map, IfOk, OnOk};
ghost use Rattle.std.specs.List.{prefix_len};
ghost use Rattle.plan_text.specs.Outcome.{Meets, seen_by};
ghost use Rattle.plan_text.specs.declared.piece_reader.Piece.{Piece};
ghost use Rattle.plan_parse.specs.Reading as syntax;
ghost use Rattle.plan_parse.specs.Compact.{StandsIn, line_in, path_in, value_in, variable_in};
ghost use Rattle.plan_parse.specs.Parts.{FailsAs, GoesWell};
ghost use Rattle.plan_parse.specs.PathLists.{Extends, added_to};
ghost use Rattle.plan_parse.specs.PlainValues.{IsPlainValue};
ghost use Rattle.plan_parse.specs.PlainPaths.{is_plain};
ghost use Rattle.plan_parse.specs.Statements as statements;
ghost use Rattle.plan_parse.specs.Views.{place_of};

use crate::compact::{CompactBinding, CompactPath, CompactValue, Span, number_of};
use crate::cursor::Cursor;
use crate::fault::ParseFault;
use crate::path_parts::checked_len;
use crate::statement::Binding;
use memchr::memchr2;
use plan_text::{
    Mode, PieceList, SmallText, TextFault, begins, escape_len, gap_len, name_len, pieces_at,
    plain_is_read,
};
use std::alloc::{AllocError, Global};

/// Paths, each as the list of its pieces.
type Paths = Vec<PieceList>;

/// Returns a line of a text.
pub fn line_in(text: &[u8], span: Span) -> Cursor<'_>
    ensures { place_of result ≡ line_in text.now span }
{
    let at = span.at as usize;
    let rest = match text.get(at..) {
        Some(rest) => rest,
        None => &[],
    };
    let line = match rest.get(..span.len as usize) {
        Some(line) => line,
        None => rest,
    };
    Cursor { at, bytes: line }
}

/// Skips n bytes.
pub fn past(p: Cursor<'_>, n: usize) -> Cursor<'_>
    requires { n ≤ length p.bytes.now }
    ensures { place_of result ≡ syntax.past n (place_of p.entry) }
{
    Cursor {
        at: p.at + n,
        bytes: &p.bytes[n..],
    }
}

/// Skips spaces, and each `$` with the newline after it.
pub fn past_gap(p: Cursor<'_>) -> Cursor<'_>
    ensures { place_of result ≡ syntax.past_gap (place_of p.entry) }
{
    past(p, gap_len(p.bytes))
}

/// Returns the fault of a place at which another item was expected. A byte that isn't allowed anywhere comes
/// first.
pub fn refusal(p: Cursor<'_>, expected: ParseFault) -> ParseFault
    ensures { result ≡ syntax.refusal expected (place_of p.entry) }
{
    let at = p.at as u64;
    match p.bytes {
        [b'\t', ..] => ParseFault::Text(TextFault::TabBlank(at)),
        [0, ..] => ParseFault::Text(TextFault::NulByte(at)),
        [b'$', rest @ ..] if escape_len(rest).is_none() => {
            ParseFault::Text(TextFault::BadEscape(at))
        }
        _ => expected,
    }
}

/// Returns the name at the cursor. It is empty if there is none.
pub fn name_of(p: Cursor<'_>) -> &[u8]
    ensures { result.now ≡ syntax.name_of (place_of p.entry) }
{
    &p.bytes[..name_len(p.bytes)]
}

/// Reads a name, and skips the gap after it.
pub fn name_at(p: Cursor<'_>) -> Result<(&[u8], Cursor<'_>), ParseFault>
    ensures { seen_by (λ x. (x.0.now, place_of x.1)) result ≡ syntax.name_at (place_of p.entry) }
{
    let len = name_len(p.bytes);
    if len == 0 {
        return Err(refusal(p, ParseFault::ExpectedName(p.at as u64)));
    }
    Ok((&p.bytes[..len], past_gap(past(p, len))))
}

/// Reads one byte, and skips the gap after it. If there is another byte, the given fault is returned.
fn byte_at(p: Cursor<'_>, b: u8, fault: ParseFault) -> Result<Cursor<'_>, ParseFault>
    ensures { seen_by place_of result ≡ syntax.byte_at b (λ _. fault) (place_of p.entry) }
{
    if !begins(p.bytes, b) {
        return Err(refusal(p, fault));
    }
    Ok(past_gap(past(p, 1)))
}

/// Checks that the line ends at the cursor.
pub fn line_end_at(p: Cursor<'_>) -> Result<(), ParseFault>
    ensures { result ≡ syntax.line_end_at (tt {0}) (place_of p.entry) }
{
    if p.bytes.is_empty() {
        Ok(())
    } else {
        Err(refusal(p, ParseFault::ExpectedLineEnd(p.at as u64)))
    }
}

/// Converts a fault of the text to one of the statements.
fn of_text(fault: TextFault) -> ParseFault
    ensures { result ≡ syntax.of_text fault }
{
    match fault {
        TextFault::Memory => ParseFault::Memory,
        TextFault::TabBlank(_)
        | TextFault::NulByte(_)
        | TextFault::BadEscape(_)
        | TextFault::SourceTooLong(_)
        | TextFault::EmptyPath => ParseFault::Text(fault),
    }
}

/// Parses the rest of the line as a value.
pub fn value_at(alloc: Global, p: Cursor<'_>) -> Result<PieceList, ParseFault>
    ensures { Meets ParseFault.Memory (λ v. v) result (syntax.value_at (place_of p.entry)) }
{
    match pieces_at(alloc, p.bytes, p.at, Mode::Value) {
        Ok(value) => Ok(value),
        Err(fault) => Err(of_text(fault)),
    }
}

/// The length below which values are tested byte by byte. A vectorized search only pays for longer values.
const SHORT_VALUE: usize = 32;

/// Returns whether no byte of a short value is a `$` or NUL.
fn is_short_plain(value: &[u8]) -> bool
    ensures { result ≡ true → IsPlainValue value.now }
{
    !value.iter().any(|b| matches!(*b, b'$' | 0))
}

/// Returns whether each byte of a value stands for itself: none is a `$` or NUL.
fn is_plain_value(value: &[u8]) -> bool
    ensures { result ≡ true → IsPlainValue value.now }
{
    if value.len() < SHORT_VALUE {
        return is_short_plain(value);
    }
    memchr2(b'$', 0, value).is_none()
}

/// Reads the rest of the line as a value, and stores it by its place in the text.
fn compact_value_at(alloc: Global, text: &[u8], p: Cursor<'_>) -> Result<CompactValue, ParseFault>
    requires { StandsIn text.now (place_of p) }
    ensures { Meets ParseFault.Memory (value_in text.now) result (syntax.value_at (place_of p.entry)) }
{
    let span = Span::new(p.at, p.bytes.len())?;
    plain_is_read();
    if is_plain_value(p.bytes) {
        return Ok(CompactValue::Plain(span));
    }
    value_at(alloc, p)?;
    Ok(CompactValue::Pieces(span))
}

/// Reads `name = value`, and stores it by its places in the text.
pub fn compact_binding_at(
    alloc: Global,
    text: &[u8],
    p: Cursor<'_>,
) -> Result<CompactBinding, ParseFault>
    requires { StandsIn text.now (place_of p) }
    ensures { Meets ParseFault.Memory (variable_in text.now) result (statements.binding_at (place_of p.entry)) }
{
    let start = past_gap(p);
    let (name, behind) = name_at(start)?;
    let right = byte_at(behind, b'=', ParseFault::ExpectedEquals(behind.at as u64))?;
    let value = compact_value_at(alloc, text, right)?;
    let name = Span::new(start.at, name.len())?;
    Ok(CompactBinding { name, value })
}

/// Reads `name = value`.
pub fn binding_at(alloc: Global, p: Cursor<'_>) -> Result<Binding, ParseFault>
    ensures { Meets ParseFault.Memory (λ b. b) result (statements.binding_at (place_of p.entry)) }
{
    let (name, rest) = name_at(past_gap(p))?;
    let rest = byte_at(rest, b'=', ParseFault::ExpectedEquals(rest.at as u64))?;
    let value = value_at(alloc, rest)?;
    let name = SmallText::new(alloc, name)?;
    Ok(Binding { name, value })
}

/// The table of bytes that belong to a path and stand for themselves: all except a space, `:`, `|`, `$`, NUL
/// and tab.
const PLAIN: [bool; 256] = [
    false, true, true, true, true, true, true, true, true, false, true, true, true, true, true,
    true, true, true, true, true, true, true, true, true, true, true, true, true, true, true, true,
    true, false, true, true, true, false, true, true, true, true, true, true, true, true, true,
    true, true, true, true, true, true, true, true, true, true, true, true, false, true, true,
    true, true, true, true, true, true, true, true, true, true, true, true, true, true, true, true,
    true, true, true, true, true, true, true, true, true, true, true, true, true, true, true, true,
    true, true, true, true, true, true, true, true, true, true, true, true, true, true, true, true,
    true, true, true, true, true, true, true, true, true, true, true, true, true, true, true,
    false, true, true, true, true, true, true, true, true, true, true, true, true, true, true,
    true, true, true, true, true, true, true, true, true, true, true, true, true, true, true, true,
    true, true, true, true, true, true, true, true, true, true, true, true, true, true, true, true,
    true, true, true, true, true, true, true, true, true, true, true, true, true, true, true, true,
    true, true, true, true, true, true, true, true, true, true, true, true, true, true, true, true,
    true, true, true, true, true, true, true, true, true, true, true, true, true, true, true, true,
    true, true, true, true, true, true, true, true, true, true, true, true, true, true, true, true,
    true, true, true, true, true, true, true, true, true, true, true, true, true, true, true, true,
    true, true, true, true, true,
];

/// Returns whether a byte belongs to a path and stands for itself.
fn is_plain(byte: u8) -> bool
    ensures { result ≡ is_plain byte }
{
    PLAIN[usize::from(byte)]
}

/// Returns the number of bytes at the front of a text that belong to a path and stand for themselves.
pub fn plain_len(text: &[u8]) -> usize
    ensures len { result ≡ prefix_len is_plain text.now }
    ensures within { result ≤ length text.now }
{
    text.iter().take_while(|b| is_plain(**b)).count()
}

/// Returns whether a path ends at the beginning of this text.
fn ends_path(text: &[u8]) -> bool
    ensures { result ≡ true → syntax.path_unit text.now ≡ 0 }
{
    matches!(text, [] | [b' ' | b':' | b'|', ..])
}

/// The length of a path, and whether it is known that each of its bytes stands for itself.
#[derive(Clone, Copy)]
struct Extent {
    len: usize,
    is_plain: bool,
}

/// Returns the extent of the path at the cursor.
///
/// # Errors
///
/// The first fault of the path.
#[inline(always)]
fn extent_at(p: Cursor<'_>) -> Result<Extent, ParseFault>
    ensures len { IfOk result (λ extent. extent.len ≡ syntax.path_len p.entry.bytes.now) }
    ensures within { IfOk result (λ extent. extent.len ≤ length p.entry.bytes.now) }
    ensures plain { IfOk result (λ extent. extent.is_plain ≡ true → extent.len ≤ prefix_len is_plain p.entry.bytes.now) }
    ensures sound { FailsAs (syntax.path_at (place_of p.entry) (syntax.path_len p.entry.bytes.now)) result }
{
    let plain = plain_len(p.bytes);
    if ends_path(&p.bytes[plain..]) {
        return Ok(Extent {
            len: plain,
            is_plain: true,
        });
    }
    match checked_len(p, plain) {
        Ok(len) => Ok(Extent {
            len,
            is_plain: false,
        }),
        Err(fault) => Err(of_text(fault)),
    }
}

/// Reads the path with this extent.
fn path_at(alloc: Global, p: Cursor<'_>, extent: Extent) -> Result<PieceList, ParseFault>
    requires within { extent.len ≤ length p.bytes.now }
    requires plain { extent.is_plain ≡ true → extent.len ≤ prefix_len is_plain p.bytes.now }
    ensures { Meets ParseFault.Memory (λ v. v) result (syntax.path_at (place_of p.entry) extent.len) }
{
    let path = &p.bytes[..extent.len];
    plain_is_read();
    if extent.is_plain {
        return Ok(PieceList::literal(alloc, path)?);
    }
    match pieces_at(alloc, path, p.at, Mode::Path) {
        Ok(path) => Ok(path),
        Err(fault) => Err(of_text(fault)),
    }
}

/// Stores the path with this extent by its place in the text.
fn compact_path_at(text: &[u8], p: Cursor<'_>, extent: Extent) -> Result<CompactPath, ParseFault>
    requires within { extent.len ≤ length p.bytes.now }
    requires plain { extent.is_plain ≡ true → extent.len ≤ prefix_len is_plain p.bytes.now }
    requires stands { StandsIn text.now (place_of p) }
    requires sound { GoesWell (syntax.path_at (place_of p) extent.len) }
    ensures { Meets ParseFault.Memory (path_in text.now) result (syntax.path_at (place_of p.entry) extent.len) }
{
    let span = Span::new(p.at, extent.len)?;
    plain_is_read();
    if extent.is_plain {
        return Ok(CompactPath::Plain(span));
    }
    Ok(CompactPath::Pieces(span))
}

/// Appends a path. Reserves exact room for the first one, because most lists have one path.
fn add_path(paths: &mut Paths, path: PieceList) -> Result<(), AllocError>
    ensures { OnOk result (paths.new.items ≡ paths.old.items ++ path ∷ []) }
{
    if paths.is_empty() {
        paths.reserve_exact(1)?;
    }
    paths.push(path)?;
    Ok(())
}

/// Reads the paths of a list, and returns them with the place after them. Releases spare room if memory allows
/// it.
fn paths_at(alloc: Global, p: Cursor<'_>) -> Result<(Paths, Cursor<'_>), ParseFault>
    ensures { Meets ParseFault.Memory (λ x. (x.0.items, place_of x.1)) result (syntax.paths_at (place_of p.entry)) }
{
    let mut paths = Vec::new(alloc);
    let mut rest = past_gap(p);
    loop {
        let extent = extent_at(rest)?;
        if extent.len == 0 {
            paths.shrink_to_fit();
            return Ok((paths, rest));
        }
        add_path(&mut paths, path_at(alloc, rest, extent)?)?;
        rest = past_gap(past(rest, extent.len));
    }
}

/// Appends the paths of a list, stored by their places in the text. Returns the place after them.
fn compact_paths_at<'a>(
    text: &[u8],
    p: Cursor<'a>,
    paths: &mut Vec<CompactPath>,
) -> Result<Cursor<'a>, ParseFault>
    requires { StandsIn text.now (place_of p) }
    ensures read { Meets ParseFault.Memory (λ left. (map (path_in text.now) (added_to paths.old.items paths.new.items), place_of left)) result (syntax.paths_at (place_of p.entry)) }
    ensures keeps { OnOk result (Extends paths.old.items paths.new.items) }
    ensures stands { IfOk result (λ left. StandsIn text.now (place_of left)) }
{
    let mut left = past_gap(p);
    loop {
        let extent = extent_at(left)?;
        if extent.len == 0 {
            return Ok(left);
        }
        paths.push(compact_path_at(text, left, extent)?)?;
        left = past_gap(past(left, extent.len));
    }
}

/// Returns whether `|` is next, and not `||` or `|@`.
fn is_bar(p: Cursor<'_>) -> bool
    ensures { result ≡ statements.is_bar (place_of p.entry) }
{
    begins(p.bytes, b'|') && !matches!(p.bytes, [_, b'|' | b'@', ..])
}

/// Returns whether `||` is next.
fn is_two_bars(p: Cursor<'_>) -> bool
    ensures { result ≡ statements.is_two_bars (place_of p.entry) }
{
    matches!(p.bytes, [b'|', b'|', ..])
}

/// Returns whether `|@` is next.
fn is_validation(p: Cursor<'_>) -> bool
    ensures { result ≡ statements.is_validation (place_of p.entry) }
{
    matches!(p.bytes, [b'|', b'@', ..])
}

/// Appends the paths after `|`. Appends none if there is no `|` at the cursor.
fn implicit_at<'a>(
    text: &[u8],
    p: Cursor<'a>,
    paths: &mut Vec<CompactPath>,
) -> Result<Cursor<'a>, ParseFault>
    requires { StandsIn text.now (place_of p) }
    ensures read { Meets ParseFault.Memory (λ left. (map (path_in text.now) (added_to paths.old.items paths.new.items), place_of left)) result (statements.implicit_at (place_of p.entry)) }
    ensures keeps { OnOk result (Extends paths.old.items paths.new.items) }
    ensures stands { IfOk result (λ left. StandsIn text.now (place_of left)) }
{
    if is_bar(p) {
        compact_paths_at(text, past(p, 1), paths)
    } else {
        Ok(p)
    }
}

/// Appends the paths after `||`. Appends none if there is no `||` at the cursor.
fn order_only_at<'a>(
    text: &[u8],
    p: Cursor<'a>,
    paths: &mut Vec<CompactPath>,
) -> Result<Cursor<'a>, ParseFault>
    requires { StandsIn text.now (place_of p) }
    ensures read { Meets ParseFault.Memory (λ left. (map (path_in text.now) (added_to paths.old.items paths.new.items), place_of left)) result (statements.order_only_at (place_of p.entry)) }
    ensures keeps { OnOk result (Extends paths.old.items paths.new.items) }
{
    if is_two_bars(p) {
        compact_paths_at(text, past(p, 2), paths)
    } else {
        Ok(p)
    }
}

/// Refuses `|@`.
fn no_validation(p: Cursor<'_>) -> Result<(), ParseFault>
    ensures { result ≡ statements.no_validation (place_of p.entry) }
{
    if is_validation(p) {
        return Err(ParseFault::Validation(p.at as u64));
    }
    Ok(())
}

/// Checks that there is at least one path in two lists, given the number of paths in both.
fn some_path(p: Cursor<'_>, count: usize) -> Result<(), ParseFault>
    ensures { (xs ys : List (List Piece)) → length xs + length ys ≡ count → result ≡ statements.some_path (place_of p.entry) xs ys }
{
    if count == 0 {
        return Err(refusal(p, ParseFault::ExpectedPath(p.at as u64)));
    }
    Ok(())
}

/// Returns the number of items.
pub fn count_of<T>(items: &[T]) -> Result<u32, AllocError>
    ensures { IfOk result (λ count. count ≡ length items.now) }
{
    number_of(items.len())
}

/// Appends the paths of `outputs | implicit_outputs:`. Returns the number of all paths after the explicit
/// outputs, and the place after the colon.
pub fn outputs_at<'a>(
    text: &[u8],
    p: Cursor<'a>,
    paths: &mut Vec<CompactPath>,
) -> Result<(u32, Cursor<'a>), ParseFault>
    requires { StandsIn text.now (place_of p) }
    ensures read { Meets ParseFault.Memory (λ x. (map (path_in text.now) (added_to paths.old.items (take x.0 paths.new.items)), map (path_in text.now) (drop x.0 paths.new.items), place_of x.1)) result (statements.outputs_at (place_of p.entry)) }
    ensures keeps { IfOk result (λ x. Extends paths.old.items (take x.0 paths.new.items)) }
    ensures within { IfOk result (λ x. x.0 ≤ length paths.new.items) }
    ensures stands { IfOk result (λ x. StandsIn text.now (place_of x.1)) }
{
    let before = paths.len();
    let left = compact_paths_at(text, p, paths)?;
    let end = count_of(paths)?;
    let left = implicit_at(text, left, paths)?;
    some_path(left, paths.len() - before)?;
    let behind = byte_at(left, b':', ParseFault::ExpectedColon(left.at as u64))?;
    Ok((end, behind))
}

/// The ends of lists of inputs, as numbers of paths.
#[derive(Clone, Copy)]
pub struct InputEnds {
    /// The end of the explicit inputs.
    pub explicit: u32,
    /// The end of the implicit inputs, after `|`.
    pub implicit: u32,
}

/// Appends the paths of `inputs | implicit_inputs || order_only_inputs`, to the end of the line.
pub fn inputs_at(
    text: &[u8],
    p: Cursor<'_>,
    paths: &mut Vec<CompactPath>,
) -> Result<InputEnds, ParseFault>
    requires { StandsIn text.now (place_of p) }
    ensures read { Meets ParseFault.Memory (λ ends. (map (path_in text.now) (added_to paths.old.items (take ends.explicit paths.new.items)), map (path_in text.now) (drop ends.explicit (take ends.implicit paths.new.items)), map (path_in text.now) (drop ends.implicit paths.new.items))) result (statements.inputs_at (place_of p.entry)) }
    ensures keeps { IfOk result (λ ends. Extends paths.old.items (take ends.explicit paths.new.items)) }
    ensures rise { IfOk result (λ ends. ends.explicit ≤ ends.implicit) }
    ensures within { IfOk result (λ ends. ends.implicit ≤ length paths.new.items) }
{
    let left = compact_paths_at(text, p, paths)?;
    let explicit = count_of(paths)?;
    let left = implicit_at(text, left, paths)?;
    let implicit = count_of(paths)?;
    let left = order_only_at(text, left, paths)?;
    no_validation(left)?;
    line_end_at(left)?;
    Ok(InputEnds { explicit, implicit })
}

/// Reads one path or more, and the end of the line.
pub fn targets_at(alloc: Global, p: Cursor<'_>) -> Result<Paths, ParseFault>
    ensures { Meets ParseFault.Memory (λ v. v.items) result (statements.targets_at (place_of p.entry)) }
{
    let (targets, rest) = paths_at(alloc, p)?;
    some_path(rest, targets.len())?;
    line_end_at(rest)?;
    Ok(targets)
}

/// Reads one path, and the end of the line.
pub fn file_at(alloc: Global, p: Cursor<'_>) -> Result<PieceList, ParseFault>
    ensures { Meets ParseFault.Memory (λ v. v) result (statements.file_at (place_of p.entry)) }
{
    let extent = extent_at(p)?;
    if extent.len == 0 {
        return Err(refusal(p, ParseFault::ExpectedPath(p.at as u64)));
    }
    let path = path_at(alloc, p, extent)?;
    line_end_at(past_gap(past(p, extent.len)))?;
    Ok(path)
}
