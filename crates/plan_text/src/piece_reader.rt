//! Reads the pieces of a path or a value.

ghost use Rattle.std.specs.Prelude.{◌≡◌, ◌==◌, ◌<◌, ◌≤◌, ◌+◌, ◌^◌, ◌++◌, [], IfOk, IfSome, OnOk, not, length, drop, slice_index};
ghost use Rattle.std.specs.List.{prefix_len, position_or_len, take_while};
ghost use Rattle.plan_text.specs.Bytes as bytes;
ghost use Rattle.plan_text.specs.Pieces.{pieces_of, pieces_from, literal_of};
ghost use Rattle.plan_text.specs.Pieces as syntax;
ghost use Rattle.plan_text.specs.declared.piece_reader.Mode.TheVariants as mode;
ghost use Rattle.plan_text.specs.Gathering.{sign_and_len, sign_or_fault, sign_of, is_special, Gathers};
ghost use Rattle.plan_text.specs.Outcome.{Meets};

use crate::fault::TextFault;
use crate::piece_list::PieceList;
use crate::small_text::SmallText;
use memchr::memchr2;
use std::alloc::{AllocError, Global};
use std::mem;

/// The kind of text that is read, which decides whether a tab is refused. This is this project's own choice.
#[derive(Clone, Copy, PartialEq, Eq)]
pub enum Mode {
    /// A path, in which a tab is refused.
    Path,
    /// The value to the right of `=`, in which a tab is an ordinary byte.
    Value,
}

/// A piece of a path or a value.
#[derive(Drop)]
pub enum Piece {
    /// The bytes of the path or value, with escapes replaced by their meaning. Two literals are never adjacent.
    Literal(SmallText),
    /// The name of a variable, without `$` and braces.
    Reference(SmallText),
}

/// The meaning of one byte or one escape: a byte, a variable's name, or nothing if it continues a line.
#[derive(Clone, Copy)]
enum Found<'a> {
    Byte(u8),
    Name(&'a [u8]),
    Nothing,
}

/// The pieces that were read so far. The last literal may still grow.
#[derive(Drop)]
struct Gather {
    alloc: Global,
    done: Vec<Piece>,
    literal: SmallText,
}

/// The table of bytes that may be in a name right after `$`: ASCII letters and digits, `_` and `-`.
const BARE_NAME: [bool; 256] = [
    false, false, false, false, false, false, false, false, false, false, false, false, false,
    false, false, false, false, false, false, false, false, false, false, false, false, false,
    false, false, false, false, false, false, false, false, false, false, false, false, false,
    false, false, false, false, false, false, true, false, false, true, true, true, true, true,
    true, true, true, true, true, false, false, false, false, false, false, false, true, true,
    true, true, true, true, true, true, true, true, true, true, true, true, true, true, true, true,
    true, true, true, true, true, true, true, true, false, false, false, false, true, false, true,
    true, true, true, true, true, true, true, true, true, true, true, true, true, true, true, true,
    true, true, true, true, true, true, true, true, true, false, false, false, false, false, false,
    false, false, false, false, false, false, false, false, false, false, false, false, false,
    false, false, false, false, false, false, false, false, false, false, false, false, false,
    false, false, false, false, false, false, false, false, false, false, false, false, false,
    false, false, false, false, false, false, false, false, false, false, false, false, false,
    false, false, false, false, false, false, false, false, false, false, false, false, false,
    false, false, false, false, false, false, false, false, false, false, false, false, false,
    false, false, false, false, false, false, false, false, false, false, false, false, false,
    false, false, false, false, false, false, false, false, false, false, false, false, false,
    false, false, false, false, false, false, false, false, false, false, false, false, false,
    false, false, false, false, false, false, false, false, false, false,
];

/// Returns whether a byte may be in a name right after `$`.
fn is_bare_name_byte(byte: u8) -> bool
    ensures { result ≡ bytes.is_bare_name_byte byte }
{
    BARE_NAME[usize::from(byte)]
}

/// The table of bytes that may be in any other name: those of `BARE_NAME`, and `.`.
const NAME: [bool; 256] = [
    false, false, false, false, false, false, false, false, false, false, false, false, false,
    false, false, false, false, false, false, false, false, false, false, false, false, false,
    false, false, false, false, false, false, false, false, false, false, false, false, false,
    false, false, false, false, false, false, true, true, false, true, true, true, true, true,
    true, true, true, true, true, false, false, false, false, false, false, false, true, true,
    true, true, true, true, true, true, true, true, true, true, true, true, true, true, true, true,
    true, true, true, true, true, true, true, true, false, false, false, false, true, false, true,
    true, true, true, true, true, true, true, true, true, true, true, true, true, true, true, true,
    true, true, true, true, true, true, true, true, true, false, false, false, false, false, false,
    false, false, false, false, false, false, false, false, false, false, false, false, false,
    false, false, false, false, false, false, false, false, false, false, false, false, false,
    false, false, false, false, false, false, false, false, false, false, false, false, false,
    false, false, false, false, false, false, false, false, false, false, false, false, false,
    false, false, false, false, false, false, false, false, false, false, false, false, false,
    false, false, false, false, false, false, false, false, false, false, false, false, false,
    false, false, false, false, false, false, false, false, false, false, false, false, false,
    false, false, false, false, false, false, false, false, false, false, false, false, false,
    false, false, false, false, false, false, false, false, false, false, false, false, false,
    false, false, false, false, false, false, false, false, false, false,
];

/// Returns whether a byte may be in a name that does not follow `$` directly.
fn is_name_byte(byte: u8) -> bool
    ensures { result ≡ bytes.is_name_byte byte }
{
    NAME[usize::from(byte)]
}

/// Returns the length in bytes of the name at the front of a text, for a name right after `$`.
fn bare_name_len(text: &[u8]) -> usize
    ensures len { result ≡ prefix_len bytes.is_bare_name_byte text.now }
    ensures within { result ≤ length text.now }
{
    text.iter().take_while(|b| is_bare_name_byte(**b)).count()
}

/// Returns the length in bytes of the name at the front of a text. A name consists of ASCII letters and digits,
/// `_`, `-` and `.`. (Ninja manual, "Lexical syntax"; a name right after `$` has no `.`.)
pub fn name_len(text: &[u8]) -> usize
    ensures len { result ≡ prefix_len bytes.is_name_byte text.now }
    ensures within { result ≤ length text.now }
{
    text.iter().take_while(|b| is_name_byte(**b)).count()
}

fn spaces_len(text: &[u8]) -> usize
    ensures len { result ≡ prefix_len bytes.is_space text.now }
    ensures within { result ≤ length text.now }
{
    text.iter().take_while(|b| **b == b' ').count()
}

fn braced_name(text: &[u8]) -> Option<(Found<'_>, usize)>
    requires { length text.now + 1 < 2 ^ 64 }
    ensures within { IfSome result (λ x. x.1 ≤ length text.now + 1) }
    ensures found { sign_and_len result ≡ syntax.braced_name (take_while bytes.is_name_byte text.now) (drop (prefix_len bytes.is_name_byte text.now) text.now) }
{
    let (name, rest) = text.split_at(name_len(text));
    match rest {
        [b'}', ..] if !name.is_empty() => Some((Found::Name(name), name.len() + 2)),
        _ => None,
    }
}

/// Returns the meaning of a `$` that is followed by this text, and the number of bytes of the text that belong
/// to it. Returns None if they are no escape.
fn escape(text: &[u8]) -> Option<(Found<'_>, usize)>
    ensures found { sign_and_len result ≡ syntax.escape text.now }
    ensures within { IfSome result (λ x. x.1 ≤ length text.now) }
{
    match text {
        [] => None,
        [b @ (b'$' | b' ' | b':'), ..] => Some((Found::Byte(*b), 1)),
        [b'\n', rest @ ..] => Some((Found::Nothing, 1 + spaces_len(rest))),
        [b'\r', b'\n', rest @ ..] => Some((Found::Nothing, 2 + spaces_len(rest))),
        [b'{', rest @ ..] => braced_name(rest),
        _ => {
            let name = &text[..bare_name_len(text)];
            if name.is_empty() {
                None
            } else {
                Some((Found::Name(name), name.len()))
            }
        }
    }
}

/// Returns the number of bytes after a `$` that belong to its escape. The text begins after the `$`. Returns
/// None if they are no escape.
///
/// Escapes are `$$`, `$ `, `$:`, `$name`, `${name}`, and `$` with a newline and the spaces after it (Ninja
/// manual, "Lexical syntax").
pub fn escape_len(text: &[u8]) -> Option<usize>
    ensures len { result ≡ syntax.escape_size text.now }
    ensures within { IfSome result (λ n. n ≤ length text.now) }
{
    match escape(text) {
        Some((_, len)) => Some(len),
        None => None,
    }
}

/// Returns the meaning of the byte or escape at index `at`, and the number of bytes after it that belong to it.
/// The text is at offset `base` of a larger text, from whose start the offset of a fault counts.
fn sign_at(text: &[u8], base: usize, at: usize, mode: Mode) -> Result<(Found<'_>, usize), TextFault>
    requires inside { at < length text.now }
    requires fits { base + length text.now < 2 ^ 64 }
    ensures within { IfOk result (λ x. at + 1 + x.1 ≤ length text.now) }
    ensures sign { sign_or_fault result ≡ syntax.sign_at mode (base + at) (slice_index text.now at) (drop (at + 1) text.now) }
{
    let place = (base + at) as u64;
    match text[at] {
        b'$' => escape(&text[at + 1..]).ok_or(TextFault::BadEscape(place)),
        0 => Err(TextFault::NulByte(place)),
        b'\t' if mode == Mode::Path => Err(TextFault::TabBlank(place)),
        b => Ok((Found::Byte(b), 0)),
    }
}

/// The table of bytes that stand for themselves in a path: all except `$`, NUL and tab.
const PLAIN: [bool; 256] = [
    false, true, true, true, true, true, true, true, true, false, true, true, true, true, true,
    true, true, true, true, true, true, true, true, true, true, true, true, true, true, true, true,
    true, true, true, true, true, false, true, true, true, true, true, true, true, true, true,
    true, true, true, true, true, true, true, true, true, true, true, true, true, true, true, true,
    true, true, true, true, true, true, true, true, true, true, true, true, true, true, true, true,
    true, true, true, true, true, true, true, true, true, true, true, true, true, true, true, true,
    true, true, true, true, true, true, true, true, true, true, true, true, true, true, true, true,
    true, true, true, true, true, true, true, true, true, true, true, true, true, true, true, true,
    true, true, true, true, true, true, true, true, true, true, true, true, true, true, true, true,
    true, true, true, true, true, true, true, true, true, true, true, true, true, true, true, true,
    true, true, true, true, true, true, true, true, true, true, true, true, true, true, true, true,
    true, true, true, true, true, true, true, true, true, true, true, true, true, true, true, true,
    true, true, true, true, true, true, true, true, true, true, true, true, true, true, true, true,
    true, true, true, true, true, true, true, true, true, true, true, true, true, true, true, true,
    true, true, true, true, true, true, true, true, true, true, true, true, true, true, true, true,
    true, true, true, true, true, true, true, true, true, true, true, true, true, true, true, true,
    true, true,
];

/// Returns whether a byte stands for itself in a path.
fn is_plain(byte: u8) -> bool
    ensures { result ≡ not (is_special mode.Path byte) }
{
    PLAIN[usize::from(byte)]
}

/// Returns the number of bytes at the front of a path that stand for themselves. Tests each byte, because that
/// is faster than a search in short texts such as paths.
fn plain_path_len(text: &[u8]) -> usize
    ensures len { result ≡ position_or_len (is_special mode.Path) text.now }
    ensures within { result ≤ length text.now }
{
    text.iter().take_while(|b| is_plain(**b)).count()
}

/// Returns the number of bytes at the front of a text that stand for themselves.
fn plain_len(text: &[u8], mode: Mode) -> usize
    ensures len { result ≡ position_or_len (is_special mode) text.now }
    ensures within { result ≤ length text.now }
{
    match mode {
        Mode::Path => plain_path_len(text),
        Mode::Value => memchr2(b'$', 0, text).unwrap_or(text.len()),
    }
}

impl Gather {
    /// Appends bytes that stand for themselves to the literal.
    fn add_plain(&mut self, bytes: &[u8]) -> Result<(), AllocError>
        ensures literal { OnOk result (self.new.literal ≡ self.old.literal ++ bytes.now) }
        ensures done { OnOk result (self.new.done.items ≡ self.old.done.items) }
    {
        if bytes.is_empty() {
            return Ok(());
        }
        let literal = mem::replace(&mut self.literal, SmallText::empty());
        self.literal = literal.with(self.alloc, bytes)?;
        Ok(())
    }

    /// Ends the literal, because a piece follows. Reserves exact room for two pieces first, since most texts
    /// have no more.
    fn finish_literal(&mut self) -> Result<(), AllocError>
        ensures literal { OnOk result (self.new.literal ≡ []) }
        ensures done { OnOk result (self.new.done.items ≡ self.old.done.items ++ literal_of self.old.literal) }
    {
        if self.done.is_empty() {
            self.done.reserve_exact(2)?;
        }
        if !self.literal.as_slice().is_empty() {
            let literal = mem::replace(&mut self.literal, SmallText::empty());
            self.done.push(Piece::Literal(literal))?;
        }
        Ok(())
    }

    /// Appends the meaning of one byte or escape.
    fn add(&mut self, found: Found<'_>) -> Result<(), AllocError>
        ensures { OnOk result (Gathers self.old (sign_of found.entry) self.new) }
    {
        match found {
            Found::Byte(b) => self.add_plain(&[b])?,
            Found::Name(name) => {
                self.finish_literal()?;
                let name = SmallText::new(self.alloc, name)?;
                self.done.push(Piece::Reference(name))?;
            }
            Found::Nothing => {}
        }
        Ok(())
    }

    /// Returns the pieces at the end of the text.
    fn finish(self) -> Result<PieceList, AllocError>
        ensures { IfOk result (λ pieces. pieces ≡ self.done.items ++ literal_of self.literal) }
    {
        let Gather {
            mut done,
            literal,
            ..
        } = self;
        if literal.as_slice().is_empty() {
            return Ok(PieceList::new(done));
        }
        let last = Piece::Literal(literal);
        if done.is_empty() {
            return Ok(PieceList::one(last));
        }
        done.reserve_exact(1)?;
        done.push(last)?;
        Ok(PieceList::new(done))
    }
}

/// Reads the pieces of a text, for `pieces_at`. It takes any text, also one without special bytes.
fn gather_pieces(
    alloc: Global,
    text: &[u8],
    base: usize,
    mode: Mode,
) -> Result<PieceList, TextFault>
    requires { base + length text.now < 2 ^ 64 }
    ensures { Meets TextFault.Memory (λ v. v) result (pieces_from mode base text.now) }
{
    let mut gather = Gather {
        alloc,
        done: Vec::new(alloc),
        literal: SmallText::empty(),
    };
    let mut at = 0;
    loop {
        let rest = &text[at..];
        let plain = plain_len(rest, mode);
        gather.add_plain(&rest[..plain])?;
        at += plain;
        if at == text.len() {
            return Ok(gather.finish()?);
        }
        let (found, more) = sign_at(text, base, at, mode)?;
        gather.add(found)?;
        at += 1 + more;
    }
}

/// Returns the pieces of a text that is at offset `base` of a larger text. The offsets of faults count from the
/// start of the larger text. It is otherwise like `pieces`.
pub fn pieces_at(
    alloc: Global,
    text: &[u8],
    base: usize,
    mode: Mode,
) -> Result<PieceList, TextFault>
    requires { base + length text.now < 2 ^ 64 }
    ensures { Meets TextFault.Memory (λ v. v) result (pieces_from mode base text.now) }
{
    if text.is_empty() || plain_len(text, mode) < text.len() {
        return gather_pieces(alloc, text, base, mode);
    }
    let literal = SmallText::new(alloc, text)?;
    Ok(PieceList::one(Piece::Literal(literal)))
}

/// Returns the pieces of a path or a value, in their order.
///
/// The meaning of `$` is that of the Ninja manual's section "Lexical syntax". A `$` with a newline, and the
/// spaces after it, give no bytes. Every other byte stands for itself, also a space, `:` and `|`, so pass one
/// path at a time.
///
/// # Errors
///
/// The first fault in the text counts:
///
/// - `BadEscape` if a `$` begins no escape.
/// - `NulByte` if there is a NUL byte.
/// - `TabBlank` if there is a tab in a path.
/// - `Memory` if memory runs out, whatever the text is.
pub fn pieces(alloc: Global, text: &[u8], mode: Mode) -> Result<PieceList, TextFault>
    ensures { Meets TextFault.Memory (λ v. v) result (pieces_of mode text.now) }
{
    pieces_at(alloc, text, 0, mode)
}
