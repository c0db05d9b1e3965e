//! Blocks: a line, and the indented lines below it with the variables that they bind.

ghost use Rattle.std.specs.Prelude.{◌≡◌, ◌==◌, ◌+◌, ◌<◌, ◌≤◌, ◌^◌, IfOk, List, [], OnOk, length, map};
ghost use Rattle.std.specs.List.{prefix_len, list_any};
ghost use Rattle.plan_text.specs.Bytes.{is_blank};
ghost use Rattle.plan_text.specs.Outcome.{Meets, each};
ghost use Rattle.plan_parse.specs.Blocks as blocks;
ghost use Rattle.plan_parse.specs.Statements as statements;
ghost use Rattle.plan_parse.specs.Views.{place_of};
ghost use Rattle.plan_parse.specs.Compact.{variable_in};
ghost use Rattle.plan_parse.specs.PathLists.{Extends, between};
ghost use Rattle.plan_parse.specs.Progress.{LineStandsIn, LinesStandIn};
ghost use Rattle.plan_parse.specs.BlockLines.{block_line_of, block_lines_of, line_role_if_any};
ghost use Rattle.std.specs.Str.{bytes_eq};

use crate::compact::{CompactBinding, ListPlace};
use crate::cursor::Cursor;
use crate::fault::ParseFault;
use crate::reading::{
    binding_at, compact_binding_at, count_of, name_at, name_of, past, past_gap, refusal,
};
use crate::statement::Binding;
use plan_text::{TextFault, begins, indent_len, nul_at};
use std::alloc::Global;

/// A line of a block: its text after the indentation, or the fault of a comment.
#[derive(Clone, Copy)]
pub enum BlockLine<'a> {
    /// The text of the line.
    Text(Cursor<'a>),
    /// The fault of a comment.
    Refused(TextFault),
}

/// The role of a line: it begins a block, or belongs to the block above it.
#[derive(Clone, Copy)]
pub enum LineRole<'a> {
    /// The line begins a block.
    Head(Cursor<'a>),
    /// The line belongs to the block above it.
    Below(BlockLine<'a>),
}

/// Returns whether a line begins with a space or a tab.
fn is_indented(bytes: &[u8]) -> bool
    ensures { result ≡ blocks.is_indented bytes.now }
{
    matches!(bytes, [b' ' | b'\t', ..])
}

/// Returns the role of a comment. It has a role only if it has a NUL byte, which is a fault.
fn role_of_comment(at: usize, bytes: &[u8]) -> Option<LineRole<'_>>
    requires { at + length bytes.now < 2 ^ 63 }
    ensures { line_role_if_any result ≡ blocks.role_of_comment at bytes.now }
{
    let nul = nul_at(bytes);
    if nul < bytes.len() {
        let fault = TextFault::NulByte((at + nul) as u64);
        Some(LineRole::Below(BlockLine::Refused(fault)))
    } else {
        None
    }
}

/// Returns the role of a logical line. Returns None if the line is blank.
pub fn role_of_line(at: usize, bytes: &[u8]) -> Option<LineRole<'_>>
    requires { at + length bytes.now < 2 ^ 63 }
    ensures { line_role_if_any result ≡ blocks.role_of_line (record { at = at; bytes = bytes.now }) }
{
    let indent = indent_len(bytes);
    let place = Cursor {
        at: at + indent,
        bytes: &bytes[indent..],
    };
    if place.bytes.is_empty() {
        None
    } else if begins(place.bytes, b'#') {
        role_of_comment(at, bytes)
    } else if is_indented(bytes) {
        Some(LineRole::Below(BlockLine::Text(place)))
    } else {
        Some(LineRole::Head(place))
    }
}

/// Refuses lines that are indented below a statement without a block.
pub fn no_block_allowed(lines: &[BlockLine<'_>]) -> Result<(), ParseFault>
    ensures { result ≡ statements.no_block_allowed (block_lines_of lines.now) }
{
    match lines {
        [] => Ok(()),
        [first, ..] => match *first {
            BlockLine::Text(p) => Err(refusal(p, ParseFault::UnexpectedIndent(p.at as u64))),
            BlockLine::Refused(fault) => Err(ParseFault::Text(fault)),
        },
    }
}

/// Returns the number of spaces and tabs that a text begins with.
fn blanks_len(text: &[u8]) -> usize
    ensures len { result ≡ prefix_len is_blank text.now }
    ensures within { result ≤ length text.now }
{
    text.iter()
        .take_while(|b| matches!(**b, b' ' | b'\t'))
        .count()
}

/// Returns the first word of a line, after any spaces and tabs.
fn first_word(p: Cursor<'_>) -> &[u8]
    ensures { result.now ≡ statements.first_word (place_of p.entry) }
{
    name_of(past_gap(past(p, blanks_len(p.bytes))))
}

/// Reads a line of a block as a binding, stored by its places in the text.
fn block_line_at(
    alloc: Global,
    text: &[u8],
    line: BlockLine<'_>,
) -> Result<CompactBinding, ParseFault>
    requires { LineStandsIn text.now (block_line_of line) }
    ensures { Meets ParseFault.Memory (variable_in text.now) result (statements.block_line_at (block_line_of line.entry)) }
{
    match line {
        BlockLine::Text(p) => compact_binding_at(alloc, text, p),
        BlockLine::Refused(fault) => Err(ParseFault::Text(fault)),
    }
}

/// Appends the lines of a block as bindings, stored by their places in the text. Returns their range in the
/// list.
pub fn bindings_at(
    alloc: Global,
    text: &[u8],
    lines: &[BlockLine<'_>],
    bindings: &mut Vec<CompactBinding>,
) -> Result<ListPlace, ParseFault>
    requires { LinesStandIn text.now (block_lines_of lines.now) }
    ensures read { Meets ParseFault.Memory (λ place. map (variable_in text.now) (between place.start place.end bindings.new.items)) result (each statements.block_line_at (block_lines_of lines.now)) }
    ensures keeps { OnOk result (Extends bindings.old.items bindings.new.items) }
    ensures within { IfOk result (λ place. place.end ≤ length bindings.new.items) }
{
    let start = count_of(bindings)?;
    for line in lines {
        bindings.push(block_line_at(alloc, text, *line)?)?;
    }
    let end = count_of(bindings)?;
    Ok(ListPlace { start, end })
}

/// Returns whether a line binds this name, even if the binding has a fault.
fn binds(line: BlockLine<'_>, name: &[u8]) -> bool
    ensures { result ≡ statements.is_named name.now (block_line_of line.entry) }
{
    match line {
        BlockLine::Text(p) => first_word(p) == name,
        BlockLine::Refused(_) => false,
    }
}

/// Reads the binding in the text of a line of a rule or a pool. `is_bound` says whether a line above it binds
/// the required name.
fn variable_at(
    alloc: Global,
    block: BlockKind,
    p: Cursor<'_>,
    is_bound: bool,
) -> Result<Binding, ParseFault>
    ensures { (above : List blocks.BlockLine) → is_bound ≡ list_any (statements.is_named (statements.required_name block)) above →
        Meets ParseFault.Memory (λ b. b) result (statements.block_variable_at block above (blocks.Text (place_of p.entry))) }
{
    let start = past_gap(p);
    let (name, _) = name_at(start)?;
    if !block.may_bind(name) {
        return Err(block.unknown_variable(start.at as u64));
    }
    if is_bound && name == block.required_name() {
        return Err(block.missing_or_repeated(start.at as u64));
    }
    binding_at(alloc, p)
}

/// Reads the binding in a line of a rule or a pool. `is_bound` says whether a line above it binds the required
/// name.
fn block_variable_at(
    alloc: Global,
    block: BlockKind,
    line: BlockLine<'_>,
    is_bound: bool,
) -> Result<Binding, ParseFault>
    ensures { (above : List blocks.BlockLine) → is_bound ≡ list_any (statements.is_named (statements.required_name block)) above →
        Meets ParseFault.Memory (λ b. b) result (statements.block_variable_at block above (block_line_of line.entry)) }
{
    match line {
        BlockLine::Text(p) => variable_at(alloc, block, p, is_bound),
        BlockLine::Refused(fault) => Err(ParseFault::Text(fault)),
    }
}

/// Reads the bindings of the lines of a rule or a pool, in order.
pub fn block_variables_at(
    alloc: Global,
    block: BlockKind,
    lines: &[BlockLine<'_>],
) -> Result<Vec<Binding>, ParseFault>
    ensures { Meets ParseFault.Memory (λ v. v.items) result (statements.block_variables_at block [] (block_lines_of lines.now)) }
{
    let mut found = Vec::with_capacity(alloc, lines.len())?;
    let mut is_bound = false;
    for line in lines {
        found.push(block_variable_at(alloc, block, *line, is_bound)?)?;
        is_bound |= binds(*line, block.required_name());
    }
    Ok(found)
}

/// Checks that a rule or a pool binds its required name. If it doesn't, this fault comes before all other
/// faults of its block.
pub fn has_required(block: BlockKind, at: usize, lines: &[BlockLine<'_>]) -> Result<(), ParseFault>
    ensures { result ≡ statements.has_required block at (block_lines_of lines.now) }
{
    for line in lines {
        if binds(*line, block.required_name()) {
            return Ok(());
        }
    }
    Err(block.missing_or_repeated(at as u64))
}

/// A kind of block that only allows certain variables.
#[derive(Clone, Copy)]
pub enum BlockKind {
    /// A rule. It may bind many variables, and must bind `command` once.
    Rule,
    /// A pool. It must bind `depth` once, and nothing else.
    Pool,
}

/// Returns whether a rule may bind this name.
fn is_rule_variable(name: &[u8]) -> bool
    ensures { result ≡ list_any (bytes_eq name.now) statements.rule_variables }
{
    name == b"command".as_slice()
        || name == b"depfile".as_slice()
        || name == b"deps".as_slice()
        || name == b"msvc_deps_prefix".as_slice()
        || name == b"description".as_slice()
        || name == b"dyndep".as_slice()
        || name == b"generator".as_slice()
        || name == b"in".as_slice()
        || name == b"in_newline".as_slice()
        || name == b"out".as_slice()
        || name == b"restat".as_slice()
        || name == b"rspfile".as_slice()
        || name == b"rspfile_content".as_slice()
        || name == b"pool".as_slice()
}

impl BlockKind {
    /// Returns whether the block may bind this name.
    pub fn may_bind(self, name: &[u8]) -> bool
        ensures { result ≡ statements.may_bind self name.now }
    {
        match self {
            BlockKind::Rule => is_rule_variable(name),
            BlockKind::Pool => name == b"depth".as_slice(),
        }
    }

    /// Returns the name that the block must bind exactly once.
    pub fn required_name(self) -> &'static [u8]
        ensures { result.now ≡ statements.required_name self }
    {
        match self {
            BlockKind::Rule => b"command".as_slice(),
            BlockKind::Pool => b"depth".as_slice(),
        }
    }

    /// Returns the fault of a name that the block may not bind.
    pub fn unknown_variable(self, at: u64) -> ParseFault
        ensures { result ≡ statements.unknown_variable self at }
    {
        match self {
            BlockKind::Rule => ParseFault::UnknownRuleVariable(at),
            BlockKind::Pool => ParseFault::BadPool(at),
        }
    }

    /// Returns the fault of the required name if it is missing or repeated.
    pub fn missing_or_repeated(self, at: u64) -> ParseFault
        ensures { result ≡ statements.missing_or_repeated self at }
    {
        match self {
            BlockKind::Rule => ParseFault::NoCommand(at),
            BlockKind::Pool => ParseFault::BadPool(at),
        }
    }
}
