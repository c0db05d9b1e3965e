//! Statements: the line that begins one, by its first word, and the lines below it.

ghost use Rattle.std.specs.Prelude.{◌≡◌, ℕ, IfOk, List, OnOk, Result};
ghost use Rattle.plan_parse.specs.Kinds.{Statement};
ghost use Rattle.plan_parse.specs.declared.fault.ParseFault as the_fault;
ghost use Rattle.plan_parse.specs.declared.compact.BuildLists.{BuildLists};
ghost use Rattle.plan_text.specs.Outcome.{Meets, seen_by};
ghost use Rattle.plan_parse.specs.Statements as statements;
ghost use Rattle.plan_parse.specs.Views.{place_of};
ghost use Rattle.plan_parse.specs.BlockLines.{block_lines_of};
ghost use Rattle.plan_parse.specs.Compact.{BuildLasts, Follows, Lasts, StandsIn, binding_in, built_in, directive_said, said_in};
ghost use Rattle.plan_parse.specs.Progress.{LinesStandIn};

use crate::block::{
    BlockKind, BlockLine, bindings_at, block_variables_at, has_required, no_block_allowed,
};
use crate::compact::{BuildLists, CompactBuild, CompactStatement, PathPlaces, Span, number_of};
use crate::cursor::Cursor;
use crate::fault::ParseFault;
use crate::reading::{
    compact_binding_at, count_of, file_at, inputs_at, line_end_at, name_at, name_of, outputs_at,
    past, past_gap, targets_at,
};
use crate::statement::{Binding, Directive, DirectiveKind, Pool, Rule};
use plan_text::{Items, PieceList, SmallText};
use std::alloc::Global;

/// Reads a name and the end of the line.
fn named_line(p: Cursor<'_>) -> Result<&[u8], ParseFault>
    ensures { seen_by (λ name. name.now) result ≡ statements.named_line (place_of p.entry) }
{
    let (name, rest) = name_at(p)?;
    line_end_at(rest)?;
    Ok(name)
}

/// Reads a rule or a pool, from its name on, and the lines below it.
fn named_block(
    alloc: Global,
    block: BlockKind,
    at: usize,
    p: Cursor<'_>,
    lines: &[BlockLine<'_>],
) -> Result<(SmallText, Vec<Binding>), ParseFault>
    ensures { Meets ParseFault.Memory (λ x. (x.0, x.1.items)) result (statements.named_block block at (place_of p.entry) (block_lines_of lines.now)) }
{
    has_required(block, at, lines)?;
    let name = named_line(p)?;
    let bindings = block_variables_at(alloc, block, lines)?;
    let name = SmallText::new(alloc, name)?;
    Ok((name, bindings))
}

/// Reads `rule name`, from the name on, and the lines below it.
fn rule_of(
    alloc: Global,
    at: usize,
    p: Cursor<'_>,
    lines: &[BlockLine<'_>],
) -> Result<Directive, ParseFault>
    ensures { Meets ParseFault.Memory directive_said result (statements.rule_of at (place_of p.entry) (block_lines_of lines.now)) }
{
    let (name, bindings) = named_block(alloc, BlockKind::Rule, at, p, lines)?;
    Ok(Directive {
        offset: at as u64,
        kind: DirectiveKind::Rule(Rule {
            name,
            bindings: Items::new(bindings),
        }),
    })
}

/// Returns the value of the single line of a pool.
fn depth_of(alloc: Global, bindings: Vec<Binding>) -> PieceList
    ensures { result ≡ statements.depth_of bindings.items }
{
    match bindings.into_iter().next() {
        Some(binding) => binding.value,
        None => PieceList::empty(alloc),
    }
}

/// Reads `pool name`, from the name on, and the lines below it.
fn pool_of(
    alloc: Global,
    at: usize,
    p: Cursor<'_>,
    lines: &[BlockLine<'_>],
) -> Result<Directive, ParseFault>
    ensures { Meets ParseFault.Memory directive_said result (statements.pool_of at (place_of p.entry) (block_lines_of lines.now)) }
{
    let (name, bindings) = named_block(alloc, BlockKind::Pool, at, p, lines)?;
    let depth = depth_of(alloc, bindings);
    Ok(Directive {
        offset: at as u64,
        kind: DirectiveKind::Pool(Pool { name, depth }),
    })
}

/// Reads `build outputs: rule inputs`, from the outputs on, and the lines below it. Its paths and variables are
/// appended to those of its file.
fn build_of(
    alloc: Global,
    text: &[u8],
    at: usize,
    p: Cursor<'_>,
    lines: &[BlockLine<'_>],
    lists: &mut BuildLists,
) -> Result<CompactBuild, ParseFault>
    requires line { StandsIn text.now (place_of p) }
    requires below { LinesStandIn text.now (block_lines_of lines.now) }
    ensures read { Meets ParseFault.Memory (built_in text.now lists.new) result (statements.build_of at (place_of p.entry) (block_lines_of lines.now)) }
    ensures follows { OnOk result (Follows lists.old lists.new) }
    ensures builds { lists.new.builds ≡ lists.old.builds }
    ensures lasts { IfOk result (λ build. BuildLasts text.now lists.new build) }
{
    let start = count_of(&lists.paths)?;
    let (outputs, rest) = outputs_at(text, p, &mut lists.paths)?;
    let implicit_outputs = count_of(&lists.paths)?;
    let name = rest.at;
    let (rule, rest) = name_at(rest)?;
    let inputs = inputs_at(text, rest, &mut lists.paths)?;
    let order_only_inputs = count_of(&lists.paths)?;
    let bindings = bindings_at(alloc, text, lines, &mut lists.bindings)?;
    let offset = number_of(at)?;
    let rule = Span::new(name, rule.len())?;
    Ok(CompactBuild {
        offset,
        paths: PathPlaces {
            start,
            outputs,
            implicit_outputs,
            inputs: inputs.explicit,
            implicit_inputs: inputs.implicit,
            order_only_inputs,
        },
        rule,
        bindings,
    })
}

/// Reads a build line, from its outputs on, and appends it to those of its file.
fn keep_build(
    alloc: Global,
    text: &[u8],
    at: usize,
    p: Cursor<'_>,
    lines: &[BlockLine<'_>],
    lists: &mut BuildLists,
) -> Result<CompactStatement, ParseFault>
    requires line { StandsIn text.now (place_of p) }
    requires below { LinesStandIn text.now (block_lines_of lines.now) }
    ensures read { Meets ParseFault.Memory (said_in text.now lists.new) result (statements.build_of at (place_of p.entry) (block_lines_of lines.now)) }
    ensures follows { OnOk result (Follows lists.old lists.new) }
    ensures lasts { IfOk result (λ statement. Lasts text.now lists.new statement) }
{
    let build = build_of(alloc, text, at, p, lines, lists)?;
    let number = count_of(&lists.builds)?;
    lists.builds.push(build)?;
    Ok(CompactStatement::Build(number))
}

/// Reads `default targets`, from the targets on, and refuses lines below it.
fn default_of(
    alloc: Global,
    at: usize,
    p: Cursor<'_>,
    lines: &[BlockLine<'_>],
) -> Result<Directive, ParseFault>
    ensures { Meets ParseFault.Memory directive_said result (statements.default_of at (place_of p.entry) (block_lines_of lines.now)) }
{
    let targets = targets_at(alloc, p)?;
    no_block_allowed(lines)?;
    Ok(Directive {
        offset: at as u64,
        kind: DirectiveKind::Default(Items::new(targets)),
    })
}

/// Reads `include path`, from the path on, and refuses lines below it.
fn include_of(
    alloc: Global,
    at: usize,
    p: Cursor<'_>,
    lines: &[BlockLine<'_>],
) -> Result<Directive, ParseFault>
    ensures { Meets ParseFault.Memory directive_said result (statements.include_of at (place_of p.entry) (block_lines_of lines.now)) }
{
    let path = file_at(alloc, p)?;
    no_block_allowed(lines)?;
    Ok(Directive {
        offset: at as u64,
        kind: DirectiveKind::Include(path),
    })
}

/// Reads `subninja path`, from the path on, and refuses lines below it.
fn subninja_of(
    alloc: Global,
    at: usize,
    p: Cursor<'_>,
    lines: &[BlockLine<'_>],
) -> Result<Directive, ParseFault>
    ensures { Meets ParseFault.Memory directive_said result (statements.subninja_of at (place_of p.entry) (block_lines_of lines.now)) }
{
    let path = file_at(alloc, p)?;
    no_block_allowed(lines)?;
    Ok(Directive {
        offset: at as u64,
        kind: DirectiveKind::Subninja(path),
    })
}

/// Reads `name = value`, refuses lines below it, and returns its place.
fn binding_of(
    alloc: Global,
    text: &[u8],
    p: Cursor<'_>,
    lines: &[BlockLine<'_>],
) -> Result<Span, ParseFault>
    requires { StandsIn text.now (place_of p) }
    ensures { Meets ParseFault.Memory (binding_in text.now) result (statements.binding_of (place_of p.entry) (block_lines_of lines.now)) }
{
    compact_binding_at(alloc, text, p)?;
    no_block_allowed(lines)?;
    Ok(Span::new(p.at, p.bytes.len())?)
}

/// Boxes a directive that was read.
fn keep(alloc: Global, read: Result<Directive, ParseFault>) -> Result<CompactStatement, ParseFault>
    ensures read { (text : List ℕ) (lists : BuildLists) (said : Result Statement the_fault.ParseFault) → Meets ParseFault.Memory directive_said read said → Meets ParseFault.Memory (said_in text lists) result said }
    ensures lasts { IfOk result (λ statement. (text : List ℕ) (lists : BuildLists) → Lasts text lists statement) }
{
    Ok(CompactStatement::Directive(Box::new(alloc, read?)?))
}

/// Reads a statement, by the word that it begins with, and the lines below it. Stores it by its places in the
/// text. A build line is appended to those of its file.
pub fn statement_of(
    alloc: Global,
    text: &[u8],
    p: Cursor<'_>,
    lines: &[BlockLine<'_>],
    lists: &mut BuildLists,
) -> Result<CompactStatement, ParseFault>
    requires line { StandsIn text.now (place_of p) }
    requires below { LinesStandIn text.now (block_lines_of lines.now) }
    ensures read { Meets ParseFault.Memory (said_in text.now lists.new) result (statements.statement_of (place_of p.entry) (block_lines_of lines.now)) }
    ensures follows { OnOk result (Follows lists.old lists.new) }
    ensures lasts { IfOk result (λ statement. Lasts text.now lists.new statement) }
{
    let start = past_gap(p);
    let word = name_of(start);
    let behind = past_gap(past(start, word.len()));
    if word == b"rule".as_slice() {
        keep(alloc, rule_of(alloc, p.at, behind, lines))
    } else if word == b"build".as_slice() {
        keep_build(alloc, text, p.at, behind, lines, lists)
    } else if word == b"pool".as_slice() {
        keep(alloc, pool_of(alloc, p.at, behind, lines))
    } else if word == b"default".as_slice() {
        keep(alloc, default_of(alloc, p.at, behind, lines))
    } else if word == b"include".as_slice() {
        keep(alloc, include_of(alloc, p.at, behind, lines))
    } else if word == b"subninja".as_slice() {
        keep(alloc, subninja_of(alloc, p.at, behind, lines))
    } else {
        Ok(CompactStatement::Binding(binding_of(alloc, text, p, lines)?))
    }
}
