//! Evaluates a build line into an edge.

ghost use Rattle.std.specs.Prelude.{◌≡◌, ◌<◌, ◌+◌, [], List, IfOk, OnOk, get_or, length, true, false};
ghost use Rattle.plan_scope.specs.Scopes.{Name, Text};
ghost use Rattle.plan_scope.specs.Edges.{Paths, causes_of, edge_of, edge_or_refusal, first_of, names_no_pool, or_refused, phony_variables, environment_of, variables_of};
ghost use Rattle.plan_scope.specs.Kept.{EqNames, KeptEqLookup};
ghost use Rattle.plan_scope.specs.Compiled.{IsCompiledRule};
ghost use Rattle.plan_scope.specs.HeldEnvironment.{environment_of as held_environment};
ghost use Rattle.plan_scope.specs.Parts.{IsRead, environment_from, parts_with};
ghost use Rattle.plan_scope.specs.EdgePlaces.{ArePlaced};
ghost use Rattle.plan_scope.specs.EdgeRows.{AreWithin, BeginsEmpty, edge_with};
ghost use Rattle.plan_chunks.specs.Joining.{HasMore};
ghost use Rattle.plan_scope.specs.EdgeAnswers.{AreTexts, GivesEdge, GivesMarks, texts_read};
ghost use Rattle.plan_scope.specs.ScopeNames.{names_in};

use crate::edge::compiled::{CompiledRule, RuleVariables};
use crate::edge::edge_list::{EdgeMarks, EdgeRows, PathPlaces};
use crate::edge::expansion::EdgeEnvironment;
use crate::edge::paths::{BlockTexts, PathRows, PathTexts, block, read_paths};
use crate::edge::text_list::TextList;
use crate::edge::variables::{
    PoolNames, Variables, has_long_text, is_other_deps, is_present, keep_room, variables_of_phony,
    variables_of_rule,
};
use crate::fault::{Cause, StatementFault};
use crate::scope::Scope;
use crate::scope::text::is_long;
use plan_parse::BuildLine;
use std::alloc::{AllocError, Global};

/// The parts of a build line that are read before its variables are looked up.
#[derive(Drop)]
pub struct Parts<'a> {
    /// The variables of its block.
    pub block: BlockTexts<'a>,
    /// Its paths.
    pub read: PathTexts<'a>,
}

/// Reads the block and the paths of a build line, by the meaning of names above it. Appends the paths to those of the
/// lines before, and returns the block and the places of the paths.
fn read_parts<'a>(
    alloc: Global,
    here: Scope<'a>,
    build: &BuildLine<'a>,
    read: &mut PathRows,
) -> Result<(BlockTexts<'a>, PathPlaces), AllocError>
    ensures parts { IfOk result (λ x. (h : Name → Text) → KeptEqLookup (names_in here.entry) h → IsRead h build.now (parts_with x.0 (texts_read read.new x.1))) }
    ensures placed { IfOk result (λ x. ArePlaced (length read.new.rows) x.1) }
    ensures more { OnOk result (HasMore read.old.rows read.new.rows) }
{
    let block = block(alloc, here, &build.bindings())?;
    let places = read_paths(alloc, &block.values, here, &*build, read)?;
    Ok((block, places))
}

/// Checks whether a text names a pool that doesn't exist. An empty text names none.
fn names_no_pool(pools: &PoolNames, text: &[u8]) -> bool
    ensures { result ≡ names_no_pool pools.now text.now }
{
    if text.is_empty() {
        return false;
    }
    if is_long(text) {
        return true;
    }
    !pools.contains(text)
}

/// Returns the cause for which a build line with these variables is refused. If there are several, returns the one with
/// the least number.
fn cause(pools: &PoolNames, parts: &Parts, variables: &Variables) -> Option<Cause>
    ensures { result ≡ first_of (causes_of pools.now variables.now parts.now.read.has_empty parts.now.read.has_long parts.now.block.has_long) }
{
    if names_no_pool(pools, variables.pool.as_slice()) {
        return Some(Cause::UnknownPool);
    }
    if variables.has_cycle {
        return Some(Cause::RuleCycle);
    }
    if parts.read.has_empty {
        return Some(Cause::EmptyPath);
    }
    if is_present(variables.dyndep.as_slice()) {
        return Some(Cause::Dyndep);
    }
    if is_present(variables.rspfile.as_slice()) {
        return Some(Cause::Rspfile);
    }
    if is_other_deps(variables.deps.as_slice()) {
        return Some(Cause::DepsKind);
    }
    if parts.read.has_long {
        return Some(Cause::PathTooLong);
    }
    if has_long_text(variables) | parts.block.has_long {
        return Some(Cause::TextTooLong);
    }
    None
}

/// Appends a text and returns its number. If the text is empty, returns the number of the first text, which is empty.
fn put_text(texts: &mut TextList, text: &[u8]) -> Result<u32, AllocError>
    ensures text { IfOk result (λ n. BeginsEmpty texts.old → (get_or texts.new n [] ≡ text.now) × (n < length texts.new)) }
    ensures more { OnOk result (HasMore texts.old texts.new) }
{
    if text.is_empty() {
        return Ok(0);
    }
    let number = texts.count()?;
    texts.push(text)?;
    Ok(number)
}

/// Appends the texts of an edge with these places and variables, and returns the edge's marks.
fn marks_of(
    places: PathPlaces,
    variables: &Variables,
    phony: bool,
    texts: &mut TextList,
) -> Result<EdgeMarks, AllocError>
    ensures edge { IfOk result (λ m. BeginsEmpty texts.old → (paths : Paths) → edge_with paths texts.new m ≡ edge_of paths variables.now phony) }
    ensures places { IfOk result (λ m. m.paths ≡ places) }
    ensures within { IfOk result (λ m. BeginsEmpty texts.old → AreTexts (length texts.new) m) }
    ensures more { OnOk result (HasMore texts.old texts.new) }
{
    Ok(EdgeMarks {
        paths: places,
        command: put_text(texts, variables.command.as_slice())?,
        description: put_text(texts, variables.description.as_slice())?,
        depfile: put_text(texts, variables.depfile.as_slice())?,
        pool: put_text(texts, variables.pool.as_slice())?,
        deps: is_present(variables.deps.as_slice()),
        restat: is_present(variables.restat.as_slice()),
        generator: is_present(variables.generator.as_slice()),
        phony,
    })
}

/// Returns the marks of the edge with these variables, or the cause for which it is refused.
fn marks_or_refusal(
    pools: &PoolNames,
    parts: &Parts,
    places: PathPlaces,
    variables: &Variables,
    phony: bool,
    texts: &mut TextList,
) -> Result<EdgeMarks, StatementFault>
    ensures { BeginsEmpty texts.old → GivesMarks parts.now.read.paths places texts.old texts.new result (or_refused (first_of (causes_of pools.now variables.now parts.now.read.has_empty parts.now.read.has_long parts.now.block.has_long)) (edge_of parts.now.read.paths variables.now phony)) }
{
    match cause(pools, parts, variables) {
        Some(cause) => Err(StatementFault::Refused(cause)),
        None => Ok(marks_of(places, variables, phony, texts)?),
    }
}

/// Creates the environment in which the variables of an edge are looked up.
fn environment_with<'a>(
    parts: &'a Parts<'a>,
    rule: &'a RuleVariables<'a>,
    file: Scope<'a>,
) -> EdgeEnvironment<'a>
    ensures { held_environment result ≡ environment_from parts.now rule.now (names_in file.entry) }
{
    EdgeEnvironment {
        paths: &parts.read.paths,
        block: &parts.block.values,
        rule,
        file,
    }
}

/// Adds the edge of a build line with this rule. `compiled` is the rule as far as it is compiled for its file, and
/// `pools` has the pools of the tree. `here` gives the meaning of names above the statement, and `file` their meaning
/// in its file after the whole tree was read.
pub fn push_edge<'a>(
    alloc: Global,
    pools: &PoolNames<'a>,
    here: Scope<'a>,
    file: Scope<'a>,
    rule: &'a RuleVariables<'a>,
    compiled: &CompiledRule,
    build: &BuildLine<'a>,
    edges: &mut EdgeRows,
) -> Result<(), StatementFault>
    requires { IsCompiledRule rule.now (names_in file) compiled.now }
    ensures edge { (names : List Name) (h f : Name → Text) → EqNames pools.now names → KeptEqLookup (names_in here.entry) h → KeptEqLookup (names_in file.entry) f → AreWithin edges.old → GivesEdge edges.old edges.new result (edge_or_refusal names h build.now (variables_of (environment_of h f build.now rule.now)) false) }
    ensures count { OnOk result (length edges.new.marks.items ≡ length edges.old.marks.items + 1) }
{
    let (block, places) = read_parts(alloc, here, build, &mut edges.paths)?;
    let read = PathTexts::new(&edges.paths, places);
    let parts = Parts { block, read };
    let environment = environment_with(&parts, &*rule, file);
    let variables = variables_of_rule(alloc, &environment, compiled, &mut edges.spare)?;
    let marks = marks_or_refusal(pools, &parts, places, &variables, false, &mut edges.texts);
    keep_room(variables, &mut edges.spare);
    edges.marks.push(marks?)?;
    Ok(())
}

/// Adds the edge of a phony build line, given a rule without lines.
fn push_edge_without_lines<'a>(
    alloc: Global,
    pools: &PoolNames<'a>,
    here: Scope<'a>,
    file: Scope<'a>,
    rule: &'a RuleVariables<'a>,
    build: &BuildLine<'a>,
    edges: &mut EdgeRows,
) -> Result<(), StatementFault>
    requires { rule.now ≡ [] }
    ensures edge { (names : List Name) (h f : Name → Text) → EqNames pools.now names → KeptEqLookup (names_in here.entry) h → KeptEqLookup (names_in file.entry) f → AreWithin edges.old → GivesEdge edges.old edges.new result (edge_or_refusal names h build.now (phony_variables (environment_of h f build.now [])) true) }
    ensures count { OnOk result (length edges.new.marks.items ≡ length edges.old.marks.items + 1) }
{
    let (block, places) = read_parts(alloc, here, build, &mut edges.paths)?;
    let read = PathTexts::new(&edges.paths, places);
    let parts = Parts { block, read };
    let environment = environment_with(&parts, &*rule, file);
    let variables = variables_of_phony(alloc, &environment, &mut edges.spare)?;
    let marks = marks_or_refusal(pools, &parts, places, &variables, true, &mut edges.texts);
    keep_room(variables, &mut edges.spare);
    edges.marks.push(marks?)?;
    Ok(())
}

/// Adds the edge of a phony build line, with the same meaning of names as `push_edge`.
pub fn push_phony_edge<'a>(
    alloc: Global,
    pools: &PoolNames<'a>,
    here: Scope<'a>,
    file: Scope<'a>,
    build: &BuildLine<'a>,
    edges: &mut EdgeRows,
) -> Result<(), StatementFault>
    ensures edge { (names : List Name) (h f : Name → Text) → EqNames pools.now names → KeptEqLookup (names_in here.entry) h → KeptEqLookup (names_in file.entry) f → AreWithin edges.old → GivesEdge edges.old edges.new result (edge_or_refusal names h build.now (phony_variables (environment_of h f build.now [])) true) }
    ensures count { OnOk result (length edges.new.marks.items ≡ length edges.old.marks.items + 1) }
{
    let rule = RuleVariables::empty(alloc);
    push_edge_without_lines(alloc, &*pools, here, file, &rule, &*build, edges)
}
