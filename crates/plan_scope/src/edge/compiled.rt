//! Rules that are compiled for a file: the parts of their variables that are known before an edge is read.

ghost use Rattle.std.specs.Prelude.{◌≡◌, ◌++◌, IfOk, OnOk, unwrap_or, ◌<◌, ◌≤◌, ◌-◌, ◌∷◌, [], option_map, true, length};
ghost use Rattle.plan_scope.specs.Scopes.{last_of, Text};
ghost use Rattle.plan_scope.specs.Compiled.{text_of_part, text_of_parts, AddsParts, IsCompiled, IsCompiledRule, LeavesRule};
ghost use Rattle.plan_scope.specs.HeldEnvironment.{environment_of};
ghost use Rattle.plan_scope.specs.Kept.{kept};
ghost use Rattle.plan_scope.specs.ShellQuoting.{quoted_as};
ghost use Rattle.plan_scope.specs.Expansion;
ghost use Rattle.plan_scope.specs.Expansion.{joined, listed, text_of_piece};
ghost use Rattle.plan_scope.specs.Memo.{text_by};
ghost use Rattle.plan_scope.specs.ScopeNames.{names_in};
ghost use Rattle.plan_scope.specs.Edges.{late};

use crate::edge::expansion::EdgeEnvironment;
use crate::edge::text_list::TextPool;
use crate::scope::cow_text::CowText;
use crate::scope::scoped_map::{MARKS, SmallMap, mark};
use crate::scope::text::{Quoting, append, append_paths};
use crate::scope::{Scope, name_text};
use plan_parse::Binding;
use plan_text::{Items, Piece};
use std::alloc::{AllocError, Global};
use std::marker::Model;

/// A part of a variable of a rule, as far as it is known in a file.
#[derive(Clone, Copy)]
pub enum VariablePart<'a> {
    /// A text.
    Literal(&'a [u8]),
    /// The explicit inputs, separated by spaces.
    Inputs,
    /// The explicit inputs, separated by newlines.
    InputsByLine,
    /// The explicit outputs, separated by spaces.
    Outputs,
    /// The text that the edge's block binds to the name (first), or else this text (second).
    Near(&'a [u8], &'a [u8]),
}

/// The parts of the variables that an edge with a rule looks up.
#[derive(Drop)]
pub struct RuleParts<'a> {
    /// The command line.
    pub command: Vec<VariablePart<'a>>,
    /// The path of its depfile.
    pub depfile: Vec<VariablePart<'a>>,
    /// How its depfile is handled.
    pub deps: Vec<VariablePart<'a>>,
    /// The text that is shown instead of the command.
    pub description: Vec<VariablePart<'a>>,
    /// The path of a file with more outputs and inputs.
    pub dyndep: Vec<VariablePart<'a>>,
    /// Not empty if the edge builds the manifest's own files.
    pub generator: Vec<VariablePart<'a>>,
    /// The name of its pool.
    pub pool: Vec<VariablePart<'a>>,
    /// Not empty if outputs that the command leaves unchanged count as built.
    pub restat: Vec<VariablePart<'a>>,
    /// The path of a response file.
    pub rspfile: Vec<VariablePart<'a>>,
}

/// A rule as far as it is compiled for a file.
#[derive(Drop)]
pub enum CompiledRule<'a> {
    /// Only one build line used the rule so far, and the rule wasn't compiled for it.
    Met,
    /// The parts of its variables, for the edges whose blocks bind no variable of the rule.
    Whole(RuleParts<'a>),
    /// The rule isn't compiled: a variable has a cycle, too many parts, or too many nested variables, or memory ran
    /// out.
    Unknown,
}

/// Returns the text that a block binds to a name, or else `text`.
fn near_text<'b, 'a>(block: &'b SmallMap<'a, CowText<'a>>, name: &[u8], text: &'b [u8]) -> &'b [u8]
    ensures { result.now ≡ unwrap_or (last_of name.now block.now) text.now }
{
    match block.get(name) {
        Some(bound) => bound.as_slice(),
        None => text,
    }
}

/// Appends the text of a part in an edge.
fn append_part<'a>(
    out: &mut Vec<u8>,
    edge: &EdgeEnvironment<'a>,
    quoting: Quoting,
    part: VariablePart,
) -> Result<(), AllocError>
    ensures { OnOk result (kept out.new.items ≡ kept (out.old.items ++ text_of_part (quoted_as quoting) (environment_of edge.now) part.entry)) }
{
    match part {
        VariablePart::Literal(text) => append(out, text),
        VariablePart::Inputs => append_paths(out, quoting, &edge.paths.inputs(), b' '),
        VariablePart::InputsByLine => append_paths(out, quoting, &edge.paths.inputs(), b'\n'),
        VariablePart::Outputs => append_paths(out, quoting, &edge.paths.outputs(), b' '),
        VariablePart::Near(name, text) => append(out, near_text(edge.block, name, text)),
    }
}

/// Copies a text into a buffer of the pool. Of a text that is too long, copies only one byte more than is allowed.
fn spare_copy(alloc: Global, text: &[u8], spare: &mut TextPool) -> Result<Items<u8>, AllocError>
    ensures { IfOk result (λ copy. kept copy ≡ kept text.now) }
{
    match text {
        [] => Ok(Items::empty(alloc)),
        _ => {
            let mut copy = spare.take(alloc);
            append(&mut copy, text)?;
            Ok(Items::new(copy))
        }
    }
}

/// Joins the texts of parts in an edge.
fn joined_parts<'a>(
    alloc: Global,
    edge: &EdgeEnvironment<'a>,
    quoting: Quoting,
    parts: &[VariablePart],
    spare: &mut TextPool,
) -> Result<Items<u8>, AllocError>
    ensures { IfOk result (λ text. kept text ≡ kept (text_of_parts (quoted_as quoting) (environment_of edge.now) parts.now)) }
{
    let mut text = spare.take(alloc);
    for part in parts {
        append_part(&mut text, edge, quoting, *part)?;
    }
    Ok(Items::new(text))
}

/// Returns the text of parts in an edge. Most variables have no part, or only one name.
pub fn text_of_parts<'a>(
    alloc: Global,
    edge: &EdgeEnvironment<'a>,
    quoting: Quoting,
    parts: &[VariablePart],
    spare: &mut TextPool,
) -> Result<Items<u8>, AllocError>
    ensures { IfOk result (λ text. kept text ≡ kept (text_of_parts (quoted_as quoting) (environment_of edge.now) parts.now)) }
{
    match parts {
        [] => Ok(Items::empty(alloc)),
        [VariablePart::Near(name, text)] => {
            spare_copy(alloc, near_text(edge.block, name, text), spare)
        }
        _ => joined_parts(alloc, edge, quoting, parts, spare),
    }
}

/// The greatest number of parts in a variable. A variable with more isn't compiled.
const MOST_PARTS: usize = 200;

/// The greatest number of nested variables of the rule in a variable that is compiled. Each of its parts is reached in
/// at most this many steps.
const DEEPEST: usize = 4;

/// Returns the greatest depth of a variable in a rule with this number of lines.
fn depth_limit(lines: usize) -> usize
    ensures { result ≤ lines }
{
    if lines < DEEPEST { lines } else { DEEPEST }
}

/// Returns the part for a name that denotes paths, or `None` for other names.
fn listed_part<'a>(name: &'a [u8]) -> Option<VariablePart<'a>>
    ensures { (show : Text → Text) (edge : Expansion.EdgeEnvironment) → option_map (text_of_part show edge) result ≡ listed show edge name.now }
{
    if name == b"in".as_slice() {
        return Some(VariablePart::Inputs);
    }
    if name == b"out".as_slice() {
        return Some(VariablePart::Outputs);
    }
    if name == b"in_newline".as_slice() {
        return Some(VariablePart::InputsByLine);
    }
    None
}

/// Adds a part and returns `true`.
fn add_part<'a>(
    parts: &mut Vec<VariablePart<'a>>,
    part: VariablePart<'a>,
) -> Result<bool, AllocError>
    ensures { OnOk result (parts.new.items ≡ parts.old.items ++ part.entry ∷ []) }
{
    parts.push(part)?;
    Ok(true)
}

/// Adds the parts of a variable. Returns `false` if parts are missing because more than `left` variables of the rule
/// are nested in it or it has too many parts.
#[cycle(compiling)]
fn add_variable<'a>(
    rule: &RuleVariables<'a>,
    file: Scope<'a>,
    left: usize,
    name: &'a [u8],
    parts: &mut Vec<VariablePart<'a>>,
) -> Result<bool, AllocError>
    ensures { IfOk result (λ whole. whole ≡ true → AddsParts rule.now (names_in file.entry) parts.old.items parts.new.items (λ meaning. text_by left meaning name.now)) }
{
    match listed_part(name) {
        Some(part) => return add_part(parts, part),
        None => {}
    }
    match rule.get(name) {
        Some(pieces) => add_late(rule, file, left, pieces, parts),
        None => add_part(parts, VariablePart::Near(name, name_text(file, name))),
    }
}

/// Adds the parts of a variable that the rule binds to these pieces. A variable without pieces gets an empty part, so
/// that the number of parts limits the number of variables that are visited. Returns whether no part is missing.
#[cycle(compiling)]
fn add_late<'a>(
    rule: &RuleVariables<'a>,
    file: Scope<'a>,
    left: usize,
    pieces: &'a [Piece],
    parts: &mut Vec<VariablePart<'a>>,
) -> Result<bool, AllocError>
    ensures { IfOk result (λ whole. whole ≡ true → (0 < left) × AddsParts rule.now (names_in file.entry) parts.old.items parts.new.items (λ meaning. joined (text_by (left - 1) meaning) pieces.now)) }
{
    if left == 0 {
        return Ok(false);
    }
    match pieces {
        [] => add_part(parts, VariablePart::Literal(&[])),
        _ => add_pieces(rule, file, left - 1, pieces, parts),
    }
}

/// Adds the parts of a piece of a variable of the rule. Returns whether no part is missing.
#[cycle(compiling)]
fn add_piece<'a>(
    rule: &RuleVariables<'a>,
    file: Scope<'a>,
    left: usize,
    piece: &'a Piece,
    parts: &mut Vec<VariablePart<'a>>,
) -> Result<bool, AllocError>
    ensures { IfOk result (λ whole. whole ≡ true → AddsParts rule.now (names_in file.entry) parts.old.items parts.new.items (λ meaning. text_of_piece (text_by left meaning) piece.now)) }
{
    match piece {
        Piece::Literal(bytes) => add_part(parts, VariablePart::Literal(bytes.as_slice())),
        Piece::Reference(name) => add_variable(rule, file, left, name.as_slice(), parts),
    }
}

/// Adds the parts of the pieces of a variable of the rule. Returns whether no part is missing.
#[cycle(compiling)]
fn add_pieces<'a>(
    rule: &RuleVariables<'a>,
    file: Scope<'a>,
    left: usize,
    pieces: &'a [Piece],
    parts: &mut Vec<VariablePart<'a>>,
) -> Result<bool, AllocError>
    ensures { IfOk result (λ whole. whole ≡ true → AddsParts rule.now (names_in file.entry) parts.old.items parts.new.items (λ meaning. joined (text_by left meaning) pieces.now)) }
{
    for piece in pieces {
        if parts.len() >= MOST_PARTS {
            return Ok(false);
        }
        if !add_piece(rule, file, left, piece, parts)? {
            return Ok(false);
        }
    }
    Ok(true)
}

/// Compiles a variable of a rule for a file. Sets `is_whole` to `false` if parts are missing, also because memory runs
/// out.
fn compile_variable<'a>(
    alloc: Global,
    rule: &RuleVariables<'a>,
    file: Scope<'a>,
    name: &'a [u8],
    is_whole: &mut bool,
) -> Vec<VariablePart<'a>>
    ensures { is_whole.new ≡ true → (is_whole.old ≡ true) × IsCompiled rule.now (names_in file.entry) name.now result.items }
{
    let mut parts = Vec::new(alloc);
    let left = depth_limit(rule.len());
    match add_variable(rule, file, left, name, &mut parts) {
        Ok(is_all) => *is_whole = *is_whole & is_all,
        Err(_) => *is_whole = false,
    }
    parts
}

/// Compiles a rule for a file. Returns `Unknown` if parts of a variable are missing.
pub fn compile_rule<'a>(
    alloc: Global,
    rule: &RuleVariables<'a>,
    file: Scope<'a>,
) -> CompiledRule<'a>
    ensures { IsCompiledRule rule.now (names_in file.entry) result }
{
    let mut is_whole = true;
    let parts = RuleParts {
        command: compile_variable(alloc, rule, file, b"command", &mut is_whole),
        depfile: compile_variable(alloc, rule, file, b"depfile", &mut is_whole),
        deps: compile_variable(alloc, rule, file, b"deps", &mut is_whole),
        description: compile_variable(alloc, rule, file, b"description", &mut is_whole),
        dyndep: compile_variable(alloc, rule, file, b"dyndep", &mut is_whole),
        generator: compile_variable(alloc, rule, file, b"generator", &mut is_whole),
        pool: compile_variable(alloc, rule, file, b"pool", &mut is_whole),
        restat: compile_variable(alloc, rule, file, b"restat", &mut is_whole),
        rspfile: compile_variable(alloc, rule, file, b"rspfile", &mut is_whole),
    };
    if is_whole {
        return CompiledRule::Whole(parts);
    }
    CompiledRule::Unknown
}

/// The variables of a rule, not expanded yet.
#[derive(Drop)]
pub struct RuleVariables<'a> {
    bindings: &'a [Binding],
    last: SmallMap<'a, &'a [Piece]>,
    /// Whether a line binds a name with this mark.
    marked: [bool; MARKS],
}

impl<'a> Model for RuleVariables<'a> {
    ghost use Rattle.std.specs.Prelude.{◌≡◌, List, option_map};
    ghost use Rattle.plan_text.specs.declared.piece_reader.Piece.{Piece};
    ghost use Rattle.plan_scope.specs.Scopes.{Bindings, Name, last_of};
    ghost use Rattle.plan_scope.specs.Edges.{late};
    ghost use Rattle.plan_scope.specs.Keys.{AreMarked};

    ghost Value = { Bindings (List Piece) };

    ghost view = { λ r. late r.bindings.now };

    ghost invariant = { λ r. ((n : Name) → option_map (λ p. p.now) (last_of n r.last) ≡ last_of n (late r.bindings.now)) × AreMarked r.marked (late r.bindings.now) };
}

impl<'a> RuleVariables<'a> {
    /// Collects the variables that these lines bind.
    pub fn new(alloc: Global, bindings: &'a [Binding]) -> Result<Self, AllocError>
        ensures { IfOk result (λ r. r ≡ late bindings.now) }
    {
        let mut last = SmallMap::new(alloc);
        let mut marked = [false; MARKS];
        for binding in bindings {
            last.set(binding.name.as_slice(), binding.value.as_slice())?;
            marked[mark(binding.name.as_slice())] = true;
        }
        Ok(RuleVariables {
            bindings,
            last,
            marked,
        })
    }

    /// Creates the variables of a rule without lines.
    pub fn empty(alloc: Global) -> Self
        ensures { result ≡ [] }
    {
        RuleVariables {
            bindings: &[],
            last: SmallMap::new(alloc),
            marked: [false; MARKS],
        }
    }

    /// Returns the number of lines that bind a variable.
    pub fn len(&self) -> usize
        ensures { result ≡ length self.now }
    {
        self.bindings.len()
    }

    /// Returns the pieces of a variable, or `None` if no line binds it.
    #[inline(always)]
    pub fn get(&self, name: &[u8]) -> Option<&'a [Piece]>
        ensures { option_map (λ p. p.now) result ≡ last_of name.now self.now }
    {
        if !self.marked[mark(name)] {
            return None;
        }
        match self.last.get(name) {
            Some(pieces) => Some(*pieces),
            None => None,
        }
    }

    /// Checks whether a block binds none of the variables.
    pub fn are_left_by<'b>(&self, block: &SmallMap<'b, CowText<'b>>) -> bool
        ensures { result ≡ true → LeavesRule self.now block.now }
    {
        for binding in self.bindings {
            match block.get(binding.name.as_slice()) {
                Some(_) => return false,
                None => {}
            }
        }
        true
    }
}
