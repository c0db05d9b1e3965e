//! Evaluates the variables of an edge, and the name of its pool.

ghost use Rattle.std.specs.Prelude.{◌≡◌, ◌||◌, [], IfOk, OnOk, None, false, is_none, true, ℕ, List, ◌∷◌, ◌++◌};
ghost use Rattle.std.specs.List.{list_any};
ghost use Rattle.plan_scope.specs.Scopes.{Text, is_too_long};
ghost use Rattle.plan_scope.specs.Expansion.{Known, listed, meaning_of, variable};
ghost use Rattle.plan_scope.specs.Edges.{is_other_deps, is_present, phony_variables, text_of_variable, texts_of_variables, variables_of, is_among, pools_in, pools_of};
ghost use Rattle.plan_scope.specs.Kept.{kept, KeptEqVariables, EqNames};
ghost use Rattle.plan_scope.specs.HeldEnvironment.{environment_of};
ghost use Rattle.plan_scope.specs.Compiled.{AreCompiled, IsCompiledRule, LeavesRule, text_of_parts};
ghost use Rattle.plan_scope.specs.Memo.{IsMemo};
ghost use Rattle.plan_scope.specs.ShellQuoting.{quoted_as};
ghost use Rattle.plan_parse.specs.Compact.{kind_of};

use crate::edge::compiled::{CompiledRule, RuleParts, VariablePart, text_of_parts};
use crate::edge::expansion::{EdgeEnvironment, MemoEntry, append_whole};
use crate::edge::text_list::TextPool;
use crate::fault::StatementFault;
use crate::scope::scoped_map::SmallMap;
use crate::scope::text::Quoting::{Plain, Shell};
use crate::scope::text::{Quoting, is_long};
use crate::tree::{Said, Tree, TreeStatement};
use plan_parse::DirectiveKind;
use plan_text::Items;
use std::alloc::{AllocError, Global};
use std::marker::Model;

/// The texts of the variables that an edge looks up.
#[derive(Drop)]
pub struct Variables {
    /// The command line.
    pub command: Items<u8>,
    /// The path of its depfile.
    pub depfile: Items<u8>,
    /// How its depfile is handled.
    pub deps: Items<u8>,
    /// The text that is shown instead of the command.
    pub description: Items<u8>,
    /// The path of a file with more outputs and inputs.
    pub dyndep: Items<u8>,
    /// Not empty if the edge builds the manifest's own files.
    pub generator: Items<u8>,
    /// The name of its pool.
    pub pool: Items<u8>,
    /// Not empty if outputs that the command leaves unchanged count as built.
    pub restat: Items<u8>,
    /// The path of a response file.
    pub rspfile: Items<u8>,
    /// Whether the expansion of a variable meets a name that is being expanded already, so that the variable has no
    /// text.
    pub has_cycle: bool,
}

/// The findings from the variables of an edge that have the same quoting.
#[derive(Drop)]
struct Findings<'a> {
    /// The variables of its rule whose texts were found.
    memo: Vec<MemoEntry<'a>>,
    /// Whether the expansion of a variable meets a name that is being expanded already.
    has_cycle: bool,
    /// Whether memory was sufficient for each of the texts. If not, the findings say nothing.
    has_memory: bool,
}

/// Checks, without a lookup in the file, whether nothing binds a name. `false` means that something may bind it.
fn is_unbound<'a>(edge: &EdgeEnvironment<'a>, name: &[u8]) -> bool
    ensures { result ≡ true → (quoting : Text → Text) → listed quoting (environment_of edge.now) name.now ≡ None → meaning_of quoting (environment_of edge.now) name.now ≡ Known [] }
{
    if edge.file.bound.may_have(name) {
        return false;
    }
    match edge.rule.get(name) {
        Some(_) => return false,
        None => {}
    }
    match edge.block.get(name) {
        Some(_) => false,
        None => true,
    }
}

/// Creates findings for no variable.
fn no_findings<'a>(alloc: Global) -> Findings<'a>
    ensures memo { result.memo.items ≡ [] }
    ensures cycle { result.has_cycle ≡ false }
{
    Findings {
        memo: Vec::new(alloc),
        has_cycle: false,
        has_memory: true,
    }
}

/// Expands a variable of an edge. If the expansion meets a name that is being expanded already, returns an empty text
/// and sets `has_cycle` in the findings. If memory runs out, returns an empty text and clears `has_memory`.
fn variable<'a>(
    alloc: Global,
    edge: &'a EdgeEnvironment<'a>,
    quoting: Quoting,
    found: &mut Findings<'a>,
    name: &'a [u8],
    spare: &mut TextPool,
) -> Items<u8>
    requires unlisted { listed (quoted_as quoting) (environment_of edge.now) name.now ≡ None }
    requires memo { IsMemo (meaning_of (quoted_as quoting) (environment_of edge.now)) found.old.memo.items }
    ensures memo { IsMemo (meaning_of (quoted_as quoting) (environment_of edge.now)) found.new.memo.items }
    ensures memory { found.new.has_memory ≡ true → found.old.has_memory ≡ true }
    ensures text { found.new.has_memory ≡ true → kept result ≡ kept (text_of_variable (quoted_as quoting) (environment_of edge.now) name.now) }
    ensures cycle { found.new.has_memory ≡ true → found.new.has_cycle ≡ (found.old.has_cycle || is_none (variable (quoted_as quoting) (environment_of edge.now) name.now)) }
{
    if is_unbound(edge, name) {
        return Items::empty(alloc);
    }
    let mut text = spare.take(alloc);
    match append_whole(alloc, edge, quoting, &mut found.memo, name, &mut text) {
        Ok(()) => Items::new(text),
        Err(StatementFault::Refused(_)) => {
            found.has_cycle = true;
            Items::empty(alloc)
        }
        Err(StatementFault::Memory) => {
            found.has_memory = false;
            Items::empty(alloc)
        }
    }
}

/// Returns variables if memory was sufficient for all of their texts.
fn checked(variables: Variables, has_memory: bool) -> Result<Variables, AllocError>
    ensures { IfOk result (λ v. (v ≡ variables) × (has_memory ≡ true)) }
{
    if has_memory {
        return Ok(variables);
    }
    Err(AllocError)
}

/// Expands the variables of an edge with a rule. Paths in its command and its description are quoted.
fn expanded_variables<'a>(
    alloc: Global,
    edge: &'a EdgeEnvironment<'a>,
    spare: &mut TextPool,
) -> Result<Variables, AllocError>
    ensures { IfOk result (λ v. KeptEqVariables v (variables_of (environment_of edge.now))) }
{
    let mut plain = no_findings(alloc);
    let mut quoted = no_findings(alloc);
    let variables = Variables {
        command: variable(alloc, edge, Shell, &mut quoted, b"command", spare),
        depfile: variable(alloc, edge, Plain, &mut plain, b"depfile", spare),
        deps: variable(alloc, edge, Plain, &mut plain, b"deps", spare),
        description: variable(alloc, edge, Shell, &mut quoted, b"description", spare),
        dyndep: variable(alloc, edge, Plain, &mut plain, b"dyndep", spare),
        generator: variable(alloc, edge, Plain, &mut plain, b"generator", spare),
        pool: variable(alloc, edge, Plain, &mut plain, b"pool", spare),
        restat: variable(alloc, edge, Plain, &mut plain, b"restat", spare),
        rspfile: variable(alloc, edge, Plain, &mut plain, b"rspfile", spare),
        has_cycle: quoted.has_cycle | plain.has_cycle,
    };
    checked(variables, quoted.has_memory & plain.has_memory)
}

/// Returns the text of parts in an edge. If memory runs out, returns an empty text and clears `has_memory`.
fn text_or_empty<'a>(
    alloc: Global,
    edge: &EdgeEnvironment<'a>,
    quoting: Quoting,
    parts: &[VariablePart],
    spare: &mut TextPool,
    has_memory: &mut bool,
) -> Items<u8>
    ensures { has_memory.new ≡ true → (has_memory.old ≡ true) × (kept result ≡ kept (text_of_parts (quoted_as quoting) (environment_of edge.now) parts.now)) }
{
    match text_of_parts(alloc, edge, quoting, parts, spare) {
        Ok(text) => text,
        Err(_) => {
            *has_memory = false;
            Items::empty(alloc)
        }
    }
}

/// Returns the same variables as `expanded_variables`, from the compiled parts of the rule.
fn compiled_variables<'a>(
    alloc: Global,
    edge: &EdgeEnvironment<'a>,
    parts: &RuleParts,
    spare: &mut TextPool,
) -> Result<Variables, AllocError>
    requires compiled { AreCompiled (environment_of edge.now).rule (environment_of edge.now).file parts.now }
    requires left { LeavesRule (environment_of edge.now).rule (environment_of edge.now).block }
    ensures { IfOk result (λ v. KeptEqVariables v (variables_of (environment_of edge.now))) }
{
    let mut enough = true;
    let variables = Variables {
        command: text_or_empty(alloc, edge, Shell, &parts.command, spare, &mut enough),
        depfile: text_or_empty(alloc, edge, Plain, &parts.depfile, spare, &mut enough),
        deps: text_or_empty(alloc, edge, Plain, &parts.deps, spare, &mut enough),
        description: text_or_empty(alloc, edge, Shell, &parts.description, spare, &mut enough),
        dyndep: text_or_empty(alloc, edge, Plain, &parts.dyndep, spare, &mut enough),
        generator: text_or_empty(alloc, edge, Plain, &parts.generator, spare, &mut enough),
        pool: text_or_empty(alloc, edge, Plain, &parts.pool, spare, &mut enough),
        restat: text_or_empty(alloc, edge, Plain, &parts.restat, spare, &mut enough),
        rspfile: text_or_empty(alloc, edge, Plain, &parts.rspfile, spare, &mut enough),
        has_cycle: false,
    };
    checked(variables, enough)
}

/// Returns the variables of an edge with a rule. Uses the compiled parts of the rule if there are any and the edge's
/// block binds none of the rule's variables.
pub fn variables_of_rule<'a>(
    alloc: Global,
    edge: &'a EdgeEnvironment<'a>,
    compiled: &CompiledRule,
    spare: &mut TextPool,
) -> Result<Variables, AllocError>
    requires { IsCompiledRule (environment_of edge.now).rule (environment_of edge.now).file compiled.now }
    ensures { IfOk result (λ v. KeptEqVariables v (variables_of (environment_of edge.now))) }
{
    match compiled {
        CompiledRule::Whole(parts) if edge.rule.are_left_by(edge.block) => {
            compiled_variables(alloc, edge, parts, spare)
        }
        _ => expanded_variables(alloc, edge, spare),
    }
}

/// Returns the variables of a phony edge, which looks up only `dyndep`.
pub fn variables_of_phony<'a>(
    alloc: Global,
    edge: &'a EdgeEnvironment<'a>,
    spare: &mut TextPool,
) -> Result<Variables, AllocError>
    ensures { IfOk result (λ v. KeptEqVariables v (phony_variables (environment_of edge.now))) }
{
    let mut plain = no_findings(alloc);
    let variables = Variables {
        command: Items::empty(alloc),
        depfile: Items::empty(alloc),
        deps: Items::empty(alloc),
        description: Items::empty(alloc),
        dyndep: variable(alloc, edge, Plain, &mut plain, b"dyndep", spare),
        generator: Items::empty(alloc),
        pool: Items::empty(alloc),
        restat: Items::empty(alloc),
        rspfile: Items::empty(alloc),
        has_cycle: plain.has_cycle,
    };
    checked(variables, plain.has_memory)
}

/// Checks whether the text of a variable isn't empty.
pub fn is_present(text: &[u8]) -> bool
    ensures { result ≡ is_present text.now }
{
    !text.is_empty()
}

/// Checks whether a `deps` is neither empty nor `gcc`.
pub fn is_other_deps(text: &[u8]) -> bool
    ensures { result ≡ is_other_deps text.now }
{
    !text.is_empty() & (text != b"gcc".as_slice())
}

/// Checks whether one of these texts is too long.
fn any_is_long(texts: &[&Items<u8>]) -> bool
    ensures { result ≡ list_any (λ text. is_too_long text.now) texts.now }
{
    texts.iter().any(|text| is_long(text.as_slice()))
}

/// Checks whether the text of a variable is too long.
pub fn has_long_text(variables: &Variables) -> bool
    ensures { result ≡ list_any is_too_long (texts_of_variables variables.now) }
{
    any_is_long(&[
        &variables.command,
        &variables.depfile,
        &variables.deps,
        &variables.description,
        &variables.dyndep,
        &variables.generator,
        &variables.pool,
        &variables.restat,
        &variables.rspfile,
    ])
}

/// Keeps the buffers of the texts of variables that are no longer needed.
pub fn keep_room(variables: Variables, spare: &mut TextPool) {
    spare.keep(variables.command);
    spare.keep(variables.depfile);
    spare.keep(variables.deps);
    spare.keep(variables.description);
    spare.keep(variables.dyndep);
    spare.keep(variables.generator);
    spare.keep(variables.pool);
    spare.keep(variables.restat);
    spare.keep(variables.rspfile);
}

/// The name of the pool that exists without a declaration.
pub const CONSOLE: &[u8] = b"console";

/// A set of names of pools.
#[derive(Drop)]
pub struct PoolNames<'a> {
    names: SmallMap<'a, ()>,
}

impl<'a> Model for PoolNames<'a> {
    ghost use Rattle.std.specs.Prelude.{List, map};
    ghost use Rattle.plan_scope.specs.Scopes.{Name};

    ghost Value = { List Name };

    ghost view = { λ p. map (λ b. b.0) p.names };
}

impl<'a> PoolNames<'a> {
    /// Creates an empty set.
    pub fn new(alloc: Global) -> Self
        ensures { result ≡ [] }
    {
        PoolNames {
            names: SmallMap::new(alloc),
        }
    }

    /// Checks whether a name is in the set.
    pub fn contains(&self, name: &[u8]) -> bool
        ensures { result ≡ is_among self.now name.now }
    {
        self.names.get(name).is_some()
    }

    /// Inserts a name.
    pub fn insert(&mut self, name: &'a [u8]) -> Result<(), AllocError>
        ensures names { OnOk result ((n : List ℕ) → is_among self.new n ≡ is_among (self.old ++ name.now ∷ []) n) }
    {
        self.names.set(name, ())
    }

    /// Collects the names of the pools of a tree, including `console`.
    pub fn of_tree(alloc: Global, tree: &'a Tree) -> Result<Self, AllocError>
        ensures { IfOk result (λ names. EqNames names (pools_of tree.now)) }
    {
        let mut names = PoolNames::new(alloc);
        names.insert(CONSOLE)?;
        for statement in tree.statements() {
            insert_from_statement(&mut names, &statement)?;
        }
        Ok(names)
    }
}

/// Inserts the name of the pool that a directive declares, if it declares one.
fn insert_declared<'a>(names: &mut PoolNames<'a>, kind: &'a DirectiveKind) -> Result<(), AllocError>
    ensures { OnOk result ((n : List ℕ) → is_among names.new n ≡ is_among (names.old ++ pools_in (kind_of kind.now)) n) }
{
    match kind {
        DirectiveKind::Pool(declared) => names.insert(declared.name.as_slice()),
        _ => Ok(()),
    }
}

/// Inserts the name of the pool that a statement declares, if it declares one.
fn insert_from_statement<'a>(
    names: &mut PoolNames<'a>,
    statement: &TreeStatement<'a>,
) -> Result<(), AllocError>
    ensures { OnOk result ((n : List ℕ) → is_among names.new n ≡ is_among (names.old ++ pools_in statement.now.kind) n) }
{
    match statement.said() {
        Said::Directive(kind) => insert_declared(names, kind),
        Said::Build(_) => Ok(()),
        Said::Binding(_) => Ok(()),
    }
}
