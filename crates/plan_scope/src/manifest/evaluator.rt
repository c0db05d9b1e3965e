//! Evaluates the statements of a tree.

ghost use Rattle.std.specs.Prelude.{◌≡◌, ◌≢◌, ◌≤◌, ◌+◌, ℕ, List, [], ◌∷◌, ◌++◌, length, OnOk, IfOk, Some, false};
ghost use Rattle.plan_text.specs.Outcome.{Meets};
ghost use Rattle.plan_parse.specs.Compact.{kind_of};
ghost use Rattle.plan_parse.specs.declared.statement.Binding.{Binding};
ghost use Rattle.plan_parse.specs.Kinds as kinds;
ghost use Rattle.plan_scope.specs.Trees.{TreeStatement as StatementMeant};
ghost use Rattle.plan_text.specs.declared.piece_reader.Piece.{Piece};
ghost use Rattle.plan_scope.specs.Scopes.{Bindings, Name, ScopedBindings, Text, expand, lookup, nearest};
ghost use Rattle.plan_scope.specs.Edges.{edge_of_build, edge_or_refusal, environment_of, variables_of, builds_in, builds_of, console, defaults_alone, edge_alone, manifest_of_kind, manifest_past, is_among, manifest_of, map_ok, paths_of, pool_alone, pool_by, targets_by, with_front};
ghost use Rattle.plan_scope.specs.Kept.{EqNames, KeptEqLookup};
ghost use Rattle.plan_scope.specs.ScopeNames.{names_in};
ghost use Rattle.plan_scope.specs.EdgeRows.{AreWithin};
ghost use Rattle.plan_scope.specs.EdgeAnswers.{GivesEdge};
ghost use Rattle.plan_scope.specs.Evaluation.{Fits, GivesMore, IsLocated, Knows, manifest_in};
ghost use Rattle.plan_scope.specs.Found.{AreFound};

use crate::edge::build_line::{push_edge, push_phony_edge};
use crate::edge::compiled::{CompiledRule, RuleVariables, compile_rule};
use crate::edge::edge_list::{EdgeList, EdgeRows};
use crate::edge::variables::{CONSOLE, PoolNames};
use crate::fault::{Cause, ScopeFault, StatementFault};
use crate::manifest::defaults::targets;
use crate::manifest::pools::pool;
use crate::manifest::rules::{FoundRule, declare, find_rule, is_phony, keep_rule, replace_rule};
use crate::manifest::{DefaultTarget, Manifest, Pool};
use crate::scope::Scope;
use crate::scope::scoped_map::ScopedMap;
use crate::scope::text::copy_of;
use crate::tree::loaded::bind_statement;
use crate::tree::{Said, Tree, TreeStatement};
use plan_parse::{BuildLine, DirectiveKind};
use plan_text::{Items, PieceList};
use std::alloc::{AllocError, Global};

/// Facts of the whole tree. An edge may refer to pools below it, and its rule's variables to bindings below it.
#[derive(Drop)]
pub struct TreeFacts<'a> {
    /// The bindings of all scopes.
    pub bound: &'a ScopedMap<Items<u8>>,
    /// The names of all pools.
    pub pool_names: PoolNames<'a>,
}

/// The results of the statements so far.
#[derive(Drop)]
pub struct Evaluation<'a> {
    /// The bindings of all scopes.
    pub bound: ScopedMap<Items<u8>>,
    /// The rules in all scopes.
    pub rules: ScopedMap<RuleVariables<'a>>,
    /// The names of the pools.
    pub pool_names: PoolNames<'a>,
    /// The edges.
    pub edges: EdgeRows,
    /// The pools.
    pub pools: Vec<Pool>,
    /// The targets of `default` statements.
    pub defaults: Vec<DefaultTarget>,
}

/// Collects the facts of the whole tree.
fn facts_of_tree<'a>(alloc: Global, tree: &'a Tree) -> Result<TreeFacts<'a>, AllocError>
    ensures { IfOk result (λ facts. Knows facts tree.now) }
{
    Ok(TreeFacts {
        bound: tree.bound(),
        pool_names: PoolNames::of_tree(alloc, tree)?,
    })
}

/// Returns the number of edges that a statement adds unless it is refused.
fn edge_count_of_statement(statement: &TreeStatement<'_>) -> usize
    ensures edges { result ≡ length (builds_in statement.now.kind) }
    ensures within { result ≤ 1 }
{
    match statement.said() {
        Said::Build(_) => 1,
        Said::Directive(_) => 0,
        Said::Binding(_) => 0,
    }
}

/// Returns the number of edges that the statements of a tree add unless one is refused.
fn edge_count(tree: &Tree) -> Result<usize, AllocError>
    ensures { IfOk result (λ edges. edges ≡ length (builds_of tree.now)) }
{
    let mut edges = 0_usize;
    for statement in tree.statements() {
        edges = match edges.checked_add(edge_count_of_statement(&statement)) {
            Some(edges) => edges,
            None => return Err(AllocError),
        };
    }
    Ok(edges)
}

/// Creates the results before the first statement: the pool `console`, with capacity for `edges` edges.
fn initial_evaluation<'a>(alloc: Global, edges: usize) -> Result<Evaluation<'a>, AllocError>
    ensures { IfOk result (λ e. Fits e [] × (manifest_in e ≡ pool_alone console)) }
{
    let mut pool_names = PoolNames::new(alloc);
    pool_names.insert(CONSOLE)?;
    let mut pools = Vec::new(alloc);
    pools.push(Pool {
        name: copy_of(alloc, CONSOLE)?,
        depth: 1,
    })?;
    let edges = EdgeRows::new(alloc, edges)?;
    Ok(Evaluation {
        bound: ScopedMap::new(alloc),
        rules: ScopedMap::new(alloc),
        pool_names,
        edges,
        pools,
        defaults: Vec::new(alloc),
    })
}

/// Adds the edge of a build line whose rule isn't kept yet. Keeps the rule in `found`, not compiled.
fn add_edge_of_new_rule<'b, 'a>(
    alloc: Global,
    pools: &PoolNames<'b>,
    found: &mut Vec<FoundRule<'a>>,
    here: Scope<'b>,
    file: Scope<'a>,
    rule: &'b RuleVariables<'a>,
    build: &BuildLine<'a>,
    edges: &mut EdgeRows,
) -> Result<(), StatementFault>
    ensures edge { (names : List Name) (h f : Name → Text) → EqNames pools.now names → KeptEqLookup (names_in here.entry) h → KeptEqLookup (names_in file.entry) f → AreWithin edges.old → GivesEdge edges.old edges.new result (edge_or_refusal names h build.now (variables_of (environment_of h f build.now rule.now)) false) }
    ensures count { OnOk result (length edges.new.marks.items ≡ length edges.old.marks.items + 1) }
    ensures found { OnOk result ((rules : ScopedBindings (Bindings (List Piece))) → nearest rules file.entry.scopes.now build.now.rule ≡ Some rule.now → AreFound rules file.entry.bound.now found.old.items → AreFound rules file.entry.bound.now found.new.items) }
{
    let compiled = CompiledRule::Met;
    let added = push_edge(
        alloc, &*pools, here, file, &*rule, &compiled, &*build, edges,
    );
    let found_rule = FoundRule {
        scopes: file.scopes,
        name: build.rule(),
        compiled,
    };
    keep_rule(found, found_rule)?;
    added
}

/// Adds the edge of a build line whose rule one build line used before. Compiles the rule and keeps it in `found`.
fn add_edge_of_met_rule<'b, 'a>(
    alloc: Global,
    pools: &PoolNames<'b>,
    found: &mut Vec<FoundRule<'a>>,
    here: Scope<'b>,
    file: Scope<'a>,
    rule: &'b RuleVariables<'a>,
    build: &BuildLine<'a>,
    edges: &mut EdgeRows,
) -> Result<(), StatementFault>
    ensures edge { (names : List Name) (h f : Name → Text) → EqNames pools.now names → KeptEqLookup (names_in here.entry) h → KeptEqLookup (names_in file.entry) f → AreWithin edges.old → GivesEdge edges.old edges.new result (edge_or_refusal names h build.now (variables_of (environment_of h f build.now rule.now)) false) }
    ensures count { OnOk result (length edges.new.marks.items ≡ length edges.old.marks.items + 1) }
    ensures found { OnOk result ((rules : ScopedBindings (Bindings (List Piece))) → nearest rules file.entry.scopes.now build.now.rule ≡ Some rule.now → AreFound rules file.entry.bound.now found.old.items → AreFound rules file.entry.bound.now found.new.items) }
{
    let compiled = compile_rule(alloc, &*rule, file);
    let added = push_edge(
        alloc, &*pools, here, file, &*rule, &compiled, &*build, edges,
    );
    let found_rule = FoundRule {
        scopes: file.scopes,
        name: build.rule(),
        compiled,
    };
    replace_rule(found, found_rule);
    added
}

/// Adds the edge of a build line. Refuses the line if its rule is unknown.
fn add_edge_of_build<'b, 'a>(
    alloc: Global,
    pools: &PoolNames<'b>,
    rules: &'b ScopedMap<RuleVariables<'a>>,
    found: &mut Vec<FoundRule<'a>>,
    here: Scope<'b>,
    file: Scope<'a>,
    build: &BuildLine<'a>,
    edges: &mut EdgeRows,
) -> Result<(), StatementFault>
    requires scopes { file.scopes.now ≡ here.scopes.now }
    requires found { AreFound rules.now file.bound.now found.old.items }
    ensures edge { (names : List Name) (h f : Name → Text) → EqNames pools.now names → KeptEqLookup (names_in here.entry) h → KeptEqLookup (names_in file.entry) f → AreWithin edges.old → GivesEdge edges.old edges.new result (edge_of_build names rules.now here.entry.scopes.now h f build.now) }
    ensures count { OnOk result (length edges.new.marks.items ≡ length edges.old.marks.items + 1) }
    ensures found { OnOk result (AreFound rules.now file.entry.bound.now found.new.items) }
{
    if is_phony(build.rule()) {
        return push_phony_edge(alloc, &*pools, here, file, &*build, edges);
    }
    let Some(rule) = rules.nearest(here.scopes, build.rule()) else {
        return Err(StatementFault::Refused(Cause::UnknownRule));
    };
    match find_rule(found, file.scopes, build.rule()) {
        Some(CompiledRule::Met) => {
            add_edge_of_met_rule(alloc, pools, found, here, file, rule, &*build, edges)
        }
        Some(compiled) => {
            push_edge(alloc, &*pools, here, file, &*rule, compiled, &*build, edges)
        }
        None => add_edge_of_new_rule(alloc, pools, found, here, file, rule, &*build, edges),
    }
}

/// Adds the edge of a build line to the results so far.
fn add_build<'a>(
    alloc: Global,
    facts: &TreeFacts<'a>,
    so_far: &mut Evaluation<'a>,
    found: &mut Vec<FoundRule<'a>>,
    scopes: &'a [usize],
    build: &BuildLine<'a>,
) -> Result<(), StatementFault>
    requires { AreFound so_far.old.rules facts.now.bound.now found.old.items }
    ensures given { (names : List Name) (h f : Name → Text) → EqNames facts.now.pool_names names → KeptEqLookup (lookup so_far.old.bound scopes.now) h → KeptEqLookup (lookup facts.now.bound.now scopes.now) f → AreWithin so_far.old.edges
        → GivesMore (manifest_in so_far.old) (manifest_in so_far.new) result (map_ok edge_alone (edge_of_build names so_far.old.rules scopes.now h f build.now)) }
    ensures count { OnOk result (length so_far.new.edges.marks.items ≡ length so_far.old.edges.marks.items + 1) }
    ensures within { OnOk result (AreWithin so_far.old.edges → AreWithin so_far.new.edges) }
    ensures bound { so_far.new.bound ≡ so_far.old.bound }
    ensures rules { so_far.new.rules ≡ so_far.old.rules }
    ensures names { so_far.new.pool_names ≡ so_far.old.pool_names }
    ensures found { OnOk result (AreFound so_far.old.rules facts.now.bound.now found.new.items) }
{
    let here = Scope {
        bound: &so_far.bound,
        scopes,
    };
    let file = Scope {
        bound: facts.bound,
        scopes,
    };
    add_edge_of_build(
        alloc,
        &facts.pool_names,
        &so_far.rules,
        found,
        here,
        file,
        &*build,
        &mut so_far.edges,
    )
}

/// Adds a pool that a statement declares.
fn add_pool<'a>(
    alloc: Global,
    so_far: &mut Evaluation<'a>,
    scopes: &'a [usize],
    declared: &'a plan_parse::Pool,
) -> Result<(), StatementFault>
    ensures given { (names : List Name) (h : Name → Text) → EqNames so_far.old.pool_names names → KeptEqLookup (lookup so_far.old.bound scopes.now) h
        → GivesMore (manifest_in so_far.old) (manifest_in so_far.new) result (map_ok pool_alone (pool_by names declared.now.name (expand h declared.now.depth))) }
    ensures count { so_far.new.edges ≡ so_far.old.edges }
    ensures bound { so_far.new.bound ≡ so_far.old.bound }
    ensures rules { so_far.new.rules ≡ so_far.old.rules }
    ensures names { OnOk result ((n : List ℕ) → is_among so_far.new.pool_names n ≡ is_among (so_far.old.pool_names ++ declared.now.name ∷ []) n) }
{
    let here = Scope {
        bound: &so_far.bound,
        scopes,
    };
    let pool = pool(alloc, &so_far.pool_names, here, declared)?;
    so_far.pools.push(pool)?;
    so_far.pool_names.insert(declared.name.as_slice())?;
    Ok(())
}

/// Adds the targets of a `default` statement.
fn add_default<'a>(
    alloc: Global,
    so_far: &mut Evaluation<'a>,
    scopes: &'a [usize],
    paths: &'a [PieceList],
) -> Result<(), StatementFault>
    ensures given { (h : Name → Text) → KeptEqLookup (lookup so_far.old.bound scopes.now) h
        → GivesMore (manifest_in so_far.old) (manifest_in so_far.new) result (map_ok defaults_alone (targets_by (length so_far.old.edges.marks.items) (paths_of h paths.now))) }
    ensures count { so_far.new.edges ≡ so_far.old.edges }
    ensures bound { so_far.new.bound ≡ so_far.old.bound }
    ensures rules { so_far.new.rules ≡ so_far.old.rules }
    ensures names { so_far.new.pool_names ≡ so_far.old.pool_names }
{
    let here = Scope {
        bound: &so_far.bound,
        scopes,
    };
    let mut found = targets(alloc, so_far.edges.marks.len(), here, paths)?;
    so_far.defaults.append(&mut found)?;
    Ok(())
}

/// Adds the binding of a statement that is a binding.
fn add_binding<'a>(
    alloc: Global,
    so_far: &mut Evaluation<'a>,
    statement: &TreeStatement<'a>,
) -> Result<(), StatementFault>
    requires { (b : Binding) × (statement.now.kind ≡ kinds.Binding b) }
    ensures rules { so_far.new.rules ≡ so_far.old.rules }
    ensures given { (all above : List StatementMeant) → GivesMore (manifest_in so_far.old) (manifest_in so_far.new) result (manifest_of_kind all above statement.now.scopes statement.now.kind) }
    ensures fits { OnOk result ((above : List StatementMeant) → Fits so_far.old above → Fits so_far.new (above ++ statement.now ∷ [])) }
{
    bind_statement(alloc, &mut so_far.bound, statement)?;
    Ok(())
}

/// Adds the rule, the pool or the default targets of a directive. Clears the kept rules if the directive declares a
/// rule, which may hide one of them.
fn add_directive<'a>(
    alloc: Global,
    so_far: &mut Evaluation<'a>,
    found: &mut Vec<FoundRule<'a>>,
    statement: &TreeStatement<'a>,
    kind: &'a DirectiveKind,
) -> Result<(), StatementFault>
    requires { statement.now.kind ≡ kind_of kind.now }
    ensures found { OnOk result ((bound : ScopedBindings Text) → AreFound so_far.old.rules bound found.old.items → AreFound so_far.new.rules bound found.new.items) }
    ensures given { (all above : List StatementMeant) → Fits so_far.old above → GivesMore (manifest_in so_far.old) (manifest_in so_far.new) result (manifest_of_kind all above statement.now.scopes statement.now.kind) }
    ensures fits { OnOk result ((above : List StatementMeant) → Fits so_far.old above → Fits so_far.new (above ++ statement.now ∷ [])) }
{
    let scopes = statement.scopes();
    match kind {
        DirectiveKind::Rule(rule) => {
            found.clear();
            declare(alloc, &mut so_far.rules, scopes, rule)
        }
        DirectiveKind::Pool(declared) => add_pool(alloc, so_far, scopes, declared),
        DirectiveKind::Default(paths) => add_default(alloc, so_far, scopes, paths.as_slice()),
        DirectiveKind::Include(_) => Ok(()),
        DirectiveKind::Subninja(_) => Ok(()),
    }
}

/// Adds the edge of a build line, given its statement.
fn add_edge<'a>(
    alloc: Global,
    facts: &TreeFacts<'a>,
    so_far: &mut Evaluation<'a>,
    found: &mut Vec<FoundRule<'a>>,
    statement: &TreeStatement<'a>,
    build: &BuildLine<'a>,
) -> Result<(), StatementFault>
    requires kind { statement.now.kind ≡ kinds.Build build.now }
    requires found { AreFound so_far.old.rules facts.now.bound.now found.old.items }
    ensures found { OnOk result (AreFound so_far.new.rules facts.now.bound.now found.new.items) }
    ensures given { (all above : List StatementMeant) → Fits so_far.old above → Knows facts.now all → GivesMore (manifest_in so_far.old) (manifest_in so_far.new) result (manifest_of_kind all above statement.now.scopes statement.now.kind) }
    ensures fits { OnOk result ((above : List StatementMeant) → Fits so_far.old above → Fits so_far.new (above ++ statement.now ∷ [])) }
{
    let scopes = statement.scopes();
    add_build(alloc, facts, so_far, found, scopes, &*build)
}

/// Adds the results of a statement.
fn add_statement<'a>(
    alloc: Global,
    facts: &TreeFacts<'a>,
    so_far: &mut Evaluation<'a>,
    found: &mut Vec<FoundRule<'a>>,
    statement: &TreeStatement<'a>,
) -> Result<(), StatementFault>
    requires { AreFound so_far.old.rules facts.now.bound.now found.old.items }
    ensures found { OnOk result (AreFound so_far.new.rules facts.now.bound.now found.new.items) }
    ensures given { (all above : List StatementMeant) → Fits so_far.old above → Knows facts.now all → GivesMore (manifest_in so_far.old) (manifest_in so_far.new) result (manifest_of_kind all above statement.now.scopes statement.now.kind) }
    ensures fits { OnOk result ((above : List StatementMeant) → Fits so_far.old above → Fits so_far.new (above ++ statement.now ∷ [])) }
{
    match statement.said() {
        Said::Build(build) => add_edge(alloc, facts, so_far, found, statement, &build),
        Said::Directive(kind) => add_directive(alloc, so_far, found, statement, kind),
        Said::Binding(_) => add_binding(alloc, so_far, statement),
    }
}

/// Adds the place of a statement to its fault. Returns `Memory` if memory runs out.
fn fault_at(alloc: Global, statement: &TreeStatement<'_>, fault: StatementFault) -> ScopeFault
    ensures { IsLocated fault statement.now result }
{
    match fault {
        StatementFault::Refused(cause) => match statement.refusal(alloc, cause) {
            Ok(fault) => fault,
            Err(_) => ScopeFault::Memory,
        },
        StatementFault::Memory => ScopeFault::Memory,
    }
}

/// Evaluates all statements of a tree in order and adds their results to `so_far`.
fn evaluate_statements<'a>(
    alloc: Global,
    facts: &TreeFacts<'a>,
    mut so_far: Evaluation<'a>,
    tree: &'a Tree,
) -> Result<Evaluation<'a>, ScopeFault>
    requires { Fits so_far [] × Knows facts.now tree.now }
    ensures given { Meets ScopeFault.Memory manifest_in result (with_front (manifest_in so_far.entry) (manifest_past tree.now [] tree.now)) }
    ensures within { IfOk result (λ e. AreWithin e.edges) }
{
    let mut found = Vec::new(alloc);
    for statement in tree.statements() {
        match add_statement(alloc, facts, &mut so_far, &mut found, &statement) {
            Ok(()) => {}
            Err(fault) => return Err(fault_at(alloc, &statement, fault)),
        }
    }
    Ok(so_far)
}

/// Evaluates the statements of a tree. The pool `console` is among the pools.
fn evaluate_tree<'a>(alloc: Global, tree: &'a Tree) -> Result<Evaluation<'a>, ScopeFault>
    ensures within { IfOk result (λ e. AreWithin e.edges) }
    ensures given { Meets ScopeFault.Memory manifest_in result (manifest_of tree.now) }
{
    let facts = facts_of_tree(alloc, tree)?;
    let so_far = initial_evaluation(alloc, edge_count(tree)?)?;
    evaluate_statements(alloc, &facts, so_far, tree)
}

/// Evaluates the statements of a tree.
///
/// # Errors
///
/// `Refused` for the first statement that has a fault, with the cause that has the least number among its causes.
/// `Memory` if memory runs out.
pub fn evaluate(alloc: Global, tree: &Tree) -> Result<Manifest, ScopeFault>
    ensures { Meets ScopeFault.Memory (λ m. m) result (manifest_of tree.now) }
{
    let Evaluation {
        edges,
        pools,
        defaults,
        ..
    } = evaluate_tree(alloc, tree)?;
    Ok(Manifest {
        edges: EdgeList::new(edges),
        pools: Items::new(pools),
        defaults: Items::new(defaults),
    })
}
