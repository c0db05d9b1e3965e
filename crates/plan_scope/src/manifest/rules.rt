//! Declarations of rules in scopes, and the rules of the latest build lines. A rule is compiled when a second build
//! line uses it.

ghost use Rattle.std.specs.Prelude.{◌≡◌, ◌||◌, ◌++◌, OnOk, bytes_eq, codes, List, IfSome};
ghost use Rattle.plan_scope.specs.Scopes.{in_own, Bindings, ScopedBindings, Text};
ghost use Rattle.plan_scope.specs.Edges.{has_own, is_taken, late};
ghost use Rattle.plan_scope.specs.Kept.{EqScoped};
ghost use Rattle.plan_scope.specs.Evaluation.{Declares, own_of};
ghost use Rattle.plan_text.specs.declared.piece_reader.Piece.{Piece};
ghost use Rattle.plan_scope.specs.Found.{AreFound, IsCompiledFrom};

use crate::edge::compiled::{CompiledRule, RuleVariables};
use crate::fault::{Cause, StatementFault};
use crate::scope::scoped_map::ScopedMap;
use plan_parse::Rule;
use std::alloc::{AllocError, Global};

/// Returns the own scope of a statement, which is the first that it sees.
fn own_scope(scopes: &[usize]) -> Option<usize>
    ensures { result ≡ own_of scopes.now }
{
    match scopes {
        [] => None,
        [own, ..] => Some(*own),
    }
}

/// Checks whether the own scope of a statement has a rule with this name.
fn has_own<'a>(rules: &ScopedMap<RuleVariables<'a>>, scopes: &[usize], name: &[u8]) -> bool
    ensures { result ≡ has_own rules.now scopes.now name.now }
{
    match own_scope(scopes) {
        Some(own) => rules.own(own, name).is_some(),
        None => false,
    }
}

/// Checks whether a name is `phony`, the rule of edges without a command.
pub fn is_phony(name: &[u8]) -> bool
    ensures { result ≡ bytes_eq name.now (codes "phony") }
{
    name == b"phony".as_slice()
}

/// Checks whether no rule may be declared under this name.
fn is_taken<'a>(rules: &ScopedMap<RuleVariables<'a>>, scopes: &[usize], name: &[u8]) -> bool
    ensures { result ≡ is_taken rules.now scopes.now name.now }
{
    is_phony(name) || has_own(rules, scopes, name)
}

/// Sets a rule under its name in the own scope of a statement.
fn insert_rule<'a>(
    alloc: Global,
    rules: &mut ScopedMap<RuleVariables<'a>>,
    scopes: &[usize],
    rule: &'a Rule,
) -> Result<(), AllocError>
    ensures { OnOk result (EqScoped rules.new (rules.old ++ in_own scopes.now rule.now.name (late rule.now.bindings))) }
{
    let Some(own) = own_scope(scopes) else {
        return Ok(());
    };
    let variables = RuleVariables::new(alloc, rule.bindings.as_slice())?;
    rules.set(alloc, own, rule.name.as_slice(), variables)
}

/// Declares a rule for the build lines below it.
///
/// # Errors
///
/// `DuplicateRule` if the name is `phony` or the own scope already has a rule with this name. `Memory` if memory runs
/// out.
pub fn declare<'a>(
    alloc: Global,
    rules: &mut ScopedMap<RuleVariables<'a>>,
    scopes: &[usize],
    rule: &'a Rule,
) -> Result<(), StatementFault>
    ensures taken { Declares result (is_taken rules.old scopes.now rule.now.name) }
    ensures known { OnOk result (EqScoped rules.new (rules.old ++ in_own scopes.now rule.now.name (late rule.now.bindings))) }
{
    if is_taken(rules, scopes, rule.name.as_slice()) {
        return Err(StatementFault::Refused(Cause::DuplicateRule));
    }
    insert_rule(alloc, rules, scopes, rule)?;
    Ok(())
}

/// A rule that a build line refers to.
#[derive(Drop)]
pub struct FoundRule<'a> {
    /// The scopes that are visible from the build line.
    pub scopes: &'a [usize],
    /// The rule's name.
    pub name: &'a [u8],
    /// The rule's variables as far as they are known in the file.
    pub compiled: CompiledRule<'a>,
}

/// The greatest number of rules that are kept. Most files use few rules in turn.
const MOST_RULES: usize = 16;

/// Returns the kept rule with this name that was found from these scopes.
pub fn find_rule<'b, 'a>(
    found: &'b [FoundRule<'a>],
    scopes: &[usize],
    name: &[u8],
) -> Option<&'b CompiledRule<'a>>
    ensures { (rules : ScopedBindings (Bindings (List Piece))) (bound : ScopedBindings Text) → AreFound rules bound found.now → IfSome result (λ compiled. IsCompiledFrom rules bound scopes.now name.now compiled.now) }
{
    for rule in found {
        if rule.scopes == scopes {
            if rule.name == name {
                return Some(&rule.compiled);
            }
        }
    }
    None
}

/// Keeps a rule. If `MOST_RULES` rules are kept already, drops them first.
pub fn keep_rule<'a>(found: &mut Vec<FoundRule<'a>>, rule: FoundRule<'a>) -> Result<(), AllocError>
    ensures { OnOk result ((rules : ScopedBindings (Bindings (List Piece))) (bound : ScopedBindings Text) → AreFound rules bound found.old.items → IsCompiledFrom rules bound rule.entry.scopes.now rule.entry.name.now rule.entry.compiled → AreFound rules bound found.new.items) }
{
    if found.len() >= MOST_RULES {
        found.clear();
    }
    found.push(rule)?;
    Ok(())
}

/// Replaces the kept rule that has the same name and was found from the same scopes, if there is one.
pub fn replace_rule<'a>(found: &mut Vec<FoundRule<'a>>, rule: FoundRule<'a>)
    ensures { (rules : ScopedBindings (Bindings (List Piece))) (bound : ScopedBindings Text) → AreFound rules bound found.old.items → IsCompiledFrom rules bound rule.entry.scopes.now rule.entry.name.now rule.entry.compiled → AreFound rules bound found.new.items }
{
    let place = found.iter().position(|other| other.scopes == rule.scopes
        && other.name == rule.name);
    if let Some(place) = place {
        found[place] = rule;
    }
}
