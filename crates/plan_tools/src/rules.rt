//! The rules of edges.

ghost use Rattle.std.specs.Prelude.{◌≡◌, IfOk};
ghost use Rattle.plan_tools.specs.Rules as defined;

use plan_scope::{Said, Tree};
use plan_text::{Memory, RowList};
use std::alloc::Global;

/// Returns the name of the rule of each build line, in their order: that of the edge of the same number.
///
/// # Errors
/// Memory runs out.
pub fn rules_of(alloc: Global, tree: &Tree) -> Result<RowList<u8>, Memory>
    ensures { IfOk result (λ rules. rules ≡ defined.rules_of tree.now) }
{
    let mut rules = RowList::new(alloc);
    for statement in tree.statements() {
        if let Said::Build(line) = statement.said() {
            rules.push(line.rule())?;
        }
    }
    Ok(rules)
}
