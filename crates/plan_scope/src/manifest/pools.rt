//! Pools and their depths.

ghost use Rattle.std.specs.Prelude.{◌≡◌, List};
ghost use Rattle.plan_scope.specs.Scopes.{Name, Text, expand};
ghost use Rattle.plan_scope.specs.Edges.{depth_in, pool_by};
ghost use Rattle.plan_scope.specs.Kept.{EqNames, KeptEqLookup};
ghost use Rattle.plan_scope.specs.Evaluation.{depth_by};
ghost use Rattle.plan_scope.specs.Outcomes.{Gives};
ghost use Rattle.plan_scope.specs.ScopeNames.{names_in};

use crate::edge::variables::PoolNames;
use crate::fault::{Cause, StatementFault};
use crate::manifest::Pool;
use crate::scope::text::{copy_of, is_long};
use crate::scope::{Scope, expand_pieces};
use plan_text::number_in;
use std::alloc::Global;

/// The greatest depth of a pool.
const MAX_DEPTH: u64 = 1_000_000;

/// The greatest number of digits in a depth.
const MAX_DIGITS: usize = 7;

/// Parses a depth. Returns `None` if the text isn't one to seven digits or the number is above `MAX_DEPTH`.
fn depth_in(text: &[u8]) -> Option<u64>
    ensures { result ≡ depth_in text.now }
{
    if text.len() > MAX_DIGITS {
        return None;
    }
    number_in(text, MAX_DEPTH)
}

/// Parses a depth. Returns the cause if the text is refused.
fn depth(text: &[u8]) -> Result<u64, Cause>
    ensures { result ≡ depth_by text.now }
{
    if is_long(text) {
        return Err(Cause::TextTooLong);
    }
    match depth_in(text) {
        Some(depth) => Ok(depth),
        None => Err(Cause::BadDepth),
    }
}

/// Evaluates the declaration of a pool, given the names of the pools above it.
///
/// # Errors
///
/// `DuplicatePool` if a pool of this name is above, `TextTooLong` or `BadDepth` if the depth is refused, `Memory` if
/// memory runs out.
pub fn pool<'a>(
    alloc: Global,
    above: &PoolNames<'a>,
    here: Scope<'a>,
    declared: &'a plan_parse::Pool,
) -> Result<Pool, StatementFault>
    ensures { (names : List Name) (h : Name → Text) → EqNames above.now names → KeptEqLookup (names_in here.entry) h → Gives result (pool_by names declared.now.name (expand h declared.now.depth)) }
{
    if above.contains(declared.name.as_slice()) {
        return Err(StatementFault::Refused(Cause::DuplicatePool));
    }
    let text = expand_pieces(alloc, here, declared.depth.as_slice())?;
    match depth(&text) {
        Ok(depth) => {
            let name = copy_of(alloc, declared.name.as_slice())?;
            Ok(Pool { name, depth })
        }
        Err(cause) => Err(StatementFault::Refused(cause)),
    }
}
