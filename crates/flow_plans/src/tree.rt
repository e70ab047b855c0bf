//! The tree of a plan that is let through.

ghost use Rattle.std.specs.Prelude.{◌≡◌, IfOk, IfSome};
ghost use Rattle.micro_ir.specs.Rule.{KeepsRule};
ghost use Rattle.flow_plans.specs.Checked.{head_in};
ghost use Rattle.flow_plans.specs.Laws.{zeros, at_start, passes, IsTreeOf};

use crate::check::checked;
use crate::emit::emitted;
use crate::fit::{fits, nests_within};
use crate::plan::{Entry, Plan, Value};
use dream_words::Name;
use guarded::Tree;
use micro_ir::Flow;
use sqlite_items::Items;
use std::alloc::{AllocError, Global};

/// How many tests and loops may stand one in another.
const DEEPEST: u32 = 512;

/// The variables with 0.
fn zeros(alloc: Global, names: &[Name]) -> Result<Items<Value>, AllocError>
    ensures { IfOk result (λ all. all ≡ zeros names.now) }
{
    let mut all = Items::new(alloc);
    for name in names {
        all.push(Value {
            name: *name,
            value: 0,
        })?;
    }
    Ok(all)
}

/// Whether a plan of the whole flow passes.
fn passes(
    alloc: Global,
    f: &Flow,
    heads: &[bool],
    unset: &[Name],
    plan: &Plan,
) -> Result<bool, AllocError>
    ensures { IfOk result (λ b. b ≡ passes f.now (head_in heads.now) unset.now plan.now) }
{
    let start = Entry {
        owes: false,
        node: f.entry,
        known: zeros(alloc, unset)?,
    };
    let before = Items::from_vec(Vec::from_array(alloc, [start])?);
    let found = checked(
        alloc,
        f.blocks.as_slice(),
        heads,
        plan,
        &[],
        before.as_slice(),
    )?;
    match found {
        None => Ok(false),
        Some(after) => Ok(after.is_empty()),
    }
}

/// The tree of a plan, if the check lets it through. `heads` tells which nodes are heads, before which a loop's turn may
/// begin, and `unset` which of the variables are to be known to be 0 at the start, as all of them are.
pub fn structured(
    alloc: Global,
    f: &Flow,
    heads: &[bool],
    unset: &[Name],
    plan: &Plan,
) -> Result<Option<Tree>, AllocError>
    requires { KeepsRule f.now }
    ensures { IfOk result (λ o. IfSome o (λ t. IsTreeOf f.now (head_in heads.now) t)) }
{
    if !fits(plan, false) || !nests_within(plan, DEEPEST) {
        return Ok(None);
    }
    if !passes(alloc, f, heads, unset, plan)? {
        return Ok(None);
    }
    Ok(Some(emitted(alloc, f.blocks.as_slice(), plan)?))
}
