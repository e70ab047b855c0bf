//! The trees of a flow.

ghost use Rattle.std.specs.Prelude.{◌≡◌, IfOk, IfSome};
ghost use Rattle.micro_ir.specs.Rule.{IsGiven};
ghost use Rattle.regions.specs.Plain.{plain_tree};
ghost use Rattle.regions.specs.Straight.{straight_tree};
ghost use Rattle.regions.specs.Laws.{IsPlainOf, IsStraightOf};

use crate::{one_line, one_loop};
use guarded::Tree;
use micro_ir::Flow;
use std::alloc::{AllocError, Global};

/// The tree of a flow with one loop: the selector `s0` has the number of the block that comes next,
/// and a switch over it has a case for each block.
pub fn plain(alloc: Global, f: &Flow) -> Result<Tree, AllocError>
    requires { IsGiven f.now }
    ensures exact { IfOk result (λ t. t ≡ plain_tree f.now) }
    ensures holds { IfOk result (λ t. IsPlainOf f.now t) }
{
    let t = one_loop::tree(alloc, f)?;
    Ok(t)
}

/// The tree of a flow whose blocks are one line: from the entry on each has just one that comes next,
/// and none comes twice. None where they aren't.
pub fn straight(alloc: Global, f: &Flow) -> Result<Option<Tree>, AllocError>
    requires { IsGiven f.now }
    ensures exact { IfOk result (λ o. o ≡ straight_tree f.now) }
    ensures holds { IfOk result (λ o. IfSome o (λ t. IsStraightOf f.now t)) }
{
    let t = one_line::tree(alloc, f)?;
    Ok(t)
}
