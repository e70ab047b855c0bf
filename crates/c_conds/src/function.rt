//! A function with conditions in the place of the locals that hold their outcomes.

ghost use Rattle.std.specs.Prelude.{◌≡◌, IfOk};
ghost use Rattle.c_syntax.specs.Formed.{IsWellFormed};
ghost use Rattle.c_locals.specs.Keeps.{KeepsCounts};
ghost use Rattle.c_conds.specs.Keeps.{HasTurns};

use crate::reads;
use crate::statements::stmts;
use c_syntax::CFun;
use std::alloc::{AllocError, Global};

/// How often a function reads each local for the outcome of a test elsewhere than in a test directly after it is set, by the number
/// of the local.
fn far_reads(alloc: Global, f: &CFun) -> Result<Vec<u32>, AllocError> {
    let mut counts = vec![in alloc; 0; f.bools as usize]?;
    let _set = reads::stmts(&mut counts, f.body.as_slice());
    Ok(counts)
}

/// The function with each condition in the place of the local that holds its outcome, where that is read nowhere but in tests of the
/// statement directly after the one that sets it.
pub fn with_conds(alloc: Global, f: CFun) -> Result<CFun, AllocError>
    requires formed { IsWellFormed f }
    ensures formed { IfOk result (λ g. IsWellFormed g) }
    ensures runs { IfOk result (λ g. HasTurns f g) }
    ensures counts { IfOk result (λ g. KeepsCounts f g) }
    ensures address { IfOk result (λ g. g.address ≡ f.address) }
{
    let far = far_reads(alloc, &f)?;
    let body = stmts(alloc, &far, f.body.as_slice())?;
    Ok(CFun {
        address: f.address,
        temps: f.temps,
        bools: f.bools,
        selectors: f.selectors,
        body,
    })
}
