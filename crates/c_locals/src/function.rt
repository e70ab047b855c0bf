//! A function without the locals that nothing reads.

ghost use Rattle.std.specs.Prelude.{◌≡◌, IfOk};
ghost use Rattle.c_syntax.specs.Formed.{IsWellFormed};
ghost use Rattle.c_locals.specs.Marks.{marks_of};
ghost use Rattle.c_locals.specs.Settled.{settled};
ghost use Rattle.c_locals.specs.Keeps.{KeepsTurns, KeepsCounts};

use crate::locals::Locals;
use crate::marks::{Marks, stmts as mark_all};
use crate::statements::stmts;
use c_syntax::CFun;
use std::alloc::{AllocError, Global};

/// The locals of a function that are read or loaded.
fn marks_of(alloc: Global, f: &CFun) -> Result<Marks, AllocError>
    ensures { IfOk result (λ m. m ≡ marks_of f.now) }
{
    let temps = vec![in alloc; false; f.temps as usize]?;
    let bools = vec![in alloc; false; f.bools as usize]?;
    let mut marks = Marks { temps, bools };
    mark_all(&mut marks, f.body.as_slice());
    Ok(marks)
}

/// The function without the locals for words and for outcomes of tests that nothing reads or loads, and without their
/// assignments. The others are renumbered from 0, in the order of their numbers.
pub fn without_unread(alloc: Global, f: CFun) -> Result<CFun, AllocError>
    requires { IsWellFormed f }
    ensures exact { IfOk result (λ g. g ≡ settled f) }
    ensures formed { IfOk result IsWellFormed }
    ensures runs { IfOk result (λ g. KeepsTurns f g) }
    ensures counts { IfOk result (λ g. KeepsCounts f g) }
    ensures address { IfOk result (λ g. g.address ≡ f.address) }
{
    let marks = marks_of(alloc, &f)?;
    let locals = Locals::new(alloc, marks)?;
    let body = stmts(alloc, &locals, f.body.as_slice())?;
    Ok(CFun {
        address: f.address,
        temps: locals.temps(),
        bools: locals.bools(),
        selectors: f.selectors,
        body,
    })
}
