//! Statements that set flags.

ghost use Rattle.std.specs.Prelude.{◌≡◌, [], ◌∷◌, ◌++◌, OnOk};
ghost use Rattle.dream_words.specs.declared.machine.Name.TheVariants.{Flag};
ghost use Rattle.lift_blocks.specs.Flags.{sets_flags};
ghost use Rattle.micro_ir.specs.declared.flow.Stmt.TheVariants as stmt;

use dream_words::Name;
use lift_alu::AluLift;
use micro_ir::{Expr, Stmt};
use std::alloc::AllocError;

/// Sets OF, SF, ZF and PF.
pub fn push_but_carry(
    stmts: &mut Vec<Stmt>,
    p: Expr,
    z: Expr,
    s: Expr,
    o: Expr,
) -> Result<(), AllocError>
    ensures { OnOk result (stmts.new.items ≡ stmts.old.items ++ stmt.Set (Flag 4) o ∷ stmt.Set (Flag 3) s ∷ stmt.Set (Flag 2) z ∷ stmt.Set (Flag 1) p ∷ []) }
{
    stmts.push(Stmt::Set(Name::Flag(4), o))?;
    stmts.push(Stmt::Set(Name::Flag(3), s))?;
    stmts.push(Stmt::Set(Name::Flag(2), z))?;
    stmts.push(Stmt::Set(Name::Flag(1), p))?;
    Ok(())
}

/// Sets all flags and nothing else.
pub fn push_flags(stmts: &mut Vec<Stmt>, l: AluLift) -> Result<(), AllocError>
    ensures { OnOk result (stmts.new.items ≡ stmts.old.items ++ sets_flags l) }
{
    push_but_carry(stmts, l.p, l.z, l.s, l.o)?;
    stmts.push(Stmt::Set(Name::Flag(0), l.c))?;
    Ok(())
}
