//! Jumps and calls.

ghost use Rattle.std.specs.Prelude.{◌≡◌, ◌+◌, ◌^◌, [], ◌∷◌, ◌++◌, nat_lt, true, IfOk, OnOk};
ghost use Rattle.c_words.specs.Built.{cmp as compare, num as num_of};
ghost use Rattle.c_syntax.specs.declared.syntax.CCmp.TheVariants as test;
ghost use Rattle.lift_blocks.specs.Ends.{branches as branches_of, goes_on as goes_on_of, returns as returns_of};
ghost use Rattle.lift.specs.Blocks.{target as target_of, counts_down as counts_down_of, pops as pops_of, call_stmts, call_to_stmts};
ghost use Rattle.lift_alu.specs.Words.{cond_words};
ghost use Rattle.lift_parts.specs.Parts.{reg as reg_word, reads, raw_word as raw_word_of};
ghost use Rattle.micro_ir.specs.declared.flow.End.TheVariants as end;
ghost use Rattle.micro_ir.specs.declared.flow.Stmt.TheVariants as stmt;
ghost use Rattle.x86_inst.specs.declared.Size.TheVariants.{W};

use crate::pushes::pops;
use c_words::{bin, cmp, num};
use dream_words::Name;
use lift_alu::lift_cond;
use lift_blocks::{branches, goes_on, returns};
use lift_parts::{push_pushes, push_reads, raw_word, reg, temp};
use micro_ir::{Bin, Block, Cmp, End, Expr, Stmt};
use sqlite_items::Items;
use std::alloc::{AllocError, Global};
use x86_inst::{Cond, Operand, Size};

/// Jcc.
pub fn jcc(alloc: Global, at: u32, c: Cond) -> Result<Block, AllocError>
    ensures { IfOk result (λ b. b ≡ branches_of at [] (cond_words c.0)) }
{
    Ok(branches(at, Vec::new(alloc), lift_cond(alloc, c)?))
}

/// JECXZ.
pub fn jecxz(alloc: Global, at: u32) -> Block
    ensures { result ≡ branches_of at [] (compare test.Eq (reg_word 1) (num_of 0)) }
{
    branches(at, Vec::new(alloc), cmp(Cmp::Eq, reg(1), num(0)))
}

// ECX falls by 1.
fn counts_down(alloc: Global) -> Result<Stmt, AllocError>
    ensures { IfOk result (λ s. s ≡ counts_down_of) }
{
    Ok(Stmt::Set(Name::Reg(1), bin(alloc, Bin::Sub, reg(1), num(1))?))
}

/// LOOP.
pub fn counted(alloc: Global, at: u32) -> Result<Block, AllocError>
    ensures { IfOk result (λ b. b ≡ branches_of at (counts_down_of ∷ []) (compare test.Ne (reg_word 1) (num_of 0))) }
{
    let stmts = Vec::from_array(alloc, [counts_down(alloc)?])?;
    Ok(branches(at, stmts, cmp(Cmp::Ne, reg(1), num(0))))
}

/// JMP by a word, which leaves.
pub fn jmp_to(alloc: Global, at: u32, s: Operand) -> Result<Block, AllocError>
    ensures { IfOk result (λ b. b ≡ record { at = at; stmts = reads W s; end = end.Leave (raw_word_of W s) }) }
{
    let mut stmts = Vec::new(alloc);
    push_reads(alloc, &mut stmts, Size::W, s)?;
    let to = raw_word(alloc, Size::W, s)?;
    Ok(Block {
        at,
        stmts: Items::from_vec(stmts),
        end: End::Leave(to),
    })
}

// Puts a call of a target at the end.
fn push_call(alloc: Global, stmts: &mut Vec<Stmt>, next: u32, to: Expr) -> Result<(), AllocError>
    ensures { OnOk result (stmts.new.items ≡ stmts.old.items ++ call_stmts next to) }
{
    push_pushes(alloc, stmts, num(next))?;
    stmts.push(Stmt::Ext(to))?;
    Ok(())
}

// The target of a jump over a distance.
fn target(next: u32, distance: u32) -> Expr
    ensures { result ≡ target_of next distance }
{
    num(next.wrapping_add(distance))
}

/// CALL of a target.
pub fn call(alloc: Global, at: u32, next: u32, distance: u32) -> Result<Block, AllocError>
    ensures { IfOk result (λ b. b ≡ goes_on_of at (call_stmts next (target_of next distance))) }
{
    let mut stmts = Vec::new(alloc);
    push_call(alloc, &mut stmts, next, target(next, distance))?;
    Ok(goes_on(at, stmts))
}

/// CALL of the address that an operand holds.
pub fn call_to(alloc: Global, at: u32, next: u32, s: Operand) -> Result<Block, AllocError>
    ensures { IfOk result (λ b. b ≡ goes_on_of at (call_to_stmts next s)) }
{
    let mut stmts = Vec::new(alloc);
    push_reads(alloc, &mut stmts, Size::W, s)?;
    stmts.push(Stmt::Set(Name::T(2), raw_word(alloc, Size::W, s)?))?;
    push_call(alloc, &mut stmts, next, temp(2))?;
    Ok(goes_on(at, stmts))
}

/// RET, which takes that many bytes off the stack besides the address.
pub fn ret(alloc: Global, at: u32, n: u16) -> Result<Block, AllocError>
    ensures block { IfOk result (λ b. b ≡ returns_of at (pops_of (4 + n) ∷ [])) }
    ensures words { nat_lt (4 + n) (2 ^ 32) ≡ true }
{
    let stmts = Vec::from_array(alloc, [pops(alloc, 4 + n as u32)?])?;
    Ok(returns(at, stmts))
}

/// The fault of a vector.
pub fn trap(alloc: Global, at: u32, v: u32) -> Result<Block, AllocError>
    ensures block { IfOk result (λ b. b ≡ returns_of at (stmt.Trap v (num_of 1) ∷ [])) }
    ensures words { nat_lt v (2 ^ 32) ≡ true }
{
    let stmts = Vec::from_array(alloc, [Stmt::Trap(v, num(1))])?;
    Ok(returns(at, stmts))
}
