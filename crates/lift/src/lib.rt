//! From an instruction to its blocks.
//! Given are an instruction, its address and the next one.
//! Promised are blocks that have its effect from every state, are never stuck, and lead to its successors.
#![tactic(auto)]

mod control;
mod operations;
mod pushes;
mod rounds;
mod transfers;

ghost use Rattle.std.specs.Prelude.{◌≡◌, IfOk, true};
ghost use Rattle.lift.specs.Blocks.{block_of};
ghost use Rattle.lift.specs.Given.{leaves_bare, has_words};
ghost use Rattle.lift_parts.specs.Lifted.{AreBlocksOf};
ghost use Rattle.x86_formed.specs.Formed.{HasSpelling};

use crate::rounds::with_test;
use lift_blocks::{goes_on, nothing};
use lift_wide::lift_wide;
use micro_ir::Block;
use std::alloc::{AllocError, Global};
use x86_inst::Inst;

/// The blocks of an instruction at an address, with the next one. If it is a jump by a word, then through a bare absolute
/// address.
pub fn lift(alloc: Global, i: &Inst, at: u32, next: u32) -> Result<Vec<Block>, AllocError>
    requires leaves { leaves_bare i.now ≡ true }
    ensures { IfOk result (λ blocks. HasSpelling i.now → AreBlocksOf i.now at next blocks.items) }
{
    match lift_wide(alloc, i, at, next)? {
        Some(b) => Ok(with_test(alloc, i, at, b)?),
        None => {
            let b = block(alloc, *i, at, next)?;
            Ok(Vec::from_array(alloc, [b])?)
        }
    }
}

// The block of a plain instruction. Of one that isn't plain it has nothing.
fn block(alloc: Global, i: Inst, at: u32, next: u32) -> Result<Block, AllocError>
    ensures block { IfOk result (λ b. b ≡ block_of i at next) }
    ensures words { has_words i ≡ true }
{
    match i {
        Inst::Alu(op, size, d, s) => operations::alu(alloc, at, op, size, d, s),
        Inst::Neg(size, d) => operations::neg(alloc, at, size, d),
        Inst::Inc(size, d) => operations::inc(alloc, at, size, d),
        Inst::Dec(size, d) => operations::dec(alloc, at, size, d),
        Inst::Test(size, d, s) => operations::test(alloc, at, size, d, s),
        Inst::Carry(op) => operations::carry(alloc, at, op),
        Inst::Mov(size, d, s) => transfers::mov(alloc, at, size, d, s),
        Inst::Lea(size, d, m) => transfers::lea(alloc, at, size, d, m),
        Inst::Xchg(size, d, s) => transfers::xchg(alloc, at, size, d, s),
        Inst::Not(size, d) => transfers::not(alloc, at, size, d),
        Inst::Movx(signed, from, to, d, s) => transfers::movx(alloc, at, signed, from, to, d, s),
        Inst::Widen(size) => transfers::widen(alloc, at, size),
        Inst::Spread(size) => transfers::spread(alloc, at, size),
        Inst::Bswap(n) => transfers::bswap(alloc, at, n),
        Inst::Set(c, d) => transfers::set(alloc, at, c, d),
        Inst::Cmov(c, size, d, s) => transfers::cmov(alloc, at, c, size, d, s),
        Inst::Push(s) => pushes::push(alloc, at, s),
        Inst::Pop(d) => pushes::pop(alloc, at, d),
        Inst::Leave => pushes::leave(alloc, at),
        Inst::Nop => Ok(goes_on(at, Vec::new(alloc))),
        Inst::Jmp(_) => Ok(goes_on(at, Vec::new(alloc))),
        Inst::Loop(_) => control::counted(alloc, at),
        Inst::Jecxz(_) => Ok(control::jecxz(alloc, at)),
        Inst::Jcc(c, _) => control::jcc(alloc, at, c),
        Inst::JmpTo(s) => control::jmp_to(alloc, at, s),
        Inst::Call(distance) => control::call(alloc, at, next, distance),
        Inst::CallTo(s) => control::call_to(alloc, at, next, s),
        Inst::Ret(n) => control::ret(alloc, at, n),
        Inst::Trap(v) => control::trap(alloc, at, v),
        Inst::Mul(_, _) => Ok(nothing(alloc, at)),
        Inst::ImulWide(_, _) => Ok(nothing(alloc, at)),
        Inst::Imul2(_, _, _) => Ok(nothing(alloc, at)),
        Inst::Imul3(_, _, _, _) => Ok(nothing(alloc, at)),
        Inst::Div(_, _) => Ok(nothing(alloc, at)),
        Inst::Idiv(_, _) => Ok(nothing(alloc, at)),
        Inst::Shift(_, _, _, _) => Ok(nothing(alloc, at)),
        Inst::DShift(_, _, _, _) => Ok(nothing(alloc, at)),
        Inst::Bit(_, _, _, _) => Ok(nothing(alloc, at)),
        Inst::Scan(_, _, _, _, _) => Ok(nothing(alloc, at)),
        Inst::Str(_, _, _, _) => Ok(nothing(alloc, at)),
    }
}
