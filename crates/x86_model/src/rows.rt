//! The rows of moves, the stack, arithmetic, flags, conditions, jumps and calls.

ghost use Rattle.std.specs.Prelude.{◌≡◌};
ghost use Rattle.x86_inst.specs.declared.Size.TheVariants.{W};
ghost use Rattle.x86_model.specs.declared.effect.Go.TheVariants as go;
ghost use Rattle.x86_model.specs.Operands.{value_of};
ghost use Rattle.x86_model.specs.Effects.{goes};
ghost use Rattle.x86_model.specs.Rows.{alu_written, alu_carry, alu_row, keeping_carry, inc_row, dec_row, neg_row, push_row, popped, pop_row, target_at, jcc_row, set_row, cmov_row, call_row, is_bare, jump_to_row, ret_row, leave_row, loop_row, jecxz_row, xchg_row, test_row, mov_row, lea_row, not_row, carry_row};

use crate::arithmetic::{alu as alu_of, flag_if};
use crate::effect::{Effect, Go, Step};
use crate::effects::{condition, done, goes, known, push as pushed, put, stray};
use crate::operands::{address, low, value};
use dream_words::{Bit, Flags, Regs};
use x86_inst::{AluOp, CarryOp, Cond, Mem, Operand, Seg, Size};

/// The carry that an operation reads; none where it is undefined.
fn alu_carry(op: AluOp, a: &Step) -> Option<bool>
    ensures { result ≡ alu_carry op a.now }
{
    match op {
        AluOp::Adc | AluOp::Sbb => known(a.flags.c),
        _ => Some(false),
    }
}

/// Writes the result, but for Cmp.
fn alu_written(op: AluOp, size: Size, d: &Operand, v: u32, a: &Step, e: Effect) -> Effect
    ensures { result ≡ alu_written op size d.now v a.now e }
{
    match op {
        AluOp::Cmp => e,
        _ => put(size, d, v, a, e),
    }
}

/// ADD, OR, ADC, SBB, AND, SUB, XOR, CMP.
pub(crate) fn alu(op: AluOp, size: Size, d: &Operand, s: &Operand, a: &Step) -> Effect
    ensures { result ≡ alu_row op size d.now s.now a.now }
{
    match alu_carry(op, a) {
        Some(carry) => {
            let computed = alu_of(op, size, value(size, d, a), value(size, s, a), carry);
            alu_written(op, size, d, computed.value, a, done(a, computed.flags))
        }
        None => stray(a),
    }
}

/// New flags with the old carry.
fn keeping_carry(old: &Flags, new: Flags) -> Flags
    ensures { result ≡ keeping_carry old.now new }
{
    Flags { c: old.c, ..new }
}

/// INC.
pub(crate) fn inc(size: Size, d: &Operand, a: &Step) -> Effect
    ensures { result ≡ inc_row size d.now a.now }
{
    let computed = alu_of(AluOp::Add, size, value(size, d, a), 1, false);
    let e = done(a, keeping_carry(&a.flags, computed.flags));
    put(size, d, computed.value, a, e)
}

/// DEC.
pub(crate) fn dec(size: Size, d: &Operand, a: &Step) -> Effect
    ensures { result ≡ dec_row size d.now a.now }
{
    let computed = alu_of(AluOp::Sub, size, value(size, d, a), 1, false);
    let e = done(a, keeping_carry(&a.flags, computed.flags));
    put(size, d, computed.value, a, e)
}

/// NEG.
pub(crate) fn neg(size: Size, d: &Operand, a: &Step) -> Effect
    ensures { result ≡ neg_row size d.now a.now }
{
    let computed = alu_of(AluOp::Sub, size, 0, value(size, d, a), false);
    put(size, d, computed.value, a, done(a, computed.flags))
}

/// TEST.
pub(crate) fn test(size: Size, d: &Operand, s: &Operand, a: &Step) -> Effect
    ensures { result ≡ test_row size d.now s.now a.now }
{
    let computed = alu_of(
        AluOp::And,
        size,
        value(size, d, a),
        value(size, s, a),
        false,
    );
    done(a, computed.flags)
}

/// NOT.
pub(crate) fn not(size: Size, d: &Operand, a: &Step) -> Effect
    ensures { result ≡ not_row size d.now a.now }
{
    put(size, d, low(size, !value(size, d, a)), a, done(a, a.flags))
}

/// CMC, CLC, STC.
pub(crate) fn carry(op: CarryOp, a: &Step) -> Effect
    ensures { result ≡ carry_row op a.now }
{
    let mut flags = a.flags;
    flags.c = match op {
        CarryOp::Flip => match known(a.flags.c) {
            Some(c) => flag_if(!c),
            None => return stray(a),
        },
        CarryOp::Clear => Bit::Zero,
        CarryOp::Put => Bit::One,
    };
    done(a, flags)
}

/// MOV.
pub(crate) fn mov(size: Size, d: &Operand, s: &Operand, a: &Step) -> Effect
    ensures { result ≡ mov_row size d.now s.now a.now }
{
    put(size, d, value(size, s, a), a, done(a, a.flags))
}

/// LEA.
pub(crate) fn lea(size: Size, d: u8, m: &Mem, a: &Step) -> Effect
    ensures { result ≡ lea_row size d m.now a.now }
{
    let at = address(m, &a.regs, 0, 0);
    put(size, &Operand::Reg(d), at, a, done(a, a.flags))
}

/// XCHG.
pub(crate) fn xchg(size: Size, d: &Operand, s: &Operand, a: &Step) -> Effect
    ensures { result ≡ xchg_row size d.now s.now a.now }
{
    let x = value(size, d, a);
    let y = value(size, s, a);
    put(size, d, y, a, put(size, s, x, a, done(a, a.flags)))
}

/// PUSH.
pub(crate) fn push(s: &Operand, a: &Step) -> Effect
    ensures { result ≡ push_row s.now a.now }
{
    pushed(value(Size::W, s, a), a, done(a, a.flags))
}

/// The registers with the stack pointer raised.
fn popped(n: u32, mut r: Regs) -> Regs
    ensures { result ≡ popped n r }
{
    let esp = r.esp.wrapping_add(n);
    r.set(4, esp);
    r
}

/// POP.
pub(crate) fn pop(d: &Operand, a: &Step) -> Effect
    ensures { result ≡ pop_row d.now a.now }
{
    let mut b = *a;
    b.regs = popped(4, a.regs);
    put(Size::W, d, a.first, &b, done(&b, a.flags))
}

/// LEAVE.
pub(crate) fn leave(a: &Step) -> Effect
    ensures { result ≡ leave_row a.now }
{
    let mut e = done(a, a.flags);
    e.regs.set(4, a.regs.ebp.wrapping_add(4));
    e.regs.set(5, a.first);
    e
}

/// SETcc.
pub(crate) fn set(n: Cond, d: &Operand, a: &Step) -> Effect
    ensures { result ≡ set_row n.0 d.now a.now }
{
    match condition(n, &a.flags) {
        Some(b) => put(Size::B, d, u32::from(b), a, done(a, a.flags)),
        None => stray(a),
    }
}

/// CMOVcc.
pub(crate) fn cmov(n: Cond, size: Size, d: u8, s: &Operand, a: &Step) -> Effect
    ensures { result ≡ cmov_row n.0 size d s.now a.now }
{
    match condition(n, &a.flags) {
        Some(true) => mov(size, &Operand::Reg(d), s, a),
        Some(false) => done(a, a.flags),
        None => stray(a),
    }
}

/// An address at a distance from the next instruction.
fn target_at(distance: u32, a: &Step) -> u32
    ensures { result ≡ target_at distance a.now }
{
    a.next.wrapping_add(distance)
}

/// JMP over a distance.
pub(crate) fn jmp(distance: u32, a: &Step) -> Effect
    ensures { result ≡ goes (go.To (target_at distance a.now)) a.now }
{
    goes(Go::To(target_at(distance, a)), a)
}

/// Jcc.
pub(crate) fn jcc(n: Cond, distance: u32, a: &Step) -> Effect
    ensures { result ≡ jcc_row n.0 distance a.now }
{
    match condition(n, &a.flags) {
        Some(true) => jmp(distance, a),
        Some(false) => done(a, a.flags),
        None => stray(a),
    }
}

/// JECXZ.
pub(crate) fn jecxz(distance: u32, a: &Step) -> Effect
    ensures { result ≡ jecxz_row distance a.now }
{
    if a.regs.ecx == 0 {
        jmp(distance, a)
    } else {
        done(a, a.flags)
    }
}

/// LOOP.
pub(crate) fn loop_to(distance: u32, a: &Step) -> Effect
    ensures { result ≡ loop_row distance a.now }
{
    let n = a.regs.ecx.wrapping_sub(1);
    let mut e = if n == 0 {
        done(a, a.flags)
    } else {
        jmp(distance, a)
    };
    e.regs.set(1, n);
    e
}

/// The operand is an absolute address without registers and segment.
fn is_bare(s: &Operand) -> bool
    ensures { result ≡ is_bare s.now }
{
    match s {
        Operand::Mem(m) => m.base.is_none() && m.index.is_none() && matches!(m.seg, Seg::None),
        _ => false,
    }
}

/// JMP to the address that an operand holds.
pub(crate) fn jump_to(s: &Operand, a: &Step) -> Effect
    ensures { result ≡ jump_to_row s.now a.now }
{
    let to = value(Size::W, s, a);
    if is_bare(s) {
        goes(Go::LeaveTo(to), a)
    } else {
        goes(Go::To(to), a)
    }
}

/// CALL of an address.
fn call_at(to: u32, a: &Step) -> Effect
    ensures { result ≡ call_row to a.now }
{
    pushed(a.next, a, goes(Go::CallTo(to), a))
}

/// CALL over a distance.
pub(crate) fn call(distance: u32, a: &Step) -> Effect
    ensures { result ≡ call_row (target_at distance a.now) a.now }
{
    call_at(target_at(distance, a), a)
}

/// CALL of the address that an operand holds.
pub(crate) fn call_to(s: &Operand, a: &Step) -> Effect
    ensures { result ≡ call_row (value_of W s.now a.now) a.now }
{
    call_at(value(Size::W, s, a), a)
}

/// RET.
pub(crate) fn ret(n: u16, a: &Step) -> Effect
    ensures { result ≡ ret_row n a.now }
{
    let mut e = goes(Go::Return, a);
    e.regs = popped(4 + u32::from(n), a.regs);
    e
}
