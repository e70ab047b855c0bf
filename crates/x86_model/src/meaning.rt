//! What one step of each instruction reads, and what it does: the table of all rows.

ghost use Rattle.std.specs.Prelude.{◌≡◌};
ghost use Rattle.x86_model.specs.Meaning.{effect_of};
ghost use Rattle.x86_model.specs.Reads.{reads_of};

use crate::accesses::{none, one, operand, pair, string as string_reads, word};
use crate::effect::{Effect, Go, Reads, Step};
use crate::effects::{done, goes};
use crate::{bits, products, rows, shifts, strings};
use dream_words::{Flags, Regs};
use x86_inst::{Inst, Size};

/// What a step reads, in order.
pub fn wants(i: &Inst, r: &Regs, fs: u32, gs: u32) -> Reads
    ensures { result ≡ reads_of i.now r.now fs gs }
{
    match i {
        Inst::Alu(_, size, d, s)
        | Inst::Test(size, d, s)
        | Inst::Xchg(size, d, s)
        | Inst::Bit(_, size, d, s) => one(pair(*size, d, s, r, fs, gs)),
        Inst::Inc(size, d) | Inst::Dec(size, d) | Inst::Not(size, d) | Inst::Neg(size, d) => {
            one(operand(*size, d, r, fs, gs))
        }
        Inst::Shift(_, size, d, _) => one(operand(*size, d, r, fs, gs)),
        Inst::Mul(size, s) | Inst::ImulWide(size, s) | Inst::Div(size, s) | Inst::Idiv(size, s) =>
            one(operand(*size, s, r, fs, gs)),
        Inst::Imul3(size, _, s, _) => one(operand(*size, s, r, fs, gs)),
        Inst::Imul2(size, _, s) | Inst::Cmov(_, size, _, s) | Inst::Mov(size, _, s) => {
            one(operand(*size, s, r, fs, gs))
        }
        Inst::Scan(_, size, _, s, _) => one(operand(*size, s, r, fs, gs)),
        Inst::Movx(_, from, _, _, s) => one(operand(*from, s, r, fs, gs)),
        Inst::Push(s) | Inst::CallTo(s) | Inst::JmpTo(s) => one(operand(Size::W, s, r, fs, gs)),
        Inst::DShift(_, d, _, _) => one(operand(Size::W, d, r, fs, gs)),
        Inst::Pop(_) => one(word(Size::W, r.esp)),
        Inst::Leave => one(word(Size::W, r.ebp)),
        Inst::Str(op, size, rep, seg) => string_reads(*op, *size, *rep, *seg, r, fs, gs),
        Inst::Jcc(_, _)
        | Inst::Lea(_, _, _)
        | Inst::Nop
        | Inst::Widen(_)
        | Inst::Spread(_)
        | Inst::Ret(_)
        | Inst::Trap(_)
        | Inst::Loop(_)
        | Inst::Jecxz(_)
        | Inst::Call(_)
        | Inst::Jmp(_)
        | Inst::Carry(_)
        | Inst::Set(_, _)
        | Inst::Bswap(_) => none(),
    }
}

/// What a step does, from what it begins with and the words that it reads.
pub fn apply(
    i: &Inst,
    r: &Regs,
    f: &Flags,
    fs: u32,
    gs: u32,
    first: u32,
    second: u32,
    next: u32,
) -> Effect
    ensures { result ≡ effect_of i.now (record { regs = r.now; flags = f.now; fs = fs; gs = gs; first = first; second = second; next = next }) }
{
    let step = Step {
        regs: *r,
        flags: *f,
        fs,
        gs,
        first,
        second,
        next,
    };
    effect(i, &step)
}

/// What a step does.
fn effect(i: &Inst, a: &Step) -> Effect
    ensures { result ≡ effect_of i.now a.now }
{
    match i {
        Inst::Alu(op, size, d, s) => rows::alu(*op, *size, d, s, a),
        Inst::Neg(size, d) => rows::neg(*size, d, a),
        Inst::Inc(size, d) => rows::inc(*size, d, a),
        Inst::Dec(size, d) => rows::dec(*size, d, a),
        Inst::Test(size, d, s) => rows::test(*size, d, s, a),
        Inst::Mov(size, d, s) => rows::mov(*size, d, s, a),
        Inst::Lea(size, d, m) => rows::lea(*size, *d, m, a),
        Inst::Push(s) => rows::push(s, a),
        Inst::Pop(d) => rows::pop(d, a),
        Inst::Xchg(size, d, s) => rows::xchg(*size, d, s, a),
        Inst::Not(size, d) => rows::not(*size, d, a),
        Inst::Movx(signed, from, to, d, s) => bits::movx(*signed, *from, *to, *d, s, a),
        Inst::Widen(size) => bits::widen(*size, a),
        Inst::Spread(size) => bits::spread(*size, a),
        Inst::Bswap(n) => bits::bswap(*n, a),
        Inst::Set(n, d) => rows::set(*n, d, a),
        Inst::Cmov(n, size, d, s) => rows::cmov(*n, *size, *d, s, a),
        Inst::Leave => rows::leave(a),
        Inst::Nop => done(a, a.flags),
        Inst::Loop(distance) => rows::loop_to(*distance, a),
        Inst::Jecxz(distance) => rows::jecxz(*distance, a),
        Inst::Jcc(n, distance) => rows::jcc(*n, *distance, a),
        Inst::Jmp(distance) => rows::jmp(*distance, a),
        Inst::JmpTo(s) => rows::jump_to(s, a),
        Inst::Call(distance) => rows::call(*distance, a),
        Inst::CallTo(s) => rows::call_to(s, a),
        Inst::Ret(n) => rows::ret(*n, a),
        Inst::Trap(v) => goes(Go::Fault(*v), a),
        Inst::Mul(size, s) => products::mul(*size, s, a),
        Inst::ImulWide(size, s) => products::imul_wide(*size, s, a),
        Inst::Imul2(size, d, s) => products::imul2(*size, *d, s, a),
        Inst::Imul3(size, d, s, k) => products::imul3(*size, *d, s, *k, a),
        Inst::Div(size, s) => products::div(*size, s, a),
        Inst::Idiv(size, s) => products::idiv(*size, s, a),
        Inst::Shift(op, size, d, by) => shifts::shift(*op, *size, d, by, a),
        Inst::DShift(left, d, g, by) => shifts::double_shift(*left, d, *g, by, a),
        Inst::Bit(op, size, d, s) => bits::bit(*op, *size, d, s, a),
        Inst::Scan(up, size, d, s, tz) => bits::scan(*up, *size, *d, s, *tz, a),
        Inst::Carry(op) => rows::carry(*op, a),
        Inst::Str(op, size, r, _) => strings::string(*op, *size, *r, a),
    }
}
