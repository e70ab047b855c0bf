//! The instruction of a form, made of what the bytes give.

ghost use Rattle.std.specs.Prelude.{◌≡◌, ◌<◌};
ghost use Rattle.x86_inst.specs.declared.Size.TheVariants.{W};
ghost use Rattle.x86_inst.specs.Table.{alu_op, bit_op, shift_op, compare_repeat, plain_repeat, O, M};
ghost use Rattle.x86_decode.specs.View.{fields_of, size_of, number_of, operand_of, count_of, rep_of, string_segment, inst_of};

use crate::fields::sign_extended;
use crate::forms::{Form, Immediate, Shifted, Sizing, Source};
use x86_inst::{AluOp, BitOp, Cond, Count, Inst, Mem, Operand, Rep, Seg, ShiftOp, Size, StrOp};

/// What the bytes give to the instruction.
#[derive(Clone, Copy)]
pub struct Fields {
    /// 32 bits, or 16 with the prefix 66.
    pub size: Size,
    pub segment: Seg,
    /// The byte F2 or F3.
    pub repeat: Option<u8>,
    /// The opcode's place in its row.
    pub low: u8,
    /// The reg field of ModRM, 0 where there is none.
    pub reg: u8,
    /// The r/m operand, register 0 where there is no ModRM.
    pub rm: Operand,
    /// The immediate as an unsigned number, 0 where there is none.
    pub imm: u32,
}

fn alu_op(n: u8) -> AluOp
    ensures { result ≡ alu_op n }
{
    match n {
        0 => AluOp::Add,
        1 => AluOp::Or,
        2 => AluOp::Adc,
        3 => AluOp::Sbb,
        4 => AluOp::And,
        5 => AluOp::Sub,
        6 => AluOp::Xor,
        _ => AluOp::Cmp,
    }
}

fn bit_op(n: u8) -> BitOp
    ensures { result ≡ bit_op n }
{
    match n {
        0 => BitOp::Bt,
        1 => BitOp::Bts,
        2 => BitOp::Btr,
        _ => BitOp::Btc,
    }
}

fn shift_op(n: u8) -> ShiftOp
    ensures { result ≡ shift_op n }
{
    match n {
        0 => ShiftOp::Rol,
        1 => ShiftOp::Ror,
        4 => ShiftOp::Shl,
        5 => ShiftOp::Shr,
        _ => ShiftOp::Sar,
    }
}

fn plain_repeat(repeat: Option<u8>) -> Rep
    ensures { result ≡ plain_repeat repeat }
{
    match repeat {
        None => Rep::No,
        Some(_) => Rep::Rep,
    }
}

fn compare_repeat(repeat: Option<u8>) -> Rep
    ensures { result ≡ compare_repeat repeat }
{
    match repeat {
        None => Rep::No,
        Some(b) => if b == 0xF3 { Rep::Repe } else { Rep::Repne },
    }
}

fn rep_of(op: StrOp, repeat: Option<u8>) -> Rep
    ensures { result ≡ rep_of op repeat }
{
    match op {
        StrOp::Cmps | StrOp::Scas => compare_repeat(repeat),
        StrOp::Movs | StrOp::Stos | StrOp::Lods => plain_repeat(repeat),
    }
}

/// The segment of the ESI operand, where there is one.
fn string_segment(op: StrOp, segment: Seg) -> Seg
    ensures { result ≡ string_segment op segment }
{
    match op {
        StrOp::Movs | StrOp::Cmps | StrOp::Lods => segment,
        StrOp::Stos | StrOp::Scas => Seg::None,
    }
}

impl Immediate {
    fn taken(self, size: Size, imm: u32) -> u32
        ensures { result ≡ number_of self size imm }
    {
        match self {
            Immediate::Plain => imm,
            Immediate::Extended => sign_extended(size, imm),
        }
    }
}

impl Fields {
    fn sized(&self, sizing: Sizing) -> Size
        ensures { result ≡ size_of sizing (fields_of self.now) }
    {
        match sizing {
            Sizing::Byte => Size::B,
            Sizing::Prefixed => self.size,
        }
    }

    /// The memory at the four bytes after the opcode.
    fn offset(&self) -> Operand
        ensures { result ≡ O (fields_of self.now) }
    {
        Operand::Mem(Mem {
            base: None,
            index: None,
            scale: 1,
            disp: self.imm,
            seg: self.segment,
        })
    }

    /// The address of the r/m operand, without a segment.
    fn address(&self) -> Mem
        ensures { result ≡ M (fields_of self.now) }
    {
        let none = Mem {
            base: None,
            index: None,
            scale: 1,
            disp: 0,
            seg: Seg::None,
        };
        match self.rm {
            Operand::Mem(m) => Mem {
                seg: Seg::None,
                ..m
            },
            _ => none,
        }
    }

    /// The operand at a place.
    fn operand(&self, source: Source, sizing: Sizing) -> Operand
        requires { self.now.low < 255 }
        ensures { result ≡ operand_of source (size_of sizing (fields_of self.now)) (fields_of self.now) }
    {
        match source {
            Source::Rm => self.rm,
            Source::Reg => Operand::Reg(self.reg),
            Source::Low => Operand::Reg(self.low),
            Source::AfterLow => Operand::Reg(self.low + 1),
            Source::Accumulator => Operand::Reg(0),
            Source::Imm(imm) => Operand::Imm(imm.taken(self.sized(sizing), self.imm)),
            Source::Offset => self.offset(),
        }
    }

    /// The operand of 32 bits at a place.
    fn word(&self, source: Source) -> Operand
        requires { self.now.low < 255 }
        ensures { result ≡ operand_of source W (fields_of self.now) }
    {
        match source {
            Source::Imm(imm) => Operand::Imm(imm.taken(Size::W, self.imm)),
            _ => self.operand(source, Sizing::Byte),
        }
    }

    fn count(&self, shifted: Shifted) -> Count
        ensures { result ≡ count_of shifted (fields_of self.now) }
    {
        match shifted {
            Shifted::ByOne => Count::One,
            Shifted::ByImm => Count::Imm((self.imm % 256) as u8),
            Shifted::ByCl => Count::Cl,
        }
    }

    fn distance(&self, imm: Immediate) -> u32
        ensures { result ≡ number_of imm W self.now.imm }
    {
        imm.taken(Size::W, self.imm)
    }
}

/// The instruction of a form.
pub fn build(form: Form, f: &Fields) -> Inst
    requires { f.now.low < 255 }
    ensures { result ≡ inst_of form (fields_of f.now) }
{
    match form {
        Form::AluByOpcode(z, a, b) => {
            Inst::Alu(alu_op(f.low), f.sized(z), f.operand(a, z), f.operand(b, z))
        }
        Form::AluByReg(z, a, b) => {
            Inst::Alu(alu_op(f.reg), f.sized(z), f.operand(a, z), f.operand(b, z))
        }
        Form::Inc(z, a) => Inst::Inc(f.sized(z), f.operand(a, z)),
        Form::Dec(z, a) => Inst::Dec(f.sized(z), f.operand(a, z)),
        Form::Push(a) => Inst::Push(f.word(a)),
        Form::Pop(a) => Inst::Pop(f.word(a)),
        Form::Imul3(imm) => Inst::Imul3(f.size, f.reg, f.rm, imm.taken(f.size, f.imm)),
        Form::Jcc(imm) => Inst::Jcc(Cond(f.low), f.distance(imm)),
        Form::Test(z, a, b) => Inst::Test(f.sized(z), f.operand(a, z), f.operand(b, z)),
        Form::Xchg(z, a, b) => Inst::Xchg(f.sized(z), f.operand(a, z), f.operand(b, z)),
        Form::Mov(z, a, b) => Inst::Mov(f.sized(z), f.operand(a, z), f.operand(b, z)),
        Form::Lea => Inst::Lea(f.size, f.reg, f.address()),
        Form::Nop => Inst::Nop,
        Form::Widen => Inst::Widen(f.size),
        Form::Spread => Inst::Spread(f.size),
        Form::Str(op, z) => {
            Inst::Str(
                op,
                f.sized(z),
                rep_of(op, f.repeat),
                string_segment(op, f.segment),
            )
        }
        Form::Shift(z, by) => Inst::Shift(shift_op(f.reg), f.sized(z), f.rm, f.count(by)),
        Form::RetImm => Inst::Ret((f.imm % 65_536) as u16),
        Form::Ret => Inst::Ret(0),
        Form::Leave => Inst::Leave,
        Form::Trap(vector) => Inst::Trap(vector),
        Form::Loop => Inst::Loop(f.distance(Immediate::Extended)),
        Form::Jecxz => Inst::Jecxz(f.distance(Immediate::Extended)),
        Form::Call => Inst::Call(f.imm),
        Form::Jmp(imm) => Inst::Jmp(f.distance(imm)),
        Form::Carry(op) => Inst::Carry(op),
        Form::Not(z) => Inst::Not(f.sized(z), f.rm),
        Form::Neg(z) => Inst::Neg(f.sized(z), f.rm),
        Form::Mul(z) => Inst::Mul(f.sized(z), f.rm),
        Form::ImulWide(z) => Inst::ImulWide(f.sized(z), f.rm),
        Form::Div(z) => Inst::Div(f.sized(z), f.rm),
        Form::Idiv(z) => Inst::Idiv(f.sized(z), f.rm),
        Form::CallTo => Inst::CallTo(f.rm),
        Form::JmpTo => Inst::JmpTo(f.rm),
        Form::Cmov => Inst::Cmov(Cond(f.low), f.size, f.reg, f.rm),
        Form::Set => Inst::Set(Cond(f.low), f.rm),
        Form::BitByOpcode => Inst::Bit(bit_op(f.low), f.size, f.rm, Operand::Reg(f.reg)),
        Form::BitByReg => {
            Inst::Bit(
                bit_op(f.reg.saturating_sub(4)),
                f.size,
                f.rm,
                Operand::Imm(f.imm),
            )
        }
        Form::DShift(left, by) => Inst::DShift(left, f.rm, f.reg, f.count(by)),
        Form::Imul2 => Inst::Imul2(f.size, f.reg, f.rm),
        Form::MovxByte(signed) => Inst::Movx(signed, Size::B, f.size, f.reg, f.rm),
        Form::MovxHalf(signed) => Inst::Movx(signed, Size::H, Size::W, f.reg, f.rm),
        Form::Scan(up) => Inst::Scan(up, f.size, f.reg, f.rm, up && f.repeat.is_some()),
        Form::Bswap => Inst::Bswap(f.low),
    }
}
