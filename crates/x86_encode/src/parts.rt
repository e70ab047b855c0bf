//! The parts that an instruction shows, whatever its kind.

ghost use Rattle.std.specs.Prelude.{◌≡◌};
ghost use Rattle.x86_encode.specs.Parts.{alu_digit, shift_digit, bit_digit, repeat_of, count_number, tz_repeat, no_parts, parts_of};

use x86_inst::{AluOp, BitOp, Count, Inst, Operand, Rep, Seg, ShiftOp, Size};

/// The parts of an instruction. Where it has none of a kind, they are 32 bits, nothing, 0 and
/// register 0.
#[derive(Clone, Copy)]
pub struct Parts {
    pub size: Size,
    /// The prefix byte of a repetition.
    pub repeat: Option<u8>,
    /// The segment of a string instruction.
    pub segment: Seg,
    /// The number of its operation in the opcode or the reg field, or of its condition.
    pub digit: u8,
    /// The register that it names by itself.
    pub reg: u8,
    pub first: Operand,
    pub second: Operand,
    /// Its number: a factor, a distance or a count.
    pub number: u32,
}

const NO_PARTS: Parts = Parts {
    size: Size::W,
    repeat: None,
    segment: Seg::None,
    digit: 0,
    reg: 0,
    first: Operand::Reg(0),
    second: Operand::Reg(0),
    number: 0,
};

fn alu_digit(op: AluOp) -> u8
    ensures { result ≡ alu_digit op }
{
    match op {
        AluOp::Add => 0,
        AluOp::Or => 1,
        AluOp::Adc => 2,
        AluOp::Sbb => 3,
        AluOp::And => 4,
        AluOp::Sub => 5,
        AluOp::Xor => 6,
        AluOp::Cmp => 7,
    }
}

fn shift_digit(op: ShiftOp) -> u8
    ensures { result ≡ shift_digit op }
{
    match op {
        ShiftOp::Rol => 0,
        ShiftOp::Ror => 1,
        ShiftOp::Shl => 4,
        ShiftOp::Shr => 5,
        ShiftOp::Sar => 7,
    }
}

fn bit_digit(op: BitOp) -> u8
    ensures { result ≡ bit_digit op }
{
    match op {
        BitOp::Bt => 4,
        BitOp::Bts => 5,
        BitOp::Btr => 6,
        BitOp::Btc => 7,
    }
}

fn repeat_of(rep: Rep) -> Option<u8>
    ensures { result ≡ repeat_of rep }
{
    match rep {
        Rep::No => None,
        Rep::Rep | Rep::Repe => Some(0xF3),
        Rep::Repne => Some(0xF2),
    }
}

fn count_number(count: Count) -> u32
    ensures { result ≡ count_number count }
{
    match count {
        Count::Imm(n) => u32::from(n),
        Count::One | Count::Cl => 0,
    }
}

/// The prefix byte of a scan for zeros at the end.
fn tz_repeat(tz: bool) -> Option<u8>
    ensures { result ≡ tz_repeat tz }
{
    if tz { Some(0xF3) } else { None }
}

impl Parts {
    fn sized(size: Size) -> Parts
        ensures { result ≡ record no_parts { size = size } }
    {
        Parts { size, ..NO_PARTS }
    }

    /// Of one operand.
    fn on(size: Size, first: Operand) -> Parts
        ensures { result ≡ record no_parts { size = size; first = first } }
    {
        Parts {
            size,
            first,
            ..NO_PARTS
        }
    }

    /// Of two operands.
    fn between(size: Size, first: Operand, second: Operand) -> Parts
        ensures { result ≡ record no_parts { size = size; first = first; second = second } }
    {
        Parts {
            size,
            first,
            second,
            ..NO_PARTS
        }
    }

    /// Of a number.
    fn of_number(number: u32) -> Parts
        ensures { result ≡ record no_parts { number = number } }
    {
        Parts { number, ..NO_PARTS }
    }

    fn with_digit(self, digit: u8) -> Parts
        ensures { result ≡ record self { digit = digit } }
    {
        Parts { digit, ..self }
    }

    fn with_register(self, reg: u8) -> Parts
        ensures { result ≡ record self { reg = reg } }
    {
        Parts { reg, ..self }
    }

    fn with_number(self, number: u32) -> Parts
        ensures { result ≡ record self { number = number } }
    {
        Parts { number, ..self }
    }

    fn with_repeat(self, repeat: Option<u8>) -> Parts
        ensures { result ≡ record self { repeat = repeat } }
    {
        Parts { repeat, ..self }
    }

    fn with_segment(self, segment: Seg) -> Parts
        ensures { result ≡ record self { segment = segment } }
    {
        Parts { segment, ..self }
    }

    /// The parts of an instruction.
    pub fn of(i: &Inst) -> Parts
        ensures { result ≡ parts_of i.now }
    {
        match *i {
            Inst::Alu(op, size, a, b) => Parts::between(size, a, b).with_digit(alu_digit(op)),
            Inst::Test(size, a, b) | Inst::Xchg(size, a, b) | Inst::Mov(size, a, b) => {
                Parts::between(size, a, b)
            }
            Inst::Inc(size, a) | Inst::Dec(size, a) | Inst::Not(size, a) | Inst::Neg(size, a) => {
                Parts::on(size, a)
            }
            Inst::Mul(size, a)
            | Inst::ImulWide(size, a)
            | Inst::Div(size, a)
            | Inst::Idiv(size, a) => { Parts::on(size, a) }
            Inst::Push(a) | Inst::Pop(a) | Inst::CallTo(a) | Inst::JmpTo(a) => {
                Parts::on(Size::W, a)
            }
            Inst::Imul3(size, reg, a, n) => Parts::on(size, a).with_register(reg).with_number(n),
            Inst::Jcc(cond, n) => Parts::of_number(n).with_digit(cond.0),
            Inst::Lea(size, reg, m) => Parts::on(size, Operand::Mem(m)).with_register(reg),
            Inst::Nop | Inst::Leave | Inst::Trap(_) | Inst::Carry(_) => NO_PARTS,
            Inst::Widen(size) | Inst::Spread(size) => Parts::sized(size),
            Inst::Str(_, size, rep, segment) => {
                Parts::sized(size)
                    .with_repeat(repeat_of(rep))
                    .with_segment(segment)
            }
            Inst::Shift(op, size, a, count) => {
                Parts::on(size, a)
                    .with_digit(shift_digit(op))
                    .with_number(count_number(count))
            }
            Inst::Ret(n) => Parts::of_number(u32::from(n)),
            Inst::Loop(n) | Inst::Jecxz(n) | Inst::Call(n) | Inst::Jmp(n) => Parts::of_number(n),
            Inst::Cmov(cond, size, reg, a) => {
                Parts::on(size, a).with_digit(cond.0).with_register(reg)
            }
            Inst::Set(cond, a) => Parts::on(Size::W, a).with_digit(cond.0),
            Inst::Bit(op, size, a, b) => Parts::between(size, a, b).with_digit(bit_digit(op)),
            Inst::DShift(_, a, reg, count) => {
                Parts::on(Size::W, a)
                    .with_register(reg)
                    .with_number(count_number(count))
            }
            Inst::Imul2(size, reg, a) | Inst::Movx(_, _, size, reg, a) => {
                Parts::on(size, a).with_register(reg)
            }
            Inst::Scan(_, size, reg, a, tz) => {
                Parts::on(size, a)
                    .with_register(reg)
                    .with_repeat(tz_repeat(tz))
            }
            Inst::Bswap(reg) => NO_PARTS.with_register(reg),
        }
    }
}
