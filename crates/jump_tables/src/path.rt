//! The instructions of a path, and which registers they write.

ghost use Rattle.std.specs.Prelude.{◌≡◌};
ghost use Rattle.jump_tables.specs.Forms.{is_on_path, whole, whole_of, written, is_part_of};

use x86_inst::{AluOp, Count, Inst, Operand, ShiftOp, Size};

/// Whether an instruction may stand on a path.
pub(crate) fn is_on_path(inst: &Inst) -> bool
    ensures { result ≡ is_on_path inst.now }
{
    match inst {
        Inst::Mov(_, Operand::Reg(_), _) => true,
        Inst::Movx(signed, _, _, _, _) => !*signed,
        Inst::Lea(_, _, _) => true,
        Inst::Shift(ShiftOp::Shl, _, d, Count::Imm(n)) => {
            !matches!(d, Operand::Mem(_)) || *n % 32 == 0
        }
        Inst::Alu(AluOp::Add, _, Operand::Reg(_), Operand::Imm(_)) => true,
        _ => false,
    }
}

// The 32-bit register of which a register of a size is a part.
fn whole(size: Size, n: u8) -> u8
    ensures { result ≡ whole size n }
{
    match size {
        Size::B if n >= 4 => n - 4,
        Size::B | Size::H | Size::W => n,
    }
}

fn whole_of(size: Size, operand: Operand) -> Option<u8>
    ensures { result ≡ whole_of size operand }
{
    match operand {
        Operand::Reg(n) => Some(whole(size, n)),
        Operand::Mem(_) => None,
        Operand::Imm(_) => None,
    }
}

/// The 32-bit register of which an instruction of a path writes a part.
pub(crate) fn written(inst: Inst) -> Option<u8>
    ensures { result ≡ written inst }
{
    match inst {
        Inst::Mov(size, d, _) => whole_of(size, d),
        Inst::Movx(_, _, to, d, _) => Some(whole(to, d)),
        Inst::Lea(size, d, _) => Some(whole(size, d)),
        Inst::Shift(_, size, d, _) => whole_of(size, d),
        Inst::Alu(_, size, d, _) => whole_of(size, d),
        _ => None,
    }
}

/// Whether a register is that of an operand, or one of its address.
pub(crate) fn is_part_of(size: Size, operand: &Operand, register: Option<u8>) -> bool
    ensures { result ≡ is_part_of size operand.now register }
{
    match register {
        None => false,
        Some(r) => match operand {
            Operand::Reg(n) => whole(size, *n) == r,
            Operand::Mem(m) => m.base == Some(r) || m.index == Some(r),
            Operand::Imm(_) => false,
        },
    }
}
