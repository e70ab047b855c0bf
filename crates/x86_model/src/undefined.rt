//! Which flags each instruction reads, and whether one of them is undefined.

ghost use Rattle.std.specs.Prelude.{◌≡◌, ◌/◌, ◌%◌};
ghost use Rattle.x86_model.specs.Undefined.{condition_flags, is_undefined as is_undefined_bit, some_undefined, reads_undefined as reads_undefined_flag};

use crate::effects;
use dream_words::{Bit, Flags};
use x86_inst::{AluOp, CarryOp, Cond, Inst};

/// The instruction reads a flag that is undefined (Intel SDM vol. 1, appendix A).
pub fn reads_undefined(i: &Inst, f: &Flags) -> bool
    ensures { result ≡ reads_undefined_flag i.now f.now }
{
    match i {
        Inst::Alu(AluOp::Adc, _, _, _) => is_undefined(f.c),
        Inst::Alu(AluOp::Sbb, _, _, _) => is_undefined(f.c),
        Inst::Carry(CarryOp::Flip) => is_undefined(f.c),
        Inst::Jcc(n, _) => condition_is_undefined(*n, f),
        Inst::Set(n, _) => condition_is_undefined(*n, f),
        Inst::Cmov(n, _, _, _) => condition_is_undefined(*n, f),
        _ => false,
    }
}

/// A flag that the condition reads is undefined.
fn condition_is_undefined(n: Cond, f: &Flags) -> bool
    ensures { result ≡ some_undefined (condition_flags n.0 f.now) }
{
    effects::condition(n, f).is_none()
}

fn is_undefined(b: Bit) -> bool
    ensures { result ≡ is_undefined_bit b }
{
    matches!(b, Bit::Undefined)
}
