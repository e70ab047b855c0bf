//! What stands at a window: the comparison, the branch and the jump.

ghost use Rattle.std.specs.Prelude.{◌≡◌, Some};
ghost use Rattle.jump_tables.specs.Window.{IsWindow};
ghost use Rattle.lift_window.specs.Parts.{parts_in, compared_in, condition_in, goal_in, parts_of};

use elf_image::{Image, Range};
use jump_tables::{TableWindow, inst_at};
use x86_inst::{AluOp, Cond, Inst, Operand, Size};

/// What a comparison compares with a number.
#[derive(Clone, Copy)]
pub struct Compared {
    pub size: Size,
    pub index: Operand,
    pub bound: u32,
}

/// The parts of a window.
#[derive(Clone, Copy)]
pub struct Parts {
    pub compared: Compared,
    pub condition: Cond,
    pub goal: Operand,
}

// What a comparison with a number compares.
fn comparison(i: Inst) -> Option<Compared>
    ensures { result ≡ compared_in i }
{
    match i {
        Inst::Alu(AluOp::Cmp, size, index, Operand::Imm(bound)) => {
            Some(Compared { size, index, bound })
        }
        _ => None,
    }
}

// The condition of a branch.
fn condition(i: Inst) -> Option<Cond>
    ensures { result ≡ condition_in i }
{
    match i {
        Inst::Jcc(c, _) => Some(c),
        _ => None,
    }
}

// The operand of a jump by a word.
fn goal(i: Inst) -> Option<Operand>
    ensures { result ≡ goal_in i }
{
    match i {
        Inst::JmpTo(p) => Some(p),
        _ => None,
    }
}

// The parts in three instructions.
fn in_three(compare: Inst, branch: Inst, jump: Inst) -> Option<Parts>
    ensures { result ≡ parts_in compare branch jump }
{
    let compared = comparison(compare)?;
    let condition = condition(branch)?;
    let goal = goal(jump)?;
    Some(Parts {
        compared,
        condition,
        goal,
    })
}

/// The parts of the window that stands at an address.
pub fn parts_at(m: &Image, r: &Range, at: u32, w: &TableWindow) -> Option<Parts>
    ensures { (win : IsWindow m.now r.now at w.now) → result ≡ Some (parts_of win) }
{
    let (compare, size) = inst_at(m, r, at)?;
    let (branch, _) = inst_at(m, r, at.wrapping_add(u32::from(size)))?;
    let (jump, _) = inst_at(m, r, w.jump)?;
    in_three(compare, branch, jump)
}
