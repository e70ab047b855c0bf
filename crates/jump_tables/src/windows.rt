//! The window that stands at an address.

ghost use Rattle.std.specs.Prelude.{◌≡◌, true, IfSome};
ghost use Rattle.x86_formed.specs.Formed.{is_formed, is_formed_operand};
ghost use Rattle.dream_words.specs.Words.{low_part};
ghost use Rattle.x86_model.specs.Operands.{bits_of};
ghost use Rattle.jump_tables.specs.Forms.{at_first};
ghost use Rattle.jump_tables.specs.Window.{split_of, IsWindowAt};
ghost use Rattle.jump_tables.specs.Found.{found, comparison_of, branch_of, comparison_at, split_at, goal_of, jump_from, window_from};

use crate::known::{Index, Known};
use crate::path::is_on_path;
use crate::reading::inst_at;
use crate::table::{TableWindow, is_frozen};
use dream_words::low;
use elf_image::{Image, Range};
use std::marker::Model;
use x86_inst::{AluOp, Inst, Operand, Size};

// The jump, and at most four instructions before it.
const MOST_STEPS: u32 = 5;

const MOST_ENTRIES: u64 = 1024;

/// A comparison of an index with a number, and the address after it.
#[derive(Drop)]
struct Comparison {
    index: Index,
    bound: u32,
    next: u32,
}

/// Where a branch after a comparison leads: where the index is too great, and else. How many indices aren't.
#[derive(Drop)]
struct Split {
    default: u32,
    path: u32,
    count: u64,
}

impl Model for Split {
    ghost use Rattle.jump_tables.specs.Window.{Split};

    ghost Value = { Split };

    ghost view = { λ s. record { default = s.default; path = s.path; count = s.count } };
}

// The instruction at an address, whose registers exist.
fn formed_at(m: &Image, r: &Range, at: u32) -> Option<(Inst, u8)>
    ensures found { result ≡ found m.now r.now at }
    ensures formed { IfSome result (λ d. is_formed d.0 ≡ true) }
{
    inst_at(m, r, at)
}

// A number taken to a size.
fn low_of(size: Size, v: u32) -> u32
    ensures { result ≡ low_part (bits_of size) v }
{
    match size {
        Size::B => low::<8>(v),
        Size::H => low::<16>(v),
        Size::W => low::<32>(v),
    }
}

// The index and the number that an instruction compares.
fn comparison_of(inst: Inst) -> Option<(Index, u32)>
    ensures { result ≡ comparison_of inst }
{
    match inst {
        Inst::Alu(AluOp::Cmp, size, operand, Operand::Imm(bound)) => match operand {
            Operand::Reg(_) | Operand::Mem(_) => Some((Index { size, operand }, bound)),
            Operand::Imm(_) => None,
        },
        _ => None,
    }
}

// The condition and the distance of a branch.
fn branch_of(inst: Inst) -> Option<(u8, u32)>
    ensures { result ≡ branch_of inst }
{
    match inst {
        Inst::Jcc(condition, distance) => Some((condition.0, distance)),
        _ => None,
    }
}

// Where a jump by a word goes.
fn goal_of(inst: Inst) -> Option<Operand>
    ensures { result ≡ goal_of inst }
{
    match inst {
        Inst::JmpTo(goal) => Some(goal),
        _ => None,
    }
}

// The comparison that begins at an address.
#[tactic(auto, unfolding(crate::specs::Found::comparison_at))]
fn comparison_at(m: &Image, r: &Range, at: u32) -> Option<Comparison>
    ensures found { result ≡ comparison_at m.now r.now at }
    ensures formed { IfSome result (λ c. is_formed_operand c.index.operand ≡ true) }
{
    let (inst, size) = formed_at(m, r, at)?;
    let (index, bound) = comparison_of(inst)?;
    Some(Comparison {
        index,
        bound,
        next: at.wrapping_add(u32::from(size)),
    })
}

// Where a branch with a condition leads after a comparison with k. By A and BE there are k + 1 indices that aren't too great,
// by AE and B there are k. (Intel SDM vol. 2, Jcc.)
fn split_of(condition: u8, k: u32, target: u32, next: u32) -> Option<Split>
    ensures { result ≡ split_of condition k target next }
{
    let (default, path, count) = match condition {
        7 => (target, next, u64::from(k) + 1),
        3 => (target, next, u64::from(k)),
        6 => (next, target, u64::from(k) + 1),
        2 => (next, target, u64::from(k)),
        _ => return None,
    };
    Some(Split {
        default,
        path,
        count,
    })
}

// Where the branch after a comparison leads.
#[tactic(auto, unfolding(crate::specs::Found::split_at))]
fn split_at(m: &Image, r: &Range, c: &Comparison) -> Option<Split>
    ensures { result ≡ split_at m.now r.now c.now }
{
    let (inst, size) = formed_at(m, r, c.next)?;
    let (condition, distance) = branch_of(inst)?;
    let next = c.next.wrapping_add(u32::from(size));
    let bound = low_of(c.index.size, c.bound);
    split_of(condition, bound, next.wrapping_add(distance), next)
}

// The address of the jump to which a path leads, with at most four instructions, and its table.
fn jump_from(m: &Image, r: &Range, index: &Index, path: u32) -> Option<(u32, u32)>
    requires { is_formed_operand index.now.operand ≡ true }
    ensures { result ≡ jump_from m.now r.now index.now 5 (at_first index.now) path }
{
    let mut known = Known::at_first(index);
    let mut at = path;
    for _step in 0..MOST_STEPS {
        let (inst, size) = formed_at(m, r, at)?;
        if let Some(goal) = goal_of(inst) {
            let table = known.table(&goal)?;
            return Some((at, table));
        }
        if !is_on_path(&inst) {
            return None;
        }
        known = known.after(index, inst);
        at = at.wrapping_add(u32::from(size));
    }
    None
}

// The window of a comparison.
#[tactic(auto, unfolding(crate::specs::Found::window_from))]
fn window_from(m: &Image, r: &Range, c: &Comparison) -> Option<TableWindow>
    requires { is_formed_operand c.now.index.operand ≡ true }
    ensures { result ≡ window_from m.now r.now c.now }
{
    let split = split_at(m, r, c)?;
    let (jump, table) = jump_from(m, r, &c.index, split.path)?;
    if split.count == 0 || split.count > MOST_ENTRIES {
        return None;
    }
    let count = split.count as u32;
    if !is_frozen(m, table, count) {
        return None;
    }
    Some(TableWindow {
        default: split.default,
        table,
        count,
        jump,
        path: split.path,
    })
}

/// The window that stands at an address, or None where none does.
pub fn window(m: &Image, r: &Range, at: u32) -> Option<TableWindow>
    ensures { IsWindowAt m.now r.now at result }
{
    let comparison = comparison_at(m, r, at)?;
    window_from(m, r, &comparison)
}
