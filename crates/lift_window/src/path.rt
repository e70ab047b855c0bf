//! The statements along the path of a window.

ghost use Rattle.std.specs.Prelude.{◌≡◌, ◌+◌, ◌%◌, ◌^◌, ℕ, suc, true, IfOk, OnOk};
ghost use Rattle.x86_formed.specs.Formed.{HasSpelling};
ghost use Rattle.lift.specs.Given.{leaves_bare};
ghost use Rattle.lift_window.specs.Walk.{is_word_jump as is_word_jump_in, IsPathLifted, IsStepped, IsPut};

use elf_image::{Image, Range};
use jump_tables::{TableWindow, inst_at};
use lift::lift;
use micro_ir::Stmt;
use sqlite_items::Items;
use std::alloc::{AllocError, Global};
use x86_inst::Inst;

// No path has more instructions.
const MOST_INSTRUCTIONS: u32 = 4;

// Whether an instruction jumps by a word.
fn is_word_jump(i: &Inst) -> bool
    ensures { result ≡ is_word_jump_in i.now }
{
    matches!(i, Inst::JmpTo(_))
}

// Puts the statements of an instruction of a path at the end.
fn put(
    alloc: Global,
    stmts: &mut Items<Stmt>,
    i: &Inst,
    at: u32,
    next: u32,
) -> Result<(), AllocError>
    requires { leaves_bare i.now ≡ true }
    ensures { OnOk result (IsPut i.now at next stmts.old stmts.new) }
{
    let mut blocks = lift(alloc, i, at, next)?;
    match blocks.pop() {
        None => Ok(()),
        Some(block) => stmts.append(block.stmts),
    }
}

// Puts the statements of the instruction at an address of a path at the end, and says which address comes next. At the end
// of the path nothing is done.
fn step(
    alloc: Global,
    m: &Image,
    r: &Range,
    stmts: &mut Items<Stmt>,
    at: u32,
) -> Result<u32, AllocError>
    ensures { IfOk result (IsStepped m.now r.now at stmts.old stmts.new) }
{
    match inst_at(m, r, at) {
        None => Ok(at),
        Some((i, size)) => {
            if is_word_jump(&i) {
                return Ok(at);
            }
            let next = at.wrapping_add(u32::from(size));
            put(alloc, stmts, &i, at, next)?;
            Ok(next)
        }
    }
}

/// The statements of the instructions on the path of a window, one after another.
pub fn path_stmts(
    alloc: Global,
    m: &Image,
    r: &Range,
    w: &TableWindow,
) -> Result<Items<Stmt>, AllocError>
    ensures { IfOk result (IsPathLifted m.now r.now w.now) }
{
    let mut stmts = Items::new(alloc);
    let mut at = w.path;
    for _taken in 0..MOST_INSTRUCTIONS {
        at = step(alloc, m, r, &mut stmts, at)?;
    }
    Ok(stmts)
}
