//! Where the run may go on, inside a range or not.

ghost use Rattle.std.specs.Prelude.{◌≡◌, ◌∷◌, [], if◌then◌else◌, IfOk};
ghost use Rattle.x86_model.specs.Successors.{successors_of};
ghost use Rattle.x86_model.specs.WideRows.{repeats};
ghost use Rattle.jump_tables.specs.Window.{window_successors as successors_of_window};

use elf_image::Image;
use jump_tables::TableWindow;
use smallvec::SmallVec;
use std::alloc::{AllocError, Global};
use x86_inst::{Inst, Rep};

// The successors of a string instruction.
fn string_successors(
    alloc: Global,
    repeat: Rep,
    at: u32,
    next: u32,
) -> Result<SmallVec<u32, 2>, AllocError>
    ensures { IfOk result (λ v. v.items ≡ (if repeats repeat then at ∷ next ∷ [] else next ∷ [])) }
{
    match repeat {
        Rep::No => SmallVec::from_slice(alloc, &[next]),
        Rep::Rep | Rep::Repe | Rep::Repne => SmallVec::from_slice(alloc, &[at, next]),
    }
}

/// The successors of an instruction at an address, with the next one, in order.
pub fn instruction_successors(
    alloc: Global,
    i: Inst,
    at: u32,
    next: u32,
) -> Result<SmallVec<u32, 2>, AllocError>
    ensures { IfOk result (λ v. v.items ≡ successors_of i at next) }
{
    match i {
        Inst::Jcc(_, distance) | Inst::Loop(distance) | Inst::Jecxz(distance) => {
            SmallVec::from_slice(alloc, &[next.wrapping_add(distance), next])
        }
        Inst::Jmp(distance) => SmallVec::from_slice(alloc, &[next.wrapping_add(distance)]),
        Inst::JmpTo(_) | Inst::Ret(_) | Inst::Trap(_) => Ok(SmallVec::new(alloc)),
        Inst::Str(_, _, repeat, _) => string_successors(alloc, repeat, at, next),
        _ => SmallVec::from_slice(alloc, &[next]),
    }
}

/// The successors of a window: its default, and then the target of each entry.
pub fn window_successors(
    alloc: Global,
    m: &Image,
    w: &TableWindow,
) -> Result<SmallVec<u32, 2>, AllocError>
    ensures { IfOk result (λ v. v.items ≡ successors_of_window m.now w.now) }
{
    let mut all = SmallVec::from_slice(alloc, &[w.default])?;
    for k in 0..w.count {
        all.push(w.target(m, k))?;
    }
    Ok(all)
}
