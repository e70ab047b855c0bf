//! What stands at an address of a range.

ghost use Rattle.std.specs.Prelude.{◌≡◌, true, filter, IfOk, None};
ghost use Rattle.elf_image.specs.Range.{is_inside};
ghost use Rattle.x86_model.specs.Rows.{is_bare};
ghost use Rattle.jump_tables.specs.Window.{window_successors as successors_of_window};
ghost use Rattle.flow_graph.specs.Sites.{call_cause, cause_of, found_successors, found_cause, IsCode, IsSite};

use crate::place::Cause;
use crate::successors::{instruction_successors, window_successors};
use elf_image::{Image, Range};
use jump_tables::{TableWindow, window};
use smallvec::SmallVec;
use std::alloc::{AllocError, Global};
use x86_decode::{Decoded, decode};
use x86_inst::{Inst, Operand, Seg};

/// What stands at an address: the successors that are inside, in order, and the cause to refuse the function.
#[derive(Drop)]
pub(crate) struct Site {
    pub(crate) successors: SmallVec<u32, 2>,
    pub(crate) cause: Option<Cause>,
}

// Those of some addresses that are inside.
fn inside_of(alloc: Global, r: Range, all: &[u32]) -> Result<SmallVec<u32, 2>, AllocError>
    ensures { IfOk result (λ v. v.items ≡ filter (is_inside r) all.now) }
{
    let mut inside = SmallVec::new(alloc);
    for &address in all {
        if r.is_inside(address) {
            inside.push(address)?;
        }
    }
    Ok(inside)
}

// Whether a jump goes through an absolute address without registers and segment.
fn is_bare(s: Operand) -> bool
    ensures { result ≡ is_bare s }
{
    match s {
        Operand::Mem(m) => m.base.is_none() && m.index.is_none() && matches!(m.seg, Seg::None),
        _ => false,
    }
}

// The cause that a call of an address is.
fn call_cause(r: Range, target: u32) -> Option<Cause>
    ensures { result ≡ call_cause r target }
{
    if r.is_inside(target) && target != r.entry {
        Some(Cause::CallInside)
    } else {
        None
    }
}

// The cause that an instruction is, with the next address.
fn cause_of(r: Range, i: Inst, next: u32) -> Option<Cause>
    ensures { result ≡ cause_of r i next }
{
    match i {
        Inst::JmpTo(s) => {
            if is_bare(s) {
                None
            } else {
                Some(Cause::IndirectJump)
            }
        }
        Inst::Call(distance) => call_cause(r, next.wrapping_add(distance)),
        _ => None,
    }
}

// What stands at an address without a window, by what begins there.
fn instruction_site(alloc: Global, r: Range, at: u32, decoded: Decoded) -> Result<Site, AllocError>
    ensures successors { IfOk result (λ s. s.successors.items ≡ found_successors r at decoded) }
    ensures cause { IfOk result (λ s. s.cause ≡ found_cause r at decoded) }
{
    match decoded {
        Decoded::Inst(i, n) => {
            let next = at.wrapping_add(u32::from(n));
            let all = instruction_successors(alloc, i, at, next)?;
            let successors = inside_of(alloc, r, &all)?;
            let cause = cause_of(r, i, next);
            Ok(Site { successors, cause })
        }
        Decoded::Cut => Ok(Site {
            successors: SmallVec::new(alloc),
            cause: Some(Cause::Straddle),
        }),
        Decoded::None => Ok(Site {
            successors: SmallVec::new(alloc),
            cause: Some(Cause::Instruction),
        }),
    }
}

// What stands at the address of a window.
fn window_site(alloc: Global, m: &Image, r: Range, w: &TableWindow) -> Result<Site, AllocError>
    ensures successors { IfOk result (λ s. s.successors.items ≡ filter (is_inside r) (successors_of_window m.now w.now)) }
    ensures cause { IfOk result (λ s. s.cause ≡ None) }
{
    let all = window_successors(alloc, m, w)?;
    let successors = inside_of(alloc, r, &all)?;
    Ok(Site {
        successors,
        cause: None,
    })
}

/// What stands at an address of a range with its code: a window, or else what begins there.
pub(crate) fn site_at(
    alloc: Global,
    m: &Image,
    r: &Range,
    code: &[u8],
    at: u32,
) -> Result<Site, AllocError>
    requires code { IsCode m.now r.now code.now }
    requires inside { is_inside r.now at ≡ true }
    ensures { IfOk result (λ s. IsSite m.now r.now at s.successors.items s.cause) }
{
    match window(m, r, at) {
        Some(w) => window_site(alloc, m, *r, &w),
        None => {
            let decoded = decode(&code[(at - r.entry) as usize..]);
            instruction_site(alloc, *r, at, decoded)
        }
    }
}
