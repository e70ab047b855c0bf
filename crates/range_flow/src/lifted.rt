//! What is made for an address before its nodes have numbers in the flow.

ghost use Rattle.std.specs.Prelude.{◌≡◌, ◌^◌, ◌<◌, IfOk, OnOk};
ghost use Rattle.jump_tables.specs.Window.{IsWindow, HasNoWindow};
ghost use Rattle.range_flow.specs.Lifting.{CanBeLifted, IsLiftedIn};
ghost use Rattle.range_flow.specs.Nodes.{piece_of, leave_piece};
ghost use Rattle.range_flow.specs.Pieces.{IsInstructionPiece, IsWindowPiece};

use c_words::num;
use elf_image::{Image, Range};
use flow_graph::{instruction_successors, window_successors};
use jump_tables::{TableWindow, inst_at, window};
use lift::lift;
use lift_window::lift_window;
use micro_ir::{Block, End};
use smallvec::SmallVec;
use sqlite_items::Items;
use std::alloc::{AllocError, Global};

/// The blocks for an address, which name their own from 0 on and then the successors.
#[derive(Drop)]
pub struct Lifted {
    pub at: u32,
    pub blocks: Vec<Block>,
    pub successors: SmallVec<u32, 2>,
}

// What is made for the window that stands at an address.
fn window_lifted(
    alloc: Global,
    m: &Image,
    r: Range,
    at: u32,
    w: TableWindow,
) -> Result<Lifted, AllocError>
    requires { IsWindow m.now r at w }
    ensures piece { IfOk result (λ l. IsWindowPiece m.now r (piece_of l)) }
    ensures here { IfOk result (λ l. l.at ≡ at) }
{
    let blocks = lift_window(alloc, m, r, at, w)?;
    let successors = window_successors(alloc, m, &w)?;
    Ok(Lifted {
        at,
        blocks,
        successors,
    })
}

// What is made for the instruction that begins at an address where no window stands.
fn instruction_lifted(alloc: Global, m: &Image, r: Range, at: u32) -> Result<Lifted, AllocError>
    requires can { CanBeLifted m.now r at }
    requires no_window { HasNoWindow m.now r at }
    ensures piece { IfOk result (λ l. IsInstructionPiece m.now r (piece_of l)) }
    ensures here { IfOk result (λ l. l.at ≡ at) }
{
    match inst_at(m, &r, at) {
        Some((i, n)) => {
            let next = at.wrapping_add(u32::from(n));
            let blocks = lift(alloc, &i, at, next)?;
            let successors = instruction_successors(alloc, i, at, next)?;
            Ok(Lifted {
                at,
                blocks,
                successors,
            })
        }
        None => unreachable!(),
    }
}

/// What is made for a place of a range.
pub fn lifted_at(alloc: Global, m: &Image, r: Range, at: u32) -> Result<Lifted, AllocError>
    requires { CanBeLifted m.now r at }
    ensures lifted { IfOk result (IsLiftedIn m.now r) }
    ensures here { IfOk result (λ l. l.at ≡ at) }
{
    match window(m, &r, at) {
        Some(w) => window_lifted(alloc, m, r, at, w),
        None => instruction_lifted(alloc, m, r, at),
    }
}

/// The block that leaves for an address.
pub fn leave_to(alloc: Global, at: u32) -> Result<Lifted, AllocError>
    ensures piece { IfOk result (λ l. piece_of l ≡ leave_piece at) }
    ensures word { OnOk result (at < 2 ^ 32) }
{
    let block = Block {
        at,
        stmts: Items::new(alloc),
        end: End::Leave(num(at)),
    };
    Ok(Lifted {
        at,
        blocks: Vec::from_array(alloc, [block])?,
        successors: SmallVec::new(alloc),
    })
}
