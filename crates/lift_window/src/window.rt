//! The blocks of a window.

ghost use Rattle.std.specs.Prelude.{IfOk};
ghost use Rattle.jump_tables.specs.Window.{IsWindow};
ghost use Rattle.lift_window.specs.Window.{AreWindowBlocks};

use crate::blocks::{first_block, last_block, last_stmts};
use crate::locals::unset;
use crate::parts::parts_at;
use crate::path::path_stmts;
use elf_image::{Image, Range};
use jump_tables::TableWindow;
use micro_ir::Block;
use std::alloc::{AllocError, Global};

/// The blocks of the window that stands at an address.
pub fn lift_window(
    alloc: Global,
    m: &Image,
    r: Range,
    at: u32,
    w: TableWindow,
) -> Result<Vec<Block>, AllocError>
    requires { IsWindow m.now r at w }
    ensures { IfOk result (λ blocks. AreWindowBlocks m.now r at w blocks.items) }
{
    match parts_at(m, &r, at, &w) {
        None => unreachable!(),
        Some(p) => {
            let path = path_stmts(alloc, m, &r, &w)?;
            let stmts = last_stmts(alloc, path, p.goal)?;
            let saved = unset(stmts.as_slice())?;
            let first = first_block(alloc, at, p, saved)?;
            let last = last_block(alloc, w.path, stmts, saved, w.count)?;
            Ok(Vec::from_array(alloc, [first, last])?)
        }
    }
}
