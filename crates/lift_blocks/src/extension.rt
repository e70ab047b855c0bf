//! Words extended by their signs.

ghost use Rattle.std.specs.Prelude.{◌≡◌, IfOk};
ghost use Rattle.lift_blocks.specs.Extended.{extended as extended_of};

use c_words::fn1;
use micro_ir::{Expr, Fn1};
use std::alloc::{AllocError, Global};
use x86_inst::Size;

/// A word extended by its sign from a size.
pub fn extended(alloc: Global, size: Size, e: Expr) -> Result<Expr, AllocError>
    ensures { IfOk result (λ r. r ≡ extended_of size e) }
{
    match size {
        Size::B => fn1(alloc, Fn1::Sx1, e),
        Size::H => fn1(alloc, Fn1::Sx2, e),
        Size::W => Ok(e),
    }
}
