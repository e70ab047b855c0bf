//! Repeated string instructions: the test of ECX before the round.

ghost use Rattle.std.specs.Prelude.{◌≡◌, IfOk};
ghost use Rattle.lift_bits_strings.specs.Rounds.{has_rounds as has_rounds_of, with_test as with_test_of};

use lift_bits_strings::ecx_test;
use micro_ir::Block;
use std::alloc::{AllocError, Global};
use x86_inst::{Inst, Rep};

// Whether it is a repeated string instruction.
fn has_rounds(i: &Inst) -> bool
    ensures { result ≡ has_rounds_of i.now }
{
    match *i {
        Inst::Str(_, _, Rep::No, _) => false,
        Inst::Str(_, _, _, _) => true,
        _ => false,
    }
}

/// A block of an instruction, with the test of ECX before it where the instruction has rounds.
pub fn with_test(alloc: Global, i: &Inst, at: u32, b: Block) -> Result<Vec<Block>, AllocError>
    ensures { IfOk result (λ blocks. blocks.items ≡ with_test_of i.now at b) }
{
    if has_rounds(i) {
        let test = ecx_test(alloc, at)?;
        Ok(Vec::from_array(alloc, [test, b])?)
    } else {
        Ok(Vec::from_array(alloc, [b])?)
    }
}
