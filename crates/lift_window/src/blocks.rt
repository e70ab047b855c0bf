//! The two blocks of a window.

ghost use Rattle.std.specs.Prelude.{◌≡◌, ◌++◌, ◌≤◌, IfOk};
ghost use Rattle.x86_inst.specs.declared.AluOp.TheVariants.{Cmp};
ghost use Rattle.x86_inst.specs.declared.Operand.TheVariants as o;
ghost use Rattle.c_words.specs.Built.{name as name_of};
ghost use Rattle.dream_words.specs.declared.machine.Name.TheVariants.{T};
ghost use Rattle.lift_parts.specs.Parts.{raw_word as raw_word_of};
ghost use Rattle.micro_ir.specs.declared.flow.End.TheVariants as end;
ghost use Rattle.x86_model.specs.Operands.{bits_of};
ghost use Rattle.lift_alu.specs.Words.{alu_words as alu_words_of, cond_words};
ghost use Rattle.lift.specs.Blocks.{alu_stmts};
ghost use Rattle.lift_window.specs.Window.{entry_cases as entry_cases_of};
ghost use Rattle.window_steps.specs.Knowledge.{is_above as is_above_of};
ghost use Rattle.window_blocks.specs.Shapes.{first_end as first_end_of, first_of, last_of, last_stmts as last_stmts_of};

use crate::parts::{Compared, Parts};
use c_words::name;
use dream_words::Name;
use graph_order::NodeId;
use lift_alu::{AluLift, lift_alu, lift_cond};
use lift_blocks::push_flags;
use lift_parts::{push_pair_reads, push_reads, raw_word, value_word};
use micro_ir::{Block, Case, Cond as Test, End, Stmt};
use sqlite_items::Items;
use std::alloc::{AllocError, Global};
use x86_inst::{AluOp, Cond, Operand, Size};

// The first node after the two blocks and the default.
const FIRST_TARGET: u32 = 3;

// The words of a comparison with a number.
fn compare_words(alloc: Global, c: Compared) -> Result<AluLift, AllocError>
    ensures { IfOk result (λ l. l ≡ alu_words_of Cmp (bits_of c.size) (raw_word_of c.size c.index) (raw_word_of c.size (o.Imm c.bound))) }
{
    let x = raw_word(alloc, c.size, c.index)?;
    let k = raw_word(alloc, c.size, Operand::Imm(c.bound))?;
    match c.size {
        Size::B => lift_alu::<8>(alloc, AluOp::Cmp, x, k),
        Size::H => lift_alu::<16>(alloc, AluOp::Cmp, x, k),
        Size::W => lift_alu::<32>(alloc, AluOp::Cmp, x, k),
    }
}

// The statements of a comparison with a number.
fn compare_stmts(alloc: Global, c: Compared) -> Result<Vec<Stmt>, AllocError>
    ensures { IfOk result (λ v. v.items ≡ alu_stmts Cmp c.size c.index (o.Imm c.bound)) }
{
    let words = compare_words(alloc, c)?;
    let mut stmts = Vec::new(alloc);
    push_pair_reads(alloc, &mut stmts, c.size, c.index, Operand::Imm(c.bound))?;
    push_flags(&mut stmts, words)?;
    Ok(stmts)
}

// Whether a branch goes to its target for an index that is too great: A and AE do.
fn is_above(c: Cond) -> bool
    ensures { result ≡ is_above_of c.0 }
{
    c.0 == 7 || c.0 == 3
}

// The end of the first block: to the default where the index is too great, else on.
fn first_end(above: bool, t: Test) -> End
    ensures { result ≡ first_end_of above t }
{
    if above {
        End::Branch(t, NodeId(2), NodeId(1))
    } else {
        End::Branch(t, NodeId(1), NodeId(2))
    }
}

/// The first block: the comparison, the copy of the index, and the branch.
pub fn first_block(alloc: Global, at: u32, p: Parts, saved: u32) -> Result<Block, AllocError>
    ensures { IfOk result (λ b. b ≡ first_of at p.compared.size p.compared.index p.condition.0 saved (cond_words p.condition.0) (alu_stmts Cmp p.compared.size p.compared.index (o.Imm p.compared.bound))) }
{
    let mut stmts = compare_stmts(alloc, p.compared)?;
    let copy = value_word(alloc, p.compared.size, p.compared.index)?;
    stmts.push(Stmt::Set(Name::T(saved), copy))?;
    let test = lift_cond(alloc, p.condition)?;
    Ok(Block {
        at,
        stmts: Items::from_vec(stmts),
        end: first_end(is_above(p.condition), test),
    })
}

// The cases of the values 0 to n - 1, each to its target.
fn entry_cases(alloc: Global, n: u32) -> Result<Vec<Case>, AllocError>
    requires { n ≤ 1024 }
    ensures { IfOk result (λ v. v.items ≡ entry_cases_of n) }
{
    let mut cases = Vec::new(alloc);
    for k in 0..n {
        cases.push(Case {
            value: k,
            to: NodeId(FIRST_TARGET + k),
        })?;
    }
    Ok(cases)
}

/// The statements of the second block: those of the path, and the read of the jump's word.
pub fn last_stmts(
    alloc: Global,
    path: Items<Stmt>,
    goal: Operand,
) -> Result<Items<Stmt>, AllocError>
    ensures { IfOk result (λ stmts. stmts ≡ last_stmts_of goal path) }
{
    let mut stmts = path;
    let mut read = Vec::new(alloc);
    push_reads(alloc, &mut read, Size::W, goal)?;
    stmts.append(Items::from_vec(read))?;
    Ok(stmts)
}

/// The second block, which switches over the copy of the index.
pub fn last_block(
    alloc: Global,
    at: u32,
    stmts: Items<Stmt>,
    saved: u32,
    count: u32,
) -> Result<Block, AllocError>
    requires { count ≤ 1024 }
    ensures { IfOk result (λ b. b ≡ record { at = at; stmts = stmts; end = end.Switch (name_of (T saved)) (entry_cases_of count) }) }
{
    let cases = entry_cases(alloc, count)?;
    Ok(Block {
        at,
        stmts,
        end: End::Switch(name(Name::T(saved)), Items::from_vec(cases)),
    })
}
