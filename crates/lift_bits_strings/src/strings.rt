//! Rounds of string instructions, and the test of ECX before them.

ghost use Rattle.std.specs.Prelude.{◌≡◌, ℕ, ◌^◌, ◌<◌, [], ◌∷◌, ◌++◌, IfOk, OnOk};
ghost use Rattle.dream_words.specs.Memory.{bytes_of};
ghost use Rattle.dream_words.specs.declared.machine.Name.TheVariants.{T};
ghost use Rattle.lift_alu.specs.Words.{alu_words};
ghost use Rattle.lift_blocks.specs.Flags.{sets_flags};
ghost use Rattle.lift_parts.specs.Lifted.{AreBlocksOf};
ghost use Rattle.lift_parts.specs.Parts.{reg as reg_of};
ghost use Rattle.micro_ir.specs.declared.flow.Stmt.TheVariants as stmt;
ghost use Rattle.lift_bits_strings.specs.Rounds.{source_word as source_word_of, body_stmts, where_so, raises, counts_down, step_stmts, round_end as round_end_of, round_block as round_block_of, test_block, with_test};
ghost use Rattle.x86_formed.specs.Formed.{HasSpelling};
ghost use Rattle.x86_inst.specs.declared.AluOp.TheVariants as alu;
ghost use Rattle.x86_inst.specs.declared.StrOp.TheVariants as op;
ghost use Rattle.x86_model.specs.Operands.{bits_of, width_of as width_by};
ghost use Rattle.x86_model.specs.WideRows.{repeats as repeats_by, steps_source as steps_source_of, steps_target as steps_target_of};

use c_words::{bin, cmp, name, num};
use dream_words::Name;
use graph_order::NodeId;
use lift_alu::{AluLift, lift_alu};
use lift_blocks::push_flags;
use lift_parts::{flag, reg, set_part, temp, width_of};
use micro_ir::{Bin, Block, Cmp, End, Expr, Stmt};
use sqlite_items::Items;
use std::alloc::{AllocError, Global};
use x86_inst::{AluOp, Inst, Rep, Seg, Size, StrOp};

// The registers of strings: ECX, ESI and EDI.
const COUNT: u8 = 1;

const SOURCE: u8 = 6;

const TARGET: u8 = 7;

// The address of the source: ESI with the segment's base.
fn source_word(alloc: Global, seg: Seg) -> Result<Expr, AllocError>
    ensures { IfOk result (λ e. e ≡ source_word_of seg) }
{
    match seg {
        Seg::None => Ok(reg(SOURCE)),
        Seg::Fs => bin(alloc, Bin::Add, reg(SOURCE), name(Name::Fs)),
        Seg::Gs => bin(alloc, Bin::Add, reg(SOURCE), name(Name::Gs)),
    }
}

// The words of a comparison at a size.
fn compared(alloc: Global, size: Size, a: Expr, b: Expr) -> Result<AluLift, AllocError>
    ensures { IfOk result (λ l. l ≡ alu_words alu.Cmp (bits_of size) a b) }
{
    match size {
        Size::B => lift_alu::<8>(alloc, AluOp::Cmp, a, b),
        Size::H => lift_alu::<16>(alloc, AluOp::Cmp, a, b),
        Size::W => lift_alu::<32>(alloc, AluOp::Cmp, a, b),
    }
}

// The source is read to t0.
fn push_source_read(
    alloc: Global,
    stmts: &mut Vec<Stmt>,
    size: Size,
    seg: Seg,
) -> Result<(), AllocError>
    ensures { OnOk result (stmts.new.items ≡ stmts.old.items ++ stmt.Load (T 0) (width_by size) (source_word_of seg) ∷ []) }
{
    stmts.push(Stmt::Load(Name::T(0), width_of(size), source_word(alloc, seg)?))?;
    Ok(())
}

// The target is read to a local.
fn push_target_read(stmts: &mut Vec<Stmt>, size: Size, local: u32) -> Result<(), AllocError>
    ensures { OnOk result (stmts.new.items ≡ stmts.old.items ++ stmt.Load (T local) (width_by size) (reg_of 7) ∷ []) }
{
    stmts.push(Stmt::Load(Name::T(local), width_of(size), reg(TARGET)))?;
    Ok(())
}

// A word is stored at the target.
fn push_target_store(stmts: &mut Vec<Stmt>, size: Size, e: Expr) -> Result<(), AllocError>
    ensures { OnOk result (stmts.new.items ≡ stmts.old.items ++ stmt.Store (width_by size) (reg_of 7) e ∷ []) }
{
    stmts.push(Stmt::Store(width_of(size), reg(TARGET), e))?;
    Ok(())
}

// MOVS.
fn push_move(alloc: Global, stmts: &mut Vec<Stmt>, size: Size, seg: Seg) -> Result<(), AllocError>
    ensures { OnOk result (stmts.new.items ≡ stmts.old.items ++ body_stmts op.Movs size seg) }
{
    push_source_read(alloc, stmts, size, seg)?;
    push_target_store(stmts, size, temp(0))
}

// LODS.
fn push_fetch(alloc: Global, stmts: &mut Vec<Stmt>, size: Size, seg: Seg) -> Result<(), AllocError>
    ensures { OnOk result (stmts.new.items ≡ stmts.old.items ++ body_stmts op.Lods size seg) }
{
    push_source_read(alloc, stmts, size, seg)?;
    stmts.push(set_part(alloc, size, 0, temp(0))?)?;
    Ok(())
}

// CMPS.
fn push_comparison(
    alloc: Global,
    stmts: &mut Vec<Stmt>,
    size: Size,
    seg: Seg,
) -> Result<(), AllocError>
    ensures { OnOk result (stmts.new.items ≡ stmts.old.items ++ body_stmts op.Cmps size seg) }
{
    push_source_read(alloc, stmts, size, seg)?;
    push_target_read(stmts, size, 1)?;
    push_flags(stmts, compared(alloc, size, temp(0), temp(1))?)
}

// SCAS.
fn push_search(alloc: Global, stmts: &mut Vec<Stmt>, size: Size, seg: Seg) -> Result<(), AllocError>
    ensures { OnOk result (stmts.new.items ≡ stmts.old.items ++ body_stmts op.Scas size seg) }
{
    push_target_read(stmts, size, 0)?;
    push_flags(stmts, compared(alloc, size, reg(0), temp(0))?)
}

// What a round reads, stores and compares.
fn push_body(
    alloc: Global,
    stmts: &mut Vec<Stmt>,
    op: StrOp,
    size: Size,
    seg: Seg,
) -> Result<(), AllocError>
    ensures { OnOk result (stmts.new.items ≡ stmts.old.items ++ body_stmts op size seg) }
{
    match op {
        StrOp::Movs => push_move(alloc, stmts, size, seg),
        StrOp::Stos => push_target_store(stmts, size, reg(0)),
        StrOp::Lods => push_fetch(alloc, stmts, size, seg),
        StrOp::Cmps => push_comparison(alloc, stmts, size, seg),
        StrOp::Scas => push_search(alloc, stmts, size, seg),
    }
}

// The size in bytes.
fn bytes(size: Size) -> u32
    ensures { result ≡ bytes_of (width_by size) }
{
    match size {
        Size::B => 1,
        Size::H => 2,
        Size::W => 4,
    }
}

// Where it steps, the register grows by the bytes of the size.
fn push_raise(
    alloc: Global,
    stmts: &mut Vec<Stmt>,
    steps: bool,
    size: Size,
    n: u8,
) -> Result<(), AllocError>
    ensures { OnOk result (stmts.new.items ≡ stmts.old.items ++ where_so steps (raises size n)) }
{
    if steps {
        stmts.push(Stmt::Set(
            Name::Reg(n),
            bin(alloc, Bin::Add, reg(n), num(bytes(size)))?,
        ))?;
        Ok(())
    } else {
        Ok(())
    }
}

// Where it repeats, ECX falls by 1.
fn push_count(alloc: Global, stmts: &mut Vec<Stmt>, counts: bool) -> Result<(), AllocError>
    ensures { OnOk result (stmts.new.items ≡ stmts.old.items ++ where_so counts counts_down) }
{
    if counts {
        stmts.push(Stmt::Set(Name::Reg(COUNT), bin(alloc, Bin::Sub, reg(COUNT), num(1))?))?;
        Ok(())
    } else {
        Ok(())
    }
}

// Whether ESI steps.
fn steps_source(op: StrOp) -> bool
    ensures { result ≡ steps_source_of op }
{
    matches!(op, StrOp::Movs | StrOp::Cmps | StrOp::Lods)
}

// Whether EDI steps.
fn steps_target(op: StrOp) -> bool
    ensures { result ≡ steps_target_of op }
{
    !matches!(op, StrOp::Lods)
}

// Whether the instruction repeats.
fn repeats(rep: Rep) -> bool
    ensures { result ≡ repeats_by rep }
{
    !matches!(rep, Rep::No)
}

// ESI and EDI step, and ECX counts down.
fn push_steps(
    alloc: Global,
    stmts: &mut Vec<Stmt>,
    op: StrOp,
    size: Size,
    rep: Rep,
) -> Result<(), AllocError>
    ensures { OnOk result (stmts.new.items ≡ stmts.old.items ++ step_stmts op size rep) }
{
    push_raise(alloc, stmts, steps_source(op), size, SOURCE)?;
    push_raise(alloc, stmts, steps_target(op), size, TARGET)?;
    push_count(alloc, stmts, repeats(rep))
}

// Where the run goes on after a round.
fn round_end(rep: Rep) -> End
    ensures { result ≡ round_end_of rep }
{
    match rep {
        Rep::No => End::Go(NodeId(1)),
        Rep::Rep => End::Go(NodeId(2)),
        Rep::Repe => End::Branch(cmp(Cmp::Ne, flag(2), num(0)), NodeId(2), NodeId(3)),
        Rep::Repne => End::Branch(cmp(Cmp::Eq, flag(2), num(0)), NodeId(2), NodeId(3)),
    }
}

// The block of a round.
fn round_block(
    alloc: Global,
    at: u32,
    op: StrOp,
    size: Size,
    rep: Rep,
    seg: Seg,
) -> Result<Block, AllocError>
    ensures { IfOk result (λ b. b ≡ round_block_of at op size rep seg) }
{
    let mut stmts = Vec::new(alloc);
    push_body(alloc, &mut stmts, op, size, seg)?;
    push_steps(alloc, &mut stmts, op, size, rep)?;
    Ok(Block {
        at,
        stmts: Items::from_vec(stmts),
        end: round_end(rep),
    })
}

/// MOVS, CMPS, STOS, LODS or SCAS at an address; of a repeated one the round, which comes after the test of ECX.
pub fn string(
    alloc: Global,
    at: u32,
    op: StrOp,
    size: Size,
    rep: Rep,
    seg: Seg,
) -> Result<Block, AllocError>
    ensures { IfOk result (λ b. (next : ℕ) → next < 2 ^ 32 → HasSpelling (Inst.Str op size rep seg) → AreBlocksOf (Inst.Str op size rep seg) at next (with_test (Inst.Str op size rep seg) at b)) }
{
    round_block(alloc, at, op, size, rep, seg)
}

/// The test of ECX before the rounds of a repeated string instruction at an address.
pub fn ecx_test(alloc: Global, at: u32) -> Result<Block, AllocError>
    ensures { IfOk result (λ b. b ≡ test_block at) }
{
    let left = cmp(Cmp::Ne, reg(COUNT), num(0));
    Ok(Block {
        at,
        stmts: Items::from_vec(Vec::new(alloc)),
        end: End::Branch(left, NodeId(1), NodeId(3)),
    })
}
