//! Bits: tests of one, and the places of the lowest and the highest.

ghost use Rattle.std.specs.Prelude.{◌≡◌, ℕ, ◌-◌, ◌^◌, ◌<◌, [], ◌∷◌, ◌++◌, IfOk, OnOk};
ghost use Rattle.lift_blocks.specs.Ends.{goes_on as goes_on_of};
ghost use Rattle.lift_parts.specs.Lifted.{AreBlocksOf};
ghost use Rattle.lift_bits_strings.specs.BitForms.{index_word as index_word_of, one_bit as one_bit_of, old_bit as old_bit_of, bit_word as bit_word_of, keeps_bit, bit_stmts, place_word as place_word_of, scan_flag, scan_stmts};
ghost use Rattle.x86_formed.specs.Formed.{HasSpelling};
ghost use Rattle.x86_model.specs.Operands.{bits_of};
ghost use Rattle.x86_model.specs.Successors.{writes_bit};

use c_words::{bin, fn1, num, word_not};
use dream_words::Name;
use lift_blocks::goes_on;
use lift_parts::{push_pair_reads, push_reads, push_writes, raw_word, value_word};
use micro_ir::{Bin, Block, Expr, Fn1, Stmt};
use std::alloc::{AllocError, Global};
use x86_inst::{BitOp, Inst, Operand, Size};

// The index of the top bit.
fn top_index(size: Size) -> u32
    ensures { result ≡ bits_of size - 1 }
{
    match size {
        Size::B => 7,
        Size::H => 15,
        Size::W => 31,
    }
}

// The index of the bit, modulo the size.
fn index_word(alloc: Global, size: Size, s: Operand) -> Result<Expr, AllocError>
    ensures { IfOk result (λ e. e ≡ index_word_of size s) }
{
    let index = raw_word(alloc, size, s)?;
    bin(alloc, Bin::And, index, num(top_index(size)))
}

// A word with that bit alone.
fn one_bit(alloc: Global, size: Size, s: Operand) -> Result<Expr, AllocError>
    ensures { IfOk result (λ e. e ≡ one_bit_of size s) }
{
    let index = index_word(alloc, size, s)?;
    bin(alloc, Bin::Shl, num(1), index)
}

// The bit as it was.
fn old_bit(alloc: Global, size: Size, d: Operand, s: Operand) -> Result<Expr, AllocError>
    ensures { IfOk result (λ e. e ≡ old_bit_of size d s) }
{
    let value = value_word(alloc, size, d)?;
    let index = index_word(alloc, size, s)?;
    let shifted = bin(alloc, Bin::Shr, value, index)?;
    bin(alloc, Bin::And, shifted, num(1))
}

// The operand with its bit kept, set, cleared or flipped.
fn bit_word(
    alloc: Global,
    op: BitOp,
    size: Size,
    d: Operand,
    s: Operand,
) -> Result<Expr, AllocError>
    ensures { IfOk result (λ e. e ≡ bit_word_of op size d s) }
{
    let value = value_word(alloc, size, d)?;
    let bit = one_bit(alloc, size, s)?;
    match op {
        BitOp::Bt => Ok(value),
        BitOp::Bts => bin(alloc, Bin::Or, value, bit),
        BitOp::Btr => bin(alloc, Bin::And, value, word_not(alloc, bit)?),
        BitOp::Btc => bin(alloc, Bin::Xor, value, bit),
    }
}

// Every test of a bit but BT writes its operand.
fn writes(op: BitOp) -> bool
    ensures { result ≡ writes_bit op }
{
    !matches!(op, BitOp::Bt)
}

// Sets CF to the old bit.
fn push_old_bit(
    alloc: Global,
    stmts: &mut Vec<Stmt>,
    size: Size,
    d: Operand,
    s: Operand,
) -> Result<(), AllocError>
    ensures { OnOk result (stmts.new.items ≡ stmts.old.items ++ keeps_bit size d s) }
{
    stmts.push(Stmt::Set(Name::Flag(0), old_bit(alloc, size, d, s)?))?;
    Ok(())
}

// The block of BT, BTS, BTR or BTC.
fn bit_block(
    alloc: Global,
    at: u32,
    op: BitOp,
    size: Size,
    d: Operand,
    s: Operand,
) -> Result<Block, AllocError>
    ensures { IfOk result (λ b. b ≡ goes_on_of at (bit_stmts op size d s)) }
{
    let mut stmts = Vec::new(alloc);
    push_pair_reads(alloc, &mut stmts, size, d, s)?;
    push_old_bit(alloc, &mut stmts, size, d, s)?;
    if writes(op) {
        push_writes(alloc, &mut stmts, size, d, bit_word(alloc, op, size, d, s)?)?;
        Ok(goes_on(at, stmts))
    } else {
        Ok(goes_on(at, stmts))
    }
}

/// BT, BTS, BTR and BTC at an address: the bit at the index modulo the size goes to CF.
pub fn bit(
    alloc: Global,
    at: u32,
    op: BitOp,
    size: Size,
    d: Operand,
    s: Operand,
) -> Result<Block, AllocError>
    ensures { IfOk result (λ b. (next : ℕ) → next < 2 ^ 32 → HasSpelling (Inst.Bit op size d s) → AreBlocksOf (Inst.Bit op size d s) at next (b ∷ [])) }
{
    bit_block(alloc, at, op, size, d, s)
}

// The place of the lowest or the highest bit of a word that is set.
fn place_word(alloc: Global, up: bool, e: Expr) -> Result<Expr, AllocError>
    ensures { IfOk result (λ r. r ≡ place_word_of up e) }
{
    if up {
        fn1(alloc, Fn1::Bsf, e)
    } else {
        fn1(alloc, Fn1::Bsr, e)
    }
}

// Clears ZF, but for the spelling of TZCNT.
fn push_scan_flag(stmts: &mut Vec<Stmt>, tz: bool) -> Result<(), AllocError>
    ensures { OnOk result (stmts.new.items ≡ stmts.old.items ++ scan_flag tz) }
{
    if tz {
        Ok(())
    } else {
        stmts.push(Stmt::Set(Name::Flag(2), num(0)))?;
        Ok(())
    }
}

// The block of BSF or BSR.
fn scan_block(
    alloc: Global,
    at: u32,
    up: bool,
    size: Size,
    d: u8,
    s: Operand,
    tz: bool,
) -> Result<Block, AllocError>
    ensures { IfOk result (λ b. b ≡ goes_on_of at (scan_stmts up size d s tz)) }
{
    let place = place_word(alloc, up, value_word(alloc, size, s)?)?;
    let mut stmts = Vec::new(alloc);
    push_reads(alloc, &mut stmts, size, s)?;
    push_scan_flag(&mut stmts, tz)?;
    push_writes(alloc, &mut stmts, size, Operand::Reg(d), place)?;
    Ok(goes_on(at, stmts))
}

/// BSF (`up`) and BSR at an address; `tz` is the spelling of TZCNT, which leaves ZF undefined.
pub fn scan(
    alloc: Global,
    at: u32,
    up: bool,
    size: Size,
    d: u8,
    s: Operand,
    tz: bool,
) -> Result<Block, AllocError>
    ensures { IfOk result (λ b. (next : ℕ) → next < 2 ^ 32 → HasSpelling (Inst.Scan up size d s tz) → AreBlocksOf (Inst.Scan up size d s tz) at next (b ∷ [])) }
{
    scan_block(alloc, at, up, size, d, s, tz)
}
