//! Words by operands: registers, addresses and values.

ghost use Rattle.std.specs.Prelude.{◌≡◌, IfOk};
ghost use Rattle.lift_parts.specs.Parts.{number as number_of, reg as reg_word, flag as flag_word, temp as temp_word, low_word as low_word_of, part_word as part_word_of, with_index as with_index_of, with_base as with_base_of, with_segment as with_segment_of, address_word as address_word_of, raw_word as raw_word_of, value_word as value_word_of};
ghost use Rattle.x86_inst.specs.declared.Size.TheVariants.{B};
ghost use Rattle.x86_inst.specs.declared.Operand.TheVariants as operand;
ghost use Rattle.c_words.specs.Built.{num as num_of, bin as bin_of};
ghost use Rattle.dream_words.specs.Words.{low_part};
ghost use Rattle.x86_model.specs.Operands.{bits_of};
ghost use Rattle.c_syntax.specs.declared.syntax.CBin.TheVariants as op;

use c_words::{bin, name, num};
use dream_words::Name;
use micro_ir::{Bin, Expr};
use std::alloc::{AllocError, Global};
use x86_inst::{Mem, Operand, Seg, Size};

/// A number.
pub fn number(k: u32) -> Expr
    ensures { result ≡ number_of k }
{
    num(k)
}

/// A register of 32 bits.
pub fn reg(n: u8) -> Expr
    ensures { result ≡ reg_word n }
{
    name(Name::Reg(n))
}

/// A flag.
pub fn flag(n: u8) -> Expr
    ensures { result ≡ flag_word n }
{
    name(Name::Flag(n))
}

/// A local for words.
pub fn temp(n: u32) -> Expr
    ensures { result ≡ temp_word n }
{
    name(Name::T(n))
}

// The bits of a word that a mask keeps.
fn masked(alloc: Global, e: Expr, mask: u32) -> Result<Expr, AllocError>
    ensures { IfOk result (λ r. r ≡ bin_of op.And e (num_of mask)) }
{
    bin(alloc, Bin::And, e, num(mask))
}

// The second byte of a register and those above it.
fn high_bytes(alloc: Global, n: u8) -> Result<Expr, AllocError>
    ensures { IfOk result (λ r. r ≡ bin_of op.Shr (reg_word n) (num_of 8)) }
{
    bin(alloc, Bin::Shr, reg(n), num(8))
}

/// The low part of a word.
pub fn low_word(alloc: Global, size: Size, e: Expr) -> Result<Expr, AllocError>
    ensures { IfOk result (λ r. r ≡ low_word_of size e) }
{
    match size {
        Size::B => masked(alloc, e, 0xff),
        Size::H => masked(alloc, e, 0xffff),
        Size::W => Ok(e),
    }
}

// al, cl, dl, bl, ah, ch, dh and bh.
fn byte_word(alloc: Global, n: u8) -> Result<Expr, AllocError>
    ensures { IfOk result (λ r. r ≡ part_word_of B n) }
{
    if n < 4 {
        masked(alloc, reg(n), 0xff)
    } else {
        masked(alloc, high_bytes(alloc, n - 4)?, 0xff)
    }
}

/// A register of a size.
pub fn part_word(alloc: Global, size: Size, n: u8) -> Result<Expr, AllocError>
    ensures { IfOk result (λ r. r ≡ part_word_of size n) }
{
    match size {
        Size::B => byte_word(alloc, n),
        Size::H => masked(alloc, reg(n), 0xffff),
        Size::W => Ok(reg(n)),
    }
}

// The index of an address, times its scale, and the displacement.
fn with_index(alloc: Global, index: Option<u8>, scale: u8, disp: u32) -> Result<Expr, AllocError>
    ensures { IfOk result (λ r. r ≡ with_index_of index scale disp) }
{
    match index {
        None => Ok(number(disp)),
        Some(n) => {
            let product = bin(alloc, Bin::Mul, reg(n), number(scale as u32))?;
            bin(alloc, Bin::Add, product, number(disp))
        }
    }
}

// With a base besides.
fn with_base(alloc: Global, base: Option<u8>, e: Expr) -> Result<Expr, AllocError>
    ensures { IfOk result (λ r. r ≡ with_base_of base e) }
{
    match base {
        None => Ok(e),
        Some(n) => bin(alloc, Bin::Add, reg(n), e),
    }
}

// With the base of a segment besides.
fn with_segment(alloc: Global, seg: Seg, e: Expr) -> Result<Expr, AllocError>
    ensures { IfOk result (λ r. r ≡ with_segment_of seg e) }
{
    match seg {
        Seg::None => Ok(e),
        Seg::Fs => bin(alloc, Bin::Add, e, name(Name::Fs)),
        Seg::Gs => bin(alloc, Bin::Add, e, name(Name::Gs)),
    }
}

/// The address of a memory operand.
pub fn address_word(alloc: Global, m: Mem) -> Result<Expr, AllocError>
    ensures { IfOk result (λ r. r ≡ address_word_of m) }
{
    let e = with_index(alloc, m.index, m.scale, m.disp)?;
    let e = with_base(alloc, m.base, e)?;
    with_segment(alloc, m.seg, e)
}

// The value of a number at a size.
fn sized_number(size: Size, k: u32) -> Expr
    ensures { result ≡ num_of (low_part (bits_of size) k) }
{
    match size {
        Size::B => num(k & 0xff),
        Size::H => num(k & 0xffff),
        Size::W => num(k),
    }
}

// A word whose low part is a register of a size.
fn raw_register(alloc: Global, size: Size, n: u8) -> Result<Expr, AllocError>
    ensures { IfOk result (λ r. r ≡ raw_word_of size (operand.Reg n)) }
{
    match size {
        Size::B => raw_byte(alloc, n),
        Size::H => Ok(reg(n)),
        Size::W => Ok(reg(n)),
    }
}

// A word whose low byte is a register of a byte.
fn raw_byte(alloc: Global, n: u8) -> Result<Expr, AllocError>
    ensures { IfOk result (λ r. r ≡ raw_word_of B (operand.Reg n)) }
{
    if n < 4 {
        Ok(reg(n))
    } else {
        high_bytes(alloc, n - 4)
    }
}

/// A word whose low part is the value of an operand. The word of memory was read before.
pub fn raw_word(alloc: Global, size: Size, o: Operand) -> Result<Expr, AllocError>
    ensures { IfOk result (λ r. r ≡ raw_word_of size o) }
{
    match o {
        Operand::Reg(n) => raw_register(alloc, size, n),
        Operand::Mem(_) => Ok(temp(0)),
        Operand::Imm(k) => Ok(sized_number(size, k)),
    }
}

/// The value of an operand. The word of memory was read before.
pub fn value_word(alloc: Global, size: Size, o: Operand) -> Result<Expr, AllocError>
    ensures { IfOk result (λ r. r ≡ value_word_of size o) }
{
    match o {
        Operand::Reg(n) => part_word(alloc, size, n),
        Operand::Mem(_) => Ok(temp(0)),
        Operand::Imm(k) => Ok(sized_number(size, k)),
    }
}
