//! The words of an operation's result and flags.

ghost use Rattle.std.specs.Prelude.{◌≡◌, IfOk};
ghost use Rattle.dream_words.specs.Words.{IsSize};
ghost use Rattle.lift_alu.specs.Words.{low_word, top_word, even_word, zero_word, below_word, below_with_carry_word, overflow_word, six_words, sum_words, difference_words, add_words, adc_words, sub_words, sbb_words, logic_words, part_words, alu_words};
ghost use Rattle.c_words.specs.Built.{bin as bin_of};
ghost use Rattle.lift_alu.specs.Lifts.{LiftsAlu};

use crate::condition::set;
use c_words::{and, bin, cmp, copy_word, fn1, name, num, or, word_if};
use dream_words::Name;
use micro_ir::{Bin, Cmp, Expr, Fn1};
use std::alloc::{AllocError, Global};
use x86_inst::AluOp;

/// The words of a result and of the carry, parity, zero, sign and overflow flag after it.
#[derive(Drop)]
pub struct AluLift {
    pub result: Expr,
    pub c: Expr,
    pub p: Expr,
    pub z: Expr,
    pub s: Expr,
    pub o: Expr,
}

/// The words of an operation on the low bits of two words. `Adc` and `Sbb` read the carry flag's
/// word; for `Cmp` the result is the difference.
pub fn lift_alu<const BITS: u32>(
    alloc: Global,
    op: AluOp,
    a: Expr,
    b: Expr,
) -> Result<AluLift, AllocError>
    requires { IsSize BITS }
    ensures words { IfOk result (λ l. l ≡ alu_words op BITS a b) }
    ensures lifts { IfOk result (λ l. LiftsAlu op BITS a b l) }
{
    let x = low::<BITS>(alloc, a)?;
    let y = low::<BITS>(alloc, b)?;
    on_parts::<BITS>(alloc, op, &x, &y)
}

// An operation on two low parts.
fn on_parts<const BITS: u32>(
    alloc: Global,
    op: AluOp,
    x: &Expr,
    y: &Expr,
) -> Result<AluLift, AllocError>
    requires { IsSize BITS }
    ensures { IfOk result (λ l. l ≡ part_words op BITS x.now y.now) }
{
    match op {
        AluOp::Add => add::<BITS>(alloc, x, y),
        AluOp::Or => logic::<BITS>(alloc, Bin::Or, x, y),
        AluOp::Adc => adc::<BITS>(alloc, x, y),
        AluOp::Sbb => sbb::<BITS>(alloc, x, y),
        AluOp::And => logic::<BITS>(alloc, Bin::And, x, y),
        AluOp::Sub => sub::<BITS>(alloc, x, y),
        AluOp::Xor => logic::<BITS>(alloc, Bin::Xor, x, y),
        AluOp::Cmp => sub::<BITS>(alloc, x, y),
    }
}

// x + y.
fn add<const BITS: u32>(alloc: Global, x: &Expr, y: &Expr) -> Result<AluLift, AllocError>
    requires { IsSize BITS }
    ensures { IfOk result (λ l. l ≡ add_words BITS x.now y.now) }
{
    let r = low::<BITS>(alloc, joined(alloc, Bin::Add, x, y)?)?;
    let c = below(alloc, &r, x)?;
    of_sum::<BITS>(alloc, x, y, r, c)
}

// x + y + cf.
fn adc<const BITS: u32>(alloc: Global, x: &Expr, y: &Expr) -> Result<AluLift, AllocError>
    requires { IsSize BITS }
    ensures { IfOk result (λ l. l ≡ adc_words BITS x.now y.now) }
{
    let sum = joined(alloc, Bin::Add, x, y)?;
    let r = low::<BITS>(alloc, bin(alloc, Bin::Add, sum, name(Name::Flag(0)))?)?;
    let c = below_with_carry(alloc, &r, x)?;
    of_sum::<BITS>(alloc, x, y, r, c)
}

// x - y.
fn sub<const BITS: u32>(alloc: Global, x: &Expr, y: &Expr) -> Result<AluLift, AllocError>
    requires { IsSize BITS }
    ensures { IfOk result (λ l. l ≡ sub_words BITS x.now y.now) }
{
    let r = low::<BITS>(alloc, joined(alloc, Bin::Sub, x, y)?)?;
    let c = below(alloc, x, y)?;
    of_difference::<BITS>(alloc, x, y, r, c)
}

// x - y - cf.
fn sbb<const BITS: u32>(alloc: Global, x: &Expr, y: &Expr) -> Result<AluLift, AllocError>
    requires { IsSize BITS }
    ensures { IfOk result (λ l. l ≡ sbb_words BITS x.now y.now) }
{
    let difference = joined(alloc, Bin::Sub, x, y)?;
    let r = low::<BITS>(
        alloc,
        bin(alloc, Bin::Sub, difference, name(Name::Flag(0)))?,
    )?;
    let c = below_with_carry(alloc, x, y)?;
    of_difference::<BITS>(alloc, x, y, r, c)
}

// A bitwise operation, which clears CF and OF.
fn logic<const BITS: u32>(alloc: Global, op: Bin, x: &Expr, y: &Expr) -> Result<AluLift, AllocError>
    requires { IsSize BITS }
    ensures { IfOk result (λ l. l ≡ logic_words op BITS x.now y.now) }
{
    let r = joined(alloc, op, x, y)?;
    with_flags::<BITS>(alloc, r, num(0), num(0))
}

// The sum r of x and y, with its carry.
fn of_sum<const BITS: u32>(
    alloc: Global,
    x: &Expr,
    y: &Expr,
    r: Expr,
    c: Expr,
) -> Result<AluLift, AllocError>
    requires { IsSize BITS }
    ensures { IfOk result (λ l. l ≡ sum_words BITS x.now y.now r c) }
{
    let o = overflow::<BITS>(alloc, x, &r, y, &r)?;
    with_flags::<BITS>(alloc, r, c, o)
}

// The difference r of x and y, with its borrow.
fn of_difference<const BITS: u32>(
    alloc: Global,
    x: &Expr,
    y: &Expr,
    r: Expr,
    c: Expr,
) -> Result<AluLift, AllocError>
    requires { IsSize BITS }
    ensures { IfOk result (λ l. l ≡ difference_words BITS x.now y.now r c) }
{
    let o = overflow::<BITS>(alloc, x, y, x, &r)?;
    with_flags::<BITS>(alloc, r, c, o)
}

// A result with its flags, of which the carry and the overflow are given.
fn with_flags<const BITS: u32>(
    alloc: Global,
    r: Expr,
    c: Expr,
    o: Expr,
) -> Result<AluLift, AllocError>
    requires { IsSize BITS }
    ensures { IfOk result (λ l. l ≡ six_words BITS r c o) }
{
    let p = even(alloc, &r)?;
    let z = zero(alloc, &r)?;
    let s = top::<BITS>(alloc, copy_word(alloc, &r)?)?;
    Ok(AluLift {
        result: r,
        c,
        p,
        z,
        s,
        o,
    })
}

// Whether the low byte has an even number of ones.
fn even(alloc: Global, e: &Expr) -> Result<Expr, AllocError>
    ensures { IfOk result (λ r. r ≡ even_word e.now) }
{
    fn1(alloc, Fn1::Par, copy_word(alloc, e)?)
}

// Whether a word is 0.
fn zero(alloc: Global, e: &Expr) -> Result<Expr, AllocError>
    ensures { IfOk result (λ r. r ≡ zero_word e.now) }
{
    word_if(alloc, cmp(Cmp::Eq, copy_word(alloc, e)?, num(0)))
}

// The low bits of a word.
fn low<const BITS: u32>(alloc: Global, e: Expr) -> Result<Expr, AllocError>
    requires { IsSize BITS }
    ensures { IfOk result (λ r. r ≡ low_word BITS e) }
{
    if BITS == 32 {
        return Ok(e);
    }
    bin(alloc, Bin::And, e, num(u32::MAX >> (32 - BITS)))
}

// The top bit of a low part.
fn top<const BITS: u32>(alloc: Global, e: Expr) -> Result<Expr, AllocError>
    requires { IsSize BITS }
    ensures { IfOk result (λ r. r ≡ top_word BITS e) }
{
    bin(alloc, Bin::Shr, e, num(BITS - 1))
}

// An operator of copies of two words.
fn joined(alloc: Global, op: Bin, x: &Expr, y: &Expr) -> Result<Expr, AllocError>
    ensures { IfOk result (λ r. r ≡ bin_of op x.now y.now) }
{
    let x = copy_word(alloc, x)?;
    let y = copy_word(alloc, y)?;
    bin(alloc, op, x, y)
}

// Whether a is below b.
fn below(alloc: Global, a: &Expr, b: &Expr) -> Result<Expr, AllocError>
    ensures { IfOk result (λ r. r ≡ below_word a.now b.now) }
{
    let a = copy_word(alloc, a)?;
    let b = copy_word(alloc, b)?;
    word_if(alloc, cmp(Cmp::Lt, a, b))
}

// Whether a is below b and the carry.
fn below_with_carry(alloc: Global, a: &Expr, b: &Expr) -> Result<Expr, AllocError>
    ensures { IfOk result (λ r. r ≡ below_with_carry_word a.now b.now) }
{
    let less = cmp(Cmp::Lt, copy_word(alloc, a)?, copy_word(alloc, b)?);
    let equal = cmp(Cmp::Eq, copy_word(alloc, a)?, copy_word(alloc, b)?);
    let carried = and(alloc, equal, set(0))?;
    word_if(alloc, or(alloc, less, carried)?)
}

// Whether the top bits of a and b differ, and those of c and d.
fn overflow<const BITS: u32>(
    alloc: Global,
    a: &Expr,
    b: &Expr,
    c: &Expr,
    d: &Expr,
) -> Result<Expr, AllocError>
    requires { IsSize BITS }
    ensures { IfOk result (λ r. r ≡ overflow_word BITS a.now b.now c.now d.now) }
{
    let left = joined(alloc, Bin::Xor, a, b)?;
    let right = joined(alloc, Bin::Xor, c, d)?;
    top::<BITS>(alloc, bin(alloc, Bin::And, left, right)?)
}
