//! Which bits a Word can have.

ghost use Rattle.c_syntax.specs.declared.syntax.CBin.TheVariants.{Shl, Shr};
ghost use Rattle.word_rules.specs.Standing.{IsCoveredBy};
ghost use Rattle.word_rules.specs.Covers.{CoversBin, CoversFn1, CoversFn2, CoversFn3};

use crate::numbers::number;
use c_syntax::{CBin, CExpr, CFn1, CFn2, CFn3};

/// A mask of all bits.
const ALL: u32 = 0xffff_ffff;

/// A mask of the bits that the values of a Word can have.
pub fn known(e: &CExpr) -> u32
    ensures { IsCoveredBy e.now result }
{
    match e {
        CExpr::Num(n) => *n,
        CExpr::Name(_) => ALL,
        CExpr::Not(_) => ALL,
        CExpr::Bin(op, a, b) => {
            let first = known(a.get());
            let second = known(b.get());
            of_bin(*op, first, second, number(b.get()))
        }
        CExpr::Fn1(f, _) => of_fn1(*f),
        CExpr::Fn2(f, _, _) => of_fn2(*f),
        CExpr::Fn3(f, _, _, _) => of_fn3(*f),
        CExpr::Pick(_, a, b) => {
            let first = known(a.get());
            let second = known(b.get());
            first | second
        }
    }
}

/// A mask for an operator of two words, from masks of both; the second may be a number.
fn of_bin(op: CBin, a: u32, b: u32, number: Option<u32>) -> u32
    ensures { CoversBin op a b number result }
{
    match op {
        CBin::Add => ALL,
        CBin::Sub => ALL,
        CBin::Mul => ALL,
        CBin::And => a & b,
        CBin::Or => a | b,
        CBin::Xor => a | b,
        CBin::Shl => to_the_left(a, b, number),
        CBin::Shr => to_the_right(a, b, number),
    }
}

/// A mask for a shift to the left.
fn to_the_left(a: u32, b: u32, number: Option<u32>) -> u32
    ensures { CoversBin Shl a b number result }
{
    match number {
        Some(k) => CBin::Shl.apply(a, k).unwrap_or(0),
        None => ALL,
    }
}

/// A mask for a shift to the right.
fn to_the_right(a: u32, b: u32, number: Option<u32>) -> u32
    ensures { CoversBin Shr a b number result }
{
    match number {
        Some(k) => CBin::Shr.apply(a, k).unwrap_or(0),
        None => ALL,
    }
}

/// A mask for a function of one word.
fn of_fn1(f: CFn1) -> u32
    ensures { CoversFn1 f result }
{
    match f {
        CFn1::Par => 1,
        CFn1::Sx1 | CFn1::Sx2 | CFn1::Bsf | CFn1::Bsr => ALL,
    }
}

/// A mask for a function of two words.
fn of_fn2(f: CFn2) -> u32
    ensures { CoversFn2 f result }
{
    match f {
        CFn2::Lts => 1,
        CFn2::Sar | CFn2::Mulhu | CFn2::Mulhs => ALL,
    }
}

/// A mask for a division.
fn of_fn3(f: CFn3) -> u32
    ensures { CoversFn3 f result }
{
    match f {
        CFn3::Divubad => 1,
        CFn3::Divsbad => 1,
        CFn3::Divuq | CFn3::Divur | CFn3::Divsq | CFn3::Divsr => ALL,
    }
}
