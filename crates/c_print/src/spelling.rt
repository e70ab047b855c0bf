//! How names, operators and functions are spelled.

ghost use Rattle.std.specs.Prelude.{◌≡◌, ◌++◌};
ghost use Rattle.dream_words.specs.declared.machine.Name.TheVariants.{Reg, Flag};
ghost use Rattle.c_syntax.specs.Spelling.{cmp_text, decimal, fn1_text, fn2_text, fn3_text, ld_text, name_text, op_text, st_text};
ghost use Rattle.c_print.specs.Page.{puts};

use crate::digits::put_decimal;
use crate::page::Page;
use c_syntax::{CBin, CCmp, CFn1, CFn2, CFn3};
use dream_words::{Name, Width};

fn register(n: u8) -> &'static [u8]
    ensures { result.now ≡ name_text (Reg n) }
{
    match n {
        0 => b"eax",
        1 => b"ecx",
        2 => b"edx",
        3 => b"ebx",
        4 => b"esp",
        5 => b"ebp",
        6 => b"esi",
        7 => b"edi",
        _ => b"eax",
    }
}

fn flag(n: u8) -> &'static [u8]
    ensures { result.now ≡ name_text (Flag n) }
{
    match n {
        0 => b"cf",
        1 => b"pf",
        2 => b"zf",
        3 => b"sf",
        4 => b"of",
        _ => b"cf",
    }
}

/// Puts the name of a local, by the letter of its kind and its number.
pub(crate) fn put_local(letter: &[u8], n: u32, page: &mut Page)
    ensures { page.new ≡ puts page.old (letter.now ++ decimal n) }
{
    page.put(letter);
    put_decimal(n, page);
}

/// Puts a name.
pub(crate) fn put_name(n: Name, page: &mut Page)
    ensures { page.new ≡ puts page.old (name_text n) }
{
    match n {
        Name::Reg(n) => page.put(register(n)),
        Name::Flag(n) => page.put(flag(n)),
        Name::Fs => page.put(b"fsbase"),
        Name::Gs => page.put(b"gsbase"),
        Name::T(n) => put_local(b"t", n, page),
        Name::B(n) => put_local(b"b", n, page),
        Name::S(n) => put_local(b"s", n, page),
    }
}

/// An operator.
pub(crate) fn operator(op: CBin) -> &'static [u8]
    ensures { result.now ≡ op_text op }
{
    match op {
        CBin::Add => b"+",
        CBin::Sub => b"-",
        CBin::Mul => b"*",
        CBin::And => b"&",
        CBin::Or => b"|",
        CBin::Xor => b"^",
        CBin::Shl => b"<<",
        CBin::Shr => b">>",
    }
}

/// A comparison.
pub(crate) fn comparison(op: CCmp) -> &'static [u8]
    ensures { result.now ≡ cmp_text op }
{
    match op {
        CCmp::Eq => b"==",
        CCmp::Ne => b"!=",
        CCmp::Lt => b"<",
        CCmp::Le => b"<=",
    }
}

/// A function of one word.
pub(crate) fn of_one(f: CFn1) -> &'static [u8]
    ensures { result.now ≡ fn1_text f }
{
    match f {
        CFn1::Sx1 => b"sx1",
        CFn1::Sx2 => b"sx2",
        CFn1::Par => b"par",
        CFn1::Bsf => b"bsf",
        CFn1::Bsr => b"bsr",
    }
}

/// A function of two words.
pub(crate) fn of_two(f: CFn2) -> &'static [u8]
    ensures { result.now ≡ fn2_text f }
{
    match f {
        CFn2::Sar => b"sar",
        CFn2::Lts => b"lts",
        CFn2::Mulhu => b"mulhu",
        CFn2::Mulhs => b"mulhs",
    }
}

/// A function of three words.
pub(crate) fn of_three(f: CFn3) -> &'static [u8]
    ensures { result.now ≡ fn3_text f }
{
    match f {
        CFn3::Divubad => b"divubad",
        CFn3::Divuq => b"divuq",
        CFn3::Divur => b"divur",
        CFn3::Divsbad => b"divsbad",
        CFn3::Divsq => b"divsq",
        CFn3::Divsr => b"divsr",
    }
}

/// A load of so many bytes.
pub(crate) fn load(width: Width) -> &'static [u8]
    ensures { result.now ≡ ld_text width }
{
    match width {
        Width::B => b"ld1",
        Width::H => b"ld2",
        Width::W => b"ld4",
    }
}

/// A store of so many bytes.
pub(crate) fn store(width: Width) -> &'static [u8]
    ensures { result.now ≡ st_text width }
{
    match width {
        Width::B => b"st1",
        Width::H => b"st2",
        Width::W => b"st4",
    }
}
