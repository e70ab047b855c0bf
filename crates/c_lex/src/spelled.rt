//! Whether some bytes spell a token.

ghost use Rattle.std.specs.Prelude.{◌≡◌};
ghost use Rattle.std.specs.Str.{bytes_eq};
ghost use Rattle.dream_words.specs.declared.machine.Name.TheVariants.{Reg, Flag};
ghost use Rattle.c_syntax.specs.Spelling.{cmp_text, fn1_text, fn2_text, fn3_text, ld_text, name_text, op_text, spelling, st_text};

use crate::numbers::{is_function, is_local, is_number};
use c_syntax::{CBin, CCmp, CFn1, CFn2, CFn3, Token};
use dream_words::{Name, Width};

fn register(n: u8) -> &'static [u8]
    ensures { result.now ≡ name_text (Reg n) }
{
    match n {
        0 => b"eax",
        1 => b"ecx",
        2 => b"edx",
        3 => b"ebx",
        4 => b"esp",
        5 => b"ebp",
        6 => b"esi",
        7 => b"edi",
        _ => b"eax",
    }
}

fn flag(n: u8) -> &'static [u8]
    ensures { result.now ≡ name_text (Flag n) }
{
    match n {
        0 => b"cf",
        1 => b"pf",
        2 => b"zf",
        3 => b"sf",
        4 => b"of",
        _ => b"cf",
    }
}

/// An operator.
fn operator(op: CBin) -> &'static [u8]
    ensures { result.now ≡ op_text op }
{
    match op {
        CBin::Add => b"+",
        CBin::Sub => b"-",
        CBin::Mul => b"*",
        CBin::And => b"&",
        CBin::Or => b"|",
        CBin::Xor => b"^",
        CBin::Shl => b"<<",
        CBin::Shr => b">>",
    }
}

/// A comparison.
fn comparison(op: CCmp) -> &'static [u8]
    ensures { result.now ≡ cmp_text op }
{
    match op {
        CCmp::Eq => b"==",
        CCmp::Ne => b"!=",
        CCmp::Lt => b"<",
        CCmp::Le => b"<=",
    }
}

/// A function of one word.
fn of_one(f: CFn1) -> &'static [u8]
    ensures { result.now ≡ fn1_text f }
{
    match f {
        CFn1::Sx1 => b"sx1",
        CFn1::Sx2 => b"sx2",
        CFn1::Par => b"par",
        CFn1::Bsf => b"bsf",
        CFn1::Bsr => b"bsr",
    }
}

/// A function of two words.
fn of_two(f: CFn2) -> &'static [u8]
    ensures { result.now ≡ fn2_text f }
{
    match f {
        CFn2::Sar => b"sar",
        CFn2::Lts => b"lts",
        CFn2::Mulhu => b"mulhu",
        CFn2::Mulhs => b"mulhs",
    }
}

/// A function of three words.
fn of_three(f: CFn3) -> &'static [u8]
    ensures { result.now ≡ fn3_text f }
{
    match f {
        CFn3::Divubad => b"divubad",
        CFn3::Divuq => b"divuq",
        CFn3::Divur => b"divur",
        CFn3::Divsbad => b"divsbad",
        CFn3::Divsq => b"divsq",
        CFn3::Divsr => b"divsr",
    }
}

/// A load of so many bytes.
fn load(width: Width) -> &'static [u8]
    ensures { result.now ≡ ld_text width }
{
    match width {
        Width::B => b"ld1",
        Width::H => b"ld2",
        Width::W => b"ld4",
    }
}

/// A store of so many bytes.
fn store(width: Width) -> &'static [u8]
    ensures { result.now ≡ st_text width }
{
    match width {
        Width::B => b"st1",
        Width::H => b"st2",
        Width::W => b"st4",
    }
}

fn is_name(name: Name, bytes: &[u8]) -> bool
    ensures { result ≡ bytes_eq bytes.now (name_text name) }
{
    match name {
        Name::Reg(n) => bytes == register(n),
        Name::Flag(n) => bytes == flag(n),
        Name::Fs => bytes == b"fsbase".as_slice(),
        Name::Gs => bytes == b"gsbase".as_slice(),
        Name::T(n) => is_local(b"t", n, bytes),
        Name::B(n) => is_local(b"b", n, bytes),
        Name::S(n) => is_local(b"s", n, bytes),
    }
}

/// Whether some bytes spell a token.
pub(crate) fn is_spelled(token: Token, bytes: &[u8]) -> bool
    ensures { result ≡ bytes_eq bytes.now (spelling token) }
{
    match token {
        Token::Open => bytes == b"(".as_slice(),
        Token::Close => bytes == b")".as_slice(),
        Token::Begin => bytes == b"{".as_slice(),
        Token::End => bytes == b"}".as_slice(),
        Token::Semicolon => bytes == b";".as_slice(),
        Token::Colon => bytes == b":".as_slice(),
        Token::Comma => bytes == b",".as_slice(),
        Token::Question => bytes == b"?".as_slice(),
        Token::Assign => bytes == b"=".as_slice(),
        Token::Tilde => bytes == b"~".as_slice(),
        Token::Bang => bytes == b"!".as_slice(),
        Token::Both => bytes == b"&&".as_slice(),
        Token::Either => bytes == b"||".as_slice(),
        Token::Op(op) => bytes == operator(op),
        Token::Compare(op) => bytes == comparison(op),
        Token::Fn1(f) => bytes == of_one(f),
        Token::Fn2(f) => bytes == of_two(f),
        Token::Fn3(f) => bytes == of_three(f),
        Token::Ld(width) => bytes == load(width),
        Token::St(width) => bytes == store(width),
        Token::Num(n) => is_number(n, bytes),
        Token::Name(name) => is_name(name, bytes),
        Token::Function(address) => is_function(address, bytes),
        Token::Ext => bytes == b"ext".as_slice(),
        Token::Trap => bytes == b"trap".as_slice(),
        Token::If => bytes == b"if".as_slice(),
        Token::Else => bytes == b"else".as_slice(),
        Token::Switch => bytes == b"switch".as_slice(),
        Token::Case => bytes == b"case".as_slice(),
        Token::Default => bytes == b"default".as_slice(),
        Token::While => bytes == b"while".as_slice(),
        Token::Do => bytes == b"do".as_slice(),
        Token::Break => bytes == b"break".as_slice(),
        Token::Return => bytes == b"return".as_slice(),
        Token::Void => bytes == b"void".as_slice(),
        Token::Uint32 => bytes == b"uint32_t".as_slice(),
        Token::Zero => bytes == b"0u".as_slice(),
        Token::One => bytes == b"1".as_slice(),
    }
}
