//! Names that are the same, and the names that Words read.

ghost use Rattle.std.specs.Prelude.{◌≡◌, ◌||◌};
ghost use Rattle.flow_passes.specs.Uses.{same_name, is_register, is_flag, word_reads, cond_reads};

use dream_words::Name;
use micro_ir::{Cond, Expr};

/// Whether two names are one.
pub fn same_name(m: Name, n: Name) -> bool
    ensures { result ≡ same_name m n }
{
    match m {
        Name::Reg(a) => same_register(a, n),
        Name::Flag(a) => same_flag(a, n),
        Name::Fs => matches!(n, Name::Fs),
        Name::Gs => matches!(n, Name::Gs),
        Name::T(a) => same_temp(a, n),
        Name::B(a) => same_test(a, n),
        Name::S(a) => same_selector(a, n),
    }
}

fn same_register(a: u8, n: Name) -> bool
    ensures { result ≡ same_name (Name.Reg a) n }
{
    match n {
        Name::Reg(b) => a == b,
        _ => false,
    }
}

fn same_flag(a: u8, n: Name) -> bool
    ensures { result ≡ same_name (Name.Flag a) n }
{
    match n {
        Name::Flag(b) => a == b,
        _ => false,
    }
}

fn same_temp(a: u32, n: Name) -> bool
    ensures { result ≡ same_name (Name.T a) n }
{
    match n {
        Name::T(b) => a == b,
        _ => false,
    }
}

fn same_test(a: u32, n: Name) -> bool
    ensures { result ≡ same_name (Name.B a) n }
{
    match n {
        Name::B(b) => a == b,
        _ => false,
    }
}

fn same_selector(a: u32, n: Name) -> bool
    ensures { result ≡ same_name (Name.S a) n }
{
    match n {
        Name::S(b) => a == b,
        _ => false,
    }
}

/// Whether a name is a register.
pub fn is_register(n: Name) -> bool
    ensures { result ≡ is_register n }
{
    matches!(n, Name::Reg(_))
}

/// Whether a name is a flag.
pub fn is_flag(n: Name) -> bool
    ensures { result ≡ is_flag n }
{
    matches!(n, Name::Flag(_))
}

/// Whether a Word reads a name.
#[cycle(reads)]
pub fn word_reads(e: &Expr, n: Name) -> bool
    ensures { result ≡ word_reads e.now n }
{
    match e {
        Expr::Num(_) => false,
        Expr::Name(m) => same_name(*m, n),
        Expr::Not(a) => word_reads(a.get(), n),
        Expr::Bin(_, a, b) => word_reads(a.get(), n) || word_reads(b.get(), n),
        Expr::Fn1(_, a) => word_reads(a.get(), n),
        Expr::Fn2(_, a, b) => word_reads(a.get(), n) || word_reads(b.get(), n),
        Expr::Fn3(_, a, b, c) => {
            word_reads(a.get(), n) || word_reads(b.get(), n) || word_reads(c.get(), n)
        }
        Expr::Pick(t, a, b) => {
            cond_reads(t.get(), n) || word_reads(a.get(), n) || word_reads(b.get(), n)
        }
    }
}

/// Whether a Cond reads a name.
#[cycle(reads)]
pub fn cond_reads(t: &Cond, n: Name) -> bool
    ensures { result ≡ cond_reads t.now n }
{
    match t {
        Cond::Cmp(_, a, b) => word_reads(a, n) || word_reads(b, n),
        Cond::Not(t) => cond_reads(t.get(), n),
        Cond::And(t, u) => cond_reads(t.get(), n) || cond_reads(u.get(), n),
        Cond::Or(t, u) => cond_reads(t.get(), n) || cond_reads(u.get(), n),
    }
}
