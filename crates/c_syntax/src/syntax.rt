//! The functions of the C profile, as plain data.

use dream_words::{Name, Width};
use sqlite_items::{Boxed, Items};

/// An operator of two words: `+`, `-`, `*`, `&`, `|`, `^`, `<<` and `>>` (C99 6.5.5 to 6.5.7, 6.5.10
/// to 6.5.12). Results are taken modulo 2^32.
#[derive(Clone, Copy, PartialEq, Eq)]
pub enum CBin {
    Add,
    Sub,
    Mul,
    And,
    Or,
    Xor,
    /// To the left; stuck where the count is 32 or more.
    Shl,
    /// To the right, with zeros from above; stuck where the count is 32 or more.
    Shr,
}

/// A comparison of two words as unsigned numbers: `==`, `!=`, `<` and `<=` (C99 6.5.8, 6.5.9).
#[derive(Clone, Copy, PartialEq, Eq)]
pub enum CCmp {
    Eq,
    Ne,
    Lt,
    Le,
}

/// A function of one word.
#[derive(Clone, Copy, PartialEq, Eq)]
pub enum CFn1 {
    /// The low 8 bits, extended by their sign.
    Sx1,
    /// The low 16 bits, extended by their sign.
    Sx2,
    /// 1 where the low byte has an even number of ones, else 0.
    Par,
    /// The place of the lowest bit that is set; 31 for 0.
    Bsf,
    /// The place of the highest bit that is set; 0 for 0.
    Bsr,
}

/// A function of two words.
#[derive(Clone, Copy, PartialEq, Eq)]
pub enum CFn2 {
    /// A shift to the right with copies of the top bit, by 31 where the count is greater.
    Sar,
    /// 1 where the first is less than the second as signed numbers, else 0.
    Lts,
    /// The high word of the unsigned product.
    Mulhu,
    /// The high word of the signed product.
    Mulhs,
}

/// A division of a high and a low word, taken as one number, by a third word. Quotient and remainder
/// are 0 where the divisor is 0 or the quotient doesn't fit 32 bits. Signed ones truncate toward 0.
#[derive(Clone, Copy, PartialEq, Eq)]
pub enum CFn3 {
    /// 1 where the unsigned division has no quotient, else 0.
    Divubad,
    Divuq,
    Divur,
    /// 1 where the signed division has no quotient, else 0.
    Divsbad,
    Divsq,
    Divsr,
}

/// A Word: an expression whose value is a word of 32 bits (C99 6.5).
#[cycle(c_expr)]
#[derive(Drop)]
pub enum CExpr {
    Num(u32),
    Name(Name),
    /// The complement, `~` (C99 6.5.3.3).
    Not(Boxed<CExpr>),
    Bin(CBin, Boxed<CExpr>, Boxed<CExpr>),
    Fn1(CFn1, Boxed<CExpr>),
    Fn2(CFn2, Boxed<CExpr>, Boxed<CExpr>),
    /// The high word, the low word and the divisor.
    Fn3(CFn3, Boxed<CExpr>, Boxed<CExpr>, Boxed<CExpr>),
    /// The conditional operator, `c ? a : b` (C99 6.5.15).
    Pick(Boxed<CCond>, Boxed<CExpr>, Boxed<CExpr>),
}

/// A Cond: an expression that is true or false.
#[cycle(c_expr)]
#[derive(Drop)]
pub enum CCond {
    Cmp(CCmp, CExpr, CExpr),
    /// `!` (C99 6.5.3.3).
    Not(Boxed<CCond>),
    /// `&&`: the second part is evaluated where the first is true (C99 6.5.13).
    And(Boxed<CCond>, Boxed<CCond>),
    /// `||`: the second part is evaluated where the first is false (C99 6.5.14).
    Or(Boxed<CCond>, Boxed<CCond>),
}

/// A statement (C99 6.8).
#[cycle(c_stmt)]
#[derive(Drop)]
pub enum CStmt {
    /// An assignment.
    Set(Name, CExpr),
    /// A name is set to the bytes at an address, `n = ld4(a);`, extended by zeros.
    Load(Name, Width, CExpr),
    /// The low bytes of a word are put at an address, `st4(a, v);`.
    Store(Width, CExpr, CExpr),
    /// A call of a function that isn't printed, by its address.
    Ext(CExpr),
    /// The fault of a vector, where the word isn't 0.
    Trap(u32, CExpr),
    /// `if`, one or more arms, and a last `else` (C99 6.8.4.1).
    If(Items<CArm>, Option<Items<CStmt>>),
    /// A word, groups of values, and the default's body; each body ends in a `break` (C99 6.8.4.2).
    Switch(CExpr, Items<CGroup>, Items<CStmt>),
    /// `while (1)` (C99 6.8.5.1).
    Loop(Items<CStmt>),
    /// C99 6.8.5.1.
    While(CCond, Items<CStmt>),
    /// C99 6.8.5.2.
    DoWhile(Items<CStmt>, CCond),
    /// It leaves the nearest loop or switch (C99 6.8.6.3).
    Break,
    /// C99 6.8.6.4.
    Return,
}

/// A condition of an `if` or an `else if`, and its body.
#[cycle(c_stmt)]
#[derive(Drop)]
pub struct CArm {
    pub test: CCond,
    pub body: Items<CStmt>,
}

/// The values of a switch that share a body, one `case` each (C99 6.8.1).
#[cycle(c_stmt)]
#[derive(Drop)]
pub struct CGroup {
    pub values: Items<u32>,
    pub body: Items<CStmt>,
}

/// A function, named by its address, with its locals by their numbers of each kind (C99 6.9.1).
#[derive(Drop)]
pub struct CFun {
    pub address: u32,
    /// How many locals for words are declared.
    pub temps: u32,
    /// How many locals for the outcomes of tests are declared.
    pub bools: u32,
    /// How many locals that select where a loop goes on are declared.
    pub selectors: u32,
    pub body: Items<CStmt>,
}
