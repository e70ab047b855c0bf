//! What has been read of a Word or Cond.

use c_syntax::{CBin, CCmp, CCond, CExpr, CFn1, CFn2, CFn3};

/// How many locals of each kind are declared.
#[derive(Clone, Copy)]
pub struct Locals {
    pub temps: u32,
    pub bools: u32,
    pub selectors: u32,
}

/// A Word or a Cond.
#[derive(Drop)]
pub enum Item {
    Word(CExpr),
    Cond(CCond),
}

/// What may stand at a place.
#[derive(Clone, Copy)]
pub enum Wanted {
    Word,
    Cond,
    Either,
}

/// A function whose name was read.
#[derive(Clone, Copy)]
pub enum Call {
    One(CFn1),
    Two(CFn2),
    Three(CFn3),
}

/// A Word or Cond that is open: what has come of it, up to a part that is still open.
#[derive(Drop)]
pub enum Open {
    /// `(~`
    NotWord,
    /// `(!`
    NotCond,
    /// `(`, where this is wanted of the whole.
    First(Wanted),
    /// `(a op`
    Bin(CBin, CExpr),
    /// `(a cmp`
    Cmp(CCmp, CExpr),
    /// `(c &&`
    And(CCond),
    /// `(c ||`
    Or(CCond),
    /// `(c ?`
    PickFirst(CCond),
    /// `(c ? a :`
    PickSecond(CCond, CExpr),
    /// `f(`, a function of one word.
    One(CFn1),
    /// `f(`, a function of two words.
    TwoFirst(CFn2),
    /// `f(a,`
    TwoSecond(CFn2, CExpr),
    /// `f(`, a function of three words.
    ThreeFirst(CFn3),
    /// `f(a,`
    ThreeSecond(CFn3, CExpr),
    /// `f(a, b,`
    ThreeThird(CFn3, CExpr, CExpr),
}

/// Where the innermost part stands.
#[derive(Drop)]
pub enum State {
    /// It has yet to begin.
    Want(Wanted),
    /// Its `(` was read.
    Paren(Wanted),
    /// The name of its function was read.
    Call(Call),
    /// It is whole.
    Have(Item),
}

/// What a token makes of the innermost part: an open one may be put round it.
#[derive(Drop)]
pub struct Turn {
    pub round: Option<Open>,
    pub state: State,
}
