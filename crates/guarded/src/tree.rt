//! Trees, as plain data.

use cond_terms::Term;
use dream_words::Name;
use micro_ir::{Block, Cond, Expr};
use sqlite_items::{Boxed, Items};

/// What a name is set to.
#[derive(Drop)]
pub enum SetTo {
    Expr(Expr),
    /// 1 where the condition is true, else 0.
    Cond(Cond),
    /// 1 where the term is true, else 0.
    Term(Term),
}

/// A tree of statements. Variable v of a term is the local for tests numbered v.
#[cycle(tree)]
#[derive(Drop)]
pub enum Tree {
    /// Statements of the flow. Where its end goes on, what comes after the block follows.
    Block(Block),
    Seq(Items<Tree>),
    If(Term, Boxed<Tree>, Option<Boxed<Tree>>),
    /// By the value of a name: the first case that has it, else the last tree.
    Switch(Name, Items<TreeCase>, Boxed<Tree>),
    /// It is left by a Break alone, or where the run ends.
    Loop(Boxed<Tree>),
    While(Term, Boxed<Tree>),
    DoWhile(Boxed<Tree>, Term),
    /// It leaves the nearest Loop, While, DoWhile or Switch.
    Break,
    Set(Name, SetTo),
}

/// The values of a Switch that share a body.
#[cycle(tree)]
#[derive(Drop)]
pub struct TreeCase {
    pub values: Items<u32>,
    pub body: Tree,
}
