//! Flows, as plain data.

use c_syntax::{CCond, CExpr};
use dream_words::{Name, Width};
use graph_order::NodeId;
use sqlite_items::Items;

/// A simple statement. It does what the statement of the same name does in C.
#[derive(Drop)]
pub enum Stmt {
    Set(Name, CExpr),
    /// A name is set to the bytes at an address, extended by zeros.
    Load(Name, Width, CExpr),
    /// The low bytes of the second word are put at the address that the first one is.
    Store(Width, CExpr, CExpr),
    /// A call of the function at an address.
    Ext(CExpr),
    /// The fault of a vector, where the word isn't 0.
    Trap(u32, CExpr),
}

/// A value of a switch, and the node that it leads to.
#[derive(Clone, Copy)]
pub struct Case {
    pub value: u32,
    pub to: NodeId,
}

/// How a block ends.
#[derive(Drop)]
pub enum End {
    Go(NodeId),
    /// To the first node where the condition is true, else to the second.
    Branch(CCond, NodeId, NodeId),
    /// To the node of the first case that has the word's value; stuck where none has it.
    Switch(CExpr, Items<Case>),
    /// The function returns.
    Return,
    /// A call of the function at an address, whose answer is the returned state.
    Leave(CExpr),
}

/// Statements one after another, and an end. It stands for code at an address.
#[derive(Drop)]
pub struct Block {
    pub at: u32,
    pub stmts: Items<Stmt>,
    pub end: End,
}

/// Blocks, which are the nodes 0, 1 and so on, and the one that is entered first.
#[derive(Drop)]
pub struct Flow {
    pub entry: NodeId,
    pub blocks: Items<Block>,
}
