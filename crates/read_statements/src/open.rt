//! What has been read of a function.

use crate::values::Values;
use c_syntax::{CArm, CCond, CExpr, CGroup, CStmt};
use dream_words::{Name, Width};
use sqlite_items::Items;

/// A token that is always spelled alike.
#[derive(Clone, Copy)]
pub enum Mark {
    Open,
    Close,
    Begin,
    End,
    Semicolon,
    Colon,
    Comma,
    Assign,
    While,
    Break,
    Void,
    Zero,
}

/// What is wanted of the head of a function; its address, where it was read.
#[derive(Clone, Copy)]
pub enum Head {
    /// `void`
    Void,
    /// The name.
    Function,
    /// `(`
    Open(u32),
    /// `void` inside the parentheses.
    Nothing(u32),
    /// `)`
    Close(u32),
    /// `{`
    Begin(u32),
}

/// What is wanted of a declaration.
#[derive(Clone, Copy)]
pub enum Decl {
    /// A declaration, or the statements.
    Next,
    /// The name.
    Local,
    /// `=`
    Assign,
    /// `0u`
    Zero,
    /// `;`
    Semicolon,
}

/// What a Word or Cond is for.
#[derive(Drop)]
pub enum Use {
    /// The value of an assignment.
    Set(Name),
    /// The address of a load.
    Load(Name, Width),
    /// The address of a store.
    Address(Width),
    /// The value of a store at an address.
    Value(Width, CExpr),
    /// The address of a call.
    Ext,
    /// The word of a trap.
    Trap(u32),
    /// The word of a switch.
    Switch,
    /// The test of an arm after these.
    If(Items<CArm>),
    /// The test of a `while`.
    While,
    /// The test after a `do` and its Body.
    Do(Items<CStmt>),
}

/// A switch: its word, the groups so far, and the values that stand in it so far.
#[derive(Drop)]
pub struct Switching {
    pub word: CExpr,
    pub groups: Items<CGroup>,
    pub used: Values,
}

/// What a Body is the Body of.
#[derive(Drop)]
pub enum Nest {
    /// An arm, after these and its test.
    Arm(Items<CArm>, CCond),
    /// The last `else` of these arms.
    Else(Items<CArm>),
    /// `while (1)`
    Loop,
    /// A `while` of this test.
    While(CCond),
    /// `do`
    Do,
    /// A group of a switch, of these values.
    Group(Switching, Items<u32>),
    /// The default of a switch.
    Default(CExpr, Items<CGroup>),
}

/// A Body that is open round another: its statements before, and what the inner one is the Body of.
#[derive(Drop)]
pub struct Open {
    pub before: Items<CStmt>,
    pub nest: Nest,
}

/// A place in a Body that isn't in a Word or Cond.
#[derive(Drop)]
pub enum Point {
    /// A statement or `}`.
    Stmt,
    /// `=` after a name.
    Named(Name),
    /// A load or a Word after `=`.
    Assigned(Name),
    /// `(` before a Word or Cond.
    Called(Use),
    /// `(` after `trap`.
    TrapOpen,
    /// The number of a trap.
    TrapNumber,
    /// `,` after the number of a trap.
    TrapComma(u32),
    /// `(` after `while`.
    WhileOpen,
    /// `1` or a Cond.
    WhileTest,
    /// `)` after `1`.
    LoopClose,
    /// `{` of a Body.
    Begins(Nest),
    /// `else` or what follows an `if` of these arms.
    AfterArm(Items<CArm>),
    /// `if` or `{` after `else`.
    AfterElse(Items<CArm>),
    /// `while` after a `do` and its Body.
    AfterDo(Items<CStmt>),
    /// `{` of a switch.
    SwitchBegin(CExpr),
    /// `case` or `default`.
    Group(Switching),
    /// The number after `case`, in a group of these values so far.
    CaseNumber(Switching, Items<u32>),
    /// `:` after a number.
    CaseColon(Switching, Items<u32>),
    /// `case` or `{` after these values.
    AfterCase(Switching, Items<u32>),
    /// `break` after a group.
    GroupBreak(Switching),
    /// `;` after that.
    GroupSemicolon(Switching),
    /// `:` after `default`.
    DefaultColon(CExpr, Items<CGroup>),
    /// `break` that ends a switch.
    SwitchBreak(CStmt),
    /// `;` after that.
    SwitchSemicolon(CStmt),
    /// `}` of the switch.
    SwitchEnd(CStmt),
    /// `;` that ends a statement.
    Semicolon(CStmt),
}

/// What a token makes of a place.
#[derive(Drop)]
pub enum Turn {
    /// Another place.
    To(Point),
    /// A Word or Cond begins.
    Part(Use),
    /// A statement is whole.
    Done(CStmt),
    /// A Body begins.
    Opens(Nest),
    /// The Body ends.
    Ends,
}
