//! Flows of blocks: what instructions are lifted to, and what structuring starts from.
//! Given are words and conditions of the C profile, under the names that they have here.
//! Promised is what a flow means, when it is checked, and the value of a word in an environment.
#![tactic(auto)]

mod check;
mod env;
mod flow;
mod laws;

pub use c_syntax::{
    CBin as Bin, CCmp as Cmp, CCond as Cond, CExpr as Expr, CFn1 as Fn1, CFn2 as Fn2, CFn3 as Fn3,
};
pub use check::BadBlock;
pub use env::{Env, eval};
pub use flow::{Block, Case, End, Flow, Stmt};
pub use laws::{blocks_move, flow_names_decide, more_blocks_continue, only_add_calls, worlds_stay};
