//! The C profile: its functions as plain data, what they mean, and which texts stand for them. It is
//! given nothing. It promises that with more loop turns a run only continues, that the canonical text
//! of a well-formed function stands for it, and that no text stands for two functions.
#![tactic(auto)]

mod laws;
mod ops;
mod syntax;
mod token;

pub use laws::{
    canonical_stands, evaluates_as_c, more_turns_continue, one_function, prints_so, runs_as_c,
};
pub use syntax::{CArm, CBin, CCmp, CCond, CExpr, CFn1, CFn2, CFn3, CFun, CGroup, CStmt};
pub use token::Token;
