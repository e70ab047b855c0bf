//! What holds of the definitions alone, each law the contract of a function without code.

ghost use Rattle.c_syntax.specs.AsC.{EvaluatesAsC, RunsAsC};
ghost use Rattle.c_syntax.specs.Prints.{PrintsSo};
ghost use Rattle.c_syntax.specs.RunLaws.{MoreTurnsContinue};
ghost use Rattle.c_syntax.specs.Stands.{CanonicalStands, OneFunction};

/// With more turns an outcome other than Going stays, and the calls of a run that goes on begin those
/// of the longer one, or that one is stuck.
pub fn more_turns_continue()
    ensures { MoreTurnsContinue }
{}

/// Words and Conds are evaluated as in C: only where needed, and a shift by 32 or more is stuck.
pub fn evaluates_as_c()
    ensures { EvaluatesAsC }
{}

/// Statements run as in C: what each of them does at its ends, its tests, its breaks and its groups.
pub fn runs_as_c()
    ensures { RunsAsC }
{}

/// The canonical text of a well-formed function stands for it.
pub fn canonical_stands()
    ensures { CanonicalStands }
{}

/// A text stands for at most one function.
pub fn one_function()
    ensures { OneFunction }
{}

/// Two functions have these canonical texts, letter by letter.
pub fn prints_so()
    ensures { PrintsSo }
{}
