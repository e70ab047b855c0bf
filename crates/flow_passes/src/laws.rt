//! What holds of the definitions alone, each law the contract of a function without code.

ghost use Rattle.flow_passes.specs.Laws.{ChangedAgree, EndsSee, GoingAlikeKeepsRuns, KeepingComposes, KeepingCounts, ReadNamesDecide, StatementsSee};

/// The names that Words and Conds read decide their values.
pub fn read_names_decide()
    ensures { ReadNamesDecide }
{}

/// A statement does alike from worlds that are alike in what it reads.
pub fn statements_see()
    ensures { StatementsSee }
{}

/// An end leads alike from worlds that are alike in what it reads.
pub fn ends_see()
    ensures { EndsSee }
{}

/// Blocks that go alike keep the runs.
pub fn going_alike_keeps_runs()
    ensures { GoingAlikeKeepsRuns }
{}

/// What keeps a flow that keeps another keeps that one.
pub fn keeping_composes()
    ensures { KeepingComposes }
{}

/// A flow that keeps another has its stores and calls.
pub fn keeping_counts()
    ensures { KeepingCounts }
{}

/// What a flow agrees with, a flow agrees with that keeps it, or that joins its runs.
pub fn changed_agree()
    ensures { ChangedAgree }
{}
