//! What holds of the definitions alone, each law the contract of a function without code.

ghost use Rattle.guarded.specs.Laws.{MoreTurnsContinue, TreesAreRuns, TreesMeanSo};

/// With more turns an outcome other than Going stays, and the calls of a run that goes on begin those
/// of the longer one, or that one is stuck.
pub fn more_turns_continue()
    ensures { MoreTurnsContinue }
{}

/// What a tree does is a run.
pub fn parts_are_runs()
    ensures { TreesAreRuns }
{}

/// What each kind of tree does, by its parts.
pub fn trees_mean_so()
    ensures { TreesMeanSo }
{}
