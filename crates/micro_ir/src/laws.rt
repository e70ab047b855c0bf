//! What holds of the definitions alone, each law the contract of a function without code.

ghost use Rattle.micro_ir.specs.Laws.{BlocksMove, FlowNamesDecide, MoreBlocksContinue, OnlyAddCalls, WorldsStay};

/// Statements, blocks and runs only add calls.
pub fn only_add_calls()
    ensures { OnlyAddCalls }
{}

/// A run of more blocks is the run of the first of them, and then of the others.
pub fn more_blocks_continue()
    ensures { MoreBlocksContinue }
{}

/// A block whose nodes are named anew does the same, and leads to the new nodes.
pub fn blocks_move()
    ensures { BlocksMove }
{}

/// The names that a flow may have decide the values of its Words and the truth of its Conds.
pub fn flow_names_decide()
    ensures { FlowNamesDecide }
{}

/// From a world a flow leads to worlds, and its Words have words as values.
pub fn worlds_stay()
    ensures { WorldsStay }
{}
