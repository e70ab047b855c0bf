//! What holds of the definitions alone, each law the contract of a function without code.

ghost use Rattle.run_parts.specs.Laws.{PartsAreRuns, EffectsAreRuns};

/// What is made of runs is a run.
pub fn parts_are_runs()
    ensures { PartsAreRuns }
{}

/// Each simple statement is a run.
pub fn effects_are_runs()
    ensures { EffectsAreRuns }
{}
