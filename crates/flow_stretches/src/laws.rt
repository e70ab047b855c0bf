//! What holds of the definitions alone, each law the contract of a function without code.

ghost use Rattle.flow_stretches.specs.Laws.{JoinedIsGiven, JoinedRuns};

/// The runs of a flow whose blocks were joined are those of the given one.
pub fn joined_runs()
    ensures { JoinedRuns }
{}

/// A flow whose blocks were joined may be given.
pub fn joined_is_given()
    ensures { JoinedIsGiven }
{}
