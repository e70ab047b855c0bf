//! What holds of the definitions alone, each law the contract of a function without code.

ghost use Rattle.range_flow.specs.Laws.{DiscoveredCover, FlowCounts, FlowIsGiven, FlowsAgree, PlannedFlowsAgree};

/// The flow of pieces that each do what the machine does agrees with it.
pub fn planned_flows_agree()
    ensures { PlannedFlowsAgree }
{}

/// The flow of a range agrees with the machine.
pub fn flows_agree()
    ensures { FlowsAgree }
{}

/// The flow of a range may be given to what makes a tree of it.
pub fn flow_is_given()
    ensures { FlowIsGiven }
{}

/// The flow of a range has as many stores and calls as the range has stores and asks.
pub fn flow_counts()
    ensures { FlowCounts }
{}

/// What discovery finds covers the range, and has at most 65,536 places.
pub fn discovered_cover()
    ensures { DiscoveredCover }
{}
