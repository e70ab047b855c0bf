//! What holds of the definitions alone, each law the contract of a function without code.

ghost use Rattle.flow_graph.specs.Laws.{NodesAreTheirPlaces, OneDiscovery, OnePlace};

/// At most one place of a range is the named one.
pub fn one_place()
    ensures { OnePlace }
{}

/// What is discovered of a range is determined.
pub fn one_discovery()
    ensures { OneDiscovery }
{}

/// The first place is the entry, and each node of what is discovered is that of its place.
pub fn nodes_are_their_places()
    ensures { NodesAreTheirPlaces }
{}
