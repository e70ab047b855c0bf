//! What holds of the definitions alone, each law the contract of a function without code.

ghost use Rattle.graph_order.specs.Components.{ComponentsAreApart, EachCycleHoldsAHead};
ghost use Rattle.graph_order.specs.Order.{CyclesHaveNoOrder, EntryStandsFirst};

/// Components with a common member have the same members.
pub fn components_are_apart()
    ensures { ComponentsAreApart }
{}

/// Each cycle of a component holds one of its heads.
pub fn each_cycle_holds_a_head()
    ensures { EachCycleHoldsAHead }
{}

/// A graph with a reached cycle has no topological order.
pub fn cycles_have_no_order()
    ensures { CyclesHaveNoOrder }
{}

/// A topological order begins with the entry.
pub fn the_entry_stands_first()
    ensures { EntryStandsFirst }
{}
