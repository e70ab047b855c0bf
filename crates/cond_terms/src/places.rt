//! Where nodes stand in an order, and which edges lead into each.

ghost use Rattle.std.specs.Prelude.{◌≡◌, ◌^◌, ◌<◌, ◌≤◌, All, IfOk, length, map};
ghost use Rattle.cond_terms.specs.Reaching.{ArePlaces, AreWaysIn};

use crate::guards::Edge;
use graph_order::NodeId;
use std::alloc::{AllocError, Global};

/// A number above all nodes of an order.
pub(crate) fn above(order: &[NodeId]) -> usize
    ensures { All (λ n. n < result) order.now }
{
    let mut above = 0;
    for node in order {
        above = above.max(node.0 as usize + 1);
    }
    above
}

/// For each of so many nodes its place in an order, if it stands there.
pub(crate) fn places_of(
    alloc: Global,
    count: usize,
    order: &[NodeId],
) -> Result<Vec<u32>, AllocError>
    requires inside { All (λ n. n < count) order.now }
    requires few { length order.now ≤ 2 ^ 32 }
    ensures { IfOk result (λ places. ArePlaces count order.now places.items) }
{
    let mut places = vec![in alloc; 0; count]?;
    for (place, node) in order.iter().enumerate() {
        places[node.0 as usize] = place as u32;
    }
    Ok(places)
}

/// So many empty lists.
fn empty_lists(alloc: Global, count: usize) -> Result<Vec<Vec<u32>>, AllocError>
    ensures len { IfOk result (λ lists. length lists.items ≡ count) }
    ensures empty { IfOk result (λ lists. All (λ l. length l.items ≡ 0) lists.items) }
{
    let mut lists = Vec::new(alloc);
    for _ in 0..count {
        lists.push(Vec::new(alloc))?;
    }
    Ok(lists)
}

/// For each of so many nodes the edges into it, named by their places in the list.
pub(crate) fn ways_in(
    alloc: Global,
    count: usize,
    edges: &[Edge],
) -> Result<Vec<Vec<u32>>, AllocError>
    requires inside { All (λ e. e.to < count) edges.now }
    requires few { length edges.now < 2 ^ 32 }
    ensures { IfOk result (λ ways. AreWaysIn count edges.now (map (λ l. l.items) ways.items)) }
{
    let mut ways = empty_lists(alloc, count)?;
    for (place, edge) in edges.iter().enumerate() {
        ways[edge.to.0 as usize].push(place as u32)?;
    }
    Ok(ways)
}
