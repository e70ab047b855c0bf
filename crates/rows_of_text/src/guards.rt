//! The guards of the nodes of worked graphs.

ghost use Rattle.std.specs.Prelude.{◌*◌, ◌^◌, ◌<◌, IfOk, OnOk, length};
ghost use Rattle.graph_order.specs.Graph.{IsReached};
ghost use Rattle.graph_order.specs.Order.{IsTopologicalOrder};
ghost use Rattle.cond_terms.specs.Guards.{AreEdgesOf};

use cond_terms::{Edge, Edges, Guard, Lit, Term, reaching};
use graph_order::{Graph, NodeId, topo_order};
use sqlite_items::{Boxed, Items};
use std::alloc::{AllocError, Global};
use std::test::Fail;

/// The successors on a ladder: from both nodes of a pair to both of the next.
fn ladder(alloc: Global, pairs: u32) -> Result<Vec<Vec<NodeId>>, AllocError>
    requires { pairs < 2 ^ 16 }
    ensures { IfOk result (λ made. length made.items < 2 ^ 30) }
{
    let mut made = Vec::new(alloc);
    for node in 0..2 * pairs {
        let next = 2 * (node / 2) + 2;
        let nodes = if next < 2 * pairs {
            Vec::from_array(alloc, [NodeId(next), NodeId(next + 1)])?
        } else {
            Vec::new(alloc)
        };
        made.push(nodes)?;
    }
    Ok(made)
}

/// Adds the edges of a node's branch: to its first successor where the variable with its number
/// isn't set, and to the second where it is.
fn add_branch(
    alloc: Global,
    g: &Graph,
    node: NodeId,
    list: &mut Items<Edge>,
) -> Result<(), AllocError>
    requires inside { node < length g.now.succ }
    requires reached { IsReached g.now node }
    requires edges { AreEdgesOf g.now list.old }
    ensures { OnOk result (AreEdgesOf g.now list.new) }
{
    if let [first, second] = g.succ(node) {
        let set = Term::Lit(Lit::Bool(node.0));
        let unset = Term::Not(Boxed::new(alloc, Term::Lit(Lit::Bool(node.0)))?);
        list.push(Edge {
            from: node,
            to: *first,
            term: unset,
        })?;
        list.push(Edge {
            from: node,
            to: *second,
            term: set,
        })?;
    }
    Ok(())
}

/// The edges of all branches.
fn branches(alloc: Global, g: &Graph, order: &[NodeId]) -> Result<Edges, AllocError>
    requires { IsTopologicalOrder g.now order.now }
    ensures { IfOk result (λ made. AreEdgesOf g.now made.list) }
{
    let mut list = Items::new(alloc);
    for &node in order {
        if node.0 < g.count() {
            add_branch(alloc, g, node, &mut list)?;
        }
    }
    Ok(Edges { list })
}

/// Whether a term is true where these variables are 1 and all others 0.
fn holds(t: &Term, ones: &[u32]) -> bool {
    match t {
        Term::True => true,
        Term::False => false,
        Term::Lit(Lit::Bool(variable)) => ones.contains(variable),
        Term::Lit(Lit::Eq(variable, word)) => u32::from(ones.contains(variable)) == *word,
        Term::Not(a) => !holds(a.get(), ones),
        Term::And(a, b) => holds(a.get(), ones) && holds(b.get(), ones),
        Term::Or(a, b) => holds(a.get(), ones) || holds(b.get(), ones),
    }
}

/// The nodes of a ladder of eight pairs that are taken, from the first node on.
fn taken(alloc: Global, ones: &[u32]) -> Result<Vec<u32>, AllocError> {
    let mut nodes = Vec::new(alloc);
    let mut node = 0;
    nodes.push(node)?;
    for pair in 1..8 {
        node = 2 * pair + u32::from(ones.contains(&node));
        nodes.push(node)?;
    }
    Ok(nodes)
}

#[test]
fn guards_along_a_ladder(rt: HostRuntime) -> Result<(), Fail> {
    let alloc = rt.alloc();
    let graph = Graph::new(alloc, NodeId(0), ladder(alloc, 8)?).map_err(|_| "no graph")?;
    let order = topo_order(alloc, &graph).map_err(|_| "no order")?;
    assert!(rt; order.len() == 15);
    let edges = branches(alloc, &graph, &order)?;
    let guards = reaching(alloc, &graph, &order, &edges, 100)?;
    // A guard has 2 literals more than twice as many as one of the pair before: 1, 4, 10, 22, 46, 94.
    let mut names = Vec::new(alloc);
    for (node, its) in order.iter().zip(&guards) {
        if let Guard::Named(name, _) = its {
            names.push((node.0, *name))?;
        }
    }
    assert!(rt; names.as_slice() == [(12, 100), (13, 101)].as_slice());
    let rows: [&[u32]; 6] = [
        &[],
        &[0],
        &[0, 3, 5, 7, 9, 11, 13],
        &[0, 2, 3, 6, 8, 9, 13],
        &[3, 4, 7, 11, 12],
        &[1, 2, 5, 8, 9, 10, 13, 15],
    ];
    for row in rows {
        let nodes = taken(alloc, row)?;
        let mut ones = Vec::from_slice(alloc, row)?;
        for (node, its) in order.iter().zip(&guards) {
            let is_taken = nodes.contains(&node.0);
            let term = match its {
                Guard::Term(term) => term,
                Guard::Named(name, term) => {
                    if is_taken {
                        ones.push(*name)?;
                    }
                    term
                }
            };
            assert_eq!(rt; holds(term, &ones), is_taken, "node {} by {row:?}", node.0);
        }
    }
    Ok(())
}
