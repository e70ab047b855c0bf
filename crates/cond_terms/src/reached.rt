//! The guards of nodes, made one after another along an order of the graph.

ghost use Rattle.std.specs.Prelude.{◌≡◌, ◌+◌, ◌^◌, ◌≤◌, IfOk, length};
ghost use Rattle.graph_order.specs.Order.{IsTopologicalOrder};
ghost use Rattle.cond_terms.specs.Simple.{IsSimple};
ghost use Rattle.cond_terms.specs.Guards.{read_of, names_of, AreEdgesOf, AreGuards, AreNamed, TellTaken, ArePlain, AreShallow};
ghost use Rattle.cond_terms.specs.Reaching.{IsWay, HaveSources, IsAnyWay, IsShortened, IsGuardMade};

use crate::factored::factor;
use crate::guards::{Edge, Edges, Guard};
use crate::large::is_large;
use crate::places::{above, places_of, ways_in};
use crate::simple::{joined, simplify};
use crate::term::{Lit, Term, copy};
use graph_order::{Graph, NodeId};
use sqlite_items::Boxed;
use std::alloc::{AllocError, Global};

/// What later guards read of a guard: its term, or its name.
fn read(alloc: Global, guard: &Guard) -> Result<Term, AllocError>
    ensures { IfOk result (λ made. made ≡ read_of guard.now) }
{
    match guard {
        Guard::Term(t) => copy(alloc, t),
        Guard::Named(x, _) => Ok(Term::Lit(Lit::Bool(*x))),
    }
}

/// How many names a guard has.
fn names_of(guard: &Guard) -> usize
    ensures { result ≡ names_of guard.now }
{
    match guard {
        Guard::Term(_) => 0,
        Guard::Named(..) => 1,
    }
}

/// The And of what is read of the guard of an edge's source and of the edge's term, made simple.
fn way(alloc: Global, source: &Guard, edge: &Edge) -> Result<Term, AllocError>
    ensures { IfOk result (λ made. IsWay source.now edge.now.term made) }
{
    let source = Boxed::new(alloc, read(alloc, source)?)?;
    let term = Boxed::new(alloc, copy(alloc, &edge.term)?)?;
    simplify(alloc, Term::And(source, term))
}

/// The Or of the ways along some edges, which are named by their places: balanced, and made simple.
fn any_way(
    alloc: Global,
    edges: &[Edge],
    places: &[u32],
    guards: &[Guard],
    ways: &[u32],
) -> Result<Term, AllocError>
    requires { HaveSources edges.now places.now guards.now ways.now }
    ensures { IfOk result (λ made. IsAnyWay edges.now places.now guards.now ways.now made) }
{
    if ways.is_empty() {
        return Ok(Term::False);
    }
    if ways.len() == 1 {
        let edge = &edges[ways[0] as usize];
        return way(alloc, &guards[places[edge.from.0 as usize] as usize], edge);
    }
    let half = ways.len() / 2;
    let first = any_way(alloc, edges, places, guards, &ways[..half])?;
    let second = any_way(alloc, edges, places, guards, &ways[half..])?;
    joined(alloc, false, first, second)
}

/// The guard with this term, factored where that leaves at most 64 literals; a larger one has the
/// name.
fn shortened(alloc: Global, t: Term, name: u32) -> Result<Guard, AllocError>
    ensures { IfOk result (λ made. IsShortened t name made) }
{
    let short = factor(alloc, copy(alloc, &t)?)?;
    let short = simplify(alloc, short)?;
    if is_large(&short) {
        Ok(Guard::Named(name, t))
    } else {
        Ok(Guard::Term(short))
    }
}

/// The guard of a node: True at the entry, else the Or of the ways into it.
fn guard_of(
    alloc: Global,
    is_entry: bool,
    edges: &[Edge],
    places: &[u32],
    guards: &[Guard],
    ways: &[u32],
    name: u32,
) -> Result<Guard, AllocError>
    requires { HaveSources edges.now places.now guards.now ways.now }
    ensures { IfOk result (λ made. IsGuardMade is_entry edges.now places.now guards.now ways.now name made) }
{
    if is_entry {
        return Ok(Guard::Term(Term::True));
    }
    let any = any_way(alloc, edges, places, guards, ways)?;
    shortened(alloc, any, name)
}

/// The guard of each node of a topological order, in that order: what is true exactly where the
/// node is taken.
///
/// A guard of more than 64 literals has a name, a variable from `first` on, which later guards use
/// in its place. 2^32 edges or more are refused as memory is.
pub fn reaching(
    alloc: Global,
    g: &Graph,
    order: &Vec<NodeId>,
    edges: &Edges,
    first: u32,
) -> Result<Vec<Guard>, AllocError>
    requires in_order { IsTopologicalOrder g.now order.now.items }
    requires along { AreEdgesOf g.now edges.now.list }
    requires room { first + length order.now.items ≤ 2 ^ 32 }
    ensures guards { IfOk result (λ made. AreGuards g.now.entry edges.now.list order.now.items made.items) }
    ensures taken { IfOk result (λ made. TellTaken g.now.entry edges.now.list order.now.items made.items) }
    ensures named { IfOk result (λ made. AreNamed first made.items) }
    ensures shallow { IfOk result (λ made. ArePlain edges.now.list → AreShallow 100 made.items) }
{
    let edges = edges.list.as_slice();
    if edges.len() > u32::MAX as usize {
        return Err(AllocError);
    }
    let count = above(order);
    let places = places_of(alloc, count, order)?;
    let ways = ways_in(alloc, count, edges)?;
    let entry = g.entry();
    let mut guards = Vec::new(alloc);
    let mut named = 0;
    for &node in order {
        let ways = &ways[node.0 as usize];
        let name = first + named as u32;
        let guard = guard_of(
            alloc,
            node.0 == entry.0,
            edges,
            &places,
            &guards,
            ways,
            name,
        )?;
        named += names_of(&guard);
        guards.push(guard)?;
    }
    Ok(guards)
}
