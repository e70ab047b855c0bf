//! A walk over the code of a range.

ghost use Rattle.std.specs.Prelude.{◌≡◌, ◌+◌, ◌^◌, ◌<◌, ◌≤◌, ◌∷◌, [], ◌++◌, fold, map, length, slice_get, None, IfOk, OnOk, IfErr};
ghost use Rattle.flow_graph.specs.Discovery.{with_new, number_in};
ghost use Rattle.flow_graph.specs.Place.{Names};
ghost use Rattle.flow_graph.specs.Sites.{lesser, least_with};

use crate::place::{Cause, FlowFault, Found, Place};
use crate::sites::Site;
use graph_order::{Graph, NodeId};
use indexmap::IndexSet;
use std::alloc::{AllocError, Global};

/// The places that were found so far, the successors of the first of them by their numbers, and the least of these
/// that has a cause.
#[derive(Drop)]
pub(crate) struct Walk {
    pub(crate) places: IndexSet<u32>,
    pub(crate) lists: Vec<Vec<NodeId>>,
    pub(crate) named: Option<Place>,
}

// Adds the addresses that aren't there yet, and gives the numbers of all.
fn numbers_of(
    alloc: Global,
    places: &mut IndexSet<u32>,
    addresses: &[u32],
) -> Result<Vec<NodeId>, AllocError>
    requires { length places.old.keys + length addresses.now ≤ 2 ^ 32 }
    ensures places { OnOk result (places.new.keys ≡ fold with_new places.old.keys addresses.now) }
    ensures numbers { IfOk result (λ v. v.items ≡ map (number_in places.new.keys) addresses.now) }
{
    let mut numbers = Vec::with_capacity(alloc, addresses.len())?;
    for &address in addresses {
        let (number, _) = places.insert_full(address)?;
        numbers.push(NodeId(number as u32))?;
    }
    Ok(numbers)
}

// The lesser of a place and another one.
fn lesser(named: Option<Place>, at: u32, cause: Cause) -> Option<Place>
    ensures { result ≡ lesser named at cause }
{
    match named {
        None => Some(Place { at, cause }),
        Some(place) => {
            if at < place.at {
                Some(Place { at, cause })
            } else {
                Some(place)
            }
        }
    }
}

// The least place so far, after one more address with its cause.
fn least_with(named: Option<Place>, at: u32, cause: Option<Cause>) -> Option<Place>
    ensures { result ≡ least_with named at cause }
{
    match cause {
        None => named,
        Some(cause) => lesser(named, at, cause),
    }
}

impl Walk {
    /// A walk that has found the entry.
    pub(crate) fn new(alloc: Global, entry: u32) -> Result<Walk, AllocError>
        ensures places { IfOk result (λ w. w.places.keys ≡ entry ∷ []) }
        ensures lists { IfOk result (λ w. w.lists.items ≡ []) }
        ensures named { IfOk result (λ w. w.named ≡ None) }
    {
        let mut places = IndexSet::new(alloc);
        places.insert(entry)?;
        Ok(Walk {
            places,
            lists: Vec::new(alloc),
            named: None,
        })
    }

    /// The first place whose successors aren't known.
    pub(crate) fn waiting(&self) -> Option<u32>
        ensures { result ≡ slice_get self.now.places.keys (length self.now.lists.items) }
    {
        self.places.get_index(self.lists.len()).copied()
    }

    /// The walk after the place that waits, by what stands there.
    pub(crate) fn visit(&mut self, alloc: Global, at: u32, site: Site) -> Result<(), AllocError>
        requires { length self.old.places.keys + length site.successors.items ≤ 2 ^ 32 }
        ensures places { OnOk result (self.new.places.keys ≡ fold with_new self.old.places.keys site.successors.items) }
        ensures lists { OnOk result (map (λ l. l.items) self.new.lists.items ≡ map (λ l. l.items) self.old.lists.items ++ map (number_in self.new.places.keys) site.successors.items ∷ []) }
        ensures named { OnOk result (self.new.named ≡ least_with self.old.named at site.cause) }
    {
        let numbers = numbers_of(alloc, &mut self.places, &site.successors)?;
        self.lists.push(numbers)?;
        self.named = least_with(self.named, at, site.cause);
        Ok(())
    }

    /// The graph of a walk that is over, or its least place.
    pub(crate) fn finish(self, alloc: Global) -> Result<Found, FlowFault>
        requires { length self.lists.items < 2 ^ 30 }
        ensures none { OnOk result (self.named ≡ None) }
        ensures places { IfOk result (λ f. f.places.items ≡ self.places.keys) }
        ensures graph { IfOk result (λ f. f.graph ≡ record { entry = 0; succ = map (λ l. l.items) self.lists.items }) }
        ensures err { IfErr result (Names self.named) }
    {
        if let Some(place) = self.named {
            return Err(FlowFault::Outside(place));
        }
        let places = self.places.as_slice().to_vec(alloc)?;
        match Graph::new(alloc, NodeId(0), self.lists) {
            Ok(graph) => Ok(Found { graph, places }),
            Err(_) => Err(FlowFault::Memory),
        }
    }
}
