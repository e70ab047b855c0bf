//! The check of a plan.

ghost use Rattle.std.specs.Prelude.{◌≡◌, IfOk, map, false, option_copied};
ghost use Rattle.flow_plans.specs.Checked.{case_ways, ways, block_pass, where_true, all_pass, checked, head_in};
ghost use Rattle.flow_plans.specs.Known.{entry_of};

use crate::plan::{Entry, Plan, Value, Way};
use crate::{entries, known};
use dream_words::Name;
use graph_order::NodeId;
use micro_ir::{Block, Case, End};
use sqlite_items::{Items, at};
use std::alloc::{AllocError, Global};

/// An entry that owes no turn.
fn entry_of(node: NodeId, known: Items<Value>) -> Entry
    ensures { result ≡ entry_of false node known }
{
    Entry {
        owes: false,
        node,
        known,
    }
}

/// What may be entered behind a block that ends in a Switch.
fn case_ways(
    alloc: Global,
    name: Name,
    known: &[Value],
    cases: &[Case],
) -> Result<Items<Entry>, AllocError>
    ensures { IfOk result (λ all. all ≡ case_ways name known.now cases.now) }
{
    let mut all = Items::new(alloc);
    for c in cases {
        let known = known::told(alloc, name, c.value, known)?;
        all.push(entry_of(c.to, known))?;
    }
    Ok(all)
}

/// What may be entered behind a block, by its end.
fn ways(alloc: Global, way: Way, known: &[Value], e: &End) -> Result<Items<Entry>, AllocError>
    ensures { IfOk result (λ all. all ≡ ways way known.now e.now) }
{
    match e {
        End::Go(x) => {
            let only = entry_of(*x, Items::from_slice(alloc, known)?);
            Ok(Items::from_vec(Vec::from_array(alloc, [only])?))
        }
        End::Branch(_, x, y) => {
            let first = entry_of(*x, known::told(alloc, way.name, way.on_true, known)?);
            let second = entry_of(*y, known::told(alloc, way.name, way.on_false, known)?);
            Ok(Items::from_vec(Vec::from_array(alloc, [first, second])?))
        }
        End::Switch(_, cases) => case_ways(alloc, way.name, known, cases.as_slice()),
        End::Return => Ok(Items::new(alloc)),
        End::Leave(_) => Ok(Items::new(alloc)),
    }
}

/// What may be entered behind a block. None where there is none, where one of the entries is another
/// node's or owes a turn that the node doesn't pay, and where the variable is one of the flow.
fn block(
    alloc: Global,
    found: Option<&Block>,
    is_head: bool,
    node: NodeId,
    way: Way,
    before: &[Entry],
) -> Result<Option<Items<Entry>>, AllocError>
    ensures { IfOk result (λ o. o ≡ block_pass is_head node way (option_copied found.entry) before.now) }
{
    match found {
        None => Ok(None),
        Some(k) => {
            if !known::is_added(way.name) || !entries::all_are(is_head, node, before) {
                return Ok(None);
            }
            let known = entries::known_in(alloc, before)?;
            let after = ways(alloc, way, known.as_slice(), &k.end)?;
            Ok(Some(entries::behind(alloc, before, after)))
        }
    }
}

/// The entries, if something is so.
fn where_true(holds: bool, after: Items<Entry>) -> Option<Items<Entry>>
    ensures { result ≡ where_true holds after }
{
    if holds { Some(after) } else { None }
}

/// What may be about to be entered behind a plan, if before it one of these entries may be, and one
/// of `out` where the innermost loop is left. None where the plan is refused.
#[cycle(check)]
pub fn checked(
    alloc: Global,
    blocks: &[Block],
    heads: &[bool],
    plan: &Plan,
    out: &[Entry],
    before: &[Entry],
) -> Result<Option<Items<Entry>>, AllocError>
    ensures { IfOk result (λ o. o ≡ checked blocks.now (head_in heads.now) plan.now out.now before.now) }
{
    match plan {
        Plan::Block(n, way) => {
            let head = entries::is_head(heads, *n);
            block(alloc, at(blocks, n.0 as usize), head, *n, *way, before)
        }
        Plan::Seq(plans) => all_checked(alloc, blocks, heads, plans.as_slice(), out, before),
        Plan::Test(values, p, q) => {
            let values = values.as_slice();
            if !known::are_tests(values) {
                return Ok(None);
            }
            let yes = entries::allowing(alloc, values, before)?;
            match checked(alloc, blocks, heads, p.get(), out, yes.as_slice())? {
                None => Ok(None),
                Some(first) => {
                    let no = entries::missing(alloc, values, before)?;
                    match checked(alloc, blocks, heads, q.get(), out, no.as_slice())? {
                        None => Ok(None),
                        Some(second) => {
                            let mut all = first;
                            all.append(second)?;
                            Ok(Some(all))
                        }
                    }
                }
            }
        }
        Plan::Put(a) => {
            let after = entries::put_all(alloc, a.name, a.value, before)?;
            Ok(where_true(known::is_added(a.name), after))
        }
        Plan::Pick(way, other) => {
            let after = entries::pick_all(alloc, *way, *other, before)?;
            let added = known::is_added(way.name) && known::is_added(other.name);
            Ok(where_true(added, after))
        }
        Plan::Forget(entries) => {
            let entries = entries.as_slice();
            let after = entries::behind(alloc, before, entries::all_copied(alloc, entries)?);
            Ok(where_true(entries::all_covered(before, entries), after))
        }
        Plan::Fade(name) => Ok(Some(entries::fade_all(alloc, *name, before)?)),
        Plan::Leave => Ok(where_true(entries::all_covered(before, out), Items::new(alloc))),
        Plan::Loop(begins, ends, p) => {
            let begins = begins.as_slice();
            let ends = ends.as_slice();
            if !entries::is_loop(heads, begins, ends, before) {
                return Ok(None);
            }
            let turn = entries::owing(alloc, begins)?;
            match checked(alloc, blocks, heads, p.get(), ends, turn.as_slice())? {
                None => Ok(None),
                Some(last) => {
                    let after = entries::behind(alloc, before, entries::all_copied(alloc, ends)?);
                    Ok(where_true(entries::all_covered(last.as_slice(), begins), after))
                }
            }
        }
    }
}

/// What may be about to be entered behind plans one after another.
#[cycle(check)]
fn all_checked(
    alloc: Global,
    blocks: &[Block],
    heads: &[bool],
    plans: &[Plan],
    out: &[Entry],
    before: &[Entry],
) -> Result<Option<Items<Entry>>, AllocError>
    ensures { IfOk result (λ o. o ≡ all_pass (map (checked blocks.now (head_in heads.now)) plans.now) out.now before.now) }
{
    let mut entries = entries::all_copied(alloc, before)?;
    for p in plans {
        match checked(alloc, blocks, heads, p, out, entries.as_slice())? {
            None => return Ok(None),
            Some(after) => entries = after,
        }
    }
    Ok(Some(entries))
}
