//! The blocks of stretches.

ghost use Rattle.std.specs.Prelude.{◌≡◌, ◌≢◌, ◌<◌, ◌++◌, ℕ, All, AllPairs, Contains, IfOk, OnOk, length, map, slice_set};
ghost use Rattle.std.specs.List.{concat};
ghost use Rattle.micro_ir.specs.Laws.{moved_case, moved_end};
ghost use Rattle.flow_stretches.specs.Joined.{block_at, empty_block, join_of};
ghost use Rattle.flow_stretches.specs.Known.{joined_blocks, name_by, then_block};

use crate::ends::straight;
use graph_order::NodeId;
use micro_ir::{Block, Case, End, Stmt};
use sqlite_items::Items;
use std::alloc::{AllocError, Global};
use std::mem;

/// The name of a node; 0 where it has none.
fn name_in(names: &[u32], n: NodeId) -> NodeId
    ensures { result ≡ name_by names.now n }
{
    NodeId(names.get(n.0 as usize).copied().unwrap_or(0))
}

/// Cases that lead to nodes named anew.
fn renamed_cases(alloc: Global, names: &[u32], cases: &[Case]) -> Result<Vec<Case>, AllocError>
    ensures { IfOk result (λ v. v.items ≡ map (moved_case (name_by names.now)) cases.now) }
{
    let mut renamed = Vec::new(alloc);
    for case in cases {
        renamed.push(Case {
            value: case.value,
            to: name_in(names, case.to),
        })?;
    }
    Ok(renamed)
}

/// An end that leads to nodes named anew.
fn renamed(alloc: Global, names: &[u32], end: End) -> Result<End, AllocError>
    ensures { IfOk result (λ e. e ≡ moved_end (name_by names.now) end) }
{
    match end {
        End::Go(a) => Ok(End::Go(name_in(names, a))),
        End::Branch(t, a, b) => Ok(End::Branch(t, name_in(names, a), name_in(names, b))),
        End::Switch(e, cases) => {
            let cases = renamed_cases(alloc, names, cases.as_slice())?;
            Ok(End::Switch(e, Items::from_vec(cases)))
        }
        End::Return => Ok(End::Return),
        End::Leave(e) => Ok(End::Leave(e)),
    }
}

/// The blocks, as a vector.
fn vec_of(alloc: Global, blocks: Items<Block>) -> Result<Vec<Block>, AllocError>
    ensures { IfOk result (λ v. v.items ≡ blocks) }
{
    let mut rest = blocks;
    let mut taken = Vec::new(alloc);
    while let Some(block) = rest.pop() {
        taken.push(block)?;
    }
    taken.reverse();
    Ok(taken)
}

/// The block of a node, in whose place an empty one is left.
fn take_block(alloc: Global, blocks: &mut [Block], n: usize) -> Block
    requires { n < length blocks.old }
    ensures value { result ≡ block_at blocks.old n }
    ensures left { blocks.new ≡ slice_set blocks.old n empty_block }
{
    let empty = Block {
        at: 0,
        stmts: Items::new(alloc),
        end: End::Return,
    };
    mem::replace(&mut blocks[n], empty)
}

/// Statements and then others.
fn then_stmts(first: Items<Stmt>, others: Items<Stmt>) -> Result<Items<Stmt>, AllocError>
    ensures { IfOk result (λ stmts. stmts ≡ first ++ others) }
{
    let mut stmts = first;
    stmts.append(others)?;
    Ok(stmts)
}

/// Two blocks one after the other.
fn then_block(a: Block, b: Block) -> Result<Block, AllocError>
    ensures { IfOk result (λ c. c ≡ then_block a b) }
{
    let Block {
        at,
        stmts: first,
        end: before,
    } = a;
    drop(before);
    let Block {
        at: _,
        stmts: others,
        end,
    } = b;
    let stmts = then_stmts(first, others)?;
    Ok(Block { at, stmts, end })
}

/// The blocks of some nodes one after another, which are taken.
fn joined_blocks(alloc: Global, blocks: &mut [Block], nodes: &[usize]) -> Result<Block, AllocError>
    requires some { 0 < length nodes.now }
    requires inside { All (λ n. n < length blocks.old) nodes.now }
    requires once { AllPairs (λ a b. a ≢ b) nodes.now }
    ensures block { IfOk result (λ b. b ≡ joined_blocks blocks.old nodes.now) }
    ensures left { OnOk result ((n : ℕ) → (Contains nodes.now n → ⊥) → block_at blocks.new n ≡ block_at blocks.old n) }
{
    let mut joined = take_block(alloc, blocks, nodes[0]);
    for i in 1..nodes.len() {
        let block = take_block(alloc, blocks, nodes[i]);
        joined = then_block(joined, block)?;
    }
    Ok(joined)
}

/// The block of a stretch.
fn join(
    alloc: Global,
    blocks: &mut [Block],
    names: &[u32],
    nodes: &[usize],
) -> Result<Block, AllocError>
    requires some { 0 < length nodes.now }
    requires inside { All (λ n. n < length blocks.old) nodes.now }
    requires once { AllPairs (λ a b. a ≢ b) nodes.now }
    ensures block { IfOk result (λ b. b ≡ join_of blocks.old (name_by names.now) nodes.now) }
    ensures left { OnOk result ((n : ℕ) → (Contains nodes.now n → ⊥) → block_at blocks.new n ≡ block_at blocks.old n) }
{
    let joined = joined_blocks(alloc, blocks, nodes)?;
    let Block { at, stmts, end } = joined;
    let end = renamed(alloc, names, straight(end))?;
    Ok(Block { at, stmts, end })
}

/// The blocks of stretches, which are taken from among the given ones.
fn join_each(
    alloc: Global,
    blocks: &mut [Block],
    names: &[u32],
    stretches: &[Vec<usize>],
) -> Result<Vec<Block>, AllocError>
    requires some { All (λ nodes. 0 < length nodes.items) stretches.now }
    requires inside { All (λ n. n < length blocks.old) (concat (map (λ l. l.items) stretches.now)) }
    requires once { AllPairs (λ a b. a ≢ b) (concat (map (λ l. l.items) stretches.now)) }
    ensures { IfOk result (λ v. v.items ≡ map (join_of blocks.old (name_by names.now)) (map (λ l. l.items) stretches.now)) }
{
    let mut joined = Vec::new(alloc);
    for nodes in stretches {
        joined.push(join(alloc, blocks, names, nodes)?)?;
    }
    Ok(joined)
}

/// The blocks of stretches.
pub(crate) fn join_all(
    alloc: Global,
    blocks: Items<Block>,
    names: &[u32],
    stretches: &[Vec<usize>],
) -> Result<Vec<Block>, AllocError>
    requires some { All (λ nodes. 0 < length nodes.items) stretches.now }
    requires inside { All (λ n. n < length blocks) (concat (map (λ l. l.items) stretches.now)) }
    requires once { AllPairs (λ a b. a ≢ b) (concat (map (λ l. l.items) stretches.now)) }
    ensures { IfOk result (λ v. v.items ≡ map (join_of blocks (name_by names.now)) (map (λ l. l.items) stretches.now)) }
{
    let mut left = vec_of(alloc, blocks)?;
    join_each(alloc, &mut left, names, stretches)
}
