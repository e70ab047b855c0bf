//! One loop round one switch by the block that comes next.

ghost use Rattle.std.specs.Prelude.{◌≡◌, ℕ, ◌^◌, ◌<◌, ◌++◌, [], ◌∷◌, length, List, IfOk, OnOk};
ghost use Rattle.run_parts.specs.Parts.{has};
ghost use Rattle.c_words.specs.Built as built;
ghost use Rattle.micro_ir.specs.declared.flow.Case.{Case};
ghost use Rattle.regions.specs.Plain.{selects, goes_to, nothing, value_case, value_cases, value_switch, next_trees, block_case, block_cases, selector_loop, plain_tree};

use crate::copy;
use c_words::{copy_cond, copy_word, num, pick};
use dream_words::Name;
use graph_order::NodeId;
use guarded::{SetTo, Tree, TreeCase};
use micro_ir::{Block, Case, Cond, End, Expr, Flow};
use sqlite_items::{Boxed, Items};
use std::alloc::{AllocError, Global};

/// The selector: the number of the block that comes next.
const SELECTOR: Name = Name::S(0);

/// The selector is set.
fn selects(e: Expr) -> Tree
    ensures { result ≡ selects e }
{
    Tree::Set(SELECTOR, SetTo::Expr(e))
}

/// A block comes next.
fn goes_to(n: NodeId) -> Tree
    ensures { result ≡ goes_to n }
{
    selects(num(n.0))
}

/// Nothing is done.
fn nothing(alloc: Global) -> Tree
    ensures { result ≡ nothing }
{
    Tree::Seq(Items::new(alloc))
}

/// The case of a value of a Switch end.
fn value_case(alloc: Global, c: &Case) -> Result<TreeCase, AllocError>
    ensures { IfOk result (λ t. t ≡ value_case c.now) }
{
    Ok(TreeCase {
        values: Items::from_vec(Vec::from_array(alloc, [c.value])?),
        body: goes_to(c.to),
    })
}

/// A number stands in the list.
fn stands(values: &[u32], x: u32) -> bool
    ensures { result ≡ has values.now x }
{
    values.contains(&x)
}

/// The cases of a Switch end. Of several with one value just the first stands.
fn value_cases(alloc: Global, cases: &[Case]) -> Result<Items<TreeCase>, AllocError>
    ensures { IfOk result (λ r. r ≡ value_cases [] cases.now) }
{
    let mut seen = Items::new(alloc);
    let mut trees = Items::new(alloc);
    for c in cases {
        add_value(alloc, &mut seen, &mut trees, c)?;
    }
    Ok(trees)
}

/// Adds the case of a value that wasn't seen yet.
fn add_value(
    alloc: Global,
    seen: &mut Items<u32>,
    trees: &mut Items<TreeCase>,
    c: &Case,
) -> Result<(), AllocError>
    ensures { OnOk result ((rest : List Case) → trees.new ++ value_cases seen.new rest ≡ trees.old ++ value_cases seen.old (c.now ∷ rest)) }
{
    if !stands(seen.as_slice(), c.value) {
        trees.push(value_case(alloc, c)?)?;
        seen.push(c.value)?;
    }
    Ok(())
}

/// What comes after a block that ends in a Branch.
fn by_cond(alloc: Global, t: &Cond, a: NodeId, b: NodeId) -> Result<Tree, AllocError>
    ensures { IfOk result (λ r. r ≡ selects (built.pick t.now (built.num a) (built.num b))) }
{
    let t = copy_cond(alloc, t)?;
    Ok(selects(pick(alloc, t, num(a.0), num(b.0))?))
}

/// What comes after a block that ends in a Switch.
fn by_value(alloc: Global, cases: &[Case]) -> Result<Tree, AllocError>
    ensures { IfOk result (λ r. r ≡ value_switch cases.now) }
{
    let cases = value_cases(alloc, cases)?;
    let last = Boxed::new(alloc, nothing(alloc))?;
    Ok(Tree::Switch(SELECTOR, cases, last))
}

/// Adds what comes after a block.
fn add_next(alloc: Global, trees: &mut Items<Tree>, e: &End) -> Result<(), AllocError>
    ensures { OnOk result (trees.new ≡ trees.old ++ next_trees e.now) }
{
    match e {
        End::Go(a) => {
            trees.push(goes_to(*a))?;
            Ok(())
        }
        End::Branch(t, a, b) => {
            trees.push(by_cond(alloc, t, *a, *b)?)?;
            Ok(())
        }
        End::Switch(e, cases) => {
            trees.push(selects(copy_word(alloc, e)?))?;
            trees.push(by_value(alloc, cases.as_slice())?)?;
            Ok(())
        }
        End::Return => Ok(()),
        End::Leave(_) => Ok(()),
    }
}

/// The case of a block.
fn block_case(alloc: Global, n: u32, b: &Block) -> Result<TreeCase, AllocError>
    ensures { IfOk result (λ t. t ≡ block_case n b.now) }
{
    let mut trees = Items::new(alloc);
    trees.push(copy::tree_block(alloc, b)?)?;
    add_next(alloc, &mut trees, &b.end)?;
    Ok(TreeCase {
        values: Items::from_vec(Vec::from_array(alloc, [n])?),
        body: Tree::Seq(trees),
    })
}

/// The cases of all blocks.
fn block_cases(alloc: Global, blocks: &[Block]) -> Result<Items<TreeCase>, AllocError>
    requires { length blocks.now < 2 ^ 30 }
    ensures { IfOk result (λ r. r ≡ block_cases 0 blocks.now) }
{
    let mut cases = Items::new(alloc);
    let mut n = 0;
    for b in blocks {
        cases.push(block_case(alloc, n, b)?)?;
        n += 1;
    }
    Ok(cases)
}

/// One loop round one switch.
fn selector_loop(alloc: Global, blocks: &[Block]) -> Result<Tree, AllocError>
    requires { length blocks.now < 2 ^ 30 }
    ensures { IfOk result (λ r. r ≡ selector_loop blocks.now) }
{
    let cases = block_cases(alloc, blocks)?;
    let last = Boxed::new(alloc, nothing(alloc))?;
    let turn = Boxed::new(alloc, Tree::Switch(SELECTOR, cases, last))?;
    Ok(Tree::Loop(turn))
}

/// The selector is set to the entry, and then the loop comes.
pub(crate) fn tree(alloc: Global, f: &Flow) -> Result<Tree, AllocError>
    requires { length f.now.blocks < 2 ^ 30 }
    ensures { IfOk result (λ t. t ≡ plain_tree f.now) }
{
    let mut trees = Items::new(alloc);
    trees.push(goes_to(f.entry))?;
    trees.push(selector_loop(alloc, f.blocks.as_slice())?)?;
    Ok(Tree::Seq(trees))
}
