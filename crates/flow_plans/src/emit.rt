//! The trees of a plan.

ghost use Rattle.std.specs.Prelude.{◌≡◌, ◌++◌, map, IfOk, OnOk, option_copied};
ghost use Rattle.flow_plans.specs.Emitted.{gathered, sets, way_word, way_trees, block_trees, picked_word, joined, trees_of, emitted};

use crate::plan::{Plan, Value, Way};
use crate::test_trees::{gathered, test_tree};
use c_syntax::CCmp;
use c_words::{cmp, copy_cond, copy_word, name, num, pick};
use dream_words::Name;
use guarded::{SetTo, Tree};
use micro_ir::{Block, Cond, End};
use regions::tree_block;
use sqlite_items::{Boxed, Items, at};
use std::alloc::{AllocError, Global};

/// A variable is set.
fn sets(name: Name, to: SetTo) -> Tree
    ensures { result ≡ sets name to }
{
    Tree::Set(name, to)
}

/// Which of the two numbers a condition gives.
fn way_word(alloc: Global, t: &Cond, way: Way) -> Result<SetTo, AllocError>
    ensures { IfOk result (λ to. to ≡ way_word t.now way.on_true way.on_false) }
{
    let t = copy_cond(alloc, t)?;
    if way.on_true == 1 && way.on_false == 0 {
        Ok(SetTo::Cond(t))
    } else {
        Ok(SetTo::Expr(pick(alloc, t, num(way.on_true), num(way.on_false))?))
    }
}

/// Which of the two numbers the value of a variable gives.
fn picked_word(alloc: Global, other: Value, way: Way) -> Result<SetTo, AllocError>
    ensures { IfOk result (λ to. to ≡ picked_word other way.on_true way.on_false) }
{
    let test = cmp(CCmp::Eq, name(other.name), num(other.value));
    Ok(SetTo::Expr(pick(alloc, test, num(way.on_true), num(way.on_false))?))
}

/// Adds what tells which way a block went.
fn add_way(alloc: Global, trees: &mut Items<Tree>, way: Way, e: &End) -> Result<(), AllocError>
    ensures { OnOk result (trees.new ≡ trees.old ++ way_trees way e.now) }
{
    match e {
        End::Go(_) => Ok(()),
        End::Branch(t, _, _) => {
            trees.push(sets(way.name, way_word(alloc, t, way)?))?;
            Ok(())
        }
        End::Switch(e, _) => {
            trees.push(sets(way.name, SetTo::Expr(copy_word(alloc, e)?)))?;
            Ok(())
        }
        End::Return => Ok(()),
        End::Leave(_) => Ok(()),
    }
}

/// Adds the trees of a block.
fn add_block(
    alloc: Global,
    trees: &mut Items<Tree>,
    way: Way,
    found: Option<&Block>,
) -> Result<(), AllocError>
    ensures { OnOk result (trees.new ≡ trees.old ++ block_trees way (option_copied found.entry)) }
{
    match found {
        None => Ok(()),
        Some(k) => {
            trees.push(tree_block(alloc, k)?)?;
            add_way(alloc, trees, way, &k.end)
        }
    }
}

/// Adds the trees of a plan.
#[cycle(emit)]
fn add_plan(
    alloc: Global,
    blocks: &[Block],
    plan: &Plan,
    trees: &mut Items<Tree>,
) -> Result<(), AllocError>
    ensures { OnOk result (trees.new ≡ trees.old ++ trees_of blocks.now plan.now) }
{
    match plan {
        Plan::Block(n, way) => add_block(alloc, trees, *way, at(blocks, n.0 as usize)),
        Plan::Seq(plans) => add_all(alloc, blocks, plans.as_slice(), trees),
        Plan::Test(values, p, q) => {
            let mut first = Items::new(alloc);
            add_plan(alloc, blocks, p.get(), &mut first)?;
            let mut second = Items::new(alloc);
            add_plan(alloc, blocks, q.get(), &mut second)?;
            trees.push(test_tree(alloc, values.as_slice(), first, second)?)?;
            Ok(())
        }
        Plan::Put(a) => {
            trees.push(sets(a.name, SetTo::Expr(num(a.value))))?;
            Ok(())
        }
        Plan::Pick(way, other) => {
            trees.push(sets(way.name, picked_word(alloc, *other, *way)?))?;
            Ok(())
        }
        Plan::Forget(_) => Ok(()),
        Plan::Fade(_) => Ok(()),
        Plan::Leave => {
            trees.push(Tree::Break)?;
            Ok(())
        }
        Plan::Loop(_, _, p) => {
            let mut turn = Items::new(alloc);
            add_plan(alloc, blocks, p.get(), &mut turn)?;
            trees.push(Tree::Loop(Boxed::new(alloc, gathered(turn))?))?;
            Ok(())
        }
    }
}

/// Adds the trees of plans one after another.
#[cycle(emit)]
fn add_all(
    alloc: Global,
    blocks: &[Block],
    plans: &[Plan],
    trees: &mut Items<Tree>,
) -> Result<(), AllocError>
    ensures { OnOk result (trees.new ≡ trees.old ++ joined (map (trees_of blocks.now) plans.now)) }
{
    for p in plans {
        add_plan(alloc, blocks, p, trees)?;
    }
    Ok(())
}

/// The tree of a plan.
pub fn emitted(alloc: Global, blocks: &[Block], plan: &Plan) -> Result<Tree, AllocError>
    ensures { IfOk result (λ t. t ≡ emitted blocks.now plan.now) }
{
    let mut trees = Items::new(alloc);
    add_plan(alloc, blocks, plan, &mut trees)?;
    Ok(gathered(trees))
}
