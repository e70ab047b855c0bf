//! Trees of small flows.

ghost use Rattle.std.specs.Prelude.{◌≡◌, [], ◌∷◌, IfOk};
ghost use Rattle.micro_ir.specs.Rule.{IsGiven};

use c_emit::emit;
use c_print::print;
use dream_words::Name;
use graph_order::NodeId;
use guarded::{SetTo, Tree};
use micro_ir::{Block, End, Expr, Flow};
use regions::{plain, straight};
use sqlite_items::Items;
use std::alloc::{AllocError, Global};
use std::test::Fail;

fn block(alloc: Global, end: End) -> Block
    ensures { result ≡ record { at = 4096; stmts = []; «end» = end } }
{
    Block {
        at: 4096,
        stmts: Items::new(alloc),
        end,
    }
}

/// A flow of two blocks without statements.
fn flow(alloc: Global, entry: u32, first: End, second: End) -> Result<Flow, AllocError>
    ensures { IfOk result (λ f. f ≡ record { entry = entry; blocks = record { at = 4096; stmts = []; «end» = first } ∷ record { at = 4096; stmts = []; «end» = second } ∷ [] }) }
{
    let mut blocks = Items::new(alloc);
    blocks.push(block(alloc, first))?;
    blocks.push(block(alloc, second))?;
    Ok(Flow {
        entry: NodeId(entry),
        blocks,
    })
}

/// Two blocks that go to each other.
fn ring(alloc: Global) -> Result<Flow, AllocError>
    ensures { IfOk result (λ f. IsGiven f) }
{
    let f = flow(alloc, 1, End::Go(NodeId(1)), End::Go(NodeId(0)))?;
    Ok(f)
}

/// A block that goes on at the other one, which returns.
fn pair(alloc: Global) -> Result<Flow, AllocError>
    ensures { IfOk result (λ f. IsGiven f) }
{
    let f = flow(alloc, 0, End::Go(NodeId(1)), End::Return)?;
    Ok(f)
}

/// The last member of a Seq.
fn last_of(t: &Tree) -> Option<&Tree> {
    match t {
        Tree::Seq(members) => members.as_slice().last(),
        _ => None,
    }
}

/// The number that the selector is set to.
fn selected(t: &Tree) -> Option<u32> {
    match t {
        Tree::Set(Name::S(0), SetTo::Expr(Expr::Num(n))) => Some(*n),
        _ => None,
    }
}

/// The block that comes next after the block of a number, in a plain tree.
fn next_of(t: &Tree, k: usize) -> Option<u32> {
    match last_of(t)? {
        Tree::Loop(turn) => match turn.get() {
            Tree::Switch(Name::S(0), cases, _) => {
                selected(last_of(&cases.as_slice().get(k)?.body)?)
            }
            _ => None,
        },
        _ => None,
    }
}

/// How many members a straight tree has.
fn members(t: Option<Tree>) -> Option<usize> {
    match t {
        Some(Tree::Seq(members)) => Some(members.len()),
        _ => None,
    }
}

/// The blocks of the ring come next after each other in its plain tree.
fn ring_turns(alloc: Global) -> Result<bool, AllocError> {
    let f = ring(alloc)?;
    let t = plain(alloc, &f)?;
    Ok(next_of(&t, 0) == Some(1) && next_of(&t, 1) == Some(0))
}

/// How many blocks are in the line of the ring.
fn ring_members(alloc: Global) -> Result<Option<usize>, AllocError> {
    let f = ring(alloc)?;
    let t = straight(alloc, &f)?;
    Ok(members(t))
}

/// How many blocks are in the line of the pair.
fn pair_members(alloc: Global) -> Result<Option<usize>, AllocError> {
    let f = pair(alloc)?;
    let t = straight(alloc, &f)?;
    Ok(members(t))
}

#[test]
fn small_flows(rt: HostRuntime) -> Result<(), Fail> {
    assert!(rt; ring_turns(rt.alloc())?);
    assert_eq!(rt; ring_members(rt.alloc())?, None);
    assert_eq!(rt; pair_members(rt.alloc())?, Some(2));
    Ok(())
}

const EMPTY: &str = "#include \"dream386.h\"\n\nvoid f_08048100(void)\n{\n}\n";

#[test]
fn an_empty_tree_is_an_empty_function(rt: HostRuntime) -> Result<(), Fail> {
    let tree = Tree::Seq(Items::new(rt.alloc()));
    let function = emit(rt.alloc(), &tree, 0x0804_8100)?;
    let text = print(rt.alloc(), &function)?;
    assert_eq!(rt; text.as_slice(), EMPTY.as_bytes());
    Ok(())
}
