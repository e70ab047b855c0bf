//! A tree, as a function.

ghost use Rattle.std.specs.Prelude.{◌≡◌, [], ◌∷◌, ◌++◌, map, IfOk, OnOk};
ghost use Rattle.c_emit.specs.Emitted.{new_name, printed, case_printed, all_stmts, rest_printed, emitted};
ghost use Rattle.c_emit.specs.Laws.{IsTreeOf};

use crate::gather;
use crate::locals::Locals;
use crate::words::{block, set_to, term};
use c_syntax::{CArm, CExpr, CFun, CGroup, CStmt};
use guarded::{Tree, TreeCase};
use sqlite_items::{Boxed, Items};
use std::alloc::{AllocError, Global};

/// A list of one statement.
fn one(alloc: Global, s: CStmt) -> Result<Items<CStmt>, AllocError>
    ensures { IfOk result (λ b. b ≡ s ∷ []) }
{
    let mut body = Items::new(alloc);
    body.push(s)?;
    Ok(body)
}

/// The statements of a tree.
#[cycle(emit)]
fn statements(alloc: Global, l: &Locals, t: &Tree) -> Result<Items<CStmt>, AllocError>
    ensures { IfOk result (λ b. b ≡ (printed (new_name l.now) t.now).stmts) }
{
    match t {
        Tree::Block(b) => block(alloc, l, b),
        Tree::Seq(members) => {
            let body = sequence(alloc, l, members.as_slice())?;
            Ok(body)
        }
        Tree::If(t, a, b) => {
            let mut arms = Items::new(alloc);
            let test = term(alloc, l, t)?;
            let body = statements(alloc, l, a.get())?;
            arms.push(CArm { test, body })?;
            let last = rest_of(alloc, l, b, &mut arms)?;
            one(alloc, CStmt::If(arms, last))
        }
        Tree::Switch(n, cases, last) => {
            let groups = groups(alloc, l, cases.as_slice())?;
            let last = statements(alloc, l, last.get())?;
            one(alloc, CStmt::Switch(CExpr::Name(l.name(*n)), groups, last))
        }
        Tree::Loop(a) => {
            let body = statements(alloc, l, a.get())?;
            one(alloc, CStmt::Loop(body))
        }
        Tree::While(t, a) => {
            let t = term(alloc, l, t)?;
            let body = statements(alloc, l, a.get())?;
            one(alloc, CStmt::While(t, body))
        }
        Tree::DoWhile(a, t) => {
            let body = statements(alloc, l, a.get())?;
            let t = term(alloc, l, t)?;
            one(alloc, CStmt::DoWhile(body, t))
        }
        Tree::Break => one(alloc, CStmt::Break),
        Tree::Set(n, to) => {
            let e = set_to(alloc, l, to)?;
            one(alloc, CStmt::Set(l.name(*n), e))
        }
    }
}

/// Adds the arms of the Ifs that are directly the `else`. The answer is the last `else`.
#[cycle(emit)]
fn rest_of(
    alloc: Global,
    l: &Locals,
    b: &Option<Boxed<Tree>>,
    arms: &mut Items<CArm>,
) -> Result<Option<Items<CStmt>>, AllocError>
    ensures arms { OnOk result (arms.new ≡ arms.old ++ (rest_printed (new_name l.now) b.now).arms) }
    ensures last { IfOk result (λ o. o ≡ (rest_printed (new_name l.now) b.now).last) }
{
    match b {
        None => Ok(None),
        Some(b) => match b.get() {
            Tree::If(t, a, b) => {
                let test = term(alloc, l, t)?;
                let body = statements(alloc, l, a.get())?;
                arms.push(CArm { test, body })?;
                rest_of(alloc, l, b, arms)
            }
            other => {
                let last = statements(alloc, l, other)?;
                Ok(Some(last))
            }
        },
    }
}

/// The statements of trees one after another.
#[cycle(emit)]
fn sequence(alloc: Global, l: &Locals, members: &[Tree]) -> Result<Items<CStmt>, AllocError>
    ensures { IfOk result (λ b. b ≡ all_stmts (map (printed (new_name l.now)) members.now)) }
{
    let mut body = Items::new(alloc);
    for t in members {
        let part = statements(alloc, l, t)?;
        body.append(part)?;
    }
    Ok(body)
}

/// The groups of a switch.
#[cycle(emit)]
fn groups(alloc: Global, l: &Locals, cases: &[TreeCase]) -> Result<Items<CGroup>, AllocError>
    ensures { IfOk result (λ b. b ≡ map (case_printed (new_name l.now)) cases.now) }
{
    let mut groups = Items::new(alloc);
    for c in cases {
        let values = Items::from_slice(alloc, c.values.as_slice())?;
        let body = statements(alloc, l, &c.body)?;
        groups.push(CGroup { values, body })?;
    }
    Ok(groups)
}

/// The function that says the same as a tree, named by its address. Its locals are those of the tree,
/// each kind renumbered from 0 in the order of its numbers.
pub fn emit(alloc: Global, t: &Tree, address: u32) -> Result<CFun, AllocError>
    ensures exact { IfOk result (λ f. f ≡ emitted t.now address) }
    ensures same { IfOk result (λ f. IsTreeOf t.now f) }
{
    let mut locals = Locals::new(alloc);
    gather::tree(&mut locals, t)?;
    let body = statements(alloc, &locals, t)?;
    Ok(CFun {
        address,
        temps: locals.temps(),
        bools: locals.bools(),
        selectors: locals.selectors(),
        body,
    })
}
