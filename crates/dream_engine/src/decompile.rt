//! From a range to its function, and to the text of that.

ghost use Rattle.std.specs.Prelude.{◌≡◌, ◌⊎◌, IfOk, IfErr, IfSome};
ghost use Rattle.dream_engine.specs.Agreement.{IsDecompiled, IsFunctionOf};
ghost use Rattle.dream_engine.specs.Tree.{IsPlannedOf, IsTreeIn};
ghost use Rattle.flow_graph.specs.Discovery.{IsDiscovered};
ghost use Rattle.flow_graph.specs.Place.{HasNoPlace, HasNoText};
ghost use Rattle.micro_ir.specs.Rule.{IsGiven};
ghost use Rattle.regions.specs.Laws.{IsPlainOf};

use crate::form::Form;
use crate::settled::settled;
use crate::short::shortened;
use c_emit::emit;
use c_print::print;
use c_syntax::{CFun, canonical_stands};
use elf_image::{Image, Range};
use flow_graph::{FlowFault, Found, discover};
use flow_layout::layout_of;
use flow_plans::structured;
use guarded::Tree;
use micro_ir::Flow;
use range_flow::flow_of;
use regions::{plain, straight};
use std::alloc::{AllocError, Global};

// The tree of a flow in a form.
fn tree_of(alloc: Global, f: &Flow, form: Form) -> Result<Tree, AllocError>
    requires given { IsGiven f.now }
    ensures { IfOk result (IsTreeIn form f.now) }
{
    match form {
        Form::Plain => plain(alloc, f),
        Form::Structured => match straight(alloc, f)? {
            Some(t) => Ok(t),
            None => planned_or_plain(alloc, f),
        },
    }
}

// The tree of a plan for a flow; the plain one where no plan is found that the check lets through.
fn planned_or_plain(alloc: Global, f: &Flow) -> Result<Tree, AllocError>
    requires given { IsGiven f.now }
    ensures { IfOk result (λ t. IsPlannedOf f.now t ⊎ IsPlainOf f.now t) }
{
    match planned(alloc, f)? {
        Some(t) => Ok(t),
        None => plain(alloc, f),
    }
}

// The tree of a plan for a flow.
fn planned(alloc: Global, f: &Flow) -> Result<Option<Tree>, AllocError>
    requires given { IsGiven f.now }
    ensures { IfOk result (λ o. IfSome o (IsPlannedOf f.now)) }
{
    match layout_of(alloc, f)? {
        None => Ok(None),
        Some(l) => {
            let tree = structured(alloc, f, &l.heads, &l.zeros, &l.plan)?;
            Ok(tree)
        }
    }
}

// The function of what is discovered of a range.
fn function_of(
    alloc: Global,
    m: &Image,
    r: &Range,
    found: &Found,
    form: Form,
) -> Result<CFun, AllocError>
    requires no_place { HasNoPlace m.now r.now }
    requires discovered { IsDiscovered m.now r.now found.now.places.items found.now.graph }
    ensures { IfOk result (IsFunctionOf form m.now r.now) }
{
    let flow = flow_of(alloc, m, r, found)?;
    let short = shortened(alloc, flow)?;
    let tree = tree_of(alloc, &short, form)?;
    emit(alloc, &tree, r.entry)
}

/// The function of a range of an image, in a form.
pub fn decompile_fun(alloc: Global, m: &Image, r: &Range, form: Form) -> Result<CFun, FlowFault>
    ensures ok { IfOk result (IsFunctionOf form m.now r.now) }
    ensures err { IfErr result (HasNoText m.now r.now) }
{
    let found = discover(alloc, m, r)?;
    let f = function_of(alloc, m, r, &found, form)?;
    let g = settled(alloc, f)?;
    Ok(g)
}

/// The text of that function.
pub fn decompile_one(alloc: Global, m: &Image, r: &Range, form: Form) -> Result<Vec<u8>, FlowFault>
    ensures ok { IfOk result (λ text. IsDecompiled form m.now r.now text.items) }
    ensures err { IfErr result (HasNoText m.now r.now) }
{
    canonical_stands();
    let f = decompile_fun(alloc, m, r, form)?;
    let text = print(alloc, &f)?;
    Ok(text)
}
