//! The run of a function.

ghost use Rattle.std.specs.Prelude.{◌≡◌, ◌≤◌, IfOk, map, option_copied};
ghost use Rattle.run_parts.specs.Parts.{has, first_arm, group_of};
ghost use Rattle.run_parts.specs.World.{World};
ghost use Rattle.c_run.specs.Env.{names_of};
ghost use Rattle.c_syntax.specs.Run.{c_run};
ghost use Rattle.c_run.specs.RunBy.{run_by, run_arm_by, run_group_by, run_all_by, loop_by};
ghost use Rattle.c_run.specs.State.{Does, DoesOr, test_of};

use crate::callees::{Answered, Callees, ext};
use crate::env::Env;
use crate::state::{End, Flow, State};
use c_syntax::{CArm, CCond, CFun, CGroup, CStmt};
use c_value::{truth, value};
use dream_words::{Answer, Outcome, Start};
use std::alloc::{AllocError, Global};

/// The run of a function with at most `turns` loop turns in all, a turn being one entry into a
/// loop's body. The k-th `ext` takes the k-th of the answers.
pub fn run_c(
    alloc: Global,
    f: &CFun,
    start: &Start,
    answers: &[Answer],
    turns: u64,
) -> Result<Outcome, AllocError>
    ensures { IfOk result (λ o. o ≡ c_run f.now start.now answers.now turns) }
{
    let mut state = State::new(alloc, start)?;
    let mut left = turns;
    let callees = Answered { answers };
    let flow = sequence(f.body.as_slice(), &callees, &mut left, &mut state)?;
    Ok(state.outcome(flow))
}

/// One statement.
#[cycle(run)]
fn statement<H: Callees>(
    s: &CStmt,
    callees: &H,
    turns: &mut u64,
    state: &mut State<'_>,
) -> Result<Flow, AllocError>
    ensures value { IfOk result (λ flow.
        Does (run_by (H.does callees.now) s.now) (H.left callees.now) turns.old state.old flow turns.new state.new) }
    ensures spends { turns.new ≤ turns.old }
{
    match s {
        CStmt::Set(n, a) => state.set(*n, a),
        CStmt::Load(n, width, a) => state.load(*n, *width, a),
        CStmt::Store(width, a, b) => state.store(*width, a, b),
        CStmt::Ext(a) => ext(a, callees, turns, state),
        CStmt::Trap(vector, a) => Ok(state.trap(*vector, a)),
        CStmt::If(arms, last) => match choose(arms.as_slice(), callees, turns, state)? {
            Some(flow) => Ok(flow),
            None => match last {
                None => Ok(Flow::Next),
                Some(body) => sequence(body.as_slice(), callees, turns, state),
            },
        },
        CStmt::Switch(a, groups, last) => match value(a, &state.env) {
            None => Ok(Flow::Ends(End::Stuck)),
            Some(x) => match select(groups.as_slice(), x, callees, turns, state)? {
                Some(flow) => Ok(flow.caught()),
                None => {
                    let flow = sequence(last.as_slice(), callees, turns, state)?;
                    Ok(flow.caught())
                }
            },
        },
        CStmt::Loop(body) => repeat(body.as_slice(), None, None, callees, turns, state),
        CStmt::While(t, body) => repeat(body.as_slice(), Some(t), None, callees, turns, state),
        CStmt::DoWhile(body, t) => repeat(body.as_slice(), None, Some(t), callees, turns, state),
        CStmt::Break => Ok(Flow::Left),
        CStmt::Return => Ok(Flow::Ends(End::Returned)),
    }
}

/// Statements one after another.
#[cycle(run)]
fn sequence<H: Callees>(
    body: &[CStmt],
    callees: &H,
    turns: &mut u64,
    state: &mut State<'_>,
) -> Result<Flow, AllocError>
    ensures value { IfOk result (λ flow.
        Does (run_all_by (H.does callees.now) body.now) (H.left callees.now) turns.old state.old flow turns.new state.new) }
    ensures spends { turns.new ≤ turns.old }
{
    for s in body {
        match statement(s, callees, turns, state)? {
            Flow::Next => {}
            flow => return Ok(flow),
        }
    }
    Ok(Flow::Next)
}

/// The first arm whose test holds. None where there is none.
#[cycle(run)]
fn choose<H: Callees>(
    arms: &[CArm],
    callees: &H,
    turns: &mut u64,
    state: &mut State<'_>,
) -> Result<Option<Flow>, AllocError>
    ensures value { IfOk result (λ o.
        DoesOr (first_arm (map (run_arm_by (H.does callees.now)) arms.now))
        (H.left callees.now) turns.old state.old o turns.new state.new) }
    ensures spends { turns.new ≤ turns.old }
{
    for arm in arms {
        match truth(&arm.test, &state.env) {
            None => return Ok(Some(Flow::Ends(End::Stuck))),
            Some(true) => return Ok(Some(sequence(arm.body.as_slice(), callees, turns, state)?)),
            Some(false) => {}
        }
    }
    Ok(None)
}

/// The group that has the value. None where there is none.
#[cycle(run)]
fn select<H: Callees>(
    groups: &[CGroup],
    x: u32,
    callees: &H,
    turns: &mut u64,
    state: &mut State<'_>,
) -> Result<Option<Flow>, AllocError>
    ensures value { IfOk result (λ o.
        DoesOr (λ last. group_of (map (run_group_by (H.does callees.now)) groups.now) last x)
        (H.left callees.now) turns.old state.old o turns.new state.new) }
    ensures spends { turns.new ≤ turns.old }
{
    for group in groups {
        if has(group.values.as_slice(), x) {
            return Ok(Some(sequence(group.body.as_slice(), callees, turns, state)?));
        }
    }
    Ok(None)
}

/// A loop with a test before its body and a test after it. One that is absent holds.
#[cycle(run)]
fn repeat<H: Callees>(
    body: &[CStmt],
    enter: Option<&CCond>,
    again: Option<&CCond>,
    callees: &H,
    turns: &mut u64,
    state: &mut State<'_>,
) -> Result<Flow, AllocError>
    ensures value { IfOk result (λ flow.
        Does (loop_by (H.does callees.now) (option_copied enter.entry) body.now (option_copied again.entry))
        (H.left callees.now) turns.old state.old flow turns.new state.new) }
    ensures spends { turns.new ≤ turns.old }
{
    loop {
        match test_of(enter, &state.env) {
            None => return Ok(Flow::Ends(End::Stuck)),
            Some(false) => return Ok(Flow::Next),
            Some(true) => {}
        }
        if *turns == 0 {
            return Ok(Flow::Ends(End::Going));
        }
        *turns -= 1;
        match sequence(body, callees, turns, state)? {
            Flow::Next => {}
            Flow::Left => return Ok(Flow::Next),
            flow => return Ok(flow),
        }
        match test_of(again, &state.env) {
            None => return Ok(Flow::Ends(End::Stuck)),
            Some(false) => return Ok(Flow::Next),
            Some(true) => {}
        }
    }
}

/// The test of a loop. One that is absent holds.
fn test_of(t: Option<&CCond>, env: &Env) -> Option<bool>
    ensures { (w : World) → w.names ≡ names_of env.now → result ≡ test_of (option_copied t.entry) w }
{
    match t {
        None => Some(true),
        Some(t) => truth(t, env),
    }
}

/// The number stands in the list.
fn has(values: &[u32], x: u32) -> bool
    ensures { result ≡ has values.now x }
{
    values.contains(&x)
}
