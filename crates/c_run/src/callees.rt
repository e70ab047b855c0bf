//! What is done with the calls of a run.

ghost use Rattle.std.specs.Prelude.{◌≡◌, ◌≤◌, ℕ, IfOk};
ghost use Rattle.c_syntax.specs.Run.{Part};
ghost use Rattle.c_run.specs.State.{Left, Does, after_calls};
ghost use Rattle.c_run.specs.RunBy.{by_answers, does_ext_by};

use crate::state::{End, Flow, State};
use c_syntax::CExpr;
use c_value::value;
use dream_words::Answer;
use std::alloc::AllocError;

/// What a run calls by `ext`.
pub(crate) trait Callees {
    /// The answers that are left after calls.
    ghost left: { Self → Left };

    /// What a call of a target does, as a part of the run.
    ghost does: { Self → ℕ → Part };

    /// A call of a target, which may take turns.
    fn call(&self, target: u32, turns: &mut u64, state: &mut State<'_>) -> Result<Flow, AllocError>
        ensures value { IfOk result (λ flow.
            Does (does self.now target) (left self.now) turns.old state.old flow turns.new state.new) }
        ensures spends { turns.new ≤ turns.old };
}

/// Calls that are recorded, of which the k-th takes the k-th of the answers.
#[derive(Clone, Copy)]
pub(crate) struct Answered<'a> {
    pub answers: &'a [Answer],
}

impl Callees for Answered<'_> {
    ghost left = { λ callees. after_calls callees.answers.now };

    ghost does = { λ callees. by_answers };

    fn call(
        &self,
        target: u32,
        turns: &mut u64,
        state: &mut State<'_>,
    ) -> Result<Flow, AllocError> {
        state.call(self.answers, target)
    }
}

/// `ext(a);`
pub(crate) fn ext<H: Callees>(
    a: &CExpr,
    callees: &H,
    turns: &mut u64,
    state: &mut State<'_>,
) -> Result<Flow, AllocError>
    ensures value { IfOk result (λ flow.
        Does (does_ext_by (H.does callees.now) a.now) (H.left callees.now)
        turns.old state.old flow turns.new state.new) }
    ensures spends { turns.new ≤ turns.old }
{
    match value(a, &state.env) {
        None => Ok(Flow::Ends(End::Stuck)),
        Some(target) => callees.call(target, turns, state),
    }
}
