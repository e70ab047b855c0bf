//! Whether the tree of a plan is well formed.

ghost use Rattle.std.specs.Prelude.{◌≡◌, nat_le, map};
ghost use Rattle.c_syntax.specs.Formed.{is_word, all};
ghost use Rattle.c_syntax.specs.Depth.{deepest};
ghost use Rattle.flow_plans.specs.Fitting.{is_variable, value_fits, values_fit, way_fits, fits, nest};

use crate::plan::{Plan, Value, Way};
use dream_words::Name;

/// The most values of a test.
const MOST_VALUES: usize = 250;

/// Whether the name is an added variable that a text can have.
fn is_variable(n: Name) -> bool
    ensures { result ≡ is_variable n }
{
    match n {
        Name::B(v) => v < u32::MAX,
        Name::S(v) => v < u32::MAX,
        _ => false,
    }
}

/// Whether a number is a word, which each is.
fn is_word(n: u32) -> bool
    ensures { result ≡ is_word n }
{
    true
}

/// Whether a text can have the variable.
fn value_fits(a: Value) -> bool
    ensures { result ≡ value_fits a }
{
    is_variable(a.name) && is_word(a.value)
}

/// Whether a text can have each variable.
fn values_fit(values: &[Value]) -> bool
    ensures { result ≡ values_fit values.now }
{
    for a in values {
        if !value_fits(*a) {
            return false;
        }
    }
    true
}

/// Whether a text can have the variable.
fn way_fits(w: Way) -> bool
    ensures { result ≡ way_fits w }
{
    is_variable(w.name) && is_word(w.on_true) && is_word(w.on_false)
}

/// Whether the tree of a plan may stand in a text, where `breakable` says that a loop stands round it.
#[cycle(fits)]
pub(crate) fn fits(plan: &Plan, breakable: bool) -> bool
    ensures { result ≡ fits plan.now breakable }
{
    match plan {
        Plan::Block(_, way) => way_fits(*way),
        Plan::Seq(plans) => all_fit(plans.as_slice(), breakable),
        Plan::Test(values, p, q) => {
            let values = values.as_slice();
            values_fit(values)
                && values.len() <= MOST_VALUES
                && fits(p.get(), breakable)
                && fits(q.get(), breakable)
        }
        Plan::Put(a) => value_fits(*a),
        Plan::Pick(way, other) => way_fits(*way) && value_fits(*other),
        Plan::Forget(_) => true,
        Plan::Fade(_) => true,
        Plan::Leave => breakable,
        Plan::Loop(_, _, p) => fits(p.get(), true),
    }
}

/// Whether the trees of plans may stand in a text one after another.
#[cycle(fits)]
fn all_fit(plans: &[Plan], breakable: bool) -> bool
    ensures { result ≡ all (map fits plans.now) breakable }
{
    for p in plans {
        if !fits(p, breakable) {
            return false;
        }
    }
    true
}

/// Whether no more tests and loops stand one in another than a number.
#[cycle(nests)]
pub(crate) fn nests_within(plan: &Plan, most: u32) -> bool
    ensures { result ≡ nat_le (nest plan.now) most }
{
    match plan {
        Plan::Block(_, _) => true,
        Plan::Seq(plans) => all_within(plans.as_slice(), most),
        Plan::Test(_, p, q) => {
            most > 0 && nests_within(p.get(), most - 1) && nests_within(q.get(), most - 1)
        }
        Plan::Put(_) => true,
        Plan::Pick(_, _) => true,
        Plan::Forget(_) => true,
        Plan::Fade(_) => true,
        Plan::Leave => true,
        Plan::Loop(_, _, p) => most > 0 && nests_within(p.get(), most - 1),
    }
}

/// The same for plans one after another.
#[cycle(nests)]
fn all_within(plans: &[Plan], most: u32) -> bool
    ensures { result ≡ nat_le (deepest (map nest plans.now)) most }
{
    for p in plans {
        if !nests_within(p, most) {
            return false;
        }
    }
    true
}
