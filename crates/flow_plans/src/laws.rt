//! What holds of the definitions alone, each law the contract of a function without code.

ghost use Rattle.flow_plans.specs.Laws.{PlansFollow, PlansForm, PlansTurn};

/// A plan that passes gives a tree that follows the flow.
pub fn plans_follow()
    ensures { PlansFollow }
{}

/// Its tree makes no more loop turns than the flow enters heads.
pub fn plans_turn()
    ensures { PlansTurn }
{}

/// The tree of a plan that fits is well formed.
pub fn plans_form()
    ensures { PlansForm }
{}
