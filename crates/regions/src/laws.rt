//! What holds of the definitions alone, each law the contract of a function without code.

ghost use Rattle.regions.specs.Follows.{FollowingAgrees};
ghost use Rattle.regions.specs.Straight.{StraightIsExact};

/// What a flow agrees with, a tree that follows it agrees with.
pub fn following_agrees()
    ensures { FollowingAgrees }
{}

/// There is a straight tree exactly where the line from the entry on comes to an end.
pub fn straight_is_exact()
    ensures { StraightIsExact }
{}
