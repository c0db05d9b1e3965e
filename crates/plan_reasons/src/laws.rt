//! Laws of reasons.

ghost use Rattle.plan_reasons.specs.Causes.{CommandsHaveReasons, RepliesAreObserved};
ghost use Rattle.plan_reasons.specs.Reasons.{ReasonsAreCauses, ReasonsHold};

/// There is a reason exactly if the rule says that the edge is dirty.
pub fn reasons_are_causes()
    ensures { ReasonsAreCauses }
{}

/// What the first reason says holds: it names the output, input, path or entry that makes the edge dirty.
pub fn reasons_hold()
    ensures { ReasonsHold }
{}

/// The replies of an edge that asked what the rule decides by are what it observed.
pub fn replies_are_observed()
    ensures { RepliesAreObserved }
{}

/// An edge whose conversation leads along the rule to the question to run its command has a reason, by the replies
/// that it got. It is the first reason of its observations, and it holds.
pub fn commands_have_reasons()
    ensures { CommandsHaveReasons }
{}
