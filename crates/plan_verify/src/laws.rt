//! Laws about the definitions.
ghost use Rattle.plan_verify.specs.Alone.{GoesOnAlone, NeverWrongAlone};
ghost use Rattle.plan_verify.specs.Budget.{StaysInBudgetAlone};
ghost use Rattle.plan_verify.specs.Facts.{CodesAreShort, RefusalsAreTrue, TablesAreInRange, VerifiedNeverGoesWrong};
ghost use Rattle.plan_verify.specs.Seam.{HearsWhatSuits, QuestionsIgnoreSlots, StaysTyped};
ghost use Rattle.plan_verify.specs.Sound.{InstructionsFit, RepliesAreSafe, StepsAreSafe};
ghost use Rattle.plan_verify.specs.Worth.{AllTurnsPay};

/// States that in an edge with shapes each instruction fits its place.
pub fn instructions_fit()
    ensures { InstructionsFit }
{}

/// States that a step of a typed edge is safe.
pub fn steps_are_safe()
    ensures { StepsAreSafe }
{}

/// States that the effect of a matching reply on a typed edge is safe.
pub fn replies_are_safe()
    ensures { RepliesAreSafe }
{}

/// States that an edge with shapes, run alone, never goes wrong.
pub fn never_wrong_alone()
    ensures { NeverWrongAlone }
{}

/// States that an edge run alone has no more events than its budget and the number of bytes in the replies
/// together.
pub fn stays_in_budget_alone()
    ensures { StaysInBudgetAlone }
{}

/// States that the remaining budget of an edge pays for each of its turns.
pub fn all_turns_pay()
    ensures { AllTurnsPay }
{}

/// States that an edge's question doesn't depend on the slots.
pub fn questions_ignore_slots()
    ensures { QuestionsIgnoreSlots }
{}

/// States that an edge stays typed while others set slots.
pub fn stays_typed()
    ensures { StaysTyped }
{}

/// States that an edge with a pending question accepts a reply if and only if it matches the question.
pub fn hears_what_suits()
    ensures { HearsWhatSuits }
{}

/// States that an edge run alone that has a pending question accepts each reply that matches it.
pub fn goes_on_alone()
    ensures { GoesOnAlone }
{}

/// States that the tables of a well-shaped image are in range. Each edge waits only for edges of lesser ranks.
/// Its pool, label and outputs are in their tables. Each slot has an owner and holds no list of paths. Each
/// default is an edge.
pub fn tables_are_in_range()
    ensures { TablesAreInRange }
{}

/// States that an edge of a well-shaped image, run alone, never goes wrong.
pub fn verified_never_goes_wrong()
    ensures { VerifiedNeverGoesWrong }
{}

/// States that a refused edge has no shapes, and that a refused image isn't well shaped.
pub fn refusals_are_true()
    ensures { RefusalsAreTrue }
{}

/// States that the code of an edge of an image has fewer than 2^32 instructions.
pub fn codes_are_short()
    ensures { CodesAreShort }
{}
