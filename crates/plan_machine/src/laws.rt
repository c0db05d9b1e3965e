//! Laws about the definitions, for every well-shaped image and all options, targets and events.

ghost use Rattle.plan_machine.specs.Agreement.{InterleavingsAgree};
ghost use Rattle.plan_machine.specs.Depfile.{depfile};
ghost use Rattle.plan_machine.specs.Histories.{EachRanByItself, SlotsStay};
ghost use Rattle.plan_machine.specs.InBudget.{StaysInBudget};
ghost use Rattle.plan_machine.specs.NeverStuck.{NeverStuck};
ghost use Rattle.plan_machine.specs.NeverWrong.{NeverWrong};
ghost use Rattle.plan_machine.specs.Orderly.{MarksAreOrderly};
ghost use Rattle.plan_machine.specs.TurnLaws.{TurnLaws};
ghost use Rattle.plan_verify.specs.Budget.{IsFrugal};

use plan_depfile::paths_are_few;
use plan_verify::{
    all_turns_pay, goes_on_alone, instructions_fit, questions_ignore_slots, replies_are_safe,
    stays_typed, steps_are_safe, tables_are_in_range,
};

/// States the laws of plan_verify that turns of edges rely on. It has no code.
pub(crate) fn turn_laws()
    ensures { TurnLaws }
{
    all_turns_pay();
    instructions_fit();
    questions_ignore_slots();
    replies_are_safe();
    stays_typed();
    steps_are_safe();
    tables_are_in_range();
}

/// States that no event of a reached state goes wrong.
pub fn never_wrong()
    ensures { NeverWrong }
{
    turn_laws();
}

/// States that the marks of every run are orderly. An edge starts at most once, and after all edges that it
/// waits for have succeeded. At each position, the number of edges that hold a job token is at most the number
/// of jobs, and for each pool at most its depth.
pub fn marks_are_orderly()
    ensures { MarksAreOrderly }
{
    turn_laws();
}

/// States that each reached state has ended, can go on, or awaits a reply.
pub fn never_stuck()
    ensures { NeverStuck }
{
    turn_laws();
}

/// States that the number of events in a run is at most the image's budget plus the number of dependency bytes
/// in its replies.
pub fn stays_in_budget()
    ensures { StaysInBudget }
{
    turn_laws();
}

/// States that two ended runs of one image agree if there is no failure limit, the targets are the same, and
/// each edge got the same replies. They have the same outcomes and the same slots. Two outcomes `Skipped` may
/// name different edges, and the numbers of jobs may differ.
pub fn interleavings_agree()
    ensures { InterleavingsAgree }
{
    turn_laws();
}

/// States that each edge of a run ran by itself: from the slots that its waits left, by the replies that it
/// got, in their order.
pub fn each_ran_by_itself()
    ensures { EachRanByItself }
{
    turn_laws();
    goes_on_alone();
}

/// States that the slots set by an edge that succeeded keep their values.
pub fn slots_stay()
    ensures { SlotsStay }
{
    turn_laws();
}

/// States that a depfile has at least two bytes for each of its paths, which `stays_in_budget` requires of the
/// meaning of depfiles.
pub fn depfiles_are_frugal()
    ensures { IsFrugal depfile }
{
    paths_are_few();
}
