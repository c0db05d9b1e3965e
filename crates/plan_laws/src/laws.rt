//! Laws of runs of the images of manifests.

ghost use Rattle.plan_laws.specs.Ends.{CommandsRunOnce, EndsArePlain};
ghost use Rattle.plan_laws.specs.Explained.{CommandsAreExplained};
ghost use Rattle.plan_laws.specs.Manifests.{NothingElseRuns, RunsKeepToManifest};
ghost use Rattle.plan_laws.specs.Right.{FinishedEdgesAreRight, FinishedRunsAreRight};

use plan_compile::{
    image_is_faithful, image_is_laid_out, image_is_shaped, image_keeps_to_rule, manifests_are_sound,
};
use plan_lanes::World;
use plan_machine::{each_ran_by_itself, slots_stay};
use plan_reasons::commands_have_reasons;

/// States that each edge that began in a run of a manifest's image asked what the out-of-date rule asks for that edge
/// of the manifest, with the replies that it got in the run. The edge keeps to the rest of the rule, whatever other
/// edges did meanwhile.
pub fn runs_keep_to_manifest<W: World>()
    ensures { RunsKeepToManifest W.allows }
{
    each_ran_by_itself();
    image_keeps_to_rule();
    manifests_are_sound();
    image_is_shaped();
}

/// States that a conversation that follows the rule of an edge contains no command but the edge's own.
pub fn nothing_else_runs()
    ensures { NothingElseRuns }
{}

/// States that each edge that has asked to run its command in a run of a manifest's image has a reason, by the replies
/// that it got and by the stamps and flags that its waits left.
pub fn commands_are_explained()
    ensures { CommandsAreExplained }
{
    each_ran_by_itself();
    image_keeps_to_rule();
    image_is_shaped();
    manifests_are_sound();
    image_is_laid_out();
    commands_have_reasons();
}

/// States that an edge that came to the end of its rule was clean by the rule, or its own command ran to exit status 0,
/// its depfile was read and its entry was kept. This follows from the list of all its questions with their replies.
pub fn ends_are_plain()
    ensures { EndsArePlain }
{}

/// States that an edge that succeeded asked for no command, or asked exactly once for its own command, with the reply
/// exit status 0.
pub fn commands_run_once()
    ensures { CommandsRunOnce }
{}

/// States that each edge that succeeded in a run of a manifest's image came to the end of the rule for that edge of the
/// manifest: it was clean, or its own command ran to exit status 0 in this run.
pub fn finished_edges_are_right<W: World>()
    ensures { FinishedEdgesAreRight W.allows }
{
    runs_keep_to_manifest::<W>();
    ends_are_plain();
    each_ran_by_itself();
    slots_stay();
    image_keeps_to_rule();
    image_is_shaped();
    manifests_are_sound();
    image_is_laid_out();
}

/// States that if all wanted edges succeeded in a run of a manifest's image, each of them began after everything that
/// it waits for had succeeded, and came to the end of its rule.
pub fn finished_runs_are_right<W: World>()
    ensures { FinishedRunsAreRight W.allows }
{
    finished_edges_are_right::<W>();
    image_is_faithful();
}
