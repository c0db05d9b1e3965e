//! Laws about the end of a build.

ghost use Rattle.plan_commands.specs.BuildIsRight.{BuildIsRight, IdleBuildsAreRight, IdleBuildsRunNothing};
ghost use Rattle.plan_commands.specs.Showing.{by_format};

use plan_lanes::World;
use plan_laws::{commands_run_once, ends_are_plain, finished_runs_are_right};
use plan_scope::Source;
use plan_status::Format;

/// States that if a build ends with status 0, each wanted edge of the manifest that was read last began after
/// everything that it waits for had succeeded. Each of these edges was clean by its out-of-date rule, or its own
/// command ran to exit status 0 in this build. The build may be shown by any format.
pub fn build_is_right<S: Source, W: World, F: Format>()
    ensures { (source : S) (kept : F.Kept) → BuildIsRight (S.gives source) (by_format F.kept F.tells kept) W.allows }
{
    finished_runs_are_right::<W>();
}

/// States that if a build ends with no work to do, no wanted edge asked for a command in the run for the targets.
pub fn idle_builds_run_nothing<S: Source, W: World, F: Format>()
    ensures { (source : S) (kept : F.Kept) → IdleBuildsRunNothing (S.gives source) (by_format F.kept F.tells kept) W.allows }
{
    commands_run_once();
}

/// States that if a build ends without a run for its targets, it named none. Then each edge that the defaults of the
/// manifest need, or the edge that makes it, is clean by the stricter out-of-date rule. The manifest is the one that was
/// read last.
pub fn idle_builds_are_right<S: Source, W: World, F: Format>()
    ensures { (source : S) (kept : F.Kept) → IdleBuildsAreRight (S.gives source) (by_format F.kept F.tells kept) W.allows }
{
    ends_are_plain();
}
