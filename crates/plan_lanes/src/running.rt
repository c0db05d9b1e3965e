//! Commands that run at the same time.

ghost use Rattle.plan_lanes.specs.Running.{CommandsKeepToPlaces};

use plan_machine::marks_are_orderly;

/// States that an edge that asked to run its command holds a job token until the reply is applied. So at any time, the
/// number of edges that await the reply to a command is at most the number of jobs. In each pool it is at most the
/// depth of the pool.
pub fn commands_keep_to_places()
    ensures { CommandsKeepToPlaces }
{
    marks_are_orderly();
}
