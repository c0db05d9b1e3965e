//! Laws about all edges and all waits.

ghost use Rattle.plan_graph.specs.Laws.{DefaultsAscend, FilesComplete, FilesDistinct, ProducersNumbered, ProducersWaited, RankedUnlessCyclic, RanksRise, WaitsAscend};

/// States that the rank of an edge is greater than that of each edge that it waits for.
pub fn ranks_rise()
    ensures { RanksRise }
{}

/// States that edges have ranks if and only if there is no cycle.
pub fn ranked_unless_cyclic()
    ensures { RankedUnlessCyclic }
{}

/// States that each path that an edge names is a file, at its number.
pub fn files_complete()
    ensures { FilesComplete }
{}

/// States that no file is repeated.
pub fn files_distinct()
    ensures { FilesDistinct }
{}

/// States that the producer of a path is the producer of the file with its number.
pub fn producers_numbered()
    ensures { ProducersNumbered }
{}

/// States that an edge waits for the producers of its inputs.
pub fn producers_waited()
    ensures { ProducersWaited }
{}

/// States that the waits of an edge are edges, in ascending order.
pub fn waits_ascend()
    ensures { WaitsAscend }
{}

/// States that the default edges are edges, in ascending order.
pub fn defaults_ascend()
    ensures { DefaultsAscend }
{}
