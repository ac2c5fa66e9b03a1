//! Laws of branches: each function does nothing, and its contract is the law.
ghost use Rattle.task_region.specs.PlacesUp.{PlacesAreLevels};
ghost use Rattle.task_region.specs.KeptRegions.{KeptRegionsStay, TasksLeaveKept, TasksStayOnWays};
ghost use Rattle.task_region.specs.TaskLoads.{PlainEntriesLoad};

use branch_reading::laws::numbered_trees_are_settled;

/// A region that a worker keeps stays bound to its branch while rows keep what they are below and what they were made from, and so does
/// that of a task that runs, which leaves one that can be kept.
pub fn kept_regions_stay()
    ensures stay { KeptRegionsStay }
    ensures run { TasksStayOnWays }
    ensures leave { TasksLeaveKept }
{}

/// The places on the way up from an alternative of a tree are those of its levels, and the branches at them are its way.
pub fn places_are_levels()
    ensures { PlacesAreLevels }
{}

/// In a tree whose entries are all numbered, as those of every legal history are, the nodes know all that `load_task` asks of a
/// pending alternative whose entry is plain.
pub fn plain_entries_load()
    ensures { PlainEntriesLoad }
{
    numbered_trees_are_settled();
}
