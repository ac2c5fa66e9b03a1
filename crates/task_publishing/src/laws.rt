//! Laws of what a task has left: each function does nothing, and its contract is the law.
ghost use Rattle.task_publishing.specs.OwnEntries.{OwnEntriesAreOverFloor, OwnEntriesAreTaken};
ghost use Rattle.task_publishing.specs.TaskRuns.{LoadedTasksStop, StoppedTasksHaveOwn, StoppedTasksRunOn, TasksStayOnBranches};

use branch_shapes::laws::floor_items_stay;
use region_floor::laws::steps::{deferred_items_are_left, regions_run_privately, tops_are_own};
use task_region::laws::ends_are_the_floor;

/// Own entries of a region that are captured mean, with what was deferred in its place, the entries of alternatives that bodies are made
/// of; and a region that stands for own entries can be captured down to the floor.
pub fn own_entries_are_taken()
    ensures taken { OwnEntriesAreTaken }
    ensures floor { OwnEntriesAreOverFloor }
{
    deferred_items_are_left();
    tops_are_own();
    ends_are_the_floor();
    floor_items_stay();
}

/// A task that was loaded and run, and run on, stops on the run of its alternative; where it can go on, it stands for own entries, and it
/// stays over what is bound on its branch.
pub fn tasks_stop_on_runs()
    ensures loaded { LoadedTasksStop }
    ensures on { StoppedTasksRunOn }
    ensures own { StoppedTasksHaveOwn }
    ensures stay { TasksStayOnBranches }
{
    regions_run_privately();
    tops_are_own();
}
