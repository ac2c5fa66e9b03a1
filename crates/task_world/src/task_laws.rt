//! Laws of what is out to workers: each function does nothing, and its contract is the law.
ghost use Rattle.task_world.specs.OutTasks.{OutsAreTasksOrEnds};

use branch_reading::laws::numbered_trees_are_settled;
use task_region::branch_laws::plain_entries_load;

/// What is out to a worker in a legal tree ends a query where the end of one is its first item, and is a task that can be loaded
/// where none is.
pub fn outs_are_tasks_or_ends()
    ensures { OutsAreTasksOrEnds }
{
    numbered_trees_are_settled();
    plain_entries_load();
}
