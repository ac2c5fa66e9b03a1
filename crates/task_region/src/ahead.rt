//! What lies ahead of a task.
ghost use Rattle.std.specs.Prelude.{IfOk, Option, None};
ghost use Rattle.region_split.specs.Regions.{RegionView};
ghost use Rattle.task_region.specs.TaskViews.{view_of_task};
ghost use Rattle.task_region.specs.TaskRounds.{HasLooked, LooksAhead};

use crate::loading::{AfterDeferred, leave_rest, take_deferred};
use crate::running::TaskStop;
use crate::start::TaskStart;
use au_term::NoMemory;
use region_control::{Ahead, GoalPlace};
use region_split::{FrameItem, Position, Region};
use std::alloc::Global;

/// What lies ahead of a task.
#[derive(Drop)]
pub(crate) enum TaskAhead {
    /// A goal, and where it stands.
    Goal(FrameItem, GoalPlace),
    /// The run stops, and where it would go on.
    Stops(TaskStop, Option<Position>),
}

/// What was found ahead of a task; what is deferred is taken up where that comes next.
pub(crate) fn task_ahead(
    region: &mut Region,
    alloc: Global,
    task: &TaskStart,
    found: Ahead,
) -> Result<TaskAhead, NoMemory>
    requires { (old : RegionView) × (start : Option Position) × HasLooked (view_of_task old task.now start) region.old found }
    ensures { (old : RegionView) (start : Option Position) → HasLooked (view_of_task old task.now start) region.old found → IfOk result (LooksAhead (view_of_task old task.now start) (view_of_task region.new task.now None)) }
{
    let number = match found {
        Ahead::Goal(item, place) => return Ok(TaskAhead::Goal(item, place)),
        Ahead::Removal(number, _) => number,
        Ahead::Answer(position) => return Ok(TaskAhead::Stops(TaskStop::Answer, Some(position))),
        Ahead::QueryDone => return Ok(TaskAhead::Stops(TaskStop::Empty, None)),
        Ahead::AllDone => return Ok(TaskAhead::Stops(TaskStop::Empty, None)),
    };
    region.ends_are_oldest();
    let reached = take_deferred(region, alloc, &task.deferred, number)?;
    match reached {
        AfterDeferred::Goal(item, place) => Ok(TaskAhead::Goal(item, place)),
        AfterDeferred::Answer(number) => {
            let position = leave_rest(region, number)?;
            Ok(TaskAhead::Stops(TaskStop::Answer, Some(position)))
        }
        AfterDeferred::Result(number) => {
            let position = leave_rest(region, number)?;
            Ok(TaskAhead::Stops(TaskStop::Collect(number), Some(position)))
        }
        AfterDeferred::Removal { number, clause } => {
            let position = leave_rest(region, number)?;
            Ok(TaskAhead::Stops(TaskStop::Removal(clause), Some(position)))
        }
    }
}
