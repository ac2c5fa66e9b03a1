//! Runs of a task.
ghost use Rattle.std.specs.Prelude.{◌≡◌, IfOk, Some};
ghost use Rattle.task_region.specs.TaskStandings.{IsUnderWay};
ghost use Rattle.task_region.specs.TaskViews.{view_of_task};
ghost use Rattle.task_region.specs.TaskRounds.{RunsOn};

use crate::rounds::{TaskRound, after_goal, pass_on, take_goal};
use crate::start::TaskStart;
use au_term::{FlatTerm, NoMemory};
use goal_kinds::GoalKinds;
use region_control::{Ahead, GoalPlace, look_ahead};
use region_run::{Taken, take_compound};
use region_split::{FrameItem, Position, Region};
use std::alloc::Global;

/// Why a task stopped.
#[derive(Drop)]
pub enum TaskStop {
    /// As many inferences were taken as were allowed, and a goal is next.
    Limit,
    /// A cut to a node of the branch is next, by the height of the node.
    Cut(u32),
    /// This goal, which looks at the world or changes it, is next.
    World(FrameItem, GoalPlace),
    /// The removal of the clause with this number is next.
    Removal(u64),
    /// Nothing is left to do: the query holds.
    Answer,
    /// A result for a findall of the branch is next, which is deferred under this number.
    Collect(u64),
    /// A goal is next that throws this ball, its variables numbered from 0, which no catch of the task takes.
    Ball(FlatTerm),
    /// No solution is left.
    Empty,
}

/// How far a task came, in inferences, and why it stopped.
#[derive(Drop)]
pub struct TaskRan {
    pub taken: u64,
    pub stop: TaskStop,
}

/// Runs on at a position for at most so many inferences, and gives the position at which the run would go on.
pub(crate) fn run_on(
    region: &mut Region,
    alloc: Global,
    kinds: &GoalKinds,
    task: &TaskStart,
    start: Position,
    limit: u64,
) -> Result<(TaskRan, Option<Position>), NoMemory>
    requires way { IsUnderWay (view_of_task region.old task.now (Some start)) }
    requires kinds { kinds.now ≡ region.old.text.code.names }
    ensures { IfOk result (λ ran. RunsOn (view_of_task region.old task.now (Some start)) (view_of_task region.new task.now ran.1) limit ran.0) }
{
    let mut next = Some(start);
    let mut count = 0;
    while count < limit {
        // Most rounds end here, and no more is made of them than where they go on.
        next = match take_compound(region, alloc, kinds, next)? {
            Taken::Called(position) => position,
            Taken::Goal(item, place, after) => match after_goal(region, item, place, after)? {
                TaskRound::GoesOn(position) => position,
                TaskRound::Stops(stop, position) => return Ok((ran(count, stop), position)),
            },
            Taken::Nothing(position) => match look_ahead(region, alloc, position)? {
                Ahead::Goal(item, place) => {
                    match take_goal(region, alloc, kinds, task, (item, place), true)? {
                        TaskRound::GoesOn(position) => position,
                        TaskRound::Stops(stop, position) => return Ok((ran(count, stop), position)),
                    }
                }
                found => match pass_on(region, alloc, kinds, task, found, true)? {
                    TaskRound::GoesOn(position) => position,
                    TaskRound::Stops(stop, position) => return Ok((ran(count, stop), position)),
                },
            },
        };
        count += 1;
    }
    let found = look_ahead(region, alloc, next)?;
    match pass_on(region, alloc, kinds, task, found, false)? {
        TaskRound::GoesOn(_) => unreachable!(),
        TaskRound::Stops(stop, position) => Ok((ran(count, stop), position)),
    }
}

/// How far a task came that stops after so many inferences.
fn ran(taken: u64, stop: TaskStop) -> TaskRan
    ensures { result ≡ record { taken = taken; stop = stop } }
{
    TaskRan { taken, stop }
}
