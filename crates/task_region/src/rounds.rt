//! Rounds of a task, each of which takes one inference or stops.
ghost use Rattle.std.specs.Prelude.{◌≡◌, IfOk, Option, None, map, true};
ghost use Rattle.au_model.specs.Terms.Each.{Each};
ghost use Rattle.region_control.specs.Ahead.{IsGoalThere};
ghost use Rattle.region_split.specs.Regions.{RegionView};
ghost use Rattle.task_region.specs.DeferredItems.{item_of, IsDeferredOver};
ghost use Rattle.task_region.specs.GoalLoads.{LeavesGoal};
ghost use Rattle.task_region.specs.TaskViews.{TaskView, view_of_task};
ghost use Rattle.task_region.specs.TaskRounds.{HasLooked, PassesRound, TakesGoalNext, TakesOwnGoal};

use crate::ahead::{TaskAhead, task_ahead};
use crate::cuts::cuts_to_floor;
use crate::running::TaskStop;
use crate::start::TaskStart;
use au_term::NoMemory;
use goal_kinds::GoalKinds;
use region_control::{AfterGoal, Ahead, GoalPlace};
use region_run::infer;
use region_split::{FrameItem, Position, Region};
use std::alloc::Global;

/// What comes of a round.
#[derive(Drop)]
pub(crate) enum TaskRound {
    /// One inference was taken, and the run goes on at a position, or with what the choice points have left.
    GoesOn(Option<Position>),
    /// The run stops, and where it would go on.
    Stops(TaskStop, Option<Position>),
}

/// Goes on with what was found ahead: takes one inference, if one more may be taken, or tells why the run stops.
// It is kept out of the loop of rounds, which takes up a goal that is found by itself.
#[inline(never)]
pub(crate) fn pass_on(
    region: &mut Region,
    alloc: Global,
    kinds: &GoalKinds,
    task: &TaskStart,
    found: Ahead,
    more: bool,
) -> Result<TaskRound, NoMemory>
    requires looked { (old : RegionView) × (start : Option Position) × HasLooked (view_of_task old task.now start) region.old found }
    requires kinds { kinds.now ≡ region.old.text.code.names }
    ensures { (old : RegionView) (start : Option Position) → HasLooked (view_of_task old task.now start) region.old found → IfOk result (PassesRound (view_of_task old task.now start) (view_of_task region.new task.now None) more) }
{
    let ahead = task_ahead(region, alloc, task, found)?;
    match ahead {
        TaskAhead::Goal(item, place) => take_goal(region, alloc, kinds, task, (item, place), more),
        TaskAhead::Stops(stop, next) => Ok(TaskRound::Stops(stop, next)),
    }
}

/// Takes a goal, but for a cut to a node of the branch.
#[inline(always)]
pub(crate) fn take_goal(
    region: &mut Region,
    alloc: Global,
    kinds: &GoalKinds,
    task: &TaskStart,
    goal: (FrameItem, GoalPlace),
    more: bool,
) -> Result<TaskRound, NoMemory>
    requires there { IsGoalThere region.old goal.0 goal.1 }
    requires kinds { kinds.now ≡ region.old.text.code.names }
    requires deferred { Each (IsDeferredOver task.now.variables task.now.floor) (map item_of task.now.deferred.items) }
    ensures { IfOk result (TakesGoalNext (view_of_task region.old task.now None) (view_of_task region.new task.now None) goal.0 goal.1 more) }
{
    let (item, place) = goal;
    region.ends_are_oldest();
    if cuts_to_floor(region.store(), item, place.cut, task.floor) {
        let position = leave_goal(region, item, place)?;
        return Ok(TaskRound::Stops(TaskStop::Cut(place.cut), Some(position)));
    }
    if !more {
        let position = leave_goal(region, item, place)?;
        return Ok(TaskRound::Stops(TaskStop::Limit, Some(position)));
    }
    let after = infer(region, alloc, kinds, item, place)?;
    after_goal(region, item, place, after)
}

/// What a round comes to in which a goal was taken: where the world is asked, the goal is left where it stood.
#[inline(always)]
pub(crate) fn after_goal(
    region: &mut Region,
    item: FrameItem,
    place: GoalPlace,
    after: AfterGoal,
) -> Result<TaskRound, NoMemory>
    requires { after ≡ AfterGoal.AsksWorld → IsGoalThere region.old item place }
    ensures { (t : TaskView) → TakesOwnGoal t region.old item place after → IfOk result (TakesGoalNext t (record t { region = region.new; next = None }) item place true) }
{
    match after {
        AfterGoal::At(position) => Ok(TaskRound::GoesOn(Some(position))),
        AfterGoal::Failed => Ok(TaskRound::GoesOn(None)),
        AfterGoal::Uncaught(ball) => {
            let stop = TaskStop::Ball(Box::into_inner(ball));
            Ok(TaskRound::Stops(stop, None))
        }
        AfterGoal::AsksWorld => {
            let position = leave_goal(region, item, place)?;
            let stop = TaskStop::World(item, place);
            Ok(TaskRound::Stops(stop, Some(position)))
        }
    }
}

/// Leaves a goal at its place, and gives the position at which it is next.
fn leave_goal(region: &mut Region, item: FrameItem, place: GoalPlace) -> Result<Position, NoMemory>
    requires { IsGoalThere region.old item place }
    ensures { IfOk result (LeavesGoal region.old region.new item place) }
{
    region.push_item(item, place.cut, place.after)
}
