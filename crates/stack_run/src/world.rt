//! Goals of the world, and removals of clauses (ISO/IEC 13211-1, 8.8 to 8.10 and 8.14).
ghost use Rattle.std.specs.Prelude.{◌≡◌, IfOk, OnOk};
ghost use Rattle.region_split.specs.Regions.{IsPositionIn};
ghost use Rattle.region_run.specs.Runs.{AsksWorldNext};
ghost use Rattle.region_run.specs.declared.running.Stop.{Stop as StopTerms};
ghost use Rattle.stack_run.specs.declared.machine.Program.{Program as ProgramTerms};
ghost use Rattle.stack_run.specs.MachineView.{HasStatics, IsNextHeld, AsksNoWorld, IsOneStep, next_after};

use crate::machine::{Machine, Next};
use au_term::NoMemory;
use region_control::{AfterGoal, GoalPlace};
use region_split::{FrameItem, Position};
use region_world::{WorldReply, removes_clause, world_goal};
use std::alloc::Global;

/// Takes a goal that looks at the world or changes it.
pub(crate) fn take_world_goal(
    alloc: Global,
    machine: &mut Machine,
    item: FrameItem,
    place: GoalPlace,
) -> Result<Next, NoMemory>
    requires asks { AsksWorldNext machine.old.region item place }
    requires statics { HasStatics machine.old.region machine.old.world }
    ensures steps { IfOk result (λ next. (program : ProgramTerms) → IsOneStep program machine.old (StopTerms.World item place) machine.new next) }
    ensures there { IfOk result (IsNextHeld machine.new.region) }
    ensures statics { machine.new.world.database.statics ≡ machine.old.world.database.statics }
    ensures text { OnOk result (machine.new.region.text ≡ machine.old.region.text) }
{
    let FrameItem::Goal(goal) = item else {
        unreachable!()
    };
    match world_goal(&mut machine.region, alloc, goal, place, &mut machine.world)? {
        WorldReply::Goes(after) => Ok(next_after(after)),
        WorldReply::Halted(status) => Ok(Next::Over(Some(status))),
    }
}

/// How a run goes on after a goal.
fn next_after(after: AfterGoal) -> Next
    requires { AsksNoWorld after }
    ensures { result ≡ next_after after }
{
    match after {
        AfterGoal::At(position) => Next::Runs(Some(position)),
        AfterGoal::Failed => Next::Runs(None),
        AfterGoal::Uncaught(ball) => Next::Uncaught(Box::into_inner(ball)),
        AfterGoal::AsksWorld => unreachable!(),
    }
}

/// Removes a clause; where it is gone, the branch fails.
pub(crate) fn take_removal(
    alloc: Global,
    machine: &mut Machine,
    number: u64,
    after: Position,
) -> Result<Next, NoMemory>
    requires { IsPositionIn machine.old.region after }
    ensures steps { IfOk result (λ next. (program : ProgramTerms) → IsOneStep program machine.old (StopTerms.Removal number after) machine.new next) }
    ensures there { IfOk result (IsNextHeld machine.new.region) }
    ensures statics { machine.new.world.database.statics ≡ machine.old.world.database.statics }
    ensures region { machine.new.region ≡ machine.old.region }
{
    if removes_clause(alloc, number, &mut machine.world)? {
        return Ok(Next::Runs(Some(after)));
    }
    Ok(Next::Runs(None))
}
