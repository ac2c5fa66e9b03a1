//! Goals of the world.
ghost use Rattle.std.specs.Prelude.{◌≡◌, map, IfOk, OnOk};
ghost use Rattle.run_model.specs.Goals.Outcomes.{Reply};
ghost use Rattle.run_model.specs.Goals.Worlds.{static_among};
ghost use Rattle.cell_store.specs.StoreView.{IsValueIn, meaning};
ghost use Rattle.effect_gate.specs.Effects.{statics_of, world_meant};
ghost use Rattle.region_split.specs.StackOperations.{solution_here};
ghost use Rattle.region_split.specs.SolutionTrials.{AreSolutionsHere};
ghost use Rattle.region_control.specs.Controls.{IsGoalPlace};
ghost use Rattle.region_world.specs.AskedEffects.{AsksWorldIn};
ghost use Rattle.region_world.specs.WorldAnswers.{TellsReply, TellsSome};
ghost use Rattle.region_world.specs.WorldGoals.{LeavesReply, LeavesSolutions, TakesWorldGoal};

use crate::asking::{WorldAnswer, ask_world};
use au_term::NoMemory;
use binding_array::BindingCell;
use effect_gate::World;
use region_control::{AfterGoal, GoalPlace, raise};
use region_split::{Region, Solutions};
use std::alloc::Global;

/// What a goal of the world leaves.
#[derive(Drop)]
pub enum WorldReply {
    /// What takes its place in the region.
    Goes(AfterGoal),
    /// The run ends with a status.
    Halted(u8),
}

/// Takes a goal that looks at the world or changes it.
pub fn world_goal(
    region: &mut Region,
    alloc: Global,
    goal: BindingCell,
    place: GoalPlace,
    world: &mut World,
) -> Result<WorldReply, NoMemory>
    requires goal { IsValueIn region.old.store goal }
    requires place { IsGoalPlace region.old place }
    requires asks { AsksWorldIn region.old (meaning region.old.store goal) }
    requires statics { statics_of world.old ≡ static_among region.old.text.clauses }
    ensures takes { IfOk result (TakesWorldGoal region.old region.new (meaning region.old.store goal) place (world_meant world.old) (world_meant world.new)) }
    ensures statics { world.new.database.statics ≡ world.old.database.statics }
    ensures text { OnOk result (region.new.text ≡ region.old.text) }
    ensures floor { OnOk result (region.new.store.floor ≡ region.old.store.floor) }
{
    let answer = ask_world(region, alloc, goal, world)?;
    answer_taken(region, alloc, answer, place)
}

/// Takes a goal by what it comes to.
fn answer_taken(
    region: &mut Region,
    alloc: Global,
    answer: WorldAnswer,
    place: GoalPlace,
) -> Result<WorldReply, NoMemory>
    requires tells { TellsSome region.old answer }
    requires place { IsGoalPlace region.old place }
    ensures leaves { IfOk result (λ left. (reply : Reply) → TellsReply region.old reply answer → LeavesReply region.old region.new reply place left) }
    ensures text { OnOk result (region.new.text ≡ region.old.text) }
    ensures floor { OnOk result (region.new.store.floor ≡ region.old.store.floor) }
{
    match answer {
        WorldAnswer::Went => Ok(WorldReply::Goes(AfterGoal::At(place.after))),
        WorldAnswer::Fails => Ok(WorldReply::Goes(AfterGoal::Failed)),
        WorldAnswer::Raised(ball) => {
            let after = raise(region, alloc, &ball, place)?;
            Ok(WorldReply::Goes(after))
        }
        WorldAnswer::Halted(status) => Ok(WorldReply::Halted(status)),
        WorldAnswer::Solutions(solutions) => {
            let after = solutions_tried(region, solutions, place)?;
            Ok(WorldReply::Goes(after))
        }
    }
}

/// Tries solutions in the place of a goal.
fn solutions_tried(
    region: &mut Region,
    solutions: Solutions,
    place: GoalPlace,
) -> Result<AfterGoal, NoMemory>
    requires there { AreSolutionsHere region.old solutions }
    requires place { IsGoalPlace region.old place }
    ensures comes { IfOk result (LeavesSolutions region.old region.new (map (solution_here region.old) solutions) place) }
    ensures text { OnOk result (region.new.text ≡ region.old.text) }
    ensures floor { OnOk result (region.new.store.floor ≡ region.old.store.floor) }
{
    match region.solve(solutions, place.after)? {
        Some(position) => Ok(AfterGoal::At(position)),
        None => Ok(AfterGoal::Failed),
    }
}
