//! Control constructs that leave a choice point, by their arguments (ISO/IEC 13211-1, 7.8, 8.10.1 and 8.15).
ghost use Rattle.std.specs.Prelude.{◌≡◌, ◌∷◌, [], IfOk, OnOk};
ghost use Rattle.au_term.specs.Term.{term_at};
ghost use Rattle.run_model.specs.Programs.Bodies.{goals_of, call_of};
ghost use Rattle.run_model.specs.Goals.Control.{either_form, fail_goals, true_goals};
ghost use Rattle.run_model.specs.Goals.Outcomes.{Controls, TestOf, CatchOf, FindallOf};
ghost use Rattle.region_control.specs.Controls.{IsGoalPlace};
ghost use Rattle.region_control.specs.GoalForms.{argument_terms, AreArgumentsIn};
ghost use Rattle.region_control.specs.Replies.{LeavesOutcome};

use au_term::NoMemory;
use cell_store::arguments::Arguments;
use region_control::{
    AfterGoal, GoalPlace, argument, catch, disjunction, findall, if_then, not, once,
};
use region_split::Region;
use std::alloc::Global;

/// A disjunction, or a condition with an else.
pub(crate) fn either_taken(
    region: &mut Region,
    alloc: Global,
    arguments: Arguments,
    place: GoalPlace,
) -> Result<AfterGoal, NoMemory>
    requires there { AreArgumentsIn region.old.store arguments }
    requires count { arguments.count ≡ 2 }
    requires place { IsGoalPlace region.old place }
    ensures comes { IfOk result (LeavesOutcome region.old region.new
        (Controls (either_form (term_at 0 (argument_terms region.old.store arguments)) (term_at 1 (argument_terms region.old.store arguments)))) place) }
    ensures text { OnOk result (region.new.text ≡ region.old.text) }
    ensures floor { OnOk result (region.new.store.floor ≡ region.old.store.floor) }
{
    let left = argument(region.store(), arguments, 0);
    let right = argument(region.store(), arguments, 1);
    let position = disjunction(region, alloc, left, right, place)?;
    Ok(AfterGoal::At(position))
}

/// A condition without an else.
pub(crate) fn then_taken(
    region: &mut Region,
    alloc: Global,
    arguments: Arguments,
    place: GoalPlace,
) -> Result<AfterGoal, NoMemory>
    requires there { AreArgumentsIn region.old.store arguments }
    requires count { arguments.count ≡ 2 }
    requires place { IsGoalPlace region.old place }
    ensures comes { IfOk result (LeavesOutcome region.old region.new
        (Controls (TestOf (goals_of (term_at 0 (argument_terms region.old.store arguments))) (goals_of (term_at 1 (argument_terms region.old.store arguments))) fail_goals)) place) }
    ensures text { OnOk result (region.new.text ≡ region.old.text) }
    ensures floor { OnOk result (region.new.store.floor ≡ region.old.store.floor) }
{
    let condition = argument(region.store(), arguments, 0);
    let then = argument(region.store(), arguments, 1);
    let position = if_then(region, alloc, condition, then, place)?;
    Ok(AfterGoal::At(position))
}

/// `\+`.
pub(crate) fn not_taken(
    region: &mut Region,
    alloc: Global,
    arguments: Arguments,
    place: GoalPlace,
) -> Result<AfterGoal, NoMemory>
    requires there { AreArgumentsIn region.old.store arguments }
    requires count { arguments.count ≡ 1 }
    requires place { IsGoalPlace region.old place }
    ensures comes { IfOk result (LeavesOutcome region.old region.new
        (Controls (TestOf (call_of (term_at 0 (argument_terms region.old.store arguments)) ∷ []) fail_goals true_goals)) place) }
    ensures text { OnOk result (region.new.text ≡ region.old.text) }
    ensures floor { OnOk result (region.new.store.floor ≡ region.old.store.floor) }
{
    let goal = argument(region.store(), arguments, 0);
    let position = not(region, alloc, goal, place)?;
    Ok(AfterGoal::At(position))
}

/// The first solution alone.
pub(crate) fn once_taken(
    region: &mut Region,
    alloc: Global,
    arguments: Arguments,
    place: GoalPlace,
) -> Result<AfterGoal, NoMemory>
    requires there { AreArgumentsIn region.old.store arguments }
    requires count { arguments.count ≡ 1 }
    requires place { IsGoalPlace region.old place }
    ensures comes { IfOk result (LeavesOutcome region.old region.new
        (Controls (TestOf (call_of (term_at 0 (argument_terms region.old.store arguments)) ∷ []) true_goals fail_goals)) place) }
    ensures text { OnOk result (region.new.text ≡ region.old.text) }
    ensures floor { OnOk result (region.new.store.floor ≡ region.old.store.floor) }
{
    let goal = argument(region.store(), arguments, 0);
    let position = once(region, alloc, goal, place)?;
    Ok(AfterGoal::At(position))
}

/// A goal whose balls are caught.
pub(crate) fn catch_taken(
    region: &mut Region,
    arguments: Arguments,
    place: GoalPlace,
) -> Result<AfterGoal, NoMemory>
    requires there { AreArgumentsIn region.old.store arguments }
    requires count { arguments.count ≡ 3 }
    requires place { IsGoalPlace region.old place }
    ensures comes { IfOk result (LeavesOutcome region.old region.new
        (Controls (CatchOf (term_at 0 (argument_terms region.old.store arguments)) (term_at 1 (argument_terms region.old.store arguments)) (term_at 2 (argument_terms region.old.store arguments)))) place) }
    ensures text { OnOk result (region.new.text ≡ region.old.text) }
    ensures floor { OnOk result (region.new.store.floor ≡ region.old.store.floor) }
{
    let goal = argument(region.store(), arguments, 0);
    let catcher = argument(region.store(), arguments, 1);
    let recovery = argument(region.store(), arguments, 2);
    let position = catch(region, goal, catcher, recovery, place)?;
    Ok(AfterGoal::At(position))
}

/// All solutions of a goal.
pub(crate) fn findall_taken(
    region: &mut Region,
    alloc: Global,
    arguments: Arguments,
    place: GoalPlace,
) -> Result<AfterGoal, NoMemory>
    requires there { AreArgumentsIn region.old.store arguments }
    requires count { arguments.count ≡ 3 }
    requires place { IsGoalPlace region.old place }
    ensures comes { IfOk result (LeavesOutcome region.old region.new
        (Controls (FindallOf (term_at 0 (argument_terms region.old.store arguments)) (term_at 1 (argument_terms region.old.store arguments)) (term_at 2 (argument_terms region.old.store arguments)))) place) }
    ensures text { OnOk result (region.new.text ≡ region.old.text) }
    ensures floor { OnOk result (region.new.store.floor ≡ region.old.store.floor) }
{
    let template = argument(region.store(), arguments, 0);
    let goal = argument(region.store(), arguments, 1);
    let list = argument(region.store(), arguments, 2);
    let position = findall(region, alloc, template, goal, list, place)?;
    Ok(AfterGoal::At(position))
}
