//! Control constructs, by the values of their arguments (ISO/IEC 13211-1, 7.8, 8.10.1 and 8.15). Each takes
//! the place of its goal.
ghost use Rattle.std.specs.Prelude.{◌∷◌, [], IfOk};
ghost use Rattle.run_model.specs.Programs.Bodies.{goals_of, call_of};
ghost use Rattle.run_model.specs.Goals.Control.{either_form, fail_goals, true_goals};
ghost use Rattle.run_model.specs.Goals.Outcomes.{GoesOnWith, EitherOf, TestOf, CutToScope, CatchOf, FindallOf};
ghost use Rattle.cell_store.specs.StoreView.{IsValueIn, meaning};
ghost use Rattle.region_control.specs.Goals.{given_goals, AreGoalsIn};
ghost use Rattle.region_control.specs.Controls.{IsGoalPlace, Controls};

use crate::goals::{Goals, push_goals};
use crate::sides::sides;
use au_term::{NoMemory, VarNo};
use binding_array::BindingCell;
use region_split::{Alternatives, FrameItem, Position, Region, Results};
use std::alloc::Global;

/// Where a goal stands: how many choice points a cut there leaves, and the position of what follows it.
#[derive(Clone, Copy, Debug)]
pub struct GoalPlace {
    pub cut: u32,
    pub after: Position,
}

/// A disjunction, or a condition with an else.
pub fn disjunction(
    region: &mut Region,
    alloc: Global,
    left: BindingCell,
    right: BindingCell,
    place: GoalPlace,
) -> Result<Position, NoMemory>
    requires left { IsValueIn region.old.store left }
    requires right { IsValueIn region.old.store right }
    requires place { IsGoalPlace region.old place }
    ensures { IfOk result (Controls region.old region.new (either_form (meaning region.old.store left) (meaning region.old.store right)) place) }
{
    let others = Goals::Body(right);
    match sides(region.store(), left, "->") {
        Some((condition, then)) => {
            let condition = Goals::Body(condition);
            test(region, alloc, condition, Goals::Body(then), others, place)
        }
        None => either(region, alloc, left, right, place),
    }
}

/// Either of two bodies.
fn either(
    region: &mut Region,
    alloc: Global,
    left: BindingCell,
    right: BindingCell,
    place: GoalPlace,
) -> Result<Position, NoMemory>
    requires left { IsValueIn region.old.store left }
    requires right { IsValueIn region.old.store right }
    requires place { IsGoalPlace region.old place }
    ensures { IfOk result (Controls region.old region.new (EitherOf (goals_of (meaning region.old.store left)) (goals_of (meaning region.old.store right))) place) }
{
    let other = push_goals(region, alloc, Goals::Body(right), place.cut, place.after)?;
    region.push_choice(Alternatives::Elsewhere, other)?;
    push_goals(region, alloc, Goals::Body(left), place.cut, place.after)
}

/// A condition: where it holds, a cut takes the other branch away, and the second goals follow.
fn test(
    region: &mut Region,
    alloc: Global,
    condition: Goals,
    then: Goals,
    others: Goals,
    place: GoalPlace,
) -> Result<Position, NoMemory>
    requires condition { AreGoalsIn region.old.store condition }
    requires then { AreGoalsIn region.old.store then }
    requires others { AreGoalsIn region.old.store others }
    requires place { IsGoalPlace region.old place }
    ensures { IfOk result (Controls region.old region.new
        (TestOf (given_goals region.old.store condition) (given_goals region.old.store then) (given_goals region.old.store others)) place) }
{
    let own = region.scope()?;
    let other = push_goals(region, alloc, others, place.cut, place.after)?;
    region.push_choice(Alternatives::Elsewhere, other)?;
    let inner = region.scope()?;
    let then = push_goals(region, alloc, then, place.cut, place.after)?;
    let pruned = region.push_item(FrameItem::Cut, own, then)?;
    push_goals(region, alloc, condition, inner, pruned)
}

/// A condition without an else.
pub fn if_then(
    region: &mut Region,
    alloc: Global,
    condition: BindingCell,
    then: BindingCell,
    place: GoalPlace,
) -> Result<Position, NoMemory>
    requires condition { IsValueIn region.old.store condition }
    requires then { IsValueIn region.old.store then }
    requires place { IsGoalPlace region.old place }
    ensures { IfOk result (Controls region.old region.new (TestOf (goals_of (meaning region.old.store condition)) (goals_of (meaning region.old.store then)) fail_goals) place) }
{
    test(
        region,
        alloc,
        Goals::Body(condition),
        Goals::Body(then),
        Goals::Fail,
        place,
    )
}

/// `\+`: the goal is not provable.
pub fn not(
    region: &mut Region,
    alloc: Global,
    goal: BindingCell,
    place: GoalPlace,
) -> Result<Position, NoMemory>
    requires goal { IsValueIn region.old.store goal }
    requires place { IsGoalPlace region.old place }
    ensures { IfOk result (Controls region.old region.new (TestOf (call_of (meaning region.old.store goal) ∷ []) fail_goals true_goals) place) }
{
    let provable = Goals::Call(goal);
    test(region, alloc, provable, Goals::Fail, Goals::True, place)
}

/// The first solution of a goal alone.
pub fn once(
    region: &mut Region,
    alloc: Global,
    goal: BindingCell,
    place: GoalPlace,
) -> Result<Position, NoMemory>
    requires goal { IsValueIn region.old.store goal }
    requires place { IsGoalPlace region.old place }
    ensures { IfOk result (Controls region.old region.new (TestOf (call_of (meaning region.old.store goal) ∷ []) true_goals fail_goals) place) }
{
    test(
        region,
        alloc,
        Goals::Call(goal),
        Goals::True,
        Goals::Fail,
        place,
    )
}

/// A cut.
pub fn cut(region: &mut Region, place: GoalPlace)
    requires place { IsGoalPlace region.old place }
    ensures { Controls region.old region.new CutToScope place place.after }
{
    region.cut_to(place.cut as usize);
}

/// A body that is called.
pub fn call(
    region: &mut Region,
    alloc: Global,
    body: BindingCell,
    place: GoalPlace,
) -> Result<Position, NoMemory>
    requires body { IsValueIn region.old.store body }
    requires place { IsGoalPlace region.old place }
    ensures { IfOk result (Controls region.old region.new (GoesOnWith (goals_of (meaning region.old.store body))) place) }
{
    let own = region.scope()?;
    push_goals(region, alloc, Goals::Body(body), own, place.after)
}

/// A goal whose balls are caught.
pub fn catch(
    region: &mut Region,
    goal: BindingCell,
    catcher: BindingCell,
    recovery: BindingCell,
    place: GoalPlace,
) -> Result<Position, NoMemory>
    requires goal { IsValueIn region.old.store goal }
    requires catcher { IsValueIn region.old.store catcher }
    requires recovery { IsValueIn region.old.store recovery }
    requires place { IsGoalPlace region.old place }
    ensures { IfOk result (Controls region.old region.new
        (CatchOf (meaning region.old.store goal) (meaning region.old.store catcher) (meaning region.old.store recovery)) place) }
{
    region.push_choice(Alternatives::Catch { catcher, recovery }, place.after)?;
    let inner = region.scope()?;
    let end = region.push_item(FrameItem::CatchEnd, inner, place.after)?;
    region.push_item(FrameItem::Call(goal), inner, end)
}

/// All solutions of a goal.
pub fn findall(
    region: &mut Region,
    alloc: Global,
    template: BindingCell,
    goal: BindingCell,
    list: BindingCell,
    place: GoalPlace,
) -> Result<Position, NoMemory>
    requires template { IsValueIn region.old.store template }
    requires goal { IsValueIn region.old.store goal }
    requires list { IsValueIn region.old.store list }
    requires place { IsGoalPlace region.old place }
    ensures { IfOk result (Controls region.old region.new
        (FindallOf (meaning region.old.store template) (meaning region.old.store goal) (meaning region.old.store list)) place) }
{
    let results = Results::new(alloc, VarNo::from(region.store().next()));
    region.push_choice(Alternatives::Findall { list, results }, place.after)?;
    let inner = region.scope()?;
    let end = region.push_item(FrameItem::Collect(template), inner, place.after)?;
    region.push_item(FrameItem::Call(goal), inner, end)
}
