//! Goals that are compounds, which most goals are.
ghost use Rattle.std.specs.Prelude.{◌≡◌, IfOk, IfSome, OnOk, None, length};
ghost use Rattle.region_control.specs.Ahead.{LiesAhead, compound_goal};
ghost use Rattle.region_split.specs.ClauseTrials.{IsOptionalPosition};
ghost use Rattle.region_run.specs.Runs.{GoesOnFrom, TakesCompound, TakesCompoundFirst};

use crate::inference::taken_by_kind;
use crate::kinds::kind_of;
use au_term::NoMemory;
use binding_array::BindingCell;
use goal_kinds::{GoalKind, GoalKinds};
use region_control::{AfterGoal, CompoundAhead, GoalPlace, compound_ahead, compound_form};
use region_split::keys::compound_numbers;
use region_split::{FrameItem, Position, Region};
use std::alloc::Global;

/// What came of what stands first.
#[derive(Drop)]
pub enum Taken {
    /// A goal was called whose procedure is in the text, and the run goes on at a position, or with what the choice points have left.
    Called(Option<Position>),
    /// Another goal was taken, which stood there.
    Goal(FrameItem, GoalPlace, AfterGoal),
    /// No compound stands first, at this position or with what the choice points have left.
    Nothing(Option<Position>),
}

/// Takes the goal that stands first at a position, if it is a compound; where nothing goes on there, that of the clause which the
/// newest choice point has next. The kinds are those of the text's names.
#[inline(always)]
pub fn take_compound(
    region: &mut Region,
    alloc: Global,
    kinds: &GoalKinds,
    start: Option<Position>,
) -> Result<Taken, NoMemory>
    requires start { IsOptionalPosition region.old (length region.old.choices) start }
    requires kinds { kinds.now ≡ region.old.text.code.names }
    ensures { IfOk result (TakesCompound region.old region.new start) }
{
    let start = go_on(region, start)?;
    region.ends_are_oldest();
    let Some(compound) = compound_first(region, start) else {
        return Ok(Taken::Nothing(start));
    };
    // The proof reads off that a compound has arguments.
    let _functor = region.store().functor(compound.at);
    let goal = BindingCell::Compound(compound.at, compound.base);
    let place = compound.place;
    let form = compound_form(region.store(), compound.at, compound.base);
    let kind = kind_of(kinds, region.store(), form.name, form.arguments.count);
    if let GoalKind::Call = kind {
        let numbers = compound_numbers(region.store(), compound.at, compound.base);
        // Where a clause goes on, its procedure is in the text.
        return match region.call_by(goal, numbers, place.after)? {
            Some(position) => Ok(Taken::Called(Some(position))),
            None if region.is_defined(form.name, form.arguments.count) => Ok(Taken::Called(None)),
            None => Ok(Taken::Goal(FrameItem::Goal(goal), place, AfterGoal::AsksWorld)),
        };
    }
    let after = taken_by_kind(region, alloc, kind, goal, form, place)?;
    Ok(Taken::Goal(FrameItem::Goal(goal), place, after))
}

/// Where nothing goes on at a position, tries the clause that the newest choice point has next, if it stands for clauses, and
/// gives the position at which its body goes on if its head unifies. That is a free step.
#[inline(always)]
fn go_on(region: &mut Region, start: Option<Position>) -> Result<Option<Position>, NoMemory>
    requires { IsOptionalPosition region.old (length region.old.choices) start }
    ensures goes { IfOk result (GoesOnFrom region.old region.new start) }
    ensures text { OnOk result (region.new.text ≡ region.old.text) }
    ensures floor { OnOk result (region.new.store.floor ≡ region.old.store.floor) }
{
    match start {
        Some(_) => Ok(start),
        None => try_next(region),
    }
}

/// The same where nothing goes on.
#[inline(always)]
fn try_next(region: &mut Region) -> Result<Option<Position>, NoMemory>
    ensures goes { IfOk result (GoesOnFrom region.old region.new None) }
    ensures text { OnOk result (region.new.text ≡ region.old.text) }
    ensures floor { OnOk result (region.new.store.floor ≡ region.old.store.floor) }
{
    let count = region.scope()?;
    match region.next_clause() {
        Some(trial) => region.try_clause(trial, count - 1),
        None => Ok(None),
    }
}

/// The goal that stands first at a position, if it is a compound of the position's own frame.
#[inline(always)]
fn compound_first(region: &Region, start: Option<Position>) -> Option<CompoundAhead>
    requires { IsOptionalPosition region.now (length region.now.choices) start }
    ensures { IfSome result (λ g. LiesAhead region.now region.now start (compound_goal g)) }
{
    compound_ahead(region, start?)
}
