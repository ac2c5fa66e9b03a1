//! What lies ahead where no free step is left (ISO/IEC 13211-1, 7.8.9 and 8.10.1).
ghost use Rattle.std.specs.Prelude.{◌≡◌, ◌≤◌, IfOk, IfSome, OnOk, MatchOption, Some, length};
ghost use Rattle.cell_store.specs.StoreView.{IsValueIn};
ghost use Rattle.region_split.specs.Regions.{items_here, IsPositionIn, IsPositionOver};
ghost use Rattle.region_split.specs.CompoundGoals.{HasNoCompoundFirst};
ghost use Rattle.region_split.specs.ChoicePoints.{IsFindallAt};
ghost use Rattle.region_split.specs.Backtracking.{IsResumed};
ghost use Rattle.region_split.specs.ClauseTrials.{IsOptionalPosition};
ghost use Rattle.region_split.specs.declared.choice.Resumed.{Resumed as ResumedValue};
ghost use Rattle.region_control.specs.declared.ahead.Ahead.{Ahead as AheadValue};
ghost use Rattle.region_control.specs.Ahead.{is_goal_item, compound_goal, HasFirst, LiesAhead, EndsFindall, CollectsResult};

use crate::control::GoalPlace;
use au_term::{NoMemory, VarNo};
use binding_array::BindingCell;
use region_split::{CompoundFirst, FrameItem, Left, Position, Region, Results, Resumed};
use std::alloc::Global;

/// What comes first at a position, past the ends of catches.
#[derive(Clone, Copy, Debug)]
pub(crate) enum FirstItem {
    /// A goal, and where it stands.
    Goal(FrameItem, GoalPlace),
    /// A result, and over how many choice points its findall is.
    Result(BindingCell, u32),
    /// The removal of the clause with a number, and where it goes on.
    Removal(u64, Position),
    /// Nothing, and the position at which that is so.
    Nothing(Position),
}

/// What lies ahead of a region.
#[derive(Clone, Copy, Debug)]
pub enum Ahead {
    /// A goal, and where it stands.
    Goal(FrameItem, GoalPlace),
    /// The removal of the clause with a number, and where it goes on.
    Removal(u64, Position),
    /// Nothing is left to do at a position: the query holds there.
    Answer(Position),
    /// A query has no solution left.
    QueryDone,
    /// No choice point is left.
    AllDone,
}

/// A compound that stands first as a goal, by its place, and where it stands.
#[derive(Clone, Copy, Debug)]
pub struct CompoundAhead {
    pub at: u32,
    pub base: u32,
    pub place: GoalPlace,
}

/// Goes on at a position, or with what the choice points have left, as far as that costs no inference.
#[inline(always)]
pub fn look_ahead(
    region: &mut Region,
    alloc: Global,
    start: Option<Position>,
) -> Result<Ahead, NoMemory>
    requires { IsOptionalPosition region.old (length region.old.choices) start }
    ensures ahead { IfOk result (LiesAhead region.old region.new start) }
    ensures text { OnOk result (region.new.text ≡ region.old.text) }
    ensures floor { OnOk result (region.new.store.floor ≡ region.old.store.floor) }
{
    match goal_at(region, start)? {
        Some((item, place)) => Ok(Ahead::Goal(item, place)),
        None => look_further(region, alloc, start),
    }
}

/// The goal that stands first at a position, if one does.
#[inline(always)]
fn goal_at(
    region: &Region,
    start: Option<Position>,
) -> Result<Option<(FrameItem, GoalPlace)>, NoMemory>
    requires { IsOptionalPosition region.now (length region.now.choices) start }
    ensures { IfOk result (λ found. IfSome found (λ g. LiesAhead region.now region.now start (AheadValue.Goal g.0 g.1))) }
{
    let Some(position) = start else {
        return Ok(None);
    };
    let Left::First(item, cut) = region.left_at(position) else {
        return Ok(None);
    };
    if !is_goal(item) {
        return Ok(None);
    }
    let Some(at) = position.at.checked_add(1) else {
        return Err(NoMemory);
    };
    let frame = position.frame;
    let after = past_end(region, Position { frame, at }, cut);
    Ok(Some((item, GoalPlace { cut, after })))
}

/// The goal that stands first at a position, if it is a compound of the position's own frame; none at the last place that has a
/// number.
#[inline(always)]
pub fn compound_ahead(region: &Region, position: Position) -> Option<CompoundAhead>
    requires { IsPositionIn region.now position }
    ensures { MatchOption result (HasNoCompoundFirst region.now position) (λ g. LiesAhead region.now region.now (Some position) (compound_goal g)) }
{
    let CompoundFirst {
        at,
        base,
        cut,
        after,
    } = region.compound_at(position)?;
    let place = GoalPlace { cut, after };
    Some(CompoundAhead { at, base, place })
}

/// What lies ahead where no goal need stand first.
#[inline(never)]
fn look_further(
    region: &mut Region,
    alloc: Global,
    start: Option<Position>,
) -> Result<Ahead, NoMemory>
    requires { IsOptionalPosition region.old (length region.old.choices) start }
    ensures ahead { IfOk result (LiesAhead region.old region.new start) }
    ensures text { OnOk result (region.new.text ≡ region.old.text) }
    ensures floor { OnOk result (region.new.store.floor ≡ region.old.store.floor) }
{
    let mut now = match start {
        Some(position) => Resumed::At(position),
        None => region.backtrack()?,
    };
    loop {
        let position = match now {
            Resumed::At(position) => position,
            Resumed::FindallDone {
                list,
                results,
                after,
            } => return end_findall(region, list, &results, after),
            Resumed::QueryDone => return Ok(Ahead::QueryDone),
            Resumed::AllDone => return Ok(Ahead::AllDone),
        };
        match first_item(region, position)? {
            FirstItem::Goal(item, place) => return Ok(Ahead::Goal(item, place)),
            FirstItem::Removal(number, after) => return Ok(Ahead::Removal(number, after)),
            FirstItem::Nothing(position) => return Ok(Ahead::Answer(position)),
            FirstItem::Result(value, over) => {
                collect(region, alloc, value, over)?;
                now = region.backtrack()?;
            }
        }
    }
}

/// What comes first at a position.
fn first_item(region: &Region, position: Position) -> Result<FirstItem, NoMemory>
    requires { IsPositionIn region.now position }
    ensures { IfOk result (HasFirst region.now position) }
{
    let mut next = position;
    loop {
        match region.left_at(next) {
            Left::First(item, cut) => {
                let Some(at) = next.at.checked_add(1) else {
                    return Err(NoMemory);
                };
                next.at = at;
                if is_goal(item) {
                    let after = past_end(region, next, cut);
                    return Ok(FirstItem::Goal(item, GoalPlace { cut, after }));
                }
                match item {
                    FrameItem::CatchEnd => {}
                    FrameItem::Collect(value) => return Ok(FirstItem::Result(value, cut - 1)),
                    FrameItem::Removal(number) => return Ok(FirstItem::Removal(number, next)),
                    _ => unreachable!(),
                }
            }
            Left::GoesOnAt(older) => next = older,
            Left::Nothing => return Ok(FirstItem::Nothing(next)),
        }
    }
}

/// Where a goal goes on: at this position, or, if its frame has come to its end, where that goes on. So no later goal walks
/// over the frame of a last goal, which is kept for choice points alone.
#[inline(always)]
fn past_end(region: &Region, position: Position, cut: u32) -> Position
    requires scope { cut ≤ length region.now.choices }
    requires over { IsPositionOver region.now cut position }
    ensures over { IsPositionOver region.now cut result }
    ensures same { items_here region.now result ≡ items_here region.now position }
{
    match region.left_at(position) {
        Left::GoesOnAt(older) => older,
        _ => position,
    }
}

/// Whether an item is a goal.
#[inline(always)]
fn is_goal(item: FrameItem) -> bool
    ensures { result ≡ is_goal_item item }
{
    match item {
        FrameItem::CatchEnd => false,
        FrameItem::Collect(_) => false,
        FrameItem::Removal(_) => false,
        _ => true,
    }
}

/// Adds a result to its findall.
#[inline(never)]
fn collect(
    region: &mut Region,
    alloc: Global,
    value: BindingCell,
    over: u32,
) -> Result<(), NoMemory>
    requires value { IsValueIn region.old.store value }
    requires findall { IsFindallAt region.old.choices over }
    ensures collects { OnOk result (CollectsResult region.old region.new value over) }
{
    let term = region.store().resolve(value)?;
    region.add_result(alloc, over as usize, term)
}

/// A findall has no solution left: its list is unified with the results, by a goal.
#[inline(never)]
fn end_findall(
    region: &mut Region,
    list: BindingCell,
    results: &Results,
    after: Position,
) -> Result<Ahead, NoMemory>
    requires { IsResumed region.old (ResumedValue.FindallDone list results.now after) }
    ensures ends { IfOk result (EndsFindall region.old region.new list results.now after) }
    ensures text { OnOk result (region.new.text ≡ region.old.text) }
    ensures floor { OnOk result (region.new.store.floor ≡ region.old.store.floor) }
{
    let next = VarNo::from(region.store().next());
    let Ok(taken) = u32::try_from(results.next() - next) else {
        return Err(NoMemory);
    };
    region.fresh(taken)?;
    let list = region.store().resolve(list)?;
    let value = region.list_goal(&list, results.terms())?;
    let cut = region.scope()?;
    let place = GoalPlace { cut, after };
    Ok(Ahead::Goal(FrameItem::Goal(value), place))
}
