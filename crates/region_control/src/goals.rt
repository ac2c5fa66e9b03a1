//! Goals before what follows at a position.
ghost use Rattle.std.specs.Prelude.{◌≡◌, IfOk};
ghost use Rattle.run_model.specs.Programs.Bodies.{goals_of};
ghost use Rattle.cell_store.specs.StoreView.{IsValueIn, meaning};
ghost use Rattle.region_split.specs.Regions.{IsPositionOver};
ghost use Rattle.region_split.specs.StackOperations.{PutsBefore};
ghost use Rattle.region_split.specs.ClauseTrials.{KeepsChoices};
ghost use Rattle.region_control.specs.Goals.{goals_by, given_goals, AreGoalsIn};

use crate::sides::sides;
use au_term::NoMemory;
use binding_array::BindingCell;
use region_split::{FrameItem, Position, Region};
use std::alloc::Global;

/// Goals in one scope.
#[derive(Clone, Copy, Debug)]
pub enum Goals {
    /// Those of a body.
    Body(BindingCell),
    /// The call of a value.
    Call(BindingCell),
    True,
    Fail,
}

/// Puts goals in one scope before what follows at a position, and gives the position at which they are left.
pub fn push_goals(
    region: &mut Region,
    alloc: Global,
    goals: Goals,
    cut: u32,
    after: Position,
) -> Result<Position, NoMemory>
    requires goals { AreGoalsIn region.old.store goals }
    requires after { IsPositionOver region.old cut after }
    ensures ok { IfOk result (PutsBefore region.old region.new (goals_by (given_goals region.old.store goals) cut) cut after) }
    ensures kept { KeepsChoices region.old region.new }
{
    match goals {
        Goals::Body(value) => push_body(region, alloc, value, cut, after),
        Goals::Call(value) => region.push_item(FrameItem::Call(value), cut, after),
        Goals::True => region.push_item(FrameItem::True, cut, after),
        Goals::Fail => region.push_item(FrameItem::Fail, cut, after),
    }
}

/// Puts the goals of a body before what follows at a position. For one goal, which most bodies are, no list is made.
fn push_body(
    region: &mut Region,
    alloc: Global,
    body: BindingCell,
    cut: u32,
    after: Position,
) -> Result<Position, NoMemory>
    requires body { IsValueIn region.old.store body }
    requires after { IsPositionOver region.old cut after }
    ensures ok { IfOk result (PutsBefore region.old region.new (goals_by (goals_of (meaning region.old.store body)) cut) cut after) }
    ensures kept { KeepsChoices region.old region.new }
{
    match sides(region.store(), body, ",") {
        Some(_) => push_conjunction(region, alloc, body, cut, after),
        None => region.push_item(FrameItem::Goal(body), cut, after),
    }
}

/// The same for any body, the last goal first.
fn push_conjunction(
    region: &mut Region,
    alloc: Global,
    body: BindingCell,
    cut: u32,
    after: Position,
) -> Result<Position, NoMemory>
    requires body { IsValueIn region.old.store body }
    requires after { IsPositionOver region.old cut after }
    ensures ok { IfOk result (PutsBefore region.old region.new (goals_by (goals_of (meaning region.old.store body)) cut) cut after) }
    ensures kept { KeepsChoices region.old region.new }
{
    let mut pending = Vec::new(alloc);
    pending.push(body)?;
    let mut next = after;
    while let Some(value) = pending.pop() {
        match sides(region.store(), value, ",") {
            Some((left, right)) => {
                pending.push(left)?;
                pending.push(right)?;
            }
            None => next = region.push_item(FrameItem::Goal(value), cut, next)?,
        }
    }
    Ok(next)
}
