//! What no clause says of control constructs: that calls succeed, and what comes first.
ghost use Rattle.std.specs.Prelude.{IfOk};
ghost use Rattle.std.specs.Str.{IsAscii};
ghost use Rattle.cell_store.specs.StoreView.{IsValueIn};

use crate::choices::expect_findall;
use crate::common::{Back, backtrack, expect, expect_height, integer, last, region, value};
use au_model::build::binary;
use au_term::NoMemory;
use binding_array::BindingCell;
use region_control::{
    Goals, call, catch, cut, disjunction, findall, if_then, not, once, push_goals, throw,
};
use region_split::{FrameItem, Left, Position, Region};
use std::alloc::Global;
use std::process::Abort;
use std::test::Fail;

const ONE: BindingCell = BindingCell::Int(1);

const TWO: BindingCell = BindingCell::Int(2);

const THREE: BindingCell = BindingCell::Int(3);

/// The value of a compound of 1 and 2.
fn pair(
    rt: &impl Abort,
    alloc: Global,
    region: &mut Region,
    name: &str,
) -> Result<BindingCell, Fail>
    requires { IsAscii name.now }
    ensures { IfOk result (IsValueIn region.new.store) }
{
    let term = binary(alloc, name, &integer(alloc, 1)?, &integer(alloc, 2)?)?;
    value(rt, alloc, region, term)
}

/// What comes first is a goal, with so many choice points at a cut there.
fn expect_first(rt: &impl Abort, found: Left, item: FrameItem, cut: u32) {
    expect(rt, found, Left::First(item, cut));
}

/// Takes the newest choice point, where this comes first.
fn expect_next(rt: &impl Abort, region: &mut Region, item: FrameItem) -> Result<(), Fail> {
    match backtrack(region)? {
        Back::Left(_, left) => expect_first(rt, left, item, 0),
        _ => Err("a position")?,
    }
    Ok(())
}

fn goal(number: i64) -> FrameItem {
    FrameItem::Goal(BindingCell::Int(number))
}

fn push_conjunction(rt: &impl Abort, alloc: Global, region: &mut Region) -> Result<Position, Fail> {
    let body = Goals::Body(pair(rt, alloc, region, ",")?);
    let place = last(region)?;
    Ok(push_goals(region, alloc, body, place.cut, place.after)?)
}

#[test]
fn conjunctions_are_taken_apart(rt: HostRuntime) -> Result<(), Fail> {
    let alloc = rt.alloc();
    let mut region = region(alloc)?;
    let position = push_conjunction(&rt, alloc, &mut region)?;
    expect(&rt, position, Position { frame: 2, at: 0 });
    Ok(())
}

/// What comes first of a disjunction of a compound and 3: the goal 1, with so many choice points at a cut there.
fn expect_first_of_two(
    rt: &impl Abort,
    alloc: Global,
    region: &mut Region,
    name: &str,
    cut: u32,
) -> Result<(), Fail>
    requires { IsAscii name.now }
{
    let left = pair(rt, alloc, region, name)?;
    let place = last(region)?;
    let position = disjunction(region, alloc, left, THREE, place)?;
    expect_first(rt, region.left_at(position), goal(1), cut);
    Ok(())
}

/// Conjunctions, and conditions with an else: by their name, how many choice points a cut in the first goal leaves.
fn take_branches(rt: &impl Abort, alloc: Global, region: &mut Region) -> Result<(), Fail> {
    expect_first_of_two(rt, alloc, region, ",", 0)?;
    expect_next(rt, region, goal(3))?;
    expect_first_of_two(rt, alloc, region, "->", 1)?;
    expect_next(rt, region, goal(3))
}

#[test]
fn branches_in_their_order(rt: HostRuntime) -> Result<(), Fail> {
    let mut region = region(rt.alloc())?;
    take_branches(&rt, rt.alloc(), &mut region)
}

fn check_condition(rt: &impl Abort, alloc: Global, region: &mut Region) -> Result<(), Fail> {
    let place = last(region)?;
    let position = if_then(region, alloc, ONE, TWO, place)?;
    expect_first(rt, region.left_at(position), goal(1), 1);
    expect_next(rt, region, FrameItem::Fail)
}

fn check_not(rt: &impl Abort, alloc: Global, region: &mut Region) -> Result<(), Fail> {
    let place = last(region)?;
    let position = not(region, alloc, ONE, place)?;
    expect_first(rt, region.left_at(position), FrameItem::Call(ONE), 1);
    expect_next(rt, region, FrameItem::True)
}

fn check_once(rt: &impl Abort, alloc: Global, region: &mut Region) -> Result<(), Fail> {
    let place = last(region)?;
    let position = once(region, alloc, ONE, place)?;
    expect_first(rt, region.left_at(position), FrameItem::Call(ONE), 1);
    expect_next(rt, region, FrameItem::Fail)
}

fn check_conditions(rt: &impl Abort, alloc: Global, region: &mut Region) -> Result<(), Fail> {
    check_condition(rt, alloc, region)?;
    check_not(rt, alloc, region)?;
    check_once(rt, alloc, region)
}

#[test]
fn conditions_without_an_else(rt: HostRuntime) -> Result<(), Fail> {
    let mut region = region(rt.alloc())?;
    check_conditions(&rt, rt.alloc(), &mut region)
}

fn check_catch(rt: &impl Abort, region: &mut Region) -> Result<(), Fail> {
    let place = last(region)?;
    let position = catch(region, ONE, TWO, TWO, place)?;
    expect_first(rt, region.left_at(position), FrameItem::Call(ONE), 1);
    Ok(())
}

fn check_findall(rt: &impl Abort, alloc: Global, region: &mut Region) -> Result<(), Fail> {
    let place = last(region)?;
    let position = findall(region, alloc, TWO, ONE, TWO, place)?;
    expect_first(rt, region.left_at(position), FrameItem::Call(ONE), 2);
    Ok(())
}

fn check_call(rt: &impl Abort, alloc: Global, region: &mut Region) -> Result<(), Fail> {
    let place = last(region)?;
    let position = call(region, alloc, ONE, place)?;
    expect_first(rt, region.left_at(position), goal(1), 2);
    Ok(())
}

/// Cuts to the choice points that are there.
fn cut_nothing(region: &mut Region) -> Result<(), NoMemory> {
    let place = last(region)?;
    cut(region, place);
    Ok(())
}

fn guard_goals(rt: &impl Abort, alloc: Global, region: &mut Region) -> Result<(), Fail> {
    check_catch(rt, region)?;
    check_findall(rt, alloc, region)?;
    check_call(rt, alloc, region)?;
    cut_nothing(region)?;
    expect_height(rt, region, 2);
    expect_findall(rt, region, 1, true);
    Ok(())
}

#[test]
fn goals_are_guarded(rt: HostRuntime) -> Result<(), Fail> {
    let mut region = region(rt.alloc())?;
    guard_goals(&rt, rt.alloc(), &mut region)
}

/// Throws 1 in a goal whose balls are caught: what comes first of the recovery.
fn expect_recovered(
    rt: &impl Abort,
    alloc: Global,
    region: &mut Region,
    catcher: i64,
    caught: bool,
) -> Result<(), NoMemory> {
    let ball = integer(alloc, 1)?;
    let place = last(region)?;
    let position = catch(region, TWO, BindingCell::Int(catcher), THREE, place)?;
    match throw(region, alloc, &ball, position)? {
        Some(next) => {
            expect_first(rt, region.left_at(next), FrameItem::Call(THREE), 0);
            expect(rt, true, caught);
        }
        None => expect(rt, false, caught),
    }
    expect_height(rt, region, 0);
    Ok(())
}

fn catch_balls(rt: &impl Abort, alloc: Global, region: &mut Region) -> Result<(), Fail> {
    expect_recovered(rt, alloc, region, 1, true)?;
    expect_recovered(rt, alloc, region, 4, false)?;
    Ok(())
}

#[test]
fn balls_are_caught(rt: HostRuntime) -> Result<(), Fail> {
    let mut region = region(rt.alloc())?;
    catch_balls(&rt, rt.alloc(), &mut region)
}
