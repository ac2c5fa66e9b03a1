//! What no clause says of regions that are taken off: that calls succeed, and what is taken.
ghost use Rattle.std.specs.Prelude.{◌<◌, IfOk, length};
ghost use Rattle.region_split.specs.Regions.{IsPositionIn};

use crate::common::{Top, expect, top_of_cell};
use crate::regions::{fill, guard, region};
use au_term::{Bindings, NoMemory, Shared, VarNo};
use region_capture::{
    Captured, CapturedAlternative, CapturedItem, CapturedItems, CapturedKind, capture,
};
use region_split::{Position, Region};
use std::alloc::Global;
use std::process::Abort;
use std::test::Fail;

/// What is left above the end of the query, where a findall is right over that.
#[tactic(auto, using(crate::proofs::FloorLemmas::floor_under))]
pub(crate) fn take_off(
    rt: &impl Abort,
    alloc: Global,
    region: &mut Region,
    position: Position,
) -> Result<Captured, NoMemory>
    requires { IsPositionIn region.old position }
{
    assert!(rt; region.is_findall(1));
    region.ends_are_oldest();
    capture(region, alloc, 1, position)
}

/// What a choice point is for; of a catch what it catches and its recovery, of a findall its list and how many results.
#[derive(Clone, Copy, Debug, PartialEq, Eq)]
pub(crate) enum Kind {
    Choice,
    Catch(Top, Top),
    Findall(Top, usize),
}

pub(crate) fn top_of(term: &Shared) -> Result<Top, NoMemory> {
    Ok(top_of_cell(&term.top()?))
}

fn kind_of(kind: &CapturedKind) -> Result<Kind, NoMemory> {
    Ok(match kind {
        CapturedKind::Choice => Kind::Choice,
        CapturedKind::Catch { catcher, recovery } => {
            Kind::Catch(top_of(catcher)?, top_of(recovery)?)
        }
        CapturedKind::Findall { list, results } => Kind::Findall(top_of(list)?, results.len()),
    })
}

/// A variable and its value, where something is bound.
pub(crate) type Bound = Option<(VarNo, Top)>;

/// The binding, where there is one at most.
pub(crate) fn only(bindings: &Bindings) -> Result<Bound, Fail> {
    let all = bindings.as_slice();
    if all.len() > 1 {
        return Err("one binding")?;
    }
    match all.first() {
        Some(binding) => Ok(Some((binding.var, top_of(&binding.value)?))),
        None => Ok(None),
    }
}

/// An item that is left.
#[derive(Clone, Copy, Debug, PartialEq, Eq)]
enum Left {
    Goal(Top, u32),
    CatchEnd(u32),
    Collect(Top, u32),
    Removal(u64),
}

fn seen_item(item: &CapturedItem) -> Result<Left, NoMemory> {
    Ok(match item {
        CapturedItem::Goal { term, cut } => Left::Goal(top_of(term)?, *cut),
        CapturedItem::CatchEnd(over) => Left::CatchEnd(*over),
        CapturedItem::Collect { template, over } => Left::Collect(top_of(template)?, *over),
        CapturedItem::Removal(number) => Left::Removal(*number),
    })
}

/// The first item of a number, and the number that has the others.
fn first_item(
    rt: &impl Abort,
    items: &CapturedItems,
    end: u32,
    number: u32,
) -> Result<Option<(Left, u32)>, NoMemory>
    requires { end < length items.now }
{
    assert!(rt; number <= end);
    Ok(match items.first(number) {
        Some((item, after)) => Some((seen_item(item)?, after)),
        None => None,
    })
}

/// A number has these items.
fn expect_items(
    rt: &impl Abort,
    items: &CapturedItems,
    end: u32,
    number: u32,
    wanted: &[Left],
) -> Result<(), Fail>
    requires { end < length items.now }
{
    let mut number = number;
    for item in wanted {
        let Some((found, after)) = first_item(rt, items, end, number)? else {
            return Err("an item")?;
        };
        expect(rt, found, *item);
        number = after;
    }
    expect(rt, first_item(rt, items, end, number)?, None);
    Ok(())
}

/// An alternative has such a binding and next variable number, and these items.
fn expect_alternative(
    rt: &impl Abort,
    items: &CapturedItems,
    end: u32,
    found: &CapturedAlternative,
    bound: Bound,
    next: VarNo,
    wanted: &[Left],
) -> Result<(), Fail>
    requires { end < length items.now }
{
    expect(rt, (only(&found.bindings)?, found.next), (bound, next));
    expect_items(rt, items, end, found.first, wanted)
}

/// What is wanted of a choice point with one alternative.
#[derive(Clone, Copy)]
struct Wanted {
    kind: Kind,
    below: Bound,
    bound: Bound,
    next: VarNo,
}

fn expect_choice(
    rt: &impl Abort,
    captured: &Captured,
    end: u32,
    number: usize,
    wanted: Wanted,
    items: &[Left],
) -> Result<(), Fail>
    requires { end < length captured.now.items }
{
    assert!(rt; number < captured.choices.len());
    let choice = &captured.choices[number];
    let found = (kind_of(&choice.kind)?, only(&choice.below)?, choice.next);
    expect(rt, found, (wanted.kind, wanted.below, 3));
    assert!(rt; choice.alternatives.len() == 1);
    let alternative = &choice.alternatives[0];
    expect_alternative(
        rt,
        &captured.items,
        end,
        alternative,
        wanted.bound,
        wanted.next,
        items,
    )
}

/// A choice point without bindings that goes on elsewhere.
fn elsewhere(kind: Kind, below: Bound) -> Wanted {
    Wanted {
        kind,
        below,
        bound: None,
        next: 3,
    }
}

fn choice(below: Bound, bound: Bound, next: VarNo) -> Wanted {
    Wanted {
        kind: Kind::Choice,
        below,
        bound,
        next,
    }
}

const fn goal_left(value: i64, cut: u32) -> Left {
    Left::Goal(Top::Int(value), cut)
}

/// What is newer than the catch.
fn expect_newer(rt: &impl Abort, captured: &Captured, end: u32) -> Result<(), Fail>
    requires { end < length captured.now.items }
{
    let clauses = choice(Some((2, Top::Int(1))), Some((0, Top::Int(2))), 4);
    let body = Left::Goal(Top::Compound(1), 5);
    expect_choice(rt, captured, end, 0, clauses, &[body])?;
    let solutions = choice(None, Some((2, Top::Int(2))), 3);
    expect_choice(rt, captured, end, 1, solutions, &[])?;
    let disjunction = elsewhere(Kind::Choice, Some((1, Top::Int(7))));
    let branch = [goal_left(6, 3), goal_left(13, 3)];
    expect_choice(rt, captured, end, 2, disjunction, &branch)
}

fn expect_guards(rt: &impl Abort, captured: &Captured, end: u32) -> Result<(), Fail>
    requires { end < length captured.now.items }
{
    let catch = elsewhere(Kind::Catch(Top::Int(3), Top::Int(4)), None);
    expect_choice(rt, captured, end, 3, catch, &[goal_left(12, 2)])?;
    let findall = elsewhere(Kind::Findall(Top::Int(5), 1), None);
    expect_choice(rt, captured, end, 4, findall, &[goal_left(11, 1)])
}

fn expect_captured(rt: &impl Abort, captured: &Captured, end: u32) -> Result<(), Fail>
    requires { end < length captured.now.items }
{
    expect(rt, captured.choices.len(), 5);
    let bound = Some((0, Top::Int(1)));
    expect_alternative(rt, &captured.items, end, &captured.current, bound, 3, &[])?;
    expect_newer(rt, captured, end)?;
    expect_guards(rt, captured, end)
}

/// One more item is put to the others, so that its number is the greatest.
fn greatest(captured: &mut Captured) -> Result<u32, NoMemory>
    ensures { IfOk result (λ end. end < length captured.new.items) }
{
    let nothing = captured.items.nothing();
    captured.items.push(CapturedItem::Removal(0), nothing)
}

fn fill_and_take_off(rt: &impl Abort, alloc: Global, region: &mut Region) -> Result<(), Fail> {
    let start = fill(rt, alloc, region)?;
    let mut captured = take_off(rt, alloc, region, start)?;
    expect(rt, region.height(), 1);
    let end = greatest(&mut captured)?;
    expect_captured(rt, &captured, end)
}

#[test]
fn each_kind_is_taken_off(rt: HostRuntime) -> Result<(), Fail> {
    let mut region = region(rt.alloc())?;
    fill_and_take_off(&rt, rt.alloc(), &mut region)
}

/// The items of a guarded goal are taken off, over so many choice points.
fn expect_guarded(
    rt: &impl Abort,
    alloc: Global,
    catches: bool,
    choices: usize,
    wanted: &[Left],
) -> Result<(), Fail> {
    let mut region = region(alloc)?;
    let position = guard(rt, alloc, &mut region, catches)?;
    let mut captured = take_off(rt, alloc, &mut region, position)?;
    let end = greatest(&mut captured)?;
    expect(rt, captured.choices.len(), choices);
    expect_items(rt, &captured.items, end, captured.current.first, wanted)
}

#[test]
fn guarded_goals_are_taken_off(rt: HostRuntime) -> Result<(), Fail> {
    let one = Top::Int(1);
    let call = Left::Goal(Top::Compound(1), 2);
    let found = [call, Left::Collect(one, 1), goal_left(11, 1)];
    expect_guarded(&rt, rt.alloc(), false, 1, &found)?;
    let call = Left::Goal(Top::Compound(1), 3);
    let caught = [call, Left::CatchEnd(2), goal_left(12, 2)];
    expect_guarded(&rt, rt.alloc(), true, 2, &caught)
}
