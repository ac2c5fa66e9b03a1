//! What no clause says of texts and of goals that are called: that calls succeed, and what comes back.
ghost use Rattle.cell_store.specs.StoreView.{IsValueIn};

use crate::choices::expect_clauses;
use crate::common::{
    Back, atom, expect, expect_back, expect_back_at_nothing, expect_height, expect_nothing_left,
    expect_reached, integer, region_of, value,
};
use au_model::build::{binary, single, unary};
use au_term::{Cell, FlatTerm, NoMemory};
use binding_array::BindingCell;
use clause_compile::{Clause, Place, compile};
use region_split::{BodyItem, Frame, FrameBody, Left, Position, Region, Text, Trial};
use std::alloc::Global;
use std::process::Abort;
use std::sync::Arc;
use std::test::Fail;
use value_goals::type_tests::is_callable;

/// A clause of a name and a goal.
fn rule(alloc: Global, name: &str, goal: &str) -> Result<Arc<Clause>, Fail> {
    Ok(compile(alloc, &atom(alloc, name)?, &atom(alloc, goal)?)?)
}

/// The text of `p :- q` and `q`.
fn text(alloc: Global) -> Result<Text, Fail> {
    let mut clauses = Vec::new(alloc);
    clauses.push(rule(alloc, "p", "q")?)?;
    clauses.push(rule(alloc, "q", "true")?)?;
    Ok(Text::new(alloc, clauses)?)
}

/// A region over that text.
pub(crate) fn region(alloc: Global) -> Result<Region, Fail> {
    region_of(alloc, text(alloc)?)
}

/// A clause is here: its head and its body. It has no variables.
fn expect_placed(rt: &impl Abort, text: &Text, number: u32, head: Place, body: u32) {
    assert!(rt; (number as usize) < text.clauses());
    let placed = text.placed(number);
    expect(rt, (placed.head, placed.body, placed.vars), (head, body, 0));
}

fn expect_item(rt: &impl Abort, text: &Text, at: u32, wanted: Option<BodyItem>) {
    expect(rt, text.get(at), wanted);
}

#[test]
fn clauses_are_where_the_text_says(rt: HostRuntime) -> Result<(), Fail> {
    let text = text(rt.alloc())?;
    expect(&rt, text.clauses(), 2);
    let goal = BodyItem::Goal(Place::Atom(1));
    for (at, wanted) in [(0, Some(goal)), (1, Some(BodyItem::BodyEnd)), (3, None)] {
        expect_item(&rt, &text, at, wanted);
    }
    expect_placed(&rt, &text, 0, Place::Atom(0), 0);
    expect_placed(&rt, &text, 1, Place::Atom(1), 2);
    Ok(())
}

/// Makes a frame that goes on where nothing is left.
fn push_frame(region: &mut Region) -> Result<u32, NoMemory> {
    let after = region.nothing_left();
    region.push_frame(Frame {
        body: FrameBody::Text(0),
        cut: 0,
        after,
    })
}

fn last_left(region: &Region) -> Left {
    region.left_at(region.nothing_left())
}

fn write_over(rt: &impl Abort, region: &mut Region) -> Result<(), Fail> {
    expect(rt, last_left(region), Left::Nothing);
    for frame in [1, 1] {
        expect(rt, push_frame(region)?, frame);
    }
    Ok(())
}

#[test]
fn frames_are_written_over(rt: HostRuntime) -> Result<(), Fail> {
    let mut region = region(rt.alloc())?;
    write_over(&rt, &mut region)
}

/// Tries a clause for a goal.
fn try_for(
    rt: &impl Abort,
    region: &mut Region,
    goal: BindingCell,
    clause: u32,
) -> Result<Option<Position>, NoMemory>
    requires { IsValueIn region.old.store goal }
{
    assert!(rt; (clause as usize) < region.text().clauses());
    let after = region.nothing_left();
    let cut = region.scope()?;
    region.try_clause(
        Trial {
            goal,
            clause,
            after,
        },
        cut,
    )
}

fn expect_no_trial(
    rt: &impl Abort,
    region: &mut Region,
    value: i64,
    clause: u32,
) -> Result<(), NoMemory> {
    let found = try_for(rt, region, BindingCell::Int(value), clause)?;
    expect(rt, found, None);
    Ok(())
}

/// Tries a clause for the first variable.
fn expect_trial(
    rt: &impl Abort,
    region: &mut Region,
    clause: u32,
    wanted: Option<Position>,
) -> Result<(), NoMemory> {
    assert!(rt; 0 < region.store().next());
    let found = try_for(rt, region, BindingCell::Var(0), clause)?;
    expect(rt, found, wanted);
    Ok(())
}

pub(crate) fn expect_fresh(
    rt: &impl Abort,
    region: &mut Region,
    count: u32,
    first: u32,
) -> Result<(), NoMemory> {
    expect(rt, region.fresh(count)?, first);
    Ok(())
}

fn expect_scope(rt: &impl Abort, region: &Region) -> Result<(), NoMemory> {
    expect(rt, region.scope()?, 0);
    Ok(())
}

const FIRST_BODY: Position = Position { frame: 1, at: 0 };

fn try_clauses(rt: &impl Abort, region: &mut Region) -> Result<(), Fail> {
    expect_fresh(rt, region, 1, 0)?;
    expect_scope(rt, region)?;
    expect_no_trial(rt, region, 7, 0)?;
    expect_trial(rt, region, 0, Some(FIRST_BODY))?;
    expect_reached(rt, region, 0, BindingCell::Atom(0));
    expect_trial(rt, region, 1, None)?;
    expect_height(rt, region, 0);
    Ok(())
}

#[test]
fn clauses_are_tried(rt: HostRuntime) -> Result<(), Fail> {
    let mut region = region(rt.alloc())?;
    try_clauses(&rt, &mut region)
}

/// Calls a goal after which nothing follows.
fn call_value(
    rt: &impl Abort,
    region: &mut Region,
    goal: BindingCell,
) -> Result<Option<Position>, NoMemory>
    requires { IsValueIn region.old.store goal }
{
    assert!(rt; is_callable(region.store(), goal));
    let after = region.nothing_left();
    region.call(goal, after)
}

fn call(
    rt: &impl Abort,
    alloc: Global,
    region: &mut Region,
    goal: FlatTerm,
) -> Result<Option<Position>, Fail> {
    let goal = value(rt, alloc, region, goal)?;
    Ok(call_value(rt, region, goal)?)
}

/// Whether an atom has a clause as a goal with so many arguments.
fn expect_defined(
    rt: &impl Abort,
    alloc: Global,
    region: &mut Region,
    arity: u32,
    wanted: bool,
) -> Result<(), Fail> {
    let name = value(rt, alloc, region, atom(alloc, "p")?)?;
    match region.store().dereference(name) {
        BindingCell::Atom(name) => expect(rt, region.is_defined(name, arity), wanted),
        _ => Err("an atom")?,
    }
    Ok(())
}

fn call_one_clause(rt: &impl Abort, alloc: Global, region: &mut Region) -> Result<(), Fail> {
    for (arity, wanted) in [(0, true), (1, false)] {
        expect_defined(rt, alloc, region, arity, wanted)?;
    }
    let body = call(rt, alloc, region, atom(alloc, "p")?)?;
    expect(rt, body, Some(FIRST_BODY));
    expect_height(rt, region, 0);
    Ok(())
}

#[test]
fn one_clause_leaves_no_choice_point(rt: HostRuntime) -> Result<(), Fail> {
    let mut region = region(rt.alloc())?;
    call_one_clause(&rt, rt.alloc(), &mut region)
}

/// `f` with two arguments.
fn fact(alloc: Global, first: i64, second: i64) -> Result<FlatTerm, NoMemory> {
    binary(
        alloc,
        "f",
        &integer(alloc, first)?,
        &integer(alloc, second)?,
    )
}

/// The clause of a fact.
fn fact_clause(alloc: Global, first: i64, second: i64) -> Result<Arc<Clause>, Fail> {
    Ok(compile(alloc, &fact(alloc, first, second)?, &atom(alloc, "true")?)?)
}

/// The text of the facts `f(0,1)`, `f(1,0)`, `f(2,1)` and so on.
fn facts_text(alloc: Global, count: i64) -> Result<Text, Fail> {
    let mut clauses = Vec::new(alloc);
    for number in 0..count {
        clauses.push(fact_clause(alloc, number, 1 - number % 2)?)?;
    }
    Ok(Text::new(alloc, clauses)?)
}

/// A region over that text, with one variable.
fn facts(alloc: Global, count: i64) -> Result<Region, Fail> {
    let mut region = region_of(alloc, facts_text(alloc, count)?)?;
    region.fresh(1)?;
    Ok(region)
}

/// Calls `f` with two integers.
fn call_fact(
    rt: &impl Abort,
    alloc: Global,
    region: &mut Region,
    first: i64,
    second: i64,
) -> Result<Option<Position>, Fail> {
    call(rt, alloc, region, fact(alloc, first, second)?)
}

/// `f` with the variable and an integer.
fn free(alloc: Global, second: i64) -> Result<FlatTerm, NoMemory> {
    binary(
        alloc,
        "f",
        &single(alloc, Cell::Var(0))?,
        &integer(alloc, second)?,
    )
}

/// Calls it.
fn call_free(rt: &impl Abort, alloc: Global, region: &mut Region, second: i64) -> Result<(), Fail> {
    let found = call(rt, alloc, region, free(alloc, second)?)?;
    expect_nothing_left(rt, found);
    Ok(())
}

/// The variable is bound to an integer, with so many choice points.
fn expect_bound(rt: &impl Abort, region: &Region, value: i64, choices: usize) {
    expect_reached(rt, region, 0, BindingCell::Int(value));
    expect_height(rt, region, choices);
}

/// One fact by its key, and then the first of many.
fn call_both(rt: &impl Abort, alloc: Global, region: &mut Region) -> Result<(), Fail> {
    let key = call_fact(rt, alloc, region, 77_777, 0)?;
    expect_nothing_left(rt, key);
    expect_height(rt, region, 0);
    call_free(rt, alloc, region, 1)?;
    expect_bound(rt, region, 0, 1);
    expect_clauses(rt, region);
    Ok(())
}

fn find_facts(rt: &impl Abort, alloc: Global, region: &mut Region) -> Result<(), Fail> {
    for _turn in 0..1_000 {
        call_both(rt, alloc, region)?;
    }
    Ok(())
}

#[test]
fn one_of_many_facts(rt: HostRuntime) -> Result<(), Fail> {
    let mut region = facts(rt.alloc(), 100_000)?;
    find_facts(&rt, rt.alloc(), &mut region)
}

fn call_in_order(rt: &impl Abort, alloc: Global, region: &mut Region) -> Result<(), Fail> {
    call_free(rt, alloc, region, 0)?;
    expect_bound(rt, region, 1, 1);
    for (value, choices) in [(3, 1), (5, 0)] {
        expect_back_at_nothing(rt, region)?;
        expect_bound(rt, region, value, choices);
    }
    expect_back(rt, region, Back::AllDone)
}

#[test]
fn facts_in_their_order(rt: HostRuntime) -> Result<(), Fail> {
    let mut region = facts(rt.alloc(), 6)?;
    call_in_order(&rt, rt.alloc(), &mut region)
}

/// The text of the facts `f(0,1)`, `f(1,1)` and `f(2,0)`.
fn alike_text(alloc: Global) -> Result<Text, Fail> {
    let mut clauses = Vec::new(alloc);
    for number in 0..3 {
        clauses.push(fact_clause(alloc, number, 1 - number / 2)?)?;
    }
    Ok(Text::new(alloc, clauses)?)
}

/// Two facts have the same second argument, and the third another one.
#[test]
fn a_fact_after_two_that_are_alike_is_passed_over(rt: HostRuntime) -> Result<(), Fail> {
    let alloc = rt.alloc();
    let mut region = region_of(alloc, alike_text(alloc)?)?;
    region.fresh(1)?;
    call_free(&rt, alloc, &mut region, 1)?;
    expect_bound(&rt, &region, 0, 1);
    expect_back_at_nothing(&rt, &mut region)?;
    expect_bound(&rt, &region, 1, 0);
    Ok(())
}

/// Calls `f` with an integer for which there is no fact.
fn call_in_vain(rt: &impl Abort, alloc: Global, region: &mut Region, key: i64) -> Result<(), Fail> {
    expect(rt, call_fact(rt, alloc, region, key, 1)?, None);
    expect_height(rt, region, 0);
    Ok(())
}

fn leave_nothing(rt: &impl Abort, alloc: Global, region: &mut Region) -> Result<(), Fail> {
    call_in_vain(rt, alloc, region, 3)?;
    call_in_vain(rt, alloc, region, 9)
}

#[test]
fn calls_that_leave_nothing(rt: HostRuntime) -> Result<(), Fail> {
    let mut region = facts(rt.alloc(), 6)?;
    leave_nothing(&rt, rt.alloc(), &mut region)
}

/// `f(s(N))`.
fn nested(alloc: Global, number: i64) -> Result<FlatTerm, NoMemory> {
    unary(alloc, "f", &unary(alloc, "s", &integer(alloc, number)?)?)
}

/// The text of the facts `f(s(0))`, `f(s(1))` and `f(s(2))`.
fn nested_text(alloc: Global) -> Result<Text, Fail> {
    let mut clauses = Vec::new(alloc);
    for number in 0..3 {
        clauses.push(compile(alloc, &nested(alloc, number)?, &atom(alloc, "true")?)?)?;
    }
    Ok(Text::new(alloc, clauses)?)
}

/// A constant inside of an argument tells facts apart, so no choice point is left.
#[test]
fn facts_with_another_inner_constant_are_passed_over(rt: HostRuntime) -> Result<(), Fail> {
    let alloc = rt.alloc();
    let mut region = region_of(alloc, nested_text(alloc)?)?;
    let reached = call(&rt, alloc, &mut region, nested(alloc, 1)?)?;
    expect_nothing_left(&rt, reached);
    expect_height(&rt, &region, 0);
    Ok(())
}
