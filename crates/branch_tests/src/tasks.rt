//! What no clause says of tasks: that calls succeed, and where they stop.
use crate::common::{Top, expect, number, variable};
use crate::loads::{Why, before, one, place, query, run_twice};
use au_model::build::{atom, unary};
use au_term::{FlatTerm, Shared};
use clause_compile::{Goals, Item, Scope};
use std::alloc::Global;
use std::process::Abort;
use std::test::Fail;

/// The alternative of a query stops so at a limit, and then so.
fn expect_stops(
    rt: &impl Abort,
    alloc: Global,
    goals: Goals,
    limit: u64,
    first: (u64, Why),
    second: (u64, Why),
) -> Result<(), Fail> {
    let nodes = query(rt, alloc, goals)?;
    let found = run_twice(rt, alloc, &nodes, place(0, 0), (limit, 100))?;
    expect(rt, found, (first, second));
    Ok(())
}

/// The same of a goal.
fn expect_goal_stops(
    rt: &impl Abort,
    alloc: Global,
    goal: FlatTerm,
    limit: u64,
    first: (u64, Why),
    second: (u64, Why),
) -> Result<(), Fail> {
    expect_stops(rt, alloc, one(alloc, goal, 0)?, limit, first, second)
}

#[test]
fn limit_stops_before_the_next_goal(rt: HostRuntime) -> Result<(), Fail> {
    let alloc = rt.alloc();
    let goal = unary(alloc, "q", &variable(alloc)?)?;
    let (first, second) = ((3, Why::Limit), (1, Why::World));
    expect_goal_stops(&rt, alloc, goal, 3, first, second)
}

#[test]
fn output_is_the_worlds(rt: HostRuntime) -> Result<(), Fail> {
    let alloc = rt.alloc();
    let goal = unary(alloc, "write", &number(alloc, 7)?)?;
    let stop = (0, Why::World);
    expect_goal_stops(&rt, alloc, goal, 100, stop, stop)
}

#[test]
fn cut_over_own_choice_points_runs_on(rt: HostRuntime) -> Result<(), Fail> {
    let alloc = rt.alloc();
    let (first, second) = ((1, Why::World), (0, Why::World));
    expect_goal_stops(&rt, alloc, atom(alloc, "!")?, 100, first, second)
}

#[test]
fn failed_task_is_at_its_end(rt: HostRuntime) -> Result<(), Fail> {
    let alloc = rt.alloc();
    let (first, second) = ((1, Why::Empty), (0, Why::Empty));
    expect_goal_stops(&rt, alloc, atom(alloc, "fail")?, 100, first, second)
}

#[test]
fn uncaught_ball_ends_a_task(rt: HostRuntime) -> Result<(), Fail> {
    let alloc = rt.alloc();
    let goal = unary(alloc, "throw", &number(alloc, 7)?)?;
    let (first, second) = ((0, Why::Ball(Top::Int(7))), (0, Why::Empty));
    expect_goal_stops(&rt, alloc, goal, 100, first, second)
}

/// So many goals that hold.
fn holding(alloc: Global, many: u32) -> Result<Goals, Fail> {
    let mut goals = Goals::empty();
    for _ in 0..many {
        goals = before(alloc, atom(alloc, "true")?, 0, &goals)?;
    }
    Ok(goals)
}

#[test]
fn each_goal_is_taken_once(rt: HostRuntime) -> Result<(), Fail> {
    let alloc = rt.alloc();
    let (first, second) = ((9, Why::Limit), (11, Why::World));
    expect_stops(&rt, alloc, holding(alloc, 20)?, 9, first, second)
}

/// A result of the variable for a findall at a node.
fn result(alloc: Global, node: u64) -> Result<Goals, Fail> {
    let template = Shared::from_term(alloc, variable(alloc)?)?;
    let scope = Scope::Node(node);
    Ok(Goals::empty().push(alloc, Item::Collect { template, scope })?)
}

/// `p(X)`, and its result.
fn collecting(alloc: Global) -> Result<Goals, Fail> {
    let goal = unary(alloc, "p", &variable(alloc)?)?;
    before(alloc, goal, 0, &result(alloc, 0)?)
}

#[test]
fn result_stops(rt: HostRuntime) -> Result<(), Fail> {
    let alloc = rt.alloc();
    let (first, second) = ((1, Why::Collect(1)), (0, Why::Collect(1)));
    expect_stops(&rt, alloc, collecting(alloc)?, 100, first, second)
}
