//! What no clause says: that runs succeed, and what they come to.
ghost use Rattle.std.specs.Prelude.{IfOk, length};
ghost use Rattle.region_split.specs.ClauseTrials.{IsOptionalPosition};

use au_model::build::{atom, binary, unary};
use au_term::{Cell, FlatTerm, NoMemory, Shared, VarNo};
use clause_compile::{Clause, compile};
use goal_kinds::GoalKinds;
use region_run::{Ran, Stop, run};
use region_split::{Alternatives, FrameItem, Position, Region, Text};
use std::alloc::Global;
use std::process::Abort;
use std::sync::Arc;
use std::test::Fail;

fn number(alloc: Global, value: i64) -> Result<FlatTerm, Fail> {
    Ok(FlatTerm::from_slice(alloc, &[Cell::Int(value)])?)
}

fn variable(alloc: Global) -> Result<FlatTerm, Fail> {
    Ok(FlatTerm::from_slice(alloc, &[Cell::Var(0)])?)
}

fn clause(alloc: Global, head: &FlatTerm, body: &FlatTerm) -> Result<Arc<Clause>, Fail> {
    match compile(alloc, head, body) {
        Ok(clause) => Ok(clause),
        Err(_) => Err("a clause")?,
    }
}

/// The fact `p(N)`.
fn fact(alloc: Global, value: i64) -> Result<Arc<Clause>, Fail> {
    let head = unary(alloc, "p", &number(alloc, value)?)?;
    clause(alloc, &head, &atom(alloc, "true")?)
}

/// `p(X), X > 1`.
fn body(alloc: Global, x: &FlatTerm) -> Result<FlatTerm, Fail> {
    let test = binary(alloc, ">", x, &number(alloc, 1)?)?;
    Ok(binary(alloc, ",", &unary(alloc, "p", x)?, &test)?)
}

/// `q(X) :- p(X), X > 1`.
fn rule(alloc: Global) -> Result<Arc<Clause>, Fail> {
    let x = variable(alloc)?;
    clause(alloc, &unary(alloc, "q", &x)?, &body(alloc, &x)?)
}

/// The text of `p(1)`, `p(2)` and `q(X) :- p(X), X > 1`.
fn text(alloc: Global) -> Result<Arc<Text>, Fail> {
    let mut clauses = Vec::new(alloc);
    clauses.push(fact(alloc, 1)?)?;
    clauses.push(fact(alloc, 2)?)?;
    clauses.push(rule(alloc)?)?;
    Ok(Arc::new(alloc, Text::new(alloc, clauses)?)?)
}

/// Puts a goal into a region of as many variables as it has: where it is taken.
fn put(
    rt: &impl Abort,
    alloc: Global,
    region: &mut Region,
    goal: FlatTerm,
) -> Result<Option<Position>, Fail>
    ensures { IfOk result (IsOptionalPosition region.new (length region.new.choices)) }
{
    let goal = Shared::from_term(alloc, goal)?;
    assert!(rt; goal.to_term(alloc)?.bound() <= VarNo::from(region.store().next()));
    let value = region.copy_in(&goal)?;
    let cut = region.scope()?;
    let after = region.nothing_left();
    Ok(Some(region.push_item(FrameItem::Goal(value), cut, after)?))
}

/// A region with so many variables, in which a query ends.
fn region(alloc: Global, variables: u32) -> Result<Region, Fail> {
    let mut region = Region::new(alloc, text(alloc)?)?;
    region.fresh(variables)?;
    region.set_floor();
    let nothing = region.nothing_left();
    region.push_choice(Alternatives::QueryEnd, nothing)?;
    Ok(region)
}

/// Runs on.
fn go_on(
    alloc: Global,
    region: &mut Region,
    start: Option<Position>,
    limit: u64,
) -> Result<Ran, NoMemory>
    requires { IsOptionalPosition region.old (length region.old.choices) start }
{
    let code = region.text().code()?;
    let kinds = GoalKinds::new(alloc, &code)?;
    run(region, alloc, &kinds, start, limit)
}

/// Why a run stopped.
#[derive(Clone, Copy, Debug, PartialEq, Eq)]
enum Why {
    Answer,
    Limit,
    Uncaught,
    World,
    Other,
}

fn reason(stop: &Stop) -> Why {
    match stop {
        Stop::Answer(_) => Why::Answer,
        Stop::Limit(_, _) => Why::Limit,
        Stop::QueryDone(Some(_)) => Why::Uncaught,
        Stop::World(_, _) => Why::World,
        _ => Why::Other,
    }
}

/// A goal is run to a limit: it takes so many steps, and stops so.
fn check_in(
    rt: &impl Abort,
    alloc: Global,
    region: &mut Region,
    goal: FlatTerm,
    limit: u64,
    taken: u64,
    wanted: Why,
) -> Result<(), Fail> {
    let start = put(rt, alloc, region, goal)?;
    let ran = go_on(alloc, region, start, limit)?;
    assert_eq!(rt; ran.taken, taken);
    assert_eq!(rt; reason(&ran.stop), wanted);
    Ok(())
}

fn check(
    rt: &impl Abort,
    alloc: Global,
    goal: FlatTerm,
    limit: u64,
    taken: u64,
    wanted: Why,
) -> Result<(), Fail> {
    let variables = if goal.bound() == 0 { 0 } else { 1 };
    let mut region = region(alloc, variables)?;
    check_in(rt, alloc, &mut region, goal, limit, taken, wanted)
}

#[test]
fn second_clause_answers(rt: HostRuntime) -> Result<(), Fail> {
    let goal = unary(rt.alloc(), "q", &variable(rt.alloc())?)?;
    check(&rt, rt.alloc(), goal, 100, 4, Why::Answer)
}

#[test]
fn limit_stops_before_the_next_goal(rt: HostRuntime) -> Result<(), Fail> {
    let goal = unary(rt.alloc(), "q", &variable(rt.alloc())?)?;
    check(&rt, rt.alloc(), goal, 3, 3, Why::Limit)
}

#[test]
fn uncaught_ball_ends_the_query(rt: HostRuntime) -> Result<(), Fail> {
    let goal = unary(rt.alloc(), "throw", &atom(rt.alloc(), "oops")?)?;
    check(&rt, rt.alloc(), goal, 100, 1, Why::Uncaught)
}

#[test]
fn unknown_procedures_are_the_worlds(rt: HostRuntime) -> Result<(), Fail> {
    let goal = unary(rt.alloc(), "unknown", &number(rt.alloc(), 1)?)?;
    check(&rt, rt.alloc(), goal, 100, 0, Why::World)
}
