//! Tables of nodes, and the tasks that are loaded from them.
ghost use Rattle.std.specs.Prelude.{◌≡◌, IfOk, OnOk};
ghost use Rattle.std.specs.Arc.{arc_value};
ghost use Rattle.tree_model.specs.EventViews.{place_view};
ghost use Rattle.task_region.specs.KeptRegions.{IsOnWay};
ghost use Rattle.task_region.specs.TaskLoads.{LoadsTask};

use crate::common::{Top, number, top_of_cell, variable};
use crate::loadable::is_loadable;
use au_model::build::{atom, binary, unary};
use au_term::{Binding, Bindings, FlatTerm, Segment, Shared};
use branch_reading::query_body;
use clause_compile::{Clause, Goals, Item, Scope, compile};
use goal_kinds::GoalKinds;
use region_split::Text;
use std::alloc::Global;
use std::process::Abort;
use std::sync::Arc;
use std::test::Fail;
use task_region::{LoadedTask, TaskRegion, TaskStop, load_task};
use tree_model::AltRef;
use tree_nodes::{NodeBody, Nodes};

fn clause(alloc: Global, head: &FlatTerm, body: &FlatTerm) -> Result<Arc<Clause>, Fail> {
    match compile(alloc, head, body) {
        Ok(clause) => Ok(clause),
        Err(_) => Err("a clause")?,
    }
}

/// The fact `p(N)`.
fn fact(alloc: Global, value: i64) -> Result<Arc<Clause>, Fail> {
    let head = unary(alloc, "p", &number(alloc, value)?)?;
    clause(alloc, &head, &atom(alloc, "true")?)
}

/// `X > N`.
pub(crate) fn above(alloc: Global, value: i64) -> Result<FlatTerm, Fail> {
    Ok(binary(alloc, ">", &variable(alloc)?, &number(alloc, value)?)?)
}

/// `q(X) :- p(X), X > 1`.
fn rule(alloc: Global) -> Result<Arc<Clause>, Fail> {
    let x = variable(alloc)?;
    let body = binary(alloc, ",", &unary(alloc, "p", &x)?, &above(alloc, 1)?)?;
    clause(alloc, &unary(alloc, "q", &x)?, &body)
}

/// The text of `p(1)`, `p(2)` and `q(X) :- p(X), X > 1`.
pub(crate) fn text(alloc: Global) -> Result<Arc<Text>, Fail> {
    let mut clauses = Vec::new(alloc);
    clauses.push(fact(alloc, 1)?)?;
    clauses.push(fact(alloc, 2)?)?;
    clauses.push(rule(alloc)?)?;
    Ok(Arc::new(alloc, Text::new(alloc, clauses)?)?)
}

pub(crate) fn place(node: u64, alternative: u32) -> AltRef {
    AltRef { node, alternative }
}

/// A goal whose cut cuts to a node, before others.
pub(crate) fn before(
    alloc: Global,
    goal: FlatTerm,
    node: u64,
    others: &Goals,
) -> Result<Goals, Fail> {
    let term = Shared::from_term(alloc, goal)?;
    let cut = Scope::Node(node);
    Ok(others.push(alloc, Item::Goal { term, cut })?)
}

/// One goal, whose cut cuts to a node.
pub(crate) fn one(alloc: Global, goal: FlatTerm, node: u64) -> Result<Goals, Fail> {
    before(alloc, goal, node, &Goals::empty())
}

/// Adds a node below a pending alternative, or the first one.
pub(crate) fn add(
    rt: &impl Abort,
    nodes: &mut Nodes,
    parent: Option<AltRef>,
    body: Arc<NodeBody>,
) -> Result<(), Fail> {
    assert!(rt; body.is_whole());
    match parent {
        Some(at) => assert!(rt; nodes.is_pending(at)),
        None => assert!(rt; nodes.live() == 0),
    }
    nodes.add(parent, body)?;
    Ok(())
}

/// A tree of a query with one variable, whose node has number 0.
pub(crate) fn query(rt: &impl Abort, alloc: Global, goals: Goals) -> Result<Nodes, Fail> {
    let mut nodes = Nodes::new(alloc);
    add(rt, &mut nodes, None, query_body(alloc, goals, 1)?)?;
    Ok(nodes)
}

/// A segment that takes no variable, where there was one, with the variable bound to a number, if there is one.
pub(crate) fn segment(alloc: Global, value: Option<i64>) -> Result<Segment, Fail> {
    let mut bindings = Bindings::new(alloc);
    if let Some(value) = value {
        let value = Shared::from_term(alloc, number(alloc, value)?)?;
        bindings.push(Binding { var: 0, value })?;
    }
    Ok(Segment {
        base: 1,
        vars: 0,
        bindings,
    })
}

/// Loads an alternative.
pub(crate) fn loaded(
    rt: &impl Abort,
    alloc: Global,
    nodes: &Nodes,
    at: AltRef,
    text: Arc<Text>,
) -> Result<LoadedTask, Fail>
    ensures loads { IfOk result (λ l. LoadsTask nodes.now (place_view at) (arc_value text) l.task) }
    ensures way { IfOk result (λ l. IsOnWay nodes.now.rows (place_view at) (arc_value text) l.numbers.items l.task) }
{
    assert!(rt; nodes.has(at.node));
    assert!(rt; is_loadable(nodes, alloc, at)?);
    Ok(load_task(nodes, at, alloc, text, None)?)
}

/// Its task.
pub(crate) fn load(
    rt: &impl Abort,
    alloc: Global,
    nodes: &Nodes,
    at: AltRef,
    text: Arc<Text>,
) -> Result<TaskRegion, Fail>
    ensures text { IfOk result (λ task. task.region.text ≡ arc_value text) }
    ensures loads { IfOk result (LoadsTask nodes.now (place_view at) (arc_value text)) }
{
    let LoadedTask { task, numbers: _ } = loaded(rt, alloc, nodes, at, text)?;
    Ok(task)
}

/// Why a task stopped.
#[derive(Clone, Copy, Debug, PartialEq, Eq)]
pub(crate) enum Why {
    Limit,
    Cut(u32),
    World,
    Collect(u64),
    Ball(Top),
    Empty,
}

fn reason(stop: &TaskStop) -> Why {
    match stop {
        TaskStop::Limit => Why::Limit,
        TaskStop::Cut(height) => Why::Cut(*height),
        TaskStop::World(_, _) | TaskStop::Removal(_) | TaskStop::Answer => Why::World,
        TaskStop::Collect(number) => Why::Collect(*number),
        TaskStop::Ball(ball) => Why::Ball(top_of_cell(ball.top())),
        TaskStop::Empty => Why::Empty,
    }
}

/// Runs a task on: how many inferences it took, and why it stopped.
fn run(
    alloc: Global,
    task: &mut TaskRegion,
    kinds: &GoalKinds,
    limit: u64,
) -> Result<(u64, Why), Fail>
    requires { kinds.now ≡ task.old.region.text.code.names }
    ensures { OnOk result (task.new.region.text ≡ task.old.region.text) }
{
    let ran = task.run(alloc, kinds, limit)?;
    Ok((ran.taken, reason(&ran.stop)))
}

/// An alternative is loaded and run to one limit, and then on to another.
pub(crate) fn run_twice(
    rt: &impl Abort,
    alloc: Global,
    nodes: &Nodes,
    at: AltRef,
    limits: (u64, u64),
) -> Result<((u64, Why), (u64, Why)), Fail> {
    let text = text(alloc)?;
    let code = text.code()?;
    let kinds = GoalKinds::new(alloc, &code)?;
    let mut task = load(rt, alloc, nodes, at, text)?;
    let first = run(alloc, &mut task, &kinds, limits.0)?;
    let second = run(alloc, &mut task, &kinds, limits.1)?;
    Ok((first, second))
}
