//! What no clause says of bodies that are made of what a task has left: that the call succeeds, and what is made.
ghost use Rattle.std.specs.Str.{IsAscii};

use crate::bodies::kind_of;
use crate::captures::{Bound, Kind, only, top_of};
use crate::common::{Top, expect, number, variable};
use crate::loads::{add, before, loaded, one, place, text};
use au_model::build::{atom, compound, single, unary};
use au_term::{Atom, Cell, FlatTerm, NoMemory};
use branch_reading::query_body;
use clause_compile::{Branch, Goals, Item, Scope};
use goal_kinds::GoalKinds;
use std::alloc::Global;
use std::process::Abort;
use std::sync::Arc;
use std::test::Fail;
use task_publishing::bodies_of_task;
use task_publishing::laws::tasks_stop_on_runs;
use task_region::{LoadedTask, TaskStop};
use tree_model::AltRef;
use tree_nodes::{NodeBody, Nodes};

fn ternary(
    alloc: Global,
    name: &str,
    first: &FlatTerm,
    second: &FlatTerm,
    third: &FlatTerm,
) -> Result<FlatTerm, Fail>
    requires { IsAscii name.now }
{
    let name = Atom::ascii(alloc, name)?;
    Ok(compound(alloc, name, &[first, second, third])?)
}

/// `findall(X, catch(q(X), c, 4), L)`.
fn gathering(alloc: Global) -> Result<FlatTerm, Fail> {
    let x = variable(alloc)?;
    let goal = unary(alloc, "q", &x)?;
    let recovery = number(alloc, 4)?;
    let guarded = ternary(alloc, "catch", &goal, &atom(alloc, "c")?, &recovery)?;
    let list = single(alloc, Cell::Var(1))?;
    ternary(alloc, "findall", &x, &guarded, &list)
}

/// That, before `s`.
fn goals(alloc: Global) -> Result<Goals, Fail> {
    let after = one(alloc, atom(alloc, "s")?, 0)?;
    before(alloc, gathering(alloc)?, 0, &after)
}

/// Bodies of what is left of an alternative after so many inferences, where a goal is next.
fn bodies_after(
    rt: &impl Abort,
    alloc: Global,
    nodes: &Nodes,
    at: AltRef,
    limit: u64,
) -> Result<Vec<Arc<NodeBody>>, Fail> {
    // The proof reads off that there is a tree.
    let _live = nodes.live();
    tasks_stop_on_runs();
    assert!(rt; nodes.has_alternative(at));
    let text = text(alloc)?;
    let code = text.code()?;
    let kinds = GoalKinds::new(alloc, &code)?;
    let LoadedTask { task, numbers } = loaded(rt, alloc, nodes, at, text)?;
    let mut task = task;
    let ran = task.run(alloc, &kinds, limit)?;
    match ran.stop {
        TaskStop::Limit => {
            let (bodies, _region) = bodies_of_task(nodes, at, alloc, task, &numbers)?;
            Ok(bodies)
        }
        _ => Err("a goal")?,
    }
}

/// An item, with the node to which it cuts, or which it marks.
#[derive(Clone, Copy, Debug, PartialEq, Eq)]
enum Left {
    Goal(Top, Option<u64>),
    CatchEnd(Option<u64>),
    Collect(Top, Option<u64>),
    Other,
}

fn node_of(scope: &Scope) -> Option<u64> {
    match scope {
        Scope::Node(number) => Some(*number),
        Scope::Local(_) => None,
    }
}

fn seen(item: &Item) -> Result<Left, NoMemory> {
    Ok(match item {
        Item::Goal { term, cut } => Left::Goal(top_of(term)?, node_of(cut)),
        Item::CatchEnd(scope) => Left::CatchEnd(node_of(scope)),
        Item::Collect { template, scope } => Left::Collect(top_of(template)?, node_of(scope)),
        _ => Left::Other,
    })
}

/// A branch takes no variable, and has such a binding and these items.
fn expect_branch(
    rt: &impl Abort,
    branch: &Branch,
    bound: Bound,
    wanted: &[Left],
) -> Result<(), Fail> {
    let segment = &branch.segment;
    expect(rt, (only(&segment.bindings)?, segment.vars), (bound, 0));
    let mut left = wanted.iter();
    for item in branch.goals.items() {
        let found = seen(item)?;
        expect(rt, Some(found), left.next().copied());
    }
    expect(rt, left.next().copied(), None);
    Ok(())
}

/// A body with two branches, whose own segment takes so many variables from the second on.
fn expect_body(
    rt: &impl Abort,
    body: &NodeBody,
    kind: Kind,
    below: Bound,
    vars: u64,
) -> Result<(), Fail> {
    let segment = &body.segment;
    let found = (kind_of(&body.kind)?, only(&segment.bindings)?);
    expect(rt, found, (Some(kind), below));
    let sizes = (segment.base, segment.vars, body.branches.len());
    expect(rt, sizes, (2, vars, 2));
    Ok(())
}

const S: Left = Left::Goal(Top::Atom(1), Some(0));

const COLLECT: Left = Left::Collect(Top::Var(0), Some(1));

const TEST: Left = Left::Goal(Top::Compound(2), Some(2));

const CATCH_END: Left = Left::CatchEnd(Some(2));

fn expect_guards(rt: &impl Abort, findall: &NodeBody, catch: &NodeBody) -> Result<(), Fail> {
    expect_body(rt, findall, Kind::Findall(Top::Var(1), 0), None, 0)?;
    assert!(rt; findall.branches.len() == 2);
    expect_branch(rt, &findall.branches[0], None, &[])?;
    expect_branch(rt, &findall.branches[1], None, &[S])?;
    expect_body(rt, catch, Kind::Catch(Top::Atom(1), Top::Int(4)), None, 0)?;
    assert!(rt; catch.branches.len() == 2);
    expect_branch(rt, &catch.branches[0], None, &[])?;
    expect_branch(rt, &catch.branches[1], None, &[COLLECT, S])
}

fn expect_choice(rt: &impl Abort, choice: &NodeBody) -> Result<(), Fail> {
    let below = Some((2, Top::Var(0)));
    expect_body(rt, choice, Kind::Choice, below, 1)?;
    assert!(rt; choice.branches.len() == 2);
    let left = [TEST, CATCH_END, COLLECT, S];
    let (one, two) = (Some((0, Top::Int(1))), Some((0, Top::Int(2))));
    expect_branch(rt, &choice.branches[0], one, &left)?;
    expect_branch(rt, &choice.branches[1], two, &left)
}

/// A task that has come to a test under a catch in a findall becomes three nodes, and what it had deferred is behind the findall.
#[test]
fn each_guard_becomes_a_node(rt: HostRuntime) -> Result<(), Fail> {
    let alloc = rt.alloc();
    let mut nodes = Nodes::new(alloc);
    add(&rt, &mut nodes, None, query_body(alloc, goals(alloc)?, 2)?)?;
    let bodies = bodies_after(&rt, alloc, &nodes, place(0, 0), 6)?;
    assert!(&rt; bodies.len() == 3);
    expect_guards(&rt, &bodies[0], &bodies[1])?;
    expect_choice(&rt, &bodies[2])
}
