//! What no clause says of tasks on a branch: that what is bound there is bound in them, and that cuts are told by heights.
use crate::common::{Top, expect, variable};
use crate::loads::{Why, above, add, before, one, place, query, run_twice, segment};
use au_model::build::{atom, unary};
use clause_compile::{Branch, Goals};
use std::alloc::Global;
use std::process::Abort;
use std::sync::Arc;
use std::test::Fail;
use tree_nodes::{NodeBody, NodeKind, Nodes};

/// A branch on which the variable is bound to a number, if there is one.
fn branch(alloc: Global, goals: Goals, value: Option<i64>) -> Result<Branch, Fail> {
    Ok(Branch {
        goals,
        segment: segment(alloc, value)?,
    })
}

/// `X > N, !`, whose cut cuts to a node.
fn test_and_cut(alloc: Global, value: i64, node: u64) -> Result<Goals, Fail> {
    let cut = one(alloc, atom(alloc, "!")?, node)?;
    before(alloc, above(alloc, value)?, node, &cut)
}

/// `true` in one scope, and `!` in another.
fn true_and_cut(alloc: Global, node: u64, cut: u64) -> Result<Goals, Fail> {
    let last = one(alloc, atom(alloc, "!")?, cut)?;
    before(alloc, atom(alloc, "true")?, node, &last)
}

/// `throw(X)`.
fn throwing(alloc: Global) -> Result<Goals, Fail> {
    one(alloc, unary(alloc, "throw", &variable(alloc)?)?, 1)
}

/// Each with its own binding: `throw(X)`; `X > 6, !` of the query; `X > 6, !` of the choice.
fn own_branches(alloc: Global) -> Result<Vec<Branch>, Fail> {
    let mut branches = Vec::new(alloc);
    branches.push(branch(alloc, throwing(alloc)?, Some(5))?)?;
    branches.push(branch(alloc, test_and_cut(alloc, 6, 0)?, Some(7))?)?;
    branches.push(branch(alloc, test_and_cut(alloc, 6, 1)?, Some(8))?)?;
    branches.push(branch(alloc, test_and_cut(alloc, 6, 1)?, Some(6))?)?;
    Ok(branches)
}

/// A query, and a choice below it.
fn choice(
    rt: &impl Abort,
    alloc: Global,
    value: Option<i64>,
    branches: Vec<Branch>,
) -> Result<Nodes, Fail> {
    let mut nodes = query(rt, alloc, one(alloc, atom(alloc, "true")?, 0)?)?;
    let body = NodeBody {
        segment: Arc::new(alloc, segment(alloc, value)?)?,
        branches,
        kind: NodeKind::Choice,
    };
    add(rt, &mut nodes, Some(place(0, 0)), Arc::new(alloc, body)?)?;
    Ok(nodes)
}

fn expect_stop(
    rt: &impl Abort,
    alloc: Global,
    nodes: &Nodes,
    alternative: u32,
    wanted: (u64, Why),
) -> Result<(), Fail> {
    let found = run_twice(rt, alloc, nodes, place(1, alternative), (100, 0))?;
    expect(rt, found.0, wanted);
    Ok(())
}

#[test]
fn own_bindings_hold(rt: HostRuntime) -> Result<(), Fail> {
    let alloc = rt.alloc();
    let nodes = choice(&rt, alloc, None, own_branches(alloc)?)?;
    expect_stop(&rt, alloc, &nodes, 0, (0, Why::Ball(Top::Int(5))))?;
    expect_stop(&rt, alloc, &nodes, 1, (1, Why::Cut(1)))?;
    expect_stop(&rt, alloc, &nodes, 2, (2, Why::World))?;
    expect_stop(&rt, alloc, &nodes, 3, (1, Why::Empty))
}

#[test]
fn shared_bindings_hold(rt: HostRuntime) -> Result<(), Fail> {
    let alloc = rt.alloc();
    let mut branches = Vec::new(alloc);
    branches.push(branch(alloc, throwing(alloc)?, None)?)?;
    let nodes = choice(&rt, alloc, Some(9), branches)?;
    expect_stop(&rt, alloc, &nodes, 0, (0, Why::Ball(Top::Int(9))))
}

#[test]
fn each_goal_has_its_own_scope(rt: HostRuntime) -> Result<(), Fail> {
    let alloc = rt.alloc();
    let mut branches = Vec::new(alloc);
    branches.push(branch(alloc, true_and_cut(alloc, 1, 0)?, None)?)?;
    branches.push(branch(alloc, true_and_cut(alloc, 0, 1)?, None)?)?;
    let nodes = choice(&rt, alloc, None, branches)?;
    expect_stop(&rt, alloc, &nodes, 0, (1, Why::Cut(1)))?;
    expect_stop(&rt, alloc, &nodes, 1, (2, Why::World))
}
