//! The nodes of queries, and of what is left behind a first goal, as they are made.
use crate::asks::expect;
use branch_reading::{end_body, query_body};
use branch_shapes::rest_body;
use clause_compile::{Goals, Item, Scope};
use std::alloc::Global;
use std::process::Abort;
use std::test::Fail;
use tree_nodes::{NodeBody, NodeKind};

/// Whether a branch of a body is the end of a query with no ball.
fn ends(rt: &impl Abort, body: &NodeBody, branch: usize) -> bool {
    assert!(rt; branch < body.branches.len());
    matches!(body.branches[branch].goals.first(), Some(Item::End(None)))
}

fn expect_query(rt: &impl Abort, alloc: Global) -> Result<(), Fail> {
    let body = query_body(alloc, Goals::empty(), 3)?;
    expect(rt, matches!(body.kind, NodeKind::Query), true);
    expect(rt, body.branches.len(), 2);
    expect(rt, ends(rt, &body, 0), false);
    expect(rt, ends(rt, &body, 1), true);
    Ok(())
}

fn expect_end(rt: &impl Abort, alloc: Global) -> Result<(), Fail> {
    let body = end_body(alloc)?;
    expect(rt, matches!(body.kind, NodeKind::Choice), true);
    expect(rt, body.branches.len(), 1);
    expect(rt, ends(rt, &body, 0), true);
    Ok(())
}

/// A query's node has its goals and its end, and the end wakes alone.
#[test]
fn queries(rt: HostRuntime) -> Result<(), Fail> {
    let alloc = rt.alloc();
    expect_query(&rt, alloc)?;
    expect_end(&rt, alloc)
}

/// The end of a catch, before others.
fn ends_catch(alloc: Global, node: u64, others: &Goals) -> Result<Goals, Fail> {
    Ok(others.push(alloc, Item::CatchEnd(Scope::Node(node)))?)
}

/// The number of the node that a catch which ends first has; none where something else is first.
fn first_catch(goals: &Goals) -> Option<u64> {
    match goals.first() {
        Some(Item::CatchEnd(Scope::Node(node))) => Some(*node),
        _ => None,
    }
}

/// What is left behind the first goal has one branch, with no variable and no binding.
fn expect_rest(
    rt: &impl Abort,
    alloc: Global,
    goals: &Goals,
    wanted: Option<u64>,
) -> Result<(), Fail> {
    let body = rest_body(alloc, goals, 7)?;
    expect(rt, matches!(body.kind, NodeKind::Choice), true);
    expect(rt, (body.segment.base, body.segment.vars), (7, 0));
    expect(rt, body.branches.len(), 1);
    assert!(rt; body.branches.len() == 1);
    let branch = &body.branches[0];
    expect(rt, (branch.segment.base, branch.segment.vars), (7, 0));
    expect(rt, first_catch(&branch.goals), wanted);
    Ok(())
}

/// Ends of catches in front go with the first goal, and those behind it are left.
#[test]
fn rests(rt: HostRuntime) -> Result<(), Fail> {
    let alloc = rt.alloc();
    let behind = ends_catch(alloc, 3, &Goals::empty())?;
    let goals = behind.push(alloc, Item::End(None))?;
    expect_rest(&rt, alloc, &goals, Some(3))?;
    expect_rest(&rt, alloc, &ends_catch(alloc, 5, &goals)?, Some(3))?;
    expect_rest(&rt, alloc, &behind, None)
}
