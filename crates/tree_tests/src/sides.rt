//! What no clause gives: that calls succeed, and what they say of one tree.
use crate::asks::{
    before, clock, counts, expect, first_open, is_pending, leftmost, leftmost_cleared,
    leftmost_ready, set,
};
use crate::trees::{choices, close, credit, place};
use branch_order::cleared;
use clause_compile::{GateKind, Scope};
use std::alloc::Global;
use std::process::Abort;
use std::test::Fail;
use tree_model::AltRef;
use tree_nodes::{AltState, Nodes};

/// A node of three alternatives; below the second one of two, and below the second of these one of two. The first of the
/// first node has closed with 2 inferences and an answer, 3 were spent on its second.
fn tree(rt: &impl Abort, alloc: Global) -> Result<Nodes, Fail> {
    let mut nodes = choices(rt, alloc, 3, &[(0, 1, 2), (1, 1, 2)])?;
    close(rt, &mut nodes, place(0, 0), credit(alloc, 1, 2))?;
    set(rt, &mut nodes, place(0, 1), AltState::Inner(1), 3);
    Ok(nodes)
}

fn cleared_left(rt: &impl Abort, nodes: &Nodes, at: AltRef, scope: u64) -> Option<AltRef> {
    assert!(rt; nodes.has_alternative(at));
    cleared(nodes, at, Scope::Node(scope)).err()
}

fn expect_left(
    rt: &impl Abort,
    nodes: &Nodes,
    at: AltRef,
    scope: Option<u64>,
    left: Option<AltRef>,
) {
    expect(rt, first_open(rt, nodes, at, scope), left);
    if let Some(scope) = scope {
        expect(rt, cleared_left(rt, nodes, at, scope), left);
    }
}

#[test]
fn what_is_open_to_the_left(rt: HostRuntime) -> Result<(), Fail> {
    let nodes = tree(&rt, rt.alloc())?;
    expect(&rt, leftmost(&nodes), Some(place(1, 0)));
    let none = None;
    for (node, alternative, scope, left) in [
        (1, 0, None, none),
        (1, 1, None, Some(place(1, 0))),
        (2, 1, None, Some(place(1, 0))),
        (2, 1, Some(1), Some(place(2, 0))),
        (2, 0, Some(1), none),
        (2, 0, Some(0), Some(place(1, 0))),
        (2, 1, Some(2), none),
        (0, 2, None, Some(place(0, 1))),
    ] {
        expect_left(&rt, &nodes, place(node, alternative), scope, left);
    }
    Ok(())
}

#[test]
fn what_is_left(rt: HostRuntime) -> Result<(), Fail> {
    let nodes = tree(&rt, rt.alloc())?;
    for (a, b, left) in [
        ((1, 0), (1, 1), true),
        ((1, 1), (1, 0), false),
        ((0, 1), (2, 0), false),
        ((2, 0), (0, 1), false),
        ((0, 0), (2, 1), true),
        ((0, 2), (2, 1), false),
        ((2, 1), (2, 1), false),
    ] {
        let (one, other) = (place(a.0, a.1), place(b.0, b.1));
        expect(&rt, before(&rt, &nodes, one, other), left);
    }
    expect(&rt, clock(&rt, &nodes, place(1, 0)), 5);
    expect(&rt, counts(&rt, &nodes, place(1, 0)), (1, 5));
    Ok(())
}

fn hold(rt: &impl Abort, nodes: &mut Nodes, at: AltRef, state: AltState) {
    expect(rt, is_pending(nodes, at), true);
    set(rt, nodes, at, state, 0);
}

/// Of the ready ones the first is to the right of one that is with a worker; of those that wait, the first for a cut has
/// something open to its left.
#[test]
fn what_can_be_taken(rt: HostRuntime) -> Result<(), Fail> {
    let mut nodes = tree(&rt, rt.alloc())?;
    expect(&rt, leftmost_ready(&nodes), Some(place(1, 0)));
    expect(&rt, leftmost_cleared(&nodes), None);
    hold(&rt, &mut nodes, place(1, 0), AltState::Taken(3));
    for (alternative, scope) in [(0, 0), (1, 2)] {
        let state = AltState::Waiting(GateKind::Cut(Scope::Node(scope)));
        hold(&rt, &mut nodes, place(2, alternative), state);
    }
    expect(&rt, leftmost_ready(&nodes), Some(place(0, 2)));
    expect(&rt, leftmost_cleared(&nodes), Some(place(2, 1)));
    Ok(())
}
