//! What no clause gives: that cuts and balls are taken in small trees, and what they leave.
use crate::asks::{below, expect, has, has_alternative, is_pending};
use crate::closings::nest;
use crate::looks::{Look, seen};
use crate::trees::{add, body, close, place, recorded};
use clause_compile::Scope;
use prune_ops::{cut, find_landing, land};
use std::alloc::Global;
use std::process::Abort;
use std::test::Fail;
use tree_model::AltRef;
use tree_nodes::{NodeKind, Nodes};

/// Lets a ball fall, and says where it landed.
fn fall(
    rt: &impl Abort,
    alloc: Global,
    nodes: &mut Nodes,
    at: AltRef,
    scope: u64,
) -> Result<Option<AltRef>, Fail> {
    let left = body(alloc, 0, 1, NodeKind::Choice)?;
    assert!(rt; nodes.has_alternative(at) && left.is_whole());
    let Some(landing) = find_landing(nodes, at, Scope::Node(scope))? else {
        return Ok(None);
    };
    let end = landing.end;
    land(nodes, landing, left)?;
    Ok(Some(end))
}

/// Takes a cut.
fn take_cut(
    rt: &impl Abort,
    alloc: Global,
    nodes: &mut Nodes,
    at: AltRef,
    scope: u64,
) -> Result<(), Fail> {
    let left = body(alloc, 0, 1, NodeKind::Choice)?;
    assert!(rt; nodes.is_pending(at) && left.is_whole());
    Ok(cut(nodes, at, Scope::Node(scope), left)?)
}

fn spent(rt: &impl Abort, nodes: &Nodes, at: AltRef) -> u64 {
    assert!(rt; nodes.has_alternative(at));
    nodes.spent(at)
}

/// A choice of three in a findall in a catch, whose first alternative has collected a number.
fn grow(rt: &impl Abort, alloc: Global, nodes: &mut Nodes) -> Result<(), Fail> {
    nest(rt, alloc, nodes)?;
    add(rt, alloc, nodes, Some(place(2, 0)), 3)?;
    close(rt, nodes, place(3, 0), recorded(rt, alloc, 7)?)
}

fn expect_landing(
    rt: &impl Abort,
    alloc: Global,
    scope: u64,
    end: Option<AltRef>,
) -> Result<(), Fail> {
    let mut nodes = Nodes::new(alloc);
    grow(rt, alloc, &mut nodes)?;
    expect(rt, fall(rt, alloc, &mut nodes, place(3, 1), scope)?, end);
    expect(rt, has(&nodes, 3), end.is_none());
    if end.is_some() {
        expect(rt, seen(&nodes, place(scope, 0)), Look::Closed(2));
        expect(rt, below(rt, &nodes, place(scope, 1)), Some(4));
    }
    Ok(())
}

/// From the choice to the catch above it: what had closed to the left counts, and what was collected is lost. A ball to the
/// choice or to a node that is not there lands nowhere.
#[test]
fn a_ball_lands(rt: HostRuntime) -> Result<(), Fail> {
    let alloc = rt.alloc();
    for (scope, end) in [
        (1, Some(place(1, 0))),
        (0, Some(place(0, 0))),
        (3, None),
        (7, None),
    ] {
        expect_landing(&rt, alloc, scope, end)?;
    }
    Ok(())
}

fn expect_cut(rt: &impl Abort, nodes: &Nodes, at: AltRef) {
    expect(rt, below(rt, nodes, at), Some(5));
    expect(rt, has_alternative(nodes, at), true);
    expect(rt, spent(rt, nodes, at), 1);
    expect(rt, seen(nodes, place(4, 1)), Look::Closed(0));
    expect(rt, seen(nodes, place(3, 2)), Look::Closed(0));
    expect(rt, is_pending(nodes, place(3, 0)), true);
    expect(rt, is_pending(nodes, place(2, 1)), true);
}

/// One inference is spent where the cut is, and what is to the right of it closes below its scope.
#[test]
fn a_cut_is_taken(rt: HostRuntime) -> Result<(), Fail> {
    let alloc = rt.alloc();
    let mut nodes = Nodes::new(alloc);
    nest(&rt, alloc, &mut nodes)?;
    add(&rt, alloc, &mut nodes, Some(place(2, 0)), 3)?;
    add(&rt, alloc, &mut nodes, Some(place(3, 1)), 2)?;
    take_cut(&rt, alloc, &mut nodes, place(4, 0), 2)?;
    expect_cut(&rt, &nodes, place(4, 0));
    Ok(())
}
