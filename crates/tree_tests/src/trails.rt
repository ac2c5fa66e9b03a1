//! What no clause gives: that calls succeed, and what they say of small trees.
use crate::trees::{add_body, body, place};
use node_trail::{Legs, path_between};
use std::alloc::Global;
use std::process::Abort;
use std::test::Fail;
use tree_model::AltRef;
use tree_nodes::{NodeKind, Nodes};

/// Adds a node whose segment begins at ten times a number.
fn add(
    rt: &impl Abort,
    alloc: Global,
    nodes: &mut Nodes,
    parent: Option<AltRef>,
    number: u64,
) -> Result<u64, Fail> {
    let base = number.wrapping_mul(10);
    add_body(rt, nodes, parent, body(alloc, base, 3, NodeKind::Choice)?)
}

/// Whether segments begin at these numbers.
fn begin_at(legs: &Legs, bases: &[u64]) -> bool {
    let legs = legs.as_slice();
    if legs.len() != bases.len() {
        return false;
    }
    for i in 0..legs.len() {
        match &legs[i] {
            Some(leg) if leg.segment().base == bases[i] => {}
            _ => return false,
        }
    }
    true
}

fn way(
    rt: &impl Abort,
    nodes: &Nodes,
    from: AltRef,
    to: AltRef,
    leave: &[u64],
    enter: &[u64],
) -> Result<(), Fail> {
    assert!(rt; nodes.has_alternative(from) && nodes.has_alternative(to));
    let path = path_between(nodes, from, to)?;
    assert!(rt; begin_at(&path.leave, leave));
    assert!(rt; begin_at(&path.enter, enter));
    Ok(())
}

fn chain(rt: &impl Abort, alloc: Global) -> Result<Nodes, Fail> {
    let mut nodes = Nodes::new(alloc);
    add(rt, alloc, &mut nodes, None, 0)?;
    add(rt, alloc, &mut nodes, Some(place(0, 1)), 1)?;
    add(rt, alloc, &mut nodes, Some(place(1, 1)), 2)?;
    Ok(nodes)
}

/// Siblings have one segment up and one down between them.
#[test]
fn ways(rt: HostRuntime) -> Result<(), Fail> {
    let nodes = chain(&rt, rt.alloc())?;
    let none: &[u64] = &[];
    for (from, to, leave, enter) in [
        ((1, 0), (1, 0), none, none),
        ((1, 0), (1, 1), &[11], &[12]),
        ((1, 0), (2, 1), &[11], &[12, 20, 22]),
        ((2, 1), (0, 1), &[22, 20, 12, 10], none),
        ((0, 1), (2, 0), none, &[10, 12, 20, 21]),
        ((2, 0), (0, 2), &[21, 20, 12, 10, 2], &[3]),
    ] {
        let (from, to) = (place(from.0, from.1), place(to.0, to.1));
        way(&rt, &nodes, from, to, leave, enter)?;
    }
    Ok(())
}
