//! What no clause gives: that calls succeed, and how nodes look after some of them.
use crate::asks::{expect, has, live};
use crate::looks::{Look, seen};
use crate::trees::{add, close, credit, place};
use std::alloc::Global;
use std::process::Abort;
use std::test::Fail;
use tree_model::AltRef;
use tree_nodes::Nodes;

fn reserve(nodes: &mut Nodes, closings: u64) -> Result<(), Fail> {
    Ok(nodes.reserve(closings)?)
}

fn spare(nodes: &Nodes) -> u64 {
    nodes.spare()
}

fn width(nodes: &Nodes, node: u64) -> u32 {
    nodes.width(node)
}

fn first(nodes: &Nodes) -> Option<u64> {
    nodes.first()
}

fn fold(rt: &impl Abort, alloc: Global, nodes: &mut Nodes) -> Result<(), Fail> {
    let upper = add(rt, alloc, nodes, None, 1)?;
    let lower = add(rt, alloc, nodes, Some(place(upper, 0)), 2)?;
    expect(rt, live(nodes), 2);
    close(rt, nodes, place(lower, 0), credit(alloc, 0, 2))?;
    expect(rt, spare(nodes), 0);
    close(rt, nodes, place(lower, 1), credit(alloc, 0, 3))?;
    expect(rt, has(nodes, upper), true);
    expect(rt, has(nodes, lower), false);
    expect(rt, seen(nodes, place(upper, 0)), Look::Closed(5));
    expect(rt, width(nodes, upper), 1);
    expect(rt, first(nodes), Some(upper));
    Ok(())
}

#[test]
fn two_closings_fold(rt: HostRuntime) -> Result<(), Fail> {
    let alloc = rt.alloc();
    let mut nodes = Nodes::new(alloc);
    reserve(&mut nodes, 1)?;
    fold(&rt, alloc, &mut nodes)
}
