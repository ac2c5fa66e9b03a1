//! What no clause gives: that closings come to rest, and where they do in one tree.
use crate::asks::{below, expect, has, live};
use crate::trees::{add_body, body, credit, findall, place, recorded, shared};
use au_term::{Bindings, Segment};
use clause_compile::{Branch, Goals};
use std::alloc::Global;
use std::process::Abort;
use std::test::Fail;
use tree_closing::{Beside, body_of_one, find_rest, settle, wake};
use tree_model::AltRef;
use tree_nodes::{Credit, NodeKind, Nodes};

pub(crate) fn catch(rt: &impl Abort, alloc: Global) -> Result<NodeKind, Fail> {
    Ok(NodeKind::Catch {
        catcher: shared(rt, alloc, 1)?,
        recovery: shared(rt, alloc, 2)?,
    })
}

/// Adds a node of two branches.
fn add(
    rt: &impl Abort,
    alloc: Global,
    nodes: &mut Nodes,
    parent: Option<AltRef>,
    kind: NodeKind,
) -> Result<u64, Fail> {
    add_body(rt, nodes, parent, body(alloc, 0, 2, kind)?)
}

/// A findall in the goal of a catch, which is the goal of a query.
pub(crate) fn nest(rt: &impl Abort, alloc: Global, nodes: &mut Nodes) -> Result<(), Fail> {
    add(rt, alloc, nodes, None, NodeKind::Query)?;
    add(rt, alloc, nodes, Some(place(0, 0)), catch(rt, alloc)?)?;
    add(rt, alloc, nodes, Some(place(1, 0)), findall(rt, alloc, 3)?)?;
    Ok(())
}

/// Closes an alternative, and gives where that rests.
fn close(
    rt: &impl Abort,
    alloc: Global,
    nodes: &mut Nodes,
    at: AltRef,
    credit: Credit,
) -> Result<(AltRef, Beside), Fail> {
    assert!(rt; nodes.has_alternative(at));
    let closing = find_rest(nodes, at, credit)?;
    let (end, beside) = (closing.end, closing.beside);
    match beside {
        Beside::Same | Beside::Closes => settle(nodes, closing),
        Beside::Gathers | Beside::Ends => {
            let segment = Segment {
                base: 0,
                vars: 0,
                bindings: Bindings::new(alloc),
            };
            let goals = Goals::empty();
            let woken = body_of_one(alloc, 0, Branch { goals, segment })?;
            wake(nodes, closing, woken)?;
        }
    }
    Ok((end, beside))
}

/// The findall's list is next when its goal has closed; when that has, the recovery goes and the query's end is next.
fn close_all(rt: &impl Abort, alloc: Global, nodes: &mut Nodes) -> Result<(), Fail> {
    let rested = close(rt, alloc, nodes, place(2, 0), recorded(rt, alloc, 7)?)?;
    expect(rt, rested, (place(2, 0), Beside::Gathers));
    expect(rt, below(rt, nodes, place(2, 1)), Some(3));
    let rested = close(rt, alloc, nodes, place(3, 0), credit(alloc, 0, 1))?;
    expect(rt, rested, (place(0, 0), Beside::Ends));
    for node in 1..4 {
        expect(rt, has(nodes, node), false);
    }
    let rested = close(rt, alloc, nodes, place(4, 0), credit(alloc, 0, 1))?;
    expect(rt, rested, (place(0, 1), Beside::Same));
    expect(rt, live(nodes), 1);
    Ok(())
}

#[test]
fn from_the_inside(rt: HostRuntime) -> Result<(), Fail> {
    let alloc = rt.alloc();
    let mut nodes = Nodes::new(alloc);
    nest(&rt, alloc, &mut nodes)?;
    close_all(&rt, alloc, &mut nodes)
}
