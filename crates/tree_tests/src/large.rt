//! Large trees: time and memory have to be linear in the number of events. The sizes are raised for measurements.
use crate::asks::{
    clock, expect, is_closed, is_pending, leftmost, leftmost_cleared, leftmost_ready, live,
    prune_right, set,
};
use crate::results::records;
use crate::trees::{add, choices, close, credit, place, recorded};
use au_term::Cell;
use std::alloc::Global;
use std::process::Abort;
use std::test::Fail;
use tree_model::AltRef;
use tree_nodes::{AltState, Nodes};

const NODES: u64 = 20_000;

const ALTERNATIVES: u32 = 20_000;

/// The leftmost entry closes after an inference.
fn close_leftmost(rt: &impl Abort, alloc: Global, nodes: &mut Nodes) -> Result<(), Fail> {
    let at = leftmost(nodes).ok_or("no entry")?;
    close(rt, nodes, at, credit(alloc, 0, 1))
}

fn event_at_the_tip(
    rt: &impl Abort,
    alloc: Global,
    nodes: &mut Nodes,
    event: u64,
) -> Result<(), Fail> {
    let at = leftmost(nodes).ok_or("no entry")?;
    assert!(rt; event > 0);
    expect(rt, clock(rt, nodes, at), event - 1);
    close(rt, nodes, at, credit(alloc, 0, 1))?;
    let next = leftmost(nodes).ok_or("no entry")?;
    expect(rt, next, place(event - 1, 1));
    add(rt, alloc, nodes, Some(next), 2)?;
    Ok(())
}

/// A path of nodes, at whose tip each event happens, after the leftmost entry, its clock and what is open to its left were
/// asked for; then all closes from the tip up.
#[test]
fn events_at_the_tip(rt: HostRuntime) -> Result<(), Fail> {
    let alloc = rt.alloc();
    let mut nodes = choices(&rt, alloc, 2, &[])?;
    for event in 1..NODES {
        event_at_the_tip(&rt, alloc, &mut nodes, event)?;
    }
    expect(&rt, live(&nodes), NODES);
    for _event in 0..2 {
        close_leftmost(&rt, alloc, &mut nodes)?;
    }
    expect(&rt, leftmost(&nodes), None);
    expect(&rt, live(&nodes), 1);
    Ok(())
}

/// The alternatives of one node close, in the order of a number that is multiplied by one, grows by another, and begins
/// again at a bound; what is no alternative is passed over.
fn closing(
    rt: &impl Abort,
    alloc: Global,
    first: u32,
    factor: u32,
    step: u32,
    bound: u32,
) -> Result<(), Fail> {
    let mut nodes = choices(rt, alloc, 1, &[(0, 0, ALTERNATIVES as usize)])?;
    let mut next = first;
    for _event in 0..bound {
        if next < ALTERNATIVES {
            let at = leftmost(&nodes).ok_or("no entry")?;
            let _inferences = clock(rt, &nodes, at);
            close(rt, &mut nodes, place(1, next), credit(alloc, 0, 1))?;
        }
        next = next.wrapping_mul(factor).wrapping_add(step) % bound;
    }
    expect(rt, leftmost(&nodes), None);
    expect(rt, live(&nodes), 1);
    Ok(())
}

#[test]
fn closed_from_the_left(rt: HostRuntime) -> Result<(), Fail> {
    closing(&rt, rt.alloc(), 0, 1, 1, ALTERNATIVES)
}

#[test]
fn closed_from_the_right(rt: HostRuntime) -> Result<(), Fail> {
    let last = ALTERNATIVES - 1;
    closing(&rt, rt.alloc(), last, 1, last, ALTERNATIVES)
}

/// A random order: below a power of two each number comes once.
#[test]
fn closed_in_any_order(rt: HostRuntime) -> Result<(), Fail> {
    closing(&rt, rt.alloc(), 1, 1_664_525, 1_013_904_223, 1 << 17)
}

/// A path of as many nodes below an alternative: its tip.
fn add_path(
    rt: &impl Abort,
    alloc: Global,
    nodes: &mut Nodes,
    from: AltRef,
) -> Result<AltRef, Fail> {
    let mut at = from;
    for _node in 0..ALTERNATIVES {
        at = place(add(rt, alloc, nodes, Some(at), 1)?, 0);
    }
    Ok(at)
}

/// Of the other alternatives of the first node each other one closes, and each other one gets a node.
fn fill(rt: &impl Abort, alloc: Global, nodes: &mut Nodes) -> Result<(), Fail> {
    for alternative in 1..ALTERNATIVES {
        let right = place(0, alternative);
        if alternative % 2 == 0 {
            close(rt, nodes, right, credit(alloc, 0, 1))?;
        } else {
            add(rt, alloc, nodes, Some(right), 1)?;
        }
    }
    Ok(())
}

/// A node of many alternatives, of which each other one has closed and each other one has a node below it. Below its first
/// there is a long path, from whose tip all of them are pruned at once.
#[test]
fn pruned_at_once(rt: HostRuntime) -> Result<(), Fail> {
    let alloc = rt.alloc();
    let mut nodes = choices(&rt, alloc, ALTERNATIVES as usize, &[])?;
    let tip = add_path(&rt, alloc, &mut nodes, place(0, 0))?;
    fill(&rt, alloc, &mut nodes)?;
    prune_right(&rt, &mut nodes, tip, u64::MAX);
    expect(&rt, live(&nodes), u64::from(ALTERNATIVES) + 1);
    for alternative in 1..ALTERNATIVES {
        expect(&rt, is_closed(&nodes, place(0, alternative)), true);
    }
    expect(&rt, is_pending(&nodes, tip), true);
    Ok(())
}

/// All alternatives of a node are with workers, who ask for another one before each closes its own.
#[test]
fn nothing_is_ready(rt: HostRuntime) -> Result<(), Fail> {
    let alloc = rt.alloc();
    let mut nodes = choices(&rt, alloc, ALTERNATIVES as usize, &[])?;
    for alternative in 0..ALTERNATIVES {
        let state = AltState::Taken(alternative);
        set(&rt, &mut nodes, place(0, alternative), state, 0);
    }
    for event in 1..ALTERNATIVES {
        expect(&rt, leftmost_ready(&nodes), None);
        expect(&rt, leftmost_cleared(&nodes), None);
        let at = place(0, ALTERNATIVES - event);
        close(&rt, &mut nodes, at, credit(alloc, 0, 1))?;
    }
    set(&rt, &mut nodes, place(0, 0), AltState::Ready, 0);
    expect(&rt, leftmost_ready(&nodes), Some(place(0, 0)));
    Ok(())
}

/// An alternative closes with its node's number as a record.
fn close_with(
    rt: &impl Abort,
    alloc: Global,
    nodes: &mut Nodes,
    node: u64,
    side: u32,
) -> Result<(), Fail> {
    assert!(rt; node <= NODES);
    let record = recorded(rt, alloc, node as i64)?;
    close(rt, nodes, place(node, side), record)
}

/// A path of nodes, each below this one of two alternatives. They close from the tip up with a record each, so that each
/// closing folds what has come from below.
fn folded(rt: &impl Abort, alloc: Global, side: u32) -> Result<Nodes, Fail> {
    let mut nodes = choices(rt, alloc, 1, &[(0, 0, 2)])?;
    for node in 1..NODES {
        add(rt, alloc, &mut nodes, Some(place(node, side)), 2)?;
    }
    close_with(rt, alloc, &mut nodes, NODES, side)?;
    for event in 0..NODES {
        close_with(rt, alloc, &mut nodes, NODES - event, 1 - side.min(1))?;
    }
    Ok(nodes)
}

fn folding(rt: &impl Abort, alloc: Global, side: u32) -> Result<(), Fail> {
    let bag = records(rt, &folded(rt, alloc, side)?)?;
    assert_eq!(rt; bag.len() as u64, NODES + 1);
    for (index, record) in bag.iter().enumerate() {
        let node = if side == 0 {
            NODES - (index as u64).saturating_sub(1)
        } else {
            (index as u64 + 1).min(NODES)
        };
        assert!(rt; *record.top() == Cell::Int(node as i64));
    }
    Ok(())
}

#[test]
fn folded_from_the_left(rt: HostRuntime) -> Result<(), Fail> {
    folding(&rt, rt.alloc(), 0)
}

#[test]
fn folded_from_the_right(rt: HostRuntime) -> Result<(), Fail> {
    folding(&rt, rt.alloc(), 1)
}

/// The first alternative of a node stays with a worker. Another one claims the leftmost that is ready, and closes it, again
/// and again.
#[test]
fn claimed_behind_a_worker(rt: HostRuntime) -> Result<(), Fail> {
    let alloc = rt.alloc();
    let mut nodes = choices(&rt, alloc, ALTERNATIVES as usize, &[])?;
    set(&rt, &mut nodes, place(0, 0), AltState::Taken(0), 0);
    for alternative in 1..ALTERNATIVES {
        let at = leftmost_ready(&nodes).ok_or("none is ready")?;
        expect(&rt, at, place(0, alternative));
        set(&rt, &mut nodes, at, AltState::Taken(1), 0);
        close(&rt, &mut nodes, at, credit(alloc, 0, 1))?;
    }
    expect(&rt, leftmost_ready(&nodes), None);
    Ok(())
}
