//! What no clause gives: that calls succeed, and what they leave of a tree.
use crate::asks::{expect, is_pending, live, prune_right};
use crate::looks::{Look, seen};
use crate::trees::{choices, close, credit, place};
use clause_compile::{Goals, Item, Scope};
use prune_ops::catch_at;
use std::alloc::Global;
use std::process::Abort;
use std::test::Fail;

/// A node of three alternatives; below the second one of three, and below the second of these one of two, of which the
/// first is the current one. The last of the second node has closed.
fn pruned_below(
    rt: &impl Abort,
    alloc: Global,
    scope: u64,
    left_live: u64,
    left: u64,
) -> Result<(), Fail> {
    let mut nodes = choices(rt, alloc, 3, &[(0, 1, 3), (1, 1, 2), (2, 1, 1)])?;
    close(rt, &mut nodes, place(1, 2), credit(alloc, 0, 7))?;
    prune_right(rt, &mut nodes, place(2, 0), scope);
    expect(rt, live(&nodes), left_live);
    expect(rt, is_pending(&nodes, place(0, 2)), true);
    expect(rt, is_pending(&nodes, place(1, 0)), true);
    expect(rt, seen(&nodes, place(1, 2)), Look::Closed(left));
    Ok(())
}

#[test]
fn what_is_pruned(rt: HostRuntime) -> Result<(), Fail> {
    for (scope, left_live, left) in [(0, 3, 0), (1, 3, 7), (2, 4, 7)] {
        pruned_below(&rt, rt.alloc(), scope, left_live, left)?;
    }
    Ok(())
}

fn catch_node(goals: &Goals) -> Option<Scope> {
    catch_at(goals)
}

fn with_catch_end(alloc: Global, goals: &Goals, node: u64) -> Result<Goals, Fail> {
    Ok(goals.push(alloc, Item::CatchEnd(Scope::Node(node)))?)
}

#[test]
fn nearest_catch(rt: HostRuntime) -> Result<(), Fail> {
    let end = with_catch_end(rt.alloc(), &Goals::empty(), 4)?;
    let goals = with_catch_end(rt.alloc(), &end, 9)?;
    expect(&rt, catch_node(&Goals::empty()), None);
    expect(&rt, catch_node(&end), Some(Scope::Node(4)));
    expect(&rt, catch_node(&goals), Some(Scope::Node(9)));
    Ok(())
}
