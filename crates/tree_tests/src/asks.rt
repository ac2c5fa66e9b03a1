//! What is asked of a tree, by functions without clauses: a call has its clauses in every later goal of its function, and
//! these keep them from the tests.
use clause_compile::Scope;
use std::fmt::Debug;
use std::process::Abort;
use tree_model::AltRef;
use tree_nodes::{AltState, Nodes};

/// What is found is what is wanted.
pub(crate) fn expect<T: PartialEq + Debug + Drop>(rt: &impl Abort, found: T, wanted: T) {
    assert_eq!(rt; found, wanted);
}

pub(crate) fn live(nodes: &Nodes) -> u64 {
    nodes.live()
}

pub(crate) fn has(nodes: &Nodes, node: u64) -> bool {
    nodes.has(node)
}

pub(crate) fn has_alternative(nodes: &Nodes, at: AltRef) -> bool {
    nodes.has_alternative(at)
}

pub(crate) fn is_pending(nodes: &Nodes, at: AltRef) -> bool {
    nodes.is_pending(at)
}

pub(crate) fn is_closed(nodes: &Nodes, at: AltRef) -> bool {
    nodes.is_closed(at)
}

pub(crate) fn below(rt: &impl Abort, nodes: &Nodes, at: AltRef) -> Option<u64> {
    assert!(rt; nodes.has_alternative(at));
    nodes.below(at)
}

/// Puts a state in place of that of an alternative, below which the state's node is already.
pub(crate) fn set(rt: &impl Abort, nodes: &mut Nodes, at: AltRef, state: AltState, spent: u64) {
    assert!(rt; nodes.has_alternative(at));
    if let AltState::Inner(node) = &state {
        assert_eq!(rt; nodes.below(at), Some(*node));
    }
    nodes.set(at, state, spent);
}

pub(crate) fn leftmost(nodes: &Nodes) -> Option<AltRef> {
    branch_order::leftmost(nodes)
}

pub(crate) fn leftmost_ready(nodes: &Nodes) -> Option<AltRef> {
    branch_order::leftmost_ready(nodes)
}

pub(crate) fn leftmost_cleared(nodes: &Nodes) -> Option<AltRef> {
    branch_order::leftmost_cleared(nodes)
}

pub(crate) fn first_open(
    rt: &impl Abort,
    nodes: &Nodes,
    at: AltRef,
    scope: Option<u64>,
) -> Option<AltRef> {
    assert!(rt; nodes.has_alternative(at));
    branch_order::first_open(nodes, at, scope)
}

pub(crate) fn before(rt: &impl Abort, nodes: &Nodes, one: AltRef, other: AltRef) -> bool {
    assert!(rt; nodes.has_alternative(one) && nodes.has_alternative(other));
    branch_order::before(nodes, one, other)
}

pub(crate) fn clock(rt: &impl Abort, nodes: &Nodes, at: AltRef) -> u64 {
    assert!(rt; nodes.has_alternative(at));
    branch_order::clock(nodes, at)
}

pub(crate) fn counts(rt: &impl Abort, nodes: &Nodes, at: AltRef) -> (u64, u64) {
    assert!(rt; nodes.has_alternative(at));
    branch_order::counts(nodes, at)
}

pub(crate) fn prune_right(rt: &impl Abort, nodes: &mut Nodes, at: AltRef, scope: u64) {
    assert!(rt; nodes.has_alternative(at));
    prune_ops::prune_right(nodes, at, Scope::Node(scope));
}
