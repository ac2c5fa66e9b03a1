//! What is open to the left of an alternative.
ghost use Rattle.std.specs.Prelude.{◌≡◌, ◌≤◌, IsSome, take};
ghost use Rattle.tree_model.specs.EventViews.{place_view};
ghost use Rattle.tree_nodes.specs.Rows.{row_of_node, alternatives_at, cell_at};
ghost use Rattle.tree_nodes.specs.Siblings.{ArePassed};
ghost use Rattle.tree_nodes.specs.RowViews.{parent_view};
ghost use Rattle.branch_order.specs.LeftOf.{open_beside, or_else, below_scope, IsFirstOpen, IsCleared, IsAtFront};

use clause_compile::Scope;
use tree_model::AltRef;
use tree_nodes::{Front, Nodes, Passed};

/// Whether all to the left of an alternative below a node has closed; otherwise the leftmost that has not.
pub fn cleared(nodes: &Nodes, at: AltRef, scope: Scope) -> Result<(), AltRef>
    requires { IsSome (cell_at nodes.now.rows (place_view at)) }
    ensures { IsCleared nodes.now (place_view at) scope result }
{
    let (Scope::Node(number) | Scope::Local(number)) = scope;
    match first_open(nodes, at, Some(number)) {
        Some(left) => Err(left),
        None => Ok(()),
    }
}

/// The leftmost alternative to the left of one that has not closed, of those below a node, or in the whole tree.
pub fn first_open(nodes: &Nodes, at: AltRef, scope: Option<u64>) -> Option<AltRef>
    requires { IsSome (cell_at nodes.now.rows (place_view at)) }
    ensures { IsFirstOpen nodes.now (place_view at) scope (parent_view result) }
{
    let front = nodes.front();
    let mut next = below(Some(at), scope);
    let mut first = None;
    while let Some(here) = next {
        first = further_left(open_left(nodes, here), first);
        if at_front(front, here.node).is_some() {
            return first;
        }
        next = below(nodes.parent(here.node), scope);
    }
    first
}

/// The front, where it is at this node.
pub(crate) fn at_front(front: Option<Front>, node: u64) -> Option<Front>
    ensures { IsAtFront front node result }
{
    match front {
        Some(top) if top.node == node => Some(top),
        _ => None,
    }
}

/// Alternatives that have closed at the left of a node, as far as they were passed and are left of this one.
pub(crate) fn passed_left(nodes: &Nodes, at: AltRef) -> Passed
    requires { IsSome (cell_at nodes.now.rows (place_view at)) }
    ensures passed { ArePassed (take at.alternative (alternatives_at (row_of_node nodes.now.rows at.node))) result }
    ensures left { result.many ≤ at.alternative }
{
    let passed = nodes.passed(at.node);
    if passed.many <= at.alternative as usize {
        passed
    } else {
        Passed {
            many: 0,
            answers: 0,
            inferences: 0,
        }
    }
}

// What is further out is further left.
fn further_left(outer: Option<AltRef>, inner: Option<AltRef>) -> Option<AltRef>
    ensures { parent_view result ≡ or_else (parent_view outer) (parent_view inner) }
{
    match outer {
        Some(_) => outer,
        None => inner,
    }
}

fn below(at: Option<AltRef>, scope: Option<u64>) -> Option<AltRef>
    ensures { parent_view result ≡ below_scope scope (parent_view at) }
{
    match (at, scope) {
        (Some(at), Some(node)) if at.node == node => None,
        _ => at,
    }
}

// The leftmost alternative left of one at its node that has not closed.
fn open_left(nodes: &Nodes, at: AltRef) -> Option<AltRef>
    requires { IsSome (cell_at nodes.now.rows (place_view at)) }
    ensures { parent_view result ≡ open_beside nodes.now.rows (place_view at) }
{
    let passed = passed_left(nodes, at);
    for alternative in passed.many as u32..at.alternative {
        let left = AltRef {
            node: at.node,
            alternative,
        };
        if !nodes.is_closed(left) {
            return Some(left);
        }
    }
    None
}
