//! The leftmost entry of the tree.
ghost use Rattle.std.specs.Prelude.{◌≡◌, Bool};
ghost use Rattle.tree_model.specs.Levels.{Spot};
ghost use Rattle.tree_nodes.specs.Puts.{IsPlaceIn};
ghost use Rattle.tree_nodes.specs.RowViews.{parent_view};
ghost use Rattle.branch_order.specs.LeftOf.{open_first, IsOn};
ghost use Rattle.branch_order.specs.Leftmosts.{IsLeftmost, IsTop};
ghost use Rattle.branch_order.specs.Sought.{IsWalkStart};

use tree_model::AltRef;
use tree_nodes::Nodes;

/// The leftmost alternative that has an entry, none where all have closed.
pub fn leftmost(nodes: &Nodes) -> Option<AltRef>
    ensures first { IsLeftmost nodes.now (parent_view result) }
    ensures there { IsPlaceIn nodes.now.rows (parent_view result) }
{
    let Some(top) = top(nodes) else {
        return None;
    };
    let mut node = top;
    loop {
        let Some(at) = first_of(nodes, node) else {
            return None;
        };
        match nodes.below(at) {
            Some(below) => node = below,
            None => return Some(at),
        }
    }
}

// The lowest node that is known to have nothing open to its left, none where no node is there.
pub(crate) fn top(nodes: &Nodes) -> Option<u64>
    ensures down { IsTop nodes.now result }
    ensures ahead { (test : Spot → Bool) → IsWalkStart nodes.now test result }
{
    // The proof reads off that there is a tree.
    let _live = nodes.live();
    match nodes.front() {
        Some(front) => Some(front.node),
        None => nodes.first(),
    }
}

// The first alternative of a node that has not closed.
fn first_of(nodes: &Nodes, node: u64) -> Option<AltRef>
    ensures first { parent_view result ≡ open_first nodes.now.rows node }
    ensures there { IsPlaceIn nodes.now.rows (parent_view result) }
    ensures on { IsOn node (parent_view result) }
{
    let width = nodes.width(node);
    let passed = nodes.passed(node);
    for alternative in passed.many as u32..width {
        let at = AltRef { node, alternative };
        if !nodes.is_closed(at) {
            return Some(at);
        }
    }
    None
}
