//! Left and right of two branches.
ghost use Rattle.std.specs.Prelude.{◌≡◌, ◌+◌, IsSome};
ghost use Rattle.tree_model.specs.EventViews.{place_view};
ghost use Rattle.tree_nodes.specs.Rows.{cell_at};
ghost use Rattle.branch_order.specs.Meetings.{IsBeforeAt, IsMeetStep, AreInTable, AreLower};

use tree_model::AltRef;
use tree_nodes::Nodes;

/// Whether an alternative is before another: where their ways part, its own takes an alternative further left.
pub fn before(nodes: &Nodes, a: AltRef, b: AltRef) -> bool
    requires first { IsSome (cell_at nodes.now.rows (place_view a)) }
    requires second { IsSome (cell_at nodes.now.rows (place_view b)) }
    ensures { IsBeforeAt nodes.now (place_view a) (place_view b) result }
{
    let mut first = a;
    let mut second = b;
    while let Some((above, other)) = up_to_meet(nodes, first, second) {
        first = above;
        second = other;
    }
    first.alternative < second.alternative
}

// The lower of two alternatives gives way to the one that its node is below.
fn up_to_meet(nodes: &Nodes, first: AltRef, second: AltRef) -> Option<(AltRef, AltRef)>
    requires first { IsSome (cell_at nodes.now.rows (place_view first)) }
    requires second { IsSome (cell_at nodes.now.rows (place_view second)) }
    ensures step { IsMeetStep nodes.now.rows (place_view first) (place_view second) result }
    ensures there { AreInTable nodes.now.rows result }
    ensures lower { AreLower (first.node + second.node) result }
{
    if second.node < first.node {
        match nodes.parent(first.node) {
            Some(above) => Some((above, second)),
            None => None,
        }
    } else if first.node < second.node {
        match nodes.parent(second.node) {
            Some(above) => Some((first, above)),
            None => None,
        }
    } else {
        None
    }
}
