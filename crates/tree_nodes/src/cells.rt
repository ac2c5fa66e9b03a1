//! One alternative of the table.
ghost use Rattle.std.specs.Prelude.{◌≡◌, IsSome};
ghost use Rattle.tree_model.specs.EventViews.{place_view};
ghost use Rattle.tree_nodes.specs.Rows.{cell_at};
ghost use Rattle.tree_nodes.specs.RowViews.{parent_view};
ghost use Rattle.tree_nodes.specs.Siblings.{alternative_view};
ghost use Rattle.tree_nodes.specs.Changes.{root_after};
ghost use Rattle.tree_nodes.specs.Puts.{IsDroppedBy, IsStatePut, IsPlaceIn, IsLinked, IsLinkedAt};
ghost use Rattle.tree_nodes.specs.Staying.{StayMade};

use crate::drops::drop_node;
use crate::siblings::Alternative;
use crate::state::AltState;
use crate::table::Table;
use tree_model::AltRef;

/// Puts another in place of an alternative; the node that was below it goes with all below that, unless it stays.
pub(crate) fn put_cell(table: &mut Table, live: &mut u64, at: AltRef, alternative: Alternative)
    requires there { IsSome (cell_at table.old (place_view at)) }
    ensures put { IsStatePut table.old live.old table.new live.new (place_view at) (alternative_view alternative) }
    ensures made { StayMade table.old table.new }
{
    let now = alternative.inner();
    let below = table.replace(at, alternative);
    drop_replaced(table, live, below, now);
}

/// Puts a new node below an alternative.
pub(crate) fn link_cell(table: &mut Table, parent: Option<AltRef>, node: u64)
    requires there { IsPlaceIn table.old (parent_view parent) }
    ensures { IsLinked table.old table.new (parent_view parent) node }
{
    if let Some(at) = parent {
        link_below(table, at, node);
    }
}

/// The first node once a new one is below this alternative.
pub(crate) fn first_after(first: Option<u64>, parent: Option<AltRef>, node: u64) -> Option<u64>
    ensures { result ≡ root_after first (parent_view parent) node }
{
    match parent {
        Some(_) => first,
        None => Some(node),
    }
}

fn link_below(table: &mut Table, at: AltRef, node: u64)
    requires there { IsSome (cell_at table.old (place_view at)) }
    ensures { IsLinkedAt table.old table.new (place_view at) node }
{
    let spent = table.spent(at);
    let state = AltState::Inner(node);
    let _below = table.replace(at, Alternative { state, spent });
}

fn drop_replaced(table: &mut Table, live: &mut u64, below: Option<u64>, now: Option<u64>)
    ensures dropped { IsDroppedBy below now table.old live.old table.new live.new }
    ensures made { StayMade table.old table.new }
{
    match (below, now) {
        (Some(node), None) => drop_node(table, live, node),
        _ => {}
    }
}
