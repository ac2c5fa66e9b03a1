//! Parts of the tree that go.
ghost use Rattle.std.specs.Prelude.{◌≡◌};
ghost use Rattle.tree_nodes.specs.Drops.{IsDropStep, DropsNode};
ghost use Rattle.tree_nodes.specs.Staying.{StayMade};

use crate::row::Shortened;
use crate::table::Table;

// One step, and the node at which to go on.
fn drop_step(table: &mut Table, live: &mut u64, at: u64, top: u64) -> Option<u64>
    ensures step { IsDropStep table.old live.old table.new live.new at top result }
{
    match table.shorten(at) {
        Shortened::Alternative(Some(below)) => Some(below),
        Shortened::Alternative(None) => Some(at),
        Shortened::Row(parent) => {
            *live = live.saturating_sub(1);
            match parent {
                Some(place) if at != top => Some(place.node),
                _ => None,
            }
        }
        Shortened::Nothing => None,
    }
}

/// Takes out a node and all that is below it, from the right, so that a node is taken out behind what is below it.
pub(crate) fn drop_node(table: &mut Table, live: &mut u64, top: u64)
    ensures drops { DropsNode table.old live.old table.new live.new top }
    ensures made { StayMade table.old table.new }
{
    let mut at = top;
    while let Some(next) = drop_step(table, live, at, top) {
        at = next;
    }
}
