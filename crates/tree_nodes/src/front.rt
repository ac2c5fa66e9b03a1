//! The front: nodes from the first one down, to the left of which all has closed.
ghost use Rattle.std.specs.Prelude.{◌≡◌, is_some};
ghost use Rattle.tree_nodes.specs.Rows.{row_of_node};
ghost use Rattle.tree_nodes.specs.Fronts.{IsLastOf, IsLastTest, Retreats};

use crate::table::Table;

/// A node to the left of which all has closed, after so many answers and inferences to its left and above it.
#[derive(Clone, Copy)]
pub struct Front {
    pub node: u64,
    pub answers: u64,
    pub inferences: u64,
}

pub(crate) fn last_of(front: &[Front]) -> Option<Front>
    ensures { IsLastOf front.now result }
{
    match front.last() {
        Some(last) => Some(*last),
        None => None,
    }
}

/// Takes off nodes that are gone, and those past a number, from the last one on.
pub(crate) fn retreat(table: &Table, front: &mut Vec<Front>, limit: u64)
    ensures { Retreats table.now limit front.old.items front.new.items }
{
    while !is_last_there(table, front, limit) {
        let _past = front.pop();
    }
}

fn is_last_there(table: &Table, front: &[Front], limit: u64) -> bool
    ensures { IsLastTest table.now limit front.now result }
{
    match last_of(front) {
        Some(last) => last.node <= limit && is_there(table, last.node),
        None => true,
    }
}

fn is_there(table: &Table, node: u64) -> bool
    ensures { result ≡ is_some (row_of_node table.now node) }
{
    table.row(node).is_some()
}
