//! Records of a goal side.
ghost use Rattle.std.specs.Prelude.{◌≡◌, IfOk, IsTrue};
ghost use Rattle.tree_nodes.specs.Gathering.{is_shut_at};
ghost use Rattle.tree_nodes.specs.Rows.{cell_at};
ghost use Rattle.findall_tree.specs.Bags.{goal_side, IsBagOf};

use au_term::{FlatTerm, NoMemory};
use tree_model::AltRef;
use tree_nodes::{AltState, Nodes};

/// What was collected below the first alternative of a node, which has closed, in the order of the branches.
pub fn bag_of(nodes: &Nodes, node: u64) -> Result<Vec<FlatTerm>, NoMemory>
    requires { IsTrue (is_shut_at (cell_at nodes.now.rows (goal_side node))) }
    ensures { IfOk result (λ bag. IsBagOf nodes.now node bag.items) }
{
    let side = AltRef {
        node,
        alternative: 0,
    };
    match nodes.state(side) {
        AltState::Closed(credit) => credit.records.copied(nodes.allocator()),
        _ => unreachable!(),
    }
}
