//! Everything to the right of a branch, below a node.
ghost use Rattle.std.specs.Prelude.{◌≡◌, IsSome};
ghost use Rattle.tree_model.specs.EventViews.{place_view};
ghost use Rattle.tree_nodes.specs.Rows.{cell_at, credit_view, scope_number};
ghost use Rattle.tree_model.specs.Credits.{no_credit};
ghost use Rattle.tree_nodes.specs.RowViews.{parent_view};
ghost use Rattle.tree_nodes.specs.Changes.{KeepsNumbers};
ghost use Rattle.tree_nodes.specs.Staying.{StayMade};
ghost use Rattle.prune_ops.specs.Prunes.{PrunesRight, PrunesLevel, within_scope};

use clause_compile::Scope;
use std::alloc::Global;
use tree_model::AltRef;
use tree_nodes::{AltState, Credit, Nodes, Records};

/// Closes every alternative to the right of one at the nodes on its way up, below a node, and drops what stood there.
pub fn prune_right(nodes: &mut Nodes, at: AltRef, scope: Scope)
    requires { IsSome (cell_at nodes.old.rows (place_view at)) }
    ensures pruned { PrunesRight nodes.old nodes.new (place_view at) (scope_number scope) }
    ensures numbers { KeepsNumbers nodes.old nodes.new }
    ensures made { StayMade nodes.old.rows nodes.new.rows }
{
    let (Scope::Node(number) | Scope::Local(number)) = scope;
    let mut next = below(Some(at), number);
    while let Some(here) = next {
        prune_level(nodes, here);
        next = below(nodes.parent(here.node), number);
    }
}

fn below(at: Option<AltRef>, scope: u64) -> Option<AltRef>
    ensures { parent_view result ≡ within_scope scope (parent_view at) }
{
    match at {
        Some(at) if at.node != scope => Some(at),
        _ => None,
    }
}

fn prune_level(nodes: &mut Nodes, at: AltRef)
    requires { IsSome (cell_at nodes.old.rows (place_view at)) }
    ensures pruned { PrunesLevel nodes.old nodes.new (place_view at) }
    ensures numbers { KeepsNumbers nodes.old nodes.new }
    ensures there { IsSome (cell_at nodes.new.rows (place_view at)) }
    ensures made { StayMade nodes.old.rows nodes.new.rows }
{
    // The proof reads off that there is a tree.
    let _live = nodes.live();
    let width = nodes.width(at.node);
    for alternative in at.alternative + 1..width {
        let right = AltRef {
            node: at.node,
            alternative,
        };
        let spent = nodes.spent(right);
        let credit = nothing(nodes.allocator());
        nodes.set(right, AltState::Closed(credit), spent);
    }
}

fn nothing(alloc: Global) -> Credit
    ensures { credit_view result ≡ no_credit }
{
    Credit {
        inferences: 0,
        answers: 0,
        records: Records::new(alloc),
    }
}
