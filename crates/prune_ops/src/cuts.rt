//! A cut.
ghost use Rattle.std.specs.Prelude.{◌≡◌, OnOk, OnErr};
ghost use Rattle.std.specs.Arc.{arc_value};
ghost use Rattle.tree_model.specs.EventViews.{place_view};
ghost use Rattle.tree_nodes.specs.Bodies.{IsWhole, body_view};
ghost use Rattle.tree_nodes.specs.Changes.{IsLonger, IsOpenCell};
ghost use Rattle.tree_nodes.specs.Rows.{cell_at, scope_number};
ghost use Rattle.tree_nodes.specs.Staying.{StayMade};
ghost use Rattle.prune_ops.specs.Cuts.{CutsAt};

use crate::prune::prune_right;
use au_term::NoMemory;
use clause_compile::Scope;
use std::sync::Arc;
use tree_model::AltRef;
use tree_nodes::{AltState, NodeBody, Nodes};

/// Takes a cut at an alternative that has an entry, by one inference: everything to its right below the scope closes, and a
/// node of what the cut leaves is below it.
pub fn cut(nodes: &mut Nodes, at: AltRef, scope: Scope, body: Arc<NodeBody>) -> Result<(), NoMemory>
    requires whole { IsWhole (body_view (arc_value body)) }
    requires open { IsOpenCell (cell_at nodes.old.rows (place_view at)) }
    ensures cut { OnOk result (CutsAt nodes.old nodes.new (place_view at) (scope_number scope) (body_view (arc_value body))) }
    ensures grown { OnOk result (IsLonger nodes.old nodes.new) }
    ensures err { OnErr result (nodes.new ≡ nodes.old) }
    ensures made { StayMade nodes.old.rows nodes.new.rows }
{
    // The proof reads off that there is a tree.
    let _live = nodes.live();
    let Some(spent) = nodes.spent(at).checked_add(1) else {
        return Err(NoMemory);
    };
    let number = nodes.add(Some(at), body)?;
    nodes.set(at, AltState::Inner(number), spent);
    prune_right(nodes, at, scope);
    Ok(())
}
