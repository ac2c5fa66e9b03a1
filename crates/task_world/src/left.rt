//! What an alternative has left to do.
ghost use Rattle.std.specs.Prelude.{IfOk, IsSome};
ghost use Rattle.std.specs.Arc.{arc_value};
ghost use Rattle.tree_model.specs.EventViews.{place_view};
ghost use Rattle.tree_nodes.specs.Bodies.{IsWhole, body_view};
ghost use Rattle.tree_nodes.specs.Rows.{cell_at};
ghost use Rattle.task_world.specs.FrontSteps.{LeavesBehind};

use au_term::NoMemory;
use branch_shapes::rest_body;
use std::alloc::Global;
use std::sync::Arc;
use tree_model::AltRef;
use tree_nodes::{NodeBody, Nodes};

/// The body of a node with what an alternative has left behind its first item.
pub fn body_behind(nodes: &Nodes, at: AltRef, alloc: Global) -> Result<Arc<NodeBody>, NoMemory>
    requires { IsSome (cell_at nodes.now.rows (place_view at)) }
    ensures left { IfOk result (λ body. LeavesBehind nodes.now.rows (place_view at) (body_view (arc_value body))) }
    ensures whole { IfOk result (λ body. IsWhole (body_view (arc_value body))) }
{
    let branch = &nodes.body(at.node).branches[at.alternative as usize];
    match branch.segment.base.checked_add(branch.segment.vars) {
        Some(next) => rest_body(alloc, &branch.goals, next),
        None => Err(NoMemory),
    }
}
