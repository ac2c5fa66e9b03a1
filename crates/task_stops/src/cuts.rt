//! Cuts of tasks.
ghost use Rattle.std.specs.Prelude.{◌≡◌, true, is_some, IfOk, IsSome, OnErr};
ghost use Rattle.std.specs.Arc.{arc_value};
ghost use Rattle.tree_model.specs.EventViews.{place_view};
ghost use Rattle.tree_model.specs.Events.{Prune};
ghost use Rattle.tree_model.specs.Legality.{taken_at};
ghost use Rattle.tree_nodes.specs.Bodies.{IsWhole, body_view};
ghost use Rattle.tree_nodes.specs.Rows.{row_of_node};
ghost use Rattle.tree_core.specs.Histories.{state_of};
ghost use Rattle.tree_core.specs.Turns.{where_legal, pruning_of};
ghost use Rattle.branch_shapes.specs.RestBodies.{IsRestBody, items_behind};
ghost use Rattle.task_region.specs.PlacesUp.{items_at_place, number_left};
ghost use Rattle.task_stops.specs.FrontCuts.{scope_in_front};
ghost use Rattle.task_stops.specs.StopGates.{IsBeforeCut, IsKeptUntaken};

use crate::front::{branch_of, scope_at};
use au_term::NoMemory;
use branch_reading::laws::numbered_trees_are_settled;
use branch_shapes::laws::floor_items_stay;
use branch_shapes::rest_body;
use branch_shapes::step_laws::cuts_are_read;
use public_tree::Pruning;
use std::alloc::Global;
use std::sync::Arc;
use tree_core::{JobBrand, Tree};
use tree_model::AltRef;
use tree_nodes::{NodeBody, Nodes};

/// A worker takes the cut that is next at an alternative that is out to it: what follows the cut becomes a node. Nothing happens where the
/// alternative is not cleared to the scope of the cut, or where the tree has ended or was stopped.
pub fn cut_task<J: JobBrand>(
    tree: &mut Tree<J>,
    worker: u32,
    at: AltRef,
    alloc: Global,
) -> Result<Pruning, NoMemory>
    requires out { is_some (taken_at worker (place_view at) (state_of tree.old.history)) ≡ true }
    requires cut { IsBeforeCut worker (place_view at) (state_of tree.old.history) }
    ensures answer { IfOk result (λ p. p ≡ pruning_of (Prune worker (place_view at)) (state_of tree.old.history)) }
    ensures cut { IfOk result (λ p. tree.new.history ≡ where_legal (Prune worker (place_view at)) tree.old.history) }
    ensures kept { IfOk result (λ p. IsKeptUntaken p tree.old.history tree.new.history) }
    ensures err { OnErr result (tree.new.history ≡ tree.old.history) }
{
    numbered_trees_are_settled();
    floor_items_stay();
    cuts_are_read();
    tree.stays_legal();
    tree.keeps_promises();
    let nodes = tree.nodes();
    let scope = scope_at(nodes, at);
    let body = body_behind(nodes, at, alloc)?;
    tree.cut(worker, at, scope, body)
}

/// The body of a node with what an alternative has left behind its first goal.
fn body_behind(nodes: &Nodes, at: AltRef, alloc: Global) -> Result<Arc<NodeBody>, NoMemory>
    requires there { IsSome (row_of_node nodes.now.rows at.node) }
    requires goal { is_some (scope_in_front (items_at_place nodes.now.rows (place_view at))) ≡ true }
    ensures rest { IfOk result (λ body. IsRestBody (items_behind (items_at_place nodes.now.rows (place_view at))) (number_left nodes.now.rows (place_view at)) (body_view (arc_value body))) }
    ensures whole { IfOk result (λ body. IsWhole (body_view (arc_value body))) }
{
    let Some(branch) = branch_of(nodes, at) else {
        unreachable!()
    };
    let segment = &branch.segment;
    match segment.base.checked_add(segment.vars) {
        Some(next) => rest_body(alloc, &branch.goals, next),
        None => Err(NoMemory),
    }
}
