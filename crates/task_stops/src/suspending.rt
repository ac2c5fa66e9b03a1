//! Tasks that wait.
ghost use Rattle.std.specs.Prelude.{◌≡◌, true, false, is_some, IsSome};
ghost use Rattle.tree_model.specs.EventViews.{place_view};
ghost use Rattle.tree_model.specs.Events.{Suspend};
ghost use Rattle.tree_model.specs.Legality.{taken_at};
ghost use Rattle.tree_model.specs.Nodes.{WorldGate};
ghost use Rattle.tree_nodes.specs.Rows.{gate_view, row_of_node};
ghost use Rattle.tree_core.specs.Histories.{state_of, while_going};
ghost use Rattle.task_region.specs.PlacesUp.{items_at_place};
ghost use Rattle.task_stops.specs.FrontCuts.{IsGateFor, scope_in_front};
ghost use Rattle.task_stops.specs.StopGates.{is_cut_or_world, IsCutStop, IsGateOfStop};

use crate::front::scope_at;
use branch_reading::laws::numbered_trees_are_settled;
use branch_shapes::laws::floor_items_stay;
use clause_compile::{Effect, GateKind};
use task_region::TaskStop;
use tree_core::{JobBrand, Tree};
use tree_model::AltRef;
use tree_nodes::Nodes;

/// A worker gives an alternative that is out to it back to wait for the gate at which its task has stopped: a cut to a node of the
/// branch, or one where the world is needed. Nothing happens where the tree has ended or was stopped.
pub fn suspend_task<J: JobBrand>(tree: &mut Tree<J>, worker: u32, at: AltRef, stop: &TaskStop)
    requires out { is_some (taken_at worker (place_view at) (state_of tree.old.history)) ≡ true }
    requires waits { is_cut_or_world stop.now ≡ true }
    requires gate { IsGateOfStop stop.now worker (place_view at) (state_of tree.old.history) }
    ensures { tree.new.history ≡ while_going (Suspend worker (place_view at) false) tree.old.history }
{
    numbered_trees_are_settled();
    floor_items_stay();
    tree.stays_legal();
    tree.keeps_promises();
    let gate = gate_at(tree.nodes(), at, stop);
    tree.suspend(worker, at, gate);
}

/// The gate at which the task of an alternative has stopped.
fn gate_at(nodes: &Nodes, at: AltRef, stop: &TaskStop) -> GateKind
    requires there { IsSome (row_of_node nodes.now.rows at.node) }
    requires waits { is_cut_or_world stop.now ≡ true }
    requires goal { IsCutStop stop.now → is_some (scope_in_front (items_at_place nodes.now.rows (place_view at))) ≡ true }
    ensures { IsGateFor stop.now (scope_in_front (items_at_place nodes.now.rows (place_view at))) (gate_view result) }
{
    match stop {
        TaskStop::Cut(_) => GateKind::Cut(scope_at(nodes, at)),
        TaskStop::World(_, _) | TaskStop::Removal(_) | TaskStop::Answer => world_gate(),
        TaskStop::Limit | TaskStop::Collect(_) | TaskStop::Ball(_) | TaskStop::Empty => {
            unreachable!()
        }
    }
}

/// Of a gate of the world nobody asks for which effect it is: the task that is loaded again finds that.
fn world_gate() -> GateKind
    ensures { gate_view result ≡ WorldGate }
{
    GateKind::World(Effect::Nl)
}
