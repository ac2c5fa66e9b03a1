//! Where what an alternative throws lands.
ghost use Rattle.std.specs.Prelude.{◌≡◌, true, is_some, IfOk};
ghost use Rattle.std.specs.Arc.{arc_value};
ghost use Rattle.tree_model.specs.EventViews.{place_view};
ghost use Rattle.tree_model.specs.Legality.{taken_at};
ghost use Rattle.tree_nodes.specs.Bodies.{IsWhole, body_view};
ghost use Rattle.tree_nodes.specs.Rows.{scope_number};
ghost use Rattle.public_tree.specs.PublicPruning.{LandsAs};
ghost use Rattle.branch_reading.specs.Readings.{reading};
ghost use Rattle.tree_core.specs.Histories.{state_of};
ghost use Rattle.task_stops.specs.ThrownBalls.{ThrowsThere};

use crate::landing_laws::{copies_are_alike, landings_read, outs_can_land_balls};
use crate::{BallLanding, land_ball};
use au_term::{FlatTerm, NoMemory};
use branch_reading::laws::numbered_trees_are_settled;
use branch_shapes::laws::floor_items_stay;
use region_split::Text;
use std::alloc::Global;
use std::sync::Arc;
use task_region::branch_laws::places_are_levels;
use tree_core::{JobBrand, Tree};
use tree_model::AltRef;

/// Where the ball lands which the first goal of an alternative throws that is out to a worker, and what it leaves there. The ball is as
/// the task's stop tells it, with its variables numbered from 0.
pub(crate) fn land_thrown<J: JobBrand>(
    tree: &Tree<J>,
    worker: u32,
    at: AltRef,
    alloc: Global,
    ball: &FlatTerm,
    text: &Arc<Text>,
) -> Result<BallLanding, NoMemory>
    requires out { is_some (taken_at worker (place_view at) (state_of tree.now.history)) ≡ true }
    requires throws { ThrowsThere worker (place_view at) ball.now (state_of tree.now.history) }
    ensures whole { IfOk result (λ l. IsWhole (body_view (arc_value l.body))) }
    ensures lands { IfOk result (λ l. LandsAs tree.now.nodes.rows (scope_number l.scope) (body_view (arc_value l.body)) worker (place_view at) (reading tree.now.history.job) (state_of tree.now.history)) }
{
    // The contract speaks of the worker that has the alternative; nothing is asked of its number.
    let _worker = worker;
    numbered_trees_are_settled();
    floor_items_stay();
    places_are_levels();
    outs_can_land_balls();
    copies_are_alike();
    landings_read();
    tree.stays_legal();
    tree.keeps_promises();
    land_ball(tree.nodes(), at, alloc, ball, text)
}
