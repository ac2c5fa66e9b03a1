//! Balls that the world raises.
ghost use Rattle.std.specs.Prelude.{◌≡◌, true, is_some, IfOk, OnErr};
ghost use Rattle.tree_model.specs.EventViews.{place_view};
ghost use Rattle.tree_model.specs.Legality.{taken_at};
ghost use Rattle.tree_core.specs.Histories.{state_of};
ghost use Rattle.task_world.specs.FrontSteps.{ComesAbout};
ghost use Rattle.front_goals.specs.RaisedBalls.{RaisesThere};

use au_term::{FlatTerm, NoMemory};
use branch_reading::laws::numbered_trees_are_settled;
use branch_shapes::laws::floor_items_stay;
use region_split::Text;
use std::alloc::Global;
use std::sync::Arc;
use task_region::branch_laws::places_are_levels;
use task_stops::land_ball;
use task_stops::landing_laws::{landings_read, outs_can_land_balls};
use task_world::FrontStep;
use tree_core::{JobBrand, Tree};
use tree_model::AltRef;

/// A ball falls at the front that the goal of an alternative raises which is out to a worker.
pub(crate) fn raise_at_front<J: JobBrand>(
    tree: &mut Tree<J>,
    worker: u32,
    at: AltRef,
    alloc: Global,
    ball: &FlatTerm,
    text: &Arc<Text>,
) -> Result<FrontStep, NoMemory>
    requires out { is_some (taken_at worker (place_view at) (state_of tree.old.history)) ≡ true }
    requires raises { RaisesThere ball.now worker (place_view at) (state_of tree.old.history) }
    ensures comes { IfOk result (ComesAbout tree.old tree.new worker (place_view at)) }
    ensures err { OnErr result (tree.new.history ≡ tree.old.history) }
{
    numbered_trees_are_settled();
    floor_items_stay();
    places_are_levels();
    outs_can_land_balls();
    landings_read();
    tree.stays_legal();
    tree.keeps_promises();
    let landing = land_ball(tree.nodes(), at, alloc, ball, text)?;
    let answering = tree.fall_at_front(worker, at, landing.scope, landing.body)?;
    Ok(FrontStep::Done(answering))
}
