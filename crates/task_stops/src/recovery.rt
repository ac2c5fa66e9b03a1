//! The recovery of a catch that takes a ball.
ghost use Rattle.std.specs.Prelude.{◌≡◌, ◌≤◌, ◌∷◌, IfOk, IsSome, map, true};
ghost use Rattle.std.specs.Arc.{arc_value};
ghost use Rattle.au_term.specs.Term.{var_bound};
ghost use Rattle.region_split.specs.Regions.{RegionView};
ghost use Rattle.tree_model.specs.EventViews.{place_view};
ghost use Rattle.tree_nodes.specs.Bodies.{body_view};
ghost use Rattle.tree_nodes.specs.Rows.{row_of_node};
ghost use Rattle.branch_reading.specs.SettledWays.{is_way_settled};
ghost use Rattle.task_region.specs.PlacesUp.{AreAllUp, branching_at};
ghost use Rattle.task_region.specs.TaskLoads.{IsBoundOver};
ghost use Rattle.task_stops.specs.Landings.{IsReadableBeside};
ghost use Rattle.task_stops.specs.TakenBalls.{RecoversIfTaken, TakesBallOver};

use crate::catches::{beside, is_beside_sleeper};
use crate::taking::{recovery_goals, take_ball, way_beside};
use au_term::{FlatTerm, NoMemory, Segment, Shared};
use clause_compile::Branch;
use region_split::Text;
use std::alloc::Global;
use std::sync::Arc;
use task_region::bound_region;
use tree_closing::body_of_one;
use tree_model::AltRef;
use tree_nodes::{NodeBody, NodeKind, Nodes};

/// The body of the recovery that sleeps beside a place, where its catch takes the ball; none where it does not, or where no catch is.
pub(crate) fn recovery_body(
    nodes: &Nodes,
    at: AltRef,
    above: &[AltRef],
    alloc: Global,
    ball: &FlatTerm,
    text: &Arc<Text>,
) -> Result<Option<Arc<NodeBody>>, NoMemory>
    requires there { IsSome (row_of_node nodes.now.rows at.node) }
    requires up { AreAllUp nodes.now.rows (place_view at) (place_view at ∷ map place_view above.now) }
    requires readable { IsReadableBeside nodes.now.rows (place_view at) (map place_view above.now) }
    ensures { IfOk result (RecoversIfTaken (λ b. body_view (arc_value b)) nodes.now.rows (place_view at) (map place_view above.now) ball.now) }
{
    if !is_beside_sleeper(nodes, at) {
        return Ok(None);
    }
    let body = nodes.body(at.node);
    let NodeKind::Catch { catcher, recovery } = &body.kind else {
        return Ok(None);
    };
    let way = way_beside(alloc, at, above)?;
    let Some(segment) = segment_over(nodes, beside(at), &way, alloc, catcher, ball, text)? else {
        return Ok(None);
    };
    let goals = recovery_goals(alloc, recovery, above, &body.branches[1].goals)?;
    let base = segment.base;
    let made = body_of_one(alloc, base, Branch { goals, segment })?;
    Ok(Some(made))
}

/// The bindings by which a catcher takes a ball over what is bound at the places up the branch of an alternative; none where it does not.
fn segment_over(
    nodes: &Nodes,
    at: AltRef,
    places: &[AltRef],
    alloc: Global,
    catcher: &Shared,
    ball: &FlatTerm,
    text: &Arc<Text>,
) -> Result<Option<Segment>, NoMemory>
    requires there { IsSome (row_of_node nodes.now.rows at.node) }
    requires up { AreAllUp nodes.now.rows (place_view at) (map place_view places.now) }
    requires settled { is_way_settled (branching_at nodes.now.rows (map place_view places.now)) ≡ true }
    requires catcher { (r : RegionView) → IsBoundOver nodes.now.rows (map place_view places.now) (arc_value text.now) r → var_bound catcher.now ≤ r.store.now.next }
    ensures { IfOk result (TakesBallOver nodes.now.rows (map place_view places.now) (arc_value text.now) catcher.now ball.now) }
{
    let mut region = bound_region(nodes, at, places, alloc, text.clone()?)?;
    let taken = take_ball(&mut region, alloc, catcher, ball)?;
    Ok(taken)
}
