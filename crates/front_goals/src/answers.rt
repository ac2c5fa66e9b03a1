//! What the world answers, taken at the front.
ghost use Rattle.std.specs.Prelude.{◌≡◌, true, is_some, IfOk, OnErr, None};
ghost use Rattle.region_split.specs.Regions.{IsPositionIn};
ghost use Rattle.tree_model.specs.EventViews.{place_view};
ghost use Rattle.tree_model.specs.Legality.{taken_at};
ghost use Rattle.tree_core.specs.Histories.{state_of};
ghost use Rattle.task_world.specs.FrontSteps.{ComesAbout, IsBarredBy};
ghost use Rattle.std.specs.Arc.{arc_value};
ghost use Rattle.front_goals.specs.KeptAtFront.{CanBeKept, IsKeptNow};
ghost use Rattle.front_goals.specs.RepliesNext.{IsBoundThere, TellsNext};

use crate::balls::raise_at_front;
use crate::solutions::solve_at_front;
use au_term::NoMemory;
use branch_shapes::step_laws::fronts_are_read;
use region_split::{Position, Region, Text};
use region_world::WorldAnswer;
use std::alloc::Global;
use std::sync::Arc;
use task_region::KeptRegion;
use task_region::branch_laws::kept_regions_stay;
use task_world::{FrontStep, close, go_on};
use tree_core::{JobBrand, Tree};
use tree_model::AltRef;

/// Takes an alternative at the front by what the world answers to the goal that is next of it. The goal's solutions are tried in the
/// region of the task, which could go on at a position.
pub(crate) fn take_answer<J: JobBrand>(
    tree: &mut Tree<J>,
    worker: u32,
    at: AltRef,
    region: Region,
    numbers: Vec<u64>,
    position: Position,
    answer: WorldAnswer,
    text: &Arc<Text>,
    alloc: Global,
) -> Result<(FrontStep, Option<KeptRegion>), NoMemory>
    requires may { IsBarredBy tree.old.history (place_view at) None }
    requires out { is_some (taken_at worker (place_view at) (state_of tree.old.history)) ≡ true }
    requires tells { TellsNext region answer worker (place_view at) (state_of tree.old.history) }
    requires bound { IsBoundThere tree.old.nodes region.store.floor worker (place_view at) (state_of tree.old.history) }
    requires position { IsPositionIn region position }
    requires kept { CanBeKept tree.old.nodes.rows (place_view at) (arc_value text.now) numbers.items region }
    ensures comes { IfOk result (λ r. ComesAbout tree.old tree.new worker (place_view at) r.0) }
    ensures kept { IfOk result (λ r. IsKeptNow tree.new.nodes.rows (arc_value text.now) r.1) }
    ensures err { OnErr result (tree.new.history ≡ tree.old.history) }
{
    fronts_are_read();
    kept_regions_stay();
    match answer {
        WorldAnswer::Went => {
            // What can fail comes before the tree notes the event.
            let kept = KeptRegion::of(region, at, numbers)?;
            Ok((go_on(tree, worker, at, alloc)?, kept))
        }
        WorldAnswer::Fails => Ok((close(tree, worker, at)?, None)),
        WorldAnswer::Raised(ball) => Ok((
            raise_at_front(tree, worker, at, alloc, &ball, text)?,
            None,
        )),
        WorldAnswer::Halted(status) => {
            Ok((FrontStep::Done(tree.halt(worker, at, status)?), None))
        }
        WorldAnswer::Solutions(solutions) => solve_at_front(
            tree, worker, at, region, numbers, position, solutions, text, alloc,
        ),
    }
}
