//! Goals of the world at the front.
ghost use Rattle.std.specs.Prelude.{◌≡◌, true, is_some, IfOk, OnErr, None};
ghost use Rattle.effect_gate.specs.Effects.{statics_of, world_meant};
ghost use Rattle.run_model.specs.Goals.Worlds.{static_among};
ghost use Rattle.tree_model.specs.EventViews.{place_view};
ghost use Rattle.tree_model.specs.Legality.{taken_at};
ghost use Rattle.std.specs.Arc.{arc_value};
ghost use Rattle.task_region.specs.KeptRegions.{IsOnWay};
ghost use Rattle.front_goals.specs.KeptAtFront.{IsKeptNow};
ghost use Rattle.task_region.specs.TaskLoads.{StartsOnBranch};
ghost use Rattle.tree_core.specs.Histories.{state_of};
ghost use Rattle.task_region.specs.declared.running.TaskStop.TheVariants.{World as WorldStop};
ghost use Rattle.task_world.specs.FrontSteps.{ComesAbout, IsBarredBy, IsWorldAfter};
ghost use Rattle.task_world.specs.FrontsTold.{StopsAtFront};

use crate::answers::take_answer;
use au_term::NoMemory;
use effect_gate::World;
use region_control::GoalPlace;
use region_split::{FrameItem, Text};
use region_world::ask_world;
use std::alloc::Global;
use std::sync::Arc;
use task_region::branch_laws::kept_regions_stay;
use task_region::{KeptRegion, LoadedTask};
use task_world::{FrontStep, why_barred};
use tree_core::{JobBrand, Tree};
use tree_model::AltRef;

/// A worker takes the goal that looks at the world or changes it at which the task of an alternative has stopped that is out to it, before
/// any inference. Nothing happens where the alternative is not the leftmost entry, or where the tree has ended or was stopped. Else the
/// world is the one after it, and the tree has noted what came of that; or the alternative has yet to close. The text is the program's, for
/// regions in which catches are asked. Where the alternative goes on, its region may be kept.
pub fn take_world_goal<J: JobBrand>(
    tree: &mut Tree<J>,
    worker: u32,
    at: AltRef,
    task: LoadedTask,
    item: FrameItem,
    place: GoalPlace,
    text: &Arc<Text>,
    world: &mut World,
    alloc: Global,
) -> Result<(FrontStep, Option<KeptRegion>), NoMemory>
    requires out { is_some (taken_at worker (place_view at) (state_of tree.old.history)) ≡ true }
    requires stops { StopsAtFront tree.old.nodes (place_view at) tree.old.history.job.clauses task.task (WorldStop item place) }
    requires start { StartsOnBranch tree.old.nodes (place_view at) task.task }
    requires way { IsOnWay tree.old.nodes.rows (place_view at) (arc_value text.now) task.numbers.items task.task }
    requires statics { statics_of world.old ≡ static_among tree.old.history.job.clauses }
    requires world { world_meant world.old ≡ (state_of tree.old.history).world }
    ensures comes { IfOk result (λ r. ComesAbout tree.old tree.new worker (place_view at) r.0) }
    ensures kept { IfOk result (λ r. IsKeptNow tree.new.nodes.rows (arc_value text.now) r.1) }
    ensures world { IfOk result (λ r. IsWorldAfter tree.old.history worker (place_view at) (world_meant world.new)) }
    ensures statics { world.new.database.statics ≡ world.old.database.statics }
    ensures err { OnErr result (tree.new.history ≡ tree.old.history) }
{
    match why_barred(tree, at) {
        Some(answering) => Ok((FrontStep::Done(answering), None)),
        None => ask_at_front(tree, worker, at, task, item, place, text, world, alloc),
    }
}

/// The same where the alternative may be taken.
fn ask_at_front<J: JobBrand>(
    tree: &mut Tree<J>,
    worker: u32,
    at: AltRef,
    task: LoadedTask,
    item: FrameItem,
    place: GoalPlace,
    text: &Arc<Text>,
    world: &mut World,
    alloc: Global,
) -> Result<(FrontStep, Option<KeptRegion>), NoMemory>
    requires may { IsBarredBy tree.old.history (place_view at) None }
    requires out { is_some (taken_at worker (place_view at) (state_of tree.old.history)) ≡ true }
    requires stops { StopsAtFront tree.old.nodes (place_view at) tree.old.history.job.clauses task.task (WorldStop item place) }
    requires start { StartsOnBranch tree.old.nodes (place_view at) task.task }
    requires way { IsOnWay tree.old.nodes.rows (place_view at) (arc_value text.now) task.numbers.items task.task }
    requires statics { statics_of world.old ≡ static_among tree.old.history.job.clauses }
    requires world { world_meant world.old ≡ (state_of tree.old.history).world }
    ensures comes { IfOk result (λ r. ComesAbout tree.old tree.new worker (place_view at) r.0) }
    ensures kept { IfOk result (λ r. IsKeptNow tree.new.nodes.rows (arc_value text.now) r.1) }
    ensures world { IfOk result (λ r. IsWorldAfter tree.old.history worker (place_view at) (world_meant world.new)) }
    ensures statics { world.new.database.statics ≡ world.old.database.statics }
    ensures err { OnErr result (tree.new.history ≡ tree.old.history) }
{
    let FrameItem::Goal(goal) = item else {
        unreachable!()
    };
    kept_regions_stay();
    tree.keeps_promises();
    tree.stays_legal();
    let LoadedTask { task, numbers } = task;
    let (region, _floor, _position) = task.into_region();
    // The proof reads off that the store is sound.
    let _next = region.store().next();
    let answer = ask_world(&region, alloc, goal, world)?;
    take_answer(
        tree,
        worker,
        at,
        region,
        numbers,
        place.after,
        answer,
        text,
        alloc,
    )
}
