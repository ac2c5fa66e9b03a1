//! Goals of the world that are next of an alternative.
ghost use Rattle.std.specs.Prelude.{◌≡◌, true, is_some, IfOk, OnErr, OnOk};
ghost use Rattle.std.specs.Arc.{arc_value};
ghost use Rattle.task_region.specs.KeptRegions.{IsOnWay};
ghost use Rattle.tree_model.specs.EventViews.{place_view};
ghost use Rattle.tree_model.specs.Legality.{taken_at};
ghost use Rattle.public_tree.specs.PublicTrees.{is_going};
ghost use Rattle.tree_core.specs.Histories.{state_of};
ghost use Rattle.task_region.specs.TaskLoads.{StartsOnBranch};
ghost use Rattle.task_region.specs.declared.running.TaskStop.TheVariants.{World};
ghost use Rattle.task_world.specs.FrontsTold.{StopsAtFront};
ghost use Rattle.scheduler.specs.FrontTurns.{IsTaskAtWorld};
ghost use Rattle.scheduler.specs.GivenBack.{IsGivenBackOnce};
ghost use Rattle.scheduler.specs.JobRuns.{IsJobRun};
ghost use Rattle.scheduler.specs.KeptFor.{IsKeptFor};

use crate::front::end_step;
use crate::job_run::JobRun;
use au_term::NoMemory;
use front_goals::take_world_goal;
use query_laws::laws::ends_open_queries;
use region_control::GoalPlace;
use region_split::FrameItem;
use std::alloc::Global;
use task_region::branch_laws::kept_regions_stay;
use task_region::{KeptRegion, LoadedTask};
use tree_core::{JobBrand, Tree};
use tree_model::AltRef;

/// The goal that is next of an alternative and looks at the world or changes it is taken, or the alternative waits for that.
pub(crate) fn serve_world<J: JobBrand>(
    tree: &mut Tree<J>,
    run: &mut JobRun,
    worker: u32,
    at: AltRef,
    task: LoadedTask,
    goal: (FrameItem, GoalPlace),
    alloc: Global,
) -> Result<Option<KeptRegion>, NoMemory>
    requires out { is_some (taken_at worker (place_view at) (state_of tree.old.history)) ≡ true }
    requires going { is_going (state_of tree.old.history) ≡ true }
    requires run { IsJobRun tree.old.history run.old }
    requires task { IsTaskAtWorld worker (place_view at) (state_of tree.old.history) }
    requires stops { StopsAtFront tree.old.nodes (place_view at) tree.old.history.job.clauses task.task (World goal.0 goal.1) }
    requires start { StartsOnBranch tree.old.nodes (place_view at) task.task }
    requires way { IsOnWay tree.old.nodes.rows (place_view at) (arc_value run.old.text) task.numbers.items task.task }
    ensures run { OnOk result (IsJobRun tree.new.history run.new) }
    ensures back { OnOk result (IsGivenBackOnce tree.old.history tree.new.history (place_view at)) }
    ensures kept { IfOk result (IsKeptFor tree.new run.new) }
    ensures err { OnErr result (tree.new.history ≡ tree.old.history) }
{
    ends_open_queries();
    kept_regions_stay();
    tree.stays_legal();
    let (item, place) = goal;
    let (text, world) = (&run.text, &mut run.world);
    let (step, kept) = take_world_goal(tree, worker, at, task, item, place, text, world, alloc)?;
    end_step(tree, worker, at, step, alloc)?;
    Ok(kept)
}
