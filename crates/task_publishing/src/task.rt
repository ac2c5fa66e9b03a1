//! Tasks that are published.
ghost use Rattle.std.specs.Prelude.{◌≡◌, ◌≤◌, true, is_some, IfOk, IfSome, IsSome, OnErr, OnOk};
ghost use Rattle.tree_model.specs.EventViews.{place_view};
ghost use Rattle.tree_model.specs.Legality.{taken_at};
ghost use Rattle.tree_core.specs.Histories.{state_of};
ghost use Rattle.task_publishing.specs.TaskRuns.{Publishes, StopsThere};
ghost use Rattle.task_region.specs.KeptRegions.{IsKeptIn, IsOnWay};
ghost use Rattle.task_region.specs.TaskLoads.{StartsOnBranch};

use crate::task_bodies::bodies_of_task;
use au_term::NoMemory;
use branch_bindings::laws::extensions_are_unified;
use branch_reading::laws::numbered_trees_are_settled;
use branch_shapes::laws::{floor_items_stay, meant_runs_read, settled_segments_bind};
use region_floor::laws::steps::{regions_run_privately, tops_are_own};
use std::alloc::Global;
use task_region::branch_laws::kept_regions_stay;
use task_region::{KeptRegion, TaskRegion};
use tree_core::{JobBrand, Tree};
use tree_model::AltRef;

/// A worker makes nodes of what the task of an alternative that is out to it has left after so many inferences, by the numbers of the
/// nodes on the way down to it, the outermost first. Nothing happens where the tree has ended or was stopped. The worker may keep the
/// region, in which what is bound on the branch of the alternative is left.
pub fn publish_task<J: JobBrand>(
    tree: &mut Tree<J>,
    worker: u32,
    at: AltRef,
    inferences: u64,
    alloc: Global,
    task: TaskRegion,
    numbers: Vec<u64>,
) -> Result<Option<KeptRegion>, NoMemory>
    requires some { 1 ≤ inferences }
    requires out { is_some (taken_at worker (place_view at) (state_of tree.old.history)) ≡ true }
    requires going { IsSome task.next }
    requires stops { StopsThere tree.old.nodes (place_view at) tree.old.history.job.clauses inferences task }
    requires start { StartsOnBranch tree.old.nodes (place_view at) task }
    requires way { IsOnWay tree.old.nodes.rows (place_view at) task.region.text numbers.items task }
    ensures publishes { OnOk result (Publishes tree.old.history tree.new.history worker (place_view at) inferences) }
    ensures kept { IfOk result (λ kept. IfSome kept (IsKeptIn tree.new.nodes.rows task.region.text)) }
    ensures err { OnErr result (tree.new.history ≡ tree.old.history) }
{
    numbered_trees_are_settled();
    floor_items_stay();
    settled_segments_bind();
    extensions_are_unified();
    meant_runs_read();
    regions_run_privately();
    tops_are_own();
    kept_regions_stay();
    tree.stays_legal();
    tree.keeps_promises();
    let (bodies, region) = bodies_of_task(tree.nodes(), at, alloc, task, &numbers)?;
    let kept = KeptRegion::of(region, at, numbers)?;
    tree.publish(worker, at, inferences, &bodies)?;
    Ok(kept)
}
