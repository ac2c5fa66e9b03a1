//! What a worker does with what is out to it.
ghost use Rattle.std.specs.Prelude.{◌≡◌, ◌≤◌, true, is_some, IfOk, OnErr, OnOk};
ghost use Rattle.std.specs.Arc.{arc_value};
ghost use Rattle.tree_model.specs.EventViews.{place_view};
ghost use Rattle.tree_model.specs.Legality.{taken_at};
ghost use Rattle.public_tree.specs.PublicTrees.{is_going};
ghost use Rattle.tree_core.specs.Histories.{state_of};
ghost use Rattle.task_region.specs.TaskStops.{IsBall, IsLimit};
ghost use Rattle.scheduler.specs.GivenBack.{IsGivenBack, IsSameJob};
ghost use Rattle.scheduler.specs.JobRuns.{IsJobRun};
ghost use Rattle.scheduler.specs.KeptFor.{IsKeptFor};
ghost use Rattle.scheduler.specs.StoppedTasks.{HasStoppedOut};

use crate::demand::Demand;
use crate::ending::serve_end;
use crate::first::serve_first;
use crate::job_run::JobRun;
use crate::later::serve_later;
use crate::running::{OutStop, StoppedTask, run_up};
use au_term::NoMemory;
use std::alloc::Global;
use task_region::KeptRegion;
use tree_core::{JobBrand, Tree};
use tree_model::AltRef;

/// A worker serves an alternative that is out to it, with at most so many inferences by itself; every 256 inferences it asks whether
/// somebody waits for something to do, and takes no more then. The alternative comes back by one event:
/// its cut or its ball was taken; what it has left became nodes, or was closed; what is next was taken in the world; or it waits for
/// that. Or it comes back by three, where its run has come to an answer with nothing else left to try: the run becomes public, and the
/// answer goes out and is taken. A region that is kept from the turn before, if one is given, may go down to the alternative, and one may
/// be kept for the next turn. After running out of memory the tree's history is as it was; of the world nothing is said then.
pub fn serve<J: JobBrand, D: Demand>(
    tree: &mut Tree<J>,
    run: &mut JobRun,
    worker: u32,
    at: AltRef,
    limit: u64,
    kept: Option<KeptRegion>,
    demand: &mut D,
    alloc: Global,
) -> Result<Option<KeptRegion>, NoMemory>
    requires out { is_some (taken_at worker (place_view at) (state_of tree.old.history)) ≡ true }
    requires going { is_going (state_of tree.old.history) ≡ true }
    requires some { 1 ≤ limit }
    requires run { IsJobRun tree.old.history run.old }
    requires kept { IsKeptFor tree.old run.old kept }
    ensures run { OnOk result (IsJobRun tree.new.history run.new) }
    ensures back { OnOk result (IsGivenBack tree.old.history tree.new.history (place_view at)) }
    ensures kept { IfOk result (IsKeptFor tree.new run.new) }
    ensures same { IsSameJob tree.old.history tree.new.history }
    ensures err { OnErr result (tree.new.history ≡ tree.old.history) }
{
    match run_up(tree, run, worker, at, limit, kept, demand, alloc)? {
        OutStop::Ends(ball) => {
            serve_end(tree, run, worker, at, ball, alloc)?;
            Ok(None)
        }
        OutStop::Stops(stopped) => serve_stopped(tree, run, worker, at, stopped, alloc),
    }
}

/// The same where its task has stopped.
fn serve_stopped<J: JobBrand>(
    tree: &mut Tree<J>,
    run: &mut JobRun,
    worker: u32,
    at: AltRef,
    stopped: StoppedTask,
    alloc: Global,
) -> Result<Option<KeptRegion>, NoMemory>
    requires out { is_some (taken_at worker (place_view at) (state_of tree.old.history)) ≡ true }
    requires going { is_going (state_of tree.old.history) ≡ true }
    requires run { IsJobRun tree.old.history run.old }
    requires stopped { HasStoppedOut (arc_value run.old.text) tree.old (place_view at) stopped }
    requires limit { IsLimit stopped.stop → 1 ≤ stopped.taken }
    requires ball { IsBall stopped.stop → stopped.taken ≡ 0 }
    ensures run { OnOk result (IsJobRun tree.new.history run.new) }
    ensures back { OnOk result (IsGivenBack tree.old.history tree.new.history (place_view at)) }
    ensures kept { IfOk result (IsKeptFor tree.new run.new) }
    ensures err { OnErr result (tree.new.history ≡ tree.old.history) }
{
    if stopped.taken == 0 {
        serve_first(tree, run, worker, at, stopped, alloc)
    } else {
        serve_later(tree, run, worker, at, stopped, alloc)
    }
}
