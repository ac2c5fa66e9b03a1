//! Tasks that have stopped before any inference.
ghost use Rattle.std.specs.Prelude.{◌≡◌, true, is_some, IfOk, OnErr, OnOk};
ghost use Rattle.std.specs.Arc.{arc_value};
ghost use Rattle.region_control.specs.declared.control.GoalPlace.{GoalPlace};
ghost use Rattle.region_split.specs.declared.frame.FrameItem.{FrameItem};
ghost use Rattle.task_region.specs.declared.running.TaskStop.TheVariants.{World};
ghost use Rattle.tree_model.specs.EventViews.{place_view};
ghost use Rattle.tree_model.specs.Legality.{taken_at};
ghost use Rattle.public_tree.specs.PublicTrees.{is_going};
ghost use Rattle.tree_core.specs.Histories.{state_of};
ghost use Rattle.task_region.specs.TaskStops.{IsLimit};
ghost use Rattle.scheduler.specs.GivenBack.{IsGivenBackOnce};
ghost use Rattle.scheduler.specs.JobRuns.{IsJobRun};
ghost use Rattle.scheduler.specs.KeptFor.{IsKeptFor};
ghost use Rattle.scheduler.specs.StoppedTasks.{HasStoppedOut};

use crate::falling::{cut_or_wait, fall_or_wait};
use crate::job_run::JobRun;
use crate::running::StoppedTask;
use crate::taking::{serve_answer, serve_removal};
use crate::world::serve_world;
use au_term::NoMemory;
use std::alloc::Global;
use task_region::{KeptRegion, LoadedTask, TaskStop};
use task_stops::fall_laws::ball_stops_throw;
use task_stops::gate_laws::stops_are_gates;
use task_stops::{close_task, collect_task};
use task_world::laws::fronts_are_told;
use tree_core::{JobBrand, Tree};
use tree_model::AltRef;

/// What is next of the alternative of a task that has stopped before any inference is taken, or the alternative waits for that; or it
/// closes, where nothing is left but a result, or not even that.
pub(crate) fn serve_first<J: JobBrand>(
    tree: &mut Tree<J>,
    run: &mut JobRun,
    worker: u32,
    at: AltRef,
    stopped: StoppedTask,
    alloc: Global,
) -> Result<Option<KeptRegion>, NoMemory>
    requires out { is_some (taken_at worker (place_view at) (state_of tree.old.history)) ≡ true }
    requires going { is_going (state_of tree.old.history) ≡ true }
    requires run { IsJobRun tree.old.history run.old }
    requires stopped { HasStoppedOut (arc_value run.old.text) tree.old (place_view at) stopped }
    requires none { stopped.taken ≡ 0 }
    requires unlimited { IsLimit stopped.stop → ⊥ }
    ensures run { OnOk result (IsJobRun tree.new.history run.new) }
    ensures back { OnOk result (IsGivenBackOnce tree.old.history tree.new.history (place_view at)) }
    ensures kept { IfOk result (IsKeptFor tree.new run.new) }
    ensures err { OnErr result (tree.new.history ≡ tree.old.history) }
{
    stops_are_gates();
    tree.stays_legal();
    tree.keeps_promises();
    match stopped.stop {
        TaskStop::World(item, place) => {
            let StoppedTask {
                task,
                taken: _,
                stop: _,
                numbers,
            } = stopped;
            let loaded = LoadedTask { task, numbers };
            serve_world(tree, run, worker, at, loaded, (item, place), alloc)
        }
        _ => {
            serve_gate(tree, run, worker, at, stopped, alloc)?;
            Ok(None)
        }
    }
}

/// The same where no goal of the world is next.
fn serve_gate<J: JobBrand>(
    tree: &mut Tree<J>,
    run: &mut JobRun,
    worker: u32,
    at: AltRef,
    stopped: StoppedTask,
    alloc: Global,
) -> Result<(), NoMemory>
    requires out { is_some (taken_at worker (place_view at) (state_of tree.old.history)) ≡ true }
    requires going { is_going (state_of tree.old.history) ≡ true }
    requires run { IsJobRun tree.old.history run.old }
    requires stopped { HasStoppedOut (arc_value run.old.text) tree.old (place_view at) stopped }
    requires none { stopped.taken ≡ 0 }
    requires unlimited { IsLimit stopped.stop → ⊥ }
    requires no_goal { (item : FrameItem) (place : GoalPlace) → stopped.stop ≡ World item place → ⊥ }
    ensures run { OnOk result (IsJobRun tree.new.history run.new) }
    ensures back { OnOk result (IsGivenBackOnce tree.old.history tree.new.history (place_view at)) }
    ensures err { OnErr result (tree.new.history ≡ tree.old.history) }
{
    stops_are_gates();
    ball_stops_throw();
    fronts_are_told();
    tree.stays_legal();
    tree.keeps_promises();
    let StoppedTask {
        task,
        taken,
        stop,
        numbers: _,
    } = stopped;
    match stop {
        TaskStop::Limit => unreachable!(),
        TaskStop::Cut(height) => cut_or_wait(tree, worker, at, height, alloc),
        TaskStop::World(_, _) => unreachable!(),
        TaskStop::Removal(clause) => serve_removal(tree, run, worker, at, clause, alloc),
        TaskStop::Answer => serve_answer(tree, run, worker, at, task, alloc),
        TaskStop::Collect(number) => collect_task(tree, worker, at, taken, alloc, task, number),
        TaskStop::Ball(ball) => fall_or_wait(tree, worker, at, &ball, &run.text, alloc),
        TaskStop::Empty => close_task(tree, worker, at, taken, alloc),
    }
}
