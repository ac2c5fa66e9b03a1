//! Tasks that have stopped after some inferences.
ghost use Rattle.std.specs.Prelude.{◌≡◌, ◌≤◌, true, is_some, IfOk, IfSome, IsSome, OnErr, OnOk};
ghost use Rattle.answered_tasks.specs.AnsweredTasks.{ComesOfAnswer, HasStoppedAtAnswer};
ghost use Rattle.effect_gate.specs.Effects.{world_meant};
ghost use Rattle.std.specs.Arc.{arc_value};
ghost use Rattle.task_region.specs.KeptRegions.{IsKeptIn, IsOnWay};
ghost use Rattle.tree_model.specs.EventViews.{place_view};
ghost use Rattle.tree_model.specs.Legality.{taken_at};
ghost use Rattle.public_tree.specs.PublicTrees.{is_going};
ghost use Rattle.tree_core.specs.Histories.{state_of};
ghost use Rattle.task_region.specs.TaskStops.{IsBall};
ghost use Rattle.task_region.specs.declared.running.TaskStop.TheVariants.{Answer, Collect};
ghost use Rattle.task_region.specs.TaskLoads.{StartsOnBranch};
ghost use Rattle.task_stops.specs.StopCauses.{StopsThereFor};
ghost use Rattle.scheduler.specs.GivenBack.{IsGivenBack, IsGivenBackAlone};
ghost use Rattle.scheduler.specs.JobRuns.{IsJobRun};
ghost use Rattle.scheduler.specs.KeptFor.{IsKeptFor};
ghost use Rattle.scheduler.specs.StoppedTasks.{HasStoppedOut};

use crate::job_run::JobRun;
use crate::names::{names_of, opened_on};
use crate::running::StoppedTask;
use answered_tasks::answer_task;
use au_term::NoMemory;
use effect_gate::World;
use std::alloc::Global;
use task_publishing::publish_task;
use task_region::branch_laws::places_are_levels;
use task_region::{KeptRegion, TaskRegion, TaskStop};
use task_stops::gate_laws::tasks_stop_for_causes;
use task_stops::{close_task, collect_task};
use text_load::Query;
use tree_core::{JobBrand, Tree};
use tree_model::AltRef;

/// What comes of the task of an alternative that has stopped after some inferences: its answer is taken at once, where it has come
/// to one and may; or what it has left becomes nodes; or the alternative closes, where nothing is left but a result, or not even that.
pub(crate) fn serve_later<J: JobBrand>(
    tree: &mut Tree<J>,
    run: &mut JobRun,
    worker: u32,
    at: AltRef,
    stopped: StoppedTask,
    alloc: Global,
) -> Result<Option<KeptRegion>, NoMemory>
    requires out { is_some (taken_at worker (place_view at) (state_of tree.old.history)) ≡ true }
    requires going { is_going (state_of tree.old.history) ≡ true }
    requires run { IsJobRun tree.old.history run.old }
    requires stopped { HasStoppedOut (arc_value run.old.text) tree.old (place_view at) stopped }
    requires some { 1 ≤ stopped.taken }
    requires no_ball { IsBall stopped.stop → ⊥ }
    ensures run { OnOk result (IsJobRun tree.new.history run.new) }
    ensures back { OnOk result (IsGivenBack tree.old.history tree.new.history (place_view at)) }
    ensures kept { IfOk result (IsKeptFor tree.new run.new) }
    ensures err { OnErr result (tree.new.history ≡ tree.old.history) }
{
    match &stopped.stop {
        TaskStop::Answer => answer_or_publish(tree, run, worker, at, stopped, alloc),
        _ => publish_or_close(tree, worker, at, stopped, alloc),
    }
}

/// The answer to which a task has come is taken at once, where it may; else what the task has left becomes nodes.
fn answer_or_publish<J: JobBrand>(
    tree: &mut Tree<J>,
    run: &mut JobRun,
    worker: u32,
    at: AltRef,
    stopped: StoppedTask,
    alloc: Global,
) -> Result<Option<KeptRegion>, NoMemory>
    requires out { is_some (taken_at worker (place_view at) (state_of tree.old.history)) ≡ true }
    requires going { is_going (state_of tree.old.history) ≡ true }
    requires run { IsJobRun tree.old.history run.old }
    requires stopped { HasStoppedOut (arc_value run.old.text) tree.old (place_view at) stopped }
    requires some { 1 ≤ stopped.taken }
    requires answer { stopped.stop ≡ Answer }
    ensures run { OnOk result (IsJobRun tree.new.history run.new) }
    ensures back { OnOk result (IsGivenBack tree.old.history tree.new.history (place_view at)) }
    ensures kept { IfOk result (IsKeptFor tree.new run.new) }
    ensures err { OnErr result (tree.new.history ≡ tree.old.history) }
{
    let StoppedTask {
        task,
        taken,
        stop: _,
        numbers,
    } = stopped;
    let (queries, world) = (&run.queries, &mut run.world);
    let left = answer_at_once(tree, worker, at, taken, task, queries, world, alloc)?;
    match left {
        None => Ok(None),
        Some(task) => publish_left(tree, worker, at, taken, task, numbers, alloc),
    }
}

/// The same by the names of the query of the alternative; the task is given back where its answer may not be taken at once.
fn answer_at_once<J: JobBrand>(
    tree: &mut Tree<J>,
    worker: u32,
    at: AltRef,
    taken: u64,
    task: TaskRegion,
    queries: &[Query],
    world: &mut World,
    alloc: Global,
) -> Result<Option<TaskRegion>, NoMemory>
    requires out { is_some (taken_at worker (place_view at) (state_of tree.old.history)) ≡ true }
    requires some { 1 ≤ taken }
    requires stopped { HasStoppedAtAnswer tree.old (place_view at) taken task }
    requires left { IsSome task.next }
    requires queries { queries.now ≡ tree.old.history.job.queries }
    requires world { world_meant world.old ≡ (state_of tree.old.history).world }
    ensures comes { IfOk result (ComesOfAnswer tree.old tree.new worker (place_view at) taken task) }
    ensures world { IfOk result (λ left. world_meant world.new ≡ (state_of tree.new.history).world) }
    ensures statics { world.new.database.statics ≡ world.old.database.statics }
    ensures err { OnErr result (tree.new.history ≡ tree.old.history) }
{
    places_are_levels();
    tree.keeps_promises();
    let count = opened_on(tree.nodes(), at, alloc)?;
    let names = names_of(queries, count);
    answer_task(tree, worker, at, taken, task, names, world, alloc)
}

/// What a task has left, which goes on, becomes nodes.
fn publish_left<J: JobBrand>(
    tree: &mut Tree<J>,
    worker: u32,
    at: AltRef,
    taken: u64,
    task: TaskRegion,
    numbers: Vec<u64>,
    alloc: Global,
) -> Result<Option<KeptRegion>, NoMemory>
    requires out { is_some (taken_at worker (place_view at) (state_of tree.old.history)) ≡ true }
    requires going { is_going (state_of tree.old.history) ≡ true }
    requires some { 1 ≤ taken }
    requires left { IsSome task.next }
    requires stops { StopsThereFor tree.old.nodes (place_view at) tree.old.history.job.clauses taken task Answer }
    requires start { StartsOnBranch tree.old.nodes (place_view at) task }
    requires way { IsOnWay tree.old.nodes.rows (place_view at) task.region.text numbers.items task }
    ensures back { OnOk result (IsGivenBackAlone tree.old.history tree.new.history (place_view at)) }
    ensures kept { IfOk result (λ kept. IfSome kept (IsKeptIn tree.new.nodes.rows task.region.text)) }
    ensures err { OnErr result (tree.new.history ≡ tree.old.history) }
{
    tasks_stop_for_causes();
    publish_task(tree, worker, at, taken, alloc, task, numbers)
}

/// What a task has left becomes nodes; or its alternative closes, where nothing is left but a result, or not even that.
fn publish_or_close<J: JobBrand>(
    tree: &mut Tree<J>,
    worker: u32,
    at: AltRef,
    stopped: StoppedTask,
    alloc: Global,
) -> Result<Option<KeptRegion>, NoMemory>
    requires out { is_some (taken_at worker (place_view at) (state_of tree.old.history)) ≡ true }
    requires going { is_going (state_of tree.old.history) ≡ true }
    requires stopped { HasStoppedOut stopped.task.region.text tree.old (place_view at) stopped }
    requires some { 1 ≤ stopped.taken }
    requires no_ball { IsBall stopped.stop → ⊥ }
    ensures back { OnOk result (IsGivenBackAlone tree.old.history tree.new.history (place_view at)) }
    ensures kept { IfOk result (λ kept. IfSome kept (IsKeptIn tree.new.nodes.rows stopped.task.region.text)) }
    ensures err { OnErr result (tree.new.history ≡ tree.old.history) }
{
    tasks_stop_for_causes();
    let StoppedTask {
        task,
        taken,
        stop,
        numbers,
    } = stopped;
    match stop {
        TaskStop::Collect(number) => {
            if task.has_no_choice() {
                collect_task(tree, worker, at, taken, alloc, task, number)?;
                Ok(None)
            } else {
                publish_task(tree, worker, at, taken, alloc, task, numbers)
            }
        }
        TaskStop::Ball(_) => unreachable!(),
        TaskStop::Empty => {
            close_task(tree, worker, at, taken, alloc)?;
            Ok(None)
        }
        _ => publish_task(tree, worker, at, taken, alloc, task, numbers),
    }
}
