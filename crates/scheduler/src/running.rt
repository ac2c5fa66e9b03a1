//! Tasks that run up to where they stop.
ghost use Rattle.std.specs.Prelude.{◌≡◌, ◌≤◌, ◌<◌, true, is_some, IfOk};
ghost use Rattle.std.specs.Arc.{arc_value};
ghost use Rattle.tree_model.specs.EventViews.{place_view};
ghost use Rattle.tree_model.specs.Legality.{taken_at};
ghost use Rattle.tree_core.specs.Histories.{state_of};
ghost use Rattle.scheduler.specs.JobRuns.{IsJobRun};
ghost use Rattle.scheduler.specs.KeptFor.{IsKeptFor};
ghost use Rattle.task_region.specs.TaskStops.{IsLimit};
ghost use Rattle.scheduler.specs.StoppedTasks.{before_ball, run_before_ball, is_limit, CanBeServed, RunsOut, RunsUnder, RunsFurther};

use crate::demand::Demand;
use crate::job_run::JobRun;
use au_term::{FlatTerm, NoMemory};
use std::alloc::Global;
use task_publishing::laws::tasks_stop_on_runs;
use task_region::branch_laws::kept_regions_stay;
use task_region::{KeptRegion, LoadedTask, TaskRegion, TaskStop};
use task_stops::gate_laws::tasks_stop_for_causes;
use task_world::laws::tasks_stop_at_front;
use task_world::{OutTask, take_up};
use tree_core::{JobBrand, Tree};
use tree_model::AltRef;

/// After so many inferences a task asks whether somebody waits for something to do.
const SLICE: u64 = 256;

/// A task that has stopped after so many inferences, and why.
#[derive(Drop)]
pub(crate) struct StoppedTask {
    pub(crate) task: TaskRegion,
    pub(crate) taken: u64,
    pub(crate) stop: TaskStop,
    /// The numbers of the nodes on the way down to its alternative, the outermost first.
    pub(crate) numbers: Vec<u64>,
}

/// Where the run of what is out to a worker has stopped.
#[derive(Drop)]
pub(crate) enum OutStop {
    /// It is the end of a query, with the ball by which that ended, if one did.
    Ends(Option<FlatTerm>),
    /// Its task has stopped.
    Stops(StoppedTask),
}

/// Runs what is out to a worker for at most so many inferences, or until somebody waits for something to do; from a kept region, where one
/// is given. A ball uses up the region from which it falls, so where one comes after some inferences the task is run anew, and stops before
/// that.
pub(crate) fn run_up<J: JobBrand, D: Demand>(
    tree: &Tree<J>,
    run: &JobRun,
    worker: u32,
    at: AltRef,
    limit: u64,
    kept: Option<KeptRegion>,
    demand: &mut D,
    alloc: Global,
) -> Result<OutStop, NoMemory>
    requires some { 1 ≤ limit }
    requires out { is_some (taken_at worker (place_view at) (state_of tree.now.history)) ≡ true }
    requires run { IsJobRun tree.now.history run.now }
    requires kept { IsKeptFor tree.now run.now kept }
    ensures { IfOk result (CanBeServed (arc_value run.now.text) tree.now worker (place_view at)) }
{
    let mut out = run_once(tree, run, worker, at, limit, kept, demand, alloc)?;
    loop {
        let shorter = taken_before_ball(&out);
        if shorter == 0 {
            return Ok(out);
        }
        out = run_once(tree, run, worker, at, shorter, None, demand, alloc)?;
    }
}

/// The same, up to whatever comes.
fn run_once<J: JobBrand, D: Demand>(
    tree: &Tree<J>,
    run: &JobRun,
    worker: u32,
    at: AltRef,
    limit: u64,
    kept: Option<KeptRegion>,
    demand: &mut D,
    alloc: Global,
) -> Result<OutStop, NoMemory>
    requires some { 1 ≤ limit }
    requires out { is_some (taken_at worker (place_view at) (state_of tree.now.history)) ≡ true }
    requires run { IsJobRun tree.now.history run.now }
    requires kept { IsKeptFor tree.now run.now kept }
    ensures { IfOk result (RunsOut (arc_value run.now.text) tree.now worker (place_view at) limit) }
{
    tasks_stop_for_causes();
    tasks_stop_on_runs();
    tasks_stop_at_front();
    kept_regions_stay();
    let text = run.text.clone()?;
    match take_up(tree, worker, at, alloc, text, kept)? {
        OutTask::QueryEnd(ball) => Ok(OutStop::Ends(ball)),
        OutTask::Task(loaded) => {
            let LoadedTask { task, numbers } = loaded;
            let mut task = task;
            let ran = task.run(alloc, &run.kinds, limit.min(SLICE))?;
            let (taken, stop) = (ran.taken, ran.stop);
            let stopped = StoppedTask {
                task,
                taken,
                stop,
                numbers,
            };
            let stopped = run_on(tree, at, stopped, run, limit, demand, alloc)?;
            Ok(OutStop::Stops(stopped))
        }
    }
}

/// Runs a task on that was stopped by a limit, up to a greater one, or until somebody waits for something to do.
fn run_on<J: JobBrand, D: Demand>(
    tree: &Tree<J>,
    at: AltRef,
    stopped: StoppedTask,
    run: &JobRun,
    limit: u64,
    demand: &mut D,
    alloc: Global,
) -> Result<StoppedTask, NoMemory>
    requires { RunsUnder (arc_value run.now.text) tree.now (place_view at) run.now.kinds limit stopped }
    ensures { IfOk result (RunsUnder (arc_value run.now.text) tree.now (place_view at) run.now.kinds limit) }
{
    let mut stopped = stopped;
    loop {
        if !is_limit(&stopped.stop) || limit <= stopped.taken || demand.somebody_waits() {
            return Ok(stopped);
        }
        stopped = run_slice(tree, at, stopped, run, limit, alloc)?;
    }
}

/// The same for one slice more.
fn run_slice<J: JobBrand>(
    tree: &Tree<J>,
    at: AltRef,
    stopped: StoppedTask,
    run: &JobRun,
    limit: u64,
    alloc: Global,
) -> Result<StoppedTask, NoMemory>
    requires under { RunsUnder (arc_value run.now.text) tree.now (place_view at) run.now.kinds limit stopped }
    requires at_limit { IsLimit stopped.stop }
    requires left { stopped.taken < limit }
    ensures under { IfOk result (RunsUnder (arc_value run.now.text) tree.now (place_view at) run.now.kinds limit) }
    ensures further { IfOk result (RunsFurther stopped.taken limit) }
{
    let _tree = tree;
    tasks_stop_for_causes();
    tasks_stop_on_runs();
    kept_regions_stay();
    let StoppedTask {
        task,
        taken,
        stop: _,
        numbers,
    } = stopped;
    let mut task = task;
    let ran = task.run(alloc, &run.kinds, SLICE.min(limit - taken))?;
    Ok(StoppedTask {
        task,
        taken: taken + ran.taken,
        stop: ran.stop,
        numbers,
    })
}

/// Whether a task has stopped since as many inferences were taken as were allowed.
fn is_limit(stop: &TaskStop) -> bool
    ensures { result ≡ is_limit stop.now }
{
    matches!(stop, TaskStop::Limit)
}

/// After how many inferences a ball was met; 0 where none was.
fn taken_before_ball(out: &OutStop) -> u64
    ensures { result ≡ run_before_ball out.now }
{
    match out {
        OutStop::Ends(_) => 0,
        OutStop::Stops(stopped) => taken_at_ball(&stopped.stop, stopped.taken),
    }
}

fn taken_at_ball(stop: &TaskStop, taken: u64) -> u64
    ensures { result ≡ before_ball stop.now taken }
{
    match stop {
        TaskStop::Ball(_) => taken,
        _ => 0,
    }
}
