//! Several workers on one thread: each takes what is offered, and then they serve what they have, one after another.
ghost use Rattle.std.specs.Prelude.{◌≡◌, ◌≤◌, true, OnOk};
ghost use Rattle.std.specs.List.{list_any};
ghost use Rattle.tree_model.specs.EventViews.{place_view};
ghost use Rattle.tree_model.specs.Legality.{is_task};
ghost use Rattle.tree_core.specs.Histories.{state_of};
ghost use Rattle.scheduler.specs.JobRuns.{IsJobRun};

use scheduler::laws::events_leave_runs;
use scheduler::{Demand, JobRun, serve};
use std::alloc::Global;
use std::test::Fail;
use tree_core::{JobBrand, Tree};
use tree_model::AltRef;

/// How workers take turns: how many there are, how many inferences a task takes by itself, and whether the last one serves first.
#[derive(Clone, Copy, Debug)]
pub(crate) struct Turns {
    pub(crate) workers: u32,
    pub(crate) limit: u64,
    pub(crate) backwards: bool,
}

/// Whether somebody waits for something to do.
#[derive(Drop)]
struct Waiting(bool);

impl Demand for Waiting {
    fn somebody_waits(&mut self) -> bool {
        self.0
    }
}

/// What was seen of what workers do to one another.
#[derive(Clone, Copy, Debug)]
pub(crate) struct Seen {
    /// Rounds in which more than one task was out.
    pub(crate) shared: u32,
    /// Alternatives that went out again, after they had waited.
    pub(crate) resumed: u32,
    /// Tasks that were pruned while they were out.
    pub(crate) lost: u32,
}

impl Seen {
    pub(crate) fn nothing() -> Seen {
        Seen {
            shared: 0,
            resumed: 0,
            lost: 0,
        }
    }
}

/// What each worker is given, where something is offered.
fn take_all<J: JobBrand>(
    alloc: Global,
    tree: &mut Tree<J>,
    run: &JobRun,
    workers: u32,
    seen: &mut Seen,
) -> Result<Vec<(u32, AltRef)>, Fail>
    requires { IsJobRun tree.old.history run.now }
    ensures { OnOk result (IsJobRun tree.new.history run.now) }
{
    let mut held = Vec::new(alloc);
    for worker in 0..workers {
        if let Some(at) = take_one(tree, run, worker, seen)? {
            held.push((worker, at))?;
        }
    }
    if held.len() > 1 {
        seen.shared = seen.shared.saturating_add(1);
    }
    Ok(held)
}

/// What a worker is given: what has waited, or else what is ready.
fn take_one<J: JobBrand>(
    tree: &mut Tree<J>,
    run: &JobRun,
    worker: u32,
    seen: &mut Seen,
) -> Result<Option<AltRef>, Fail>
    requires { IsJobRun tree.old.history run.now }
    ensures { OnOk result (IsJobRun tree.new.history run.now) }
{
    let waited = resumed(tree, run, worker)?;
    if waited.is_some() {
        seen.resumed = seen.resumed.saturating_add(1);
        return Ok(waited);
    }
    claimed(tree, run, worker)
}

/// What has waited and is handed out to a worker again.
#[tactic(auto, using(crate::proofs::HandedLemmas::run_resumed))]
pub(crate) fn resumed<J: JobBrand>(
    tree: &mut Tree<J>,
    run: &JobRun,
    worker: u32,
) -> Result<Option<AltRef>, Fail>
    requires { IsJobRun tree.old.history run.now }
    ensures { OnOk result (IsJobRun tree.new.history run.now) }
{
    let _run = run;
    events_leave_runs();
    Ok(tree.resume(worker)?)
}

/// What is ready and is handed out to a worker.
#[tactic(auto, using(crate::proofs::HandedLemmas::run_claimed))]
pub(crate) fn claimed<J: JobBrand>(
    tree: &mut Tree<J>,
    run: &JobRun,
    worker: u32,
) -> Result<Option<AltRef>, Fail>
    requires { IsJobRun tree.old.history run.now }
    ensures { OnOk result (IsJobRun tree.new.history run.now) }
{
    let _run = run;
    events_leave_runs();
    Ok(tree.claim(worker)?)
}

/// A worker gives up what was pruned.
#[tactic(auto, using(crate::proofs::HandedLemmas::run_given_up))]
fn give_up<J: JobBrand>(tree: &mut Tree<J>, run: &JobRun, worker: u32, at: AltRef)
    requires lost { list_any (is_task worker (place_view at)) (state_of tree.old.history).lost ≡ true }
    requires run { IsJobRun tree.old.history run.now }
    ensures { IsJobRun tree.new.history run.now }
{
    let _run = run;
    events_leave_runs();
    tree.give_up(worker, at);
}

/// A worker serves what it has, or gives it up where that was pruned. A second worker waits all the time.
pub(crate) fn serve_one<J: JobBrand>(
    alloc: Global,
    tree: &mut Tree<J>,
    run: &mut JobRun,
    held: (u32, AltRef),
    limit: u64,
    seen: &mut Seen,
) -> Result<(), Fail>
    requires run { IsJobRun tree.old.history run.old }
    requires some { 1 ≤ limit }
    ensures { OnOk result (IsJobRun tree.new.history run.new) }
{
    let (worker, at) = held;
    if tree.is_lost(worker, at) {
        seen.lost = seen.lost.saturating_add(1);
        give_up(tree, run, worker, at);
    } else if tree.is_going() && tree.is_out(worker, at) {
        let mut waiting = Waiting(0 < worker);
        let _kept = serve(tree, run, worker, at, limit, None, &mut waiting, alloc)?;
    }
    Ok(())
}

/// One round of turns.
pub(crate) fn take_turns<J: JobBrand>(
    alloc: Global,
    tree: &mut Tree<J>,
    run: &mut JobRun,
    turns: Turns,
    seen: &mut Seen,
) -> Result<(), Fail>
    requires run { IsJobRun tree.old.history run.old }
    requires some { 1 ≤ turns.limit }
    ensures { OnOk result (IsJobRun tree.new.history run.new) }
{
    let mut held = take_all(alloc, tree, run, turns.workers, seen)?;
    if turns.backwards {
        held.reverse();
    }
    for one in &held {
        serve_one(alloc, tree, run, *one, turns.limit, seen)?;
    }
    Ok(())
}
