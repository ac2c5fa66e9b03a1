//! Turns: the next alternative goes out to the one worker, is served, and is back.
ghost use Rattle.std.specs.Prelude.{◌≡◌, ◌≤◌, [], true, is_some, IfOk, OnErr, OnOk};
ghost use Rattle.tree_model.specs.EventViews.{place_view};
ghost use Rattle.tree_model.specs.Legality.{taken_at};
ghost use Rattle.public_tree.specs.PublicTrees.{is_going};
ghost use Rattle.tree_core.specs.Histories.{state_of};
ghost use Rattle.tree_core.specs.TasksOut.{out_after};
ghost use Rattle.scheduler.specs.GivenBack.{IsSameJob};
ghost use Rattle.scheduler.specs.JobRuns.{IsJobRun};
ghost use Rattle.scheduler.specs.KeptFor.{IsKeptFor};
ghost use Rattle.tree_nodes.specs.Staying.{StayMade};
ghost use Rattle.scheduler.specs.Driving.{GoesOut, IsDriven};

use crate::laws::events_leave_runs;
use crate::{JobRun, NoDemand, serve};
use au_term::NoMemory;
use hand_out_laws::laws::{all_is_back, out_and_back};
use std::alloc::Global;
use task_region::KeptRegion;
use task_region::branch_laws::kept_regions_stay;
use tree_core::{JobBrand, Tree};
use tree_model::AltRef;

/// The number of the one worker.
const WORKER: u32 = 0;

/// Takes one turn of a tree that goes on, with the region that was kept from the one before, if one was; the one for the next turn, if one
/// is kept.
pub(crate) fn turn<J: JobBrand>(
    tree: &mut Tree<J>,
    run: &mut JobRun,
    alloc: Global,
    budget: u64,
    kept: Option<KeptRegion>,
) -> Result<Option<KeptRegion>, NoMemory>
    requires going { is_going (state_of tree.old.history) ≡ true }
    requires driven { IsDriven tree.old.history }
    requires run { IsJobRun tree.old.history run.old }
    requires kept { IsKeptFor tree.old run.old kept }
    ensures same { IsSameJob tree.old.history tree.new.history }
    ensures driven { OnOk result (IsDriven tree.new.history) }
    ensures run { OnOk result (IsJobRun tree.new.history run.new) }
    ensures kept { IfOk result (IsKeptFor tree.new run.new) }
{
    out_and_back();
    events_leave_runs();
    kept_regions_stay();
    let at = hand_out(tree)?;
    if !tree.is_going() {
        return Ok(None);
    }
    let limit = limit_of(tree, budget);
    serve(tree, run, WORKER, at, limit, kept, &mut NoDemand, alloc)
}

/// Hands out the leftmost alternative that is ready, or else one that has waited and need no longer.
fn hand_out<J: JobBrand>(tree: &mut Tree<J>) -> Result<AltRef, NoMemory>
    requires going { is_going (state_of tree.old.history) ≡ true }
    requires back { out_after tree.old.history.events [] ≡ [] }
    ensures out { IfOk result (λ at. is_some (taken_at 0 (place_view at) (state_of tree.new.history)) ≡ true) }
    ensures made { StayMade tree.old.nodes.rows tree.new.nodes.rows }
    ensures goes { IfOk result (λ at. GoesOut tree.old.history tree.new.history (place_view at)) }
    ensures err { OnErr result (tree.new.history ≡ tree.old.history) }
{
    tree.keeps_promises();
    all_is_back();
    if let Some(at) = tree.claim(WORKER)? {
        return Ok(at);
    }
    match tree.resume(WORKER)? {
        Some(at) => Ok(at),
        None => unreachable!(),
    }
}

/// How many inferences a task may take by itself: as many as the leftmost alternative has left of the budget, since more are of no use
/// to any other, and at least one.
fn limit_of<J: JobBrand>(tree: &Tree<J>, budget: u64) -> u64
    ensures { 1 ≤ result }
{
    let (_answers, inferences) = tree.counts();
    budget.saturating_sub(inferences).max(1)
}
