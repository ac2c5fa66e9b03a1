//! Ends of queries.
ghost use Rattle.std.specs.Prelude.{◌≡◌, ◌≤◌, true, is_some, List, drop, length, OnErr, OnOk};
ghost use Rattle.run_model.specs.Programs.Jobs.{Query};
ghost use Rattle.tree_model.specs.TreeStates.{queries_after};
ghost use Rattle.tree_model.specs.EventViews.{place_view};
ghost use Rattle.tree_model.specs.Legality.{taken_at};
ghost use Rattle.public_tree.specs.PublicTrees.{is_going};
ghost use Rattle.tree_core.specs.Histories.{state_of};
ghost use Rattle.task_world.specs.OutTasks.{EndsQueryAt};
ghost use Rattle.scheduler.specs.GivenBack.{IsGivenBackOnce};
ghost use Rattle.scheduler.specs.JobRuns.{IsJobRun};
ghost use Rattle.scheduler.specs.QueriesLeft.{CountsOpened};

use crate::front::end_step;
use crate::job_run::JobRun;
use au_term::{FlatTerm, NoMemory};
use public_tree::Answering;
use std::alloc::Global;
use task_world::{FrontStep, end_query};
use tree_core::{JobBrand, Tree};
use tree_model::AltRef;

/// The end of a query that is out is taken, with the ball by which the query ended, if one did: the next query is opened, or the
/// alternative closes; or it waits for that.
pub(crate) fn serve_end<J: JobBrand>(
    tree: &mut Tree<J>,
    run: &mut JobRun,
    worker: u32,
    at: AltRef,
    ball: Option<FlatTerm>,
    alloc: Global,
) -> Result<(), NoMemory>
    requires out { is_some (taken_at worker (place_view at) (state_of tree.old.history)) ≡ true }
    requires going { is_going (state_of tree.old.history) ≡ true }
    requires run { IsJobRun tree.old.history run.old }
    requires ends { EndsQueryAt worker (place_view at) ball (state_of tree.old.history) }
    ensures run { OnOk result (IsJobRun tree.new.history run.new) }
    ensures back { OnOk result (IsGivenBackOnce tree.old.history tree.new.history (place_view at)) }
    ensures err { OnErr result (tree.new.history ≡ tree.old.history) }
{
    let count = run.queries.len();
    let left = &run.queries[run.asked..];
    let step = end_query(tree, worker, at, ball, left, &mut run.world, alloc)?;
    run.asked = opened_after(run.asked, count, &step);
    end_step(tree, worker, at, step, alloc)
}

/// How many of so many queries were opened, where the end of one was to be taken.
fn opened_after(asked: usize, count: usize, step: &FrontStep) -> usize
    requires { asked ≤ count }
    ensures { CountsOpened count asked step.now result }
{
    match step {
        FrontStep::Done(Answering::NotLeftmost) | FrontStep::Done(Answering::HasEnded) => asked,
        FrontStep::Done(Answering::Taken) | FrontStep::Closes(_) => one_more(asked, count),
    }
}

/// One more, if one was left.
fn one_more(asked: usize, count: usize) -> usize
    requires { asked ≤ count }
    ensures within { result ≤ count }
    ensures left { (queries : List Query) → length queries ≡ count → drop result queries ≡ queries_after (drop asked queries) }
{
    if asked < count { asked + 1 } else { asked }
}
