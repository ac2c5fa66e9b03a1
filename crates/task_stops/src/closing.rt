//! Alternatives that close, once the run of their task has ended.
ghost use Rattle.std.specs.Prelude.{◌≡◌, true, is_some, OnErr, OnOk};
ghost use Rattle.tree_model.specs.EventViews.{place_view};
ghost use Rattle.tree_model.specs.Legality.{taken_at};
ghost use Rattle.public_tree.specs.PublicClosing.{closing_event};
ghost use Rattle.public_tree.specs.declared.closing.TaskEnd.TheVariants.{Nothing, Result as GivenResult};
ghost use Rattle.tree_core.specs.Histories.{state_of, while_going};
ghost use Rattle.task_region.specs.TaskStops.{IsNextFor};
ghost use Rattle.task_region.specs.declared.running.TaskStop.TheVariants.{Collect};
ghost use Rattle.task_stops.specs.StopCauses.{StopsThereFor};
ghost use Rattle.task_stops.specs.EndLaws.{IsAllLeft};
ghost use Rattle.task_stops.specs.TaskEnds.{EndsOut, HasRunOut};

use crate::closing_laws::waking_closings_are_no_catch;
use crate::end_laws::{ended_runs_are_empty, results_are_given};
use crate::woken_body;
use au_term::{FlatTerm, NoMemory};
use public_tree::TaskEnd;
use std::alloc::Global;
use task_region::TaskRegion;
use tree_core::{JobBrand, Tree};
use tree_model::AltRef;

/// A worker closes an alternative that is out to it, of whose run its task has left nothing after so many inferences. Nothing happens
/// where the tree has ended or was stopped.
pub fn close_task<J: JobBrand>(
    tree: &mut Tree<J>,
    worker: u32,
    at: AltRef,
    inferences: u64,
    alloc: Global,
) -> Result<(), NoMemory>
    requires out { is_some (taken_at worker (place_view at) (state_of tree.old.history)) ≡ true }
    requires over { HasRunOut tree.old.nodes (place_view at) tree.old.history.job.clauses inferences }
    ensures closes { OnOk result (tree.new.history ≡ while_going (closing_event Nothing worker (place_view at) inferences) tree.old.history) }
    ensures err { OnErr result (tree.new.history ≡ tree.old.history) }
{
    ended_runs_are_empty();
    tree.stays_legal();
    tree.keeps_promises();
    close_out(
        tree,
        worker,
        at,
        inferences,
        (TaskEnd::Nothing, None),
        alloc,
    )
}

/// A worker closes an alternative that is out to it with the result for a findall above to which its task has come after so many
/// inferences. Nothing happens where the tree has ended or was stopped.
pub fn collect_task<J: JobBrand>(
    tree: &mut Tree<J>,
    worker: u32,
    at: AltRef,
    inferences: u64,
    alloc: Global,
    task: TaskRegion,
    number: u64,
) -> Result<(), NoMemory>
    requires out { is_some (taken_at worker (place_view at) (state_of tree.old.history)) ≡ true }
    requires stops { StopsThereFor tree.old.nodes (place_view at) tree.old.history.job.clauses inferences task (Collect number) }
    requires next { IsNextFor (Collect number) task }
    requires alone { IsAllLeft inferences task }
    ensures closes { OnOk result (tree.new.history ≡ while_going (closing_event GivenResult worker (place_view at) inferences) tree.old.history) }
    ensures err { OnErr result (tree.new.history ≡ tree.old.history) }
{
    results_are_given();
    tree.stays_legal();
    tree.keeps_promises();
    let record = task.into_result(number)?;
    close_out(
        tree,
        worker,
        at,
        inferences,
        (TaskEnd::Result, Some(record)),
        alloc,
    )
}

/// Closes what is out to a worker with such an end, and a record or none.
fn close_out<J: JobBrand>(
    tree: &mut Tree<J>,
    worker: u32,
    at: AltRef,
    inferences: u64,
    ending: (TaskEnd, Option<FlatTerm>),
    alloc: Global,
) -> Result<(), NoMemory>
    requires out { is_some (taken_at worker (place_view at) (state_of tree.old.history)) ≡ true }
    requires ends { EndsOut ending.0 ending.1 worker (place_view at) inferences (state_of tree.old.history) }
    ensures closes { OnOk result (tree.new.history ≡ while_going (closing_event ending.0 worker (place_view at) inferences) tree.old.history) }
    ensures err { OnErr result (tree.new.history ≡ tree.old.history) }
{
    waking_closings_are_no_catch();
    tree.stays_legal();
    tree.keeps_promises();
    let (end, collected) = ending;
    let closing = tree.rest_of(at, inferences, collected)?;
    let woken = woken_body(tree.nodes(), alloc, &closing)?;
    tree.close(worker, at, inferences, end, closing, woken)
}
