//! Removals and answers that are next of an alternative.
ghost use Rattle.std.specs.Prelude.{◌≡◌, true, is_some, IfOk, IsSome, OnErr, OnOk};
ghost use Rattle.effect_gate.specs.Effects.{world_meant};
ghost use Rattle.tree_model.specs.EventViews.{place_view};
ghost use Rattle.tree_model.specs.Legality.{taken_at};
ghost use Rattle.public_tree.specs.PublicTrees.{is_going};
ghost use Rattle.tree_core.specs.Histories.{state_of};
ghost use Rattle.task_region.specs.declared.running.TaskStop.TheVariants.{Answer};
ghost use Rattle.task_world.specs.FrontItems.{IsRemovalNext};
ghost use Rattle.task_world.specs.FrontSteps.{ComesAbout, IsWorldAfter};
ghost use Rattle.task_world.specs.FrontsTold.{StopsAtFront};
ghost use Rattle.scheduler.specs.FrontTurns.{IsTaskAtWorld};
ghost use Rattle.scheduler.specs.GivenBack.{IsGivenBackOnce};
ghost use Rattle.scheduler.specs.JobRuns.{IsJobRun};

use crate::front::end_step;
use crate::job_run::JobRun;
use crate::names::{names_of, opened_on};
use au_term::NoMemory;
use effect_gate::World;
use query_laws::laws::ends_open_queries;
use std::alloc::Global;
use task_region::TaskRegion;
use task_region::branch_laws::places_are_levels;
use task_world::laws::fronts_are_told;
use task_world::{FrontStep, take_answer, take_removal};
use text_load::Query;
use tree_core::{JobBrand, Tree};
use tree_model::AltRef;

/// The removal of a clause that is next of an alternative is taken, or the alternative waits for that.
pub(crate) fn serve_removal<J: JobBrand>(
    tree: &mut Tree<J>,
    run: &mut JobRun,
    worker: u32,
    at: AltRef,
    clause: u64,
    alloc: Global,
) -> Result<(), NoMemory>
    requires out { is_some (taken_at worker (place_view at) (state_of tree.old.history)) ≡ true }
    requires going { is_going (state_of tree.old.history) ≡ true }
    requires run { IsJobRun tree.old.history run.old }
    requires task { IsTaskAtWorld worker (place_view at) (state_of tree.old.history) }
    requires removal { IsRemovalNext clause worker (place_view at) (state_of tree.old.history) }
    ensures run { OnOk result (IsJobRun tree.new.history run.new) }
    ensures back { OnOk result (IsGivenBackOnce tree.old.history tree.new.history (place_view at)) }
    ensures err { OnErr result (tree.new.history ≡ tree.old.history) }
{
    ends_open_queries();
    tree.stays_legal();
    let step = take_removal(tree, worker, at, clause, &mut run.world, alloc)?;
    end_step(tree, worker, at, step, alloc)
}

/// The answer to which an alternative has come is written, or the alternative waits for that.
pub(crate) fn serve_answer<J: JobBrand>(
    tree: &mut Tree<J>,
    run: &mut JobRun,
    worker: u32,
    at: AltRef,
    task: TaskRegion,
    alloc: Global,
) -> Result<(), NoMemory>
    requires out { is_some (taken_at worker (place_view at) (state_of tree.old.history)) ≡ true }
    requires going { is_going (state_of tree.old.history) ≡ true }
    requires run { IsJobRun tree.old.history run.old }
    requires task { IsTaskAtWorld worker (place_view at) (state_of tree.old.history) }
    requires stops { StopsAtFront tree.old.nodes (place_view at) tree.old.history.job.clauses task Answer }
    requires left { IsSome task.next }
    ensures run { OnOk result (IsJobRun tree.new.history run.new) }
    ensures back { OnOk result (IsGivenBackOnce tree.old.history tree.new.history (place_view at)) }
    ensures err { OnErr result (tree.new.history ≡ tree.old.history) }
{
    ends_open_queries();
    tree.stays_legal();
    let step = answer_step(tree, worker, at, task, &run.queries, &mut run.world, alloc)?;
    end_step(tree, worker, at, step, alloc)
}

/// The line of the answer, by the names of its query.
fn answer_step<J: JobBrand>(
    tree: &Tree<J>,
    worker: u32,
    at: AltRef,
    task: TaskRegion,
    queries: &[Query],
    world: &mut World,
    alloc: Global,
) -> Result<FrontStep, NoMemory>
    requires out { is_some (taken_at worker (place_view at) (state_of tree.now.history)) ≡ true }
    requires stops { StopsAtFront tree.now.nodes (place_view at) tree.now.history.job.clauses task Answer }
    requires left { IsSome task.next }
    requires queries { queries.now ≡ tree.now.history.job.queries }
    requires world { world_meant world.old ≡ (state_of tree.now.history).world }
    ensures comes { IfOk result (ComesAbout tree.now tree.now worker (place_view at)) }
    ensures world { IfOk result (λ step. IsWorldAfter tree.now.history worker (place_view at) (world_meant world.new)) }
    ensures statics { world.new.database.statics ≡ world.old.database.statics }
{
    fronts_are_told();
    places_are_levels();
    tree.stays_legal();
    tree.keeps_promises();
    let (region, _floor, _position) = task.into_region();
    let count = opened_on(tree.nodes(), at, alloc)?;
    let names = names_of(queries, count);
    take_answer(tree, worker, at, names, region.store(), world, alloc)
}
