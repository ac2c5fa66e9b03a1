//! Answers that are taken at once.
ghost use Rattle.std.specs.Prelude.{◌≡◌, ◌≤◌, true, is_some, IfOk, IsSome, OnErr, OnOk};
ghost use Rattle.answered_tasks.specs.AnsweredTasks.{ComesOfAnswer, HasStoppedAtAnswer, IsAnsweredAtOnce, OutAnswersAlone};
ghost use Rattle.effect_gate.specs.Effects.{world_meant};
ghost use Rattle.public_tree.specs.AnsweringAtOnce.{run_answering};
ghost use Rattle.public_tree.specs.declared.answering_at_once.RunAnswering.TheVariants as answering;
ghost use Rattle.task_world.specs.FrontItems.{terms_named};
ghost use Rattle.task_world.specs.FrontsTold.{AreItsNames};
ghost use Rattle.tree_core.specs.Histories.{state_of};
ghost use Rattle.tree_model.specs.EventViews.{place_view};
ghost use Rattle.tree_model.specs.Legality.{taken_at};

use crate::laws::answered_tasks_run_alone;
use answered_runs::laws::answers_close_at_once;
use au_model::VarName;
use au_term::NoMemory;
use cell_store::Store;
use effect_gate::World;
use public_tree::RunAnswering;
use std::alloc::Global;
use task_region::TaskRegion;
use task_stops::closing_laws::waking_closings_are_no_catch;
use task_stops::woken_body;
use task_world::write_answer;
use tree_core::{JobBrand, Tree};
use tree_model::AltRef;

/// A worker takes the answer to which the task of an alternative that is out to it has come after so many inferences: the line of
/// the answer, by the names of its query, is written in the world, and the tree notes the run and its answer. The task is given back,
/// and nothing has happened, where the alternative is not the leftmost entry, where the tree has ended or was stopped, where the
/// budget does not last to the answer, or where something else than catches is left of the task.
pub fn answer_task<J: JobBrand>(
    tree: &mut Tree<J>,
    worker: u32,
    at: AltRef,
    inferences: u64,
    task: TaskRegion,
    names: &[VarName],
    world: &mut World,
    alloc: Global,
) -> Result<Option<TaskRegion>, NoMemory>
    requires out { is_some (taken_at worker (place_view at) (state_of tree.old.history)) ≡ true }
    requires some { 1 ≤ inferences }
    requires stopped { HasStoppedAtAnswer tree.old (place_view at) inferences task }
    requires left { IsSome task.next }
    requires names { AreItsNames tree.old.history.job tree.old.nodes.rows names.now worker (place_view at) (state_of tree.old.history) }
    requires world { world_meant world.old ≡ (state_of tree.old.history).world }
    ensures comes { IfOk result (ComesOfAnswer tree.old tree.new worker (place_view at) inferences task) }
    ensures world { IfOk result (λ left. world_meant world.new ≡ (state_of tree.new.history).world) }
    ensures statics { world.new.database.statics ≡ world.old.database.statics }
    ensures err { OnErr result (tree.new.history ≡ tree.old.history) }
{
    answered_tasks_run_alone();
    tree.stays_legal();
    tree.keeps_promises();
    if tree.run_answering(at, inferences) != RunAnswering::Taken {
        return Ok(Some(task));
    }
    let Some(catches) = task.catches_left() else {
        return Ok(Some(task));
    };
    let (region, _floor, _position) = task.into_region();
    let run = (inferences, catches);
    answer_at_once(tree, worker, at, run, names, region.store(), world, alloc)?;
    Ok(None)
}

/// The same where it may be taken: a run of so many inferences leaves the answer over so many recoveries alone.
fn answer_at_once<J: JobBrand>(
    tree: &mut Tree<J>,
    worker: u32,
    at: AltRef,
    run: (u64, u64),
    names: &[VarName],
    store: &Store,
    world: &mut World,
    alloc: Global,
) -> Result<(), NoMemory>
    requires out { is_some (taken_at worker (place_view at) (state_of tree.old.history)) ≡ true }
    requires some { 1 ≤ run.0 }
    requires may { run_answering (place_view at) run.0 (state_of tree.old.history) ≡ answering.Taken }
    requires answers { OutAnswersAlone (terms_named store.now names.now) run.1 worker (place_view at) run.0 (state_of tree.old.history) }
    requires world { world_meant world.old ≡ (state_of tree.old.history).world }
    ensures answered { OnOk result (IsAnsweredAtOnce tree.old.history tree.new.history worker (place_view at) run.0 run.1) }
    ensures world { OnOk result (world_meant world.new ≡ (state_of tree.new.history).world) }
    ensures statics { world.new.database.statics ≡ world.old.database.statics }
    ensures err { OnErr result (tree.new.history ≡ tree.old.history) }
{
    answers_close_at_once();
    waking_closings_are_no_catch();
    tree.stays_legal();
    tree.keeps_promises();
    let (inferences, catches) = run;
    let closing = tree.rest_of_run(at, inferences)?;
    let woken = woken_body(tree.nodes(), alloc, &closing)?;
    write_answer(alloc, names, store, world)?;
    let _taken = tree.answer_at_once(worker, at, inferences, catches, closing, woken)?;
    Ok(())
}
