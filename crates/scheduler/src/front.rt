//! What has come of an alternative at the front.
ghost use Rattle.std.specs.Prelude.{◌≡◌, true, is_some, OnErr, OnOk};
ghost use Rattle.tree_model.specs.EventViews.{place_view};
ghost use Rattle.tree_model.specs.Legality.{taken_at};
ghost use Rattle.tree_model.specs.Nodes.{WorldGate};
ghost use Rattle.tree_nodes.specs.Staying.{StayMade};
ghost use Rattle.public_tree.specs.PublicTrees.{IsItsGate, is_going};
ghost use Rattle.tree_core.specs.Histories.{state_of, with_event};
ghost use Rattle.task_world.specs.FrontSteps.{MayClose, front_event};
ghost use Rattle.scheduler.specs.FrontTurns.{EndsStep, FailsStep, IsStepOpen};

use au_term::NoMemory;
use clause_compile::{Effect, GateKind};
use public_tree::Answering;
use std::alloc::Global;
use task_stops::closing_laws::waking_closings_are_no_catch;
use task_stops::woken_body;
use task_world::FrontStep;
use tree_closing::Closing;
use tree_core::{JobBrand, Tree};
use tree_model::AltRef;

/// Brings to its end what has come of an alternative at the front: where it is not the leftmost entry it waits for that, and where it has
/// yet to close it does.
pub(crate) fn end_step<J: JobBrand>(
    tree: &mut Tree<J>,
    worker: u32,
    at: AltRef,
    step: FrontStep,
    alloc: Global,
) -> Result<(), NoMemory>
    requires step { IsStepOpen tree.old worker (place_view at) step }
    ensures ends { OnOk result (EndsStep tree.old tree.new worker (place_view at) step) }
    ensures made { StayMade tree.old.nodes.rows tree.new.nodes.rows }
    ensures err { OnErr result (FailsStep tree.old tree.new step) }
{
    match step {
        FrontStep::Done(answering) => {
            if answering == Answering::NotLeftmost {
                // Which effect it is nobody asks: the task that is loaded again finds that.
                tree.suspend(worker, at, GateKind::World(Effect::Nl));
            }
            Ok(())
        }
        FrontStep::Closes(closing) => close_front(tree, worker, at, closing, alloc),
    }
}

/// An alternative that may close at the front does, and what wakes by that goes on in a node of its own.
fn close_front<J: JobBrand>(
    tree: &mut Tree<J>,
    worker: u32,
    at: AltRef,
    closing: Closing,
    alloc: Global,
) -> Result<(), NoMemory>
    requires out { is_some (taken_at worker (place_view at) (state_of tree.old.history)) ≡ true }
    requires may { MayClose tree.old worker (place_view at) closing }
    ensures closes { OnOk result (tree.new.history ≡ with_event (front_event worker (place_view at)) tree.old.history) }
    ensures made { StayMade tree.old.nodes.rows tree.new.nodes.rows }
    ensures err { OnErr result (tree.new.history ≡ tree.old.history) }
{
    waking_closings_are_no_catch();
    tree.stays_legal();
    tree.keeps_promises();
    let woken = woken_body(tree.nodes(), alloc, &closing)?;
    tree.close_at_front(worker, at, closing, woken)?;
    Ok(())
}
