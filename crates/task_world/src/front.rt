//! What is out to a worker and is next at the front of a job's tree: why it may not be taken, how it goes on, and how it closes.
ghost use Rattle.std.specs.Prelude.{◌≡◌, true, [], is_some, IfOk, OnErr, None};
ghost use Rattle.tree_nodes.specs.Staying.{StayMade};
ghost use Rattle.tree_model.specs.EventViews.{place_view};
ghost use Rattle.tree_model.specs.FrontGates.{Continues};
ghost use Rattle.tree_model.specs.Legality.{taken_at};
ghost use Rattle.public_tree.specs.Answering.{AtFront};
ghost use Rattle.tree_core.specs.Histories.{state_of};
ghost use Rattle.task_world.specs.FrontSteps.{ComesAbout, IsBarredBy, LeavesRest};

use crate::left::body_behind;
use crate::step::FrontStep;
use au_term::NoMemory;
use branch_reading::laws::numbered_trees_are_settled;
use branch_shapes::laws::floor_items_stay;
use branch_shapes::step_laws::fronts_are_read;
use public_tree::Answering;
use std::alloc::Global;
use tree_core::{JobBrand, Tree};
use tree_model::AltRef;

/// Why an alternative may not be taken at the front, if it may not: it is not the leftmost entry, or the tree has ended or was stopped.
pub fn why_barred<J: JobBrand>(tree: &Tree<J>, at: AltRef) -> Option<Answering>
    ensures { IsBarredBy tree.now.history (place_view at) result }
{
    if !tree.is_going() {
        return Some(Answering::HasEnded);
    }
    if !tree.is_front(at) {
        return Some(Answering::NotLeftmost);
    }
    None
}

/// An alternative goes on at the front with what it has left behind its first item.
pub fn go_on<J: JobBrand>(
    tree: &mut Tree<J>,
    worker: u32,
    at: AltRef,
    alloc: Global,
) -> Result<FrontStep, NoMemory>
    requires out { is_some (taken_at worker (place_view at) (state_of tree.old.history)) ≡ true }
    requires leaves { LeavesRest worker (place_view at) (state_of tree.old.history) }
    ensures comes { IfOk result (ComesAbout tree.old tree.new worker (place_view at)) }
    ensures made { StayMade tree.old.nodes.rows tree.new.nodes.rows }
    ensures err { OnErr result (tree.new.history ≡ tree.old.history) }
{
    numbered_trees_are_settled();
    floor_items_stay();
    fronts_are_read();
    tree.stays_legal();
    tree.keeps_promises();
    let body = body_behind(tree.nodes(), at, alloc)?;
    let answering = tree.go_on_at_front(worker, at, body)?;
    Ok(FrontStep::Done(answering))
}

/// How an alternative closes of which the front leaves nothing.
pub fn close<J: JobBrand>(tree: &Tree<J>, worker: u32, at: AltRef) -> Result<FrontStep, NoMemory>
    requires may { IsBarredBy tree.now.history (place_view at) None }
    requires out { is_some (taken_at worker (place_view at) (state_of tree.now.history)) ≡ true }
    requires nothing { AtFront worker (place_view at) (λ s front. front ≡ Continues []) (state_of tree.now.history) }
    ensures { IfOk result (ComesAbout tree.now tree.now worker (place_view at)) }
{
    tree.keeps_promises();
    let _worker = worker;
    let closing = tree.rest_of(at, 1, None)?;
    Ok(FrontStep::Closes(closing))
}
