//! Removals of clauses, which come as an alternative of a retract goes on (ISO/IEC 13211-1, 8.9.3).
ghost use Rattle.std.specs.Prelude.{◌≡◌, true, is_some, IfOk, OnErr, None};
ghost use Rattle.effect_gate.specs.Effects.{world_meant};
ghost use Rattle.tree_model.specs.EventViews.{place_view};
ghost use Rattle.tree_model.specs.Legality.{taken_at};
ghost use Rattle.tree_core.specs.Histories.{state_of};
ghost use Rattle.task_world.specs.FrontItems.{IsRemovalNext};
ghost use Rattle.task_world.specs.FrontSteps.{ComesAbout, IsBarredBy, IsWorldAfter};

use crate::front::{close, go_on, why_barred};
use crate::step::FrontStep;
use au_term::NoMemory;
use effect_gate::World;
use region_world::removes_clause;
use std::alloc::Global;
use tree_core::{JobBrand, Tree};
use tree_model::AltRef;

/// A worker removes the clause of a number, which is next of an alternative that is out to it. Nothing happens where the alternative is not
/// the leftmost entry, or where the tree has ended or was stopped.
pub fn take_removal<J: JobBrand>(
    tree: &mut Tree<J>,
    worker: u32,
    at: AltRef,
    clause: u64,
    world: &mut World,
    alloc: Global,
) -> Result<FrontStep, NoMemory>
    requires out { is_some (taken_at worker (place_view at) (state_of tree.old.history)) ≡ true }
    requires removal { IsRemovalNext clause worker (place_view at) (state_of tree.old.history) }
    requires world { world_meant world.old ≡ (state_of tree.old.history).world }
    ensures comes { IfOk result (ComesAbout tree.old tree.new worker (place_view at)) }
    ensures world { IfOk result (λ step. IsWorldAfter tree.old.history worker (place_view at) (world_meant world.new)) }
    ensures statics { world.new.database.statics ≡ world.old.database.statics }
    ensures err { OnErr result (tree.new.history ≡ tree.old.history) }
{
    match why_barred(tree, at) {
        Some(answering) => Ok(FrontStep::Done(answering)),
        None => remove_at_front(tree, worker, at, clause, world, alloc),
    }
}

/// The same where the alternative may be taken.
fn remove_at_front<J: JobBrand>(
    tree: &mut Tree<J>,
    worker: u32,
    at: AltRef,
    clause: u64,
    world: &mut World,
    alloc: Global,
) -> Result<FrontStep, NoMemory>
    requires may { IsBarredBy tree.old.history (place_view at) None }
    requires out { is_some (taken_at worker (place_view at) (state_of tree.old.history)) ≡ true }
    requires removal { IsRemovalNext clause worker (place_view at) (state_of tree.old.history) }
    requires world { world_meant world.old ≡ (state_of tree.old.history).world }
    ensures comes { IfOk result (ComesAbout tree.old tree.new worker (place_view at)) }
    ensures world { IfOk result (λ step. IsWorldAfter tree.old.history worker (place_view at) (world_meant world.new)) }
    ensures statics { world.new.database.statics ≡ world.old.database.statics }
    ensures err { OnErr result (tree.new.history ≡ tree.old.history) }
{
    if removes_clause(alloc, clause, world)? {
        go_on(tree, worker, at, alloc)
    } else {
        close(tree, worker, at)
    }
}
