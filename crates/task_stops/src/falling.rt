//! Balls that fall.
ghost use Rattle.std.specs.Prelude.{◌≡◌, true, is_some, IfOk, OnErr};
ghost use Rattle.tree_model.specs.EventViews.{place_view};
ghost use Rattle.tree_model.specs.Events.{Prune};
ghost use Rattle.tree_model.specs.Legality.{taken_at};
ghost use Rattle.tree_core.specs.Histories.{state_of};
ghost use Rattle.tree_core.specs.Turns.{where_legal, pruning_of};
ghost use Rattle.task_stops.specs.StopGates.{IsKeptUntaken};
ghost use Rattle.task_stops.specs.ThrownBalls.{ThrowsThere};

use crate::landed::land_thrown;
use au_term::{FlatTerm, NoMemory};
use public_tree::Pruning;
use region_split::Text;
use std::alloc::Global;
use std::sync::Arc;
use tree_core::{JobBrand, Tree};
use tree_model::AltRef;

/// A worker lets a ball fall which the first goal of an alternative throws that is out to it: where the ball lands, what it leaves goes on
/// in a node of its own. The ball is as the task's stop tells it, with its variables numbered from 0. Nothing happens where the
/// alternative is not cleared to that place, or where the tree has ended or was stopped.
pub fn fall_task<J: JobBrand>(
    tree: &mut Tree<J>,
    worker: u32,
    at: AltRef,
    alloc: Global,
    ball: &FlatTerm,
    text: &Arc<Text>,
) -> Result<Pruning, NoMemory>
    requires out { is_some (taken_at worker (place_view at) (state_of tree.old.history)) ≡ true }
    requires throws { ThrowsThere worker (place_view at) ball.now (state_of tree.old.history) }
    ensures answer { IfOk result (λ p. p ≡ pruning_of (Prune worker (place_view at)) (state_of tree.old.history)) }
    ensures fallen { IfOk result (λ p. tree.new.history ≡ where_legal (Prune worker (place_view at)) tree.old.history) }
    ensures kept { IfOk result (λ p. IsKeptUntaken p tree.old.history tree.new.history) }
    ensures err { OnErr result (tree.new.history ≡ tree.old.history) }
{
    let landing = land_thrown(tree, worker, at, alloc, ball, text)?;
    tree.fall(worker, at, landing.scope, landing.body)
}
