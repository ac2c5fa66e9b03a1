//! Balls that wait.
ghost use Rattle.std.specs.Prelude.{◌≡◌, true, false, is_some, OnOk, OnErr};
ghost use Rattle.tree_model.specs.EventViews.{place_view};
ghost use Rattle.tree_model.specs.Events.{Suspend};
ghost use Rattle.tree_model.specs.Legality.{taken_at};
ghost use Rattle.tree_core.specs.Histories.{state_of, while_going};
ghost use Rattle.task_stops.specs.ThrownBalls.{ThrowsThere};

use crate::landed::land_thrown;
use au_term::{FlatTerm, NoMemory};
use clause_compile::GateKind;
use region_split::Text;
use std::alloc::Global;
use std::sync::Arc;
use tree_core::{JobBrand, Tree};
use tree_model::AltRef;

/// A worker gives an alternative that is out to it back to wait, until what is to its left has gone, for the fall of the ball that its
/// first goal throws: it waits at the place where that lands. The ball is as the task's stop tells it. Nothing happens where the
/// tree has ended or was stopped.
pub fn wait_to_fall<J: JobBrand>(
    tree: &mut Tree<J>,
    worker: u32,
    at: AltRef,
    alloc: Global,
    ball: &FlatTerm,
    text: &Arc<Text>,
) -> Result<(), NoMemory>
    requires out { is_some (taken_at worker (place_view at) (state_of tree.old.history)) ≡ true }
    requires throws { ThrowsThere worker (place_view at) ball.now (state_of tree.old.history) }
    ensures waits { OnOk result (tree.new.history ≡ while_going (Suspend worker (place_view at) false) tree.old.history) }
    ensures err { OnErr result (tree.new.history ≡ tree.old.history) }
{
    let scope = land_thrown(tree, worker, at, alloc, ball, text)?.scope;
    let ball = ball.copy()?;
    tree.suspend(worker, at, GateKind::Throw { scope, ball });
    Ok(())
}
