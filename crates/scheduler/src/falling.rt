//! Cuts and balls that are taken, or waited for.
ghost use Rattle.std.specs.Prelude.{◌≡◌, true, is_some, OnErr, OnOk};
ghost use Rattle.tree_model.specs.EventViews.{place_view};
ghost use Rattle.tree_model.specs.Legality.{taken_at};
ghost use Rattle.public_tree.specs.PublicTrees.{is_going};
ghost use Rattle.tree_core.specs.Histories.{state_of};
ghost use Rattle.task_region.specs.declared.running.TaskStop.TheVariants.{Cut};
ghost use Rattle.task_stops.specs.ThrownBalls.{ThrowsThere};
ghost use Rattle.task_stops.specs.StopGates.{IsGateOfStop};
ghost use Rattle.scheduler.specs.GivenBack.{IsGivenBackAlone};

use au_term::{FlatTerm, NoMemory};
use public_tree::Pruning;
use region_split::Text;
use std::alloc::Global;
use std::sync::Arc;
use task_region::TaskStop;
use task_stops::gate_laws::stops_are_gates;
use task_stops::{cut_task, fall_task, suspend_task, wait_to_fall};
use tree_core::{JobBrand, Tree};
use tree_model::AltRef;

/// A worker takes the cut, to a node of this height, that is next of an alternative; or that waits, where something to its left is open
/// below the node.
pub(crate) fn cut_or_wait<J: JobBrand>(
    tree: &mut Tree<J>,
    worker: u32,
    at: AltRef,
    height: u32,
    alloc: Global,
) -> Result<(), NoMemory>
    requires out { is_some (taken_at worker (place_view at) (state_of tree.old.history)) ≡ true }
    requires going { is_going (state_of tree.old.history) ≡ true }
    requires gate { IsGateOfStop (Cut height) worker (place_view at) (state_of tree.old.history) }
    ensures back { OnOk result (IsGivenBackAlone tree.old.history tree.new.history (place_view at)) }
    ensures err { OnErr result (tree.new.history ≡ tree.old.history) }
{
    stops_are_gates();
    let pruning = cut_task(tree, worker, at, alloc)?;
    match pruning {
        Pruning::Taken => Ok(()),
        Pruning::NotCleared => {
            suspend_task(tree, worker, at, &TaskStop::Cut(height));
            Ok(())
        }
        Pruning::HasEnded => unreachable!(),
    }
}

/// A worker lets the ball fall that the first goal of an alternative throws; or that waits, where something to its left is open below the
/// node where the ball lands.
pub(crate) fn fall_or_wait<J: JobBrand>(
    tree: &mut Tree<J>,
    worker: u32,
    at: AltRef,
    ball: &FlatTerm,
    text: &Arc<Text>,
    alloc: Global,
) -> Result<(), NoMemory>
    requires out { is_some (taken_at worker (place_view at) (state_of tree.old.history)) ≡ true }
    requires going { is_going (state_of tree.old.history) ≡ true }
    requires throws { ThrowsThere worker (place_view at) ball.now (state_of tree.old.history) }
    ensures back { OnOk result (IsGivenBackAlone tree.old.history tree.new.history (place_view at)) }
    ensures err { OnErr result (tree.new.history ≡ tree.old.history) }
{
    let pruning = fall_task(tree, worker, at, alloc, ball, text)?;
    match pruning {
        Pruning::Taken => Ok(()),
        Pruning::NotCleared => wait_to_fall(tree, worker, at, alloc, ball, text),
        Pruning::HasEnded => unreachable!(),
    }
}
