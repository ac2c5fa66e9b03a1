//! How a run on a tree ends.
ghost use Rattle.std.specs.Prelude.{◌≡◌, IfSome, None};
ghost use Rattle.tree_model.specs.TreeStates.{ended};
ghost use Rattle.tree_core.specs.Histories.{state_of};
ghost use Rattle.scheduler.specs.Endings.{IsEndOf};

use run_model::laws::runs::budget_stops;
use run_model::{RunEnd, RunEnding};
use tree_core::{JobBrand, Tree};

/// The end of the run of a tree's job within its budget, once the tree has ended.
pub(crate) fn end_of<J: JobBrand>(tree: &Tree<J>, budget: u64) -> Option<RunEnd>
    requires { tree.now.history.budget ≡ budget }
    ensures ended { IfSome result (IsEndOf tree.now.history) }
    ensures going { result ≡ None → ended (state_of tree.now.history) ≡ None }
{
    budget_stops();
    let end = tree.ended()?;
    let (answers, inferences) = tree.counts();
    let inferences = match end {
        RunEnding::Budget => budget,
        _ => inferences,
    };
    Some(RunEnd {
        end,
        answers,
        inferences,
    })
}

/// The end of a run that was cut short.
pub(crate) fn cut_short(end: RunEnding) -> RunEnd
    ensures { result ≡ record { end = end; answers = 0; inferences = 0 } }
{
    RunEnd {
        end,
        answers: 0,
        inferences: 0,
    }
}
