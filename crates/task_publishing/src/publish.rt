//! The bodies of the nodes that a run becomes.
ghost use Rattle.std.specs.Prelude.{IfOk};
ghost use Rattle.public_tree.specs.Publishing.{bodies_view};
ghost use Rattle.task_publishing.specs.PublishedRuns.{MeanPublished};

use crate::bodies::bodies_of;
use crate::goals::{goals_by_number, tails_of};
use crate::scopes::scopes_kept;
use crate::steps::live_choices;
use au_term::{NoMemory, VarNo};
use clause_compile::Goals;
use region_capture::Captured;
use std::alloc::Global;
use std::sync::Arc;
use tree_nodes::NodeBody;

/// Bodies, the outermost first, for what was taken off a region: of the goals of the alternative of the tree that was run there
/// and its next variable number, the numbers of the nodes on its branch, the outermost first, and the number that the next node
/// gets.
pub fn make_bodies(
    alloc: Global,
    captured: Captured,
    goals: &Goals,
    base: VarNo,
    branch: &[u64],
    next: u64,
) -> Result<Vec<Arc<NodeBody>>, NoMemory>
    ensures { IfOk result (λ bodies. MeanPublished captured goals.now base branch.now next (bodies_view bodies.items)) }
{
    let Captured {
        items,
        current,
        choices,
    } = captured;
    let mut choices = choices;
    choices.reverse();
    let own = scopes_kept(alloc, branch, &choices, next)?;
    let tails = tails_of(alloc, goals)?;
    let lists = goals_by_number(alloc, &items, branch, &own, &tails)?;
    let live = live_choices(alloc, choices, base)?;
    let bodies = bodies_of(alloc, live, current, &lists)?;
    Ok(bodies)
}
