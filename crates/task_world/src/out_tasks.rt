//! What a worker takes up.
ghost use Rattle.std.specs.Prelude.{◌≡◌, true, is_some, IfOk, IfSome, IsSome};
ghost use Rattle.std.specs.Arc.{arc_value};
ghost use Rattle.tree_model.specs.EventViews.{place_view};
ghost use Rattle.tree_model.specs.Legality.{taken_at};
ghost use Rattle.tree_nodes.specs.Rows.{row_of_node};
ghost use Rattle.tree_core.specs.Histories.{state_of};
ghost use Rattle.task_region.specs.KeptRegions.{IsKeptIn};
ghost use Rattle.task_region.specs.PlacesUp.{items_at_place};
ghost use Rattle.task_world.specs.OutTasks.{IsOutThere, end_ball, first_end};

use crate::task_laws::outs_are_tasks_or_ends;
use au_term::{FlatTerm, NoMemory};
use clause_compile::Item;
use region_split::Text;
use std::alloc::Global;
use std::sync::Arc;
use task_region::{KeptRegion, LoadedTask, load_task};
use tree_core::{JobBrand, Tree};
use tree_model::AltRef;
use tree_nodes::Nodes;

/// What is out to a worker.
#[derive(Drop)]
pub enum OutTask {
    /// A task, at the start of its run.
    Task(LoadedTask),
    /// The end of a query, with the ball by which it ended, if one did.
    QueryEnd(Option<FlatTerm>),
}

/// Takes up what is out to a worker: the region of a task is loaded, of a program of this text. A kept region may be given, which goes
/// down to the task's alternative where that is below it.
pub fn take_up<J: JobBrand>(
    tree: &Tree<J>,
    worker: u32,
    at: AltRef,
    alloc: Global,
    text: Arc<Text>,
    kept: Option<KeptRegion>,
) -> Result<OutTask, NoMemory>
    requires out { is_some (taken_at worker (place_view at) (state_of tree.now.history)) ≡ true }
    requires kept { IfSome kept (IsKeptIn tree.now.nodes.rows (arc_value text)) }
    ensures { IfOk result (IsOutThere tree.now worker (place_view at) (arc_value text)) }
{
    outs_are_tasks_or_ends();
    tree.stays_legal();
    tree.keeps_promises();
    match end_at(tree.nodes(), at)? {
        Some(ball) => Ok(OutTask::QueryEnd(ball)),
        None => {
            let task = load_task(tree.nodes(), at, alloc, text, kept)?;
            Ok(OutTask::Task(task))
        }
    }
}

/// The ball by which a query ends, if any did, where its end is the first item of an alternative.
fn end_at(nodes: &Nodes, at: AltRef) -> Result<Option<Option<FlatTerm>>, NoMemory>
    requires { IsSome (row_of_node nodes.now.rows at.node) }
    ensures { IfOk result (λ ball. ball ≡ first_end (items_at_place nodes.now.rows (place_view at))) }
{
    let Some(branch) = nodes.body(at.node).branches.get(at.alternative as usize) else {
        return Ok(None);
    };
    match branch.goals.first() {
        Some(item) => ball_of(item),
        None => Ok(None),
    }
}

/// The ball of an item, where that is the end of a query.
fn ball_of(item: &Item) -> Result<Option<Option<FlatTerm>>, NoMemory>
    ensures { IfOk result (λ ball. ball ≡ end_ball item.now) }
{
    match item {
        Item::End(Some(ball)) => Ok(Some(Some(ball.copy()?))),
        Item::End(None) => Ok(Some(None)),
        _ => Ok(None),
    }
}
