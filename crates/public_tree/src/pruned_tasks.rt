//! The tasks that a cut or a ball takes away.
ghost use Rattle.std.specs.Prelude.{◌≡◌, ◌++◌, ◌+◌, IsSome, IfOk, OnOk, map};
ghost use Rattle.tree_model.specs.EventViews.{place_view};
ghost use Rattle.tree_nodes.specs.Folds.{IsDeeper};
ghost use Rattle.tree_nodes.specs.RowViews.{parent_view};
ghost use Rattle.tree_nodes.specs.Rows.{row_of_node, cell_at, scope_number};
ghost use Rattle.public_tree.specs.LostTasks.{task_view};
ghost use Rattle.public_tree.specs.PrunedTasks.{FindsTasks, TurnsTo, tasks_here, going_up};

use crate::lost::LostTask;
use au_term::NoMemory;
use clause_compile::Scope;
use tree_model::AltRef;
use tree_nodes::{AltState, Nodes};

/// Adds the tasks that are out to the right of an alternative at the nodes on its way up, below a node, level by level, and
/// on each from left to right.
pub(crate) fn gather(
    nodes: &Nodes,
    at: AltRef,
    scope: Scope,
    lost: &mut Vec<LostTask>,
) -> Result<(), NoMemory>
    requires { IsSome (cell_at nodes.now.rows (place_view at)) }
    ensures { OnOk result (FindsTasks nodes.now (place_view at) (scope_number scope) (map task_view lost.old.items) (map task_view lost.new.items)) }
{
    let (Scope::Node(number) | Scope::Local(number)) = scope;
    if at.node == number {
        return Ok(());
    }
    let mut left = nodes.live();
    // So many nodes below one on the way up.
    let mut depth = 0u64;
    let mut next = right_of(nodes, at);
    loop {
        match push_tasks(nodes, next, lost)? {
            Some(node) => {
                left -= 1;
                depth += 1;
                next = AltRef {
                    node,
                    alternative: 0,
                };
            }
            None => match up_from(nodes.parent(next.node), depth, number) {
                Some(above) => {
                    depth = depth.saturating_sub(1);
                    next = right_of(nodes, above);
                }
                None => return Ok(()),
            },
        }
    }
}

fn right_of(nodes: &Nodes, at: AltRef) -> AltRef
    requires { IsSome (cell_at nodes.now.rows (place_view at)) }
    ensures node { result.node ≡ at.node }
    ensures alternative { result.alternative ≡ at.alternative + 1 }
{
    let _width = nodes.width(at.node);
    AltRef {
        node: at.node,
        alternative: at.alternative + 1,
    }
}

// The alternative to the right of which to go on: none where a node on the way up is below the scope.
fn up_from(above: Option<AltRef>, depth: u64, scope: u64) -> Option<AltRef>
    ensures { parent_view result ≡ going_up depth scope (parent_view above) }
{
    match above {
        Some(at) if depth == 0 && at.node == scope => None,
        _ => above,
    }
}

// Adds the tasks that are out at a node, from an alternative on, as far as the next one below which a node is; and that
// node.
fn push_tasks(
    nodes: &Nodes,
    from: AltRef,
    lost: &mut Vec<LostTask>,
) -> Result<Option<u64>, NoMemory>
    ensures turns { IfOk result (λ below. TurnsTo nodes.now from.node from.alternative (map task_view lost.old.items) (map task_view lost.new.items) below) }
    ensures deeper { IfOk result (λ below. IsDeeper nodes.now.rows from.node below) }
{
    let node = from.node;
    let width = nodes.width(node);
    for alternative in from.alternative..width {
        let at = AltRef { node, alternative };
        if let Some(below) = nodes.below(at) {
            return Ok(Some(below));
        }
        push_task(nodes, at, lost)?;
    }
    Ok(None)
}

// Adds the task that is out at an alternative, if one is.
fn push_task(nodes: &Nodes, at: AltRef, lost: &mut Vec<LostTask>) -> Result<(), NoMemory>
    requires { IsSome (cell_at nodes.now.rows (place_view at)) }
    ensures { OnOk result (map task_view lost.new.items ≡ map task_view lost.old.items ++ tasks_here (place_view at) (cell_at nodes.now.rows (place_view at))) }
{
    if let AltState::Taken(worker) = nodes.state(at) {
        lost.push(LostTask {
            worker: *worker,
            at,
        })?;
    }
    Ok(())
}
