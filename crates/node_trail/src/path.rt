//! The way from one alternative to another.
ghost use Rattle.std.specs.Prelude.{◌≡◌, [], ◌∷◌, ◌++◌, Some, OnOk, IfOk, IsSome};
ghost use Rattle.tree_model.specs.EventViews.{place_view};
ghost use Rattle.tree_nodes.specs.Folds.{IsAbove};
ghost use Rattle.tree_nodes.specs.RowViews.{parent_view};
ghost use Rattle.tree_nodes.specs.Rows.{node_parent, cell_at};
ghost use Rattle.node_trail.specs.Trails.{node_segment, place_segment, IsPathBetween};

use crate::legs::{Leg, Legs};
use au_term::NoMemory;
use std::sync::Arc;
use tree_model::AltRef;
use tree_nodes::Nodes;

/// What is left on the way up, in this order, and what is entered on the way down.
#[derive(Drop)]
pub struct Path {
    pub leave: Legs,
    pub enter: Legs,
}

/// The way from one alternative to another.
pub fn path_between(nodes: &Nodes, from: AltRef, to: AltRef) -> Result<Path, NoMemory>
    requires first { IsSome (cell_at nodes.now.rows (place_view from)) }
    requires second { IsSome (cell_at nodes.now.rows (place_view to)) }
    ensures { IfOk result (λ path. IsPathBetween nodes.now (place_view from) (place_view to) path.leave path.enter) }
{
    let alloc = nodes.allocator();
    let mut first = from;
    let mut second = to;
    let mut leave = Legs::new(alloc);
    let mut enter = Legs::new(alloc);
    while first.node != second.node {
        if second.node < first.node {
            let Some(above) = leave_node(nodes, first, &mut leave)? else {
                return Ok(Path { leave, enter });
            };
            first = above;
        } else {
            let Some(above) = leave_node(nodes, second, &mut enter)? else {
                return Ok(Path { leave, enter });
            };
            second = above;
        }
    }
    if first.alternative != second.alternative {
        leave.push(branch(nodes, first)?)?;
        enter.push(branch(nodes, second)?)?;
    }
    let enter = enter.turned(alloc)?;
    Ok(Path { leave, enter })
}

// Leaves a branch and its node, for the alternative above.
fn leave_node(nodes: &Nodes, at: AltRef, legs: &mut Legs) -> Result<Option<AltRef>, NoMemory>
    requires { IsSome (cell_at nodes.now.rows (place_view at)) }
    ensures legs { OnOk result (legs.new ≡ legs.old ++ place_segment nodes.now.rows (place_view at) ∷ node_segment nodes.now.rows at.node ∷ []) }
    ensures parent { IfOk result (λ above. node_parent nodes.now.rows at.node ≡ Some (parent_view above)) }
    ensures above { IfOk result (λ above. IsAbove nodes.now.rows (parent_view above) at.node) }
{
    legs.push(branch(nodes, at)?)?;
    legs.push(Leg::node(Arc::clone(nodes.body(at.node))?))?;
    Ok(nodes.parent(at.node))
}

fn branch(nodes: &Nodes, at: AltRef) -> Result<Leg, NoMemory>
    requires { IsSome (cell_at nodes.now.rows (place_view at)) }
    ensures { IfOk result (λ leg. leg ≡ place_segment nodes.now.rows (place_view at)) }
{
    let body = Arc::clone(nodes.body(at.node))?;
    Ok(Leg::branch(body, at.alternative as usize))
}
