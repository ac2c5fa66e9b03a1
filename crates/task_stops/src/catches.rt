//! Catches of a branch.
ghost use Rattle.std.specs.Prelude.{◌≡◌, IsSome};
ghost use Rattle.tree_model.specs.EventViews.{place_view};
ghost use Rattle.tree_nodes.specs.Rows.{cell_at, cell_view, row_of_node, scope_number};
ghost use Rattle.tree_closing.specs.Sleeping.{is_asleep, is_asleep_at, right_of};
ghost use Rattle.branch_shapes.specs.RestBodies.{items_behind};
ghost use Rattle.task_stops.specs.Landings.{innermost_catch, is_beside_sleeper, next_catch};

use clause_compile::{Goals, Item, Scope};
use tree_model::AltRef;
use tree_nodes::{AltState, NodeKind, Nodes};

/// The node of the catch whose guarded goals end first among goals.
pub(crate) fn innermost_catch(goals: &Goals) -> Option<u64>
    ensures { result ≡ innermost_catch goals.now }
{
    for item in goals.items() {
        if let Item::CatchEnd(scope) = item {
            return Some(number_of(*scope));
        }
    }
    None
}

/// The same behind the first goal.
pub(crate) fn catch_behind(goals: &Goals) -> Option<u64>
    ensures { result ≡ innermost_catch (items_behind goals.now) }
{
    let mut behind = false;
    for item in goals.items() {
        match item {
            Item::CatchEnd(scope) => {
                if behind {
                    return Some(number_of(*scope));
                }
            }
            Item::Goal { .. } | Item::Collect { .. } | Item::Remove(_) | Item::End(_) => {
                behind = true;
            }
        }
    }
    None
}

fn number_of(scope: Scope) -> u64
    ensures { result ≡ scope_number scope }
{
    match scope {
        Scope::Node(number) | Scope::Local(number) => number,
    }
}

/// The second alternative of a place's node.
pub(crate) fn beside(at: AltRef) -> AltRef
    ensures { place_view result ≡ right_of (place_view at) }
{
    AltRef {
        node: at.node,
        alternative: 1,
    }
}

/// Whether something sleeps beside a place.
pub(crate) fn is_beside_sleeper(nodes: &Nodes, at: AltRef) -> bool
    ensures { result ≡ is_beside_sleeper nodes.now.rows (place_view at) }
{
    at.alternative == 0 && is_asleep(nodes, beside(at))
}

fn is_asleep(nodes: &Nodes, at: AltRef) -> bool
    ensures { result ≡ is_asleep_at (cell_at nodes.now.rows (place_view at)) }
{
    nodes.has_alternative(at) && is_dormant(nodes.state(at))
}

fn is_dormant(state: &AltState) -> bool
    ensures { result ≡ is_asleep (cell_view state.now) }
{
    matches!(state, AltState::Dormant)
}

/// The catch that is looked for next where that of a place does not take the ball.
pub(crate) fn next_catch(nodes: &Nodes, at: AltRef) -> Option<u64>
    requires { IsSome (row_of_node nodes.now.rows at.node) }
    ensures { result ≡ next_catch nodes.now.rows (place_view at) }
{
    if !is_beside_sleeper(nodes, at) {
        return None;
    }
    let body = nodes.body(at.node);
    match &body.kind {
        NodeKind::Catch { .. } => innermost_catch(&body.branches[1].goals),
        NodeKind::Choice | NodeKind::Condition | NodeKind::Findall { .. } | NodeKind::Query => None,
    }
}
