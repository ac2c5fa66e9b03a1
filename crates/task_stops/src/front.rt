//! What comes first at an alternative.
ghost use Rattle.std.specs.Prelude.{◌≡◌, true, is_some, IsSome, Some, slice_get};
ghost use Rattle.std.specs.Option.{option_copied};
ghost use Rattle.tree_model.specs.EventViews.{place_view};
ghost use Rattle.tree_nodes.specs.Rows.{row_of_node};
ghost use Rattle.task_region.specs.PlacesUp.{body_at, items_at_place};
ghost use Rattle.task_stops.specs.FrontCuts.{scope_in_front};

use clause_compile::{Branch, Goals, Item, Scope};
use tree_model::AltRef;
use tree_nodes::Nodes;

/// The branch of an alternative.
pub(crate) fn branch_of(nodes: &Nodes, at: AltRef) -> Option<&Branch>
    requires { IsSome (row_of_node nodes.now.rows at.node) }
    ensures { option_copied result ≡ slice_get (body_at nodes.now.rows (place_view at)).branches at.alternative }
{
    nodes.body(at.node).branches.get(at.alternative as usize)
}

/// The scope of an alternative's first goal, past the ends of catches.
pub(crate) fn scope_at(nodes: &Nodes, at: AltRef) -> Scope
    requires there { IsSome (row_of_node nodes.now.rows at.node) }
    requires goal { is_some (scope_in_front (items_at_place nodes.now.rows (place_view at))) ≡ true }
    ensures { scope_in_front (items_at_place nodes.now.rows (place_view at)) ≡ Some result }
{
    match branch_of(nodes, at) {
        Some(branch) => first_scope(&branch.goals),
        None => unreachable!(),
    }
}

// A goal is there.
fn first_scope(goals: &Goals) -> Scope
    requires { is_some (scope_in_front goals.now) ≡ true }
    ensures { scope_in_front goals.now ≡ Some result }
{
    match scope_of(goals) {
        Some(scope) => scope,
        None => unreachable!(),
    }
}

fn scope_of(goals: &Goals) -> Option<Scope>
    ensures { result ≡ scope_in_front goals.now }
{
    for item in goals.items() {
        match item {
            Item::Goal { cut, .. } => return Some(*cut),
            Item::CatchEnd(_) => {}
            Item::Collect { .. } | Item::Remove(_) | Item::End(_) => return None,
        }
    }
    None
}
