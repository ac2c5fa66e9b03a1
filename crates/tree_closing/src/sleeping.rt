//! What sleeps beside an alternative.
ghost use Rattle.std.specs.Prelude.{◌≡◌, IsSome};
ghost use Rattle.tree_model.specs.EventViews.{place_view};
ghost use Rattle.tree_nodes.specs.Rows.{cell_at, cell_view};
ghost use Rattle.tree_closing.specs.Sleeping.{Sleeps, IsThereWhere, is_asleep, is_asleep_at};

use tree_model::AltRef;
use tree_nodes::{AltState, NodeKind, Nodes};

/// What sleeps to the right of a first alternative.
#[derive(Clone, Copy, Debug, PartialEq, Eq)]
pub(crate) enum Sleeping {
    Nothing,
    /// The recovery of a catch.
    Recovery,
    /// What follows a findall.
    Following,
    /// The end of a query.
    QueryEnd,
}

/// What sleeps beside an alternative.
pub(crate) fn sleeper_beside(nodes: &Nodes, at: AltRef) -> Sleeping
    requires { IsSome (cell_at nodes.now.rows (place_view at)) }
    ensures sleeps { Sleeps nodes.now (place_view at) result }
    ensures there { IsThereWhere result nodes.now.rows (place_view at) }
{
    let second = AltRef {
        node: at.node,
        alternative: 1,
    };
    if at.alternative != 0 || !is_asleep(nodes, second) {
        return Sleeping::Nothing;
    }
    match &nodes.body(at.node).kind {
        NodeKind::Choice => Sleeping::Nothing,
        NodeKind::Condition => Sleeping::Nothing,
        NodeKind::Catch { .. } => Sleeping::Recovery,
        NodeKind::Findall { .. } => Sleeping::Following,
        NodeKind::Query => Sleeping::QueryEnd,
    }
}

fn is_asleep(nodes: &Nodes, at: AltRef) -> bool
    ensures { result ≡ is_asleep_at (cell_at nodes.now.rows (place_view at)) }
{
    nodes.has_alternative(at) && is_dormant(nodes.state(at))
}

fn is_dormant(state: &AltState) -> bool
    ensures { result ≡ is_asleep (cell_view state.now) }
{
    matches!(state, AltState::Dormant)
}
