//! A ball lands.
ghost use Rattle.std.specs.Prelude.{◌≡◌, IsSome, OnOk, OnErr};
ghost use Rattle.std.specs.Arc.{arc_value};
ghost use Rattle.tree_model.specs.EventViews.{place_view};
ghost use Rattle.tree_nodes.specs.Bodies.{IsWhole, body_view};
ghost use Rattle.tree_nodes.specs.Changes.{IsLonger};
ghost use Rattle.tree_nodes.specs.Rows.{cell_at, credit_view};
ghost use Rattle.tree_nodes.specs.Staying.{StayMade};
ghost use Rattle.tree_closing.specs.Sleeping.{IsBesideSleeper};
ghost use Rattle.prune_ops.specs.Falls.{LandsBeside};

use crate::landing::Landing;
use au_term::NoMemory;
use std::sync::Arc;
use tree_model::AltRef;
use tree_nodes::{AltState, NodeBody, Nodes};

/// The place where a ball lands closes, and what the ball leaves goes on below a new node in place of what slept beside it.
pub fn land(nodes: &mut Nodes, landing: Landing, body: Arc<NodeBody>) -> Result<(), NoMemory>
    requires there { IsSome (cell_at nodes.old.rows (place_view landing.end)) }
    requires sleeper { IsBesideSleeper nodes.old.rows (place_view landing.end) }
    requires whole { IsWhole (body_view (arc_value body)) }
    ensures lands { OnOk result (LandsBeside nodes.old nodes.new (place_view landing.end) (credit_view landing.credit) (body_view (arc_value body))) }
    ensures grown { OnOk result (IsLonger nodes.old nodes.new) }
    ensures err { OnErr result (nodes.new ≡ nodes.old) }
    ensures made { StayMade nodes.old.rows nodes.new.rows }
{
    // The proof reads off that there is a tree.
    let _live = nodes.live();
    let Landing { end, credit } = landing;
    let second = AltRef {
        node: end.node,
        alternative: 1,
    };
    let number = nodes.add(Some(second), body)?;
    nodes.set(second, AltState::Inner(number), 0);
    let spent = nodes.spent(end);
    nodes.set(end, AltState::Closed(credit), spent);
    Ok(())
}
