//! Where a ball lands.
ghost use Rattle.std.specs.Prelude.{◌≡◌, IfOk, IsSome, map};
ghost use Rattle.std.specs.Arc.{arc_value};
ghost use Rattle.tree_model.specs.EventViews.{place_view};
ghost use Rattle.tree_nodes.specs.Bodies.{body_view, kind_view};
ghost use Rattle.tree_nodes.specs.Rows.{cell_at};
ghost use Rattle.task_region.specs.PlacesUp.{is_query_body};
ghost use Rattle.task_stops.specs.Landings.{AreReadableBeside};
ghost use Rattle.task_stops.specs.LandingBodies.{IsEndBody, query_up};
ghost use Rattle.task_stops.specs.FoundLandings.{FindsCaught, HasReadableCatches, LandsBall, LeadToTop};

use crate::catches::{catch_behind, next_catch};
use crate::recovery::recovery_body;
use au_model::copies::copy_term;
use au_term::{Bindings, FlatTerm, NoMemory, Segment};
use clause_compile::{Branch, Goals, Item, Scope};
use region_split::Text;
use std::alloc::Global;
use std::sync::Arc;
use task_region::places_up;
use tree_closing::body_of_one;
use tree_model::AltRef;
use tree_nodes::{NodeBody, NodeKind, Nodes};

/// Where a ball lands, and the body of the node in which what it leaves goes on.
#[derive(Drop)]
pub struct BallLanding {
    pub scope: Scope,
    pub body: Arc<NodeBody>,
}

/// Where a ball lands that the first goal of an alternative throws, and what it leaves there.
pub fn land_ball(
    nodes: &Nodes,
    at: AltRef,
    alloc: Global,
    ball: &FlatTerm,
    text: &Arc<Text>,
) -> Result<BallLanding, NoMemory>
    requires there { IsSome (cell_at nodes.now.rows (place_view at)) }
    requires readable { HasReadableCatches nodes.now.rows (place_view at) }
    ensures { IfOk result (LandsBall nodes.now.rows (place_view at) ball.now) }
{
    let places = places_up(nodes, at, alloc)?;
    let first = catch_behind(&nodes.body(at.node).branches[at.alternative as usize].goals);
    match caught_up(nodes, &places, first, alloc, ball, text)? {
        Some(landing) => Ok(landing),
        None => Ok(BallLanding {
            scope: Scope::Node(query_up(nodes, &places)),
            body: end_body(alloc, ball)?,
        }),
    }
}

/// Where a ball is taken on the way up, from catch to catch.
fn caught_up(
    nodes: &Nodes,
    places: &[AltRef],
    first: Option<u64>,
    alloc: Global,
    ball: &FlatTerm,
    text: &Arc<Text>,
) -> Result<Option<BallLanding>, NoMemory>
    requires up { LeadToTop nodes.now.rows (map place_view places.now) }
    requires readable { AreReadableBeside nodes.now.rows (map place_view places.now) }
    ensures { IfOk result (FindsCaught nodes.now.rows (map place_view places.now) ball.now first) }
{
    let mut mark = first;
    for index in 0..places.len() {
        let place = places[index];
        if mark == Some(place.node) {
            let above = &places[index + 1..];
            if let Some(body) = recovery_body(nodes, place, above, alloc, ball, text)? {
                let scope = Scope::Node(place.node);
                return Ok(Some(BallLanding { scope, body }));
            }
            mark = next_catch(nodes, place);
        }
    }
    Ok(None)
}

/// The node of the innermost query on the way up.
fn query_up(nodes: &Nodes, places: &[AltRef]) -> u64
    requires { LeadToTop nodes.now.rows (map place_view places.now) }
    ensures { result ≡ query_up nodes.now.rows (map place_view places.now) }
{
    for place in places {
        if is_query(&nodes.body(place.node).kind) {
            return place.node;
        }
    }
    0
}

fn is_query(kind: &NodeKind) -> bool
    ensures { result ≡ is_query_body (kind_view kind.now) }
{
    matches!(kind, NodeKind::Query)
}

/// The body of the end of a query with a ball.
fn end_body(alloc: Global, ball: &FlatTerm) -> Result<Arc<NodeBody>, NoMemory>
    ensures { IfOk result (λ body. IsEndBody ball.now (body_view (arc_value body))) }
{
    let (ball, _takes) = copy_term(alloc, ball, 0)?;
    let goals = Goals::empty().push(alloc, Item::End(Some(ball)))?;
    let segment = Segment {
        base: 0,
        vars: 0,
        bindings: Bindings::new(alloc),
    };
    body_of_one(alloc, 0, Branch { goals, segment })
}
