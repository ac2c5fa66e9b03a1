//! The way up from an alternative.
ghost use Rattle.std.specs.Prelude.{◌≡◌, ◌≤◌, ◌++◌, false, IfOk, IfSome, IsSome, OnOk, length, map, reverse};
ghost use Rattle.tree_model.specs.EventViews.{place_view};
ghost use Rattle.tree_nodes.specs.Bodies.{kind_view};
ghost use Rattle.tree_nodes.specs.Rows.{row_of_node};
ghost use Rattle.task_region.specs.PlacesUp.{AreAllUp, AreAtNodes, HaveNoQuery, IsQueryPart, LeadsBelow, is_query_body};
ghost use Rattle.tree_model.specs.declared.places.AltRef.{AltRef};

use au_term::NoMemory;
use std::alloc::Global;
use tree_model::AltRef;
use tree_nodes::{NodeKind, Nodes};

/// The places on the way up from an alternative, the innermost first.
pub fn places_up(nodes: &Nodes, at: AltRef, alloc: Global) -> Result<Vec<AltRef>, NoMemory>
    requires { IsSome (row_of_node nodes.now.rows at.node) }
    ensures { IfOk result (λ places. AreAllUp nodes.now.rows (place_view at) (map place_view places.items)) }
{
    let mut places = Vec::new(alloc);
    let mut next = Some(at);
    while let Some(place) = next {
        places.push(place)?;
        next = nodes.parent(place.node);
    }
    Ok(places)
}

/// The places on the way up from an alternative as far as below another one, the innermost first; none where it is not below that.
pub(crate) fn places_below(
    nodes: &Nodes,
    at: AltRef,
    above: AltRef,
    alloc: Global,
) -> Result<Option<Vec<AltRef>>, NoMemory>
    requires { IsSome (row_of_node nodes.now.rows at.node) }
    ensures { IfOk result (λ found. IfSome found (λ places. LeadsBelow nodes.now.rows (map place_view places.items) (place_view at) (place_view above))) }
{
    let mut places = Vec::new(alloc);
    let mut next = Some(at);
    while let Some(place) = next {
        if place.node == above.node && place.alternative == above.alternative {
            return Ok(Some(places));
        }
        if place.node <= above.node {
            return Ok(None);
        }
        places.push(place)?;
        next = nodes.parent(place.node);
    }
    Ok(None)
}

/// The numbers of the nodes at places are put behind others, those of the last place first.
pub(crate) fn push_numbers(numbers: &mut Vec<u64>, places: &[AltRef]) -> Result<(), NoMemory>
    ensures { OnOk result (numbers.new.items ≡ numbers.old.items ++ reverse (map (λ (a : AltRef). a.node) places.now)) }
{
    let mut left = places.len();
    while 0 < left {
        left -= 1;
        numbers.push(places[left].node)?;
    }
    Ok(())
}

/// Whether a query begins at one of the places.
pub(crate) fn has_query(nodes: &Nodes, places: &[AltRef]) -> bool
    requires { AreAtNodes nodes.now.rows (map place_view places.now) }
    ensures { result ≡ false → HaveNoQuery nodes.now.rows (map place_view places.now) }
{
    for place in places {
        if is_query(&nodes.body(place.node).kind) {
            return true;
        }
    }
    false
}

/// How many of the places up a branch are those from its query on.
pub(crate) fn query_part(nodes: &Nodes, places: &[AltRef]) -> usize
    requires { AreAtNodes nodes.now.rows (map place_view places.now) }
    ensures within { result ≤ length places.now }
    ensures part { IsQueryPart nodes.now.rows (map place_view places.now) result }
{
    let mut count = 0;
    for place in places {
        count += 1;
        if is_query(&nodes.body(place.node).kind) {
            return count;
        }
    }
    count
}

fn is_query(kind: &NodeKind) -> bool
    ensures { result ≡ is_query_body (kind_view kind.now) }
{
    matches!(kind, NodeKind::Query)
}
