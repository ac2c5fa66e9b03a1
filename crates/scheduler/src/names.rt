//! The names of an alternative's query.
ghost use Rattle.std.specs.Prelude.{◌≡◌, IfOk, IsSome, map};
ghost use Rattle.au_model.specs.Terms.Named.{variable_meant};
ghost use Rattle.task_region.specs.PlacesUp.{AreAtNodes, branching_at};
ghost use Rattle.branch_reading.specs.Readings.{named_of, queries_on, query_count};
ghost use Rattle.run_model.specs.Programs.Jobs.{own_terms};
ghost use Rattle.tree_model.specs.EventViews.{place_view};
ghost use Rattle.tree_nodes.specs.Bodies.{kind_view};
ghost use Rattle.tree_nodes.specs.Rows.{row_of_node};
ghost use Rattle.scheduler.specs.QueryNames.{AreOpenedOn, last_opened};

use au_model::VarName;
use au_term::NoMemory;
use std::alloc::Global;
use task_region::places_up;
use text_load::Query;
use tree_model::AltRef;
use tree_nodes::{NodeKind, Nodes};

/// How many queries were opened on the way up from an alternative.
pub(crate) fn opened_on(nodes: &Nodes, at: AltRef, alloc: Global) -> Result<usize, NoMemory>
    requires { IsSome (row_of_node nodes.now.rows at.node) }
    ensures { IfOk result (AreOpenedOn nodes.now.rows (place_view at)) }
{
    let places = places_up(nodes, at, alloc)?;
    Ok(count_queries(nodes, &places))
}

/// How many of the nodes of places are those of queries.
fn count_queries(nodes: &Nodes, places: &[AltRef]) -> usize
    requires { AreAtNodes nodes.now.rows (map place_view places.now) }
    ensures { result ≡ queries_on (branching_at nodes.now.rows (map place_view places.now)) }
{
    let mut count = 0;
    for place in places {
        count += queries_of(&nodes.body(place.node).kind);
    }
    count
}

/// 1 for the node of a query, and 0 for others.
fn queries_of(kind: &NodeKind) -> usize
    ensures { result ≡ query_count (kind_view kind.now) }
{
    match kind {
        NodeKind::Query => 1,
        _ => 0,
    }
}

/// The names of the query that was opened last, of so many.
pub(crate) fn names_of(queries: &[Query], count: usize) -> &[VarName]
    ensures { own_terms (map variable_meant result.now) ≡ named_of (last_opened count queries.now) }
{
    if count == 0 || queries.len() < count {
        return &[];
    }
    queries[count - 1].names()
}
