//! Laws of the queries of a tree: each function does nothing, and its contract is the law.
ghost use Rattle.query_laws.specs.QueriesCounted.{AllAreAbove, EndsOpenQueries, EventsCountQueries, HistoriesCountQueries, NextIsTold};

use interleaving::laws::trees::events_keep_trees;

/// All nodes of queries are on the way down to whatever is pending.
pub fn queries_are_above()
    ensures { AllAreAbove }
{}

/// No event but the end of a query that is taken at the front opens a query.
pub fn ends_open_queries()
    ensures { EndsOpenQueries }
{}

/// Every event keeps that the queries which are left are those of the job after as many as the tree has nodes of queries; so
/// every legal history of a countable budget has it.
pub fn queries_are_counted()
    ensures event { EventsCountQueries }
    ensures history { HistoriesCountQueries }
{
    events_keep_trees();
}

/// After a legal history the next query of the job is the one after as many as there are nodes of queries on the way down to
/// whatever is pending.
pub fn next_query_is_told()
    ensures { NextIsTold }
{
    events_keep_trees();
}
