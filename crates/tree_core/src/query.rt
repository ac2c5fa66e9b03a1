//! Queries that are opened.
ghost use Rattle.std.specs.Prelude.{IfOk};
ghost use Rattle.public_tree.specs.Opening.{opening_body, IsWholeBody};
ghost use Rattle.tree_core.specs.Openings.{IsMadeFirst};

use au_term::NoMemory;
use branch_reading::query_body;
use clause_compile::Goals;
use std::alloc::Global;
use std::sync::Arc;
use tree_nodes::NodeBody;

/// What the node of a query is made from: its goals, whose cuts cut to that node, and the number of its variables.
#[derive(Drop)]
pub struct QueryGoals {
    pub goals: Goals,
    pub vars: u64,
}

/// From what the node of the first query is made, if there is one.
pub(crate) fn first_body(
    alloc: Global,
    first: Option<QueryGoals>,
) -> Result<Option<Arc<NodeBody>>, NoMemory>
    ensures made { IfOk result (λ body. IsMadeFirst first (opening_body body)) }
    ensures whole { IfOk result (λ body. IsWholeBody (opening_body body)) }
{
    match first {
        Some(QueryGoals { goals, vars }) => Ok(Some(query_body(alloc, goals, vars)?)),
        None => Ok(None),
    }
}
