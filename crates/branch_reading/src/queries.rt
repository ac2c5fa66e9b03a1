//! The nodes of queries.
ghost use Rattle.std.specs.Prelude.{◌≡◌, ◌∷◌, [], None, IfOk};
ghost use Rattle.std.specs.Arc.{arc_value};
ghost use Rattle.clause_compile.specs.declared.item.Item.TheVariants.{End};
ghost use Rattle.tree_closing.specs.Closings.{IsSingle};
ghost use Rattle.tree_nodes.specs.Bodies.{IsWhole, body_view};
ghost use Rattle.branch_reading.specs.QueryNodes.{MakesQueryNode, IsQueryBody, ReadsAsEnd};

use au_term::{Bindings, NoMemory, Segment};
use clause_compile::{Branch, Goals, Item};
use std::alloc::Global;
use std::sync::Arc;
use tree_closing::body_of_one;
use tree_nodes::{NodeBody, NodeKind};

/// What the node of a query is made from: its goals, whose cuts cut to the node, and the number of its variables.
pub fn query_body(alloc: Global, goals: Goals, vars: u64) -> Result<Arc<NodeBody>, NoMemory>
    ensures opens { IfOk result (λ body. MakesQueryNode goals vars (body_view (arc_value body))) }
    ensures query { IfOk result (λ body. IsQueryBody (body_view (arc_value body))) }
    ensures whole { IfOk result (λ body. IsWhole (body_view (arc_value body))) }
{
    let mut branches = Vec::new(alloc);
    branches.push(Branch {
        goals,
        segment: segment_of(alloc, vars),
    })?;
    branches.push(end_branch(alloc)?)?;
    Ok(Arc::new(
        alloc,
        NodeBody {
            segment: Arc::new(alloc, segment_of(alloc, 0))?,
            branches,
            kind: NodeKind::Query,
        },
    )?)
}

/// What a query's end is woken as, below its node.
pub fn end_body(alloc: Global) -> Result<Arc<NodeBody>, NoMemory>
    ensures single { IfOk result (λ body. IsSingle (body_view (arc_value body))) }
    ensures reads { IfOk result (λ body. ReadsAsEnd (body_view (arc_value body))) }
{
    let branch = end_branch(alloc)?;
    body_of_one(alloc, 0, branch)
}

// A branch on which a query ends.
fn end_branch(alloc: Global) -> Result<Branch, NoMemory>
    ensures { IfOk result (λ branch. branch.goals ≡ End None ∷ []) }
{
    let goals = Goals::empty().push(alloc, Item::End(None))?;
    Ok(Branch {
        goals,
        segment: segment_of(alloc, 0),
    })
}

// So many variables from 0 on, with nothing bound.
fn segment_of(alloc: Global, vars: u64) -> Segment
    ensures { result ≡ record { base = 0; vars = vars; bindings = [] } }
{
    Segment {
        base: 0,
        vars,
        bindings: Bindings::new(alloc),
    }
}
