//! The goals of a query in a node of the tree.
ghost use Rattle.std.specs.Prelude.{◌≡◌, IfOk};
ghost use Rattle.branch_reading.specs.QueryNodes.{goals_in};
ghost use Rattle.text_load.specs.QueryView.{goal_terms};
ghost use Rattle.tree_core.specs.Openings.{IsQueryAt};

use au_term::{NoMemory, Shared};
use clause_compile::{Goals, Item, Scope};
use std::alloc::Global;
use text_load::Query;
use tree_core::QueryGoals;

/// From what the node of this number is made that is a query's.
pub fn query_goals(alloc: Global, query: &Query, node: u64) -> Result<QueryGoals, NoMemory>
    ensures { IfOk result (λ given. IsQueryAt node query.now given) }
{
    let terms = terms_of(alloc, query.goals())?;
    let goals = goals_below(alloc, &terms, node)?;
    Ok(QueryGoals {
        goals,
        vars: query.vars(),
    })
}

/// The terms of goals, shared.
fn terms_of(alloc: Global, goals: &Goals) -> Result<Vec<Shared>, NoMemory>
    ensures { IfOk result (λ terms. terms.items ≡ goal_terms goals.now) }
{
    let mut terms = Vec::new(alloc);
    for item in goals.items() {
        if let Item::Goal { term, cut: _ } = item {
            terms.push(term.share()?)?;
        }
    }
    Ok(terms)
}

/// Goals whose cuts cut to a node.
fn goals_below(alloc: Global, terms: &[Shared], node: u64) -> Result<Goals, NoMemory>
    ensures { IfOk result (λ goals. goals ≡ goals_in node terms.now) }
{
    let mut goals = Goals::empty();
    let mut left = terms.len();
    while left > 0 {
        left -= 1;
        let term = terms[left].share()?;
        let cut = Scope::Node(node);
        goals = goals.push(alloc, Item::Goal { term, cut })?;
    }
    Ok(goals)
}
