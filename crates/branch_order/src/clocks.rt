//! What was counted on a branch and to its left.
ghost use Rattle.std.specs.Prelude.{◌≡◌, IsSome};
ghost use Rattle.tree_model.specs.EventViews.{place_view};
ghost use Rattle.tree_nodes.specs.Rows.{cell_at, alternatives_at, row_of_node};
ghost use Rattle.branch_order.specs.Clocks.{CountsBranch, HasClock};
ghost use Rattle.tree_nodes.specs.Fronts.{counts_beside};
ghost use Rattle.tree_nodes.specs.Siblings.{counts_in, counts_from};

use crate::left::{at_front, passed_left};
use tree_model::AltRef;
use tree_nodes::{AltState, Nodes};

/// The inferences spent on the way down to an alternative, and those of all credits to its left, where all there has
/// closed.
pub fn clock(nodes: &Nodes, at: AltRef) -> u64
    requires { IsSome (cell_at nodes.now.rows (place_view at)) }
    ensures { HasClock nodes.now (place_view at) result }
{
    let (_answers, inferences) = counts(nodes, at);
    inferences
}

/// The answers to the left of an alternative, and its clock, where all to its left has closed.
pub fn counts(nodes: &Nodes, at: AltRef) -> (u64, u64)
    requires { IsSome (cell_at nodes.now.rows (place_view at)) }
    ensures { CountsBranch nodes.now (place_view at) result.0 result.1 }
{
    let front = nodes.front();
    let mut next = Some(at);
    let mut answers = 0u64;
    let mut inferences = 0u64;
    while let Some(here) = next {
        let (given, taken) = counts_left(nodes, here);
        answers = given.saturating_add(answers);
        inferences = taken
            .saturating_add(nodes.spent(here))
            .saturating_add(inferences);
        if let Some(top) = at_front(front, here.node) {
            return (
                top.answers.saturating_add(answers),
                top.inferences.saturating_add(inferences),
            );
        }
        next = nodes.parent(here.node);
    }
    (answers, inferences)
}

// The answers and inferences of what has closed to the left at a node.
fn counts_left(nodes: &Nodes, at: AltRef) -> (u64, u64)
    requires { IsSome (cell_at nodes.now.rows (place_view at)) }
    ensures { result ≡ counts_beside nodes.now.rows (place_view at) }
{
    let passed = passed_left(nodes, at);
    let mut answers = passed.answers;
    let mut inferences = passed.inferences;
    for alternative in passed.many as u32..at.alternative {
        let left = AltRef {
            node: at.node,
            alternative,
        };
        let (given, taken) = counts_at(nodes, left);
        answers = answers.saturating_add(given);
        inferences = inferences.saturating_add(taken);
    }
    (answers, inferences)
}

/// The answers and inferences of what has closed at a node.
pub fn counts_of(nodes: &Nodes, node: u64) -> (u64, u64)
    ensures { result ≡ counts_from (0, 0) (alternatives_at (row_of_node nodes.now.rows node)) }
{
    let width = nodes.width(node);
    let passed = nodes.passed(node);
    let mut answers = passed.answers;
    let mut inferences = passed.inferences;
    for alternative in passed.many as u32..width {
        let (given, taken) = counts_at(nodes, AltRef { node, alternative });
        answers = answers.saturating_add(given);
        inferences = inferences.saturating_add(taken);
    }
    (answers, inferences)
}

fn counts_at(nodes: &Nodes, at: AltRef) -> (u64, u64)
    requires { IsSome (cell_at nodes.now.rows (place_view at)) }
    ensures { result ≡ counts_in (cell_at nodes.now.rows (place_view at)) }
{
    match nodes.state(at) {
        AltState::Closed(credit) => (credit.answers, credit.inferences),
        _ => (0, 0),
    }
}
