//! What is left behind the first goal of an alternative.
ghost use Rattle.std.specs.Prelude.{◌≡◌, IfOk};
ghost use Rattle.std.specs.Arc.{arc_value};
ghost use Rattle.tree_closing.specs.Closings.{IsSingle};
ghost use Rattle.tree_nodes.specs.Bodies.{IsWhole, body_view};
ghost use Rattle.branch_shapes.specs.RestBodies.{IsRestBody, is_mark_item, items_behind};

use au_term::{Bindings, NoMemory, Segment, VarNo};
use clause_compile::{Branch, Goals, Item};
use std::alloc::Global;
use std::sync::Arc;
use tree_closing::body_of_one;
use tree_nodes::NodeBody;

/// The body of a node with what goals leave behind the first one, past the ends of catches in front of it; no variable is taken
/// from the next number on, and none bound. It takes as many steps as ends of catches are in front.
pub fn rest_body(alloc: Global, goals: &Goals, next: VarNo) -> Result<Arc<NodeBody>, NoMemory>
    ensures rest { IfOk result (λ body. IsRestBody (items_behind goals.now) next (body_view (arc_value body))) }
    ensures single { IfOk result (λ body. IsSingle (body_view (arc_value body))) }
    ensures whole { IfOk result (λ body. IsWhole (body_view (arc_value body))) }
{
    let segment = Segment {
        base: next,
        vars: 0,
        bindings: Bindings::new(alloc),
    };
    let goals = goals_left(goals)?;
    body_of_one(alloc, next, Branch { goals, segment })
}

/// The goals behind the first one that is no end of a catch; none where there is none.
fn goals_left(goals: &Goals) -> Result<Goals, NoMemory>
    ensures { IfOk result (λ left. left ≡ items_behind goals.now) }
{
    let mut left = goals.share()?;
    loop {
        let is_mark = match left.first() {
            None => return Ok(left),
            Some(item) => is_catch_end(item),
        };
        left = left.rest()?;
        if !is_mark {
            return Ok(left);
        }
    }
}

/// Whether an item is the end of what a catch guards.
fn is_catch_end(item: &Item) -> bool
    ensures { result ≡ is_mark_item item.now }
{
    matches!(item, Item::CatchEnd(_))
}
