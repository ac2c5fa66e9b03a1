//! What wakes beside an alternative that has closed.
ghost use Rattle.std.specs.Prelude.{◌≡◌, IfOk};
ghost use Rattle.std.specs.Arc.{arc_value};
ghost use Rattle.tree_model.specs.EventViews.{place_view};
ghost use Rattle.tree_nodes.specs.Bodies.{body_view};
ghost use Rattle.tree_closing.specs.Closings.{HasSleeper};
ghost use Rattle.tree_closing.specs.Sleeping.{IsBesideSleeper};
ghost use Rattle.public_tree.specs.Opening.{opening_body};
ghost use Rattle.task_stops.specs.WokenBodies.{quiet_body, IsGivenFor, IsMadeWoken};

use crate::gather::{gather, list_item};
use au_term::{Bindings, NoMemory, Segment, VarNo};
use branch_reading::laws::numbered_trees_are_settled;
use branch_shapes::laws::{branches_read_bound, settled_segments_bind};
use clause_compile::{Branch, Goals};
use std::alloc::Global;
use std::sync::Arc;
use tree_closing::{Beside, Closing, body_of_one};
use tree_model::AltRef;
use tree_nodes::{NodeBody, NodeKind, Nodes, Records};

/// The body of the node in which what wakes where a closing rests goes on: the end of a query as it was, or what follows a findall,
/// behind a goal that unifies its list with the results and the records. None where nothing wakes.
pub fn woken_body(
    nodes: &Nodes,
    alloc: Global,
    closing: &Closing,
) -> Result<Option<Arc<NodeBody>>, NoMemory>
    requires sleeper { HasSleeper closing.now.beside nodes.now.rows (place_view closing.now.end) }
    ensures { IfOk result (λ woken. IsGivenFor nodes.now closing.now (opening_body woken)) }
{
    numbered_trees_are_settled();
    settled_segments_bind();
    branches_read_bound();
    match closing.beside {
        Beside::Same | Beside::Closes => Ok(None),
        Beside::Gathers => {
            let woken = body_beside(nodes, alloc, closing.end, &closing.credit.records)?;
            Ok(Some(woken))
        }
        Beside::Ends => {
            let woken = body_beside(nodes, alloc, closing.end, &closing.credit.records)?;
            Ok(Some(woken))
        }
    }
}

/// The body of what sleeps beside an alternative, once it wakes with records.
fn body_beside(
    nodes: &Nodes,
    alloc: Global,
    at: AltRef,
    records: &Records,
) -> Result<Arc<NodeBody>, NoMemory>
    requires { IsBesideSleeper nodes.now.rows (place_view at) }
    ensures { IfOk result (λ woken. IsMadeWoken nodes.now.rows (place_view at) records.now (body_view (arc_value woken))) }
{
    let body = nodes.body(at.node);
    let second = &body.branches[1];
    let Some(next) = second.segment.base.checked_add(second.segment.vars) else {
        return Err(NoMemory);
    };
    match &body.kind {
        NodeKind::Findall { results, list } => {
            let records = records.copied(alloc)?;
            let all = gather(alloc, results, &records, next)?;
            let item = list_item(alloc, at.node, list, &all.terms)?;
            let goals = second.goals.push(alloc, item)?;
            quiet_body(alloc, next, goals, all.next)
        }
        NodeKind::Choice => same_body(alloc, second, next),
        NodeKind::Condition => same_body(alloc, second, next),
        NodeKind::Catch { .. } => same_body(alloc, second, next),
        NodeKind::Query => same_body(alloc, second, next),
    }
}

/// The body of a node that goes on as a branch, from its next variable number on.
fn same_body(alloc: Global, branch: &Branch, next: VarNo) -> Result<Arc<NodeBody>, NoMemory>
    ensures { IfOk result (λ body. body_view (arc_value body) ≡ quiet_body next branch.now.goals next) }
{
    quiet_body(alloc, next, branch.goals.share()?, next)
}

/// The body of a node whose one branch has these goals and binds nothing, from one next variable number to another.
fn quiet_body(
    alloc: Global,
    base: VarNo,
    goals: Goals,
    next: VarNo,
) -> Result<Arc<NodeBody>, NoMemory>
    ensures { IfOk result (λ body. body_view (arc_value body) ≡ quiet_body base goals next) }
{
    let segment = Segment {
        base: next,
        vars: 0,
        bindings: Bindings::new(alloc),
    };
    body_of_one(alloc, base, Branch { goals, segment })
}
