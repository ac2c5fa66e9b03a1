//! Where a ball lands, and with what is left of the levels below.
ghost use Rattle.std.specs.Prelude.{◌≡◌, IsSome, IfOk, OnOk, take};
ghost use Rattle.std.specs.Bool.{OnTrue, OnFalse};
ghost use Rattle.tree_model.specs.EventViews.{place_view};
ghost use Rattle.tree_model.specs.Pruning.{is_findall};
ghost use Rattle.tree_nodes.specs.Bodies.{kind_view, node_kind};
ghost use Rattle.tree_nodes.specs.Gathering.{add_left, with_left};
ghost use Rattle.tree_nodes.specs.Rows.{row_of_node, alternatives_at, cell_at, cell_view, scope_number};
ghost use Rattle.tree_closing.specs.Sleeping.{IsBesideSleeper, is_asleep, is_asleep_at};
ghost use Rattle.prune_ops.specs.Falls.{closed_at, FindsLanding, IsLandingIn, LeavesAfter, LeavesRecords, IsGoalSide, HasNoSleeper};

use crate::sum::Sum;
use au_term::NoMemory;
use clause_compile::Scope;
use tree_model::AltRef;
use tree_nodes::{AltState, Credit, NodeBody, NodeKind, Nodes};

/// The first alternative of the node at which a ball lands, and the credit with which it closes.
#[derive(Drop)]
pub struct Landing {
    pub end: AltRef,
    pub credit: Credit,
}

/// Where a ball that falls from an alternative to a node lands: beside what sleeps there. None where the alternative is not
/// below the node, or nothing sleeps.
pub fn find_landing(nodes: &Nodes, at: AltRef, scope: Scope) -> Result<Option<Landing>, NoMemory>
    requires { IsSome (cell_at nodes.now.rows (place_view at)) }
    ensures finds { IfOk result (λ l. FindsLanding nodes.now (place_view at) (scope_number scope) l) }
    ensures there { IfOk result (λ l. IsLandingIn nodes.now.rows l) }
{
    let (Scope::Node(number) | Scope::Local(number)) = scope;
    let alloc = nodes.allocator();
    let mut sum = Sum::one(alloc);
    let mut here = at;
    while here.node != number {
        rise(nodes, here, &mut sum)?;
        match nodes.parent(here.node) {
            Some(above) => here = above,
            None => return Ok(None),
        }
    }
    if !is_beside_sleeper(nodes, here) {
        return Ok(None);
    }
    rise(nodes, here, &mut sum)?;
    Ok(Some(Landing {
        end: here,
        credit: sum.finish(alloc)?,
    }))
}

// What a ball leaves of a level.
fn rise(nodes: &Nodes, at: AltRef, sum: &mut Sum) -> Result<(), NoMemory>
    requires { IsSome (cell_at nodes.now.rows (place_view at)) }
    ensures { OnOk result (LeavesAfter nodes.now (place_view at) sum.old sum.new) }
{
    leave_records(nodes, at, sum);
    sum.spend(nodes.spent(at));
    add_left_of(nodes, at, sum)?;
    Ok(())
}

// Records that are in the goal side of a findall go with it.
fn leave_records(nodes: &Nodes, at: AltRef, sum: &mut Sum)
    requires { IsSome (cell_at nodes.now.rows (place_view at)) }
    ensures { LeavesRecords nodes.now (place_view at) sum.old sum.new }
{
    if is_goal_side(nodes, at) {
        sum.forget_records(nodes.allocator());
    }
}

// Whether an alternative is the goal side of a findall.
fn is_goal_side(nodes: &Nodes, at: AltRef) -> bool
    requires { IsSome (cell_at nodes.now.rows (place_view at)) }
    ensures { IsGoalSide nodes.now (place_view at) result }
{
    // The proof reads off that there is a tree.
    let _live = nodes.live();
    at.alternative == 0 && is_findall(nodes.body(at.node))
}

fn is_findall(body: &NodeBody) -> bool
    ensures { result ≡ is_findall (node_kind (kind_view body.now.kind)) }
{
    matches!(body.kind, NodeKind::Findall { .. })
}

// Adds what has closed to the left of an alternative at its node, from the nearest on.
fn add_left_of(nodes: &Nodes, at: AltRef, sum: &mut Sum) -> Result<(), NoMemory>
    requires { IsSome (cell_at nodes.now.rows (place_view at)) }
    ensures { OnOk result (sum.new ≡ with_left (take at.alternative (alternatives_at (row_of_node nodes.now.rows at.node))) sum.old) }
{
    for i in 0..at.alternative {
        let left = AltRef {
            node: at.node,
            alternative: at.alternative - 1 - i,
        };
        add_closed(nodes, left, sum)?;
    }
    Ok(())
}

// Adds what an alternative has closed with, if it has.
fn add_closed(nodes: &Nodes, at: AltRef, sum: &mut Sum) -> Result<(), NoMemory>
    requires { IsSome (cell_at nodes.now.rows (place_view at)) }
    ensures { OnOk result (sum.new ≡ add_left (closed_at (cell_at nodes.now.rows (place_view at))) sum.old) }
{
    if let AltState::Closed(credit) = nodes.state(at) {
        sum.add_left(nodes.allocator(), credit)?;
    }
    Ok(())
}

// Whether something sleeps beside a first alternative.
fn is_beside_sleeper(nodes: &Nodes, at: AltRef) -> bool
    ensures beside { OnTrue result (IsBesideSleeper nodes.now.rows (place_view at)) }
    ensures none { OnFalse result (HasNoSleeper nodes.now (place_view at)) }
{
    let second = AltRef {
        node: at.node,
        alternative: 1,
    };
    at.alternative == 0 && is_asleep(nodes, second)
}

fn is_asleep(nodes: &Nodes, at: AltRef) -> bool
    ensures { result ≡ is_asleep_at (cell_at nodes.now.rows (place_view at)) }
{
    nodes.has_alternative(at) && is_dormant(nodes.state(at))
}

fn is_dormant(state: &AltState) -> bool
    ensures { result ≡ is_asleep (cell_view state.now) }
{
    matches!(state, AltState::Dormant)
}
