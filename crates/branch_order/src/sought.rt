//! The leftmost entry that a worker can take.
ghost use Rattle.std.specs.Prelude.{◌≡◌, ◌+◌, ℕ, Bool, IsSome};
ghost use Rattle.tree_model.specs.EventViews.{place_view};
ghost use Rattle.tree_model.specs.Gates.{scope_of};
ghost use Rattle.tree_model.specs.Levels.{Spot};
ghost use Rattle.tree_model.specs.Legality.{is_ready, may_resume};
ghost use Rattle.tree_nodes.specs.Rows.{row_of_node, cell_at, gate_view};
ghost use Rattle.tree_nodes.specs.Puts.{IsPlaceIn};
ghost use Rattle.tree_nodes.specs.RowViews.{parent_view};
ghost use Rattle.branch_order.specs.Sought.{test_of, wants_ready, IsFirstEntry, PassesAt, IsAheadFrom, TurnLeadsTo, IsTurnIn};

use crate::left::first_open;
use crate::order::top;
use clause_compile::{GateKind, Scope};
use tree_model::AltRef;
use tree_nodes::{AltState, Nodes};

/// What is looked for.
#[derive(Clone, Copy)]
pub(crate) enum Sought {
    Ready,
    Cleared,
}

impl Sought {
    fn wants_ready(self) -> bool
        ensures { result ≡ wants_ready self }
    {
        match self {
            Sought::Ready => true,
            Sought::Cleared => false,
        }
    }
}

/// How a walk goes on from a node.
pub(crate) enum Turn {
    Found(AltRef),
    Down(u64),
    Up,
}

/// The leftmost alternative that is ready.
pub fn leftmost_ready(nodes: &Nodes) -> Option<AltRef>
    ensures first { IsFirstEntry (λ s. is_ready s.hold) nodes.now (parent_view result) }
    ensures there { IsPlaceIn nodes.now.rows (parent_view result) }
{
    if nodes.may_have_ready() {
        leftmost_of(nodes, Sought::Ready)
    } else {
        None
    }
}

/// The leftmost alternative that waits for its gate and is cleared to the gate's scope.
pub fn leftmost_cleared(nodes: &Nodes) -> Option<AltRef>
    ensures first { IsFirstEntry (λ s. may_resume s s.hold) nodes.now (parent_view result) }
    ensures there { IsPlaceIn nodes.now.rows (parent_view result) }
{
    if nodes.may_have_waiting() {
        leftmost_of(nodes, Sought::Cleared)
    } else {
        None
    }
}

// Each node to the right of the front is entered and left once.
fn leftmost_of(nodes: &Nodes, sought: Sought) -> Option<AltRef>
    ensures first { IsFirstEntry (test_of sought) nodes.now (parent_view result) }
    ensures there { IsPlaceIn nodes.now.rows (parent_view result) }
{
    let mut left = nodes.live();
    let Some(first) = top(nodes) else {
        return None;
    };
    let mut at = begin(nodes, first);
    loop {
        match next_turn(nodes, sought, at) {
            Turn::Found(entry) => return Some(entry),
            Turn::Down(node) => {
                left -= 1;
                at = begin(nodes, node);
            }
            Turn::Up => match nodes.parent(at.node) {
                Some(above) => at = right_of(nodes, above),
                None => return None,
            },
        }
    }
}

// The alternative of a node after those at the left that have closed.
fn begin(nodes: &Nodes, node: u64) -> AltRef
    ensures node { result.node ≡ node }
    ensures ahead { (test : Spot → Bool) (most : ℕ) → IsAheadFrom nodes.now test node 0 most → IsAheadFrom nodes.now test node result.alternative most }
{
    let _width = nodes.width(node);
    let passed = nodes.passed(node);
    AltRef {
        node,
        alternative: passed.many as u32,
    }
}

fn right_of(nodes: &Nodes, at: AltRef) -> AltRef
    requires { IsSome (cell_at nodes.now.rows (place_view at)) }
    ensures node { result.node ≡ at.node }
    ensures alternative { result.alternative ≡ at.alternative + 1 }
{
    let _width = nodes.width(at.node);
    AltRef {
        node: at.node,
        alternative: at.alternative + 1,
    }
}

// The first alternative of a node, from this one on, that is looked for or leads further down.
fn next_turn(nodes: &Nodes, sought: Sought, from: AltRef) -> Turn
    ensures leads { (most : ℕ) → IsAheadFrom nodes.now (test_of sought) from.node from.alternative most → TurnLeadsTo nodes.now (test_of sought) from.node most result }
    ensures there { IsTurnIn nodes.now.rows from.node result }
{
    let node = from.node;
    let width = nodes.width(node);
    let mut alternative = from.alternative;
    while alternative < width {
        let at = AltRef { node, alternative };
        if is_sought(nodes, sought, at) {
            return Turn::Found(at);
        }
        if let Some(below) = nodes.below(at) {
            return Turn::Down(below);
        }
        alternative = nodes.after(at);
    }
    Turn::Up
}

fn is_sought(nodes: &Nodes, sought: Sought, at: AltRef) -> bool
    requires { IsSome (cell_at nodes.now.rows (place_view at)) }
    ensures { PassesAt nodes.now (place_view at) (test_of sought) result }
{
    match nodes.state(at) {
        AltState::Ready => sought.wants_ready(),
        AltState::Waiting(gate) => match sought {
            Sought::Ready => false,
            Sought::Cleared => first_open(nodes, at, gate_scope(gate)).is_none(),
        },
        _ => false,
    }
}

// The node below which all to the left has to be closed.
fn gate_scope(gate: &GateKind) -> Option<u64>
    ensures { result ≡ scope_of (gate_view gate.now) }
{
    match gate {
        GateKind::Cut(Scope::Node(number) | Scope::Local(number)) => Some(*number),
        GateKind::Throw {
            scope: Scope::Node(number) | Scope::Local(number),
            ..
        } => Some(*number),
        GateKind::World(_) | GateKind::Frozen => None,
    }
}
