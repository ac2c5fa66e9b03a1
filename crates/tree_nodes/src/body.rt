//! What a node is made from.
ghost use Rattle.std.specs.Prelude.{◌≡◌};
ghost use Rattle.tree_nodes.specs.Bodies.{guards_kind, is_whole, kind_view, body_view};

use au_term::{FlatTerm, Segment, Shared};
use clause_compile::Branch;
use std::sync::Arc;

/// What a node's alternatives have in common. The second branch of a catch or a findall has what follows as its goals,
/// and that of a query has its end.
#[derive(Drop)]
pub enum NodeKind {
    Choice,
    Condition,
    Catch {
        catcher: Shared,
        recovery: Shared,
    },
    Findall {
        results: Vec<FlatTerm>,
        list: Shared,
    },
    Query,
}

impl NodeKind {
    /// Whether the second alternative sleeps while the first is open.
    pub(crate) fn guards(&self) -> bool
        ensures { result ≡ guards_kind (kind_view self.now) }
    {
        match self {
            NodeKind::Choice | NodeKind::Condition => false,
            NodeKind::Catch { .. } | NodeKind::Findall { .. } | NodeKind::Query => true,
        }
    }
}

/// What a node is made from: the variables and bindings that all its branches share, and the branches.
#[derive(Drop)]
pub struct NodeBody {
    pub segment: Arc<Segment>,
    pub branches: Vec<Branch>,
    pub kind: NodeKind,
}

impl NodeBody {
    /// Whether a node can be made from it: it has at least one branch, and two where the second sleeps.
    pub fn is_whole(&self) -> bool
        ensures { result ≡ is_whole (body_view self.now) }
    {
        if self.kind.guards() {
            self.branches.len() == 2
        } else {
            1 <= self.branches.len()
        }
    }
}
