//! How alternatives look.
use tree_model::AltRef;
use tree_nodes::{AltState, Nodes};

/// How an alternative looks: it has an entry, a node is below it, or it has closed after so many inferences.
#[derive(Clone, Copy, Debug, PartialEq, Eq)]
pub(crate) enum Look {
    Entry,
    Node(u64),
    Closed(u64),
    Gone,
}

pub(crate) fn seen(nodes: &Nodes, at: AltRef) -> Look {
    if !nodes.has_alternative(at) {
        return Look::Gone;
    }
    match nodes.state(at) {
        AltState::Inner(node) => Look::Node(*node),
        AltState::Closed(credit) => Look::Closed(credit.inferences),
        _ => Look::Entry,
    }
}
