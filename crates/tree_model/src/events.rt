//! What workers do to the tree.
ghost use Rattle.std.specs.Prelude.{◌≡◌};

use crate::places::AltRef;
use std::marker::Model;

/// The sizes of nodes, the outermost first; contracts see their list.
#[derive(Debug, Drop)]
pub struct Sizes {
    list: Vec<u64>,
}

impl Model for Sizes {
    ghost use Rattle.std.specs.Prelude.{ℕ, List};

    ghost Value = { List ℕ };

    ghost view = { λ s. s.list.items };
}

impl Sizes {
    /// These sizes.
    pub fn of(list: Vec<u64>) -> Sizes
        ensures { result ≡ list.items }
    {
        Sizes { list }
    }

    /// The sizes, in their order.
    pub fn as_slice(&self) -> &[u64]
        ensures { result.now ≡ self.now }
    {
        &self.list
    }
}

/// What a worker did to the tree in one turn.
#[derive(Debug, Drop)]
pub enum Event {
    /// The alternative was handed out.
    Claim {
        worker: u32,
        at: AltRef,
    },
    /// After so many inferences what it has left became nodes of these sizes.
    Nodes {
        worker: u32,
        at: AltRef,
        count: u64,
        sizes: Sizes,
    },
    /// After so many inferences nothing of it was left.
    Empty {
        worker: u32,
        at: AltRef,
        count: u64,
    },
    /// After so many inferences it gave a result to a findall above.
    Collected {
        worker: u32,
        at: AltRef,
        count: u64,
    },
    /// It had been pruned.
    Lost {
        worker: u32,
        at: AltRef,
    },
    /// It was given back, to wait for the gate of its next item, or because its branch has reached the budget.
    Suspend {
        worker: u32,
        at: AltRef,
        frozen: bool,
    },
    /// It was handed out again.
    Resume {
        worker: u32,
        at: AltRef,
    },
    /// Its cut or ball was taken.
    Prune {
        worker: u32,
        at: AltRef,
    },
    /// Its goal on the world, its answer or its end was taken.
    Answer {
        worker: u32,
        at: AltRef,
        frozen: bool,
    },
    /// The tree was stopped.
    Stop {
        worker: u32,
    },
}
