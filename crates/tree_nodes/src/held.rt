//! How many alternatives are ready, and how many wait.
ghost use Rattle.std.specs.Prelude.{◌≡◌};
ghost use Rattle.tree_model.specs.Legality.{is_ready};
ghost use Rattle.tree_nodes.specs.Rows.{cell_view};
ghost use Rattle.tree_nodes.specs.Held.{is_waiting, one_held, AddsCount, TakesCount};

use crate::state::AltState;

/// So many are ready, and so many wait. A count that has come to the greatest number stays there.
#[derive(Clone, Copy)]
pub(crate) struct Held {
    pub(crate) ready: u64,
    pub(crate) waiting: u64,
}

impl Held {
    /// None is counted.
    pub(crate) const NONE: Held = Held {
        ready: 0,
        waiting: 0,
    };

    /// What one alternative counts for.
    pub(crate) fn of(state: &AltState) -> Held
        ensures ready { result.ready ≡ one_held is_ready (cell_view state.now) }
        ensures waiting { result.waiting ≡ one_held is_waiting (cell_view state.now) }
    {
        match state {
            AltState::Ready => Held {
                ready: 1,
                waiting: 0,
            },
            AltState::Waiting(_) => Held {
                ready: 0,
                waiting: 1,
            },
            _ => Held::NONE,
        }
    }

    /// With what others count for.
    pub(crate) fn with(self, others: Held) -> Held
        ensures ready { AddsCount self.ready others.ready result.ready }
        ensures waiting { AddsCount self.waiting others.waiting result.waiting }
    {
        Held {
            ready: self.ready.saturating_add(others.ready),
            waiting: self.waiting.saturating_add(others.waiting),
        }
    }

    /// Without what others count for.
    pub(crate) fn without(self, others: Held) -> Held
        ensures ready { TakesCount self.ready others.ready result.ready }
        ensures waiting { TakesCount self.waiting others.waiting result.waiting }
    {
        Held {
            ready: less(self.ready, others.ready),
            waiting: less(self.waiting, others.waiting),
        }
    }
}

fn less(many: u64, by: u64) -> u64
    ensures { TakesCount many by result }
{
    if many == u64::MAX {
        many
    } else {
        many.saturating_sub(by)
    }
}
