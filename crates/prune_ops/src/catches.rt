//! The nearest end of a catch.
ghost use Rattle.std.specs.Prelude.{◌≡◌};
ghost use Rattle.prune_ops.specs.Marks.{first_catch};

use clause_compile::{Goals, Item, Scope};

/// The choice point of the first end of a catch in a list, none where there is none.
pub fn catch_at(goals: &Goals) -> Option<Scope>
    ensures { result ≡ first_catch goals.now }
{
    for item in goals.items() {
        if let Item::CatchEnd(scope) = item {
            return Some(*scope);
        }
    }
    None
}
