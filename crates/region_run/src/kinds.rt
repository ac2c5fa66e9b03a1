//! What goals of a region are.
ghost use Rattle.std.specs.Prelude.{◌≡◌, ◌<◌, length};
ghost use Rattle.clause_compile.specs.AtomNumbers.{name_at};
ghost use Rattle.cell_store.specs.StoreView.{text_in};
ghost use Rattle.goal_kinds.specs.Kinds.{IsKindOf};

use cell_store::Store;
use goal_kinds::{GoalKind, GoalKinds, kind_of_name};

/// What goals with this name, by its number in the store, and so many arguments are.
#[inline(always)]
pub(crate) fn kind_of(kinds: &GoalKinds, store: &Store, name: u32, arity: u32) -> GoalKind
    requires names { kinds.now ≡ store.now.program.names }
    requires there { name < length (text_in store.now).names }
    ensures { IsKindOf (name_at (text_in store.now).names name) arity result }
{
    if (name as usize) < kinds.names() {
        return kinds.kind(name, arity);
    }
    kind_of_name(store.name(name).text(), arity)
}
