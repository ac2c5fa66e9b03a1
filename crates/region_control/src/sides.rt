//! Values that stand for compounds with two arguments.
ghost use Rattle.std.specs.Prelude.{MatchOption};
ghost use Rattle.std.specs.Str.{IsAscii};
ghost use Rattle.cell_store.specs.StoreView.{IsValueIn};
ghost use Rattle.region_control.specs.Sides.{HasSides, HasNoSides};

use binding_array::BindingCell;
use cell_store::Store;

/// The two arguments of the compound that a value stands for, if it has this name.
pub fn sides(store: &Store, value: BindingCell, name: &str) -> Option<(BindingCell, BindingCell)>
    requires value { IsValueIn store.now value }
    requires name { IsAscii name.now }
    ensures { MatchOption result (HasNoSides store.now value name.now) (HasSides store.now value name.now) }
{
    let BindingCell::Compound(at, base) = store.dereference(value) else {
        return None;
    };
    let (number, count) = store.functor(at);
    if count != 2 || !store.name(number).is_text(name) {
        return None;
    }
    let left = store.argument(at + 1, base);
    let right = store.argument(at + 2, base);
    Some((left, right))
}
