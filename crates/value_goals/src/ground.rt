//! Values that stand for terms without variables (ISO/IEC 13211-1, 8.3).
ghost use Rattle.std.specs.Prelude.{◌≡◌, IfOk, reverse};
ghost use Rattle.run_model.specs.Goals.TermTests.{is_ground};
ghost use Rattle.cell_store.specs.StoreView.{IsValueIn, meaning};
ghost use Rattle.value_goals.specs.GroundTerms.{GoesPastOr};

use au_term::NoMemory;
use binding_array::BindingCell;
use cell_store::arguments::Arguments;
use cell_store::{Store, push_arguments, push_rest};
use std::alloc::Global;

/// Whether a value stands for a term without variables.
pub fn is_ground(alloc: Global, store: &Store, value: BindingCell) -> Result<bool, NoMemory>
    requires { IsValueIn store.now value }
    ensures { IfOk result (λ b. b ≡ is_ground (meaning store.now value)) }
{
    let mut pending = Vec::new(alloc);
    if !goes_past(store, value, &mut pending)? {
        return Ok(false);
    }
    while let Some(arguments) = pending.pop() {
        let value = store.argument(arguments.at, arguments.base);
        push_rest(arguments, &mut pending)?;
        if !goes_past(store, value, &mut pending)? {
            return Ok(false);
        }
    }
    Ok(true)
}

/// Whether a value stands for no variable; the arguments of a compound are put on top.
fn goes_past(
    store: &Store,
    value: BindingCell,
    pending: &mut Vec<Arguments>,
) -> Result<bool, NoMemory>
    requires { IsValueIn store.now value }
    ensures { IfOk result (GoesPastOr store.now (meaning store.now value) (reverse pending.old.items) (reverse pending.new.items)) }
{
    match store.dereference(value) {
        BindingCell::Var(_) => Ok(false),
        BindingCell::Compound(at, base) => {
            push_arguments(at, base, store, pending)?;
            Ok(true)
        }
        _ => Ok(true),
    }
}
