//! What tells goals apart by numbers, where they are values.
ghost use Rattle.std.specs.Prelude.{◌≡◌, true};
ghost use Rattle.au_model.specs.Terms.Forms.{is_callable};
ghost use Rattle.proc_index.specs.Keys.{key_of};
ghost use Rattle.cell_store.specs.StoreView.{IsValueIn, meaning, text_in};
ghost use Rattle.clause_index.specs.HeadKeys.{IsHeadKeyOf, IsKeyAmong, named_key};

use binding_array::BindingCell;
use cell_store::Store;
use clause_index::{HeadKey, NumberKey};

/// The key of what a value stands for; none for a variable.
#[inline(always)]
pub fn key_of_value(store: &Store, value: BindingCell) -> Option<NumberKey>
    requires { IsValueIn store.now value }
    ensures there { IsKeyAmong (text_in store.now).names result }
    ensures key { named_key (text_in store.now).names result ≡ key_of (meaning store.now value) }
{
    match store.dereference(value) {
        BindingCell::Free => unreachable!(),
        BindingCell::Var(_) => None,
        BindingCell::Int(value) => Some(NumberKey::Int(value)),
        BindingCell::Atom(name) => Some(NumberKey::Atom(name)),
        BindingCell::Compound(at, _) => {
            let (name, count) = store.functor(at);
            Some(NumberKey::Functor(name, count))
        }
    }
}

/// The name, the number of arguments and the first key of a goal.
#[inline]
pub fn goal_numbers(store: &Store, goal: BindingCell) -> HeadKey
    requires there { IsValueIn store.now goal }
    requires callable { is_callable (meaning store.now goal) ≡ true }
    ensures { IsHeadKeyOf (text_in store.now).names (meaning store.now goal) result }
{
    match store.dereference(goal) {
        BindingCell::Atom(name) => HeadKey {
            name,
            arity: 0,
            first: None,
        },
        BindingCell::Compound(at, base) => compound_numbers(store, at, base),
        _ => unreachable!(),
    }
}

/// The same of a compound.
#[inline(always)]
pub fn compound_numbers(store: &Store, at: u32, base: u32) -> HeadKey
    requires { IsValueIn store.now (BindingCell.Compound at base) }
    ensures { IsHeadKeyOf (text_in store.now).names (meaning store.now (BindingCell.Compound at base)) result }
{
    let (name, arity) = store.functor(at);
    let first = key_of_value(store, store.argument(at + 1, base));
    HeadKey { name, arity, first }
}
