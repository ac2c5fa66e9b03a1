//! Expressions that are integers, or functions of integers: nothing waits for their values.
ghost use Rattle.std.specs.Prelude.{◌≡◌, ◌-◌, ◌^◌, ◌<◌, Ok, MatchOption};
ghost use Rattle.run_model.specs.Goals.Arithmetic.{expression_value};
ghost use Rattle.cell_store.specs.StoreView.{IsValueIn, meaning, text_in};
ghost use Rattle.cell_store.specs.Arguments.{HasFunctor};
ghost use Rattle.value_goals.specs.Evaluation.{evaluated_in};
ghost use Rattle.value_goals.specs.ShortValues.{HasNoShortValue};

use crate::type_tests::integer_of;
use arith_eval::{binary_named, unary_named};
use binding_array::BindingCell;
use cell_store::Store;

/// The value of an integer, or of a function of one or two integers, where it has one; none of other expressions.
#[inline]
pub fn short_value(store: &Store, value: BindingCell) -> Option<i64>
    requires { IsValueIn store.now value }
    ensures { MatchOption result (HasNoShortValue (meaning store.now value)) (λ z. expression_value (meaning store.now value) ≡ Ok z) }
{
    match store.dereference(value) {
        BindingCell::Int(value) => Some(value),
        BindingCell::Compound(at, base) => value_of_integers(store, at, base),
        _ => None,
    }
}

/// The value of a compound of integers, where it has one.
#[inline]
fn value_of_integers(store: &Store, at: u32, base: u32) -> Option<i64>
    requires { IsValueIn store.now (BindingCell.Compound at base) }
    ensures { MatchOption result (HasNoShortValue (meaning store.now (BindingCell.Compound at base))) (λ z. evaluated_in store.now (BindingCell.Compound at base) ≡ Ok z) }
{
    let (name, count) = store.functor(at);
    if count == 2 {
        return value_of_two(store, name, at, base);
    }
    if count == 1 {
        return value_of_one(store, name, at, base);
    }
    None
}

/// The value of a function of one integer, where it has one.
fn value_of_one(store: &Store, name: u32, at: u32, base: u32) -> Option<i64>
    requires functor { HasFunctor (text_in store.now) store.now.now.next at base name 1 }
    requires short { at < 2 ^ 32 - 1 }
    ensures { MatchOption result (HasNoShortValue (meaning store.now (BindingCell.Compound at base))) (λ z. evaluated_in store.now (BindingCell.Compound at base) ≡ Ok z) }
{
    let x = integer_of(store, store.argument(at + 1, base))?;
    let function = unary_named(store.name(name))?;
    function.value(x).ok()
}

/// The value of a function of two integers, where it has one.
#[inline(always)]
fn value_of_two(store: &Store, name: u32, at: u32, base: u32) -> Option<i64>
    requires functor { HasFunctor (text_in store.now) store.now.now.next at base name 2 }
    requires short { at < 2 ^ 32 - 1 }
    ensures { MatchOption result (HasNoShortValue (meaning store.now (BindingCell.Compound at base))) (λ z. evaluated_in store.now (BindingCell.Compound at base) ≡ Ok z) }
{
    let x = integer_of(store, store.argument(at + 1, base))?;
    let y = integer_of(store, store.argument(at + 2, base))?;
    let function = binary_named(store.name(name))?;
    function.value(x, y).ok()
}
