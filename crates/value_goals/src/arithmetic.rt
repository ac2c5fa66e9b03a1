//! Goals that evaluate (ISO/IEC 13211-1, 8.6 and 8.7).
ghost use Rattle.std.specs.Prelude.{◌≡◌, Bool, IfOk, IfErr, ℤ};
ghost use Rattle.au_term.specs.Term.{Term};
ghost use Rattle.run_model.specs.Goals.ArithmeticGoals.{is_answer, comparison_answer};
ghost use Rattle.run_model.specs.Goals.BuiltinAnswers.{equal, holds_if};
ghost use Rattle.cell_store.specs.StoreView.{IsValueIn, meaning};
ghost use Rattle.value_goals.specs.Answers.{IsRefusedAnswer};

use crate::evaluation::evaluate;
use arith_eval::EvalRefusal;
use binding_array::BindingCell;
use cell_store::Store;
use std::alloc::Global;

/// The value with which `X is E` unifies its left side.
pub fn is_value(
    alloc: Global,
    store: &Store,
    expression: BindingCell,
) -> Result<BindingCell, EvalRefusal>
    requires { IsValueIn store.now expression }
    ensures there { IfOk result (IsValueIn store.now) }
    ensures value { IfOk result (λ c. (x : Term) → is_answer x (meaning store.now expression) ≡ equal x (meaning store.now c)) }
    ensures error { IfErr result (λ e. (x : Term) → IsRefusedAnswer (is_answer x (meaning store.now expression)) e) }
{
    match evaluate(alloc, store, expression) {
        Ok(value) => Ok(BindingCell::Int(value)),
        Err(refusal) => Err(refusal),
    }
}

/// The values that `=:=`, `<` and the like compare, the left one first.
pub fn compared_values(
    alloc: Global,
    store: &Store,
    left: BindingCell,
    right: BindingCell,
) -> Result<(i64, i64), EvalRefusal>
    requires left { IsValueIn store.now left }
    requires right { IsValueIn store.now right }
    ensures values { IfOk result (λ v. (test : ℤ → ℤ → Bool) → comparison_answer test (meaning store.now left) (meaning store.now right) ≡ holds_if (test v.0 v.1)) }
    ensures error { IfErr result (λ e. (test : ℤ → ℤ → Bool) → IsRefusedAnswer (comparison_answer test (meaning store.now left) (meaning store.now right)) e) }
{
    match evaluate(alloc, store, left) {
        Ok(y) => match evaluate(alloc, store, right) {
            Ok(z) => Ok((y, z)),
            Err(refusal) => Err(refusal),
        },
        Err(refusal) => Err(refusal),
    }
}
