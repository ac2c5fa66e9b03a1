//! Goals that evaluate (ISO/IEC 13211-1, 8.6 and 8.7).
ghost use Rattle.run_model.specs.Goals.ArithmeticGoals.{is_answer, comparison_answer, with_value};
ghost use Rattle.run_model.specs.Goals.Arithmetic.{expression_value};
ghost use Rattle.run_model.specs.Goals.BuiltinAnswers.{holds_if};
ghost use Rattle.std_builtins.specs.Answers.{IsAnswer};
ghost use Rattle.std_builtins.specs.Meanings.{value_test};

use crate::answer::{BuiltinRefusal, Solution, equal, failed, holds_if};
use crate::comparisons::Comparison;
use crate::integers::integer;
use arith_eval::{EvalRefusal, eval};
use au_term::FlatTerm;
use std::alloc::Global;

/// What `X is E` answers.
pub(crate) fn is(
    alloc: Global,
    left: &FlatTerm,
    expression: &FlatTerm,
) -> Result<Vec<Solution>, BuiltinRefusal>
    ensures { IsAnswer (is_answer left.now expression.now) result }
{
    match eval(alloc, expression) {
        Ok(value) => equal(alloc, left.copy()?, integer(alloc, value)?),
        Err(EvalRefusal::Fault(fault)) => failed(fault),
        Err(EvalRefusal::NoMemory) => Err(BuiltinRefusal::NoMemory),
    }
}

/// What a comparison of two expressions answers.
pub(crate) fn compared_values(
    alloc: Global,
    comparison: Comparison,
    left: &FlatTerm,
    right: &FlatTerm,
) -> Result<Vec<Solution>, BuiltinRefusal>
    ensures { IsAnswer (comparison_answer (value_test comparison) left.now right.now) result }
{
    match eval(alloc, left) {
        Ok(value) => compared_to(alloc, comparison, value, right),
        Err(EvalRefusal::Fault(fault)) => failed(fault),
        Err(EvalRefusal::NoMemory) => Err(BuiltinRefusal::NoMemory),
    }
}

/// What a comparison of a value with an expression answers.
fn compared_to(
    alloc: Global,
    comparison: Comparison,
    left: i64,
    right: &FlatTerm,
) -> Result<Vec<Solution>, BuiltinRefusal>
    ensures { IsAnswer (with_value (expression_value right.now) (λ z. holds_if (value_test comparison left z))) result }
{
    match eval(alloc, right) {
        Ok(value) => holds_if(alloc, comparison.holds(left, value)),
        Err(EvalRefusal::Fault(fault)) => failed(fault),
        Err(EvalRefusal::NoMemory) => Err(BuiltinRefusal::NoMemory),
    }
}
