//! Expressions evaluated where they are (ISO/IEC 13211-1, 7.9).
ghost use Rattle.std.specs.Prelude.{◌≡◌, ◌+◌, ◌-◌, ◌^◌, ◌<◌, ◌∷◌, ℕ, List, Ok, Err, IfOk, IfErr, length, reverse};
ghost use Rattle.clause_compile.specs.AtomNumbers.{name_at};
ghost use Rattle.run_model.specs.Goals.Arithmetic.{expression_value, not_evaluable};
ghost use Rattle.arith_eval.specs.Evaluating.{evaluated, problem_term, IsRefusal};
ghost use Rattle.arith_eval.specs.Functions.{binary_meaning};
ghost use Rattle.arith_eval.specs.Integers.{outcome};
ghost use Rattle.cell_store.specs.StoreView.{StoreView, IsValueIn, meaning, text_in};
ghost use Rattle.cell_store.specs.Arguments.{HasFunctor};
ghost use Rattle.value_goals.specs.Evaluation.{evaluated_in, with_first, function_resumed, evaluation_steps, waiting_steps, IsWaitingIn, IsBegun, StepsTo};
ghost use Rattle.value_goals.specs.declared.evaluation.Waiting.{Waiting as WaitingFunction};

use crate::short::short_value;
use crate::type_tests::integer_of;
use arith_eval::{Binary, EvalRefusal, Problem, Unary, binary_named, unary_named};
use au_model::EvalName;
use au_term::NoMemory;
use binding_array::BindingCell;
use cell_store::Store;
use std::alloc::Global;

/// A function that waits for the value of an argument.
#[derive(Clone, Copy, Debug)]
pub(crate) enum Waiting {
    /// Of its only argument.
    One(Unary),
    /// Of its first argument; the second one comes then.
    First(Binary, BindingCell),
    /// Of its second argument, with the value of the first one.
    Second(Binary, i64),
}

/// An expression that comes next, or the value of the last one.
#[derive(Clone, Copy, Debug)]
pub(crate) enum Next {
    Expression(BindingCell),
    Value(i64),
}

/// The value of the expression that a value stands for, or the first error that evaluating it comes to.
#[inline]
pub fn evaluate(alloc: Global, store: &Store, value: BindingCell) -> Result<i64, EvalRefusal>
    requires { IsValueIn store.now value }
    ensures value { IfOk result (λ z. expression_value (meaning store.now value) ≡ Ok z) }
    ensures error { IfErr result (IsRefusal (expression_value (meaning store.now value))) }
{
    match short_value(store, value) {
        Some(value) => Ok(value),
        None => evaluate_by_parts(alloc, store, value),
    }
}

/// The same of any expression.
#[inline(never)]
fn evaluate_by_parts(alloc: Global, store: &Store, value: BindingCell) -> Result<i64, EvalRefusal>
    requires { IsValueIn store.now value }
    ensures value { IfOk result (λ z. expression_value (meaning store.now value) ≡ Ok z) }
    ensures error { IfErr result (IsRefusal (expression_value (meaning store.now value))) }
{
    match evaluated(alloc, store, value) {
        Ok(Ok(value)) => Ok(value),
        Ok(Err(problem)) => match problem.fault(alloc) {
            Ok(fault) => Err(EvalRefusal::Fault(fault)),
            Err(_) => Err(EvalRefusal::NoMemory),
        },
        Err(_) => Err(EvalRefusal::NoMemory),
    }
}

/// What the expression comes to. Its arguments are evaluated from the left, and the first error ends it.
fn evaluated(
    alloc: Global,
    store: &Store,
    value: BindingCell,
) -> Result<Result<i64, Problem>, NoMemory>
    requires { IsValueIn store.now value }
    ensures { IfOk result (λ v. evaluated v ≡ evaluated_in store.now value) }
{
    let mut waiting = Vec::new(alloc);
    let mut next = Next::Expression(value);
    loop {
        let step = match next {
            Next::Expression(value) => opened(store, value, &mut waiting)?,
            Next::Value(value) => match waiting.pop() {
                Some(function) => function_resumed(store, function, value, &mut waiting)?,
                None => return Ok(Ok(value)),
            },
        };
        match step {
            Ok(following) => next = following,
            Err(problem) => return Ok(Err(problem)),
        }
    }
}

/// Begins to evaluate an expression.
fn opened(
    store: &Store,
    value: BindingCell,
    waiting: &mut Vec<Waiting>,
) -> Result<Result<Next, Problem>, NoMemory>
    requires { IsValueIn store.now value }
    ensures { IfOk result (IsBegun store.now value (reverse waiting.old.items) (reverse waiting.new.items)) }
{
    match store.dereference(value) {
        BindingCell::Free => unreachable!(),
        BindingCell::Var(_) => Ok(Err(Problem::Unbound)),
        BindingCell::Int(value) => Ok(Ok(Next::Value(value))),
        BindingCell::Atom(name) => Ok(Err(no_function(store, name, 0)?)),
        BindingCell::Compound(at, base) => compound_opened(store, at, base, waiting),
    }
}

/// Begins to evaluate a compound.
fn compound_opened(
    store: &Store,
    at: u32,
    base: u32,
    waiting: &mut Vec<Waiting>,
) -> Result<Result<Next, Problem>, NoMemory>
    requires { IsValueIn store.now (BindingCell.Compound at base) }
    ensures { IfOk result (IsBegun store.now (BindingCell.Compound at base) (reverse waiting.old.items) (reverse waiting.new.items)) }
{
    let (name, count) = store.functor(at);
    if count == 1 {
        return one_opened(store, name, at, base, waiting);
    }
    if count == 2 {
        return two_opened(store, name, at, base, waiting);
    }
    Ok(Err(no_function(store, name, count)?))
}

/// Begins to evaluate a compound with one argument.
fn one_opened(
    store: &Store,
    name: u32,
    at: u32,
    base: u32,
    waiting: &mut Vec<Waiting>,
) -> Result<Result<Next, Problem>, NoMemory>
    requires functor { HasFunctor (text_in store.now) store.now.now.next at base name 1 }
    requires short { at < 2 ^ 32 - 1 }
    ensures { IfOk result (IsBegun store.now (BindingCell.Compound at base) (reverse waiting.old.items) (reverse waiting.new.items)) }
{
    let Some(function) = unary_named(store.name(name)) else {
        return Ok(Err(no_function(store, name, 1)?));
    };
    let argument = store.argument(at + 1, base);
    match integer_of(store, argument) {
        Some(x) => Ok(computed(function.value(x))),
        None => {
            waiting.push(Waiting::One(function))?;
            Ok(Ok(Next::Expression(argument)))
        }
    }
}

/// Begins to evaluate a compound with two arguments.
fn two_opened(
    store: &Store,
    name: u32,
    at: u32,
    base: u32,
    waiting: &mut Vec<Waiting>,
) -> Result<Result<Next, Problem>, NoMemory>
    requires functor { HasFunctor (text_in store.now) store.now.now.next at base name 2 }
    requires short { at < 2 ^ 32 - 1 }
    ensures { IfOk result (IsBegun store.now (BindingCell.Compound at base) (reverse waiting.old.items) (reverse waiting.new.items)) }
{
    let Some(function) = binary_named(store.name(name)) else {
        return Ok(Err(no_function(store, name, 2)?));
    };
    let first = store.argument(at + 1, base);
    let second = store.argument(at + 2, base);
    match integer_of(store, first) {
        Some(x) => second_opened(store, function, x, second, waiting),
        None => {
            waiting.push(Waiting::First(function, second))?;
            Ok(Ok(Next::Expression(first)))
        }
    }
}

/// Goes on with the second argument of a function, where the value of the first one is known.
fn second_opened(
    store: &Store,
    function: Binary,
    x: i64,
    second: BindingCell,
    waiting: &mut Vec<Waiting>,
) -> Result<Result<Next, Problem>, NoMemory>
    requires { IsValueIn store.now second }
    ensures { IfOk result (StepsTo store.now (with_first store.now (binary_meaning function) x second) (evaluation_steps store.now second + 2) (reverse waiting.old.items) (reverse waiting.new.items)) }
{
    match integer_of(store, second) {
        Some(y) => Ok(computed(function.value(x, y))),
        None => {
            waiting.push(Waiting::Second(function, x))?;
            Ok(Ok(Next::Expression(second)))
        }
    }
}

/// Goes on with a function that waited for a value.
fn function_resumed(
    store: &Store,
    function: Waiting,
    value: i64,
    waiting: &mut Vec<Waiting>,
) -> Result<Result<Next, Problem>, NoMemory>
    requires { IsWaitingIn store.now function }
    ensures { IfOk result (StepsTo store.now (function_resumed store.now function (Ok value)) (waiting_steps store.now function) (reverse waiting.old.items) (reverse waiting.new.items)) }
{
    match function {
        Waiting::One(function) => Ok(computed(function.value(value))),
        Waiting::First(function, second) => {
            second_opened(store, function, value, second, waiting)
        }
        Waiting::Second(function, x) => Ok(computed(function.value(x, value))),
    }
}

/// What a function answered.
fn computed(answer: Result<i64, EvalName>) -> Result<Next, Problem>
    ensures { (st : StoreView) (steps : ℕ) (ws : List WaitingFunction) → 0 < steps → StepsTo st (outcome answer) steps ws ws result }
{
    match answer {
        Ok(value) => Ok(Next::Value(value)),
        Err(error) => Err(Problem::Evaluation(error)),
    }
}

/// The error of a name with so many arguments that is no function.
fn no_function(store: &Store, name: u32, count: u32) -> Result<Problem, NoMemory>
    requires { name < length (text_in store.now).names }
    ensures { IfOk result (λ p. Err (problem_term p) ≡ not_evaluable (name_at (text_in store.now).names name) count) }
{
    Ok(Problem::NotEvaluable(store.name(name).share()?, count))
}
