//! Expressions evaluated (ISO/IEC 13211-1, 7.9).
ghost use Rattle.std.specs.Prelude.{◌≡◌, ◌≤◌, ◌∷◌, Ok, IfOk, IfErr, OnOk, length, map, reverse};
ghost use Rattle.au_term.specs.PrefixOrder.{with_cell, arity};
ghost use Rattle.au_term.specs.Term.{Terms};
ghost use Rattle.au_term.specs.declared.cell.Cell.TheVariants.{Functor};
ghost use Rattle.au_model.specs.Terms.Faults.{error_term_of};
ghost use Rattle.run_model.specs.Goals.Arithmetic.{expression_value, unary_value, binary_value, unary_function, binary_function, not_evaluable};
ghost use Rattle.arith_eval.specs.Integers.{outcome};
ghost use Rattle.arith_eval.specs.Evaluating.{evaluated, values_of, problem_term, Stacks, IsRefusal};

use crate::functions::{binary_named, unary_named};
use au_model::build::indicator;
use au_model::{EvalName, Fault, TypeName};
use au_term::{Atom, Cell, FlatTerm, NoMemory};
use std::alloc::Global;

/// Why an expression has no value: its error, or running out of memory.
#[derive(Drop)]
pub enum EvalRefusal {
    Fault(Fault),
    NoMemory,
}

/// An error without its term.
#[derive(Drop)]
pub enum Problem {
    Unbound,
    NotEvaluable(Atom, u32),
    Evaluation(EvalName),
}

impl Problem {
    /// The error.
    pub fn fault(self, alloc: Global) -> Result<Fault, NoMemory>
        ensures { IfOk result (λ f. error_term_of f ≡ problem_term self) }
    {
        match self {
            Problem::Unbound => Ok(Fault::Instantiation),
            Problem::NotEvaluable(name, arity) => Ok(Fault::WrongType(
                TypeName::Evaluable,
                indicator(alloc, &name, arity)?,
            )),
            Problem::Evaluation(error) => Ok(Fault::Evaluation(error)),
        }
    }
}

/// The value of an expression, or the first error that evaluating it comes to.
pub fn eval(alloc: Global, term: &FlatTerm) -> Result<i64, EvalRefusal>
    ensures value { IfOk result (λ z. expression_value term.now ≡ Ok z) }
    ensures error { IfErr result (IsRefusal (expression_value term.now)) }
{
    match value(alloc, term) {
        Ok(Ok(value)) => Ok(value),
        Ok(Err(problem)) => match problem.fault(alloc) {
            Ok(fault) => Err(EvalRefusal::Fault(fault)),
            Err(_) => Err(EvalRefusal::NoMemory),
        },
        Err(_) => Err(EvalRefusal::NoMemory),
    }
}

/// What an expression comes to. Its cells are gone over from the last one, so that the values of a compound's arguments
/// are on top of the stack as its own cell comes.
fn value(alloc: Global, term: &FlatTerm) -> Result<Result<i64, Problem>, NoMemory>
    ensures { IfOk result (λ v. evaluated v ≡ expression_value term.now) }
{
    let cells = term.cells();
    let mut values = Vec::new(alloc);
    let mut at = cells.len();
    while at > 0 {
        let value = cell_value(&cells[at - 1], &mut values)?;
        values.push(value)?;
        at -= 1;
    }
    match values.pop() {
        Some(value) => Ok(value),
        None => unreachable!(),
    }
}

/// The value of the term that begins with a cell. Those of its arguments are taken from the stack.
fn cell_value(
    cell: &Cell,
    values: &mut Vec<Result<i64, Problem>>,
) -> Result<Result<i64, Problem>, NoMemory>
    requires { arity cell.now ≤ length values.old.items }
    ensures { (ts : Terms) → Stacks values.old.items ts → IfOk result (λ v. evaluated v ∷ map evaluated (reverse values.new.items) ≡ values_of (with_cell cell.now ts)) }
{
    match cell {
        Cell::Var(_) => Ok(Err(Problem::Unbound)),
        Cell::Int(value) => Ok(Ok(*value)),
        Cell::Atom(name) => not_evaluable(name, 0),
        Cell::Functor(name, arity) => compound_value(name, *arity, values),
    }
}

/// The value of a compound with a name and so many arguments.
fn compound_value(
    name: &Atom,
    arity: u32,
    values: &mut Vec<Result<i64, Problem>>,
) -> Result<Result<i64, Problem>, NoMemory>
    requires { arity ≤ length values.old.items }
    ensures { (ts : Terms) → Stacks values.old.items ts → IfOk result (λ v. evaluated v ∷ map evaluated (reverse values.new.items) ≡ values_of (with_cell (Functor name.now arity) ts)) }
{
    if arity == 1 {
        let Some(x) = values.pop() else {
            unreachable!()
        };
        return unary_result(name, x);
    }
    if arity == 2 {
        let (Some(x), Some(y)) = (values.pop(), values.pop()) else {
            unreachable!()
        };
        return binary_result(name, x, y);
    }
    values.truncate(values.len() - arity as usize);
    not_evaluable(name, arity)
}

/// The error of a name with so many arguments that is no function.
pub fn not_evaluable(name: &Atom, arity: u32) -> Result<Result<i64, Problem>, NoMemory>
    ensures { IfOk result (λ v. evaluated v ≡ not_evaluable name.now arity) }
{
    Ok(Err(Problem::NotEvaluable(name.share()?, arity)))
}

/// The value of a function of one argument.
pub fn unary_result(name: &Atom, x: Result<i64, Problem>) -> Result<Result<i64, Problem>, NoMemory>
    ensures { IfOk result (λ v. evaluated v ≡ unary_value name.now (unary_function name.now) (evaluated x)) }
{
    let Some(function) = unary_named(name) else {
        return not_evaluable(name, 1);
    };
    match x {
        Ok(x) => Ok(computed(function.value(x))),
        Err(problem) => Ok(Err(problem)),
    }
}

/// The value of a function of two arguments. An error of the first comes before one of the second.
pub fn binary_result(
    name: &Atom,
    x: Result<i64, Problem>,
    y: Result<i64, Problem>,
) -> Result<Result<i64, Problem>, NoMemory>
    ensures { IfOk result (λ v. evaluated v ≡ binary_value name.now (binary_function name.now) (evaluated x) (evaluated y)) }
{
    let Some(function) = binary_named(name) else {
        return not_evaluable(name, 2);
    };
    match (x, y) {
        (Ok(x), Ok(y)) => Ok(computed(function.value(x, y))),
        (Err(problem), _) => Ok(Err(problem)),
        (Ok(_), Err(problem)) => Ok(Err(problem)),
    }
}

/// What a function answered, with its error as a problem.
fn computed(answer: Result<i64, EvalName>) -> Result<i64, Problem>
    ensures { evaluated result ≡ outcome answer }
{
    match answer {
        Ok(value) => Ok(value),
        Err(error) => Err(Problem::Evaluation(error)),
    }
}
