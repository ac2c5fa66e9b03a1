//! Operators that were found, as solutions (ISO/IEC 13211-1, 8.14.4).
ghost use Rattle.std.specs.Prelude.{◌≡◌, pos, map, IfOk};
ghost use Rattle.au_term.specs.Term.{IntTerm, AtomTerm};
ghost use Rattle.run_model.specs.Goals.OperatorGoals.{specifier_of};
ghost use Rattle.op_table.specs.OperatorView.{kind_meant, row_meant};
ghost use Rattle.region_control.specs.GoalForms.{argument_terms, AreArgumentsIn};
ghost use Rattle.region_world.specs.RowSolutions.{AreAsked, AreAskedIn, row_solution};

use au_model::build::atom;
use au_term::{Atom, Cell, FlatTerm, NoMemory, Shared};
use binding_array::BindingCell;
use cell_store::Store;
use cell_store::arguments::Arguments;
use op_table::{OpKind, OpRow};
use region_control::argument;
use region_split::{Equation, EquationSide, Solution, Solutions};
use std::alloc::Global;

/// What an operator is asked for.
#[derive(Clone, Copy, Debug)]
pub(crate) struct Asked {
    pub(crate) priority: BindingCell,
    pub(crate) specifier: BindingCell,
    pub(crate) name: BindingCell,
}

/// What an operator is asked for by the arguments of a goal.
pub(crate) fn asked_of(store: &Store, arguments: Arguments) -> Asked
    requires there { AreArgumentsIn store.now arguments }
    requires count { arguments.count ≡ 3 }
    ensures there { AreAskedIn store.now result }
    ensures terms { AreAsked store.now (argument_terms store.now arguments) result }
{
    Asked {
        priority: argument(store, arguments, 0),
        specifier: argument(store, arguments, 1),
        name: argument(store, arguments, 2),
    }
}

/// A solution for each operator.
pub(crate) fn row_solutions(
    alloc: Global,
    asked: Asked,
    rows: &[OpRow],
) -> Result<Solutions, NoMemory>
    ensures { IfOk result (λ solutions. solutions ≡ map (row_solution asked) (map row_meant rows.now)) }
{
    let mut solutions = Vec::new(alloc);
    for row in rows {
        solutions.push(solution_of(alloc, asked, row)?)?;
    }
    Ok(Solutions::new(solutions))
}

/// The solution of an operator.
fn solution_of(alloc: Global, asked: Asked, row: &OpRow) -> Result<Solution, NoMemory>
    ensures { IfOk result (λ solution. solution ≡ row_solution asked (row_meant row.now)) }
{
    let mut equations = Vec::new(alloc);
    let priority = integer(alloc, row.operator.priority)?;
    equations.push(equation(alloc, asked.priority, priority)?)?;
    let specifier = specifier(alloc, row.operator.kind)?;
    equations.push(equation(alloc, asked.specifier, specifier)?)?;
    let name = named(alloc, &row.name)?;
    equations.push(equation(alloc, asked.name, name)?)?;
    Ok(Solution::new(equations, Vec::new(alloc), None, 0))
}

/// A value and a term that are to be made one.
fn equation(alloc: Global, value: BindingCell, term: FlatTerm) -> Result<Equation, NoMemory>
    ensures { IfOk result (λ equation. equation ≡ record { left = EquationSide.Value value; right = EquationSide.Copied term }) }
{
    Ok(Equation {
        left: EquationSide::Value(value),
        right: EquationSide::Copied(Shared::from_term(alloc, term)?),
    })
}

/// A number as a term.
fn integer(alloc: Global, number: u16) -> Result<FlatTerm, NoMemory>
    ensures { IfOk result (λ t. t ≡ IntTerm (pos number)) }
{
    FlatTerm::from_slice(alloc, &[Cell::Int(i64::from(number))])
}

/// An atom as a term.
fn named(alloc: Global, name: &Atom) -> Result<FlatTerm, NoMemory>
    ensures { IfOk result (λ t. t ≡ AtomTerm name.now) }
{
    FlatTerm::from_slice(alloc, &[Cell::Atom(name.share()?)])
}

/// The specifier of a kind.
fn specifier(alloc: Global, kind: OpKind) -> Result<FlatTerm, NoMemory>
    ensures { IfOk result (λ t. t ≡ AtomTerm (specifier_of (kind_meant kind))) }
{
    match kind {
        OpKind::Xfx => atom(alloc, "xfx"),
        OpKind::Xfy => atom(alloc, "xfy"),
        OpKind::Yfx => atom(alloc, "yfx"),
        OpKind::Fy => atom(alloc, "fy"),
        OpKind::Fx => atom(alloc, "fx"),
        OpKind::Xf => atom(alloc, "xf"),
        OpKind::Yf => atom(alloc, "yf"),
    }
}
