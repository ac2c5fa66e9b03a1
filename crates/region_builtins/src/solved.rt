//! Arguments as terms, and solutions of which the terms are copied in.
ghost use Rattle.std.specs.Prelude.{◌≡◌, IfOk, map};
ghost use Rattle.au_model.specs.Terms.Lists.{terms_from};
ghost use Rattle.std_builtins.specs.Answers.{solution_meant};
ghost use Rattle.region_control.specs.GoalForms.{argument_terms, AreArgumentsIn};
ghost use Rattle.region_builtins.specs.CopiedSolutions.{copied_equation, copied_solution};

use au_term::{FlatTerm, NoMemory, Shared};
use cell_store::Store;
use cell_store::arguments::Arguments;
use region_split::{Equation, EquationSide, Solution, Solutions};
use std::alloc::Global;
use std_builtins::Solution as Found;

/// What arguments stand for.
pub(crate) fn resolved_arguments(
    alloc: Global,
    store: &Store,
    arguments: Arguments,
) -> Result<Vec<FlatTerm>, NoMemory>
    requires { AreArgumentsIn store.now arguments }
    ensures { IfOk result (λ terms. terms_from terms.items ≡ argument_terms store.now arguments) }
{
    let mut terms = Vec::new(alloc);
    for i in 0..arguments.count {
        let value = store.argument(arguments.at + i, arguments.base);
        terms.push(store.resolve(value)?)?;
    }
    Ok(terms)
}

/// The solutions that a built-in predicate has found, for the region.
pub(crate) fn solutions_of(alloc: Global, found: &[Found]) -> Result<Solutions, NoMemory>
    ensures { IfOk result (λ solutions. solutions ≡ map copied_solution (map solution_meant found.now)) }
{
    let mut solutions = Vec::new(alloc);
    for solution in found {
        solutions.push(solution_of(alloc, solution)?)?;
    }
    Ok(Solutions::new(solutions))
}

/// One solution for the region.
fn solution_of(alloc: Global, found: &Found) -> Result<Solution, NoMemory>
    ensures { IfOk result (λ solution. solution ≡ copied_solution (solution_meant found.now)) }
{
    let Ok(variables) = u32::try_from(found.vars) else {
        return Err(NoMemory);
    };
    let equations = equations_of(alloc, &found.equations)?;
    Ok(Solution::new(equations, Vec::new(alloc), None, variables))
}

/// Equations whose sides are copied in.
fn equations_of(alloc: Global, found: &[(FlatTerm, FlatTerm)]) -> Result<Vec<Equation>, NoMemory>
    ensures { IfOk result (λ equations. equations.items ≡ map copied_equation found.now) }
{
    let mut equations = Vec::new(alloc);
    for sides in found {
        let left = EquationSide::Copied(Shared::from_term(alloc, sides.0.copy()?)?);
        let right = EquationSide::Copied(Shared::from_term(alloc, sides.1.copy()?)?);
        equations.push(Equation { left, right })?;
    }
    Ok(equations)
}
