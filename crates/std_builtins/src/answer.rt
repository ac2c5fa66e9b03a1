//! What a built-in predicate answers.
ghost use Rattle.std.specs.Prelude.{◌≡◌, ◌∷◌, [], None, Ok, Err};
ghost use Rattle.au_model.specs.Terms.Faults.{error_term_of};
ghost use Rattle.run_model.specs.Goals.BuiltinAnswers.{holds_if, equal, one_solution};
ghost use Rattle.std_builtins.specs.Answers.{IsAnswer};

use au_model::Fault;
use au_term::{FlatTerm, NoMemory};
use std::alloc::{AllocError, AllocFailed, Global};

/// One way for a goal to hold: where the equations unify. Its new variables are so many, from the next number on.
#[derive(Drop)]
pub struct Solution {
    pub equations: Vec<(FlatTerm, FlatTerm)>,
    pub vars: u64,
}

/// Why a goal has no answer: its error, or running out of memory.
#[derive(Drop)]
pub enum BuiltinRefusal {
    Fault(Fault),
    NoMemory,
}

impl From<NoMemory> for BuiltinRefusal {
    ghost use Rattle.std_builtins.specs.declared.answer.BuiltinRefusal.TheVariants.{NoMemory as NoMemoryLeft};

    ghost from_gives = { λ _ e. e ≡ NoMemoryLeft };

    fn from(_error: NoMemory) -> BuiltinRefusal {
        BuiltinRefusal::NoMemory
    }
}

impl<T: Drop> From<AllocFailed<T>> for BuiltinRefusal {
    ghost use Rattle.std_builtins.specs.declared.answer.BuiltinRefusal.TheVariants.{NoMemory as NoMemoryLeft};

    ghost from_gives = { λ _ e. e ≡ NoMemoryLeft };

    fn from(_error: AllocFailed<T>) -> BuiltinRefusal {
        BuiltinRefusal::NoMemory
    }
}

/// One solution without equations, or none.
pub(crate) fn holds_if(alloc: Global, holds: bool) -> Result<Vec<Solution>, BuiltinRefusal>
    ensures { IsAnswer (holds_if holds) result }
{
    let mut solutions = Vec::new(alloc);
    if holds {
        let equations = Vec::new(alloc);
        solutions.push(Solution { equations, vars: 0 })?;
    }
    Ok(solutions)
}

/// One solution, where two terms unify.
pub(crate) fn equal(
    alloc: Global,
    left: FlatTerm,
    right: FlatTerm,
) -> Result<Vec<Solution>, BuiltinRefusal>
    ensures { IsAnswer (equal left right) result }
{
    equal_with(alloc, left, right, 0)
}

/// One solution with new variables, where two terms unify.
pub(crate) fn equal_with(
    alloc: Global,
    left: FlatTerm,
    right: FlatTerm,
    vars: u64,
) -> Result<Vec<Solution>, BuiltinRefusal>
    ensures { IsAnswer (Ok (record { equations = (left, right) ∷ []; goals = []; removes = None; variables = vars } ∷ [])) result }
{
    let mut equations = Vec::new(alloc);
    equations.push((left, right))?;
    let mut solutions = Vec::new(alloc);
    solutions.push(Solution { equations, vars })?;
    Ok(solutions)
}

/// One solution, where the terms of two pairs unify.
pub(crate) fn both_equal(
    alloc: Global,
    first: (FlatTerm, FlatTerm),
    second: (FlatTerm, FlatTerm),
) -> Result<Vec<Solution>, BuiltinRefusal>
    ensures { IsAnswer (one_solution (first ∷ second ∷ [])) result }
{
    let mut equations = Vec::new(alloc);
    equations.push(first)?;
    equations.push(second)?;
    let mut solutions = Vec::new(alloc);
    solutions.push(Solution { equations, vars: 0 })?;
    Ok(solutions)
}

/// An error.
pub(crate) fn failed(fault: Fault) -> Result<Vec<Solution>, BuiltinRefusal>
    ensures { IsAnswer (Err (error_term_of fault)) result }
{
    Err(BuiltinRefusal::Fault(fault))
}
