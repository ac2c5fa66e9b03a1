//! Equations that are solved in a region.
ghost use Rattle.std.specs.Prelude.{◌≡◌, IfOk};
ghost use Rattle.cell_store.specs.StoreView.{AddsText, IsValueIn, value_term, text_in};
ghost use Rattle.region_split.specs.Solutions.{side_term};
ghost use Rattle.region_split.specs.SolutionTrials.{AreEquationsHere, AreSolvedOr, IsSideHere, equations_here};
ghost use Rattle.region_split.specs.StackOperations.{StaysStanding};
ghost use Rattle.front_goals.specs.SolvedSolutions.{KeepsMarked, WritesSolvedOr};

use au_term::{Bindings, NoMemory};
use binding_array::BindingCell;
use region_capture::bindings_since_floor;
use region_split::{Equation, EquationSide, Region};
use std::alloc::Global;

/// What is bound since the floor where equations are solved, if they have a unifier.
pub(crate) fn bindings_of(
    region: &mut Region,
    alloc: Global,
    equations: &[Equation],
) -> Result<Option<Bindings>, NoMemory>
    requires { AreEquationsHere region.old equations.now }
    ensures solves { IfOk result (WritesSolvedOr region.old region.new (equations_here region.old equations.now)) }
    ensures stays { IfOk result (λ _. StaysStanding region.old region.new) }
    ensures keeps { IfOk result (λ _. KeepsMarked region.old.store region.new.store) }
{
    if !solve(region, equations)? {
        return Ok(None);
    }
    Ok(Some(bindings_since_floor(region.store(), alloc)?))
}

/// Solves equations one after another, or answers that they have no unifier.
fn solve(region: &mut Region, equations: &[Equation]) -> Result<bool, NoMemory>
    requires { AreEquationsHere region.old equations.now }
    ensures solves { IfOk result (AreSolvedOr region.old region.new (equations_here region.old equations.now)) }
    ensures keeps { IfOk result (λ _. KeepsMarked region.old.store region.new.store) }
{
    for equation in equations {
        let left = side(region, &equation.left)?;
        let right = side(region, &equation.right)?;
        if !region.unify(left, right)? {
            return Ok(false);
        }
    }
    Ok(true)
}

/// The value of a side.
fn side(region: &mut Region, side: &EquationSide) -> Result<BindingCell, NoMemory>
    requires { IsSideHere region.old side.now }
    ensures there { IfOk result (IsValueIn region.new.store) }
    ensures term { IfOk result (λ value. value_term region.new.store value ≡ side_term (text_in region.old.store) side.now) }
    ensures text { IfOk result (λ _. AddsText region.old.store region.new.store) }
    ensures stays { IfOk result (λ _. StaysStanding region.old region.new) }
{
    match side {
        EquationSide::Value(value) => Ok(*value),
        EquationSide::Copied(term) => region.copy_in(term),
    }
}
