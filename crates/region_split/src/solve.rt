//! Goals with solutions, which are tried one after another.
ghost use Rattle.std.specs.Prelude.{◌≡◌, IfOk, length};
ghost use Rattle.cell_store.specs.StoreView.{AddsText, IsValueIn, value_term, text_in};
ghost use Rattle.region_split.specs.Regions.{IsPositionIn, IsPositionOver};
ghost use Rattle.region_split.specs.Solutions.{side_term};
ghost use Rattle.run_model.specs.Machine.Items.{removal_items};
ghost use Rattle.region_split.specs.StackOperations.{PutsBefore, StaysStanding, IsSolutionHere};
ghost use Rattle.region_split.specs.SolutionTrials.{IsSideHere, AreEquationsHere, equations_here, AreSolvedOr, TriesSolution, AreSolutionsHere, Solves};

use crate::choice::Alternatives;
use crate::frame::{FrameItem, Position};
use crate::region::Region;
use crate::solution::{Equation, EquationSide, Solution, Solutions};
use au_term::NoMemory;
use binding_array::BindingCell;

impl Region {
    /// Puts solutions in the place of a goal, and gives the position at which the first one goes on, if its equations unify.
    /// The others are left to a choice point; for no others there is none.
    pub fn solve(
        &mut self,
        solutions: Solutions,
        after: Position,
    ) -> Result<Option<Position>, NoMemory>
        requires there { AreSolutionsHere self.old solutions }
        requires after { IsPositionIn self.old after }
        ensures { IfOk result (Solves self.old self.new solutions after) }
    {
        let cut = self.scope()?;
        let mut left = solutions;
        let Some(first) = left.take() else {
            return Ok(None);
        };
        if left.is_empty() {
            return self.try_solution(&first, after, cut);
        }
        self.push_choice(Alternatives::Solutions(left), after)?;
        self.try_solution(&first, after, cut)
    }

    /// Tries a solution before what follows at a position, in whose goals a cut leaves so many choice points, and gives the
    /// position at which it goes on, if its equations unify. Where they don't, or out of memory, some bindings may be left: the
    /// newest choice point can be taken.
    pub fn try_solution(
        &mut self,
        solution: &Solution,
        after: Position,
        cut: u32,
    ) -> Result<Option<Position>, NoMemory>
        requires there { IsSolutionHere self.old solution.now }
        requires after { IsPositionOver self.old cut after }
        ensures { IfOk result (TriesSolution self.old self.new solution.now after cut) }
    {
        self.fresh(solution.variables())?;
        if !self.solve_all(solution.equations())? {
            return Ok(None);
        }
        let following = self.push_removal(solution.removes(), cut, after)?;
        let position = self.push_goals(solution.goals(), cut, following)?;
        Ok(Some(position))
    }

    /// Puts the removal of a clause before what follows at a position, if one is named.
    fn push_removal(
        &mut self,
        removes: Option<u64>,
        cut: u32,
        after: Position,
    ) -> Result<Position, NoMemory>
        requires { IsPositionOver self.old cut after }
        ensures { IfOk result (PutsBefore self.old self.new (λ heights. removal_items removes) cut after) }
    {
        match removes {
            Some(number) => self.push_item(FrameItem::Removal(number), cut, after),
            None => Ok(after),
        }
    }

    /// Solves equations one after another, or answers that they have no unifier.
    fn solve_all(&mut self, equations: &[Equation]) -> Result<bool, NoMemory>
        requires { AreEquationsHere self.old equations.now }
        ensures { IfOk result (AreSolvedOr self.old self.new (equations_here self.old equations.now)) }
    {
        for equation in equations {
            let left = self.side(&equation.left)?;
            let right = self.side(&equation.right)?;
            if !self.unify(left, right)? {
                return Ok(false);
            }
        }
        Ok(true)
    }

    /// The value of a side.
    fn side(&mut self, side: &EquationSide) -> Result<BindingCell, NoMemory>
        requires { IsSideHere self.old side.now }
        ensures there { IfOk result (IsValueIn self.new.store) }
        ensures term { IfOk result (λ value. value_term self.new.store value ≡ side_term (text_in self.old.store) side.now) }
        ensures text { IfOk result (λ _. AddsText self.old.store self.new.store) }
        ensures stays { IfOk result (λ _. StaysStanding self.old self.new) }
    {
        match side {
            EquationSide::Value(value) => Ok(*value),
            EquationSide::Copied(term) => self.copy_in(term),
        }
    }
}
