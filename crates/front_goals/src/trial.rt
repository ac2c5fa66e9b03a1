//! Solutions that are tried in the region of a task, and taken back.
ghost use Rattle.std.specs.Prelude.{◌≡◌, IfOk};
ghost use Rattle.region_split.specs.Regions.{IsPositionIn};
ghost use Rattle.region_split.specs.StackOperations.{IsSolutionHere};
ghost use Rattle.front_goals.specs.SolvedSolutions.{IsRegionTakenBack, SolvesOr};

use crate::solving::bindings_of;
use au_term::{NoMemory, Segment};
use region_split::{Alternatives, Position, Region, Solution};
use std::alloc::Global;

/// The segment that leads from the floor to where the equations of a solution are solved, if they unify. The region is left as it was; it
/// could go on at a position.
pub(crate) fn solved_segment(
    region: &mut Region,
    alloc: Global,
    solution: &Solution,
    position: Position,
) -> Result<Option<Segment>, NoMemory>
    requires there { IsSolutionHere region.old solution.now }
    requires position { IsPositionIn region.old position }
    ensures solves { IfOk result (SolvesOr region.old solution.now) }
    ensures back { IfOk result (λ _. IsRegionTakenBack region.old region.new position) }
{
    region.ends_are_oldest();
    region.push_choice(Alternatives::Elsewhere, position)?;
    let vars = solution.variables();
    let base = region.fresh(vars)?;
    let bindings = bindings_of(region, alloc, solution.equations())?;
    let _mark = region.take_newest();
    match bindings {
        Some(bindings) => Ok(Some(Segment {
            base: u64::from(base),
            vars: u64::from(vars),
            bindings,
        })),
        None => Ok(None),
    }
}
