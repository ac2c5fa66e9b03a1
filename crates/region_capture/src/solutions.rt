//! Solutions that are left to be tried.
ghost use Rattle.std.specs.Prelude.{◌≡◌, ◌<◌, IfOk, length};
ghost use Rattle.region_split.specs.Regions.{IsPositionIn};
ghost use Rattle.region_split.specs.SolutionTrials.{AreSolutionsHere};
ghost use Rattle.region_split.specs.StackOperations.{IsSolutionHere};
ghost use Rattle.region_capture.specs.CaptureSteps.{AreSolutions, CapturesSolution, CapturesSolutions};

use crate::captured::CapturedAlternative;
use crate::clauses::push_captured;
use crate::items::CapturedItems;
use crate::positions::capture_reached;
use au_term::NoMemory;
use region_split::{Alternatives, ChoicePoint, Position, Region, Solution, Solutions};
use std::alloc::Global;

/// The alternatives of solutions before what follows at a position.
pub(crate) fn capture_solutions(
    region: &mut Region,
    alloc: Global,
    solutions: Solutions,
    after: Position,
    items: &mut CapturedItems,
) -> Result<Vec<CapturedAlternative>, NoMemory>
    requires there { AreSolutionsHere region.old solutions }
    requires after { IsPositionIn region.old after }
    ensures { IfOk result (λ taken. CapturesSolutions region.old region.new items.old items.new solutions after taken.items) }
{
    let mut alternatives = Vec::new(alloc);
    let mut left = solutions;
    while let Some(solution) = left.take() {
        let (captured, others) = capture_solution(region, alloc, solution, left, after, items)?;
        left = others;
        push_captured(&mut alternatives, captured)?;
    }
    Ok(alternatives)
}

/// The alternative of a solution, if its equations unify, and those that are left after it. It is tried over a choice point of
/// these, and undone.
fn capture_solution(
    region: &mut Region,
    alloc: Global,
    solution: Solution,
    left: Solutions,
    after: Position,
    items: &mut CapturedItems,
) -> Result<(Option<CapturedAlternative>, Solutions), NoMemory>
    requires there { IsSolutionHere region.old solution }
    requires others { AreSolutionsHere region.old left }
    requires after { IsPositionIn region.old after }
    ensures { IfOk result (λ c. CapturesSolution region.old region.new items.old items.new solution left after c.0 c.1) }
{
    region.ends_are_oldest();
    let cut = region.scope()?;
    region.push_choice(Alternatives::Solutions(left), after)?;
    let reached = region.try_solution(&solution, after, cut)?;
    let captured = capture_reached(region, alloc, cut, reached, items)?;
    let others = solutions_of(region.take_newest());
    Ok((captured, others))
}

/// The solutions of a choice point that has no other alternatives.
fn solutions_of(choice: ChoicePoint) -> Solutions
    requires { AreSolutions choice.alternatives }
    ensures { choice.alternatives ≡ Alternatives.Solutions result }
{
    match choice.alternatives {
        Alternatives::Solutions(left) => left,
        _ => unreachable!(),
    }
}
