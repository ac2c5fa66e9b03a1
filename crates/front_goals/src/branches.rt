//! Solutions as branches of a node.
ghost use Rattle.std.specs.Prelude.{◌≡◌, ◌++◌, IfOk, OnOk, option_to_list};
ghost use Rattle.region_split.specs.Regions.{IsPositionIn};
ghost use Rattle.region_split.specs.SolutionTrials.{AreSolutionsHere};
ghost use Rattle.region_split.specs.StackOperations.{IsSolutionHere};
ghost use Rattle.front_goals.specs.SolutionBranches.{AreSolutionBranches, IsSolutionBranchOr};
ghost use Rattle.front_goals.specs.SolvedSolutions.{IsRegionTakenBack};

use crate::goals::solution_goals;
use crate::trial::solved_segment;
use au_term::NoMemory;
use clause_compile::{Branch, Goals};
use region_split::{Position, Region, Solution, Solutions};
use std::alloc::Global;

/// A branch for each solution whose equations unify, in their order: its goals cut to a node, and come before what follows. Each is tried
/// in the region, which could go on at a position, and taken back.
pub(crate) fn solution_branches(
    region: &mut Region,
    alloc: Global,
    solutions: Solutions,
    position: Position,
    node: u64,
    follows: &Goals,
) -> Result<Vec<Branch>, NoMemory>
    requires there { AreSolutionsHere region.old solutions }
    requires position { IsPositionIn region.old position }
    ensures branches { IfOk result (λ branches. AreSolutionBranches region.old node follows.now solutions branches.items) }
    ensures back { IfOk result (λ _. IsRegionTakenBack region.old region.new position) }
{
    let mut branches = Vec::new(alloc);
    let mut left = solutions;
    while let Some(solution) = left.take() {
        let branch = solution_branch(region, alloc, &solution, position, node, follows)?;
        push_branch(&mut branches, branch)?;
    }
    Ok(branches)
}

/// The branch of a solution, if its equations unify.
fn solution_branch(
    region: &mut Region,
    alloc: Global,
    solution: &Solution,
    position: Position,
    node: u64,
    follows: &Goals,
) -> Result<Option<Branch>, NoMemory>
    requires there { IsSolutionHere region.old solution.now }
    requires position { IsPositionIn region.old position }
    ensures is { IfOk result (IsSolutionBranchOr region.old node follows.now solution.now) }
    ensures back { IfOk result (λ _. IsRegionTakenBack region.old region.new position) }
{
    let Some(segment) = solved_segment(region, alloc, solution, position)? else {
        return Ok(None);
    };
    let goals = solution_goals(alloc, solution, node, follows)?;
    Ok(Some(Branch { goals, segment }))
}

/// Puts a branch to the others, if there is one.
fn push_branch(branches: &mut Vec<Branch>, branch: Option<Branch>) -> Result<(), NoMemory>
    ensures { OnOk result (branches.new.items ≡ branches.old.items ++ option_to_list branch) }
{
    match branch {
        Some(branch) => branches.push(branch)?,
        None => {}
    }
    Ok(())
}
