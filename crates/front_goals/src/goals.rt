//! What solutions leave to do.
ghost use Rattle.std.specs.Prelude.{◌≡◌, ◌++◌, IfOk};
ghost use Rattle.front_goals.specs.SolutionBranches.{clause_removal, solution_items};

use au_term::NoMemory;
use clause_compile::{ClauseId, Goals, Item, Scope};
use region_split::Solution;
use std::alloc::Global;

/// The goals of a solution, which cut to a node, and the removal of its clause, if it names one, before what follows.
pub(crate) fn solution_goals(
    alloc: Global,
    solution: &Solution,
    node: u64,
    follows: &Goals,
) -> Result<Goals, NoMemory>
    ensures { IfOk result (λ goals. goals ≡ solution_items node solution.now follows.now) }
{
    let mut goals = removal_before(alloc, solution.removes(), follows)?;
    let given = solution.goals();
    let mut left = given.len();
    while left > 0 {
        left -= 1;
        let item = Item::Goal {
            term: given[left].share()?,
            cut: Scope::Node(node),
        };
        goals = goals.push(alloc, item)?;
    }
    Ok(goals)
}

/// The removal of a clause, if one is named, before what follows.
fn removal_before(alloc: Global, removes: Option<u64>, follows: &Goals) -> Result<Goals, NoMemory>
    ensures { IfOk result (λ goals. goals ≡ clause_removal removes ++ follows.now) }
{
    match removes {
        Some(number) => follows.push(alloc, Item::Remove(ClauseId(number))),
        None => follows.share(),
    }
}
