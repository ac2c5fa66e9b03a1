//! Branches of bodies, made of alternatives that were taken off a region.
ghost use Rattle.std.specs.Prelude.{IfOk};
ghost use Rattle.task_publishing.specs.MadeBodies.{IsBranchOf, MakesBranches};

use au_term::{NoMemory, Segment, VarNo};
use clause_compile::{Branch, Goals};
use region_capture::CapturedAlternative;
use std::alloc::Global;

/// That of an alternative, by the goals of each number of items, from a next variable number on.
pub(crate) fn branch_of(
    alternative: CapturedAlternative,
    base: VarNo,
    goals: &[Goals],
) -> Result<Branch, NoMemory>
    ensures { IfOk result (IsBranchOf goals.now base alternative) }
{
    let CapturedAlternative {
        first,
        bindings,
        next,
    } = alternative;
    let own = match goals.get(first as usize) {
        Some(own) => own.share()?,
        None => Goals::empty(),
    };
    Ok(Branch {
        goals: own,
        segment: Segment {
            base,
            vars: u64::from(next.saturating_sub(base)),
            bindings,
        },
    })
}

/// A first branch, and those of alternatives.
pub(crate) fn branches_of(
    alloc: Global,
    first: Branch,
    alternatives: Vec<CapturedAlternative>,
    base: VarNo,
    goals: &[Goals],
) -> Result<Vec<Branch>, NoMemory>
    ensures { IfOk result (λ branches. MakesBranches goals.now base first alternatives.items branches.items) }
{
    let mut branches = Vec::new(alloc);
    branches.push(first)?;
    for alternative in alternatives {
        branches.push(branch_of(alternative, base, goals)?)?;
    }
    Ok(branches)
}
