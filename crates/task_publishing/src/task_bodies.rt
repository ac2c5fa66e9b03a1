//! Bodies of what a task has left.
ghost use Rattle.std.specs.Prelude.{IfOk, IsSome};
ghost use Rattle.tree_model.specs.EventViews.{place_view};
ghost use Rattle.tree_nodes.specs.Rows.{cell_at};
ghost use Rattle.public_tree.specs.Publishing.{bodies_view};
ghost use Rattle.task_region.specs.PlacesUp.{AreNumbersUp};
ghost use Rattle.task_publishing.specs.OwnBodies.{HasSomeOwn, IsBranchAt, IsTakenOffTask, LeavesBodies};

use crate::laws::own_entries_are_taken;
use crate::make_bodies;
use au_term::{NoMemory, VarNo};
use branch_bindings::laws::unifiers_are_final;
use clause_compile::Goals;
use region_capture::{Captured, capture};
use region_split::Region;
use std::alloc::Global;
use std::sync::Arc;
use task_region::TaskRegion;
use task_region::branch_laws::places_are_levels;
use tree_model::AltRef;
use tree_nodes::{NodeBody, Nodes};

/// Bodies, the outermost first, of the own entries that the task of an alternative has left, with what it had deferred in the place of
/// what stands for that, by the numbers of the nodes on the way down to it, the outermost first; and the task's region, from which that
/// was taken off.
pub fn bodies_of_task(
    nodes: &Nodes,
    at: AltRef,
    alloc: Global,
    task: TaskRegion,
    numbers: &[u64],
) -> Result<(Vec<Arc<NodeBody>>, Region), NoMemory>
    requires there { IsSome (cell_at nodes.now.rows (place_view at)) }
    requires going { IsSome task.next }
    requires own { HasSomeOwn task }
    requires numbers { AreNumbersUp nodes.now.rows (place_view at) numbers.now }
    ensures { IfOk result (λ left. LeavesBodies nodes.now (place_view at) task (bodies_view left.0.items) left.1) }
{
    own_entries_are_taken();
    unifiers_are_final();
    places_are_levels();
    let (captured, region) = take_off(task, alloc)?;
    let (goals, base) = left_at(nodes, at)?;
    let bodies = make_bodies(alloc, captured, goals, base, numbers, nodes.drawn())?;
    Ok((bodies, region))
}

/// What an alternative has left to do, and its next variable number.
fn left_at(nodes: &Nodes, at: AltRef) -> Result<(&Goals, VarNo), NoMemory>
    requires { IsSome (cell_at nodes.now.rows (place_view at)) }
    ensures { IfOk result (λ left. IsBranchAt nodes.now.rows (place_view at) left.0.now left.1) }
{
    let branch = &nodes.body(at.node).branches[at.alternative as usize];
    match branch.segment.base.checked_add(branch.segment.vars) {
        Some(base) => Ok((&branch.goals, base)),
        None => Err(NoMemory),
    }
}

/// What a task's region has left over its floor, and the region, from which that was taken off.
fn take_off(task: TaskRegion, alloc: Global) -> Result<(Captured, Region), NoMemory>
    requires going { IsSome task.next }
    requires own { HasSomeOwn task }
    ensures { IfOk result (λ off. IsTakenOffTask task off.1 off.0) }
{
    own_entries_are_taken();
    let (region, floor, position) = task.into_region();
    let mut region = region;
    region.ends_are_oldest();
    let captured = capture(&mut region, alloc, floor, position)?;
    region.ends_are_oldest();
    Ok((captured, region))
}
