//! A task, loaded from the tree.
ghost use Rattle.std.specs.Prelude.{◌≡◌, ◌<◌, ◌^◌, [], true, IfOk, IfSome, IsSome, length, map};
ghost use Rattle.std.specs.Arc.{arc_value};
ghost use Rattle.task_region.specs.DeferringItems.{DefersItems};
ghost use Rattle.tree_model.specs.EventViews.{place_view};
ghost use Rattle.tree_nodes.specs.Rows.{row_of_node};
ghost use Rattle.branch_reading.specs.SettledWays.{is_way_settled};
ghost use Rattle.task_region.specs.PlacesUp.{AreAllUp, branching_at, items_at_place};
ghost use Rattle.task_region.specs.KeptRegions.{IsBoundBranch, IsKeptIn, IsOnWay};
ghost use Rattle.task_region.specs.TaskLoads.{HasLoadableBranch, IsBoundOver, LoadsTask};

use crate::bindings::{bind_way, next_at};
use crate::items::deferred_items;
use crate::kept::KeptRegion;
use crate::places::{has_query, places_below, places_up, push_numbers, query_part};
use crate::{DeferredItem, TaskRegion};
use au_term::NoMemory;
use region_split::{Region, Text};
use std::alloc::Global;
use std::sync::Arc;
use tree_model::AltRef;
use tree_nodes::Nodes;

/// A task, and the numbers of the nodes on the way down to its alternative, the outermost first.
#[derive(Drop)]
pub struct LoadedTask {
    pub task: TaskRegion,
    pub numbers: Vec<u64>,
}

/// The region of a task: what is bound on the branch of an alternative is bound there, and what that has left to do is
/// deferred. The nodes have to know the branch, which has to be settled; a recovery or a findall that sleeps is no task. Where a kept
/// region is given that stands above the alternative in its query, that goes down; else the branch is bound anew.
pub fn load_task(
    nodes: &Nodes,
    at: AltRef,
    alloc: Global,
    text: Arc<Text>,
    kept: Option<KeptRegion>,
) -> Result<LoadedTask, NoMemory>
    requires there { IsSome (row_of_node nodes.now.rows at.node) }
    requires loadable { HasLoadableBranch nodes.now.rows (place_view at) }
    requires kept { IfSome kept (IsKeptIn nodes.now.rows (arc_value text)) }
    ensures loads { IfOk result (λ l. LoadsTask nodes.now (place_view at) (arc_value text) l.task) }
    ensures way { IfOk result (λ l. IsOnWay nodes.now.rows (place_view at) (arc_value text) l.numbers.items l.task) }
{
    let (region, numbers) = bound_branch(nodes, at, alloc, text, kept)?;
    let Ok(floor) = u32::try_from(numbers.len()) else {
        return Err(NoMemory);
    };
    let deferred = items_at(nodes, at, alloc, &numbers)?;
    let task = TaskRegion::new(region, floor, deferred)?;
    Ok(LoadedTask { task, numbers })
}

/// A region in which what is bound on the branch of an alternative is bound, and the numbers of the nodes on the way down.
fn bound_branch(
    nodes: &Nodes,
    at: AltRef,
    alloc: Global,
    text: Arc<Text>,
    kept: Option<KeptRegion>,
) -> Result<(Region, Vec<u64>), NoMemory>
    requires there { IsSome (row_of_node nodes.now.rows at.node) }
    requires loadable { HasLoadableBranch nodes.now.rows (place_view at) }
    requires kept { IfSome kept (IsKeptIn nodes.now.rows (arc_value text)) }
    ensures { IfOk result (λ b. IsBoundBranch nodes.now.rows (place_view at) (arc_value text) b.0 b.1.items) }
{
    if let Some(kept) = kept {
        if let Some(bound) = bound_below(nodes, at, alloc, kept)? {
            return Ok(bound);
        }
    }
    bound_anew(nodes, at, alloc, text)
}

/// The same, where a kept region goes down to the alternative, if that is below it in its query.
fn bound_below(
    nodes: &Nodes,
    at: AltRef,
    alloc: Global,
    kept: KeptRegion,
) -> Result<Option<(Region, Vec<u64>)>, NoMemory>
    requires there { IsSome (row_of_node nodes.now.rows at.node) }
    requires loadable { HasLoadableBranch nodes.now.rows (place_view at) }
    requires kept { IsKeptIn nodes.now.rows kept.region.text kept }
    ensures { IfOk result (λ o. IfSome o (λ b. IsBoundBranch nodes.now.rows (place_view at) kept.region.text b.0 b.1.items)) }
{
    // The proof reads off that there is a tree.
    let _live = nodes.live();
    let Some(places) = places_below(nodes, at, kept.at, alloc)? else {
        return Ok(None);
    };
    if has_query(nodes, &places) {
        return Ok(None);
    }
    let KeptRegion {
        region,
        at: _,
        numbers,
    } = kept;
    let next = next_at(nodes, at)?;
    let Some(more) = next.checked_sub(region.store().next()) else {
        return Ok(None);
    };
    let (mut region, mut numbers) = (region, numbers);
    region.fresh(more)?;
    bind_way(&mut region, nodes, &places)?;
    push_numbers(&mut numbers, &places)?;
    Ok(Some((region, numbers)))
}

/// The same, in a new region.
fn bound_anew(
    nodes: &Nodes,
    at: AltRef,
    alloc: Global,
    text: Arc<Text>,
) -> Result<(Region, Vec<u64>), NoMemory>
    requires there { IsSome (row_of_node nodes.now.rows at.node) }
    requires loadable { HasLoadableBranch nodes.now.rows (place_view at) }
    ensures { IfOk result (λ b. IsBoundBranch nodes.now.rows (place_view at) (arc_value text) b.0 b.1.items) }
{
    let places = places_up(nodes, at, alloc)?;
    let mut numbers = Vec::new(alloc);
    push_numbers(&mut numbers, &places)?;
    let region = bound_region(nodes, at, &places, alloc, text)?;
    Ok((region, numbers))
}

/// A region without choice points in which what is bound at the places up the branch of an alternative is bound.
pub fn bound_region(
    nodes: &Nodes,
    at: AltRef,
    places: &[AltRef],
    alloc: Global,
    text: Arc<Text>,
) -> Result<Region, NoMemory>
    requires there { IsSome (row_of_node nodes.now.rows at.node) }
    requires up { AreAllUp nodes.now.rows (place_view at) (map place_view places.now) }
    requires settled { is_way_settled (branching_at nodes.now.rows (map place_view places.now)) ≡ true }
    ensures { IfOk result (IsBoundOver nodes.now.rows (map place_view places.now) (arc_value text)) }
{
    let next = next_at(nodes, at)?;
    let own = query_part(nodes, places);
    let mut region = Region::new(alloc, text)?;
    region.fresh(next)?;
    bind_way(&mut region, nodes, &places[..own])?;
    Ok(region)
}

// What an alternative has left to do.
fn items_at(
    nodes: &Nodes,
    at: AltRef,
    alloc: Global,
    numbers: &[u64],
) -> Result<Vec<DeferredItem>, NoMemory>
    requires there { IsSome (row_of_node nodes.now.rows at.node) }
    requires few { length numbers.now < 2 ^ 32 }
    ensures { IfOk result (λ items. DefersItems numbers.now [] (items_at_place nodes.now.rows (place_view at)) items.items) }
{
    match nodes.body(at.node).branches.get(at.alternative as usize) {
        Some(branch) => deferred_items(alloc, &branch.goals, numbers),
        None => Ok(Vec::new(alloc)),
    }
}
