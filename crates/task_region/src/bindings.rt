//! The bindings of a branch, made in a region.
ghost use Rattle.std.specs.Prelude.{◌≡◌, [], ◌∷◌, IfOk, IsSome, OnOk, map};
ghost use Rattle.tree_model.specs.EventViews.{place_view};
ghost use Rattle.tree_nodes.specs.Rows.{row_of_node};
ghost use Rattle.branch_reading.specs.BranchSegments.{bindings_on, next_number};
ghost use Rattle.task_region.specs.MadeInTurn.{CanMake, Makes};
ghost use Rattle.task_region.specs.PlacesUp.{AreAtNodes, segments_at};

use au_term::{Binding, NoMemory, Segment};
use region_split::Region;
use tree_model::AltRef;
use tree_nodes::Nodes;

/// Makes the bindings at the places up a branch, the outermost first.
pub(crate) fn bind_way(
    region: &mut Region,
    nodes: &Nodes,
    places: &[AltRef],
) -> Result<(), NoMemory>
    requires nodes { AreAtNodes nodes.now.rows (map place_view places.now) }
    requires can { CanMake region.old (bindings_on (segments_at nodes.now.rows (map place_view places.now))) }
    ensures { OnOk result (Makes region.old region.new (bindings_on (segments_at nodes.now.rows (map place_view places.now)))) }
{
    let mut left = places.len();
    while 0 < left {
        left -= 1;
        bind_place(region, nodes, places[left])?;
    }
    Ok(())
}

fn bind_place(region: &mut Region, nodes: &Nodes, place: AltRef) -> Result<(), NoMemory>
    requires node { IsSome (row_of_node nodes.now.rows place.node) }
    requires can { CanMake region.old (bindings_on (segments_at nodes.now.rows (place_view place ∷ []))) }
    ensures { OnOk result (Makes region.old region.new (bindings_on (segments_at nodes.now.rows (place_view place ∷ [])))) }
{
    let body = nodes.body(place.node);
    bind_all(region, body.segment.bindings.as_slice())?;
    if let Some(branch) = body.branches.get(place.alternative as usize) {
        bind_all(region, branch.segment.bindings.as_slice())?;
    }
    Ok(())
}

fn bind_all(region: &mut Region, bindings: &[Binding]) -> Result<(), NoMemory>
    requires { CanMake region.old bindings.now }
    ensures { OnOk result (Makes region.old region.new bindings.now) }
{
    for binding in bindings {
        bind_one(region, binding)?;
    }
    Ok(())
}

fn bind_one(region: &mut Region, binding: &Binding) -> Result<(), NoMemory>
    requires { CanMake region.old (binding.now ∷ []) }
    ensures { OnOk result (Makes region.old region.new (binding.now ∷ [])) }
{
    let Ok(variable) = u32::try_from(binding.var) else {
        return Err(NoMemory);
    };
    let value = region.copy_in(&binding.value)?;
    region.bind(variable, value)?;
    Ok(())
}

/// The next variable number below an alternative.
pub(crate) fn next_at(nodes: &Nodes, place: AltRef) -> Result<u32, NoMemory>
    requires { IsSome (row_of_node nodes.now.rows place.node) }
    ensures { IfOk result (λ next. next ≡ next_number (segments_at nodes.now.rows (place_view place ∷ []))) }
{
    let body = nodes.body(place.node);
    match body.branches.get(place.alternative as usize) {
        Some(branch) => next_after(&branch.segment),
        None => next_after(&body.segment),
    }
}

fn next_after(segment: &Segment) -> Result<u32, NoMemory>
    ensures { IfOk result (λ next. next ≡ next_number (segment.now ∷ [])) }
{
    let Some(next) = segment.base.checked_add(segment.vars) else {
        return Err(NoMemory);
    };
    match u32::try_from(next) {
        Ok(next) => Ok(next),
        Err(_) => Err(NoMemory),
    }
}
