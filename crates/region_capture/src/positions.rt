//! What is left at a position.
ghost use Rattle.std.specs.Prelude.{◌≡◌, ◌<◌, IfOk, OnOk, length, map};
ghost use Rattle.region_split.specs.ClauseTrials.{IsOptionalPosition};
ghost use Rattle.region_split.specs.Regions.{IsPositionIn, items_here};
ghost use Rattle.region_capture.specs.CapturedItems.{AddsItems, HasItems, captured_item};
ghost use Rattle.region_capture.specs.CaptureSteps.{CapturesPosition, CapturesReached};
ghost use Rattle.region_capture.specs.NeededBindings.{CapturesCurrent};

use crate::captured::CapturedAlternative;
use crate::items::{CapturedItem, CapturedItems};
use crate::levels::bindings_for_items;
use crate::seen::SeenVariables;
use crate::writing::{bindings_since, written_item};
use au_term::NoMemory;
use region_split::{Left, Position, Region};
use std::alloc::Global;

/// Where something was reached, what is left there, with the bindings since the mark over so many others.
pub(crate) fn capture_reached(
    region: &Region,
    alloc: Global,
    mark: u32,
    reached: Option<Position>,
    items: &mut CapturedItems,
) -> Result<Option<CapturedAlternative>, NoMemory>
    requires mark { mark < length region.now.choices }
    requires reached { IsOptionalPosition region.now mark reached }
    ensures { IfOk result (CapturesReached region.now mark reached items.old items.new) }
{
    match reached {
        Some(position) => {
            let alternative = capture_position(region, alloc, mark as usize, position, items)?;
            Ok(Some(alternative))
        }
        None => Ok(None),
    }
}

/// What is left at a position, with the bindings since the mark over so many others.
pub(crate) fn capture_position(
    region: &Region,
    alloc: Global,
    mark: usize,
    position: Position,
    items: &mut CapturedItems,
) -> Result<CapturedAlternative, NoMemory>
    requires mark { mark < length region.now.choices }
    requires position { IsPositionIn region.now position }
    ensures { IfOk result (CapturesPosition region.now mark position items.old items.new) }
{
    region.ends_are_oldest();
    let first = capture_items(region, alloc, position, items)?;
    let bindings = bindings_since(region.store(), alloc, mark)?;
    let next = u64::from(region.store().next());
    Ok(CapturedAlternative {
        first,
        bindings,
        next,
    })
}

/// What is left at a position, with those bindings since the mark over so many others that it can reach, and those of variables that
/// were there at the mark; and what it can reach. Those before a floor are few.
pub(crate) fn capture_current(
    region: &Region,
    alloc: Global,
    floor: u32,
    mark: usize,
    position: Position,
    items: &mut CapturedItems,
) -> Result<(CapturedAlternative, SeenVariables), NoMemory>
    requires mark { mark < length region.now.choices }
    requires position { IsPositionIn region.now position }
    ensures { IfOk result (λ c. CapturesCurrent region.now mark position items.old items.new c.0 c.1) }
{
    region.ends_are_oldest();
    let first = capture_items(region, alloc, position, items)?;
    let store = region.store();
    let unseen = SeenVariables::new(alloc, floor, store.next())?;
    let (bindings, seen) = bindings_for_items(store, alloc, mark, items, first, unseen)?;
    let next = u64::from(store.next());
    let current = CapturedAlternative {
        first,
        bindings,
        next,
    };
    Ok((current, seen))
}

/// Puts the items that are left at a position to the others, and gives the number that has them.
pub(crate) fn capture_items(
    region: &Region,
    alloc: Global,
    position: Position,
    items: &mut CapturedItems,
) -> Result<u32, NoMemory>
    requires { IsPositionIn region.now position }
    ensures has { IfOk result (λ number. HasItems items.new number (items_here region.now position)) }
    ensures adds { OnOk result (AddsItems items.old items.new) }
{
    let mut left = items_left(region, alloc, position)?;
    let mut number = items.nothing();
    while let Some(item) = left.pop() {
        number = items.push(item, number)?;
    }
    Ok(number)
}

/// The items that are left at a position, as they are written.
fn items_left(
    region: &Region,
    alloc: Global,
    position: Position,
) -> Result<Vec<CapturedItem>, NoMemory>
    requires { IsPositionIn region.now position }
    ensures { IfOk result (λ left. map captured_item left.items ≡ items_here region.now position) }
{
    let mut items = Vec::new(alloc);
    let mut position = position;
    loop {
        match region.left_at(position) {
            Left::First(item, cut) => {
                let Some(at) = position.at.checked_add(1) else {
                    return Err(NoMemory);
                };
                items.push(written_item(region, alloc, item, cut)?)?;
                position.at = at;
            }
            Left::GoesOnAt(older) => position = older,
            Left::Nothing => return Ok(items),
        }
    }
}
