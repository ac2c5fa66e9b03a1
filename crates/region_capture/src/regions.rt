//! Regions that are taken off down to a floor.
ghost use Rattle.std.specs.Prelude.{IfOk};
ghost use Rattle.region_split.specs.Regions.{IsPositionIn};
ghost use Rattle.region_capture.specs.CapturedRegions.{CapturesRegion, IsCaptureFloor};

use crate::alternatives::capture_newest;
use crate::captured::Captured;
use crate::items::CapturedItems;
use crate::positions::capture_current;
use au_term::NoMemory;
use region_split::{Position, Region};
use std::alloc::Global;

/// Takes off a region what it has left at a position and above so many choice points, the oldest ones. These are left in it.
pub fn capture(
    region: &mut Region,
    alloc: Global,
    floor: u32,
    position: Position,
) -> Result<Captured, NoMemory>
    requires floor { IsCaptureFloor floor region.old }
    requires position { IsPositionIn region.old position }
    ensures { IfOk result (CapturesRegion region.old region.new floor position) }
{
    region.ends_are_oldest();
    let mut items = CapturedItems::new(alloc);
    let newest = region.height() - 1;
    let start = region.store().next_at(floor as usize - 1);
    let (current, reached) = capture_current(region, alloc, start, newest, position, &mut items)?;
    let mut seen = reached;
    let mut choices = Vec::new(alloc);
    while region.height() > floor as usize {
        let (choice, more) = capture_newest(region, alloc, &mut items, seen)?;
        choices.push(choice)?;
        seen = more;
    }
    Ok(Captured {
        items,
        current,
        choices,
    })
}
