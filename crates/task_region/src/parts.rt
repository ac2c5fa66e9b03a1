//! What a task is made of.
ghost use Rattle.std.specs.Prelude.{◌≡◌, IsSome, Some};
ghost use Rattle.region_split.specs.Regions.{IsPositionIn};

use crate::task::TaskRegion;
use region_split::{Position, Region};

impl TaskRegion {
    /// The region, over the floor of so many nodes, and where it goes on.
    pub fn into_region(self) -> (Region, u32, Position)
        requires { IsSome self.next }
        ensures region { result.0 ≡ self.region }
        ensures floor { result.1 ≡ self.floor }
        ensures next { self.next ≡ Some result.2 }
        ensures position { IsPositionIn self.region result.2 }
    {
        match self.next {
            Some(position) => (self.region, self.start.floor, position),
            None => unreachable!(),
        }
    }
}
