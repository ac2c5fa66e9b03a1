//! Catches that are left of a task.
ghost use Rattle.std.specs.Prelude.{IsSome, MatchOption};
ghost use Rattle.task_region.specs.TaskCatches.{AreCatchesFrom, HasCatchesAlone, HasOtherChoice, IsOtherFrom};

use crate::task::TaskRegion;
use region_split::Region;

impl TaskRegion {
    /// How many choice points are left over the floor, where all of them are catches. One stays when its goal has ended.
    pub fn catches_left(&self) -> Option<u64>
        requires { IsSome self.now.next }
        ensures { MatchOption result (HasOtherChoice self.now) (HasCatchesAlone self.now) }
    {
        self.region.ends_are_oldest();
        let floor = self.start.floor as usize;
        match other_choice(&self.region, floor) {
            Some(_) => None,
            None => Some((self.region.height() - floor) as u64),
        }
    }
}

/// The first choice point over so many that is no catch.
fn other_choice(region: &Region, from: usize) -> Option<usize>
    ensures { MatchOption result (AreCatchesFrom region.now.choices from) (IsOtherFrom region.now.choices from) }
{
    for over in from..region.height() {
        if !region.is_catch(over) {
            return Some(over);
        }
    }
    None
}
