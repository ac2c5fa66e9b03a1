//! Laws of where balls land: each function does nothing, and its contract is the law.
ghost use Rattle.task_stops.specs.BranchLandings.{BallsLandByNodes};
ghost use Rattle.task_stops.specs.CopiesAgain.{CopiesAreAlike};
ghost use Rattle.task_stops.specs.FoundLandings.{OutsCanLandBalls};
ghost use Rattle.task_stops.specs.LandingBodies.{LandingsRead};

use branch_reading::laws::numbered_trees_are_settled;
use branch_shapes::laws::{branches_read_bound, settled_segments_bind};
use task_region::branch_laws::places_are_levels;

/// What a ball leaves of a branch is told by what its nodes were made from.
pub fn balls_land()
    ensures { BallsLandByNodes }
{
    numbered_trees_are_settled();
}

/// `land_ball` can be called for what is out to a worker in a legal tree: the catches that sleep on its branch can be read.
pub fn outs_can_land_balls()
    ensures { OutsCanLandBalls }
{
    numbered_trees_are_settled();
    places_are_levels();
}

/// The body of what a ball leaves reads as that.
pub fn landings_read()
    ensures { LandingsRead }
{
    numbered_trees_are_settled();
    settled_segments_bind();
    branches_read_bound();
}

/// A copy with its variables numbered from 0 has the copies of the term itself.
pub fn copies_are_alike()
    ensures { CopiesAreAlike }
{}
