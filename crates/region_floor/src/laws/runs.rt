//! A region over a bare floor runs as the private run of its branch, from its start to its stop.
ghost use Rattle.region_floor.specs.RegionRuns.{RegionStarts, FreeStepsStand, ControlsStand, SolutionsStand, BallsStand, BallsStop};
ghost use Rattle.region_floor.specs.RegionRuns.{WorldGoalsStop, HaltsStop, CutsStop, GoalsLoaded, MarksSkipped, AnswersStop};
ghost use Rattle.region_floor.specs.RegionRuns.{RemovalsStop, ResultsStop, NothingStops, EndsAreEmpty, NothingIsEmpty, EntriesByHeights, MarksAreOuter};
ghost use Rattle.region_floor.specs.RegionRuns.{NoBallIsLeft};
ghost use Rattle.region_floor.specs.NextNumbers.{NextNeverFalls};

/// A region that defers all that is left to do stands at the start of the private run; free steps leave it where it is.
pub fn region_stands_at_start()
    ensures start { RegionStarts }
    ensures free { FreeStepsStand }
{}

/// What takes the place of a goal on top stands where the run is one inference later.
pub fn region_goes_on()
    ensures control { ControlsStand }
    ensures solutions { SolutionsStand }
    ensures ball { BallsStand }
{}

/// A goal on top that is a gate of its branch stops the run.
pub fn region_stops_at_goals()
    ensures world { WorldGoalsStop }
    ensures halt { HaltsStop }
    ensures cut { CutsStop }
    ensures ball { BallsStop }
{}

/// Where what is deferred is on top, its next goals in one scope are loaded, its next mark is skipped, or the run stops.
pub fn region_takes_deferred_items()
    ensures goals { GoalsLoaded }
    ensures mark { MarksSkipped }
    ensures answer { AnswersStop }
    ensures removal { RemovalsStop }
    ensures result { ResultsStop }
{}

/// With no item on top the run stops, and with no own entry nothing is left of it; no end with a ball is ever on top.
pub fn region_ends()
    ensures nothing { NothingStops }
    ensures end { EndsAreEmpty }
    ensures none { NothingIsEmpty }
    ensures ball { NoBallIsLeft }
{}

/// What an alternative of the tree reads as is, by heights, what a region may start with: its marks are those of the floor.
pub fn alternatives_start_regions()
    ensures entry { EntriesByHeights }
    ensures outer { MarksAreOuter }
{}

/// Where a goal or what is deferred is on top, the next variable number is not below the one with which the run started.
pub fn numbers_never_fall()
    ensures { NextNeverFalls }
{}
