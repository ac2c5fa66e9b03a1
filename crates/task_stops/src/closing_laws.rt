//! Laws of what wakes: each function does nothing, and its contract is the law.
ghost use Rattle.task_stops.specs.WakingPlaces.{WakingClosingsAreNoCatch};

/// Where something wakes as a closing rests, no recovery sleeps there.
pub fn waking_closings_are_no_catch()
    ensures { WakingClosingsAreNoCatch }
{}
