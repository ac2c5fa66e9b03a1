//! Laws of what a job is run with: each function does nothing, and its contract is the law.
ghost use Rattle.scheduler.specs.JobRuns.{EventsLeaveRuns};

/// What a job is run with stays that of its tree, as long as nothing is taken at the front: other events leave the world and the queries.
pub fn events_leave_runs()
    ensures { EventsLeaveRuns }
{}
