//! Laws of the ends of tasks: each function does nothing, and its contract is the law.
ghost use Rattle.task_stops.specs.EndLaws.{EndedRunsAreEmpty, TaskResultsAreGiven};

/// Where a task has found that nothing is left, the private run of its alternative is at its end.
pub fn ended_runs_are_empty()
    ensures { EndedRunsAreEmpty }
{}

/// Where a task has come to a result for a findall above and nothing else is left of its run, as before the first inference and where it
/// has no other choice, its alternative gives this result.
pub fn results_are_given()
    ensures { TaskResultsAreGiven }
{}
