//! Laws of answered tasks: each function does nothing, and its contract is the law.
ghost use Rattle.answered_tasks.specs.AnsweredTasks.{AnsweredTasksRunAlone};

/// Where a task has stopped at an answer, and nothing is left over its floor but catches, the run of its alternative comes to that
/// answer over as many recoveries, and to nothing else.
pub fn answered_tasks_run_alone()
    ensures { AnsweredTasksRunAlone }
{}
