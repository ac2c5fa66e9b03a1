//! Laws of what a task tells of the front: each function does nothing, and its contract is the law.
ghost use Rattle.task_world.specs.FrontsTold.{AnswersAreTold, LoadedTasksStopAtFront, RemovalsAreTold};

/// A task that was loaded and run, and took no inference, stands at the front of its alternative.
pub fn tasks_stop_at_front()
    ensures { LoadedTasksStopAtFront }
{}

/// What such a task stops at is next of its alternative in the tree: the removal of a clause, or an answer.
pub fn fronts_are_told()
    ensures removal { RemovalsAreTold }
    ensures answer { AnswersAreTold }
{}
