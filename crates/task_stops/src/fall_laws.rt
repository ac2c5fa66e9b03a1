//! Laws of the balls of tasks: each function does nothing, and its contract is the law.
ghost use Rattle.task_stops.specs.ThrownBalls.{BallStopsThrow};

use crate::gate_laws::stops_are_gates;

/// Where a task has stopped at a ball before any inference, the first goal of its alternative throws that ball.
pub fn ball_stops_throw()
    ensures { BallStopsThrow }
{
    stops_are_gates();
}
