//! Laws of the gates at which tasks stop: each function does nothing, and its contract is the law.
ghost use Rattle.task_stops.specs.StopCauses.{CausesAreStops, LoadedTasksStopFor, StoppedTasksRunOnFor};
ghost use Rattle.task_stops.specs.StopGates.{CutStopsAreCuts, StopsAreGates};

use region_floor::laws::runs::alternatives_start_regions;

/// A task that was loaded and run, and run on, stops on the run of its alternative for the cause that it tells.
pub fn tasks_stop_for_causes()
    ensures loaded { LoadedTasksStopFor }
    ensures on { StoppedTasksRunOnFor }
    ensures stops { CausesAreStops }
{}

/// Where a task has stopped before any inference, its alternative is at the gate that the stop tells.
pub fn stops_are_gates()
    ensures gates { StopsAreGates }
    ensures cuts { CutStopsAreCuts }
{
    alternatives_start_regions();
}
