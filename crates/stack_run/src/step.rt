//! One inference that a region can't take by itself (ISO/IEC 13211-1, 7.7).
ghost use Rattle.std.specs.Prelude.{◌≡◌, ◌<◌, ◌^◌, ◌-◌, IfOk, OnOk};
ghost use Rattle.std.specs.Arc.{arc_value};
ghost use Rattle.stack_run.specs.MachineView.{HasStatics, IsNextHeld, IsTakenNext, IsOneStep};

use crate::answering::{answer, end_query};
use crate::machine::{Machine, Next, Program};
use crate::world::{take_removal, take_world_goal};
use au_term::NoMemory;
use region_run::Stop;
use std::alloc::Global;

/// Takes the inference at which the region has stopped, and tells how the run goes on.
pub(crate) fn step(
    alloc: Global,
    program: &Program,
    machine: &mut Machine,
    stop: Stop,
) -> Result<Next, NoMemory>
    requires stop { IsTakenNext machine.old.region stop }
    requires text { machine.old.region.text ≡ arc_value program.now.text }
    requires statics { HasStatics machine.old.region machine.old.world }
    requires few { machine.old.answers < 2 ^ 64 - 1 }
    ensures steps { IfOk result (IsOneStep program.now machine.old stop machine.new) }
    ensures there { IfOk result (IsNextHeld machine.new.region) }
    ensures statics { machine.new.world.database.statics ≡ machine.old.world.database.statics }
    ensures text { OnOk result (machine.new.region.text ≡ arc_value program.now.text) }
{
    match stop {
        Stop::World(item, place) => take_world_goal(alloc, machine, item, place),
        Stop::Removal(number, after) => take_removal(alloc, machine, number, after),
        Stop::Answer(position) => answer(alloc, program, machine, position),
        Stop::QueryDone(ball) => end_query(alloc, program, machine, ball),
        Stop::Limit(_, _) | Stop::AllDone => unreachable!(),
    }
}
