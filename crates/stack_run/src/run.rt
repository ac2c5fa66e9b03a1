//! Whole runs.
ghost use Rattle.std.specs.Prelude.{◌≡◌, ◌≢◌, ◌≤◌, [], IfOk};
ghost use Rattle.std.specs.Arc.{arc_value};
ghost use Rattle.au_io.specs.FaultCounts.{Increased};
ghost use Rattle.effect_gate.specs.Effects.{world_meant};
ghost use Rattle.stack_run.specs.MachineView.{Begins, HasStatics, program_job};
ghost use Rattle.stack_run.specs.RunEnds.{IsRun};

use crate::ending::{ended, ending_by, failed};
use crate::machine::{Machine, Next, Program};
use crate::query::ask_next;
use crate::step::step;
use crate::waiting::Waiting;
use au_io::Sink;
use au_term::NoMemory;
use effect_gate::World;
use region_run::Stop;
use region_split::Region;
use run_model::{RunEnd, RunEnding};
use std::alloc::Global;
use text_load::{Job, JobParts};

/// Runs a job for at most `budget` inferences, and writes its lines to `out`. A run that a failed write or running out
/// of memory cuts short has written a prefix of its text, and its numbers are 0.
pub fn run_job<K: Sink>(alloc: Global, job: Job, budget: u64, out: &mut K) -> RunEnd
    ensures run { IsRun job budget (K.taken out.old) (K.taken out.new) result }
    ensures fault { result.end ≡ RunEnding.WriteFault → Increased (K.faults out.old) (K.faults out.new) }
    ensures quiet { result.end ≢ RunEnding.WriteFault → K.faults out.new ≡ K.faults out.old }
    ensures faults_stay { K.faults out.old ≤ K.faults out.new }
{
    let JobParts {
        clauses,
        database,
        ops,
        queries,
    } = job.into_parts();
    let world = World {
        out: Vec::new(alloc),
        database,
        ops,
    };
    let Ok(program) = Program::new(alloc, clauses, queries) else {
        return failed(RunEnding::NoMemory);
    };
    let Ok((mut machine, next)) = begin(alloc, &program, world) else {
        return failed(RunEnding::NoMemory);
    };
    run_on(alloc, &program, &mut machine, next, budget, out)
}

/// A run before its first inference.
fn begin(alloc: Global, program: &Program, world: World) -> Result<(Machine, Next), NoMemory>
    requires { world.out.items ≡ [] }
    ensures begins { IfOk result (λ run. Begins program.now run.0 run.1) }
    ensures world { IfOk result (λ run. run.0.world ≡ world) }
{
    let region = Region::new(alloc, program.text.clone()?)?;
    let mut machine = Machine {
        region,
        asked: 0,
        answers: 0,
        world,
    };
    let next = ask_next(alloc, program, &mut machine)?;
    Ok((machine, next))
}

/// Runs on from the first inference to the end.
fn run_on<K: Sink>(
    alloc: Global,
    program: &Program,
    machine: &mut Machine,
    next: Next,
    budget: u64,
    out: &mut K,
) -> RunEnd
    requires begins { Begins program.now machine.old next }
    requires kinds { program.now.kinds ≡ (arc_value program.now.text).code.names }
    requires statics { HasStatics machine.old.region machine.old.world }
    ensures run { IsRun (program_job program.now (world_meant machine.old.world)) budget (K.taken out.old) (K.taken out.new) result }
    ensures fault { result.end ≡ RunEnding.WriteFault → Increased (K.faults out.old) (K.faults out.new) }
    ensures quiet { result.end ≢ RunEnding.WriteFault → K.faults out.new ≡ K.faults out.old }
    ensures faults_stay { K.faults out.old ≤ K.faults out.new }
{
    let mut next = next;
    let mut waiting = Waiting::new(alloc);
    let mut taken = 0;
    loop {
        let halted = next.halted();
        let Ok(ran) = machine.go_on(alloc, &program.kinds, next, budget - taken) else {
            return waiting.close(failed(RunEnding::NoMemory), out);
        };
        taken += ran.taken;
        if matches!(ran.stop, Stop::AllDone) {
            let end = ended(ending_by(halted), machine.answers, taken);
            return waiting.close(end, out);
        }
        if taken == budget {
            let end = ended(RunEnding::Budget, machine.answers, budget);
            return waiting.close(end, out);
        }
        next = match step(alloc, program, machine, ran.stop) {
            Ok(next) => next,
            Err(_) => return waiting.close(failed(RunEnding::NoMemory), out),
        };
        taken += 1;
        match waiting.take(&machine.world.out, out) {
            Ok(()) => {}
            Err(_) => return failed(RunEnding::WriteFault),
        }
        machine.world.out.clear();
    }
}
