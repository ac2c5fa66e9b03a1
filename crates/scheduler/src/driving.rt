//! A job that is driven on its tree.
ghost use Rattle.std.specs.Prelude.{◌≡◌, ◌≢◌, ◌≤◌};
ghost use Rattle.au_io.specs.FaultCounts.{Increased};
ghost use Rattle.stack_run.specs.RunEnds.{IsRun};
ghost use Rattle.scheduler.specs.JobRuns.{IsJobRun};
ghost use Rattle.scheduler.specs.Driving.{IsDriven};
ghost use Rattle.scheduler.specs.Endings.{ClosesFrom};

use crate::JobRun;
use crate::opening::open;
use crate::pieces::{PIECE, put_on};
use crate::run_ending::{cut_short, end_of};
use crate::turns::turn;
use au_io::Sink;
use hand_out_laws::laws::only_stops_stop;
use run_model::{RunEnd, RunEnding};
use std::alloc::Global;
use std::marker::Brand;
use text_load::Job;
use tree_core::{JobBrand, Tree};

/// Runs a job on its tree for at most `budget` inferences, by one worker, and writes its lines to `out`: to the byte, and with the
/// ending and the numbers, the sequential run of the job. A run that a failed write or running out of memory cuts short has written
/// a prefix of its text, and its numbers are 0. Where `window` nodes are live, only the leftmost alternative is handed out.
/// A run that has taken 2^64 - 1 turns is given up like one that is out of memory.
pub fn drive<K: Sink>(alloc: Global, job: Job, budget: u64, window: u64, out: &mut K) -> RunEnd
    ensures run { IsRun job budget (K.taken out.old) (K.taken out.new) result }
    ensures fault { result.end ≡ RunEnding.WriteFault → Increased (K.faults out.old) (K.faults out.new) }
    ensures quiet { result.end ≢ RunEnding.WriteFault → K.faults out.new ≡ K.faults out.old }
    ensures faults_stay { K.faults out.old ≤ K.faults out.new }
{
    drive_job::<Brand, K>(alloc, job, budget, window, out)
}

/// The same for the tree of the job.
fn drive_job<J: JobBrand, K: Sink>(
    alloc: Global,
    job: Job,
    budget: u64,
    window: u64,
    out: &mut K,
) -> RunEnd
    requires { J.job ≡ job }
    ensures run { IsRun job budget (K.taken out.old) (K.taken out.new) result }
    ensures fault { result.end ≡ RunEnding.WriteFault → Increased (K.faults out.old) (K.faults out.new) }
    ensures quiet { result.end ≢ RunEnding.WriteFault → K.faults out.new ≡ K.faults out.old }
    ensures faults_stay { K.faults out.old ≤ K.faults out.new }
{
    match open::<J>(alloc, job, budget, window) {
        Ok((mut tree, mut run)) => drive_on(alloc, &mut tree, &mut run, budget, out),
        Err(_) => cut_short(RunEnding::NoMemory),
    }
}

/// The same from where the tree stands.
fn drive_on<J: JobBrand, K: Sink>(
    alloc: Global,
    tree: &mut Tree<J>,
    run: &mut JobRun,
    budget: u64,
    out: &mut K,
) -> RunEnd
    requires budget { tree.old.history.budget ≡ budget }
    requires driven { IsDriven tree.old.history }
    requires run { IsJobRun tree.old.history run.old }
    ensures run { IsRun tree.old.history.job budget (K.taken out.old) (K.taken out.new) result }
    ensures fault { result.end ≡ RunEnding.WriteFault → Increased (K.faults out.old) (K.faults out.new) }
    ensures quiet { result.end ≢ RunEnding.WriteFault → K.faults out.new ≡ K.faults out.old }
    ensures faults_stay { K.faults out.old ≤ K.faults out.new }
{
    only_stops_stop();
    let mut put = 0;
    let mut kept = None;
    for _turn in 0..u64::MAX {
        if let Some(end) = end_of(tree, budget) {
            return close(&run.world.out, put, end, out);
        }
        match turn(tree, run, alloc, budget, kept) {
            Ok(left) => kept = left,
            Err(_) => return cut_short(RunEnding::NoMemory),
        }
        // The proof reads off that what was written is a front of the job's text.
        tree.keeps_promises();
        match put_on(&run.world.out, put, PIECE, out) {
            Ok(now) => put = now,
            Err(_) => return cut_short(RunEnding::WriteFault),
        }
    }
    cut_short(RunEnding::NoMemory)
}

/// Puts out what was written behind so many bytes, and ends the run so, unless the write fails.
fn close<K: Sink>(written: &[u8], put: usize, end: RunEnd, out: &mut K) -> RunEnd
    requires { end.end ≢ RunEnding.WriteFault }
    ensures closes { ClosesFrom written.now put (K.taken out.old) (K.taken out.new) end result }
    ensures fault { result.end ≡ RunEnding.WriteFault → Increased (K.faults out.old) (K.faults out.new) }
    ensures quiet { result.end ≢ RunEnding.WriteFault → K.faults out.new ≡ K.faults out.old }
    ensures faults_stay { K.faults out.old ≤ K.faults out.new }
{
    match put_on(written, put, 1, out) {
        Ok(_) => end,
        Err(_) => cut_short(RunEnding::WriteFault),
    }
}
