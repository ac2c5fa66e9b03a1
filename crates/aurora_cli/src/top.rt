//! The public call.
ghost use Rattle.std.specs.Prelude.{◌≡◌, ◌≢◌, ◌≤◌, ◌<◌, ◌+◌, length, map, IfOk, IfErr, IsErrOf, IfSome, Err, None};
ghost use Rattle.std.specs.String.{string_bytes};
ghost use Rattle.au_io.specs.FaultCounts.{Increased, IncreasedBy};
ghost use Rattle.run_model.specs.declared.ending.UsageKind.{UsageKind as UsageKinds};
ghost use Rattle.aurora_cli.specs.CommandWords.{asked_by};
ghost use Rattle.aurora_cli.specs.Endings.{ComesOfText, EndsBy, IsComplete, IsJobLoaded, ending_after, IsCompleteFor, IsNotIncreased, IsRefusedAs, IsRefusedFor};
ghost use Rattle.aurora_cli.specs.LoadFaults.{IsLoadFault, IsReadWhole};

use crate::job::job_of;
use crate::words::{Command, command_of};
use au_io::{Gate, ReadRefusal, Shelf, Sink};
use run_model::{Ending, RunEnding, UsageKind};
use stack_run::run_job;
use std::alloc::Global;
use std::sync::Wait;
use std::thread::Threads;
use text_load::Job;

/// How many bytes a text has at most.
const LONGEST_TEXT: usize = 16_777_216;

/// Runs the text FILE for at most BUDGET inferences, as the three words ask: the program's name, FILE and BUDGET. Its
/// lines go to `out`; nothing is written before the text is read whole and loaded.
pub fn aurora<R: Threads + Wait + Sync, S: Shelf, K: Sink, G: Gate>(
    _rt: &R,
    alloc: Global,
    words: &[String],
    shelf: &mut S,
    out: &mut K,
    _gate: &G,
) -> Ending
    ensures usage { asked_by (map string_bytes words.now) ≡ None → result ≡ Ending.Usage UsageKind.Words }
    ensures asked { (kind : UsageKinds) → result ≡ Ending.Usage kind → asked_by (map string_bytes words.now) ≡ None }
    ensures unasked { asked_by (map string_bytes words.now) ≡ None → (S.drawn shelf.new ≡ S.drawn shelf.old) × (S.faults shelf.new ≡ S.faults shelf.old) }
    ensures once { S.drawn shelf.new ≤ S.drawn shelf.old + 16777217 }
    ensures unwritten { asked_by (map string_bytes words.now) ≡ None → K.taken out.new ≡ K.taken out.old }
    ensures read_fault { result ≡ Ending.ReadFault → Increased (S.faults shelf.old) (S.faults shelf.new) }
    ensures read_quiet { result ≢ Ending.ReadFault → S.faults shelf.new ≡ S.faults shelf.old }
    ensures too_long { result ≡ Ending.TooLong → IncreasedBy 16777217 (S.drawn shelf.old) (S.drawn shelf.new) }
    ensures long { result ≡ Ending.TooLong → IfSome (asked_by (map string_bytes words.now)) (λ asked. IfSome (S.held shelf.old asked.file) (λ told. 16777216 < length told)) }
    ensures short { ComesOfText result → IfSome (asked_by (map string_bytes words.now)) (λ asked. IfSome (S.held shelf.old asked.file) (λ told. length told ≤ 16777216)) }
    ensures write_fault { result ≡ Ending.WriteFault → Increased (K.faults out.old) (K.faults out.new) }
    ensures write_quiet { result ≢ Ending.WriteFault → K.faults out.new ≡ K.faults out.old }
    ensures run { IfSome (asked_by (map string_bytes words.now)) (λ asked. EndsBy result (S.held shelf.old asked.file) asked.budget (K.taken out.old) (K.taken out.new)) }
    ensures complete { IsNotIncreased (S.faults shelf.old) (S.faults shelf.new) → IsNotIncreased (K.faults out.old) (K.faults out.new)
        → IfSome (asked_by (map string_bytes words.now)) (IsCompleteFor (S.held shelf.old) result) }
    ensures refusal { IsNotIncreased (S.faults shelf.old) (S.faults shelf.new)
        → IfSome (asked_by (map string_bytes words.now)) (IsRefusedFor (S.held shelf.old) result) }
{
    run_words(alloc, words, shelf, out)
}

/// The work of `aurora`, with no handle that could wait.
fn run_words<S: Shelf, K: Sink>(
    alloc: Global,
    words: &[String],
    shelf: &mut S,
    out: &mut K,
) -> Ending
    ensures usage { asked_by (map string_bytes words.now) ≡ None → result ≡ Ending.Usage UsageKind.Words }
    ensures asked { (kind : UsageKinds) → result ≡ Ending.Usage kind → asked_by (map string_bytes words.now) ≡ None }
    ensures unasked { asked_by (map string_bytes words.now) ≡ None → (S.drawn shelf.new ≡ S.drawn shelf.old) × (S.faults shelf.new ≡ S.faults shelf.old) }
    ensures once { S.drawn shelf.new ≤ S.drawn shelf.old + 16777217 }
    ensures unwritten { asked_by (map string_bytes words.now) ≡ None → K.taken out.new ≡ K.taken out.old }
    ensures read_fault { result ≡ Ending.ReadFault → Increased (S.faults shelf.old) (S.faults shelf.new) }
    ensures read_quiet { result ≢ Ending.ReadFault → S.faults shelf.new ≡ S.faults shelf.old }
    ensures too_long { result ≡ Ending.TooLong → IncreasedBy 16777217 (S.drawn shelf.old) (S.drawn shelf.new) }
    ensures long { result ≡ Ending.TooLong → IfSome (asked_by (map string_bytes words.now)) (λ asked. IfSome (S.held shelf.old asked.file) (λ told. 16777216 < length told)) }
    ensures short { ComesOfText result → IfSome (asked_by (map string_bytes words.now)) (λ asked. IfSome (S.held shelf.old asked.file) (λ told. length told ≤ 16777216)) }
    ensures write_fault { result ≡ Ending.WriteFault → Increased (K.faults out.old) (K.faults out.new) }
    ensures write_quiet { result ≢ Ending.WriteFault → K.faults out.new ≡ K.faults out.old }
    ensures run { IfSome (asked_by (map string_bytes words.now)) (λ asked. EndsBy result (S.held shelf.old asked.file) asked.budget (K.taken out.old) (K.taken out.new)) }
    ensures complete { IsNotIncreased (S.faults shelf.old) (S.faults shelf.new) → IsNotIncreased (K.faults out.old) (K.faults out.new)
        → IfSome (asked_by (map string_bytes words.now)) (IsCompleteFor (S.held shelf.old) result) }
    ensures refusal { IsNotIncreased (S.faults shelf.old) (S.faults shelf.new)
        → IfSome (asked_by (map string_bytes words.now)) (IsRefusedFor (S.held shelf.old) result) }
{
    match command_of(words) {
        None => Ending::Usage(UsageKind::Words),
        Some(command) => run_command(alloc, &command, shelf, out),
    }
}

/// Does what a command asks for.
fn run_command<S: Shelf, K: Sink>(
    alloc: Global,
    command: &Command<'_>,
    shelf: &mut S,
    out: &mut K,
) -> Ending
    ensures used { (kind : UsageKinds) → result ≢ Ending.Usage kind }
    ensures once { S.drawn shelf.new ≤ S.drawn shelf.old + 16777217 }
    ensures read_fault { result ≡ Ending.ReadFault → Increased (S.faults shelf.old) (S.faults shelf.new) }
    ensures read_quiet { result ≢ Ending.ReadFault → S.faults shelf.new ≡ S.faults shelf.old }
    ensures too_long { result ≡ Ending.TooLong → IncreasedBy 16777217 (S.drawn shelf.old) (S.drawn shelf.new) }
    ensures long { result ≡ Ending.TooLong → IfSome (S.held shelf.old command.now.file.now) (λ told. 16777216 < length told) }
    ensures short { ComesOfText result → IfSome (S.held shelf.old command.now.file.now) (λ told. length told ≤ 16777216) }
    ensures write_fault { result ≡ Ending.WriteFault → Increased (K.faults out.old) (K.faults out.new) }
    ensures write_quiet { result ≢ Ending.WriteFault → K.faults out.new ≡ K.faults out.old }
    ensures run { EndsBy result (S.held shelf.old command.now.file.now) command.now.budget (K.taken out.old) (K.taken out.new) }
    ensures complete { IsNotIncreased (S.faults shelf.old) (S.faults shelf.new) → IsNotIncreased (K.faults out.old) (K.faults out.new)
        → IfSome (S.held shelf.old command.now.file.now) (IsComplete result command.now.budget) }
    ensures refusal { IsNotIncreased (S.faults shelf.old) (S.faults shelf.new) → IfSome (S.held shelf.old command.now.file.now) (IsRefusedAs result) }
{
    match load(alloc, command.file, shelf) {
        Ok(job) => ending_of_run(run_job(alloc, job, command.budget, out).end),
        Err(ending) => ending,
    }
}

/// The ending of the program by that of its run.
fn ending_of_run(end: RunEnding) -> Ending
    ensures { result ≡ ending_after end }
{
    match end {
        RunEnding::Finished => Ending::Finished,
        RunEnding::Halted(status) => Ending::Halted(status),
        RunEnding::Budget => Ending::Budget,
        RunEnding::WriteFault => Ending::WriteFault,
        RunEnding::NoMemory => Ending::NoMemory,
    }
}

/// The job for which a text stands.
fn load<S: Shelf>(alloc: Global, file: &str, shelf: &mut S) -> Result<Job, Ending>
    ensures once { S.drawn shelf.new ≤ S.drawn shelf.old + 16777217 }
    ensures job { IfOk result (IsJobLoaded (S.held shelf.old file.now)) }
    ensures cause { IfErr result (IsLoadFault (S.held shelf.old file.now)) }
    ensures read_fault { IsErrOf result Ending.ReadFault → Increased (S.faults shelf.old) (S.faults shelf.new) }
    ensures read_quiet { result ≢ Err Ending.ReadFault → S.faults shelf.new ≡ S.faults shelf.old }
    ensures too_long { IsErrOf result Ending.TooLong → IncreasedBy 16777217 (S.drawn shelf.old) (S.drawn shelf.new) }
    ensures long { IsErrOf result Ending.TooLong → IfSome (S.held shelf.old file.now) (λ told. 16777216 < length told) }
    ensures short { IsReadWhole result → IfSome (S.held shelf.old file.now) (λ told. length told ≤ 16777216) }
{
    match shelf.read_all(alloc, file, LONGEST_TEXT) {
        Ok(bytes) => job_of(alloc, &bytes),
        Err(ReadRefusal::ReadFault) => Err(Ending::ReadFault),
        Err(ReadRefusal::TooLong) => Err(Ending::TooLong),
        Err(ReadRefusal::NoMemory) => Err(Ending::NoMemory),
    }
}
